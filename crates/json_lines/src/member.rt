//! Members of a JSON object. A member that is null counts as absent.
ghost use Rattle.std.specs.Prelude.{◌≡◌, Option, Some, IfOk, OnOk, option_map};
ghost use Rattle.serde_json.specs.Data.{Data};
ghost use Rattle.serde_json.specs.View.{view, members_view};
ghost use Rattle.row_base.specs.Readings.{Gives};
ghost use Rattle.json_lines.specs.Gives.{is_memory};
ghost use Rattle.json_lines.specs.Kinds as spec;
ghost use Rattle.json_lines.specs.Written.{with_member};

use crate::fault::ShapeFault;
use crate::value::integer_of;
use row_base::NoMemory;
use serde_json::{Map, Value, put};
use std::alloc::Global;

/// What the value of a member can be.
pub trait Member: Drop {
    ghost kind: { Data → Option Self };

    ghost written: { Self → Data };

    /// What a JSON value stands for.
    fn read(alloc: Global, value: &Value) -> Result<Self, ShapeFault>
        ensures { Gives is_memory (λ x. x) result (kind (view value.now)) };

    /// The JSON value that is written.
    fn write(&self, alloc: Global) -> Result<Value, NoMemory>
        ensures { IfOk result (λ v. view v ≡ written self.now) };
}

fn unless_null(value: &Value) -> Option<&Value>
    ensures { option_map (λ v. view v.now) result ≡ spec.unless_null (view value.now) }
{
    match value {
        Value::Null => None,
        _ => Some(value),
    }
}

/// The member of this name, where it is there and isn't null.
#[tactic(auto, unfolding(crate::specs::Kinds::present))]
pub fn present<'a>(object: &'a Value, name: &str) -> Option<&'a Value>
    ensures { option_map (λ v. view v.now) result ≡ spec.present name.now (view object.now) }
{
    match object.get(name) {
        Some(value) => unless_null(value),
        None => None,
    }
}

/// What a member stands for that has to be there.
#[tactic(auto, unfolding(crate::specs::Kinds::needed))]
pub fn needed<M: Member>(alloc: Global, object: &Value, name: &str) -> Result<M, ShapeFault>
    ensures { Gives is_memory (λ x. x) result (spec.needed M.kind name.now (view object.now)) }
{
    match present(object, name) {
        Some(value) => M::read(alloc, value),
        None => Err(ShapeFault::Shape),
    }
}

/// What a member stands for, where it is there.
#[tactic(auto, unfolding(crate::specs::Kinds::optional))]
pub fn optional<M: Member>(
    alloc: Global,
    object: &Value,
    name: &str,
) -> Result<Option<M>, ShapeFault>
    ensures { Gives is_memory (λ x. x) result (spec.optional M.kind name.now (view object.now)) }
{
    match present(object, name) {
        Some(value) => Ok(Some(M::read(alloc, value)?)),
        None => Ok(None),
    }
}

/// An integer from 0 to the limit that has to be there.
#[tactic(auto, unfolding(crate::specs::Kinds::needed))]
pub fn needed_integer(object: &Value, name: &str, limit: u64) -> Result<u64, ShapeFault>
    ensures { Gives is_memory (λ x. x) result (spec.needed (spec.as_integer limit) name.now (view object.now)) }
{
    match present(object, name) {
        Some(value) => integer_of(value, limit),
        None => Err(ShapeFault::Shape),
    }
}

/// An integer from 0 to the limit, where it is there.
#[tactic(auto, unfolding(crate::specs::Kinds::optional))]
pub fn optional_integer(object: &Value, name: &str, limit: u64) -> Result<Option<u64>, ShapeFault>
    ensures { Gives is_memory (λ x. x) result (spec.optional (spec.as_integer limit) name.now (view object.now)) }
{
    match present(object, name) {
        Some(value) => Ok(Some(integer_of(value, limit)?)),
        None => Ok(None),
    }
}

/// Puts a member into an object.
#[tactic(auto, unfolding(crate::specs::Written::with_member))]
pub fn put_member<M: Member>(
    alloc: Global,
    members: &mut Map<String, Value>,
    name: &str,
    value: &M,
) -> Result<(), NoMemory>
    ensures { OnOk result (members_view members.new.entries
        ≡ with_member name.now (Some (M.written value.now)) (members_view members.old.entries)) }
{
    let value = value.write(alloc)?;
    Ok(put(members, alloc, name, value)?)
}

/// Puts a member into an object, where there is one.
#[tactic(auto, unfolding(crate::specs::Written::with_member))]
pub fn put_optional<M: Member>(
    alloc: Global,
    members: &mut Map<String, Value>,
    name: &str,
    value: &Option<M>,
) -> Result<(), NoMemory>
    ensures { OnOk result (members_view members.new.entries
        ≡ with_member name.now (option_map M.written value.now) (members_view members.old.entries)) }
{
    match value {
        Some(value) => put_member(alloc, members, name, value),
        None => Ok(()),
    }
}
