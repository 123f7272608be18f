//! The fields of a schema's text.
ghost use Rattle.std.specs.Prelude.{◌≡◌, codes, option_map};
ghost use Rattle.serde_json.specs.Find.{as_array};
ghost use Rattle.serde_json.specs.View.{view, items_view};
ghost use Rattle.row_base.specs.Readings.{Gives};
ghost use Rattle.json_lines.specs.Gives.{is_memory};
ghost use Rattle.json_lines.specs.Kinds as kinds;
ghost use Rattle.schema_text.specs.Fields as spec;

use json_lines::{ShapeFault, needed, present};
use row_base::{Kind, Text};
use serde_json::Value;
use std::alloc::Global;

/// A field of a struct type (PROTOCOL.md, "Struct Field").
#[derive(Debug, Drop)]
pub(crate) struct Field {
    pub(crate) name: Text,
    /// `None` for a type that isn't supported.
    pub(crate) kind: Option<Kind>,
    pub(crate) nullable: bool,
    pub(crate) has_invariant: bool,
}

#[tactic(auto, unfolding(crate::specs::Fields::kind_named))]
fn kind_named(name: &str) -> Option<Kind>
    ensures { result ≡ spec.kind_named name.now }
{
    match name {
        "long" => Some(Kind::Long),
        "integer" => Some(Kind::Integer),
        "boolean" => Some(Kind::Boolean),
        "string" => Some(Kind::String),
        "date" => Some(Kind::Date),
        _ => None,
    }
}

fn type_in(value: &Value) -> Result<Option<Kind>, ShapeFault>
    ensures { Gives is_memory (λ x. x) result (spec.type_in (view value.now)) }
{
    match value {
        Value::String(name) => Ok(kind_named(name.as_str())),
        Value::Object(_) => Ok(None),
        _ => Err(ShapeFault::Shape),
    }
}

#[tactic(auto, unfolding(json_lines::specs::Kinds::needed))]
fn needed_type(field: &Value) -> Result<Option<Kind>, ShapeFault>
    ensures { Gives is_memory (λ x. x) result (kinds.needed spec.type_in (codes "type") (view field.now)) }
{
    match present(field, "type") {
        Some(value) => type_in(value),
        None => Err(ShapeFault::Shape),
    }
}

fn invariant_in(value: &Value) -> Result<bool, ShapeFault>
    ensures { Gives is_memory (λ x. x) result (spec.invariant_in (view value.now)) }
{
    if value.is_object() {
        Ok(present(value, "delta.invariants").is_some())
    } else {
        Err(ShapeFault::Shape)
    }
}

#[tactic(auto, unfolding(json_lines::specs::Kinds::needed))]
fn needed_invariant(field: &Value) -> Result<bool, ShapeFault>
    ensures { Gives is_memory (λ x. x) result (kinds.needed spec.invariant_in (codes "metadata") (view field.now)) }
{
    match present(field, "metadata") {
        Some(value) => invariant_in(value),
        None => Err(ShapeFault::Shape),
    }
}

/// The field of a struct type that a value is.
#[tactic(auto, unfolding(crate::specs::Fields::field_of))]
pub(crate) fn read_field(alloc: Global, value: &Value) -> Result<Field, ShapeFault>
    ensures { Gives is_memory (λ x. x) result (spec.field_of (view value.now)) }
{
    let name = needed(alloc, value, "name")?;
    let kind = needed_type(value)?;
    let nullable = needed(alloc, value, "nullable")?;
    let has_invariant = needed_invariant(value)?;
    Ok(Field {
        name,
        kind,
        nullable,
        has_invariant,
    })
}

#[tactic(auto, unfolding(crate::specs::Fields::is_struct, json_lines::specs::Kinds::needed))]
fn is_struct(value: &Value) -> bool
    ensures { result ≡ spec.is_struct (view value.now) }
{
    match present(value, "type") {
        Some(Value::String(name)) => name.as_str() == "struct",
        _ => false,
    }
}

#[tactic(auto, unfolding(json_lines::specs::Kinds::needed))]
fn needed_items(value: &Value) -> Option<&[Value]>
    ensures { option_map (λ v. items_view v.now) result ≡ kinds.needed as_array (codes "fields") (view value.now) }
{
    match present(value, "fields") {
        Some(Value::Array(items)) => Some(items.as_slice()),
        _ => None,
    }
}

/// The fields of a struct type.
#[tactic(auto, unfolding(crate::specs::Fields::struct_fields))]
pub(crate) fn struct_fields(value: &Value) -> Option<&[Value]>
    ensures { option_map (λ v. items_view v.now) result ≡ spec.struct_fields (view value.now) }
{
    if is_struct(value) {
        needed_items(value)
    } else {
        None
    }
}
