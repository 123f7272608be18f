//! The properties of a table that is made.
ghost use Rattle.std.specs.Prelude.{◌≡◌, map, IfOk};
ghost use Rattle.commit_plans.specs.Properties as spec;

use json_lines::{Entry, TextMap};
use op_types::Property;
use row_base::{Items, NoMemory, Text};
use std::alloc::Global;
use std::collections::BTreeMap;

/// The values by their keys.
#[tactic(auto, unfolding(crate::specs::Properties::values_by_key, crate::specs::Properties::policy_key, crate::specs::Properties::policy_value))]
fn values_by_key(alloc: Global, properties: &[Property]) -> Result<BTreeMap<Text, Text>, NoMemory>
    ensures { IfOk result (λ m. m.entries ≡ spec.values_by_key properties.now) }
{
    let mut values = BTreeMap::new(alloc);
    let policy = Text::make(alloc, "delta.checkpointPolicy")?;
    values.insert(policy, Text::make(alloc, "v2")?)?;
    for i in (0..properties.len()).rev() {
        let property = &properties[i];
        values.insert(property.key.copy()?, property.value.copy()?)?;
    }
    Ok(values)
}

/// The values as the entries of a map.
fn entries_in(alloc: Global, values: BTreeMap<Text, Text>) -> Result<TextMap, NoMemory>
    ensures { IfOk result (λ m. m ≡ map spec.entry_in values.entries) }
{
    let mut entries = Vec::with_capacity(alloc, values.len())?;
    for (name, value) in values {
        entries.push(Entry { name, value })?;
    }
    Ok(Items::from_vec(entries))
}

/// The properties of a table that is made: those of its statement, in byte order of their keys, and where they name no
/// `delta.checkpointPolicy`, this one with the value `v2`. Of several with one key the first counts. The error is want
/// of memory.
#[tactic(auto, unfolding(crate::specs::Properties::made_properties))]
pub fn made_properties(alloc: Global, properties: &[Property]) -> Result<TextMap, NoMemory>
    ensures { IfOk result (λ m. m ≡ spec.made_properties properties.now) }
{
    let values = values_by_key(alloc, properties)?;
    let entries = entries_in(alloc, values)?;
    Ok(entries)
}
