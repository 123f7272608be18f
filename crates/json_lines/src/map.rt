//! Values by names, as JSON objects hold them.
ghost use Rattle.std.specs.Prelude.{◌≡◌, IfOk};
ghost use Rattle.serde_json.specs.Data.{object};
ghost use Rattle.serde_json.specs.View.{members_view};
ghost use Rattle.row_base.specs.Readings.{Gives};
ghost use Rattle.json_lines.specs.Gives.{is_memory};
ghost use Rattle.json_lines.specs.Kinds as spec;
ghost use Rattle.json_lines.specs.Written.{map_data, text_map_data, nullable_map_data};

use crate::fault::ShapeFault;
use crate::member::Member;
use row_base::{Items, NoMemory, Text};
use serde_json::{Map, Value, put};
use std::alloc::Global;

/// A name with its value.
#[derive(Debug, Drop)]
pub struct Entry<V> {
    pub name: Text,
    pub value: V,
}

/// Texts by their names, as read from a JSON object: in byte order of the names.
pub type TextMap = Items<Entry<Text>>;

/// Texts and nulls by their names, as read from a JSON object: in byte order of the names.
pub type NullableMap = Items<Entry<Option<Text>>>;

fn entries_in(alloc: Global, members: &Map<String, Value>) -> Result<TextMap, ShapeFault>
    ensures { Gives is_memory (λ x. x) result (spec.entries_in (members_view members.now.entries)) }
{
    let mut entries = Vec::new(alloc);
    for (name, value) in members.iter() {
        let value: Option<Text> = Member::read(alloc, value)?;
        if let Some(value) = value {
            let name = Text::make(alloc, name.as_str())?;
            entries.push(Entry { name, value })?;
        }
    }
    Ok(Items::from_vec(entries))
}

fn nullables_in(alloc: Global, members: &Map<String, Value>) -> Result<NullableMap, ShapeFault>
    ensures { Gives is_memory (λ x. x) result (spec.nullables_in (members_view members.now.entries)) }
{
    let mut entries = Vec::new(alloc);
    for (name, value) in members.iter() {
        let value = Member::read(alloc, value)?;
        let name = Text::make(alloc, name.as_str())?;
        entries.push(Entry { name, value })?;
    }
    Ok(Items::from_vec(entries))
}

#[tactic(auto, unfolding(crate::specs::Written::map_data))]
fn entries_members<V: Member>(
    alloc: Global,
    entries: &[Entry<V>],
) -> Result<Map<String, Value>, NoMemory>
    ensures { IfOk result (λ m. object (members_view m.entries) ≡ map_data V.written entries.now) }
{
    let mut members = Map::new(alloc);
    for entry in entries {
        let value = entry.value.write(alloc)?;
        put(&mut members, alloc, entry.name.as_str(), value)?;
    }
    Ok(members)
}

/// Texts by their names, in byte order of these. A null stands for nothing.
impl Member for Items<Entry<Text>> {
    ghost kind = { spec.as_text_map };

    ghost written = { text_map_data };

    #[tactic(auto, unfolding(crate::specs::Kinds::as_text_map))]
    fn read(alloc: Global, value: &Value) -> Result<TextMap, ShapeFault> {
        match value.as_object() {
            Some(members) => entries_in(alloc, members),
            None => Err(ShapeFault::Shape),
        }
    }

    fn write(&self, alloc: Global) -> Result<Value, NoMemory> {
        Ok(Value::Object(entries_members(alloc, self.as_slice())?))
    }
}

/// Texts and nulls by their names, in byte order of these.
impl Member for Items<Entry<Option<Text>>> {
    ghost kind = { spec.as_nullable_map };

    ghost written = { nullable_map_data };

    #[tactic(auto, unfolding(crate::specs::Kinds::as_nullable_map))]
    fn read(alloc: Global, value: &Value) -> Result<NullableMap, ShapeFault> {
        match value.as_object() {
            Some(members) => nullables_in(alloc, members),
            None => Err(ShapeFault::Shape),
        }
    }

    fn write(&self, alloc: Global) -> Result<Value, NoMemory> {
        Ok(Value::Object(entries_members(alloc, self.as_slice())?))
    }
}
