//! The values of a file's partition columns, as they are written.
ghost use Rattle.std.specs.Prelude.{◌≡◌, [], Ok, IfOk};
ghost use Rattle.std.specs.List.{All};
ghost use Rattle.row_base.specs.Schema.{IsSchema};
ghost use Rattle.schema_text.specs.Partition.{partition_row};
ghost use Rattle.schema_text.specs.PartitionWritten as spec;

use log_actions::{Entry, PartitionMap};
use row_base::{Datum, Items, NoMemory, Row, Schema, Text, write_date};
use std::alloc::Global;
use std::collections::BTreeMap;

/// The text of a datum.
fn datum_text(alloc: Global, datum: &Datum) -> Result<Text, NoMemory>
    requires { spec.HasText datum.now }
    ensures { IfOk result (λ t. t ≡ spec.datum_text datum.now) }
{
    match datum {
        Datum::Null => Text::make(alloc, ""),
        Datum::Long(number) => Text::from_string(number.to_string(alloc)?),
        Datum::Integer(number) => Text::from_string(number.to_string(alloc)?),
        Datum::Boolean(true) => Text::make(alloc, "true"),
        Datum::Boolean(false) => Text::make(alloc, "false"),
        Datum::Text(text) => text.copy(),
        Datum::Date(day) => write_date(alloc, *day),
    }
}

/// The text of the datum at this place of a row.
fn text_at(alloc: Global, row: &Row, place: usize) -> Result<Text, NoMemory>
    requires { All spec.HasText row.now }
    ensures { IfOk result (λ t. t ≡ spec.datum_text (spec.datum_at row.now place)) }
{
    let data = row.as_slice();
    if place < data.len() {
        datum_text(alloc, &data[place])
    } else {
        Text::make(alloc, "")
    }
}

/// The texts of the partition columns by the columns' names.
fn texts_of(alloc: Global, schema: &Schema, row: &Row) -> Result<BTreeMap<Text, Text>, NoMemory>
    requires { All spec.HasText row.now }
    ensures texts { IfOk result (λ m. m.entries ≡ spec.texts_from schema.now.partition row.now 0 schema.now.columns []) }
    ensures valid { IsSchema schema.now }
{
    let mut texts = BTreeMap::new(alloc);
    for (i, column) in schema.columns().iter().enumerate() {
        if schema.is_partition(i as u32) {
            let text = text_at(alloc, row, i)?;
            texts.insert(column.name.copy()?, text)?;
        }
    }
    Ok(texts)
}

/// The values that are these texts.
fn values_of(alloc: Global, texts: &BTreeMap<Text, Text>) -> Result<PartitionMap, NoMemory>
    ensures { IfOk result (λ m. m ≡ spec.values_of texts.now.entries) }
{
    let mut values = Vec::new(alloc);
    for (name, text) in texts.iter() {
        let name = name.copy()?;
        let value = Some(text.copy()?);
        values.push(Entry { name, value })?;
    }
    Ok(Items::from_vec(values))
}

/// The values of the partition columns of a row, in byte order of the columns' names; null is the empty text, and so
/// is a datum that the row lacks (PROTOCOL.md, "Partition Value Serialization"). What can stand in its column is read
/// back.
#[tactic(auto, unfolding(crate::specs::PartitionWritten::partition_values))]
pub fn write_partition(alloc: Global, schema: &Schema, row: &Row) -> Result<PartitionMap, NoMemory>
    requires { All spec.HasText row.now }
    ensures values { IfOk result (λ m. m ≡ spec.partition_values schema.now row.now) }
    ensures back { IfOk result (λ m. spec.HasValues schema.now.partition row.now 0 schema.now.columns
        → partition_row schema.now m ≡ Ok (spec.partition_data schema.now row.now)) }
{
    let texts = texts_of(alloc, schema, row)?;
    let values = values_of(alloc, &texts)?;
    Ok(values)
}
