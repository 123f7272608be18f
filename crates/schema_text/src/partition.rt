//! The values of a file's partition columns.
ghost use Rattle.std.specs.Prelude.{◌≡◌, IfOk, option_map};
ghost use Rattle.std.specs.List.{All};
ghost use Rattle.row_base.specs.Faults.{Reads};
ghost use Rattle.schema_text.specs.Faults.{is_memory};
ghost use Rattle.schema_text.specs.Partition as spec;
ghost use Rattle.schema_text.specs.PartitionWritten.{HasText};

use crate::fault::SchemaTextFault;
use log_actions::PartitionMap;
use row_base::limits::MAX_TEXT_BYTES;
use row_base::numbers::read_long;
use row_base::{Column, Datum, Kind, NoMemory, Row, Schema, Text, read_date};
use std::alloc::Global;

fn long_datum(text: &Text) -> Option<Datum>
    ensures { result ≡ spec.long_datum text.now }
{
    match read_long(text.as_str().as_bytes()) {
        Some(number) => Some(Datum::Long(number)),
        None => None,
    }
}

/// The number of 32 bits that a text writes in decimal.
fn integer_in(text: &[u8]) -> Option<i32>
    ensures { result ≡ spec.integer_in text.now }
{
    match read_long(text) {
        Some(number) => i32::try_from(number).ok(),
        None => None,
    }
}

fn integer_datum(text: &Text) -> Option<Datum>
    ensures { result ≡ spec.integer_datum text.now }
{
    match integer_in(text.as_str().as_bytes()) {
        Some(number) => Some(Datum::Integer(number)),
        None => None,
    }
}

fn boolean_datum(text: &Text) -> Option<Datum>
    ensures { result ≡ spec.boolean_datum text.now }
{
    if text.as_str() == "true" {
        Some(Datum::Boolean(true))
    } else if text.as_str() == "false" {
        Some(Datum::Boolean(false))
    } else {
        None
    }
}

fn text_datum(text: &Text) -> Result<Option<Datum>, NoMemory>
    ensures { IfOk result (λ o. o ≡ spec.text_datum text.now) }
{
    if text.as_str().len() <= MAX_TEXT_BYTES {
        Ok(Some(Datum::Text(text.copy()?)))
    } else {
        Ok(None)
    }
}

fn date_datum(text: &Text) -> Option<Datum>
    ensures { result ≡ spec.date_datum text.now }
{
    match read_date(text) {
        Some(day) => Some(Datum::Date(day)),
        None => None,
    }
}

/// The datum of a kind that a text stands for.
fn datum_of(kind: Kind, text: &Text) -> Result<Option<Datum>, NoMemory>
    ensures { IfOk result (λ o. o ≡ spec.datum_of kind text.now) }
{
    match kind {
        Kind::Long => Ok(long_datum(text)),
        Kind::Integer => Ok(integer_datum(text)),
        Kind::Boolean => Ok(boolean_datum(text)),
        Kind::String => text_datum(text),
        Kind::Date => Ok(date_datum(text)),
    }
}

/// The text, where it is there and isn't empty.
fn filled(text: &Option<Text>) -> Option<&Text>
    ensures { option_map (λ t. t.now) result ≡ spec.filled text.now }
{
    match text {
        Some(text) => {
            if text.as_str().is_empty() {
                None
            } else {
                Some(text)
            }
        }
        None => None,
    }
}

/// The text of the value of the column of this name, where it isn't null.
fn text_of<'a>(values: &'a PartitionMap, name: &Text) -> Option<&'a Text>
    ensures { option_map (λ t. t.now) result ≡ spec.text_of values.now name.now }
{
    for value in values.as_slice() {
        if value.name == *name {
            return filled(&value.value);
        }
    }
    None
}

/// The datum that a text stands for in a column.
fn some_datum(column: &Column, text: &Text) -> Result<Datum, SchemaTextFault>
    ensures { Reads is_memory result (spec.or_value column.now.name (spec.datum_of column.now.kind text.now)) }
{
    match datum_of(column.kind, text)? {
        Some(datum) => Ok(datum),
        None => Err(SchemaTextFault::Value {
            name: column.name.copy()?,
        }),
    }
}

/// The null of a column.
fn null_datum(column: &Column) -> Result<Datum, SchemaTextFault>
    ensures { Reads is_memory result (spec.or_value column.now.name (spec.null_datum column.now.nullable)) }
{
    if column.nullable {
        Ok(Datum::Null)
    } else {
        Err(SchemaTextFault::Value {
            name: column.name.copy()?,
        })
    }
}

/// The datum that a partition column has.
#[tactic(auto, unfolding(crate::specs::Partition::datum_in))]
fn datum_in(values: &PartitionMap, column: &Column) -> Result<Datum, SchemaTextFault>
    ensures { Reads is_memory result (spec.datum_in values.now column.now) }
{
    match text_of(values, &column.name) {
        Some(text) => some_datum(column, text),
        None => null_datum(column),
    }
}

/// The datum of the column at this place.
fn cell(
    schema: &Schema,
    values: &PartitionMap,
    place: u32,
    column: &Column,
) -> Result<Datum, SchemaTextFault>
    ensures { Reads is_memory result (spec.cell schema.now.partition values.now place column.now) }
{
    if schema.is_partition(place) {
        datum_in(values, column)
    } else {
        Ok(Datum::Null)
    }
}

/// The data of all columns.
#[tactic(auto, unfolding(crate::specs::Partition::partition_row))]
fn row_of(alloc: Global, schema: &Schema, values: &PartitionMap) -> Result<Row, SchemaTextFault>
    ensures { Reads is_memory result (spec.partition_row schema.now values.now) }
{
    let mut row = Vec::new(alloc);
    for (i, column) in schema.columns().iter().enumerate() {
        row.push(cell(schema, values, i as u32, column)?)?;
    }
    Ok(Row::make(row))
}

/// The row that the values of a file's partition columns stand for: their data, and null in each other column. The
/// fault is that of the first column whose value has no reading (PROTOCOL.md, "Partition Value Serialization").
#[tactic(auto, using(crate::proofs::DatesRead::row_has_texts))]
pub fn read_partition(
    alloc: Global,
    schema: &Schema,
    values: &PartitionMap,
) -> Result<Row, SchemaTextFault>
    ensures row { Reads is_memory result (spec.partition_row schema.now values.now) }
    ensures texts { IfOk result (λ r. All HasText r) }
{
    let row = row_of(alloc, schema, values)?;
    Ok(row)
}
