//! Statistics that are read.
ghost use Rattle.std.specs.Prelude.{◌≡◌, IfOk, option_map, option_and_then, codes};
ghost use Rattle.serde_json.specs.Find.{as_str};
ghost use Rattle.serde_json.specs.View.{view};
ghost use Rattle.json_lines.specs.Kinds as kinds;
ghost use Rattle.json_lines.specs.Lines.{object_of_line};
ghost use Rattle.row_base.specs.declared.row.Datum.TheVariants as datum;
ghost use Rattle.row_base.specs.Dates.{date_in};
ghost use Rattle.file_stats.specs.Columns.{of_data_column};
ghost use Rattle.file_stats.specs.Reading as spec;

use crate::stats::{ColumnStats, Stats};
use json_lines::{ShapeFault, present, read_object};
use row_base::{Column, Datum, Items, Kind, NoMemory, Schema, Text, read_date};
use serde_json::Value;
use std::alloc::Global;

/// The object that a text is.
fn object_in(alloc: Global, text: &Text) -> Result<Option<Value>, NoMemory>
    ensures { IfOk result (λ o. option_map view o ≡ object_of_line text.now) }
{
    match read_object(alloc, text.as_bytes()) {
        Ok(value) => Ok(Some(value)),
        Err(ShapeFault::Shape) => Ok(None),
        Err(ShapeFault::NoMemory) => Err(NoMemory),
    }
}

/// What a member of the statistics says of the column of this name.
fn said<'a>(stats: &'a Value, member: &str, name: &Text) -> Option<&'a Value>
    ensures { option_map (λ v. view v.now) result ≡ spec.said member.now name.now (view stats.now) }
{
    match present(stats, member) {
        Some(values) => present(values, name.as_str()),
        None => None,
    }
}

/// How many.
fn count_as(value: Option<&Value>) -> Option<u64>
    ensures { result ≡ option_and_then spec.count_as (option_map (λ v. view v.now) value.entry) }
{
    match value {
        Some(value) => value.as_u64(),
        None => None,
    }
}

fn long_bound(value: &Value) -> Option<Datum>
    ensures { result ≡ option_map datum.Long (spec.long_as (view value.now)) }
{
    match value.as_i64() {
        Some(number) => Some(Datum::Long(number)),
        None => None,
    }
}

/// A number of 32 bits.
fn integer_as(value: &Value) -> Option<i32>
    ensures { result ≡ option_and_then spec.narrowed (spec.long_as (view value.now)) }
{
    match value.as_i64() {
        Some(number) => i32::try_from(number).ok(),
        None => None,
    }
}

fn integer_bound(value: &Value) -> Option<Datum>
    ensures { result ≡ option_map datum.Integer (option_and_then spec.narrowed (spec.long_as (view value.now))) }
{
    match integer_as(value) {
        Some(number) => Some(Datum::Integer(number)),
        None => None,
    }
}

fn text_as(alloc: Global, value: &Value) -> Result<Option<Text>, NoMemory>
    ensures { IfOk result (λ o. o ≡ as_str (view value.now)) }
{
    match value.as_str() {
        Some(text) => Ok(Some(Text::make(alloc, text)?)),
        None => Ok(None),
    }
}

fn text_bound(alloc: Global, value: &Value) -> Result<Option<Datum>, NoMemory>
    ensures { IfOk result (λ o. o ≡ option_map datum.Text (as_str (view value.now))) }
{
    match text_as(alloc, value)? {
        Some(text) => Ok(Some(Datum::Text(text))),
        None => Ok(None),
    }
}

fn day_as(alloc: Global, value: &Value) -> Result<Option<i32>, NoMemory>
    ensures { IfOk result (λ o. o ≡ option_and_then date_in (as_str (view value.now))) }
{
    match text_as(alloc, value)? {
        Some(text) => Ok(read_date(&text)),
        None => Ok(None),
    }
}

fn date_bound(alloc: Global, value: &Value) -> Result<Option<Datum>, NoMemory>
    ensures { IfOk result (λ o. o ≡ option_map datum.Date (option_and_then date_in (as_str (view value.now)))) }
{
    match day_as(alloc, value)? {
        Some(day) => Ok(Some(Datum::Date(day))),
        None => Ok(None),
    }
}

/// The bound in a column of this kind that a value is.
fn bound_of_kind(alloc: Global, kind: Kind, value: &Value) -> Result<Option<Datum>, NoMemory>
    ensures { IfOk result (λ o. o ≡ spec.bound_as kind (view value.now)) }
{
    match kind {
        Kind::Long => Ok(long_bound(value)),
        Kind::Integer => Ok(integer_bound(value)),
        Kind::Boolean => Ok(None),
        Kind::String => text_bound(alloc, value),
        Kind::Date => date_bound(alloc, value),
    }
}

/// The same of a value that there may be.
fn bound_as(alloc: Global, kind: Kind, value: Option<&Value>) -> Result<Option<Datum>, NoMemory>
    ensures { IfOk result (λ o. o ≡ option_and_then (spec.bound_as kind) (option_map (λ v. view v.now) value.entry)) }
{
    match value {
        Some(value) => bound_of_kind(alloc, kind, value),
        None => Ok(None),
    }
}

/// What is said of a column.
fn column_as(alloc: Global, stats: &Value, column: &Column) -> Result<ColumnStats, NoMemory>
    ensures { IfOk result (λ c. c ≡ spec.column_as (view stats.now) column.now) }
{
    let name = &column.name;
    let least = bound_as(alloc, column.kind, said(stats, "minValues", name))?;
    let greatest = bound_as(alloc, column.kind, said(stats, "maxValues", name))?;
    Ok(ColumnStats {
        nulls: count_as(said(stats, "nullCount", name)),
        least,
        greatest,
    })
}

/// What is said of the column at this place, unless it is a partition column.
fn stats_at(
    alloc: Global,
    schema: &Schema,
    stats: &Value,
    place: u32,
    column: &Column,
) -> Result<ColumnStats, NoMemory>
    ensures { IfOk result (λ c. c ≡ of_data_column schema.now place (spec.column_as (view stats.now) column.now)) }
{
    if schema.is_partition(place) {
        Ok(ColumnStats::nothing())
    } else {
        column_as(alloc, stats, column)
    }
}

/// What is said of each column.
fn columns_as(alloc: Global, schema: &Schema, stats: &Value) -> Result<Items<ColumnStats>, NoMemory>
    ensures { IfOk result (λ cs. cs ≡ spec.columns_as schema.now (view stats.now)) }
{
    let mut columns = Vec::with_capacity(alloc, schema.columns().len())?;
    for (i, column) in schema.columns().iter().enumerate() {
        columns.push(stats_at(alloc, schema, stats, i as u32, column)?)?;
    }
    Ok(Items::from_vec(columns))
}

/// The statistics that a text says, where it is the JSON text of an object whose members nest to 127 levels at most.
/// What is absent, null, of another kind than the column, or out of its range isn't known. Truth values have no bounds.
pub fn read_stats(alloc: Global, schema: &Schema, text: &Text) -> Result<Option<Stats>, NoMemory>
    ensures { IfOk result (λ o. o ≡ spec.stats_in schema.now text.now) }
{
    match object_in(alloc, text)? {
        Some(stats) => {
            let columns = columns_as(alloc, schema, &stats)?;
            let count = count_as(present(&stats, "numRecords"));
            Ok(Some(Stats { count, columns }))
        }
        None => Ok(None),
    }
}
