//! The statistics of rows.
ghost use Rattle.std.specs.Prelude.{◌≡◌, IfOk, IfSome, option_map};
ghost use Rattle.std.specs.List.{All};
ghost use Rattle.row_base.specs.Schema.{FitsSchema};
ghost use Rattle.file_stats.specs.Columns as spec;
ghost use Rattle.file_stats.specs.Laws.{HasWidth, HaveWidth, StatsFit};

use crate::bound::Bound;
use crate::stats::{ColumnStats, Stats};
use row_base::{Datum, Items, NoMemory, RowSlice, Rows, Schema};
use std::alloc::Global;

/// Whether a datum is null.
fn is_null(datum: &Datum) -> bool
    ensures { result ≡ spec.is_null datum.now }
{
    if let Datum::Null = datum { true } else { false }
}

/// Whether a row is null in a column.
fn is_null_in(row: &[Datum], place: usize) -> bool
    ensures { result ≡ spec.is_null (spec.cell row.now place) }
{
    if place < row.len() {
        is_null(&row[place])
    } else {
        true
    }
}

/// A datum that isn't null.
fn unless_null(datum: &Datum) -> Option<&Datum>
    ensures { option_map (λ d. d.now) result ≡ spec.value_of datum.now }
{
    if is_null(datum) { None } else { Some(datum) }
}

/// What a row has in a column, where that isn't null.
fn value_in(row: &[Datum], place: usize) -> Option<&Datum>
    ensures { option_map (λ d. d.now) result ≡ spec.value_of (spec.cell row.now place) }
{
    if place < row.len() {
        unless_null(&row[place])
    } else {
        None
    }
}

/// The same of the row at this place among rows.
fn value_at<'a>(rows: &RowSlice<'a>, row: usize, place: usize) -> Option<&'a Datum>
    ensures { option_map (λ d. d.now) result ≡ spec.value_at rows.now row place }
{
    match rows.get(row) {
        Some(row) => value_in(row, place),
        None => None,
    }
}

/// The least or the greatest value of a column.
#[tactic(auto, unfolding(crate::specs::Columns::bound_of), using(crate::proofs::Steps::bound_before))]
fn outermost(bound: Bound, rows: &Rows, place: usize) -> Option<&Datum>
    ensures { option_map (λ d. d.now) result ≡ spec.bound_of bound (spec.column_in rows.now place) }
{
    let slice = rows.iter();
    let mut found: Option<&Datum> = None;
    let mut i = slice.len();
    while 0 < i {
        i -= 1;
        found = bound.outer(value_at(&slice, i, place), found);
    }
    found
}

/// The same datum.
fn itself(datum: Datum) -> Datum
    ensures same { result ≡ datum }
    ensures width { HasWidth result }
{
    datum
}

/// The same, of its own.
fn bound_of(bound: Bound, rows: &Rows, place: usize) -> Result<Option<Datum>, NoMemory>
    ensures bound { IfOk result (λ o. o ≡ spec.bound_of bound (spec.column_in rows.now place)) }
    ensures width { IfOk result (λ o. IfSome o HasWidth) }
{
    match outermost(bound, rows, place) {
        Some(value) => Ok(Some(itself(value.copy()?))),
        None => Ok(None),
    }
}

/// How many rows are null in a column.
#[tactic(auto, using(crate::proofs::Steps::count_within))]
fn null_count(rows: &Rows, place: usize) -> u64
    ensures { result ≡ spec.null_count (spec.column_in rows.now place) }
{
    let mut count = 0;
    for row in rows.iter() {
        if is_null_in(row, place) {
            count += 1;
        }
    }
    count
}

/// The statistics of a column.
fn column_stats(rows: &Rows, place: usize) -> Result<ColumnStats, NoMemory>
    ensures stats { IfOk result (λ c. c ≡ spec.column_stats (spec.column_in rows.now place)) }
    ensures width { IfOk result HaveWidth }
{
    let least = bound_of(Bound::Least, rows, place)?;
    let greatest = bound_of(Bound::Greatest, rows, place)?;
    Ok(ColumnStats {
        nulls: Some(null_count(rows, place)),
        least,
        greatest,
    })
}

/// The statistics of the column at this place, unless it is a partition column.
fn stats_at(schema: &Schema, rows: &Rows, place: u32) -> Result<ColumnStats, NoMemory>
    ensures stats { IfOk result (λ c. c ≡ spec.of_data_column schema.now place (spec.column_stats (spec.column_in rows.now place))) }
    ensures width { IfOk result HaveWidth }
{
    if schema.is_partition(place) {
        Ok(ColumnStats::nothing())
    } else {
        column_stats(rows, place as usize)
    }
}

/// The statistics of a file with these rows, all of which are known. They are true of the rows, and those of rows that
/// fit the schema are read back.
pub fn stats_of(alloc: Global, schema: &Schema, rows: &Rows) -> Result<Stats, NoMemory>
    ensures stats { IfOk result (λ s. s ≡ spec.stats_of schema.now rows.now) }
    ensures truth { IfOk result (λ s. spec.AreTrue s rows.now) }
    ensures fit { IfOk result (λ s. All (FitsSchema schema.now) rows.now → StatsFit schema.now s) }
{
    let columns = columns_of(alloc, schema, rows)?;
    Ok(Stats {
        count: Some(rows.len() as u64),
        columns,
    })
}

/// The statistics of each column.
fn columns_of(alloc: Global, schema: &Schema, rows: &Rows) -> Result<Items<ColumnStats>, NoMemory>
    ensures stats { IfOk result (λ cs. cs ≡ spec.columns_of schema.now rows.now) }
    ensures width { IfOk result (All HaveWidth) }
{
    let mut columns = Vec::with_capacity(alloc, schema.columns().len())?;
    for (i, _column) in schema.columns().iter().enumerate() {
        columns.push(stats_at(schema, rows, i as u32)?)?;
    }
    Ok(Items::from_vec(columns))
}
