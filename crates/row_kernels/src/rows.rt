//! The rows that the kernels run over.
ghost use Rattle.std.specs.Prelude.{◌≡◌, ◌++◌, ◌∷◌, [], None, length, IfOk, OnOk};
ghost use Rattle.row_base.specs.Schema.{schema_fault};
ghost use Rattle.row_kernels.specs.Rows as spec;

use row_base::{Column, Datum, Items, Kind, NoMemory, Rows, Schema, Text};
use std::alloc::Global;

/// Puts the data of a number's row behind a list.
fn push_data(step: u8, number: u32, row: &mut Vec<Datum>) -> Result<(), NoMemory>
    ensures { OnOk result (row.new.items ≡ row.old.items ++ spec.row_of step number) }
{
    let id = u64::from(number) * u64::from(step);
    row.push(Datum::Long(id as i64))?;
    row.push(Datum::Long(i64::from(number % 10)))?;
    Ok(())
}

/// So many rows of two longs: `id`, the multiples of a step from 0 on, and `v`, the last digit of the row's number.
#[tactic(auto, unfolding(crate::specs::Rows::rows_of))]
pub fn rows_of(alloc: Global, step: u8, count: u32) -> Result<Rows, NoMemory>
    ensures { IfOk result (λ rows. rows ≡ spec.rows_of step count) }
{
    let mut rows = Rows::new(alloc);
    let mut row = Vec::with_capacity(alloc, 2)?;
    for number in 0..count {
        push_data(step, number, &mut row)?;
        rows.push_from(&mut row)?;
    }
    Ok(rows)
}

/// So many rows of one long, which is the row's number.
#[tactic(auto, unfolding(crate::specs::Rows::key_rows), using(crate::proofs::Widths::keys_more))]
pub(crate) fn key_rows(alloc: Global, count: u32) -> Result<Rows, NoMemory>
    ensures { IfOk result (λ rows. rows ≡ spec.key_rows count) }
{
    let mut rows = Rows::new(alloc);
    for number in 0..count {
        rows.push_copy(&[Datum::Long(i64::from(number))])?;
    }
    Ok(rows)
}

/// The place of the column `id`, alone.
pub(crate) fn id_alone(alloc: Global) -> Result<Items<u32>, NoMemory>
    ensures { IfOk result (λ places. places ≡ 0 ∷ []) }
{
    let mut places = Vec::with_capacity(alloc, 1)?;
    places.push_reserved(0);
    Ok(Items::from_vec(places))
}

/// How many rows are made.
pub fn run_made(alloc: Global, count: u32) -> Result<u64, NoMemory>
    ensures { IfOk result (λ n. n ≡ length (spec.rows_of 1 count)) }
{
    let rows = rows_of(alloc, 1, count)?;
    Ok(rows.len() as u64)
}

pub(crate) fn column(
    alloc: Global,
    name: &str,
    kind: Kind,
    nullable: bool,
) -> Result<Column, NoMemory>
    ensures { IfOk result (λ column. column ≡ spec.column name.now kind nullable) }
{
    Ok(Column {
        name: Text::make(alloc, name)?,
        kind,
        nullable,
    })
}

/// The schema of the column `id` and another one.
pub(crate) fn schema_with(alloc: Global, other: Column) -> Result<Schema, NoMemory>
    requires { schema_fault (spec.columns_with other) [] ≡ None }
    ensures { IfOk result (λ schema. schema ≡ spec.schema_with other) }
{
    let mut columns = Vec::new(alloc);
    columns.push(column(alloc, "id", Kind::Long, false)?)?;
    columns.push(other)?;
    Ok(Schema::make(columns, Vec::new(alloc)).unwrap())
}

/// The schema of the rows of two longs.
pub(crate) fn schema_of(alloc: Global) -> Result<Schema, NoMemory>
    ensures { IfOk result (λ schema. schema ≡ spec.schema) }
{
    let other = column(alloc, "v", Kind::Long, false)?;
    schema_with(alloc, other)
}
