//! The values of partition columns, which data files don't hold.
ghost use Rattle.std.specs.Prelude.{◌≡◌, [], map, IfOk, OnOk};
ghost use Rattle.row_base.specs.Schema.{is_partition_column};
ghost use Rattle.predicates.specs.Truths.{cell};
ghost use Rattle.scan.specs.Files as spec;

use row_base::{Datum, NoMemory, Rows, Schema};
use std::alloc::Global;

/// The datum at a place, null behind the last.
fn datum_at(values: &[Datum], place: usize) -> Result<Datum, NoMemory>
    ensures { IfOk result (λ d. d ≡ cell values.now place) }
{
    match values.get(place) {
        Some(datum) => datum.copy(),
        None => Ok(Datum::Null),
    }
}

/// Whether the column at this place is a partition column.
fn is_partition(schema: &Schema, place: usize) -> bool
    ensures { result ≡ is_partition_column schema.now place }
{
    schema.partition().iter().any(|p| *p as usize == place)
}

/// Puts the values of the partition columns into their places.
#[tactic(auto, unfolding(crate::specs::Files::filled_from))]
fn fill_row(schema: &Schema, values: &[Datum], row: &mut [Datum]) -> Result<(), NoMemory>
    ensures { OnOk result (row.new ≡ spec.filled schema.now values.now row.old) }
{
    let mut place = 0;
    for datum in row.iter_mut() {
        if is_partition(schema, place) {
            *datum = datum_at(values, place)?;
        }
        place += 1;
    }
    Ok(())
}

/// The rows with the values of the partition columns. The error is want of memory.
pub(crate) fn filled_rows(
    alloc: Global,
    schema: &Schema,
    values: &[Datum],
    rows: Rows,
) -> Result<Rows, NoMemory>
    ensures { IfOk result (λ all. all ≡ map (spec.filled schema.now values.now) rows) }
{
    let mut all = Rows::new(alloc);
    let mut coming = rows.into_rows();
    let mut row = Vec::new(alloc);
    'rows: while coming.next_into(&mut row)? {
        fill_row(schema, values, &mut row)?;
        all.push_from(&mut row)?;
    }
    Ok(all)
}
