//! Literal rows.
ghost use Rattle.std.specs.Prelude.{◌≡◌, Ok, IfOk};
ghost use Rattle.std.specs.List.{All};
ghost use Rattle.row_base.specs.Faults.{Reads};
ghost use Rattle.row_base.specs.Schema.{FitsSchema};
ghost use Rattle.statement_checks.specs.Rows.{is_memory, row_in, rows_in};

use crate::RowsFault;
use row_base::{Datum, Row, Rows, Schema, Unsettled};
use std::alloc::Global;

/// A row of the same data.
fn row_of(alloc: Global, row: &[Datum]) -> Result<Row, RowsFault>
    ensures { Reads is_memory result (Ok row.now) }
{
    let mut values = Vec::with_capacity(alloc, row.len())?;
    for datum in row {
        values.push(datum.copy()?)?;
    }
    Ok(Row::make(values))
}

/// A row as its columns take it, where that fits.
fn fitting(alloc: Global, schema: &Schema, row: &[Datum]) -> Result<Row, RowsFault>
    ensures { Reads is_memory result (row_in schema.now row.now) }
{
    match schema.settle(row_of(alloc, row)?) {
        Ok(row) => Ok(row),
        Err(Unsettled { row, fault }) => Err(RowsFault::Row { row, fault }),
    }
}

/// The rows as their columns take them, or the first that doesn't fit.
#[tactic(auto, unfolding(crate::specs::Rows::rows_in))]
fn each_row(alloc: Global, schema: &Schema, rows: &Rows) -> Result<Rows, RowsFault>
    ensures { Reads is_memory result (rows_in schema.now rows.now) }
{
    let mut taken = Rows::new(alloc);
    for row in rows.iter() {
        let mut values = fitting(alloc, schema, row)?.into_vec();
        taken.push_from(&mut values)?;
    }
    Ok(taken)
}

/// Literal rows as a table takes them: each long in a column of integers that fits is an integer. Else the first row
/// that doesn't fit, as it came, and why.
pub fn literal_rows(alloc: Global, schema: &Schema, rows: &Rows) -> Result<Rows, RowsFault>
    ensures read { Reads is_memory result (rows_in schema.now rows.now) }
    ensures fits { IfOk result (All (FitsSchema schema.now)) }
{
    let taken = each_row(alloc, schema, rows)?;
    Ok(taken)
}
