//! Rows from the values of columns.
ghost use Rattle.std.specs.Prelude.{◌≡◌, ◌++◌, map, IfOk, OnOk};
ghost use Rattle.parquet_plain.specs.Reading as spec;

use row_base::{Datum, Items, NoMemory, Rows};
use std::alloc::Global;
use std::collections::VecDeque;

/// The columns, to be taken from.
fn queues(alloc: Global, columns: Vec<Items<Datum>>) -> Result<Vec<VecDeque<Datum>>, NoMemory>
    ensures { IfOk result (λ q. map (λ c. c.items) q.items ≡ columns.items) }
{
    let mut queues = Vec::with_capacity(alloc, columns.len())?;
    for column in columns {
        queues.push(VecDeque::from_vec(column.into_vec()))?;
    }
    Ok(queues)
}

/// Puts so many rows behind the others, each of the next value of each column.
fn push_rows(count: usize, columns: &mut [VecDeque<Datum>], rows: &mut Rows) -> Result<(), NoMemory>
    ensures { OnOk result (rows.new ≡ rows.old ++ spec.row_by_row count (map (λ c. c.items) columns.old)) }
{
    for _row in 0..count {
        rows.push_next(columns)?;
    }
    Ok(())
}

/// Puts so many rows behind the others: the columns side by side. Room for their data is made at once.
pub(crate) fn append_side_by_side(
    alloc: Global,
    count: usize,
    columns: Vec<Items<Datum>>,
    rows: &mut Rows,
) -> Result<(), NoMemory>
    ensures { OnOk result (rows.new ≡ rows.old ++ spec.side_by_side count columns.items) }
{
    let mut queues = queues(alloc, columns)?;
    rows.reserve(count, count.saturating_mul(queues.len()))?;
    push_rows(count, queues.as_mut_slice(), rows)
}
