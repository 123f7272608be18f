//! Rows in order.
ghost use Rattle.std.specs.Prelude.{◌≡◌, IfOk, map};
ghost use Rattle.row_base.specs.Sorting.{Sorts};

use crate::{Datum, NoMemory, Rows, cmp_rows, row_order_is_total};
use std::alloc::Global;

/// The rows, one by one.
fn listed(alloc: Global, rows: &Rows) -> Result<Vec<&[Datum]>, NoMemory>
    ensures { IfOk result (λ v. map (λ r. r.now) v.items ≡ rows.now) }
{
    let mut list = Vec::with_capacity(alloc, rows.len())?;
    for row in rows.iter() {
        list.push(row)?;
    }
    Ok(list)
}

/// Puts rows in order.
fn put_in_order(rows: &mut [&[Datum]])
    ensures { Sorts (map (λ r. r.now) rows.old) (map (λ r. r.now) rows.new) }
{
    row_order_is_total();
    rows.sort_unstable_by(|a, b| cmp_rows(a, b));
}

/// Copies of these rows.
fn gathered(alloc: Global, list: &[&[Datum]]) -> Result<Rows, NoMemory>
    ensures { IfOk result (λ r. r ≡ map (λ r. r.now) list.now) }
{
    let mut rows = Rows::new(alloc);
    for row in list {
        rows.push_copy(row)?;
    }
    Ok(rows)
}

/// These rows in order. The bytes of the texts are shared.
pub fn sorted(alloc: Global, rows: &Rows) -> Result<Rows, NoMemory>
    ensures { IfOk result (λ r. Sorts rows.now r) }
{
    let mut list = listed(alloc, rows)?;
    put_in_order(&mut list);
    gathered(alloc, &list)
}
