//! A predicate asked of each row, and the same comparisons written out.
ghost use Rattle.std.specs.Prelude.{◌≡◌, ◌%◌, ◌^◌, true, length, if◌then◌else◌, IfOk};
ghost use Rattle.std.specs.List.{list_all};
ghost use Rattle.predicates.specs.Truths.{is_bound};
ghost use Rattle.dml_ops.specs.Changes.{passes};
ghost use Rattle.row_kernels.specs.Scopes as spec;
ghost use Rattle.row_kernels.specs.Rows.{rows_of};

use crate::rows::rows_of;
use crate::scopes::scope_of;
use dml_ops::passes;
use op_types::Scope;
use row_base::{Datum, NoMemory, Rows};
use std::alloc::Global;

/// One for what is counted.
pub(crate) fn one_if(counted: bool) -> u64
    ensures { result ≡ spec.one_if counted }
{
    if counted { 1 } else { 0 }
}

/// How many rows are in a scope, in 64 bits.
fn count_scope(scope: &Scope, rows: &Rows) -> u64
    requires { list_all (λ r. is_bound (length r) scope.now) rows.now ≡ true }
    ensures { result ≡ spec.count_where (passes scope.now) rows.now % 2 ^ 64 }
{
    let mut count: u64 = 0;
    for row in rows.iter() {
        count = count.wrapping_add(one_if(passes(scope, row)));
    }
    count
}

/// Whether a row of two longs has `v > 5 and id <> 3`.
fn is_counted(row: &[Datum]) -> bool
    ensures { result ≡ spec.is_counted row.now }
{
    match row {
        [Datum::Long(id), Datum::Long(v)] => *v > 5 && *id != 3,
        _ => false,
    }
}

/// How many rows have `v > 5 and id <> 3`, in 64 bits.
fn count_plain(rows: &Rows) -> u64
    ensures { result ≡ spec.count_where spec.is_counted rows.now % 2 ^ 64 }
{
    let mut count: u64 = 0;
    for row in rows.iter() {
        count = count.wrapping_add(one_if(is_counted(row)));
    }
    count
}

/// How many of so many rows are in the scope `v > 5 and id <> 3`, in 64 bits.
pub fn run_truth(alloc: Global, count: u32) -> Result<u64, NoMemory>
    ensures { IfOk result (λ n. n ≡ spec.count_where (passes spec.scope) (rows_of 1 count) % 2 ^ 64) }
{
    let rows = rows_of(alloc, 1, count)?;
    let scope = scope_of(alloc)?;
    Ok(count_scope(&scope, &rows))
}

/// The same by comparisons that are written out.
pub fn run_plain(alloc: Global, count: u32) -> Result<u64, NoMemory>
    ensures { IfOk result (λ n. n ≡ spec.count_where spec.is_counted (rows_of 1 count) % 2 ^ 64) }
{
    let rows = rows_of(alloc, 1, count)?;
    Ok(count_plain(&rows))
}
