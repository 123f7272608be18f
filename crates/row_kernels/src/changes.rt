//! Changes of a file.
ghost use Rattle.std.specs.Prelude.{◌≡◌, true, IfOk};
ghost use Rattle.op_types.specs.Bound.{is_row_op_bound};
ghost use Rattle.row_base.specs.Faults.{Reads};
ghost use Rattle.dml_ops.specs.Outcomes.{is_op_memory};
ghost use Rattle.row_kernels.specs.Scopes as spec;

use crate::kernel::RowChange;
use crate::rows::{rows_of, schema_of};
use crate::scopes::scope_of;
use dml_ops::{OpFault, change_file};
use op_types::{RowOp, SetTo};
use predicates::Expr;
use row_base::{Items, NoMemory};
use std::alloc::Global;

/// `set v` to this value.
pub(crate) fn set_v(alloc: Global, value: Expr<u32>) -> Result<Items<SetTo<u32>>, NoMemory>
    ensures { IfOk result (λ sets. sets ≡ spec.set_v value) }
{
    let mut sets = Vec::with_capacity(alloc, 1)?;
    sets.push_reserved(SetTo { column: 1, value });
    Ok(Items::from_vec(sets))
}

fn delete_of(alloc: Global) -> Result<RowOp, NoMemory>
    ensures op { IfOk result (λ op. op ≡ spec.delete) }
    ensures bound { IfOk result (λ op. is_row_op_bound 2 op ≡ true) }
{
    let pred = scope_of(alloc)?;
    Ok(RowOp::Delete { pred })
}

fn update_of(alloc: Global) -> Result<RowOp, NoMemory>
    ensures op { IfOk result (λ op. op ≡ spec.update) }
    ensures bound { IfOk result (λ op. is_row_op_bound 2 op ≡ true) }
{
    let sets = set_v(alloc, Expr::Cell(0))?;
    let schema = schema_of(alloc)?;
    let pred = scope_of(alloc)?;
    Ok(RowOp::Update { pred, sets, schema })
}

fn op_of(alloc: Global, change: RowChange) -> Result<RowOp, NoMemory>
    ensures op { IfOk result (λ op. op ≡ spec.op_of change) }
    ensures bound { IfOk result (λ op. is_row_op_bound 2 op ≡ true) }
{
    match change {
        RowChange::Delete => delete_of(alloc),
        RowChange::Update => update_of(alloc),
    }
}

/// How many rows there are after a change of so many.
pub fn run_change(alloc: Global, change: RowChange, count: u32) -> Result<u64, OpFault>
    ensures { Reads is_op_memory result (spec.changed_count (spec.op_of change) count) }
{
    let op = op_of(alloc, change)?;
    let rows = rows_of(alloc, 1, count)?;
    let changed = change_file(alloc, &op, rows)?;
    Ok(changed.rows.len() as u64)
}
