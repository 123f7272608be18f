//! Statements that change the rows of their scope one by one.
ghost use Rattle.std.specs.Prelude.{◌≡◌, true, length, IfOk};
ghost use Rattle.std.specs.List.{list_all};
ghost use Rattle.row_base.specs.Faults.{Reads};
ghost use Rattle.predicates.specs.Binding.{is_memory};
ghost use Rattle.op_types.specs.Bound.{is_row_op_bound};
ghost use Rattle.statement_checks.specs.Operations.{delete_in, update_in, insert_select_in};
ghost use Rattle.statement_checks.specs.Plain.{is_plain, are_plain};

use crate::sets::{bound_exprs, bound_sets};
use op_types::{RowOp, SetTo};
use predicates::{BindFault, Expr, Pred};
use row_base::{Schema, Text};
use std::alloc::Global;

/// A delete of the rows of a predicate, or the first fault from the left.
pub fn bound_delete(alloc: Global, schema: &Schema, pred: &Pred<Text>) -> Result<RowOp, BindFault>
    ensures read { Reads is_memory result (delete_in schema.now pred.now) }
    ensures bound { IfOk result (λ op. is_row_op_bound (length schema.now.columns) op ≡ true) }
{
    let pred = pred.bind(alloc, schema)?;
    Ok(RowOp::Delete { pred })
}

/// An update of the rows of a predicate, or the first fault from the left: the sets stand before the predicate. Of a
/// set its column comes first, which must exist (`Column`) and not be set yet (`Twice`), and then the expression for
/// it. No expression may have a cell of a source row.
pub fn bound_update(
    alloc: Global,
    schema: &Schema,
    sets: &[SetTo<Text>],
    pred: &Pred<Text>,
) -> Result<RowOp, BindFault>
    ensures read { Reads is_memory result (update_in schema.now sets.now pred.now) }
    ensures bound { are_plain sets.now ≡ true → IfOk result (λ op. is_row_op_bound (length schema.now.columns) op ≡ true) }
{
    let sets = bound_sets(alloc, schema, sets)?;
    let pred = pred.bind(alloc, schema)?;
    Ok(RowOp::Update {
        pred,
        sets,
        schema: schema.copy(alloc)?,
    })
}

/// An insert of a row for each row of a predicate, or the first fault from the left: `Count` where there isn't one
/// expression for each column, then the expressions, and then the predicate. A fault of kinds names the column that
/// the expression is for. No expression may have a cell of a source row.
pub fn bound_insert_select(
    alloc: Global,
    schema: &Schema,
    exprs: &[Expr<Text>],
    pred: &Pred<Text>,
) -> Result<RowOp, BindFault>
    ensures read { Reads is_memory result (insert_select_in schema.now exprs.now pred.now) }
    ensures bound { list_all is_plain exprs.now ≡ true → IfOk result (λ op. is_row_op_bound (length schema.now.columns) op ≡ true) }
{
    let exprs = bound_exprs(alloc, schema, exprs)?;
    let pred = pred.bind(alloc, schema)?;
    Ok(RowOp::InsertSelect {
        pred,
        exprs,
        schema: schema.copy(alloc)?,
    })
}
