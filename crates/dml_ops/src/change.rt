//! A delete, an update or an insert select on the rows of a file.
ghost use Rattle.std.specs.Prelude.{◌≡◌, ◌&&◌, ◌++◌, ◌∷◌, true, length, [], if◌then◌else◌, IfOk, OnOk};
ghost use Rattle.std.specs.List.{list_all, list_any};
ghost use Rattle.row_base.specs.Faults.{Reads};
ghost use Rattle.predicates.specs.Truths.{is_bound};
ghost use Rattle.predicates.specs.Values.{is_expr_bound};
ghost use Rattle.op_types.specs.Bound.{are_sets_bound, is_row_op_bound};
ghost use Rattle.dml_ops.specs.Outcomes.{is_op_memory, results, given, lesser, wrong_of};
ghost use Rattle.dml_ops.specs.Changes as spec;

use crate::{Gathered, OpFault, selected_row, updated_row};
use op_types::{RowOp, Scope, SetTo};
use predicates::{Expr, Truth};
use row_base::{Datum, NoMemory, Rows, Schema};
use std::alloc::Global;

/// What a change makes of a file.
#[derive(Drop)]
pub struct Changed {
    /// A row of the file is replaced or taken away.
    pub touched: bool,
    /// The file's rows after the change, in their order.
    pub rows: Rows,
    /// The rows that are added.
    pub extra: Rows,
}

/// Whether a row is in a scope: its truth is `Yes`.
pub fn passes(pred: &Scope, row: &[Datum]) -> bool
    requires { is_bound (length row.now) pred.now ≡ true }
    ensures { result ≡ spec.passes pred.now row.now }
{
    pred.truth(row) == Truth::Yes
}

/// Takes a row of a file that is not in the scope, by move, and says whether it is.
fn delete_row(pred: &Scope, row: &mut Vec<Datum>, left: &mut Rows) -> Result<bool, NoMemory>
    requires { is_bound (length row.old.items) pred.now ≡ true }
    ensures touched { IfOk result (λ t. t ≡ spec.passes pred.now row.old.items) }
    ensures rows { OnOk result (left.new ≡ left.old ++ (if spec.passes pred.now row.old.items then [] else row.old.items ∷ [])) }
{
    if passes(pred, row) {
        return Ok(true);
    }
    left.push_from(row)?;
    Ok(false)
}

/// Takes what comes of a row of a file by an update, and says whether the row is in the scope. One that is not is moved.
#[tactic(auto, using(crate::proofs::Told::told_is))]
fn update_row(
    alloc: Global,
    pred: &Scope,
    sets: &[SetTo<u32>],
    schema: &Schema,
    row: &mut Vec<Datum>,
    gathered: &mut Gathered,
) -> Result<bool, NoMemory>
    requires pred { is_bound (length row.old.items) pred.now ≡ true }
    requires sets { are_sets_bound (length row.old.items) 0 sets.now ≡ true }
    ensures touched { IfOk result (λ t. t ≡ spec.passes pred.now row.old.items) }
    ensures rows { OnOk result (gathered.new.rows ≡ gathered.old.rows ++ given (spec.update_step pred.now sets.now schema.now row.old.items)) }
    ensures least { OnOk result (gathered.new.least ≡ lesser gathered.old.least (wrong_of row.old.items (spec.update_step pred.now sets.now schema.now row.old.items))) }
{
    if !passes(pred, row) {
        gathered.keep(row)?;
        return Ok(false);
    }
    let image = updated_row(alloc, schema, sets, row, &[]);
    gathered.put(alloc, row, image)?;
    Ok(true)
}

/// Takes what is added for a row of a file by an insert select.
#[tactic(auto, using(crate::proofs::Told::told_is))]
fn select_row(
    alloc: Global,
    pred: &Scope,
    exprs: &[Expr<u32>],
    schema: &Schema,
    row: &[Datum],
    gathered: &mut Gathered,
) -> Result<(), NoMemory>
    requires pred { is_bound (length row.now) pred.now ≡ true }
    requires exprs { list_all (is_expr_bound (length row.now) 0) exprs.now ≡ true }
    ensures rows { OnOk result (gathered.new.rows ≡ gathered.old.rows ++ given (spec.select_step pred.now exprs.now schema.now row.now)) }
    ensures least { OnOk result (gathered.new.least ≡ lesser gathered.old.least (wrong_of row.now (spec.select_step pred.now exprs.now schema.now row.now))) }
{
    if !passes(pred, row) {
        return Ok(());
    }
    let image = selected_row(alloc, schema, exprs, row);
    gathered.put(alloc, row, image)?;
    Ok(())
}

/// The rows of the expressions for the rows of the scope.
fn rows_selected(
    alloc: Global,
    pred: &Scope,
    exprs: &[Expr<u32>],
    schema: &Schema,
    rows: &Rows,
) -> Result<Rows, OpFault>
    requires { list_all (λ r. is_bound (length r) pred.now && list_all (is_expr_bound (length r) 0) exprs.now) rows.now ≡ true }
    ensures { Reads is_op_memory result (results (spec.select_step pred.now exprs.now schema.now) rows.now) }
{
    let mut gathered = Gathered::new(alloc);
    for row in rows.iter() {
        select_row(alloc, pred, exprs, schema, row, &mut gathered)?;
    }
    gathered.finish()
}

/// A file with these rows, and none that are added.
fn file_with(alloc: Global, touched: bool, rows: Rows) -> Changed
    ensures { result ≡ record { touched = touched; rows = rows; extra = [] } }
{
    Changed {
        touched,
        rows,
        extra: Rows::new(alloc),
    }
}

/// A delete.
fn delete(alloc: Global, pred: &Scope, rows: Rows) -> Result<Changed, OpFault>
    requires { list_all (λ r. is_bound (length r) pred.now) rows ≡ true }
    ensures { Reads is_op_memory result (spec.deleted pred.now rows) }
{
    let mut coming = rows.into_rows();
    let mut row = Vec::new(alloc);
    let mut left = Rows::new(alloc);
    let mut touched = false;
    'rows: while coming.next_into(&mut row)? {
        touched |= delete_row(pred, &mut row, &mut left)?;
    }
    Ok(file_with(alloc, touched, left))
}

/// An update.
fn update(
    alloc: Global,
    pred: &Scope,
    sets: &[SetTo<u32>],
    schema: &Schema,
    rows: Rows,
) -> Result<Changed, OpFault>
    requires { list_all (λ r. is_bound (length r) pred.now && are_sets_bound (length r) 0 sets.now) rows ≡ true }
    ensures { Reads is_op_memory result (spec.updated_file pred.now sets.now schema.now rows) }
{
    let mut coming = rows.into_rows();
    let mut row = Vec::new(alloc);
    let mut gathered = Gathered::new(alloc);
    let mut touched = false;
    'rows: while coming.next_into(&mut row)? {
        touched |= update_row(alloc, pred, sets, schema, &mut row, &mut gathered)?;
    }
    let rows = gathered.finish()?;
    Ok(file_with(alloc, touched, rows))
}

/// An insert select.
fn insert_select(
    alloc: Global,
    pred: &Scope,
    exprs: &[Expr<u32>],
    schema: &Schema,
    rows: Rows,
) -> Result<Changed, OpFault>
    requires { list_all (λ r. is_bound (length r) pred.now && list_all (is_expr_bound (length r) 0) exprs.now) rows ≡ true }
    ensures { Reads is_op_memory result (spec.extended pred.now exprs.now schema.now rows) }
{
    let extra = rows_selected(alloc, pred, exprs, schema, &rows)?;
    Ok(Changed {
        touched: false,
        rows,
        extra,
    })
}

/// The rows of a file after a delete, an update or an insert select, and the rows that an insert select adds. The
/// columns of the operation are places of the rows. A file is touched where one of its rows is in the scope of a delete
/// or an update. The rows keep their order, and those that stay are moved: none is copied.
pub fn change_file(alloc: Global, op: &RowOp, rows: Rows) -> Result<Changed, OpFault>
    requires { list_all (λ r. is_row_op_bound (length r) op.now) rows ≡ true }
    ensures { Reads is_op_memory result (spec.changed_by op.now rows) }
{
    match op {
        RowOp::Delete { pred } => delete(alloc, pred, rows),
        RowOp::Update { pred, sets, schema } => update(alloc, pred, sets.as_slice(), schema, rows),
        RowOp::InsertSelect {
            pred,
            exprs,
            schema,
        } => insert_select(alloc, pred, exprs.as_slice(), schema, rows),
    }
}
