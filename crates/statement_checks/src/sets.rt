//! Columns that are set, and expressions for all columns.
ghost use Rattle.std.specs.Prelude.{◌≡◌, ◌==◌, ◌<◌, [], true, length, IfOk};
ghost use Rattle.std.specs.List.{list_all, list_any};
ghost use Rattle.row_base.specs.Faults.{Reads};
ghost use Rattle.predicates.specs.Values.{is_expr_bound};
ghost use Rattle.predicates.specs.Binding.{is_memory};
ghost use Rattle.op_types.specs.Bound.{are_sets_bound};
ghost use Rattle.statement_checks.specs.Operations.{expr_in, set_in, sets_in, exprs_for, exprs_in};
ghost use Rattle.statement_checks.specs.Plain.{is_plain, are_plain};

use crate::column::{found, once};
use crate::plain::bound_expr;
use op_types::SetTo;
use predicates::{BindFault, Expr};
use row_base::{Column, Items, Schema, Text};
use std::alloc::Global;

/// Whether the column at this place is set.
fn is_set(sets: &[SetTo<u32>], place: u32) -> bool
    ensures { result ≡ list_any (λ b. b.column == place) sets.now }
{
    sets.iter().any(|set| set.column == place)
}

/// A set over places after those before.
fn bound_set(
    alloc: Global,
    schema: &Schema,
    before: &[SetTo<u32>],
    set: &SetTo<Text>,
) -> Result<SetTo<u32>, BindFault>
    ensures read { Reads is_memory result (set_in schema.now.columns before.now set.now) }
    ensures within { IfOk result (λ b. b.column < length schema.now.columns) }
    ensures bound { IfOk result (λ b. is_expr_bound (length schema.now.columns) (length schema.now.columns) b.value ≡ true) }
{
    let (column, kind) = found(schema.columns(), &set.column)?;
    once(is_set(before, column), &set.column)?;
    let value = bound_expr(alloc, schema, &set.value, kind, &set.column)?;
    Ok(SetTo { column, value })
}

/// Sets over places.
#[tactic(auto, unfolding(crate::specs::Operations::sets_in))]
fn each_set(
    alloc: Global,
    sets: &[SetTo<Text>],
    schema: &Schema,
) -> Result<Items<SetTo<u32>>, BindFault>
    ensures read { Reads is_memory result (sets_in schema.now.columns [] sets.now) }
    ensures bound { IfOk result (λ bs. are_sets_bound (length schema.now.columns) (length schema.now.columns) bs ≡ true) }
{
    let mut bound = Vec::with_capacity(alloc, sets.len())?;
    for set in sets {
        let next = bound_set(alloc, schema, bound.as_slice(), set)?;
        bound.push(next)?;
    }
    Ok(Items::from_vec(bound))
}

/// Sets over places. Where no expression has a cell of a source row, they need none.
pub(crate) fn bound_sets(
    alloc: Global,
    schema: &Schema,
    sets: &[SetTo<Text>],
) -> Result<Items<SetTo<u32>>, BindFault>
    ensures read { Reads is_memory result (sets_in schema.now.columns [] sets.now) }
    ensures bound { IfOk result (λ bs. are_sets_bound (length schema.now.columns) (length schema.now.columns) bs ≡ true) }
    ensures plain { are_plain sets.now ≡ true → IfOk result (λ bs. are_sets_bound (length schema.now.columns) 0 bs ≡ true) }
{
    let bound = each_set(alloc, sets, schema)?;
    Ok(bound)
}

/// An expression for a column.
#[tactic(auto, unfolding(crate::specs::Operations::expr_in))]
fn expr_for(
    alloc: Global,
    schema: &Schema,
    column: &Column,
    expr: &Expr<Text>,
) -> Result<Expr<u32>, BindFault>
    ensures read { Reads is_memory result (expr_in schema.now.columns column.now expr.now) }
    ensures bound { IfOk result (λ e. is_expr_bound (length schema.now.columns) (length schema.now.columns) e ≡ true) }
{
    bound_expr(alloc, schema, expr, column.kind, &column.name)
}

/// An expression for each of these columns, of which there are as many.
#[tactic(auto, unfolding(crate::specs::Operations::exprs_for))]
fn each_expr(
    alloc: Global,
    schema: &Schema,
    columns: &[Column],
    exprs: &[Expr<Text>],
) -> Result<Items<Expr<u32>>, BindFault>
    requires { length exprs.now ≡ length columns.now }
    ensures read { Reads is_memory result (exprs_for schema.now.columns columns.now exprs.now) }
    ensures bound { IfOk result (λ bs. list_all (is_expr_bound (length schema.now.columns) (length schema.now.columns)) bs ≡ true) }
{
    let mut bound = Vec::with_capacity(alloc, columns.len())?;
    for i in 0..columns.len() {
        bound.push(expr_for(alloc, schema, &columns[i], &exprs[i])?)?;
    }
    Ok(Items::from_vec(bound))
}

/// The same. Where none has a cell of a source row, they need none.
fn narrow_exprs(
    alloc: Global,
    schema: &Schema,
    exprs: &[Expr<Text>],
    columns: &[Column],
) -> Result<Items<Expr<u32>>, BindFault>
    requires { length exprs.now ≡ length columns.now }
    ensures read { Reads is_memory result (exprs_for schema.now.columns columns.now exprs.now) }
    ensures plain { list_all is_plain exprs.now ≡ true → IfOk result (λ bs. list_all (is_expr_bound (length schema.now.columns) 0) bs ≡ true) }
{
    let bound = each_expr(alloc, schema, columns, exprs)?;
    Ok(bound)
}

/// An expression for each column of a schema. Where none has a cell of a source row, they need none.
pub(crate) fn bound_exprs(
    alloc: Global,
    schema: &Schema,
    exprs: &[Expr<Text>],
) -> Result<Items<Expr<u32>>, BindFault>
    ensures read { Reads is_memory result (exprs_in schema.now.columns exprs.now) }
    ensures plain { list_all is_plain exprs.now ≡ true → IfOk result (λ bs. list_all (is_expr_bound (length schema.now.columns) 0) bs ≡ true) }
{
    let columns = schema.columns();
    if exprs.len() == columns.len() {
        narrow_exprs(alloc, schema, exprs, columns)
    } else {
        Err(BindFault::Count)
    }
}
