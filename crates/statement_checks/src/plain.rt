//! Expressions over places, also of no source row.
ghost use Rattle.std.specs.Prelude.{◌≡◌, true, length, IfOk};
ghost use Rattle.row_base.specs.Faults.{Reads};
ghost use Rattle.predicates.specs.Values.{is_expr_bound};
ghost use Rattle.predicates.specs.Binding.{is_memory, bound_expr_in};
ghost use Rattle.statement_checks.specs.Plain.{is_plain};

use predicates::{BindFault, Expr};
use row_base::{Kind, Schema, Text};
use std::alloc::Global;

/// The expression over the places of a schema's columns for the column of this kind and name, or the first fault from
/// the left. Where it has no cell of a source row, it needs none.
pub(crate) fn bound_expr(
    alloc: Global,
    schema: &Schema,
    expr: &Expr<Text>,
    kind: Kind,
    name: &Text,
) -> Result<Expr<u32>, BindFault>
    ensures read { Reads is_memory result (bound_expr_in schema.now.columns kind name.now expr.now) }
    ensures bound { IfOk result (λ e. is_expr_bound (length schema.now.columns) (length schema.now.columns) e ≡ true) }
    ensures plain { is_plain expr.now ≡ true → IfOk result (λ e. is_expr_bound (length schema.now.columns) 0 e ≡ true) }
{
    let bound = expr.bind(alloc, schema, kind, name)?;
    Ok(bound)
}
