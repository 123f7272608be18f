//! Expressions over places for expressions over names.
ghost use Rattle.std.specs.Prelude.{◌≡◌, ◌<◌, true, length, IfOk};
ghost use Rattle.row_base.specs.Faults.{Reads};
ghost use Rattle.predicates.specs.Values.{is_expr_bound};
ghost use Rattle.predicates.specs.Binding.{is_memory, place_of_kind, number_kind, bound_expr_in};

use crate::bind::{boxed, found, literal};
use crate::{BindFault, Expr};
use row_base::{Column, Kind, Schema, Text};
use std::alloc::Global;

/// The place of the column of a name, which is of this kind.
fn place(columns: &[Column], kind: Kind, column: &Text, name: &Text) -> Result<u32, BindFault>
    requires { length columns.now < 65 }
    ensures read { Reads is_memory result (place_of_kind columns.now kind column.now name.now) }
    ensures within { IfOk result (λ p. p < length columns.now) }
{
    let (place, other) = found(columns, column)?;
    if kind == other {
        Ok(place)
    } else {
        Err(BindFault::Kind { name: name.copy()? })
    }
}

/// That arithmetic makes values of this kind.
#[tactic(auto, unfolding(crate::specs::Binding::number_kind))]
fn number(kind: Kind, name: &Text) -> Result<(), BindFault>
    ensures { Reads is_memory result (number_kind kind name.now) }
{
    match kind {
        Kind::Long | Kind::Integer => Ok(()),
        Kind::Boolean | Kind::String | Kind::Date => Err(BindFault::Kind { name: name.copy()? }),
    }
}

/// The expression over the places of these columns, or the first fault from the left.
fn bound(
    alloc: Global,
    expr: &Expr<Text>,
    columns: &[Column],
    kind: Kind,
    name: &Text,
) -> Result<Expr<u32>, BindFault>
    requires { length columns.now < 65 }
    ensures read { Reads is_memory result (bound_expr_in columns.now kind name.now expr.now) }
    ensures bound { IfOk result (λ e. is_expr_bound (length columns.now) (length columns.now) e ≡ true) }
{
    match expr {
        Expr::Cell(column) => Ok(Expr::Cell(place(columns, kind, column, name)?)),
        Expr::SourceCell(column) => Ok(Expr::SourceCell(place(columns, kind, column, name)?)),
        Expr::Literal(datum) => Ok(Expr::Literal(literal(kind, datum, name)?)),
        Expr::Plus(left, right) => {
            let left = boxed(alloc, bound(alloc, left.get(), columns, kind, name))?;
            number(kind, name)?;
            let right = boxed(alloc, bound(alloc, right.get(), columns, kind, name))?;
            Ok(Expr::Plus(left, right))
        }
        Expr::Minus(left, right) => {
            let left = boxed(alloc, bound(alloc, left.get(), columns, kind, name))?;
            number(kind, name)?;
            let right = boxed(alloc, bound(alloc, right.get(), columns, kind, name))?;
            Ok(Expr::Minus(left, right))
        }
        Expr::Times(left, right) => {
            let left = boxed(alloc, bound(alloc, left.get(), columns, kind, name))?;
            number(kind, name)?;
            let right = boxed(alloc, bound(alloc, right.get(), columns, kind, name))?;
            Ok(Expr::Times(left, right))
        }
    }
}

impl Expr<Text> {
    /// The same expression over the places of a schema's columns, for the column of this kind and name, or the first
    /// fault from the left. A source row has the same columns. Each column must exist and be of the kind; a literal
    /// is as `Pred::bind` takes it; arithmetic makes longs and integers alone. A fault of kinds names the column that
    /// the expression is for.
    pub fn bind(
        &self,
        alloc: Global,
        schema: &Schema,
        kind: Kind,
        name: &Text,
    ) -> Result<Expr<u32>, BindFault>
        ensures read { Reads is_memory result (bound_expr_in schema.now.columns kind name.now self.now) }
        ensures bound { IfOk result (λ e. is_expr_bound (length schema.now.columns) (length schema.now.columns) e ≡ true) }
    {
        bound(alloc, self, schema.columns(), kind, name)
    }
}
