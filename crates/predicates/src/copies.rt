//! Copies of predicates and expressions.
ghost use Rattle.std.specs.Prelude.{◌≡◌, Ok, IfOk};

use crate::{Expr, Operand, Pred};
use row_base::{Items, NoMemory, Text};
use sqlite_items::Boxed;
use std::alloc::Global;

/// What a predicate or an expression calls a column: a name (`Text`) before it is bound to a schema, and a place
/// (`u32`) after.
pub trait ColumnKey: Drop {
    /// An equal one. The bytes of a name are shared.
    fn copy(&self) -> Result<Self, NoMemory>
        ensures { IfOk result (λ c. c ≡ self.now) };
}

impl ColumnKey for Text {
    fn copy(&self) -> Result<Text, NoMemory> {
        Text::copy(self)
    }
}

impl ColumnKey for u32 {
    fn copy(&self) -> Result<u32, NoMemory> {
        Ok(*self)
    }
}

/// A list of the same columns.
fn copy_columns<C: ColumnKey>(alloc: Global, columns: &[C]) -> Result<Items<C>, NoMemory>
    ensures { IfOk result (λ c. c ≡ columns.now) }
{
    let mut copies = Vec::with_capacity(alloc, columns.len())?;
    for column in columns {
        copies.push(column.copy()?)?;
    }
    Ok(Items::from_vec(copies))
}

/// A part that was copied, on the heap.
fn boxed<T: Drop>(alloc: Global, part: Result<T, NoMemory>) -> Result<Boxed<T>, NoMemory>
    ensures { IfOk result (λ b. part ≡ Ok b) }
{
    Ok(Boxed::new(alloc, part?)?)
}

impl<C: ColumnKey> Operand<C> {
    /// An equal right side. The bytes of texts are shared.
    pub fn copy(&self) -> Result<Operand<C>, NoMemory>
        ensures { IfOk result (λ r. r ≡ self.now) }
    {
        match self {
            Operand::Column(column) => Ok(Operand::Column(column.copy()?)),
            Operand::Literal(datum) => Ok(Operand::Literal(datum.copy()?)),
        }
    }
}

impl<C: ColumnKey> Pred<C> {
    /// An equal predicate. The bytes of texts are shared.
    pub fn copy(&self, alloc: Global) -> Result<Pred<C>, NoMemory>
        ensures { IfOk result (λ p. p ≡ self.now) }
    {
        match self {
            Pred::Always => Ok(Pred::Always),
            Pred::Never => Ok(Pred::Never),
            Pred::Compare { op, column, right } => Ok(Pred::Compare {
                op: *op,
                column: column.copy()?,
                right: right.copy()?,
            }),
            Pred::IsNull { column } => Ok(Pred::IsNull {
                column: column.copy()?,
            }),
            Pred::Both(left, right) => {
                let left = boxed(alloc, left.get().copy(alloc))?;
                let right = boxed(alloc, right.get().copy(alloc))?;
                Ok(Pred::Both(left, right))
            }
            Pred::Either(left, right) => {
                let left = boxed(alloc, left.get().copy(alloc))?;
                let right = boxed(alloc, right.get().copy(alloc))?;
                Ok(Pred::Either(left, right))
            }
            Pred::Negation(inner) => {
                let inner = boxed(alloc, inner.get().copy(alloc))?;
                Ok(Pred::Negation(inner))
            }
            Pred::Keys { columns, rows } => Ok(Pred::Keys {
                columns: copy_columns(alloc, columns.as_slice())?,
                rows: rows.copy(alloc)?,
            }),
        }
    }
}

impl<C: ColumnKey> Expr<C> {
    /// An equal expression. The bytes of texts are shared.
    pub fn copy(&self, alloc: Global) -> Result<Expr<C>, NoMemory>
        ensures { IfOk result (λ e. e ≡ self.now) }
    {
        match self {
            Expr::Cell(column) => Ok(Expr::Cell(column.copy()?)),
            Expr::SourceCell(column) => Ok(Expr::SourceCell(column.copy()?)),
            Expr::Literal(datum) => Ok(Expr::Literal(datum.copy()?)),
            Expr::Plus(left, right) => {
                let left = boxed(alloc, left.get().copy(alloc))?;
                let right = boxed(alloc, right.get().copy(alloc))?;
                Ok(Expr::Plus(left, right))
            }
            Expr::Minus(left, right) => {
                let left = boxed(alloc, left.get().copy(alloc))?;
                let right = boxed(alloc, right.get().copy(alloc))?;
                Ok(Expr::Minus(left, right))
            }
            Expr::Times(left, right) => {
                let left = boxed(alloc, left.get().copy(alloc))?;
                let right = boxed(alloc, right.get().copy(alloc))?;
                Ok(Expr::Times(left, right))
            }
        }
    }
}
