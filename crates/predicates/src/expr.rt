//! Expressions over the columns of a row, and their value.
ghost use Rattle.std.specs.Prelude.{◌≡◌, ◌<◌, true, length, Option, option_map, IfOk};
ghost use Rattle.row_base.specs.Faults.{Reads};
ghost use Rattle.predicates.specs.Values.{is_memory, applied, long_in, integer_in, long_or_fault, integer_or_fault, computed, value_of, is_expr_bound, source_data};
ghost use Rattle.predicates.specs.declared.expr.ExprFault.TheVariants as fault;

use crate::pred::cell;
use row_base::{Datum, NoMemory};
use sqlite_items::Boxed;
use thiserror::Error;

/// An expression over the columns of a row and, in a merge, of the source row that it matches. `C` is a column's name
/// (`Text`) before the expression is bound to a schema, and its place (`u32`) after. As those of a predicate, its
/// calls recurse as deep as it is.
#[derive(Debug, Drop)]
pub enum Expr<C> {
    /// What stands in a column.
    Cell(C),
    /// What stands in a column of the source row.
    SourceCell(C),
    Literal(Datum),
    Plus(Boxed<Expr<C>>, Boxed<Expr<C>>),
    Minus(Boxed<Expr<C>>, Boxed<Expr<C>>),
    Times(Boxed<Expr<C>>, Boxed<Expr<C>>),
}

/// Why an expression has no value.
#[derive(Clone, Copy, Debug, Drop, PartialEq, Eq, Error)]
pub enum ExprFault {
    /// A sum, difference or product does not fit the width of its sides.
    #[error("a number does not fit its width")]
    Overflow,
    #[error("out of memory")]
    NoMemory,
}

impl From<NoMemory> for ExprFault {
    ghost from_gives = { λ _ e. e ≡ fault.NoMemory };

    fn from(_refused: NoMemory) -> ExprFault {
        ExprFault::NoMemory
    }
}

/// How two numbers make one.
#[derive(Clone, Copy, Drop)]
enum Arithmetic {
    Plus,
    Minus,
    Times,
}

impl Arithmetic {
    /// What two longs make, where it fits 64 bits.
    #[tactic(auto, using(crate::proofs::Widths::long_where))]
    fn longs(self, x: i64, y: i64) -> Option<i64>
        ensures { result ≡ long_in (applied self x y) }
    {
        match self {
            Arithmetic::Plus => x.checked_add(y),
            Arithmetic::Minus => x.checked_sub(y),
            Arithmetic::Times => x.checked_mul(y),
        }
    }

    /// What two integers make, where it fits 32 bits.
    #[tactic(auto, using(crate::proofs::Widths::integer_where))]
    fn integers(self, x: i32, y: i32) -> Option<i32>
        ensures { result ≡ integer_in (applied self x y) }
    {
        match self {
            Arithmetic::Plus => x.checked_add(y),
            Arithmetic::Minus => x.checked_sub(y),
            Arithmetic::Times => x.checked_mul(y),
        }
    }

    /// What two data make.
    fn compute(self, left: &Datum, right: &Datum) -> Result<Datum, ExprFault>
        ensures { result ≡ computed self left.now right.now }
    {
        match (left, right) {
            (Datum::Long(x), Datum::Long(y)) => long_or_overflow(self.longs(*x, *y)),
            (Datum::Integer(x), Datum::Integer(y)) => integer_or_overflow(self.integers(*x, *y)),
            _ => Ok(Datum::Null),
        }
    }
}

/// A long that fits.
fn long_or_overflow(n: Option<i64>) -> Result<Datum, ExprFault>
    ensures { result ≡ long_or_fault n }
{
    match n {
        Some(n) => Ok(Datum::Long(n)),
        None => Err(ExprFault::Overflow),
    }
}

/// An integer that fits.
fn integer_or_overflow(n: Option<i32>) -> Result<Datum, ExprFault>
    ensures { result ≡ integer_or_fault n }
{
    match n {
        Some(n) => Ok(Datum::Integer(n)),
        None => Err(ExprFault::Overflow),
    }
}

/// The value of an expression. Where there is no source row, this has no data.
fn value_in(expr: &Expr<u32>, row: &[Datum], source: &[Datum]) -> Result<Datum, ExprFault>
    requires { is_expr_bound (length row.now) (length source.now) expr.now ≡ true }
    ensures { Reads is_memory result (value_of row.now source.now expr.now) }
{
    match expr {
        Expr::Cell(column) => Ok(cell(row, *column).copy()?),
        Expr::SourceCell(column) => Ok(cell(source, *column).copy()?),
        Expr::Literal(datum) => Ok(datum.copy()?),
        Expr::Plus(left, right) => {
            let left = value_in(left.get(), row, source)?;
            let right = value_in(right.get(), row, source)?;
            Arithmetic::Plus.compute(&left, &right)
        }
        Expr::Minus(left, right) => {
            let left = value_in(left.get(), row, source)?;
            let right = value_in(right.get(), row, source)?;
            Arithmetic::Minus.compute(&left, &right)
        }
        Expr::Times(left, right) => {
            let left = value_in(left.get(), row, source)?;
            let right = value_in(right.get(), row, source)?;
            Arithmetic::Times.compute(&left, &right)
        }
    }
}

impl Expr<u32> {
    /// The value of the expression for a row, and a source row where it has cells of one. Its columns are places of
    /// these. Arithmetic on two longs or two integers is in their width: the left side comes first, then the right,
    /// and a side that overflows is the fault; else it is null where a side is, and else the value, or `Overflow`
    /// where that does not fit. Two data of any other kinds, which no bound expression has, make null.
    pub fn value(&self, row: &[Datum], source: Option<&[Datum]>) -> Result<Datum, ExprFault>
        requires { is_expr_bound (length row.now) (length (source_data (option_map (λ s. s.now) source))) self.now ≡ true }
        ensures { Reads is_memory result (value_of row.now (source_data (option_map (λ s. s.now) source.entry)) self.now) }
    {
        match source {
            Some(source) => value_in(self, row, source),
            None => value_in(self, row, &[]),
        }
    }
}
