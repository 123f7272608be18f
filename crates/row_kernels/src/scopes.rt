//! The predicate that the kernels ask of rows.
ghost use Rattle.std.specs.Prelude.{◌≡◌, ◌<◌, true, IfOk};
ghost use Rattle.predicates.specs.Truths.{is_bound};
ghost use Rattle.row_kernels.specs.Scopes as spec;

use crate::rows::{id_alone, key_rows};
use op_types::Scope;
use predicates::{Op, Operand, Pred};
use row_base::{Datum, NoMemory, Text};
use sqlite_items::Boxed;
use std::alloc::Global;

/// A comparison of a column with a literal.
fn compared(op: Op, column: u32, literal: Datum) -> Scope
    requires { column < 2 }
    ensures compared { result ≡ spec.compared_with op column literal }
    ensures bound { is_bound 2 result ≡ true }
{
    Pred::Compare {
        op,
        column,
        right: Operand::Literal(literal),
    }
}

/// `and`
fn both(alloc: Global, left: Scope, right: Scope) -> Result<Scope, NoMemory>
    requires left { is_bound 2 left ≡ true }
    requires right { is_bound 2 right ≡ true }
    ensures both { IfOk result (λ p. p ≡ spec.both left right) }
    ensures bound { IfOk result (λ p. is_bound 2 p ≡ true) }
{
    Ok(Pred::Both(Boxed::new(alloc, left)?, Boxed::new(alloc, right)?))
}

/// `v > 5 and id <> 3`
pub(crate) fn scope_of(alloc: Global) -> Result<Scope, NoMemory>
    ensures scope { IfOk result (λ p. p ≡ spec.scope) }
    ensures bound { IfOk result (λ p. is_bound 2 p ≡ true) }
{
    let above = compared(Op::Gt, 1, Datum::Long(5));
    let other = compared(Op::Ne, 0, Datum::Long(3));
    both(alloc, above, other)
}

/// `id > 250000 and name <> 'n3'`
pub(crate) fn file_scope(alloc: Global) -> Result<Scope, NoMemory>
    ensures scope { IfOk result (λ p. p ≡ spec.file_scope) }
    ensures bound { IfOk result (λ p. is_bound 2 p ≡ true) }
{
    let name = Text::make(alloc, "n3")?;
    let above = compared(Op::Gt, 0, Datum::Long(250_000));
    let other = compared(Op::Ne, 1, Datum::Text(name));
    both(alloc, above, other)
}

/// One of so many keys, each of which is an `id`.
#[tactic(auto, using(crate::proofs::Widths::keys_bound))]
pub(crate) fn keys_scope(alloc: Global, count: u32) -> Result<Scope, NoMemory>
    ensures scope { IfOk result (λ p. p ≡ spec.keys count) }
    ensures bound { IfOk result (λ p. is_bound 2 p ≡ true) }
{
    let columns = id_alone(alloc)?;
    let rows = key_rows(alloc, count)?;
    Ok(Pred::Keys { columns, rows })
}
