//! Predicates over the columns of a row, and their truth.
ghost use Rattle.std.specs.Prelude.{◌≡◌, ◌==◌, ◌<◌, true, nat_lt, length};
ghost use Rattle.std.specs.List.{list_all};
ghost use Rattle.row_base.specs.RowOrder.{datum_cmp};
ghost use Rattle.predicates.specs.Truths.{truth_of, is_bound, compared, certain, is_null, cell, right_side, is_operand, keys_in, key_in};

use crate::Truth;
use row_base::{Datum, Items, Rows};
use sqlite_items::Boxed;
use std::cmp::Ordering;

/// How two values are compared.
#[derive(Clone, Copy, Debug, Drop, PartialEq, Eq)]
pub enum Op {
    /// Equal.
    Eq,
    /// Not equal.
    Ne,
    /// Less than.
    Lt,
    /// Less than or equal.
    Le,
    /// Greater than.
    Gt,
    /// Greater than or equal.
    Ge,
}

/// What a column is compared with: another column, or a literal.
#[derive(Debug, Drop)]
pub enum Operand<C> {
    Column(C),
    Literal(Datum),
}

/// A predicate over the columns of a row. `C` is a column's name (`Text`) before the predicate is bound to a schema,
/// and its place (`u32`) after.
///
/// Its calls and its drop recurse as deep as it is, so whoever makes one bounds its depth.
#[derive(Debug, Drop)]
pub enum Pred<C> {
    /// `Yes` for each row.
    Always,
    /// `No` for each row.
    Never,
    /// `Unknown` where a side is null, else whether the operator holds.
    Compare {
        op: Op,
        column: C,
        right: Operand<C>,
    },
    /// Whether the column is null, which is never `Unknown`.
    IsNull {
        column: C,
    },
    /// `and`
    Both(Boxed<Pred<C>>, Boxed<Pred<C>>),
    /// `or`
    Either(Boxed<Pred<C>>, Boxed<Pred<C>>),
    /// `not`
    Negation(Boxed<Pred<C>>),
    /// The `or` over these rows of the `and` of `=` between each column and the datum at its place in the row. Each
    /// row has as many data as there are columns.
    Keys {
        columns: Items<C>,
        rows: Rows,
    },
}

impl Op {
    /// Whether it holds of two values that stand in this order.
    fn holds(self, order: Ordering) -> bool
        ensures { result ≡ Rattle.predicates.specs.Truths.holds self order }
    {
        match self {
            Op::Eq => order.is_eq(),
            Op::Ne => order.is_ne(),
            Op::Lt => order.is_lt(),
            Op::Le => order.is_le(),
            Op::Gt => order.is_gt(),
            Op::Ge => order.is_ge(),
        }
    }
}

/// The order of two values, by a short way for longs.
fn order_of(left: &Datum, right: &Datum) -> Ordering
    ensures { result ≡ datum_cmp left.now right.now }
{
    if let Datum::Long(x) = left
        && let Datum::Long(y) = right
    {
        return x.cmp(y);
    }
    left.cmp(right)
}

/// The truth of a comparison.
fn compare(op: Op, left: &Datum, right: &Datum) -> Truth
    ensures { result ≡ compared op left.now right.now }
{
    if let Datum::Null = left {
        return Truth::Unknown;
    }
    if let Datum::Null = right {
        return Truth::Unknown;
    }
    if op.holds(order_of(left, right)) {
        Truth::Yes
    } else {
        Truth::No
    }
}

impl Pred<u32> {
    /// What a row makes of the predicate, by Kleene's tables. The columns of the predicate are places of the row. It
    /// takes no memory.
    pub fn truth(&self, row: &[Datum]) -> Truth
        requires { is_bound (length row.now) self.now ≡ true }
        ensures { result ≡ truth_of row.now self.now }
    {
        match self {
            Pred::Always => Truth::Yes,
            Pred::Never => Truth::No,
            Pred::Compare { op, column, right } => compare_in(*op, *column, right, row),
            Pred::IsNull { column } => is_null_in(*column, row),
            Pred::Both(p, q) => p.get().truth(row).and(q.get().truth(row)),
            Pred::Either(p, q) => p.get().truth(row).or(q.get().truth(row)),
            Pred::Negation(p) => p.get().truth(row).negated(),
            Pred::Keys { columns, rows } => any_key_in(columns.as_slice(), rows, row),
        }
    }
}

/// What stands in a column.
pub(crate) fn cell(row: &[Datum], column: u32) -> &Datum
    requires { column < length row.now }
    ensures { result.now ≡ Rattle.predicates.specs.Truths.cell row.now column }
{
    &row[column as usize]
}

/// The truth of a comparison for a row.
fn compare_in(op: Op, column: u32, right: &Operand<u32>, row: &[Datum]) -> Truth
    requires left { column < length row.now }
    requires right { is_operand (length row.now) right.now ≡ true }
    ensures { result ≡ compared op (Rattle.predicates.specs.Truths.cell row.now column) (right_side row.now right.now) }
{
    let left = cell(row, column);
    match right {
        Operand::Column(other) => compare(op, left, cell(row, *other)),
        Operand::Literal(datum) => compare(op, left, datum),
    }
}

/// Whether a column is null in a row.
fn is_null_in(column: u32, row: &[Datum]) -> Truth
    requires { column < length row.now }
    ensures { result ≡ certain (is_null (Rattle.predicates.specs.Truths.cell row.now column)) }
{
    if let Datum::Null = cell(row, column) {
        Truth::Yes
    } else {
        Truth::No
    }
}

/// Whether each column of a key is equal to its value.
#[tactic(auto, unfolding(crate::specs::Truths::key_in), using(crate::proofs::KleeneLemmas::and_assoc, crate::proofs::KleeneLemmas::and_Yes))]
fn key_truth(columns: &[u32], key: &[Datum], row: &[Datum]) -> Truth
    requires same { length key.now ≡ length columns.now }
    requires bound { list_all (λ c. nat_lt c (length row.now)) columns.now ≡ true }
    ensures { result ≡ key_in row.now columns.now key.now }
{
    let mut truth = Truth::Yes;
    for i in 0..columns.len() {
        truth = truth.and(compare(Op::Eq, cell(row, columns[i]), &key[i]));
    }
    truth
}

/// Whether one of these keys is the row's.
#[tactic(auto, unfolding(crate::specs::Truths::keys_in), using(crate::proofs::KleeneLemmas::or_assoc, crate::proofs::KleeneLemmas::or_No))]
fn any_key_in(columns: &[u32], keys: &Rows, row: &[Datum]) -> Truth
    requires same { list_all (λ k. length k == length columns.now) keys.now ≡ true }
    requires bound { list_all (λ c. nat_lt c (length row.now)) columns.now ≡ true }
    ensures { result ≡ keys_in row.now columns.now keys.now }
{
    let mut truth = Truth::No;
    for key in keys.iter() {
        truth = truth.or(key_truth(columns, key, row));
        if truth == Truth::Yes {
            return Truth::Yes;
        }
    }
    truth
}
