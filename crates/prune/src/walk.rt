//! Whether a file may have a row for which a predicate is `Yes`.
ghost use Rattle.std.specs.Prelude.{◌≡◌, ◌==◌, ◌<◌, true, nat_lt, length, slice_get};
ghost use Rattle.std.specs.List.{list_all};
ghost use Rattle.predicates.specs.Truths.{is_bound, is_operand};
ghost use Rattle.prune.specs.Facts as spec;

use crate::column::ColumnFacts;
use crate::file::FileFacts;
use crate::possible::Possible;
use predicates::{Op, Operand, Pred};
use row_base::{Datum, RowSlice, Rows};

/// Whether a file with these facts may have a row for which the predicate is `Yes`. The columns of the predicate are
/// places of columns that the facts have. It takes no memory, and recurses as deep as the predicate is.
pub fn may_match(pred: &Pred<u32>, facts: &FileFacts) -> bool
    requires { is_bound (length facts.now) pred.now ≡ true }
    ensures { result ≡ (spec.possible_in facts.now pred.now).yes }
{
    possible(pred, facts.columns()).yes
}

/// The truths that the predicate may have.
fn possible(pred: &Pred<u32>, facts: &[ColumnFacts]) -> Possible
    requires { is_bound (length facts.now) pred.now ≡ true }
    ensures { result ≡ spec.possible_in facts.now pred.now }
{
    match pred {
        Pred::Always => Possible::YES,
        Pred::Never => Possible::NO,
        Pred::Compare { op, column, right } => compared(*op, *column, right, facts),
        Pred::IsNull { column } => at(facts, *column).null(),
        Pred::Both(p, q) => possible(p.get(), facts).and(possible(q.get(), facts)),
        Pred::Either(p, q) => possible(p.get(), facts).or(possible(q.get(), facts)),
        Pred::Negation(p) => possible(p.get(), facts).negated(),
        Pred::Keys { columns, rows } => any_key(columns.as_slice(), rows, facts),
    }
}

/// The facts of a column.
fn at(facts: &[ColumnFacts], column: u32) -> &ColumnFacts
    requires { column < length facts.now }
    ensures { result.now ≡ spec.facts_at facts.now column }
{
    &facts[column as usize]
}

/// The truths of a comparison.
fn compared(op: Op, column: u32, right: &Operand<u32>, facts: &[ColumnFacts]) -> Possible
    requires left { column < length facts.now }
    requires right { is_operand (length facts.now) right.now ≡ true }
    ensures { result ≡ spec.operand_by facts.now op column right.now }
{
    let left = at(facts, column);
    match right {
        Operand::Column(other) => left.compared_with(at(facts, *other)),
        Operand::Literal(datum) => left.compared(op, datum),
    }
}

/// The truths of each column of a key being its value.
#[tactic(auto, unfolding(crate::specs::Facts::key_by))]
fn key(columns: &[u32], key: &[Datum], facts: &[ColumnFacts]) -> Possible
    requires same { length key.now ≡ length columns.now }
    requires bound { list_all (λ c. nat_lt c (length facts.now)) columns.now ≡ true }
    ensures { result ≡ spec.key_by facts.now columns.now key.now }
{
    let mut truths = Possible::YES;
    let mut i = columns.len();
    while 0 < i {
        i -= 1;
        truths = at(facts, columns[i]).compared(Op::Eq, &key[i]).and(truths);
    }
    truths
}

/// The truths of the key at this place among keys.
fn key_at(columns: &[u32], keys: &RowSlice<'_>, place: usize, facts: &[ColumnFacts]) -> Possible
    requires same { list_all (λ k. length k == length columns.now) keys.now ≡ true }
    requires bound { list_all (λ c. nat_lt c (length facts.now)) columns.now ≡ true }
    ensures { result ≡ spec.key_if_there facts.now columns.now (slice_get keys.now place) }
{
    match keys.get(place) {
        Some(data) => key(columns, data, facts),
        None => Possible::NO,
    }
}

/// The truths of one of the keys being a row's.
#[tactic(auto, unfolding(crate::specs::Facts::keys_by), using(crate::proofs::KeyRows::keys_before))]
fn any_key(columns: &[u32], keys: &Rows, facts: &[ColumnFacts]) -> Possible
    requires same { list_all (λ k. length k == length columns.now) keys.now ≡ true }
    requires bound { list_all (λ c. nat_lt c (length facts.now)) columns.now ≡ true }
    ensures { result ≡ spec.keys_by facts.now columns.now keys.now }
{
    let slice = keys.iter();
    let mut truths = Possible::NO;
    let mut i = slice.len();
    while 0 < i {
        i -= 1;
        truths = key_at(columns, &slice, i, facts).or(truths);
    }
    truths
}
