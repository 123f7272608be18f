//! What is known of a column of a file.
ghost use Rattle.std.specs.Prelude.{◌≡◌, IfOk};
ghost use Rattle.prune.specs.Facts as spec;
ghost use Rattle.file_stats.specs.Columns.{no_stats};
ghost use Rattle.prune.specs.Known.{known_of, exact_facts};

use crate::possible::Possible;
use file_stats::ColumnStats;
use predicates::Op;
use row_base::{Datum, NoMemory};
use std::cmp::Ordering;

/// What is known of a column: whether it can be null in a row, whether it can be a value, and bounds of the values.
#[derive(Debug, Drop)]
pub struct ColumnFacts {
    pub can_be_null: bool,
    pub can_be_value: bool,
    pub least: Option<Datum>,
    pub greatest: Option<Datum>,
}

/// The order of a bound, where there is one, to a literal, by a short way for longs.
fn order_of(bound: &Option<Datum>, literal: &Datum) -> Option<Ordering>
    ensures { result ≡ spec.against bound.now literal.now }
{
    let Some(bound) = bound else {
        return None;
    };
    if let Datum::Long(x) = bound
        && let Datum::Long(y) = literal
    {
        return Some(x.cmp(y));
    }
    Some(bound.cmp(literal))
}

/// Whether an operator may hold of a value and the literal, by the orders of the bounds to the literal.
fn may_hold(op: Op, least: Option<Ordering>, greatest: Option<Ordering>) -> bool
    ensures { result ≡ spec.may_hold op least greatest }
{
    match op {
        Op::Eq => may_be_at(least, greatest),
        Op::Ne => may_be_elsewhere(least, greatest),
        Op::Lt => least.is_none_or(|order| order.is_lt()),
        Op::Le => least.is_none_or(|order| order.is_le()),
        Op::Gt => greatest.is_none_or(|order| order.is_gt()),
        Op::Ge => greatest.is_none_or(|order| order.is_ge()),
    }
}

/// Whether a value may be the literal.
fn may_be_at(least: Option<Ordering>, greatest: Option<Ordering>) -> bool
    ensures { result ≡ spec.may_be_at least greatest }
{
    least.is_none_or(|order| order.is_le()) && greatest.is_none_or(|order| order.is_ge())
}

/// Whether a value may be another than the literal.
fn may_be_elsewhere(least: Option<Ordering>, greatest: Option<Ordering>) -> bool
    ensures { result ≡ spec.may_be_elsewhere least greatest }
{
    !(least == Some(Ordering::Equal) && greatest == Some(Ordering::Equal))
}

/// The operator that holds where this one doesn't.
fn opposite(op: Op) -> Op
    ensures { result ≡ spec.opposite op }
{
    match op {
        Op::Eq => Op::Ne,
        Op::Ne => Op::Eq,
        Op::Lt => Op::Ge,
        Op::Le => Op::Gt,
        Op::Gt => Op::Le,
        Op::Ge => Op::Lt,
    }
}

/// A bound of its own. The bytes of a text are shared.
fn copy_bound(bound: &Option<Datum>) -> Result<Option<Datum>, NoMemory>
    ensures { IfOk result (λ o. o ≡ bound.now) }
{
    match bound {
        Some(bound) => Ok(Some(bound.copy()?)),
        None => Ok(None),
    }
}

impl ColumnFacts {
    /// The facts of a data column of a file that has so many rows, where that is known, by its statistics.
    pub(crate) fn known(count: Option<u64>, stats: &ColumnStats) -> Result<ColumnFacts, NoMemory>
        ensures { IfOk result (λ f. f ≡ known_of count stats.now) }
    {
        let least = copy_bound(&stats.least)?;
        let greatest = copy_bound(&stats.greatest)?;
        Ok(ColumnFacts {
            can_be_null: count != Some(0) && stats.nulls != Some(0),
            can_be_value: count != Some(0) && (count.is_none() || stats.nulls != count),
            least,
            greatest,
        })
    }

    /// The facts of a data column of which nothing is known, in a file that has so many rows, where that is known.
    pub(crate) fn unknown(count: Option<u64>) -> ColumnFacts
        ensures { result ≡ known_of count no_stats }
    {
        ColumnFacts {
            can_be_null: count != Some(0),
            can_be_value: count != Some(0),
            least: None,
            greatest: None,
        }
    }

    /// The facts of a partition column: it has this value in each row.
    pub(crate) fn exact(value: &Datum) -> Result<ColumnFacts, NoMemory>
        ensures { IfOk result (λ f. f ≡ exact_facts value.now) }
    {
        let is_null = *value == Datum::Null;
        let least = Some(value.copy()?);
        let greatest = Some(value.copy()?);
        Ok(ColumnFacts {
            can_be_null: is_null,
            can_be_value: !is_null,
            least,
            greatest,
        })
    }

    /// The truths of the column compared with a literal.
    pub(crate) fn compared(&self, op: Op, literal: &Datum) -> Possible
        ensures { result ≡ spec.compared_by self.now op literal.now }
    {
        if let Datum::Null = literal {
            return Possible::UNKNOWN;
        }
        let least = order_of(&self.least, literal);
        let greatest = order_of(&self.greatest, literal);
        Possible {
            yes: self.can_be_value && may_hold(op, least, greatest),
            no: self.can_be_value && may_hold(opposite(op), least, greatest),
            unknown: self.can_be_null,
        }
    }

    /// The truths of two columns compared.
    pub(crate) fn compared_with(&self, other: &ColumnFacts) -> Possible
        ensures { result ≡ spec.two_by self.now other.now }
    {
        let values = self.can_be_value && other.can_be_value;
        Possible {
            yes: values,
            no: values,
            unknown: self.can_be_null || other.can_be_null,
        }
    }

    /// The truths of the column being null.
    pub(crate) fn null(&self) -> Possible
        ensures { result ≡ spec.null_by self.now }
    {
        Possible {
            yes: self.can_be_null,
            no: self.can_be_value,
            unknown: false,
        }
    }
}
