//! `may_match` beside all rows of small files: a file is passed over only where no row is `Yes`. What is known of a file
//! is what the statistics of its rows say, as a text.
ghost use Rattle.std.specs.Prelude.{◌≡◌, true, IfOk, length};
ghost use Rattle.predicates.specs.Truths.{is_bound};

use crate::files::{compared, facts_of, may, negated, two_columns};
use file_stats::{stats_of, write_stats};
use predicates::{Op, Operand, Pred, Truth};
use prune::FileFacts;
use row_base::{Datum, Kind, NoMemory, Rows, Schema, Text};
use sqlite_items::Boxed;
use std::alloc::Global;
use std::test::Fail;

/// A row of two longs; `None` is null.
type Pair = (Option<i64>, Option<i64>);

fn datum(value: Option<i64>) -> Datum {
    match value {
        Some(number) => Datum::Long(number),
        None => Datum::Null,
    }
}

/// Whether the predicate is `Yes` for one of the rows.
fn some_row(pred: &Pred<u32>, rows: &[Pair]) -> bool
    requires { is_bound 2 pred.now ≡ true }
{
    let mut found = false;
    for (v, w) in rows {
        let row = [datum(*v), datum(*w)];
        if pred.truth(&row) == Truth::Yes {
            found = true;
        }
    }
    found
}

/// The text of the statistics of these rows.
fn stats_text(alloc: Global, schema: &Schema, pairs: &[Pair]) -> Result<Text, NoMemory> {
    let mut rows = Rows::new(alloc);
    for (v, w) in pairs {
        rows.push_copy(&[datum(*v), datum(*w)])?;
    }
    let stats = stats_of(alloc, schema, &rows)?;
    write_stats(alloc, schema, &stats)
}

/// What is known of a file of these rows.
fn facts_of_rows(alloc: Global, schema: &Schema, pairs: &[Pair]) -> Result<FileFacts, Fail>
    ensures { IfOk result (λ f. length f ≡ length schema.now.columns) }
{
    let text = stats_text(alloc, schema, pairs)?;
    let facts = facts_of(alloc, schema, Some(text.as_str()), None)?;
    Ok(facts)
}

/// How two comparisons are put together.
#[derive(Clone, Copy, Drop)]
enum Form {
    Both,
    Either,
}

/// Whether both can be `Yes`, or one of them.
fn joined(
    alloc: Global,
    form: Form,
    left: Pred<u32>,
    right: Pred<u32>,
) -> Result<Pred<u32>, NoMemory>
    requires left { is_bound 2 left ≡ true }
    requires right { is_bound 2 right ≡ true }
    ensures { IfOk result (λ p. is_bound 2 p ≡ true) }
{
    let left = Boxed::new(alloc, left)?;
    let right = Boxed::new(alloc, right)?;
    match form {
        Form::Both => Ok(Pred::Both(left, right)),
        Form::Either => Ok(Pred::Either(left, right)),
    }
}

/// `v` and `w`, each compared with a number: both of it, or one, or what that is not.
fn formed(
    alloc: Global,
    form: Form,
    op: Op,
    number: i64,
    is_negated: bool,
) -> Result<Pred<u32>, NoMemory>
    ensures { IfOk result (λ p. is_bound 2 p ≡ true) }
{
    let pred = joined(alloc, form, compared(0, op, number), compared(1, Op::Le, 2))?;
    negated(alloc, pred, is_negated)
}

/// Whether a file that may not match has no row that is `Yes`. The predicate goes with it.
fn is_kept(facts: &FileFacts, rows: &[Pair], pred: Pred<u32>) -> bool
    requires width { length facts.now ≡ 2 }
    requires bound { is_bound 2 pred ≡ true }
{
    let found = some_row(&pred, rows);
    let may = may(facts, pred);
    may || !found
}

const OPS: [Op; 6] = [Op::Eq, Op::Ne, Op::Lt, Op::Le, Op::Gt, Op::Ge];

/// Whether that is so of each form with this operator and number.
fn are_kept(
    alloc: Global,
    facts: &FileFacts,
    rows: &[Pair],
    op: Op,
    number: i64,
) -> Result<bool, NoMemory>
    requires { length facts.now ≡ 2 }
{
    let mut all = true;
    for form in [Form::Both, Form::Either] {
        for is_negated in [false, true] {
            let pred = formed(alloc, form, op, number, is_negated)?;
            all = is_kept(facts, rows, pred) && all;
        }
    }
    Ok(all)
}

/// The same of each operator and some numbers, and of two columns compared.
fn is_file_kept(alloc: Global, rows: &[Pair]) -> Result<bool, Fail> {
    let schema = two_columns(alloc, Kind::Long, false)?;
    let facts = facts_of_rows(alloc, &schema, rows)?;
    if schema.columns().len() != 2 {
        return Ok(false);
    }
    let mut all = true;
    for op in OPS {
        let two = Pred::Compare {
            op,
            column: 0,
            right: Operand::Column(1),
        };
        all = is_kept(&facts, rows, two) && all;
        for number in [1, 2, 3, 4] {
            all = are_kept(alloc, &facts, rows, op, number)? && all;
        }
    }
    Ok(all)
}

const FILES: [&[Pair]; 10] = [
    &[],
    &[(Some(2), Some(2))],
    &[(Some(2), Some(3)), (Some(3), Some(2))],
    &[(None, Some(2)), (Some(2), None)],
    &[(None, Some(3)), (None, Some(1))],
    &[(Some(1), None), (Some(4), None)],
    &[(None, None)],
    &[(Some(1), Some(4)), (Some(4), Some(1)), (None, Some(2))],
    &[(Some(3), Some(3)), (Some(3), None)],
    &[
        (Some(i64::MIN), Some(i64::MAX)),
        (Some(i64::MAX), Some(i64::MIN)),
    ],
];

#[test]
fn no_file_with_a_row_is_passed_over(rt: HostRuntime) -> Result<(), Fail> {
    let alloc = rt.alloc();
    for rows in FILES {
        assert!(rt; is_file_kept(alloc, rows)?);
    }
    Ok(())
}
