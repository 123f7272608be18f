//! What statistics say: comparisons with bounds, nulls, files of no rows, and statistics that say nothing.
ghost use Rattle.std.specs.Prelude.{◌≡◌, length};

use crate::files::{compared, facts_of, may, may_named, negated, two_columns};
use predicates::{Op, Operand, Pred};
use prune::FileFacts;
use row_base::{Datum, Items, Kind, NoMemory, Rows, Schema, Text};
use std::alloc::Global;
use std::test::Fail;

/// Whether the file may match `v` compared with a number, or what that is not.
fn matches(
    alloc: Global,
    facts: &FileFacts,
    op: Op,
    number: i64,
    is_negated: bool,
) -> Result<bool, NoMemory>
    requires { length facts.now ≡ 2 }
{
    let pred = negated(alloc, compared(0, op, number), is_negated)?;
    Ok(may(facts, pred))
}

/// Whether the file may match `v is null`, or `v is not null`.
fn matches_null(alloc: Global, facts: &FileFacts, is_negated: bool) -> Result<bool, NoMemory>
    requires { length facts.now ≡ 2 }
{
    let pred = negated(alloc, Pred::IsNull { column: 0 }, is_negated)?;
    Ok(may(facts, pred))
}

/// Three rows with `v` from 1 to 5 and no null.
const ONE_TO_FIVE: &str =
    r#"{"maxValues":{"v":5},"minValues":{"v":1},"nullCount":{"v":0},"numRecords":3}"#;

/// A comparison, whether the file may match it, and whether it may match what that is not.
const OF_ONE_TO_FIVE: [(Op, i64, bool, bool); 26] = [
    (Op::Eq, 0, false, true),
    (Op::Eq, 1, true, true),
    (Op::Eq, 5, true, true),
    (Op::Eq, 6, false, true),
    (Op::Ne, 0, true, false),
    (Op::Ne, 1, true, true),
    (Op::Ne, 5, true, true),
    (Op::Ne, 6, true, false),
    (Op::Lt, 1, false, true),
    (Op::Lt, 2, true, true),
    (Op::Lt, 5, true, true),
    (Op::Lt, 6, true, false),
    (Op::Le, 0, false, true),
    (Op::Le, 1, true, true),
    (Op::Le, 4, true, true),
    (Op::Le, 5, true, false),
    (Op::Gt, 0, true, false),
    (Op::Gt, 1, true, true),
    (Op::Gt, 4, true, true),
    (Op::Gt, 5, false, true),
    (Op::Ge, 1, true, false),
    (Op::Ge, 2, true, true),
    (Op::Ge, 5, true, true),
    (Op::Ge, 6, false, true),
    (Op::Eq, i64::MIN, false, true),
    (Op::Eq, i64::MAX, false, true),
];

#[test]
fn a_file_from_one_to_five(rt: HostRuntime) -> Result<(), Fail> {
    let alloc = rt.alloc();
    let schema = two_columns(alloc, Kind::Long, false)?;
    let facts = facts_of(alloc, &schema, Some(ONE_TO_FIVE), None)?;
    assert!(rt; schema.columns().len() == 2);
    for (op, number, is, is_not) in OF_ONE_TO_FIVE {
        assert!(rt; matches(alloc, &facts, op, number, false)? == is);
        assert!(rt; matches(alloc, &facts, op, number, true)? == is_not);
    }
    Ok(())
}

/// What a file may match.
type Seen = [bool; 4];

/// Whether a file of these statistics may match `v is null`, `v is not null`, `v = 4`, `not (v = 4)`.
fn seen(alloc: Global, stats: Option<&str>) -> Result<Seen, Fail> {
    let schema = two_columns(alloc, Kind::Long, false)?;
    let facts = facts_of(alloc, &schema, stats, None)?;
    if schema.columns().len() != 2 {
        return Ok([false, false, false, false]);
    }
    let null = matches_null(alloc, &facts, false)?;
    let value = matches_null(alloc, &facts, true)?;
    let four = matches(alloc, &facts, Op::Eq, 4, false)?;
    let other = matches(alloc, &facts, Op::Eq, 4, true)?;
    Ok([null, value, four, other])
}

/// Statistics that say nothing of `v`, or nothing that holds for its kind. Of the last two the number of rows and of
/// nulls is past 64 bits, and the text is none of an object.
const ANYTHING: Seen = [true, true, true, true];

const CASES: [(&str, Seen); 22] = [
    (ONE_TO_FIVE, [false, true, true, true]),
    // one value
    (
        r#"{"maxValues":{"v":4},"minValues":{"v":4},"nullCount":{"v":0},"numRecords":2}"#,
        [false, true, true, false],
    ),
    // nulls beside one value, and bounds without it
    (
        r#"{"maxValues":{"v":4},"minValues":{"v":4},"nullCount":{"v":1},"numRecords":2}"#,
        [true, true, true, false],
    ),
    (
        r#"{"maxValues":{"v":3},"minValues":{"v":3},"nullCount":{"v":1},"numRecords":2}"#,
        [true, true, false, true],
    ),
    // one bound
    (
        r#"{"maxValues":{"v":3},"numRecords":2}"#,
        [true, true, false, true],
    ),
    (
        r#"{"minValues":{"v":5},"numRecords":2}"#,
        [true, true, false, true],
    ),
    (r#"{"minValues":{"v":4},"numRecords":2}"#, ANYTHING),
    // each row is null
    (
        r#"{"nullCount":{"v":2},"numRecords":2}"#,
        [true, false, false, false],
    ),
    // a number of rows or of nulls that is not known
    (r#"{"nullCount":{"v":2}}"#, ANYTHING),
    (r#"{"nullCount":{"v":0}}"#, [false, true, true, true]),
    (r#"{"numRecords":2}"#, ANYTHING),
    // no rows
    (r#"{"numRecords":0}"#, [false, false, false, false]),
    (
        r#"{"maxValues":{"v":5},"minValues":{"v":1},"nullCount":{"v":0},"numRecords":0}"#,
        [false, false, false, false],
    ),
    // nothing that holds for its kind
    ("", ANYTHING),
    ("[1]", ANYTHING),
    ("{}", ANYTHING),
    (r#"{"numRecords":2"#, ANYTHING),
    (
        r#"{"maxValues":{"v":"3"},"minValues":{"v":true},"nullCount":{"v":1.5},"numRecords":"1"}"#,
        ANYTHING,
    ),
    (
        r#"{"maxValues":{"v":-9223372036854775809},"minValues":{"v":9223372036854775808}}"#,
        ANYTHING,
    ),
    (
        r#"{"maxValues":3,"minValues":[5],"nullCount":"v","numRecords":{}}"#,
        ANYTHING,
    ),
    (
        r#"{"nullCount":{"v":18446744073709551616},"numRecords":18446744073709551616}"#,
        ANYTHING,
    ),
    (
        r#"{"maxValues":{"V":3},"minValues":{"w":5},"nullCount":{"w":0}}"#,
        ANYTHING,
    ),
];

#[test]
fn what_is_not_known_passes_no_file_over(rt: HostRuntime) -> Result<(), Fail> {
    let alloc = rt.alloc();
    for (stats, wanted) in CASES {
        assert!(rt; seen(alloc, Some(stats))? == wanted);
    }
    assert!(rt; seen(alloc, None)? == ANYTHING);
    Ok(())
}

/// `v` compared with a text.
fn beside_text(alloc: Global, op: Op, text: &str) -> Result<Pred<Text>, NoMemory> {
    let text = Text::make(alloc, text)?;
    let column = Text::make(alloc, "v")?;
    Ok(Pred::Compare {
        op,
        column,
        right: Operand::Literal(Datum::Text(text)),
    })
}

/// Whether a file with these statistics of texts may match it.
fn matches_text(alloc: Global, stats: &str, op: Op, text: &str) -> Result<Option<bool>, Fail> {
    let schema = two_columns(alloc, Kind::String, false)?;
    let facts = facts_of(alloc, &schema, Some(stats), None)?;
    let pred = beside_text(alloc, op, text)?;
    Ok(may_named(alloc, &schema, &facts, pred))
}

/// One row of 32 letters `a` and a `b`, whose least value was cut.
const CUT: &str =
    r#"{"maxValues":{},"minValues":{"v":"aaaaaaaaaaaaaaaaaaaaaaaaaaaaaaaa"},"nullCount":{"v":0},"numRecords":1}"#;

/// Bounds that are no texts.
const NUMBERS: &str = r#"{"maxValues":{"v":1},"minValues":{"v":2},"numRecords":1}"#;

const OF_TEXTS: [(&str, Op, &str, bool); 7] = [
    (CUT, Op::Gt, "aaaaaaaaaaaaaaaaaaaaaaaaaaaaaaaa", true),
    (CUT, Op::Lt, "aaa", false),
    (CUT, Op::Eq, "aaaaaaaaaaaaaaaaaaaaaaaaaaaaaaaab", true),
    (CUT, Op::Ge, "b", true),
    (CUT, Op::Le, "", false),
    (NUMBERS, Op::Eq, "x", true),
    (NUMBERS, Op::Lt, "", true),
];

#[test]
fn a_text_that_was_cut_is_no_greatest_value(rt: HostRuntime) -> Result<(), Fail> {
    let alloc = rt.alloc();
    for (stats, op, text, wanted) in OF_TEXTS {
        assert!(rt; matches_text(alloc, stats, op, text)? == Some(wanted));
    }
    Ok(())
}

/// `v` is one of two numbers, of which each may be absent.
fn keys_of(alloc: Global, first: Option<i64>, second: Option<i64>) -> Result<Pred<Text>, NoMemory> {
    let mut rows = Rows::new(alloc);
    if let Some(first) = first {
        rows.push_copy(&[Datum::Long(first)])?;
    }
    if let Some(second) = second {
        rows.push_copy(&[Datum::Long(second)])?;
    }
    let name = Text::make(alloc, "v")?;
    let mut names = Vec::new(alloc);
    names.push(name)?;
    let columns = Items::from_vec(names);
    Ok(Pred::Keys { columns, rows })
}

/// Whether the file may match that.
fn matches_keys(
    alloc: Global,
    stats: &str,
    first: Option<i64>,
    second: Option<i64>,
) -> Result<Option<bool>, Fail> {
    let schema = two_columns(alloc, Kind::Long, false)?;
    let facts = facts_of(alloc, &schema, Some(stats), None)?;
    let pred = keys_of(alloc, first, second)?;
    Ok(may_named(alloc, &schema, &facts, pred))
}

const NO_ROWS: &str = r#"{"numRecords":0}"#;

#[test]
fn keys_outside_the_bounds(rt: HostRuntime) -> Result<(), Fail> {
    let alloc = rt.alloc();
    assert!(rt; matches_keys(alloc, ONE_TO_FIVE, Some(0), Some(6))? == Some(false));
    assert!(rt; matches_keys(alloc, ONE_TO_FIVE, Some(0), Some(5))? == Some(true));
    assert!(rt; matches_keys(alloc, ONE_TO_FIVE, None, None)? == Some(false));
    assert!(rt; matches_keys(alloc, NO_ROWS, Some(0), Some(5))? == Some(false));
    Ok(())
}

/// Whether a file may match `v` compared with `w`.
fn matches_two(alloc: Global, stats: &str, op: Op) -> Result<bool, Fail> {
    let schema = two_columns(alloc, Kind::Long, false)?;
    let facts = facts_of(alloc, &schema, Some(stats), None)?;
    let pred = Pred::Compare {
        op,
        column: 0,
        right: Operand::Column(1),
    };
    Ok(schema.columns().len() == 2 && may(&facts, pred))
}

/// `w` is below each `v`; the second time it is null alone.
const APART: &str =
    r#"{"maxValues":{"v":5,"w":0},"minValues":{"v":1,"w":0},"nullCount":{"v":0,"w":0},"numRecords":3}"#;

const BESIDE_NULLS: &str = r#"{"nullCount":{"v":0,"w":3},"numRecords":3}"#;

#[test]
fn bounds_of_two_columns_are_not_compared(rt: HostRuntime) -> Result<(), Fail> {
    let alloc = rt.alloc();
    for op in [Op::Eq, Op::Ne, Op::Lt, Op::Le, Op::Gt, Op::Ge] {
        assert!(rt; matches_two(alloc, APART, op)?);
        assert!(rt; !matches_two(alloc, BESIDE_NULLS, op)?);
        assert!(rt; !matches_two(alloc, NO_ROWS, op)?);
    }
    Ok(())
}
