//! Deletes, updates, insert selects and merges over `id long not null, v long, n integer, s string`.
use crate::parts::{
    Answer, Comparison, Form, Literal, ONE, Right, Set, Side, WIDE, equals, exprs, is_answer,
    schema, sets, texts,
};
use op_types::{BySource, Change, MergeSpec};
use predicates::{BindFault, Pred};
use row_base::{Datum, Items, NoMemory, Rows, Schema, Text};
use sqlite_items::Boxed;
use statement_checks::{bound_delete, bound_insert_select, bound_merge, bound_update};
use std::alloc::Global;
use std::test::Fail;

const WORD: Literal = Literal::Word("x");

/// `v = 1`
const RIGHT: Comparison = ("v", Right::Literal(ONE));

/// `w = 1`
const ABSENT: Comparison = ("w", Right::Literal(ONE));

/// `v = 'x'`
const WRONG: Comparison = ("v", Right::Literal(WORD));

/// One comparison `and` another.
fn both(alloc: Global, first: Comparison, second: Comparison) -> Result<Pred<Text>, NoMemory> {
    let first = Boxed::new(alloc, equals(alloc, first)?)?;
    let second = Boxed::new(alloc, equals(alloc, second)?)?;
    Ok(Pred::Both(first, second))
}

fn bind_delete(
    alloc: Global,
    schema: &Schema,
    first: Comparison,
    second: Comparison,
) -> Result<(), BindFault> {
    let pred = both(alloc, first, second)?;
    bound_delete(alloc, schema, &pred)?;
    Ok(())
}

/// Two comparisons, and what a delete where both hold comes to.
type Delete = (Comparison, Comparison, Answer);

const DELETES: [Delete; 14] = [
    (RIGHT, RIGHT, Answer::Bound),
    (ABSENT, RIGHT, Answer::Column("w")),
    (RIGHT, ABSENT, Answer::Column("w")),
    (("id", Right::Literal(WORD)), ABSENT, Answer::Kind("id")),
    (ABSENT, WRONG, Answer::Column("w")),
    (("n", Right::Literal(ONE)), RIGHT, Answer::Bound),
    (("n", Right::Literal(WIDE)), WRONG, Answer::Kind("n")),
    (("n", Right::Literal(Literal::Null)), RIGHT, Answer::Bound),
    (
        ("s", Right::Literal(Literal::Flag(true))),
        RIGHT,
        Answer::Kind("s"),
    ),
    (("s", Right::Literal(WORD)), RIGHT, Answer::Bound),
    (("id", Right::Column("v")), RIGHT, Answer::Bound),
    (("v", Right::Column("n")), ABSENT, Answer::Kind("v")),
    (("v", Right::Column("z")), ABSENT, Answer::Column("z")),
    (("y", Right::Column("z")), ABSENT, Answer::Column("y")),
];

fn bind_update(
    alloc: Global,
    schema: &Schema,
    forms: &[Set],
    comparison: Comparison,
) -> Result<(), BindFault> {
    let sets = sets(alloc, forms)?;
    let pred = equals(alloc, comparison)?;
    bound_update(alloc, schema, sets.as_slice(), &pred)?;
    Ok(())
}

const LITERAL: Form = Form::Of(Side::Literal(ONE));

const TOO_WIDE: Form = Form::Of(Side::Literal(WIDE));

const TEXT: Form = Form::Of(Side::Literal(WORD));

/// The column that is not there.
const NOWHERE: Form = Form::Of(Side::Cell("w"));

const NULLS: Form = Form::Sum(Side::Literal(Literal::Null), Side::Literal(Literal::Null));

/// The sets of an update, its predicate, and what it comes to.
type Update = (&'static [Set], Comparison, Answer);

const UPDATES: [Update; 21] = [
    (&[("v", LITERAL), ("n", LITERAL)], RIGHT, Answer::Bound),
    (
        &[("id", Form::Of(Side::Literal(Literal::Null)))],
        RIGHT,
        Answer::Bound,
    ),
    (
        &[("s", TEXT), ("v", Form::Of(Side::Cell("id")))],
        RIGHT,
        Answer::Bound,
    ),
    (
        &[("v", Form::Sum(Side::Cell("v"), Side::Literal(WIDE)))],
        RIGHT,
        Answer::Bound,
    ),
    // the sets from the left
    (
        &[("w", LITERAL), ("s", LITERAL)],
        RIGHT,
        Answer::Column("w"),
    ),
    (&[("s", LITERAL), ("w", LITERAL)], RIGHT, Answer::Kind("s")),
    (&[("v", LITERAL), ("v", LITERAL)], RIGHT, Answer::Twice("v")),
    (&[("n", TOO_WIDE), ("n", LITERAL)], RIGHT, Answer::Kind("n")),
    // the predicate stands behind them
    (&[("v", LITERAL), ("n", LITERAL)], WRONG, Answer::Kind("v")),
    (&[("v", LITERAL)], ABSENT, Answer::Column("w")),
    (&[("n", LITERAL), ("n", LITERAL)], WRONG, Answer::Twice("n")),
    (&[("s", LITERAL)], ABSENT, Answer::Kind("s")),
    // a column stands before its expression
    (
        &[("v", NOWHERE), ("v", LITERAL)],
        RIGHT,
        Answer::Column("w"),
    ),
    (&[("v", LITERAL), ("v", NOWHERE)], RIGHT, Answer::Twice("v")),
    (&[("u", NOWHERE)], RIGHT, Answer::Column("u")),
    // kinds
    (
        &[("v", Form::Of(Side::Cell("n")))],
        RIGHT,
        Answer::Kind("v"),
    ),
    (
        &[("n", Form::Sum(Side::Cell("n"), Side::Literal(WIDE)))],
        RIGHT,
        Answer::Kind("n"),
    ),
    (
        &[("v", Form::Sum(Side::Literal(ONE), Side::Literal(WORD)))],
        RIGHT,
        Answer::Kind("v"),
    ),
    // arithmetic for texts is wrong at its first name or literal
    (&[("s", NULLS)], RIGHT, Answer::Kind("s")),
    (
        &[("s", Form::Sum(Side::Cell("w"), Side::Literal(ONE)))],
        RIGHT,
        Answer::Column("w"),
    ),
    (
        &[("s", Form::Sum(Side::Literal(ONE), Side::Cell("w")))],
        RIGHT,
        Answer::Kind("s"),
    ),
];

const V: Form = Form::Of(Side::Cell("v"));

const N: Form = Form::Of(Side::Cell("n"));

fn bind_insert_select(alloc: Global, schema: &Schema, select: &Select) -> Result<(), BindFault> {
    let exprs = exprs(alloc, select.0)?;
    let pred = equals(alloc, select.1)?;
    bound_insert_select(alloc, schema, exprs.as_slice(), &pred)?;
    Ok(())
}

/// The expressions of an insert select, its predicate, and what it comes to.
type Select = (&'static [Form], Comparison, Answer);

const SELECTS: [Select; 8] = [
    (&[LITERAL, V, N, TEXT], RIGHT, Answer::Bound),
    (&[LITERAL, V, N], RIGHT, Answer::Count),
    (&[LITERAL, V, N, TEXT, TEXT], RIGHT, Answer::Count),
    (&[NOWHERE, V, N], ABSENT, Answer::Count),
    (&[LITERAL, V, N, LITERAL], ABSENT, Answer::Kind("s")),
    (&[NOWHERE, V, N, LITERAL], RIGHT, Answer::Column("w")),
    (&[LITERAL, N, NOWHERE, TEXT], RIGHT, Answer::Kind("v")),
    (&[LITERAL, V, N, TEXT], ABSENT, Answer::Column("w")),
];

/// The clauses of a merge: the column of the source that matched rows take, and what becomes of the others.
type Clauses = (Option<&'static str>, Option<(Literal, Option<Literal>)>);

fn nulls(alloc: Global, width: usize) -> Result<Vec<Datum>, NoMemory> {
    let mut row = Vec::new(alloc);
    for _ in 0..width {
        row.push(Datum::Null)?;
    }
    Ok(row)
}

/// Rows of nulls of these widths.
fn source(alloc: Global, widths: &[usize]) -> Result<Rows, NoMemory> {
    let mut rows = Rows::new(alloc);
    for width in widths {
        let mut row = nulls(alloc, *width)?;
        rows.push_from(&mut row)?;
    }
    Ok(rows)
}

/// `update set NAME = FORM`
fn update(alloc: Global, name: &'static str, form: Form) -> Result<Change<Text>, NoMemory> {
    let sets = sets(alloc, &[(name, form)])?;
    Ok(Change::Update(Items::from_vec(sets)))
}

/// `when matched then update set n = source.NAME`
fn matched_of(
    alloc: Global,
    matched: Option<&'static str>,
) -> Result<Option<Change<Text>>, NoMemory> {
    match matched {
        Some(name) => Ok(Some(update(alloc, "n", Form::Of(Side::Source(name)))?)),
        None => Ok(None),
    }
}

/// `update set s = LITERAL`, or `delete`.
fn change_of(alloc: Global, set: Option<Literal>) -> Result<Change<Text>, NoMemory> {
    match set {
        Some(literal) => update(alloc, "s", Form::Of(Side::Literal(literal))),
        None => Ok(Change::Delete),
    }
}

/// `when not matched by source and v = LITERAL then`, and that.
fn other_of(
    alloc: Global,
    other: Option<(Literal, Option<Literal>)>,
) -> Result<Option<BySource<Text>>, NoMemory> {
    match other {
        Some((literal, set)) => {
            let pred = equals(alloc, ("v", Right::Literal(literal)))?;
            let change = change_of(alloc, set)?;
            Ok(Some(BySource { pred, change }))
        }
        None => Ok(None),
    }
}

fn merge_of(
    alloc: Global,
    keys: &[&str],
    widths: &[usize],
    clauses: Clauses,
) -> Result<MergeSpec<Text>, NoMemory> {
    let keys = Items::from_vec(texts(alloc, keys)?);
    let source = source(alloc, widths)?;
    let matched = matched_of(alloc, clauses.0)?;
    let by_source = other_of(alloc, clauses.1)?;
    Ok(MergeSpec {
        keys,
        source,
        matched,
        insert: true,
        by_source,
    })
}

fn bind_merge(
    alloc: Global,
    schema: &Schema,
    keys: &[&str],
    widths: &[usize],
    clauses: Clauses,
) -> Result<(), BindFault> {
    let merge = merge_of(alloc, keys, widths, clauses)?;
    bound_merge(alloc, schema, &merge)?;
    Ok(())
}

/// `v = null`, and a delete.
const GOES: Clauses = (None, Some((Literal::Null, None)));

/// `n = source.n`; `v = 1`, and `s = 'x'`.
const BOTH: Clauses = (Some("n"), Some((ONE, Some(WORD))));

/// Keys, widths of the rows of the source, clauses, and what a merge comes to.
type Merge = (&'static [&'static str], &'static [usize], Clauses, Answer);

const MERGES: [Merge; 16] = [
    (&["id", "n"], &[4, 4], BOTH, Answer::Bound),
    (&["s"], &[], (None, None), Answer::Bound),
    (&["id"], &[4], GOES, Answer::Bound),
    // the keys
    (&["id", "w"], &[4], BOTH, Answer::Column("w")),
    (&["id", "id", "w"], &[4], BOTH, Answer::Twice("id")),
    (&["w", "w"], &[4, 3], BOTH, Answer::Column("w")),
    (&["id", "id"], &[3], (Some("w"), None), Answer::Twice("id")),
    // then the rows
    (&["id"], &[4, 3], (Some("w"), None), Answer::Count),
    (&["id"], &[5], (None, Some((WORD, None))), Answer::Count),
    (&["id"], &[0], BOTH, Answer::Count),
    // then the clause of matched rows
    (
        &["id"],
        &[4],
        (Some("w"), Some((WORD, None))),
        Answer::Column("w"),
    ),
    (
        &["id"],
        &[4],
        (Some("s"), Some((WORD, None))),
        Answer::Kind("n"),
    ),
    (&["id"], &[4], (Some("v"), None), Answer::Kind("n")),
    // and then that of the others, its predicate first
    (
        &["id"],
        &[4],
        (Some("n"), Some((WORD, Some(ONE)))),
        Answer::Kind("v"),
    ),
    (
        &["id"],
        &[4],
        (Some("n"), Some((ONE, Some(ONE)))),
        Answer::Kind("s"),
    ),
    (&["id"], &[4], (None, Some((WORD, None))), Answer::Kind("v")),
];

fn deletes_come(alloc: Global, schema: &Schema, deletes: &[Delete]) -> bool {
    deletes.iter().all(|(first, second, answer)| {
        is_answer(&bind_delete(alloc, schema, *first, *second), *answer)
    })
}

fn updates_come(alloc: Global, schema: &Schema, updates: &[Update]) -> bool {
    for (forms, comparison, answer) in updates {
        let bound = bind_update(alloc, schema, forms, *comparison);
        if !is_answer(&bound, *answer) {
            return false;
        }
    }
    true
}

fn selects_come(alloc: Global, schema: &Schema, selects: &[Select]) -> bool {
    selects.iter().all(|select| is_answer(&bind_insert_select(alloc, schema, select), select.2))
}

fn merges_come(alloc: Global, schema: &Schema, merges: &[Merge]) -> bool {
    merges.iter().all(|(keys, widths, clauses, answer)| {
        is_answer(&bind_merge(alloc, schema, keys, widths, *clauses), *answer)
    })
}

fn all_deletes_come(alloc: Global, schema: &Schema) -> bool {
    deletes_come(alloc, schema, &DELETES)
}

fn all_updates_come(alloc: Global, schema: &Schema) -> bool {
    updates_come(alloc, schema, &UPDATES)
}

fn all_selects_come(alloc: Global, schema: &Schema) -> bool {
    selects_come(alloc, schema, &SELECTS)
}

fn all_merges_come(alloc: Global, schema: &Schema) -> bool {
    merges_come(alloc, schema, &MERGES)
}

#[test]
fn changes(rt: HostRuntime) -> Result<(), Fail> {
    let alloc = rt.alloc();
    let schema = schema(alloc)?;
    let deletes = all_deletes_come(alloc, &schema);
    let updates = all_updates_come(alloc, &schema);
    let selects = all_selects_come(alloc, &schema);
    let merges = all_merges_come(alloc, &schema);
    drop(schema);
    assert!(rt; deletes);
    assert!(rt; updates);
    assert!(rt; selects);
    assert!(rt; merges);
    Ok(())
}
