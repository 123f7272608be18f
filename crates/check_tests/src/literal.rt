//! Literal rows for `id long not null, v long, n integer, s string`, partitioned by `s`, of inserts and of merges.
use crate::parts::{Literal, ONE, WIDE, datum, schema};
use op_types::{Change, MergeOp, MergeSpec};
use row_base::{Datum, Items, NoMemory, RowFault, Rows, Schema};
use statement_checks::{RowsFault, literal_rows, settled_merge};
use std::alloc::Global;
use std::test::Fail;

/// What two rows come to.
#[derive(Clone, Copy, Drop, PartialEq, Eq)]
enum Ending {
    /// They fit, and the third datum of the second one is this.
    Fits(Option<i32>),
    /// One doesn't fit; its first datum is this.
    Wrong(Option<i64>, RowFault),
    Other,
}

fn data(alloc: Global, row: &[Literal]) -> Result<Vec<Datum>, NoMemory> {
    let mut data = Vec::new(alloc);
    for literal in row {
        data.push(datum(alloc, *literal)?)?;
    }
    Ok(data)
}

fn rows_of(alloc: Global, first: &[Literal], second: &[Literal]) -> Result<Rows, NoMemory> {
    let mut rows = Rows::new(alloc);
    let mut row = data(alloc, first)?;
    rows.push_from(&mut row)?;
    let mut row = data(alloc, second)?;
    rows.push_from(&mut row)?;
    Ok(rows)
}

fn taken(rows: &Rows) -> Ending {
    match rows.get(1) {
        Some([_, _, Datum::Integer(n), _]) => Ending::Fits(Some(*n)),
        Some([_, _, Datum::Null, _]) => Ending::Fits(None),
        _ => Ending::Other,
    }
}

fn refused(row: &[Datum], fault: RowFault) -> Ending {
    match row.first() {
        Some(Datum::Long(n)) => Ending::Wrong(Some(*n), fault),
        Some(Datum::Null) => Ending::Wrong(None, fault),
        _ => Ending::Other,
    }
}

fn wrong(fault: &RowsFault) -> Ending {
    match fault {
        RowsFault::Row { row, fault } => refused(row.as_slice(), *fault),
        RowsFault::NoMemory => Ending::Other,
    }
}

/// What two rows of an insert come to.
fn end_of(
    alloc: Global,
    schema: &Schema,
    first: &[Literal],
    second: &[Literal],
) -> Result<Ending, NoMemory> {
    let rows = rows_of(alloc, first, second)?;
    let literal = literal_rows(alloc, schema, &rows);
    drop(rows);
    let end = match &literal {
        Ok(rows) => taken(rows),
        Err(fault) => wrong(fault),
    };
    drop(literal);
    Ok(end)
}

/// `merge key (n) using .. when matched then delete`, with these two rows.
fn merge_of(alloc: Global, first: &[Literal], second: &[Literal]) -> Result<MergeOp, NoMemory> {
    let keys = Items::from_vec(Vec::from_slice(alloc, &[2u32])?);
    let source = rows_of(alloc, first, second)?;
    Ok(MergeSpec {
        keys,
        source,
        matched: Some(Change::Delete),
        insert: false,
        by_source: None,
    })
}

/// What two rows of a merge come to, which adds none.
fn merge_end(
    alloc: Global,
    schema: &Schema,
    first: &[Literal],
    second: &[Literal],
) -> Result<Ending, NoMemory> {
    let merge = merge_of(alloc, first, second)?;
    let settled = settled_merge(alloc, schema, merge);
    let end = match &settled {
        Ok(merge) => taken(&merge.source),
        Err(fault) => wrong(fault),
    };
    drop(settled);
    Ok(end)
}

const NULL: Literal = Literal::Null;

const TEXT: Literal = Literal::Word("x");

const EMPTY: Literal = Literal::Word("");

/// The least integer of 32 bits.
const LEAST: Literal = Literal::Number(-2_147_483_648);

const SEVEN: Literal = Literal::Number(7);

const RIGHT: &[Literal] = &[ONE, ONE, ONE, TEXT];

/// Two rows, and what they come to.
type Case = (&'static [Literal], &'static [Literal], Ending);

const ROWS: [Case; 12] = [
    (
        RIGHT,
        &[SEVEN, NULL, LEAST, TEXT],
        Ending::Fits(Some(-2_147_483_648)),
    ),
    (RIGHT, &[SEVEN, NULL, NULL, NULL], Ending::Fits(None)),
    (
        RIGHT,
        &[SEVEN, ONE, WIDE, EMPTY],
        Ending::Wrong(Some(7), RowFault::Kind { column: 2 }),
    ),
    (
        RIGHT,
        &[SEVEN, ONE, ONE, EMPTY],
        Ending::Wrong(Some(7), RowFault::EmptyPartition { column: 3 }),
    ),
    (
        RIGHT,
        &[NULL, ONE, WIDE, NULL],
        Ending::Wrong(None, RowFault::Null { column: 0 }),
    ),
    (
        RIGHT,
        &[SEVEN, TEXT, WIDE, EMPTY],
        Ending::Wrong(Some(7), RowFault::Kind { column: 1 }),
    ),
    (
        RIGHT,
        &[SEVEN, ONE, Literal::Flag(true), ONE],
        Ending::Wrong(Some(7), RowFault::Kind { column: 2 }),
    ),
    (
        RIGHT,
        &[SEVEN, TEXT, ONE],
        Ending::Wrong(Some(7), RowFault::Count),
    ),
    (
        RIGHT,
        &[SEVEN, ONE, ONE, TEXT, TEXT],
        Ending::Wrong(Some(7), RowFault::Count),
    ),
    // the first row that doesn't fit
    (
        &[SEVEN, ONE, ONE, ONE],
        &[NULL, TEXT, WIDE],
        Ending::Wrong(Some(7), RowFault::Kind { column: 3 }),
    ),
    (
        &[SEVEN],
        &[NULL, NULL, NULL, NULL],
        Ending::Wrong(Some(7), RowFault::Count),
    ),
    (
        &[NULL, NULL, NULL, NULL],
        &[SEVEN],
        Ending::Wrong(None, RowFault::Null { column: 0 }),
    ),
];

fn rows_come(alloc: Global, schema: &Schema, rows: &[Case]) -> Result<bool, NoMemory> {
    for (first, second, ending) in rows {
        if end_of(alloc, schema, first, second)? != *ending {
            return Ok(false);
        }
    }
    Ok(true)
}

fn merges_come(alloc: Global, schema: &Schema, rows: &[Case]) -> Result<bool, NoMemory> {
    for (first, second, ending) in rows {
        if merge_end(alloc, schema, first, second)? != *ending {
            return Ok(false);
        }
    }
    Ok(true)
}

#[test]
fn literal_rows_fit(rt: HostRuntime) -> Result<(), Fail> {
    let schema = schema(rt.alloc())?;
    let come = matches!(rows_come(rt.alloc(), &schema, &ROWS), Ok(true));
    drop(schema);
    assert!(rt; come);
    Ok(())
}

#[test]
fn rows_of_merges_fit(rt: HostRuntime) -> Result<(), Fail> {
    let schema = schema(rt.alloc())?;
    let come = matches!(merges_come(rt.alloc(), &schema, &ROWS), Ok(true));
    drop(schema);
    assert!(rt; come);
    Ok(())
}
