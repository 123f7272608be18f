//! Scans of a table's live files.
ghost use Rattle.std.specs.Prelude.{IfOk};
ghost use Rattle.scan.specs.Machine.{IsReady};

use crate::stores::{ALL, Answers, Trouble, put, run, text_body};
use crate::tables::{Cell, Line, Shape, all_fit, are_lines, rows_of, schema_of};
use edge_api::{Body, CallKind, Called, MemWorld, Name};
use log_actions::{Action, read_commit};
use log_state::State;
use parquet_plain::write_file;
use predicates::{Op, Operand, Pred};
use row_base::limits::MAX_FILE_ROWS;
use row_base::{Datum, Kind, NoMemory, Row, Rows, ScannedFile, Schema, Text};
use scan::{Scan, ScanBad, ScanFault, Scanned};
use std::alloc::Global;

/// What is scanned for.
#[derive(Clone, Copy, Drop)]
pub enum Asked {
    Always,
    /// `v = 5`.
    Five,
}

/// `v = 5`.
fn five(alloc: Global) -> Result<Pred<Text>, NoMemory> {
    let column = Text::make(alloc, "v")?;
    Ok(Pred::Compare {
        op: Op::Eq,
        column,
        right: Operand::Literal(Datum::Long(5)),
    })
}

fn pred_of(alloc: Global, asked: Asked) -> Result<Pred<Text>, NoMemory> {
    match asked {
        Asked::Always => Ok(Pred::Always),
        Asked::Five => five(alloc),
    }
}

/// The scan of a table. Whatever can't be made counts as want of memory.
pub fn scanning(
    alloc: Global,
    schema: &Schema,
    state: Result<State, NoMemory>,
    asked: Asked,
) -> Result<Scan, ScanFault>
    ensures { IfOk result IsReady }
{
    let state = state?;
    let named = pred_of(alloc, asked)?;
    let bound = named.bind(alloc, schema);
    drop(named);
    match bound {
        Ok(pred) => Scan::new(alloc, &state, schema, &pred),
        Err(_) => Err(ScanFault::NoMemory),
    }
}

/// The table after one commit.
pub fn state_of(alloc: Global, actions: Vec<Action>) -> Result<State, NoMemory> {
    let mut state = State::new(alloc);
    state.apply(0, actions)?;
    Ok(state)
}

/// The table after a commit of this text. A text without a reading counts as want of memory.
fn state_after(alloc: Global, text: &str) -> Result<State, NoMemory> {
    match read_commit(alloc, text.as_bytes()) {
        Ok(actions) => state_of(alloc, actions),
        Err(_) => Err(NoMemory),
    }
}

/// The bytes of an object: the file of these rows for a table of this shape, or a text.
#[derive(Clone, Copy, Drop)]
enum Bytes {
    File(Shape, &'static [Line]),
    Text(&'static str),
}

struct Object {
    name: &'static str,
    bytes: Bytes,
}

/// The file of these rows, or nothing where one doesn't fit.
fn written(alloc: Global, schema: &Schema, rows: Vec<Row>) -> Result<Vec<u8>, NoMemory> {
    if rows.len() <= MAX_FILE_ROWS && all_fit(schema, &rows) {
        write_file(alloc, schema, &Rows::from_rows(alloc, rows)?)
    } else {
        Ok(Vec::new(alloc))
    }
}

fn file_body(alloc: Global, shape: Shape, lines: &[Line]) -> Result<Body, NoMemory> {
    let schema = schema_of(alloc, shape)?;
    let rows = rows_of(alloc, lines)?;
    let bytes = written(alloc, &schema, rows)?;
    Body::make(alloc, bytes)
}

fn body_of(alloc: Global, bytes: Bytes) -> Result<Body, NoMemory> {
    match bytes {
        Bytes::File(shape, lines) => file_body(alloc, shape, lines),
        Bytes::Text(text) => text_body(alloc, text),
    }
}

/// A store with these objects, whose puts are in its journal.
fn filled(alloc: Global, objects: &[Object]) -> MemWorld {
    let mut world = MemWorld::new(alloc, 7);
    for object in objects {
        let name = Name::make(alloc, object.name);
        put(&mut world, name, body_of(alloc, object.bytes)).ok();
    }
    world
}

/// A file that is got: its path, and its rows.
struct Got {
    path: &'static str,
    lines: &'static [Line],
}

fn is_got(alloc: Global, file: &ScannedFile, got: &Got) -> bool {
    file.path.as_bytes() == got.path.as_bytes() && are_lines(alloc, &file.rows, got.lines)
}

fn are_got(alloc: Global, files: &[ScannedFile], wanted: &[Got]) -> bool {
    for (i, got) in wanted.iter().enumerate() {
        match files.get(i) {
            Some(file) if is_got(alloc, file, got) => {}
            _ => return false,
        }
    }
    files.len() == wanted.len()
}

/// Whether these files are got, of so many live ones.
fn gives(alloc: Global, ended: Result<Scanned, ScanFault>, wanted: &[Got], live: u64) -> bool {
    match ended {
        Ok(scanned) => {
            let is = are_got(alloc, scanned.files.as_slice(), wanted) && scanned.live == live;
            drop(scanned);
            is
        }
        Err(_) => false,
    }
}

/// How a scan over this store ends.
pub fn ending(
    scan: Result<Scan, ScanFault>,
    world: &mut MemWorld,
    answers: Answers,
) -> Result<Scanned, ScanFault>
    requires { IfOk scan IsReady }
{
    match scan {
        Ok(scan) => run(scan, world, answers),
        Err(fault) => Err(fault),
    }
}

/// A table by its shape, its objects and its commit, and what it is scanned for.
#[derive(Clone, Copy, Drop)]
struct Table {
    shape: Shape,
    objects: &'static [Object],
    log: &'static str,
    asked: Asked,
}

fn scan_of(alloc: Global, table: &Table) -> Result<Scan, ScanFault>
    ensures { IfOk result IsReady }
{
    let schema = schema_of(alloc, table.shape)?;
    scanning(alloc, &schema, state_after(alloc, table.log), table.asked)
}

/// A scan, the files that it gets, and how many are live.
struct Case {
    table: Table,
    got: &'static [Got],
    live: u64,
}

/// Whether a scan gets exactly these files.
fn is_scanned(alloc: Global, case: &Case) -> bool {
    let mut world = filled(alloc, case.table.objects);
    let ended = ending(scan_of(alloc, &case.table), &mut world, ALL);
    let is = gives(alloc, ended, case.got, case.live);
    is && world.journal().len() == case.table.objects.len() + case.got.len()
}

fn all_are_scanned(alloc: Global, cases: &[Case]) -> bool {
    for case in cases {
        if !is_scanned(alloc, case) {
            return false;
        }
    }
    true
}

/// `v long, p string`, partitioned by `p`.
const BY_P: Shape = Shape {
    columns: &[("v", Kind::Long, true), ("p", Kind::String, true)],
    partition: &[1],
};

/// `v long`.
const ALONE: Shape = Shape {
    columns: &[("v", Kind::Long, true)],
    partition: &[],
};

/// `w string, v long`.
const WIDER: Shape = Shape {
    columns: &[("w", Kind::String, true), ("v", Kind::Long, true)],
    partition: &[],
};

const TWO: &[Object] = &[
    Object {
        name: "b",
        bytes: Bytes::File(
            BY_P,
            &[
                &[Cell::Long(2), Cell::Null],
                &[Cell::Null, Cell::Null],
                &[Cell::Long(1), Cell::Null],
            ],
        ),
    },
    Object {
        name: "a c",
        bytes: Bytes::File(BY_P, &[&[Cell::Long(5), Cell::Null]]),
    },
    Object {
        name: "removed",
        bytes: Bytes::File(BY_P, &[]),
    },
];

const TWO_LIVE: &str =
    r#"{"add":{"path":"b","partitionValues":{"p":"x"},"size":1,"modificationTime":1,"dataChange":true,"stats":"{\"maxValues\":{\"v\":2},\"minValues\":{\"v\":1},\"nullCount\":{\"v\":1},\"numRecords\":3}"}}
{"remove":{"path":"removed","dataChange":true}}
{"add":{"path":"a%20c","partitionValues":{"p":""},"size":1,"modificationTime":1,"dataChange":true}}
"#;

const NONE_LIVE: &str = r#"{"remove":{"path":"b","dataChange":true}}
"#;

const CASES: &[Case] = &[
    Case {
        table: Table {
            shape: BY_P,
            objects: TWO,
            log: TWO_LIVE,
            asked: Asked::Always,
        },
        got: &[
            Got {
                path: "a%20c",
                lines: &[&[Cell::Long(5), Cell::Null]],
            },
            Got {
                path: "b",
                lines: &[
                    &[Cell::Long(2), Cell::Text("x")],
                    &[Cell::Null, Cell::Text("x")],
                    &[Cell::Long(1), Cell::Text("x")],
                ],
            },
        ],
        live: 2,
    },
    // the statistics of one say that no row matches
    Case {
        table: Table {
            shape: BY_P,
            objects: TWO,
            log: TWO_LIVE,
            asked: Asked::Five,
        },
        got: &[Got {
            path: "a%20c",
            lines: &[&[Cell::Long(5), Cell::Null]],
        }],
        live: 2,
    },
    Case {
        table: Table {
            shape: BY_P,
            objects: TWO,
            log: NONE_LIVE,
            asked: Asked::Always,
        },
        got: &[],
        live: 0,
    },
    // a column that the file lacks
    Case {
        table: Table {
            shape: WIDER,
            objects: &[Object {
                name: "f",
                bytes: Bytes::File(ALONE, &[&[Cell::Long(3)]]),
            }],
            log: ONE_LIVE,
            asked: Asked::Five,
        },
        got: &[Got {
            path: "f",
            lines: &[&[Cell::Null, Cell::Long(3)]],
        }],
        live: 1,
    },
];

const ONE_LIVE: &str =
    r#"{"add":{"path":"f","partitionValues":{},"size":1,"modificationTime":1,"dataChange":true}}
"#;

#[test]
fn live_files_are_scanned(rt: HostRuntime) {
    assert!(rt; all_are_scanned(rt.alloc(), CASES));
}

/// Why a scan has no result.
#[derive(Clone, Copy, Drop, PartialEq, Eq)]
enum Why {
    Scanned,
    Gone,
    /// The bytes of a file.
    File,
    /// The value of the column `p`.
    Value,
    Unsupported,
    /// A get.
    Fault,
    NoMemory,
    /// The same of another file or another column.
    Elsewhere,
}

/// The reason, if it names what it should.
fn if_named(why: Why, is_named: bool) -> Why {
    if is_named { why } else { Why::Elsewhere }
}

fn why_bad(fault: &ScanBad) -> Why {
    match fault {
        ScanBad::File(_) => Why::File,
        ScanBad::Value { name } => if_named(Why::Value, name.as_str() == "p"),
    }
}

fn is_get(call: &Called, name: &str) -> bool {
    call.kind == CallKind::Get && call.name.as_str() == name
}

/// Why a scan fails, by the file of this name.
fn why_failed(fault: &ScanFault, name: &str) -> Why {
    match fault {
        ScanFault::FileGone { name: gone } => if_named(Why::Gone, gone.as_str() == name),
        ScanFault::BadObject { name: bad, fault } => {
            if_named(why_bad(fault), bad.as_str() == name)
        }
        ScanFault::Unsupported { .. } => Why::Unsupported,
        ScanFault::Fault { call } => if_named(Why::Fault, is_get(call, name)),
        ScanFault::NoMemory => Why::NoMemory,
    }
}

fn told(ended: Result<Scanned, ScanFault>, name: &str) -> Why {
    match ended {
        Ok(scanned) => {
            drop(scanned);
            Why::Scanned
        }
        Err(fault) => {
            let why = why_failed(&fault, name);
            drop(fault);
            why
        }
    }
}

/// Objects of the table `TWO_LIVE`, a scan of which fails: after how many gets, and why, by the file of this name.
struct Failing {
    objects: &'static [Object],
    answers: Answers,
    name: &'static str,
    gets: usize,
    why: Why,
}

/// Why the scan of a table fails, by the file of this name, and how many gets it makes.
fn told_of(alloc: Global, table: &Table, answers: Answers, name: &str) -> (Why, usize) {
    let mut world = filled(alloc, table.objects);
    let ended = ending(scan_of(alloc, table), &mut world, answers);
    let why = told(ended, name);
    (
        why,
        world.journal().len().saturating_sub(table.objects.len()),
    )
}

fn fails(alloc: Global, case: &Failing) -> bool {
    let table = Table {
        shape: BY_P,
        objects: case.objects,
        log: TWO_LIVE,
        asked: Asked::Always,
    };
    told_of(alloc, &table, case.answers, case.name) == (case.why, case.gets)
}

fn all_fail(alloc: Global, cases: &[Failing]) -> bool {
    for case in cases {
        if !fails(alloc, case) {
            return false;
        }
    }
    true
}

/// `v long, p long`, partitioned by `p`.
const BY_NUMBER: Shape = Shape {
    columns: &[("v", Kind::Long, true), ("p", Kind::Long, true)],
    partition: &[1],
};

/// Two values without a reading, of which the second is that of the first file, and a file that no row matches.
const BAD_VALUES: &str =
    r#"{"add":{"path":"c","partitionValues":{"p":"four"},"size":1,"modificationTime":1,"dataChange":true}}
{"add":{"path":"b","partitionValues":{"p":"1.5"},"size":1,"modificationTime":1,"dataChange":true,"stats":"{\"numRecords\":0}"}}
{"add":{"path":"a","partitionValues":{"p":"4"},"size":1,"modificationTime":1,"dataChange":true}}
"#;

const WITHOUT_READING: Table = Table {
    shape: BY_NUMBER,
    objects: &[],
    log: BAD_VALUES,
    asked: Asked::Five,
};

#[test]
fn a_value_without_a_reading_is_told(rt: HostRuntime) {
    assert!(rt; told_of(rt.alloc(), &WITHOUT_READING, ALL, "b") == (Why::Value, 0));
}

const FIRST_ONLY: &[Object] = &[Object {
    name: "a c",
    bytes: Bytes::File(BY_P, &[&[Cell::Long(5), Cell::Null]]),
}];

const DAMAGED: &[Object] = &[Object {
    name: "a c",
    bytes: Bytes::Text("no Parquet file"),
}];

const FAILING: &[Failing] = &[
    Failing {
        objects: &[],
        answers: ALL,
        name: "a c",
        gets: 1,
        why: Why::Gone,
    },
    Failing {
        objects: FIRST_ONLY,
        answers: ALL,
        name: "b",
        gets: 2,
        why: Why::Gone,
    },
    Failing {
        objects: DAMAGED,
        answers: ALL,
        name: "a c",
        gets: 1,
        why: Why::File,
    },
    Failing {
        objects: TWO,
        answers: Answers {
            count: 1,
            then: Trouble::Fault,
        },
        name: "b",
        gets: 1,
        why: Why::Fault,
    },
    Failing {
        objects: TWO,
        answers: Answers {
            count: 0,
            then: Trouble::NoMemory,
        },
        name: "a c",
        gets: 0,
        why: Why::NoMemory,
    },
];

#[test]
fn faults_are_told(rt: HostRuntime) {
    assert!(rt; all_fail(rt.alloc(), FAILING));
}
