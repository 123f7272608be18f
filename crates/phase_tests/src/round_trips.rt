//! Rows that are written, and scanned again.
ghost use Rattle.std.specs.Prelude.{IfOk};
ghost use Rattle.write_files.specs.Phase.{IsReady};

use crate::scans::{Asked, ending, scanning, state_of};
use crate::stores::{ALL, run};
use crate::tables::{Cell, Line, Shape, Told, are_lines, rows_of, schema_of};
use crate::writes::{NEW, writing};
use edge_api::MemWorld;
use log_actions::{Action, AddFile};
use log_state::State;
use row_base::{Items, Kind, NoMemory, Rows, ScannedFile, Schema};
use scan::{ScanFault, Scanned};
use std::alloc::Global;
use write_files::WriteOut;

/// The adds of the files that a phase puts. A fault counts as want of memory.
fn added(
    write: Result<WriteOut, NoMemory>,
    world: &mut MemWorld,
) -> Result<Items<AddFile>, NoMemory>
    requires { IfOk write IsReady }
{
    match write {
        Ok(write) => match run(write, world, ALL) {
            Ok(adds) => Ok(adds),
            Err(_) => Err(NoMemory),
        },
        Err(_) => Err(NoMemory),
    }
}

fn actions_of(alloc: Global, adds: Items<AddFile>) -> Result<Vec<Action>, NoMemory> {
    let mut actions = Vec::new(alloc);
    for add in adds.into_vec() {
        actions.push(Action::Add(add))?;
    }
    Ok(actions)
}

/// The table of these files.
fn table_of(alloc: Global, adds: Result<Items<AddFile>, NoMemory>) -> Result<State, NoMemory> {
    let adds = adds?;
    let actions = actions_of(alloc, adds)?;
    state_of(alloc, actions)
}

/// The rows of all files, one file after another.
fn joined(alloc: Global, files: &[ScannedFile]) -> Result<Rows, NoMemory> {
    let mut all = Rows::new(alloc);
    for file in files {
        all.append(file.rows.copy(alloc)?)?;
    }
    Ok(all)
}

fn are_joined(alloc: Global, files: &[ScannedFile], lines: &[Line]) -> bool {
    match joined(alloc, files) {
        Ok(rows) => are_lines(alloc, &rows, lines),
        Err(_) => false,
    }
}

/// Whether so many files were got, whose rows are these.
fn gives(alloc: Global, ended: Result<Scanned, ScanFault>, lines: &[Line], files: usize) -> bool {
    match ended {
        Ok(scanned) => {
            let count = scanned.files.as_slice().len();
            let is = are_joined(alloc, scanned.files.as_slice(), lines);
            drop(scanned);
            is && count == files
        }
        Err(_) => false,
    }
}

fn come_back_by(alloc: Global, schema: &Schema, lines: &[Line], files: usize) -> bool {
    let mut world = MemWorld::new(alloc, 7);
    let write = writing(alloc, schema, rows_of(alloc, lines), NEW);
    let adds = added(write, &mut world);
    let scan = scanning(alloc, schema, table_of(alloc, adds), Asked::Always);
    let ended = ending(scan, &mut world, ALL);
    gives(alloc, ended, lines, files)
}

/// Whether rows in order, which are written as so many files, come back by a scan.
fn come_back(alloc: Global, shape: Shape, lines: &[Line], files: usize) -> bool {
    match schema_of(alloc, shape) {
        Ok(schema) => come_back_by(alloc, &schema, lines, files),
        Err(_) => false,
    }
}

/// `p string, d date, n long, i integer, b boolean, t string`.
const COLUMNS: &[Told] = &[
    ("p", Kind::String, true),
    ("d", Kind::Date, true),
    ("n", Kind::Long, true),
    ("i", Kind::Integer, true),
    ("b", Kind::Boolean, true),
    ("t", Kind::String, true),
];

/// A table of these columns, partitioned by some.
fn parted(partition: &'static [u32]) -> Shape {
    Shape {
        columns: COLUMNS,
        partition,
    }
}

/// Rows in order: 0001-01-01 and 9999-12-31, the extreme numbers, quotes, control characters and the longest text.
const LINES: &[Line] = &[
    &[
        Cell::Null,
        Cell::Null,
        Cell::Null,
        Cell::Null,
        Cell::Null,
        Cell::Null,
    ],
    &[
        Cell::Text("\u{0}\u{1}\t\r\n\u{1f}\u{7f}"),
        Cell::Date(-719_162),
        Cell::Long(i64::MIN),
        Cell::Integer(i32::MIN),
        Cell::Boolean(false),
        Cell::Text(""),
    ],
    &[
        Cell::Text("\"'\\/%20 =&"),
        Cell::Date(2_932_896),
        Cell::Long(i64::MAX),
        Cell::Integer(i32::MAX),
        Cell::Boolean(true),
        Cell::Text("\"\\\u{0}\u{1f}\r\n\u{7f}\u{e9}\u{1f600}"),
    ],
    &[
        Cell::Letters(65_535),
        Cell::Date(0),
        Cell::Long(0),
        Cell::Integer(-1),
        Cell::Boolean(true),
        Cell::Letters(65_535),
    ],
];

#[test]
fn rows_come_back(rt: HostRuntime) {
    let alloc = rt.alloc();
    assert!(rt; come_back(alloc, parted(&[]), LINES, 1));
    assert!(rt; come_back(alloc, parted(&[0]), LINES, 4));
    assert!(rt; come_back(alloc, parted(&[0, 1, 2, 3, 4]), LINES, 4));
}
