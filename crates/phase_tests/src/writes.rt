//! New rows, written as files.
ghost use Rattle.std.specs.Prelude.{IfOk};
ghost use Rattle.write_files.specs.Phase.{IsReady};

use crate::stores::{ALL, Answers, TAG, Trouble, put, run, text_body};
use crate::tables::{
    Cell, Line, Shape, all_fit, all_have_texts, are_lines, falling, reads, reads_count, repeated,
    rows_of, schema_of,
};
use edge_api::{Call, CallKind, Called, JournalEntry, MemWorld, Name};
use log_actions::{AddFile, Entry};
use row_base::{Items, Kind, NoMemory, Row, Rows, Schema, Text};
use std::alloc::Global;
use std::collections::VecDeque;
use table_rules::data_file_name;
use write_files::limits::{MAX_NEW_FILE_ROWS, MAX_NEW_FILE_SIZE};
use write_files::{WriteFault, WriteOut, files_hold_the_rows, pieces_of};

pub const START: u64 = 1_700_000_000_000;

/// The number of the first part, and whether the rows are new to the table.
#[derive(Clone, Copy, Drop)]
pub struct Numbering {
    pub first: u32,
    pub change: bool,
}

pub const NEW: Numbering = Numbering {
    first: 0,
    change: true,
};

/// The phase that writes these rows. Where one of them can't be written, that counts as want of memory.
pub fn writing(
    alloc: Global,
    schema: &Schema,
    rows: Result<Vec<Row>, NoMemory>,
    from: Numbering,
) -> Result<WriteOut, NoMemory>
    ensures { IfOk result IsReady }
{
    let rows = rows?;
    if all_fit(schema, &rows) && all_have_texts(&rows) {
        let rows = Rows::from_rows(alloc, rows)?;
        WriteOut::new(alloc, schema, rows, TAG, START, from.first, from.change)
    } else {
        Err(NoMemory)
    }
}

/// A partition column and the text of its value, which is empty for null.
type Value = (&'static str, &'static str);

/// A file: the number of its part, the rows that are read in it, and the values of its add.
struct Wanted {
    part: u32,
    lines: &'static [Line],
    values: &'static [Value],
}

fn is_name(alloc: Global, name: &Name, part: u32) -> bool {
    match data_file_name(alloc, TAG, START, part) {
        Ok(wanted) => wanted.as_bytes() == name.as_bytes(),
        Err(_) => false,
    }
}

fn is_put(alloc: Global, schema: &Schema, entry: &JournalEntry, wanted: &Wanted) -> bool {
    match &entry.call {
        Call::PutNew(name, body) => {
            is_name(alloc, name, wanted.part) && reads(alloc, schema, body.as_bytes(), wanted.lines)
        }
        _ => false,
    }
}

/// Whether exactly these files were put, in this order.
fn are_put(alloc: Global, schema: &Schema, journal: &[JournalEntry], files: &[Wanted]) -> bool {
    for (i, wanted) in files.iter().enumerate() {
        match journal.get(i) {
            Some(entry) if is_put(alloc, schema, entry, wanted) => {}
            _ => return false,
        }
    }
    journal.len() == files.len()
}

fn is_text(text: &Option<Text>, want: &str) -> bool {
    match text {
        Some(text) => text.as_bytes() == want.as_bytes(),
        None => false,
    }
}

fn is_value(entry: &Entry<Option<Text>>, value: Value) -> bool {
    let (name, text) = value;
    entry.name.as_bytes() == name.as_bytes() && is_text(&entry.value, text)
}

fn are_values(entries: &[Entry<Option<Text>>], values: &[Value]) -> bool {
    for (i, value) in values.iter().enumerate() {
        match entries.get(i) {
            Some(entry) if is_value(entry, *value) => {}
            _ => return false,
        }
    }
    entries.len() == values.len()
}

/// Whether the object of this name has so many bytes.
fn has_size(world: &MemWorld, name: &Name, size: u64) -> bool {
    match world.object(name) {
        Some(body) => body.as_bytes().len() as u64 == size,
        None => false,
    }
}

fn names(alloc: Global, world: &MemWorld, add: &AddFile, part: u32) -> bool {
    match data_file_name(alloc, TAG, START, part) {
        Ok(name) => {
            add.path.as_bytes() == name.as_bytes()
                && add.name.as_bytes() == name.as_bytes()
                && has_size(world, &name, add.size)
        }
        Err(_) => false,
    }
}

fn is_added(alloc: Global, world: &MemWorld, add: &AddFile, wanted: &Wanted, change: bool) -> bool {
    names(alloc, world, add, wanted.part)
        && are_values(add.partition_values.as_slice(), wanted.values)
        && add.modification_time == START
        && add.data_change == change
        && add.stats.is_none()
        && add.tags.is_none()
}

fn are_added(
    alloc: Global,
    world: &MemWorld,
    adds: &[AddFile],
    files: &[Wanted],
    change: bool,
) -> bool {
    for (i, wanted) in files.iter().enumerate() {
        match adds.get(i) {
            Some(add) if is_added(alloc, world, add, wanted, change) => {}
            _ => return false,
        }
    }
    adds.len() == files.len()
}

/// Whether the adds of these files are handed back.
fn hands_back(
    alloc: Global,
    world: &MemWorld,
    ended: Result<Items<AddFile>, WriteFault>,
    files: &[Wanted],
    change: bool,
) -> bool {
    match ended {
        Ok(adds) => are_added(alloc, world, adds.as_slice(), files, change),
        Err(_) => false,
    }
}

/// Rows of a table of this shape, and the files that they make.
struct Case {
    shape: Shape,
    lines: &'static [Line],
    from: Numbering,
    files: &'static [Wanted],
}

/// Whether a phase puts these files, and hands back their adds.
fn makes(alloc: Global, schema: &Schema, write: Result<WriteOut, NoMemory>, case: &Case) -> bool
    requires { IfOk write IsReady }
{
    let mut world = MemWorld::new(alloc, 7);
    match write {
        Ok(write) => {
            let ended = run(write, &mut world, ALL);
            hands_back(alloc, &world, ended, case.files, case.from.change)
                && are_put(alloc, schema, world.journal(), case.files)
        }
        Err(_) => false,
    }
}

fn is_made(alloc: Global, case: &Case) -> bool {
    match schema_of(alloc, case.shape) {
        Ok(schema) => {
            let write = writing(alloc, &schema, rows_of(alloc, case.lines), case.from);
            makes(alloc, &schema, write, case)
        }
        Err(_) => false,
    }
}

fn all_are_made(alloc: Global, cases: &[Case]) -> bool {
    for case in cases {
        if !is_made(alloc, case) {
            return false;
        }
    }
    true
}

/// `p string, v long`, partitioned by `p`.
const BY_P: Shape = Shape {
    columns: &[("p", Kind::String, true), ("v", Kind::Long, true)],
    partition: &[0],
};

/// `p string, q date, v long`, partitioned by `q` and `p`.
const BY_Q_AND_P: Shape = Shape {
    columns: &[
        ("p", Kind::String, true),
        ("q", Kind::Date, true),
        ("v", Kind::Long, true),
    ],
    partition: &[1, 0],
};

const CASES: &[Case] = &[
    Case {
        shape: BY_P,
        lines: &[
            &[Cell::Text("y"), Cell::Long(2)],
            &[Cell::Text("x"), Cell::Long(1)],
        ],
        from: NEW,
        files: &[
            Wanted {
                part: 0,
                lines: &[&[Cell::Null, Cell::Long(1)]],
                values: &[("p", "x")],
            },
            Wanted {
                part: 1,
                lines: &[&[Cell::Null, Cell::Long(2)]],
                values: &[("p", "y")],
            },
        ],
    },
    // rows of a group in order, and groups in order, null first
    Case {
        shape: BY_P,
        lines: &[
            &[Cell::Text("b"), Cell::Long(3)],
            &[Cell::Null, Cell::Long(2)],
            &[Cell::Text("a"), Cell::Long(9)],
            &[Cell::Text("a"), Cell::Null],
            &[Cell::Null, Cell::Long(-1)],
            &[Cell::Text("a"), Cell::Long(9)],
        ],
        from: Numbering {
            first: 7,
            change: false,
        },
        files: &[
            Wanted {
                part: 7,
                lines: &[&[Cell::Null, Cell::Long(-1)], &[Cell::Null, Cell::Long(2)]],
                values: &[("p", "")],
            },
            Wanted {
                part: 8,
                lines: &[
                    &[Cell::Null, Cell::Null],
                    &[Cell::Null, Cell::Long(9)],
                    &[Cell::Null, Cell::Long(9)],
                ],
                values: &[("p", "a")],
            },
            Wanted {
                part: 9,
                lines: &[&[Cell::Null, Cell::Long(3)]],
                values: &[("p", "b")],
            },
        ],
    },
    // the first partition column comes first, and values stand in byte order of the names
    Case {
        shape: BY_Q_AND_P,
        lines: &[
            &[Cell::Text("a"), Cell::Date(1), Cell::Long(1)],
            &[Cell::Text("b"), Cell::Date(0), Cell::Long(2)],
        ],
        from: NEW,
        files: &[
            Wanted {
                part: 0,
                lines: &[&[Cell::Null, Cell::Null, Cell::Long(2)]],
                values: &[("p", "b"), ("q", "1970-01-01")],
            },
            Wanted {
                part: 1,
                lines: &[&[Cell::Null, Cell::Null, Cell::Long(1)]],
                values: &[("p", "a"), ("q", "1970-01-02")],
            },
        ],
    },
    Case {
        shape: BY_P,
        lines: &[],
        from: NEW,
        files: &[],
    },
];

#[test]
fn rows_are_written(rt: HostRuntime) {
    files_hold_the_rows();
    assert!(rt; all_are_made(rt.alloc(), CASES));
}

fn is_first_name(alloc: Global, want: &str) -> bool {
    match Name::make(alloc, want) {
        Ok(name) => is_name(alloc, &name, 0),
        Err(_) => false,
    }
}

#[test]
fn names_are_those_of_the_statement(rt: HostRuntime) {
    assert!(rt;
        is_first_name(
            rt.alloc(),
            "part-00000-018bcfe5-6800-8000-8000-000100000001-c000.parquet"
        )
    );
}

fn has_count(alloc: Global, schema: &Schema, entry: &JournalEntry, count: usize) -> bool {
    match &entry.call {
        Call::PutNew(_, body) => reads_count(alloc, schema, body.as_bytes(), count),
        _ => false,
    }
}

/// Whether the files that were put have so many rows.
fn have_counts(alloc: Global, schema: &Schema, journal: &[JournalEntry], counts: &[usize]) -> bool {
    for (i, count) in counts.iter().enumerate() {
        match journal.get(i) {
            Some(entry) if has_count(alloc, schema, entry, *count) => {}
            _ => return false,
        }
    }
    journal.len() == counts.len()
}

/// Whether a phase puts files of so many rows.
fn puts_counts(
    alloc: Global,
    schema: &Schema,
    write: Result<WriteOut, NoMemory>,
    counts: &[usize],
) -> bool
    requires { IfOk write IsReady }
{
    let mut world = MemWorld::new(alloc, 7);
    match write {
        Ok(write) => {
            let ended = run(write, &mut world, ALL);
            ended.is_ok() && have_counts(alloc, schema, world.journal(), counts)
        }
        Err(_) => false,
    }
}

/// Whether rows make files of so many rows.
fn are_cut(
    alloc: Global,
    shape: Shape,
    rows: Result<Vec<Row>, NoMemory>,
    counts: &[usize],
) -> bool {
    match schema_of(alloc, shape) {
        Ok(schema) => {
            let write = writing(alloc, &schema, rows, NEW);
            puts_counts(alloc, &schema, write, counts)
        }
        Err(_) => false,
    }
}

/// `v long`.
const LONGS: Shape = Shape {
    columns: &[("v", Kind::Long, true)],
    partition: &[],
};

/// `v string`.
const TEXTS: Shape = Shape {
    columns: &[("v", Kind::String, true)],
    partition: &[],
};

/// A text of the greatest length, whose row has 65,540 bytes by plain size.
const GREATEST: Line = &[Cell::Letters(65_535)];

#[test]
fn files_are_cut_by_rows(rt: HostRuntime) {
    let alloc = rt.alloc();
    assert!(rt; MAX_NEW_FILE_ROWS == 65_536);
    assert!(rt; are_cut(alloc, LONGS, falling(alloc, 65_537), &[65_536, 1]));
}

#[test]
fn files_are_cut_by_size(rt: HostRuntime) {
    let alloc = rt.alloc();
    assert!(rt; MAX_NEW_FILE_SIZE == 33_554_432);
    assert!(rt; are_cut(alloc, TEXTS, repeated(alloc, GREATEST, 512), &[511, 1]));
}

/// Whether the rows of each new file are these.
fn are_pieces(alloc: Global, pieces: Result<VecDeque<Rows>, NoMemory>, files: &[&[Line]]) -> bool {
    match pieces {
        Ok(pieces) => have_lines(alloc, pieces, files),
        Err(_) => false,
    }
}

fn have_lines(alloc: Global, mut pieces: VecDeque<Rows>, files: &[&[Line]]) -> bool {
    for lines in files {
        match pieces.pop_front() {
            Some(rows) if are_lines(alloc, &rows, lines) => {}
            _ => return false,
        }
    }
    pieces.is_empty()
}

fn pieces(alloc: Global, lines: &[Line]) -> Result<VecDeque<Rows>, NoMemory> {
    let schema = schema_of(alloc, BY_P)?;
    let rows = rows_of(alloc, lines)?;
    pieces_of(alloc, &schema, Rows::from_rows(alloc, rows)?)
}

const LINES: &[Line] = &[
    &[Cell::Text("y"), Cell::Long(2)],
    &[Cell::Text("x"), Cell::Long(1)],
    &[Cell::Text("y"), Cell::Long(1)],
];

const PIECES: &[&[Line]] = &[
    &[&[Cell::Text("x"), Cell::Long(1)]],
    &[
        &[Cell::Text("y"), Cell::Long(1)],
        &[Cell::Text("y"), Cell::Long(2)],
    ],
];

#[test]
fn rows_are_put_into_pieces(rt: HostRuntime) {
    let alloc = rt.alloc();
    assert!(rt; are_pieces(alloc, pieces(alloc, LINES), PIECES));
}

/// How a phase ended: with so many adds, or by the part that a fault names.
#[derive(Clone, Copy, Drop, PartialEq, Eq)]
enum Outcome {
    Written(usize),
    Taken(u32),
    Fault(u32),
    NoMemory,
}

/// The part that a name tells, of the first three.
fn part_of(alloc: Global, name: &Name) -> u32 {
    for part in 0..3 {
        if is_name(alloc, name, part) {
            return part;
        }
    }
    u32::MAX
}

fn part_called(alloc: Global, call: &Called) -> u32 {
    if call.kind == CallKind::PutNew {
        part_of(alloc, &call.name)
    } else {
        u32::MAX
    }
}

fn outcome_of(alloc: Global, ended: &Result<Items<AddFile>, WriteFault>) -> Outcome {
    match ended {
        Ok(adds) => Outcome::Written(adds.as_slice().len()),
        Err(WriteFault::NameTaken { name }) => Outcome::Taken(part_of(alloc, name)),
        Err(WriteFault::Fault { call }) => Outcome::Fault(part_called(alloc, call)),
        Err(WriteFault::NoMemory) => Outcome::NoMemory,
    }
}

/// How a phase ends over this store.
fn ends(
    alloc: Global,
    write: Result<WriteOut, NoMemory>,
    world: &mut MemWorld,
    answers: Answers,
) -> Outcome
    requires { IfOk write IsReady }
{
    match write {
        Ok(write) => {
            let ended = run(write, world, answers);
            let outcome = outcome_of(alloc, &ended);
            drop(ended);
            outcome
        }
        Err(_) => Outcome::NoMemory,
    }
}

/// A store with an object of the name of this part, whose put is in its journal.
fn taken(alloc: Global, part: u32) -> MemWorld {
    let mut world = MemWorld::new(alloc, 7);
    let name = data_file_name(alloc, TAG, START, part);
    put(&mut world, name, text_body(alloc, "x")).ok();
    world
}

/// How the writing of two files ends over a store that has an object of the name of this part, and how many entries
/// are in its journal then.
fn ends_of_two(alloc: Global, part: u32, answers: Answers) -> (Outcome, usize) {
    let mut world = taken(alloc, part);
    match schema_of(alloc, BY_P) {
        Ok(schema) => {
            let write = writing(alloc, &schema, rows_of(alloc, LINES), NEW);
            let outcome = ends(alloc, write, &mut world, answers);
            (outcome, world.journal().len())
        }
        Err(_) => (Outcome::NoMemory, 0),
    }
}

fn after(count: u32, then: Trouble) -> Answers {
    Answers { count, then }
}

#[test]
fn a_name_is_taken(rt: HostRuntime) {
    let alloc = rt.alloc();
    assert!(rt; ends_of_two(alloc, 0, ALL) == (Outcome::Taken(0), 2));
    assert!(rt; ends_of_two(alloc, 1, ALL) == (Outcome::Taken(1), 3));
    assert!(rt; ends_of_two(alloc, 2, ALL) == (Outcome::Written(2), 3));
}

#[test]
fn a_put_has_a_fault(rt: HostRuntime) {
    let alloc = rt.alloc();
    assert!(rt; ends_of_two(alloc, 2, after(0, Trouble::Fault)) == (Outcome::Fault(0), 1));
    assert!(rt; ends_of_two(alloc, 2, after(1, Trouble::Fault)) == (Outcome::Fault(1), 2));
    assert!(rt; ends_of_two(alloc, 2, after(1, Trouble::NoMemory)) == (Outcome::NoMemory, 2));
}
