//! Tables that commits leave.

use log_actions::{Action, AddFile, RemoveFile, Txn, read_commit};
use log_state::State;
use row_base::{NoMemory, Text};
use std::alloc::Global;

const FIRST: &str = r#"{"commitInfo":{"timestamp":5}}
{"protocol":{"minReaderVersion":1,"minWriterVersion":2}}
{"metaData":{"id":"i","format":{"provider":"parquet"},"schemaString":"{}","partitionColumns":[]}}
{"txn":{"appId":"z","version":1}}
{"add":{"path":"b","partitionValues":{},"size":1,"modificationTime":1,"dataChange":true}}
"#;

/// Of two commitInfo lines the first counts.
const SECOND: &str = r#"{"commitInfo":{"timestamp":9}}
{"commitInfo":{"timestamp":20}}
{"txn":{"appId":"z","version":2}}
{"txn":{"appId":"a","version":7}}
{"remove":{"path":"b","dataChange":true}}
{"add":{"path":"a%20c","partitionValues":{},"size":2,"modificationTime":2,"dataChange":true}}
"#;

/// Its stamp is one more than the one before.
const THIRD: &str =
    r#"{"metaData":{"id":"j","format":{"provider":"parquet"},"schemaString":"{}","partitionColumns":[]}}
{"add":{"path":"b","partitionValues":{},"size":3,"modificationTime":3,"dataChange":true}}
{"remove":{"path":"a%20c","dataChange":true}}
"#;

/// What a table should have: the sizes of its files, the lengths of the paths of removed ones, and the versions of
/// applications, each in byte order of the texts that they stand under.
pub(crate) struct Wanted {
    pub version: u64,
    pub stamp: u64,
    pub id: &'static str,
    pub files: &'static [u64],
    pub tombstones: &'static [usize],
    pub txns: &'static [u64],
}

const AFTER_FIRST: Wanted = Wanted {
    version: 40,
    stamp: 77,
    id: "i",
    files: &[1],
    tombstones: &[],
    txns: &[1],
};

const AFTER_SECOND: Wanted = Wanted {
    version: 1,
    stamp: 9,
    id: "i",
    files: &[2],
    tombstones: &[1],
    txns: &[7, 2],
};

const AFTER_THIRD: Wanted = Wanted {
    version: 2,
    stamp: 10,
    id: "j",
    files: &[3],
    tombstones: &[5],
    txns: &[7, 2],
};

fn sizes(alloc: Global, files: &[&AddFile]) -> Vec<u64> {
    let mut sizes = Vec::new(alloc);
    for file in files {
        sizes.push(file.size).ok();
    }
    sizes
}

fn lengths(alloc: Global, files: &[&RemoveFile]) -> Vec<usize> {
    let mut lengths = Vec::new(alloc);
    for file in files {
        lengths.push(file.path.as_bytes().len()).ok();
    }
    lengths
}

fn versions(alloc: Global, txns: &[&Txn]) -> Vec<u64> {
    let mut versions = Vec::new(alloc);
    for txn in txns {
        versions.push(txn.version).ok();
    }
    versions
}

fn has_files(alloc: Global, state: &State, want: &[u64]) -> bool {
    match state.files() {
        Ok(files) => sizes(alloc, &files).as_slice() == want,
        Err(_) => false,
    }
}

fn has_tombstones(alloc: Global, state: &State, want: &[usize]) -> bool {
    match state.tombstones() {
        Ok(files) => lengths(alloc, &files).as_slice() == want,
        Err(_) => false,
    }
}

fn has_txns(alloc: Global, state: &State, want: &[u64]) -> bool {
    match state.txns() {
        Ok(txns) => versions(alloc, &txns).as_slice() == want,
        Err(_) => false,
    }
}

fn has_txn(alloc: Global, state: &State, app: &str, want: Option<u64>) -> bool {
    match Text::make(alloc, app) {
        Ok(app) => state.txn(&app) == want,
        Err(_) => false,
    }
}

fn has_id(state: &State, id: &str) -> bool {
    match state.meta() {
        Some(meta) => meta.id.as_bytes() == id.as_bytes(),
        None => false,
    }
}

fn has_stamp(state: &State, version: u64, stamp: u64) -> bool {
    state.version() == Some(version) && state.stamp() == Some(stamp)
}

fn has_lists(alloc: Global, state: &State, wanted: &Wanted) -> bool {
    has_files(alloc, state, wanted.files)
        && has_tombstones(alloc, state, wanted.tombstones)
        && has_txns(alloc, state, wanted.txns)
}

pub(crate) fn is_wanted(alloc: Global, state: &State, wanted: &Wanted) -> bool {
    has_stamp(state, wanted.version, wanted.stamp)
        && has_id(state, wanted.id)
        && has_lists(alloc, state, wanted)
}

/// Applies a commit's text. A text without a reading counts as want of memory.
fn apply(alloc: Global, state: &mut State, text: &str) -> Result<(), NoMemory> {
    let version = match state.version() {
        None => 0,
        Some(version) if version < 1000 => version + 1,
        Some(_) => return Err(NoMemory),
    };
    match read_commit(alloc, text.as_bytes()) {
        Ok(actions) => state.apply(version, actions),
        Err(_) => Err(NoMemory),
    }
}

/// The table after these commits. Where one of them can't be applied, it isn't the wanted one.
fn loaded(alloc: Global, texts: &[&str]) -> State {
    let mut state = State::new(alloc);
    for text in texts {
        apply(alloc, &mut state, text).ok();
    }
    state
}

fn is_copied(alloc: Global, state: &State, wanted: &Wanted) -> bool {
    match state.copy() {
        Ok(copy) => is_wanted(alloc, &copy, wanted),
        Err(_) => false,
    }
}

fn are_left(alloc: Global, texts: &[&str], wanted: &Wanted) -> bool {
    let state = loaded(alloc, texts);
    let is = is_copied(alloc, &state, wanted);
    drop(state);
    is
}

#[test]
fn commits_leave_a_table(rt: HostRuntime) {
    assert!(rt; are_left(rt.alloc(), &[FIRST, SECOND], &AFTER_SECOND));
    assert!(rt; are_left(rt.alloc(), &[FIRST, SECOND, THIRD], &AFTER_THIRD));
}

fn is_made(alloc: Global, actions: Vec<Action>, wanted: &Wanted) -> bool {
    match State::of_parts(alloc, 40, 77, actions) {
        Ok(state) => is_wanted(alloc, &state, wanted),
        Err(_) => false,
    }
}

fn parts_are(alloc: Global, text: &str, wanted: &Wanted) -> bool {
    match read_commit(alloc, text.as_bytes()) {
        Ok(actions) => is_made(alloc, actions, wanted),
        Err(_) => false,
    }
}

#[test]
fn parts_make_a_table(rt: HostRuntime) {
    assert!(rt; parts_are(rt.alloc(), FIRST, &AFTER_FIRST));
}

/// Whether the newest version of an application is this one after two commits.
fn finds(alloc: Global, app: &str, want: Option<u64>) -> bool {
    let state = loaded(alloc, &[FIRST, SECOND]);
    let is = has_txn(alloc, &state, app, want);
    drop(state);
    is
}

#[test]
fn applications_are_found(rt: HostRuntime) {
    assert!(rt; finds(rt.alloc(), "z", Some(2)));
    assert!(rt; finds(rt.alloc(), "y", None));
}
