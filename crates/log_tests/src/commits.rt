//! Texts from outside: commits written by hand, foreign and damaged lines.

use log_actions::{Action, LogFaultKind, TryCopy, is_absolute, read_commit, write_commit};
use row_base::NoMemory;
use std::alloc::Global;

/// How a reading ended: the number of actions, or the first wrong line and its kind.
#[derive(Clone, Copy, Debug, Drop, PartialEq, Eq)]
enum Outcome {
    Actions(usize),
    Json(u32),
    Shape(u32),
    Twice(u32),
    Unsupported(u32),
    NoMemory,
}

fn wrong(line: u32, kind: LogFaultKind) -> Outcome {
    match kind {
        LogFaultKind::Json => Outcome::Json(line),
        LogFaultKind::Shape => Outcome::Shape(line),
        LogFaultKind::Twice => Outcome::Twice(line),
        LogFaultKind::Unsupported(_) => Outcome::Unsupported(line),
        LogFaultKind::NoMemory => Outcome::NoMemory,
    }
}

fn ending(alloc: Global, bytes: &[u8]) -> Outcome {
    match read_commit(alloc, bytes) {
        Ok(actions) => Outcome::Actions(actions.len()),
        Err(fault) => wrong(fault.line, fault.kind),
    }
}

/// The text that is written for what a text says; nothing where it has no reading.
fn rewritten(alloc: Global, text: &str) -> Result<Vec<u8>, NoMemory> {
    match read_commit(alloc, text.as_bytes()) {
        Ok(actions) => write_commit(alloc, &actions),
        Err(_) => Ok(Vec::new(alloc)),
    }
}

const MADE: &str =
    r#"{"commitInfo":{"isBlindAppend":false,"isolationLevel":"WriteSerializable","operation":"CREATE TABLE","timestamp":1700000000000,"txnId":"018bcfe5-6800-8000-8000-000000000001"}}
{"protocol":{"minReaderVersion":3,"minWriterVersion":7,"readerFeatures":["v2Checkpoint"],"writerFeatures":["appendOnly","invariants","v2Checkpoint"]}}
{"metaData":{"configuration":{"delta.checkpointPolicy":"v2"},"createdTime":1700000000000,"format":{"options":{},"provider":"parquet"},"id":"018bcfe5-6800-8000-8000-000000000001","partitionColumns":[],"schemaString":"{\"fields\":[{\"metadata\":{},\"name\":\"id\",\"nullable\":false,\"type\":\"long\"}],\"type\":\"struct\"}"}}
"#;

const APPENDED: &str =
    r#"{"commitInfo":{"isBlindAppend":true,"isolationLevel":"WriteSerializable","operation":"WRITE","readVersion":0,"timestamp":1700000000001,"txnId":"018bcfe5-6800-8000-8000-000100000001"}}
{"add":{"dataChange":true,"modificationTime":1700000000000,"partitionValues":{},"path":"part-00000-018bcfe5-6800-8000-8000-000100000001-c000.parquet","size":99,"stats":"{\"maxValues\":{\"id\":1},\"minValues\":{\"id\":1},\"nullCount\":{\"id\":0},\"numRecords\":1}"}}
"#;

const FOREIGN: &str = r#"{"commitInfo":{"timestamp":1,"custom":{"a":[1]}}}
{"add":{"path":"day=1/part%20a.parquet","partitionValues":{"day":"1"},"size":99,"modificationTime":5,"dataChange":true,"stats":null,"tags":null}}"#;

const FOREIGN_WRITTEN: &str = r#"{"commitInfo":{"timestamp":1}}
{"add":{"dataChange":true,"modificationTime":5,"partitionValues":{"day":"1"},"path":"day=1/part%20a.parquet","size":99}}
"#;

/// Whether a text was written, and is this one.
fn is_text(written: Result<Vec<u8>, NoMemory>, want: &str) -> bool {
    match written {
        Ok(text) => text.as_slice() == want.as_bytes(),
        Err(_) => false,
    }
}

#[test]
fn commits_are_written_as_they_were_read(rt: HostRuntime) {
    for (text, want) in [
        (MADE, MADE),
        (APPENDED, APPENDED),
        (FOREIGN, FOREIGN_WRITTEN),
    ] {
        assert!(rt; is_text(rewritten(rt.alloc(), text), want));
    }
}

/// A line for each sort of action, each with all of its members that are written.
const ALL: &str =
    r#"{"commitInfo":{"isBlindAppend":true,"isolationLevel":"Serializable","operation":"WRITE","readVersion":4,"timestamp":7,"txnId":"t"}}
{"protocol":{"minReaderVersion":3,"minWriterVersion":7,"readerFeatures":[],"writerFeatures":["appendOnly"]}}
{"metaData":{"configuration":{"a":"b"},"createdTime":1,"description":"d","format":{"options":{"o":"p"},"provider":"parquet"},"id":"i","name":"n","partitionColumns":["day"],"schemaString":"{}"}}
{"txn":{"appId":"a","version":18446744073709551615}}
{"checkpointMetadata":{"tags":{"stamp":"5"},"version":5}}
{"sidecar":{"modificationTime":6,"path":"s.parquet","sizeInBytes":9223372036854775807}}
{"remove":{"dataChange":true,"deletionTimestamp":8,"extendedFileMetadata":true,"partitionValues":{"day":null},"path":"r","size":9,"tags":{}}}
{"add":{"dataChange":false,"modificationTime":2,"partitionValues":{"day":"1"},"path":"a%20b","size":3,"stats":"{}","tags":{"t":"u"}}}
"#;

/// Puts what was made at the end of a list.
fn push<T: Drop>(list: &mut Vec<T>, made: Result<T, NoMemory>) -> Result<(), NoMemory> {
    list.push(made?)?;
    Ok(())
}

fn copies_of(alloc: Global, actions: &[Action]) -> Result<Vec<Action>, NoMemory> {
    let mut copies = Vec::new(alloc);
    for action in actions {
        push(&mut copies, action.try_copy(alloc))?;
    }
    Ok(copies)
}

/// The text that is written for copies of actions.
fn copies_written(alloc: Global, actions: &[Action]) -> Result<Vec<u8>, NoMemory> {
    let copies = copies_of(alloc, actions)?;
    write_commit(alloc, &copies)
}

/// The text that is written for copies of what a text says; nothing where it has no reading.
fn copied(alloc: Global, text: &str) -> Result<Vec<u8>, NoMemory> {
    match read_commit(alloc, text.as_bytes()) {
        Ok(actions) => copies_written(alloc, &actions),
        Err(_) => Ok(Vec::new(alloc)),
    }
}

#[test]
fn actions_are_copied(rt: HostRuntime) {
    let alloc = rt.alloc();
    assert!(rt; is_text(rewritten(alloc, ALL), ALL));
    assert!(rt; is_text(copied(alloc, ALL), ALL));
    assert!(rt; is_text(copied(alloc, "{\"cdc\":0}"), ""));
}

/// Whether an action adds a file of this name without statistics.
fn adds(action: Option<&Action>, name: &str) -> bool {
    match action {
        Some(Action::Add(add)) => add.name.as_str() == name && add.stats.is_none(),
        _ => false,
    }
}

/// Whether a text's last action adds a file of this name without statistics.
fn adds_last(alloc: Global, text: &str, name: &str) -> bool {
    match read_commit(alloc, text.as_bytes()) {
        Ok(actions) => adds(actions.last(), name),
        Err(_) => false,
    }
}

#[test]
fn paths_name_objects(rt: HostRuntime) {
    assert!(rt; adds_last(rt.alloc(), FOREIGN, "day=1/part a.parquet"));
    assert!(rt; is_absolute("/a") && is_absolute("file:a") && !is_absolute("a/b:c"));
}

const NO_TEXTS: [(&[u8], Outcome); 3] = [
    (b"{\"a\":\"\xff\"}", Outcome::Json(1)),
    (b"{\"cdc\":0}\n\xef\xbb\xbf{\"cdc\":0}", Outcome::Json(2)),
    (b"{\"cdc\":0}\n\0", Outcome::Json(2)),
];

#[test]
fn bytes_that_are_no_text(rt: HostRuntime) {
    for (bytes, wanted) in NO_TEXTS {
        assert!(rt; ending(rt.alloc(), bytes) == wanted);
    }
}

/// How a commit of two lines ends that is cut at a place, where the lines end at these.
fn cut_ending(cut: usize, first: usize, second: usize) -> Outcome {
    if cut == 0 {
        Outcome::Actions(0)
    } else if cut < first {
        Outcome::Json(1)
    } else if cut < first.saturating_add(2) {
        Outcome::Actions(1)
    } else if cut < second {
        Outcome::Json(2)
    } else {
        Outcome::Actions(2)
    }
}

/// Whether bytes that are cut at a place end so.
fn is_cut(alloc: Global, bytes: &[u8], cut: usize, wanted: Outcome) -> bool {
    match bytes.get(..cut) {
        Some(front) => ending(alloc, front) == wanted,
        None => false,
    }
}

/// Whether each commit that is cut ends as it should: it has the lines so far where the cut stands behind a line, and else
/// its last line is no JSON.
fn are_cut(alloc: Global, bytes: &[u8]) -> bool {
    let first = bytes.iter().position(|b| *b == b'\n').unwrap_or(0);
    let second = bytes.len().saturating_sub(1);
    let mut all = true;
    for cut in 0..bytes.len() {
        all = is_cut(alloc, bytes, cut, cut_ending(cut, first, second)) && all;
    }
    all
}

#[test]
fn cut_commits(rt: HostRuntime) {
    assert!(rt; are_cut(rt.alloc(), APPENDED.as_bytes()));
}

/// Adds a word so many times. Where memory is wanting it is left out, and the text isn't the one that is wanted.
fn add_times(text: &mut String, word: &str, times: usize) {
    for _ in 0..times {
        text.push_str(word).ok();
    }
}

/// A line with so many lists in one another.
fn nested(alloc: Global, depth: usize) -> String {
    let mut text = String::new(alloc);
    add_times(&mut text, r#"{"commitInfo":{"a":"#, 1);
    add_times(&mut text, "[", depth);
    add_times(&mut text, "]", depth);
    add_times(&mut text, "}}", 1);
    text
}

#[test]
fn deep_values(rt: HostRuntime) {
    for (depth, wanted) in [(125, Outcome::Actions(1)), (128, Outcome::Json(1))] {
        let text = nested(rt.alloc(), depth);
        assert!(rt; ending(rt.alloc(), text.as_str().as_bytes()) == wanted);
    }
}

const LINES: [(&str, Outcome); 31] = [
    ("", Outcome::Actions(0)),
    ("\n \t\r\n\n", Outcome::Actions(0)),
    (
        "\n{\"cdc\":{\"path\":3}}\n\r\n{\"unheard\":7}",
        Outcome::Actions(2),
    ),
    ("{\"domainMetadata\":{}}{}", Outcome::Json(1)),
    ("[]", Outcome::Json(1)),
    ("{\"a\":1e400}", Outcome::Json(1)),
    ("{\"a\":\"\\ud800\"}", Outcome::Json(1)),
    ("{\"a\":\"\\udc00\\ud800\"}", Outcome::Json(1)),
    ("{\"a\":\"\\ud83d\\ude00\"}", Outcome::Actions(1)),
    ("{\"a\":\"\t\"}", Outcome::Json(1)),
    ("{\"a\":+1}", Outcome::Json(1)),
    ("{\"a\":1,\"a\":2}", Outcome::Actions(1)),
    ("{\"a\":1} {\"a\":1}", Outcome::Json(1)),
    ("{\"a\":\"\\q\"}", Outcome::Json(1)),
    ("{\"a\":01}", Outcome::Json(1)),
    ("{}", Outcome::Shape(1)),
    ("{\"add\":null}", Outcome::Shape(1)),
    (
        "{\"txn\":{\"appId\":\"a\",\"version\":1},\"add\":null}",
        Outcome::Actions(1),
    ),
    (
        "{\"txn\":{\"appId\":\"a\",\"version\":1},\"cdc\":0}",
        Outcome::Shape(1),
    ),
    (
        "{\"txn\":{\"appId\":\"a\",\"version\":1,\"version\":2}}",
        Outcome::Actions(1),
    ),
    (
        "{\"txn\":{\"appId\":\"a\",\"version\":18446744073709551615}}",
        Outcome::Actions(1),
    ),
    (
        "{\"txn\":{\"appId\":\"a\",\"version\":18446744073709551616}}",
        Outcome::Shape(1),
    ),
    (
        "{\"txn\":{\"appId\":\"a\",\"version\":-0}}",
        Outcome::Shape(1),
    ),
    (
        "{\"txn\":{\"appId\":\"a\",\"version\":1.0}}",
        Outcome::Shape(1),
    ),
    (
        "{\"txn\":{\"appId\":\"a\",\"version\":1}}\n\n{\"txn\":{\"appId\":\"a\",\"version\":2}}",
        Outcome::Twice(3),
    ),
    (
        "{\"protocol\":{\"minReaderVersion\":1,\"minWriterVersion\":1}}\n{\"protocol\":{}}",
        Outcome::Shape(2),
    ),
    (
        "{\"sidecar\":{\"path\":\"/a\",\"sizeInBytes\":1}}",
        Outcome::Unsupported(1),
    ),
    (
        "{\"sidecar\":{\"path\":\"%ff\",\"sizeInBytes\":1}}",
        Outcome::Shape(1),
    ),
    (
        "{\"sidecar\":{\"path\":\"a%20b\",\"sizeInBytes\":1}}",
        Outcome::Actions(1),
    ),
    ("{\"commitInfo\":7}", Outcome::Shape(1)),
    ("{\"commitInfo\":{\"timestamp\":-1}}", Outcome::Actions(1)),
];

#[test]
fn foreign_lines(rt: HostRuntime) {
    for (text, wanted) in LINES {
        assert!(rt; ending(rt.alloc(), text.as_bytes()) == wanted);
    }
}

/// The line of a removed file with this path and this last member.
fn removal(alloc: Global, path: &str, last: &str) -> String {
    let mut text = String::new(alloc);
    add_times(&mut text, "{\"remove\":{\"dataChange\":true,\"path\":\"", 1);
    add_times(&mut text, path, 1);
    add_times(&mut text, "\"", 1);
    add_times(&mut text, last, 1);
    add_times(&mut text, "}}\n", 1);
    text
}

/// How the lines of removed files with these paths and last members end.
fn removals_ending(alloc: Global, removals: &[(&str, &str)]) -> Outcome {
    let mut text = String::new(alloc);
    for (path, last) in removals {
        let line = removal(alloc, path, last);
        add_times(&mut text, line.as_str(), 1);
    }
    ending(alloc, text.as_str().as_bytes())
}

const PATHS: [(&str, &str, Outcome); 12] = [
    ("a%20b", "", Outcome::Actions(1)),
    ("a%2", "", Outcome::Actions(1)),
    ("%ff", "", Outcome::Shape(1)),
    ("/a", "", Outcome::Unsupported(1)),
    ("s3+x:a", "", Outcome::Unsupported(1)),
    ("3s:a", "", Outcome::Actions(1)),
    ("a", ",\"deletionVector\":0", Outcome::Unsupported(1)),
    ("a", ",\"deletionVector\":null", Outcome::Actions(1)),
    ("/%ff", "", Outcome::Shape(1)),
    ("a", ",\"size\":9223372036854775808", Outcome::Shape(1)),
    (
        "a",
        ",\"tags\":{\"a\":null,\"b\":\"\"}",
        Outcome::Actions(1),
    ),
    ("a", ",\"tags\":{\"a\":1}", Outcome::Shape(1)),
];

#[test]
fn paths_of_files(rt: HostRuntime) {
    for (path, last, wanted) in PATHS {
        assert!(rt; removals_ending(rt.alloc(), &[(path, last)]) == wanted);
    }
}

#[test]
fn files_that_are_removed_twice(rt: HostRuntime) {
    let two = removals_ending(rt.alloc(), &[("a b", ""), ("a%20b", "")]);
    assert!(rt; two == Outcome::Actions(2));
    let third = ("a b", ",\"deletionVector\":0");
    let three = removals_ending(rt.alloc(), &[("a b", ""), ("a%20b", ""), third]);
    assert!(rt; three == Outcome::Twice(3));
}
