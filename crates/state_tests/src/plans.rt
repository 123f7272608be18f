//! The texts of planned commits.

use commit_plans::{CommitPlan, TextFault, added_file, insert_plan, made_properties, table_plan};
use edge_api::{Body, Tag};
use log_actions::{Action, AddFile, Txn, read_commit};
use log_state::State;
use op_types::Property;
use row_base::{Items, NoMemory, Text};
use std::alloc::Global;
use table_rules::{Level, data_file_name, statement_id};

const START: u64 = 1_700_000_000_000;

const MAKER: Tag = Tag {
    actor: 0,
    statement: 1,
};

const WRITER: Tag = Tag {
    actor: 1,
    statement: 1,
};

fn properties(alloc: Global, pairs: &[(&str, &str)]) -> Result<Vec<Property>, NoMemory> {
    let mut properties = Vec::new(alloc);
    for (key, value) in pairs {
        let key = Text::make(alloc, key)?;
        let value = Text::make(alloc, value)?;
        properties.push(Property { key, value })?;
    }
    Ok(properties)
}

fn making(alloc: Global, pairs: &[(&str, &str)]) -> Result<CommitPlan, NoMemory> {
    let schema = Text::make(
        alloc,
        r#"{"fields":[{"metadata":{},"name":"id","nullable":false,"type":"long"}],"type":"struct"}"#,
    )?;
    let set = properties(alloc, pairs)?;
    table_plan(
        alloc,
        statement_id(alloc, MAKER, START)?,
        START,
        Level::WriteSerializable,
        schema,
        Items::from_vec(Vec::new(alloc)),
        made_properties(alloc, &set)?,
    )
}

fn files(alloc: Global) -> Result<Vec<AddFile>, NoMemory> {
    let name = data_file_name(alloc, WRITER, START, 0)?.into_text();
    let values = Items::from_vec(Vec::new(alloc));
    let mut files = Vec::new(alloc);
    files.push(added_file(name, values, 99, START, None)?)?;
    Ok(files)
}

/// An insert over version 0, which has the stamp START.
fn inserting(alloc: Global) -> Result<CommitPlan, NoMemory> {
    let txn = Txn {
        app_id: Text::make(alloc, "app")?,
        version: 7,
        last_updated: None,
    };
    let id = statement_id(alloc, WRITER, START)?;
    let files = files(alloc)?;
    let table = State::of_parts(alloc, 0, START, Vec::new(alloc))?;
    let plan = insert_plan(alloc, &table, id, Level::Serializable, Some(txn), files);
    drop(table);
    plan
}

fn body(alloc: Global, plan: &CommitPlan) -> Result<Body, TextFault> {
    plan.body_at(alloc, START)
}

fn is_text(written: Result<Body, TextFault>, want: &str) -> bool {
    match written {
        Ok(body) => body.as_bytes() == want.as_bytes(),
        Err(_) => false,
    }
}

/// Whether the text of a plan at START is this one.
fn is_written(alloc: Global, plan: Result<CommitPlan, NoMemory>, want: &str) -> bool {
    match plan {
        Ok(plan) => is_text(body(alloc, &plan), want),
        Err(_) => false,
    }
}

const MADE: &str =
    r#"{"commitInfo":{"isBlindAppend":false,"isolationLevel":"WriteSerializable","operation":"CREATE TABLE","timestamp":1700000000000,"txnId":"018bcfe5-6800-8000-8000-000000000001"}}
{"protocol":{"minReaderVersion":3,"minWriterVersion":7,"readerFeatures":["v2Checkpoint"],"writerFeatures":["appendOnly","invariants","v2Checkpoint"]}}
{"metaData":{"configuration":{"delta.checkpointPolicy":"v2"},"createdTime":1700000000000,"format":{"options":{},"provider":"parquet"},"id":"018bcfe5-6800-8000-8000-000000000001","partitionColumns":[],"schemaString":"{\"fields\":[{\"metadata\":{},\"name\":\"id\",\"nullable\":false,\"type\":\"long\"}],\"type\":\"struct\"}"}}
"#;

const MADE_WITH: &str =
    r#"{"commitInfo":{"isBlindAppend":false,"isolationLevel":"WriteSerializable","operation":"CREATE TABLE","timestamp":1700000000000,"txnId":"018bcfe5-6800-8000-8000-000000000001"}}
{"protocol":{"minReaderVersion":3,"minWriterVersion":7,"readerFeatures":["v2Checkpoint"],"writerFeatures":["appendOnly","invariants","v2Checkpoint"]}}
{"metaData":{"configuration":{"Z":"2","a":"3","delta.appendOnly":"false","delta.checkpointInterval":"7","delta.checkpointPolicy":"v2","delta.logRetentionDuration":"interval 3 days","zz":"1"},"createdTime":1700000000000,"format":{"options":{},"provider":"parquet"},"id":"018bcfe5-6800-8000-8000-000000000001","partitionColumns":[],"schemaString":"{\"fields\":[{\"metadata\":{},\"name\":\"id\",\"nullable\":false,\"type\":\"long\"}],\"type\":\"struct\"}"}}
"#;

const SET: &[(&str, &str)] = &[
    ("zz", "1"),
    ("delta.logRetentionDuration", "interval 3 days"),
    ("Z", "2"),
    ("delta.checkpointInterval", "7"),
    ("delta.appendOnly", "false"),
    ("delta.checkpointPolicy", "v2"),
    ("a", "3"),
];

#[test]
fn tables_are_made(rt: HostRuntime) {
    assert!(rt; is_written(rt.alloc(), making(rt.alloc(), &[]), MADE));
    assert!(rt; is_written(rt.alloc(), making(rt.alloc(), SET), MADE_WITH));
}

const INSERTED: &str =
    r#"{"commitInfo":{"isBlindAppend":true,"isolationLevel":"Serializable","operation":"WRITE","readVersion":0,"timestamp":1700000000001,"txnId":"018bcfe5-6800-8000-8000-000100000001"}}
{"txn":{"appId":"app","version":7}}
{"add":{"dataChange":true,"modificationTime":1700000000000,"partitionValues":{},"path":"part-00000-018bcfe5-6800-8000-8000-000100000001-c000.parquet","size":99}}
"#;

/// The same behind a commit with a later clock.
const INSERTED_LATER: &str =
    r#"{"commitInfo":{"isBlindAppend":true,"isolationLevel":"Serializable","operation":"WRITE","readVersion":0,"timestamp":1700000005001,"txnId":"018bcfe5-6800-8000-8000-000100000001"}}
{"txn":{"appId":"app","version":7}}
{"add":{"dataChange":true,"modificationTime":1700000000000,"partitionValues":{},"path":"part-00000-018bcfe5-6800-8000-8000-000100000001-c000.parquet","size":99}}
"#;

/// Of two commitInfo lines the first counts.
const WINNER: &str = r#"{"commitInfo":{"timestamp":1700000005000}}
{"commitInfo":{"timestamp":1700000009000}}
"#;

/// The plan behind a commit.
fn behind(mut plan: CommitPlan, winner: &[Action]) -> Result<CommitPlan, NoMemory> {
    match plan.follow(winner) {
        Ok(()) => Ok(plan),
        Err(_) => Err(NoMemory),
    }
}

fn later(alloc: Global, winner: &str) -> Result<CommitPlan, NoMemory> {
    let plan = inserting(alloc)?;
    match read_commit(alloc, winner.as_bytes()) {
        Ok(actions) => behind(plan, &actions),
        Err(_) => Err(NoMemory),
    }
}

#[test]
fn rows_are_inserted(rt: HostRuntime) {
    assert!(rt; is_written(rt.alloc(), inserting(rt.alloc()), INSERTED));
    assert!(rt; is_written(rt.alloc(), later(rt.alloc(), WINNER), INSERTED_LATER));
}
