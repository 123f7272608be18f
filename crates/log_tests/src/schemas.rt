//! Texts from outside: schemas written by hand, foreign and damaged ones, and values of partition columns.

use log_actions::{Entry, PartitionMap};
use row_base::{Items, NoMemory, Row, Schema, Text};
use schema_text::{SchemaTextFault, read_partition, read_schema, write_partition, write_schema};
use std::alloc::Global;
use std::test::Fail;

/// How a reading ended. A fault that names another column than `c` is `Other`.
#[derive(Clone, Copy, Debug, Drop, PartialEq, Eq)]
enum Outcome {
    Read,
    Shape,
    Kind,
    Invariant,
    Value,
    Other,
}

fn of_column(name: &Text, outcome: Outcome) -> Outcome {
    if name.as_str() == "c" {
        outcome
    } else {
        Outcome::Other
    }
}

fn wrong(fault: &SchemaTextFault) -> Outcome {
    match fault {
        SchemaTextFault::Shape => Outcome::Shape,
        SchemaTextFault::Kind { name } => of_column(name, Outcome::Kind),
        SchemaTextFault::Invariant { name } => of_column(name, Outcome::Invariant),
        SchemaTextFault::Value { name } => of_column(name, Outcome::Value),
        SchemaTextFault::NoMemory => Outcome::Other,
    }
}

/// How a reading ended.
fn outcome_of<T: Drop>(read: Result<T, SchemaTextFault>) -> Outcome {
    match read {
        Ok(_) => Outcome::Read,
        Err(fault) => wrong(&fault),
    }
}

/// A list of this text alone.
fn one_text(alloc: Global, text: &str) -> Result<Vec<Text>, NoMemory> {
    let text = Text::make(alloc, text)?;
    let mut texts = Vec::new(alloc);
    texts.push(text)?;
    Ok(texts)
}

/// The schema of a text, partitioned by this column.
fn parted_schema(alloc: Global, text: &str, column: &str) -> Result<Schema, SchemaTextFault> {
    let names = one_text(alloc, column)?;
    let text = Text::make(alloc, text)?;
    read_schema(alloc, &text, &names)
}

/// The schema of a text.
fn plain_schema(alloc: Global, text: &str) -> Result<Schema, SchemaTextFault> {
    let text = Text::make(alloc, text)?;
    read_schema(alloc, &text, &[])
}

/// Whether what a text was read as is written as the other.
fn is_rewritten(
    alloc: Global,
    read: Result<Schema, SchemaTextFault>,
    want: &str,
) -> Result<bool, NoMemory> {
    let Ok(schema) = read else {
        return Ok(false);
    };
    let text = write_schema(alloc, &schema)?;
    Ok(text.as_str() == want)
}

const LONG: &str =
    r#"{"fields":[{"metadata":{},"name":"id","nullable":false,"type":"long"}],"type":"struct"}"#;

const FIVE: &str =
    r#"{"fields":[{"metadata":{},"name":"l","nullable":true,"type":"long"},{"metadata":{},"name":"i","nullable":false,"type":"integer"},{"metadata":{},"name":"b","nullable":true,"type":"boolean"},{"metadata":{},"name":"s","nullable":true,"type":"string"},{"metadata":{},"name":"p","nullable":true,"type":"date"}],"type":"struct"}"#;

const FOREIGN: &str =
    r#"{ "type" : "struct", "fields" : [ { "name" : "id", "type" : "long", "nullable" : false, "metadata" : { "comment" : "a key" } } ] }"#;

#[test]
fn schemas_are_written_as_they_were_read(rt: HostRuntime) -> Result<(), Fail> {
    let alloc = rt.alloc();
    assert!(rt; is_rewritten(alloc, plain_schema(alloc, LONG), LONG)?);
    assert!(rt; is_rewritten(alloc, parted_schema(alloc, FIVE, "p"), FIVE)?);
    assert!(rt; is_rewritten(alloc, plain_schema(alloc, FOREIGN), LONG)?);
    Ok(())
}

const SCHEMAS: [(&str, Outcome); 8] = [
    (r#"{"type":"struct","fields":[]}"#, Outcome::Shape),
    (
        r#"{"type":"map","fields":[{"name":"c","type":"long","nullable":true,"metadata":{}}]}"#,
        Outcome::Shape,
    ),
    (
        r#"{"type":"struct","fields":[{"name":"c","type":"decimal(5,2)","nullable":true,"metadata":{}}]}"#,
        Outcome::Kind,
    ),
    (
        r#"{"type":"struct","fields":[{"name":"c","type":{"type":"array"},"nullable":true,"metadata":{}}]}"#,
        Outcome::Kind,
    ),
    (
        r#"{"type":"struct","fields":[{"name":"c","type":7,"nullable":true,"metadata":{}}]}"#,
        Outcome::Shape,
    ),
    (
        r#"{"type":"struct","fields":[{"name":"c","type":"long","nullable":"true","metadata":{}}]}"#,
        Outcome::Shape,
    ),
    (
        r#"{"type":"struct","fields":[{"name":"c","type":"long","nullable":true,"metadata":[]}]}"#,
        Outcome::Shape,
    ),
    (
        r#"{"type":"struct","fields":[{"name":"c","type":"long","nullable":true,"metadata":{"delta.invariants":"{}"}}]}"#,
        Outcome::Invariant,
    ),
];

#[test]
fn foreign_schemas(rt: HostRuntime) {
    for (text, wanted) in SCHEMAS {
        assert!(rt; outcome_of(plain_schema(rt.alloc(), text)) == wanted);
    }
}

/// Schemas with two faults each.
const FAULTS: [(&str, Outcome); 3] = [
    (
        r#"{"type":"struct","fields":[{"name":"c","type":"decimal(5,2)","nullable":true,"metadata":{"delta.invariants":"{}"}},{"name":"v"}]}"#,
        Outcome::Kind,
    ),
    (
        r#"{"type":"struct","fields":[{"name":"c","type":"long","nullable":true,"metadata":{"delta.invariants":"{}"}},{"name":"v","type":"void","nullable":true,"metadata":{}}]}"#,
        Outcome::Invariant,
    ),
    (
        r#"{"type":"struct","fields":[{"name":"v","type":"long","nullable":true,"metadata":{}},{"name":"v","type":"void","nullable":true,"metadata":{}}]}"#,
        Outcome::Shape,
    ),
];

#[test]
fn the_first_fault_by_place(rt: HostRuntime) {
    for (text, wanted) in FAULTS {
        assert!(rt; outcome_of(parted_schema(rt.alloc(), text, "p")) == wanted);
    }
}

const PARTED: &str =
    r#"{"type":"struct","fields":[{"name":"c","type":"integer","nullable":false,"metadata":{}},{"name":"v","type":"long","nullable":true,"metadata":{}}]}"#;

fn entry(alloc: Global, text: &str) -> Result<Entry<Option<Text>>, NoMemory> {
    let name = Text::make(alloc, "c")?;
    let value = Some(Text::make(alloc, text)?);
    Ok(Entry { name, value })
}

/// The map that has this text for the column `c`.
fn map_of(alloc: Global, text: &str) -> Result<PartitionMap, NoMemory> {
    let entry = entry(alloc, text)?;
    let mut values = Vec::new(alloc);
    values.push(entry)?;
    Ok(Items::from_vec(values))
}

/// What a text of the column `c` is read as, an integer that is not null.
fn value_read(alloc: Global, text: &str) -> Result<Row, SchemaTextFault> {
    let values = map_of(alloc, text)?;
    let schema = parted_schema(alloc, PARTED, "c")?;
    read_partition(alloc, &schema, &values)
}

const VALUES: [(&str, Outcome); 8] = [
    ("7", Outcome::Read),
    ("-007", Outcome::Read),
    ("2147483647", Outcome::Read),
    ("2147483648", Outcome::Value),
    ("+7", Outcome::Value),
    ("-", Outcome::Value),
    ("7.0", Outcome::Value),
    ("", Outcome::Value),
];

#[test]
fn integers_of_partitions(rt: HostRuntime) {
    for (text, wanted) in VALUES {
        assert!(rt; outcome_of(value_read(rt.alloc(), text)) == wanted);
    }
}

/// What is written for what a text of the column `c` stands for.
fn value_written(alloc: Global, text: &str) -> Result<PartitionMap, SchemaTextFault> {
    let values = map_of(alloc, text)?;
    let schema = parted_schema(alloc, PARTED, "c")?;
    let row = read_partition(alloc, &schema, &values)?;
    Ok(write_partition(alloc, &schema, &row)?)
}

/// Whether this is the text of a value.
fn is_value(value: &Option<Text>, want: &str) -> bool {
    match value {
        Some(text) => text.as_str() == want,
        None => false,
    }
}

/// Whether this is the only text in a map.
fn is_alone(written: &PartitionMap, want: &str) -> bool {
    match written.as_slice() {
        [entry] => is_value(&entry.value, want),
        _ => false,
    }
}

#[test]
fn values_are_written_without_zeros(rt: HostRuntime) {
    match value_written(rt.alloc(), "-007") {
        Ok(written) => assert!(rt; is_alone(&written, "-7")),
        Err(_) => assert!(rt; false),
    }
}
