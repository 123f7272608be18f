//! Tables that are made, and the properties of a table that is made and of one that is there.
use crate::parts::{Answer, column, is_answer, texts};
use op_types::Property;
use predicates::BindFault;
use row_base::{Column, Kind, NoMemory, Text};
use statement_checks::{bound_table, check_properties, check_setting};
use std::alloc::Global;
use std::test::Fail;

/// Columns of these names.
fn longs(alloc: Global, names: &[&str]) -> Result<Vec<Column>, NoMemory> {
    let mut columns = Vec::new(alloc);
    for name in names {
        columns.push(column(alloc, name, Kind::Long, true)?)?;
    }
    Ok(columns)
}

fn property(alloc: Global, key: &str, value: &str) -> Result<Property, NoMemory> {
    let key = Text::make(alloc, key)?;
    let value = Text::make(alloc, value)?;
    Ok(Property { key, value })
}

fn bind_table(
    alloc: Global,
    names: &[&str],
    partition: &[&str],
    key: &str,
) -> Result<(), BindFault> {
    let columns = longs(alloc, names)?;
    let partition = texts(alloc, partition)?;
    let properties = [property(alloc, key, "x")?];
    bound_table(alloc, columns.as_slice(), partition.as_slice(), &properties)?;
    Ok(())
}

/// 65 names.
const MANY: [&str; 65] = ["c"; 65];

/// The names of columns, those of the partition columns, the key of a property, and what the table comes to.
type Table = (
    &'static [&'static str],
    &'static [&'static str],
    &'static str,
    Answer,
);

const TABLES: [Table; 14] = [
    (&["p", "v"], &["p"], "owner", Answer::Bound),
    (&["p"], &[], "owner", Answer::Bound),
    // the columns
    (&[], &["q"], "delta.x", Answer::Count),
    (&MANY, &["q"], "delta.x", Answer::Count),
    (&["v", "p", "v", "p"], &["q"], "delta.x", Answer::Twice("v")),
    // then the partition columns
    (&["p"], &["p"], "owner", Answer::Count),
    (&["p"], &["p", "q"], "delta.x", Answer::Count),
    (&["p"], &["q", "p"], "delta.x", Answer::Column("q")),
    (&["p", "v"], &["p", "p"], "delta.x", Answer::Twice("p")),
    (&["p", "v"], &["p", "v", "q"], "delta.x", Answer::Count),
    (
        &["p", "v"],
        &["p", "q", "p"],
        "delta.x",
        Answer::Column("q"),
    ),
    (
        &["p", "v", "w"],
        &["v", "v", "q"],
        "delta.x",
        Answer::Twice("v"),
    ),
    // and then the properties
    (&["v", "p"], &["p"], "delta.x", Answer::Property("delta.x")),
    (&["v"], &[], "delta.", Answer::Property("delta.")),
];

fn tables_come(alloc: Global, tables: &[Table]) -> bool {
    tables.iter().all(|(names, partition, key, answer)| {
        is_answer(&bind_table(alloc, names, partition, key), *answer)
    })
}

#[test]
fn tables(rt: HostRuntime) -> Result<(), Fail> {
    assert!(rt; tables_come(rt.alloc(), &TABLES));
    Ok(())
}

/// Whether a table of `p`, `q` and `v` that is partitioned by `q` and `p` has these partition columns, in this order.
fn are_places(alloc: Global, places: &[u32]) -> Result<bool, BindFault> {
    let columns = longs(alloc, &["p", "q", "v"])?;
    let partition = texts(alloc, &["q", "p"])?;
    let schema = bound_table(alloc, columns.as_slice(), partition.as_slice(), &[])?;
    Ok(schema.partition() == places)
}

#[test]
fn partition_columns_are_in_order(rt: HostRuntime) -> Result<(), Fail> {
    let placed = matches!(are_places(rt.alloc(), &[1, 0]), Ok(true));
    assert!(rt; placed);
    Ok(())
}

/// How a table takes a property.
#[derive(Clone, Copy, Drop)]
enum Taken {
    Right,
    Wrong,
    Fixed,
}

const LEVEL: &str = "delta.isolationLevel";

const INTERVAL: &str = "delta.checkpointInterval";

const DELETED: &str = "delta.deletedFileRetentionDuration";

const LOG: &str = "delta.logRetentionDuration";

const POLICY: &str = "delta.checkpointPolicy";

const APPEND: &str = "delta.appendOnly";

/// A key, a value, and how a table that is made and one that is there take them.
type Case = (&'static str, &'static str, Taken, Taken);

const CASES: [Case; 23] = [
    (LEVEL, "Serializable", Taken::Right, Taken::Right),
    (LEVEL, "WriteSerializable", Taken::Right, Taken::Right),
    (LEVEL, "serializable", Taken::Wrong, Taken::Wrong),
    (INTERVAL, "1", Taken::Right, Taken::Right),
    (INTERVAL, "1000000", Taken::Right, Taken::Right),
    (INTERVAL, "0", Taken::Wrong, Taken::Wrong),
    (INTERVAL, "1000001", Taken::Wrong, Taken::Wrong),
    (INTERVAL, "010", Taken::Wrong, Taken::Wrong),
    (DELETED, "interval 1 week", Taken::Right, Taken::Fixed),
    (DELETED, "1 week", Taken::Wrong, Taken::Fixed),
    (
        LOG,
        "interval 1099511627776 milliseconds",
        Taken::Right,
        Taken::Fixed,
    ),
    (
        LOG,
        "interval 1099511627777 milliseconds",
        Taken::Wrong,
        Taken::Fixed,
    ),
    (POLICY, "v2", Taken::Right, Taken::Fixed),
    (POLICY, "classic", Taken::Wrong, Taken::Fixed),
    (APPEND, "false", Taken::Right, Taken::Right),
    (APPEND, "true", Taken::Right, Taken::Wrong),
    (APPEND, "True", Taken::Wrong, Taken::Wrong),
    (
        "delta.constraints.positive",
        "v > 0",
        Taken::Wrong,
        Taken::Wrong,
    ),
    ("delta.checkpointinterval", "1", Taken::Wrong, Taken::Wrong),
    ("delta.", "", Taken::Wrong, Taken::Wrong),
    ("delta", "x", Taken::Right, Taken::Right),
    ("Delta.isolationLevel", "x", Taken::Right, Taken::Right),
    ("owner", "", Taken::Right, Taken::Right),
];

fn answer(taken: Taken, key: &'static str) -> Answer {
    match taken {
        Taken::Right => Answer::Bound,
        Taken::Wrong => Answer::Property(key),
        Taken::Fixed => Answer::Fixed(key),
    }
}

/// Properties of these keys and values.
fn properties(alloc: Global, pairs: &[(&str, &str)]) -> Result<Vec<Property>, NoMemory> {
    let mut properties = Vec::new(alloc);
    for (key, value) in pairs {
        properties.push(property(alloc, key, value)?)?;
    }
    Ok(properties)
}

fn check_made(alloc: Global, pairs: &[(&str, &str)]) -> Result<(), BindFault> {
    let properties = properties(alloc, pairs)?;
    check_properties(properties.as_slice())
}

fn check_there(alloc: Global, key: &str, value: &str) -> Result<(), BindFault> {
    let property = property(alloc, key, value)?;
    check_setting(&property.key, &property.value)
}

fn are_taken(alloc: Global, cases: &[Case]) -> bool {
    for (key, value, made, there) in cases {
        if !is_answer(&check_made(alloc, &[(*key, *value)]), answer(*made, key)) {
            return false;
        }
        if !is_answer(&check_there(alloc, key, value), answer(*there, key)) {
            return false;
        }
    }
    true
}

#[test]
fn values_of_properties(rt: HostRuntime) -> Result<(), Fail> {
    assert!(rt; are_taken(rt.alloc(), &CASES));
    Ok(())
}

#[test]
fn the_first_property_is_named(rt: HostRuntime) -> Result<(), Fail> {
    let pairs = [("owner", "ann"), ("delta.b", "1"), ("delta.a", "1")];
    let checked = check_made(rt.alloc(), &pairs);
    let named = is_answer(&checked, Answer::Property("delta.b"));
    assert!(rt; named);
    Ok(())
}
