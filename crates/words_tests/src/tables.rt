//! Tables and literals of scripts by hand.
use op_types::Property;
use row_base::limits::MAX_SCRIPT_BYTES;
use row_base::{Column, Datum, Kind, Text};
use script_forms::ScriptFaultKind::{Header as NoHeader, Limit};
use script_forms::{Header, Script, ScriptFaultKind, parse_script};
use statement_types::{LiteralRows, Statement, TableSpec};
use std::alloc::{AllocError, Global};
use std::test::Fail;

fn read(alloc: Global, bytes: &[u8]) -> Option<Script> {
    if bytes.len() > MAX_SCRIPT_BYTES {
        return None;
    }
    parse_script(alloc, bytes).ok()
}

fn is_column(column: &Column, name: &str, kind: Kind, nullable: bool) -> bool {
    column.name.as_str() == name && column.kind == kind && column.nullable == nullable
}

fn are_columns(columns: &[Column]) -> bool {
    match columns {
        [first, second, third, fourth, last] => {
            is_column(first, "k", Kind::Long, false)
                && is_column(second, "i", Kind::Integer, true)
                && is_column(third, "b", Kind::Boolean, false)
                && is_column(fourth, "s", Kind::String, true)
                && is_column(last, "d", Kind::Date, true)
        }
        _ => false,
    }
}

fn are_names(names: &[Text]) -> bool {
    match names {
        [first, last] => first.as_str() == "d" && last.as_str() == "k",
        _ => false,
    }
}

fn are_properties(properties: &[Property]) -> bool {
    match properties {
        [first, last] => {
            first.key.as_str() == "a'b"
                && first.value.as_str() == ""
                && last.key.as_str() == "delta.appendOnly"
                && last.value.as_str() == "false"
        }
        _ => false,
    }
}

/// Whether it is the table of the line below.
fn is_whole_table(spec: &TableSpec) -> bool {
    are_columns(spec.columns.as_slice())
        && are_names(spec.partition.as_slice())
        && are_properties(spec.properties.as_slice())
}

const WHOLE_TABLE: &str =
    "table(k long not null , i integer,b boolean not null, s string, d date)partitioned by(d,k) with('a''b' = '','delta.appendOnly'='false')\n";

/// Whether it is a table of one column and nothing else.
fn is_small_table(spec: &TableSpec) -> bool {
    match spec.columns.as_slice() {
        [only] => {
            is_column(only, "v", Kind::Long, true)
                && spec.partition.as_slice().is_empty()
                && spec.properties.as_slice().is_empty()
        }
        _ => false,
    }
}

fn is_header(alloc: Global, text: &str) -> bool {
    match read(alloc, text.as_bytes()) {
        Some(script) => match &script.header {
            Header::Table(spec) => is_whole_table(spec),
            Header::Existing => false,
        },
        None => false,
    }
}

fn has_tables(statements: &[Statement]) -> bool {
    match statements {
        [Statement::Table(first), Statement::Table(last)] => {
            is_whole_table(first) && is_small_table(last)
        }
        _ => false,
    }
}

/// Whether the script begins with no table and has one session with two tables.
fn makes_tables(alloc: Global, text: &[u8]) -> bool {
    match read(alloc, text) {
        Some(script) => {
            matches!(script.header, Header::Existing)
                && match script.sessions.as_slice() {
                    [session] => has_tables(session.statements.as_slice()),
                    _ => false,
                }
        }
        None => false,
    }
}

#[test]
fn reads_tables(rt: HostRuntime) -> Result<(), Fail> {
    let alloc = rt.alloc();
    assert!(rt; is_header(alloc, WHOLE_TABLE));
    let mut text = Vec::from_slice(alloc, b"open\nsession a\n")?;
    text.extend_from_slice(WHOLE_TABLE.as_bytes())?;
    text.extend_from_slice(b"table (v long)\n")?;
    assert!(rt; makes_tables(alloc, &text));
    Ok(())
}

/// Whether the rows are those of the line below.
fn are_literals(rows: &LiteralRows) -> bool {
    let rows = rows.rows();
    let first = match rows.get(0) {
        Some(
            [
                Datum::Long(-5),
                Datum::Boolean(true),
                Datum::Boolean(false),
                Datum::Null,
            ],
        ) => true,
        _ => false,
    };
    let second = match rows.get(1) {
        Some([Datum::Text(text), Datum::Date(19782)]) => text.as_str() == "a'\n\\",
        _ => false,
    };
    let third = match rows.get(2) {
        Some([Datum::Date(-719162), Datum::Date(2932896)]) => true,
        _ => false,
    };
    first && second && third && rows.len() == 3
}

const LITERALS: &[u8] =
    b"open\nsession a\ninsert (-5, true, false, null), ('a''\\x0A\\\\', date '2024-02-29'), (date '0001-01-01', date  '9999-12-31')\n";

#[test]
fn reads_literals(rt: HostRuntime) {
    let held = match read(rt.alloc(), LITERALS) {
        Some(script) => match script.sessions.as_slice() {
            [session] => match session.statements.as_slice() {
                [Statement::Insert { rows }] => are_literals(rows),
                _ => false,
            },
            _ => false,
        },
        None => false,
    };
    assert!(rt; held);
}

/// The first bytes, then as many copies of the text as asked, then the last bytes.
fn repeated(
    alloc: Global,
    first: &str,
    text: &str,
    count: u32,
    last: &str,
) -> Result<Vec<u8>, AllocError> {
    let mut bytes = Vec::from_slice(alloc, first.as_bytes())?;
    for _ in 0..count {
        bytes.extend_from_slice(text.as_bytes())?;
    }
    bytes.extend_from_slice(last.as_bytes())?;
    Ok(bytes)
}

fn fault(alloc: Global, bytes: &[u8]) -> Option<(u32, ScriptFaultKind)> {
    if bytes.len() > MAX_SCRIPT_BYTES {
        return None;
    }
    match parse_script(alloc, bytes) {
        Ok(_) => None,
        Err(fault) => Some((fault.line, fault.kind)),
    }
}

/// What a script begins with, what stands in it so many times, what it ends with, and the line that passes a limit.
type Repeated = (
    &'static str,
    &'static str,
    u32,
    &'static str,
    Option<(u32, ScriptFaultKind)>,
);

const LIMITS: [Repeated; 13] = [
    ("table (k long", ", v long", 63, ")\n", None),
    ("table (k long", ", v long", 64, ")\n", Some((1, NoHeader))),
    (
        "open\nsession a\ntable (k long",
        ", v long",
        63,
        ")\n",
        None,
    ),
    (
        "open\nsession a\ntable (k long",
        ", v long",
        64,
        ")\n",
        Some((3, Limit)),
    ),
    ("open\nsession a\ninsert ('", "x", 65_535, "')\n", None),
    (
        "open\nsession a\ninsert (1, '",
        "x",
        65_536,
        "')\n",
        Some((3, Limit)),
    ),
    ("open\nsession a\ninsert ('", "''", 65_535, "')\n", None),
    ("open\nsession a\ninsert (1)", ",(1)", 65_535, "\n", None),
    (
        "open\nsession a\ninsert (1)",
        ",(1)",
        65_536,
        "\n",
        Some((3, Limit)),
    ),
    ("table (k long) with ('", "x", 65_535, "' = '')\n", None),
    (
        "table (k long) with ('",
        "x",
        65_536,
        "' = '')\n",
        Some((1, NoHeader)),
    ),
    (
        "open\nsession a\ntable (k long) with ('k' = '",
        "x",
        65_536,
        "')\n",
        Some((3, Limit)),
    ),
    ("open\nsession a\nwait 1", "", 0, "099511627776\n", None),
];

fn all_come(alloc: Global, cases: &[Repeated]) -> Result<bool, AllocError> {
    for (first, text, count, last, wanted) in cases {
        let bytes = repeated(alloc, first, text, *count, last)?;
        if fault(alloc, &bytes) != *wanted {
            return Ok(false);
        }
    }
    Ok(true)
}

#[test]
fn names_what_passes_a_limit(rt: HostRuntime) -> Result<(), Fail> {
    assert!(rt; all_come(rt.alloc(), &LIMITS)?);
    Ok(())
}
