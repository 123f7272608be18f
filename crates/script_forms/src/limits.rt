//! Limits of a statement, and statements that pass none.
ghost use Rattle.std.specs.Prelude.{◌≡◌};
ghost use Rattle.std.specs.List.{list_all, list_any};
ghost use Rattle.std.specs.Str.{bytes_eq};
ghost use Rattle.script_forms.specs.Limits.{are_keys, is_short, is_short_property, is_short_datum, table_within, rows_within, stated_within, statement_of, HasLiterals};

use crate::items::has_bytes;
use crate::place::Stated;
use op_types::Property;
use row_base::limits::{MAX_COLUMNS, MAX_STATEMENT_ROWS, MAX_TEXT_BYTES, MAX_WAIT};
use row_base::{Datum, Rows, Text};
use statement_types::{LiteralRows, Statement, TableSpec};

fn has_key(properties: &[Property], key: &Text) -> bool
    ensures { result ≡ list_any (λ p. bytes_eq p.key key.now) properties.now }
{
    let key = key.as_bytes();
    properties.iter().any(|other| has_bytes(&other.key, key))
}

/// Whether each key stands there once.
pub fn are_keys(properties: &[Property]) -> bool
    ensures { result ≡ are_keys properties.now }
{
    let mut rest = properties;
    while let [first, tail @ ..] = rest {
        if has_key(tail, &first.key) {
            return false;
        }
        rest = tail;
    }
    true
}

fn is_short(text: &Text) -> bool
    ensures { result ≡ is_short text.now }
{
    text.as_bytes().len() <= MAX_TEXT_BYTES
}

fn is_short_property(property: &Property) -> bool
    ensures { result ≡ is_short_property property.now }
{
    is_short(&property.key) && is_short(&property.value)
}

fn are_properties_short(properties: &[Property]) -> bool
    ensures { result ≡ list_all is_short_property properties.now }
{
    properties
        .iter()
        .all(|property| is_short_property(property))
}

/// Whether a table passes no limit.
pub fn table_within(spec: &TableSpec) -> bool
    ensures { result ≡ table_within spec.now }
{
    spec.columns.as_slice().len() <= MAX_COLUMNS && are_properties_short(spec.properties.as_slice())
}

fn is_short_datum(datum: &Datum) -> bool
    ensures { result ≡ is_short_datum datum.now }
{
    match datum {
        Datum::Text(text) => is_short(text),
        _ => true,
    }
}

fn are_short(row: &[Datum]) -> bool
    ensures { result ≡ list_all is_short_datum row.now }
{
    row.iter().all(|datum| is_short_datum(datum))
}

fn are_rows_short(rows: &Rows) -> bool
    ensures { result ≡ list_all (λ r. list_all is_short_datum r) rows.now }
{
    for row in rows.iter() {
        if !are_short(row) {
            return false;
        }
    }
    true
}

fn rows_within(rows: &Rows) -> bool
    ensures { result ≡ rows_within rows.now }
{
    rows.len() <= MAX_STATEMENT_ROWS && are_rows_short(rows)
}

/// Whether a statement passes no limit.
pub fn stated_within(stated: &Stated) -> bool
    ensures { result ≡ stated_within stated.now }
{
    match stated {
        Stated::Table(spec) => table_within(spec),
        Stated::Insert(rows) => rows_within(rows),
        Stated::Select => true,
        Stated::Wait(time) => *time <= MAX_WAIT,
    }
}

/// The statement, of which no text is too long.
pub fn statement_of(stated: Stated) -> Statement
    requires { HasLiterals stated }
    ensures { result ≡ statement_of stated }
{
    match stated {
        Stated::Table(spec) => Statement::Table(spec),
        Stated::Insert(rows) => Statement::Insert {
            rows: LiteralRows::new(rows),
        },
        Stated::Select => Statement::Select,
        Stated::Wait(time) => Statement::Wait(time),
    }
}
