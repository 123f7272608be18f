//! Statements, as a script has them.

use row_base::{Column, Items, Rows, Text};

/// A table that is to be made.
#[derive(Drop)]
pub struct TableSpec {
    /// Its columns, in order.
    pub columns: Items<Column>,
}

/// A property of a table, as a statement sets it.
#[derive(Drop)]
pub struct Property {
    pub key: Text,
    pub value: Text,
}

/// A statement of a session.
#[derive(Drop)]
pub enum Statement {
    /// Makes the table.
    Table(TableSpec),
    /// Appends literal rows: a blind append.
    Insert { rows: Rows },
    /// Reads all rows of the newest version.
    Select,
}
