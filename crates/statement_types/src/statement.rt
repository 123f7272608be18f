//! Statements, as a script has them.

use crate::LiteralRows;
use op_types::Property;
use row_base::{Column, Items, Text};

/// A table that is to be made.
#[derive(Drop)]
pub struct TableSpec {
    /// Its columns, in order.
    pub columns: Items<Column>,
    /// The names of the columns by which it is partitioned, in order.
    pub partition: Items<Text>,
    /// Its properties (PROTOCOL.md, "Change Metadata", `configuration`), each key once.
    pub properties: Items<Property>,
}

/// A statement of a session.
#[derive(Drop)]
pub enum Statement {
    /// Makes the table.
    Table(TableSpec),
    /// Appends literal rows: a blind append.
    Insert { rows: LiteralRows },
    /// Reads all rows of the newest version.
    Select,
    /// Lets so many milliseconds pass.
    Wait(u64),
}
