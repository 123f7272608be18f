//! Statements over a table.
use statement_types::{LiteralRows, TableSpec};

/// What a statement does once the log is listed.
#[derive(Drop)]
pub enum OverTable {
    /// The table is made.
    Make(TableSpec),
    /// The newest version is loaded first.
    Load(LoadedStatement),
}

/// What a statement does once the table is loaded.
#[derive(Drop)]
pub enum LoadedStatement {
    /// Rows are appended.
    Insert { rows: LiteralRows },
    /// All rows are read.
    Select,
}
