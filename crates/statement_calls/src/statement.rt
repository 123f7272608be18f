//! Statements over a table that is there.
use row_base::Rows;

/// What a statement does once the table is loaded.
#[derive(Drop)]
pub enum TableStatement {
    /// Rows are appended.
    Insert { rows: Rows },
    /// All rows are read.
    Select,
}
