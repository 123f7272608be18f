//! What statements do to rows: as a script names it, with `Text` for a column, and bound to the places of a schema's
//! columns, with `u32`.

use predicates::{Expr, Pred};
use row_base::{Items, Rows, Schema};

/// The rows that a statement is about: those for which the predicate is `Yes`.
pub type Scope = Pred<u32>;

/// A column, and the expression whose value it is set to.
#[derive(Drop)]
pub struct SetTo<C> {
    pub column: C,
    pub value: Expr<C>,
}

/// What becomes of a row.
#[derive(Drop)]
pub enum Change<C> {
    /// These columns are set, each column at most once. All expressions see the row as it was.
    Update(Items<SetTo<C>>),
    /// It is taken away.
    Delete,
}

/// What becomes of the rows of the table that no row of the source matches, where the predicate is `Yes`.
#[derive(Drop)]
pub struct BySource<C> {
    pub pred: Pred<C>,
    pub change: Change<C>,
}

/// A merge of the rows of a source into a table. A row of the table matches one of the source where each key column is
/// equal and null in neither.
#[derive(Drop)]
pub struct MergeSpec<C> {
    /// The key columns, each once.
    pub keys: Items<C>,
    /// The rows of the source, which have the table's columns.
    pub source: Rows,
    /// What becomes of a row that a row of the source matches. The expressions of an update see that one too.
    pub matched: Option<Change<C>>,
    /// Whether the source's rows that match no row of the table are added.
    pub insert: bool,
    pub by_source: Option<BySource<C>>,
}

/// A merge whose columns are places.
pub type MergeOp = MergeSpec<u32>;

/// A statement that changes the rows of its scope one by one. Its columns are places.
#[derive(Drop)]
pub enum RowOp {
    /// The rows are taken away.
    Delete {
        pred: Scope,
    },
    /// Columns of the rows are set, each column at most once. All expressions see the row as it was.
    Update {
        pred: Scope,
        sets: Items<SetTo<u32>>,
        schema: Schema,
    },
    /// For each of the rows the row of these expressions is added, one expression for each column.
    InsertSelect {
        pred: Scope,
        exprs: Items<Expr<u32>>,
        schema: Schema,
    },
}
