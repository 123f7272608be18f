//! What is known of the rows of a data file.
ghost use Rattle.std.specs.Prelude.{◌≡◌};
ghost use Rattle.file_stats.specs.Columns.{no_stats};

use row_base::{Datum, Items};

/// What is known of a data file: an absent fact isn't known.
#[derive(Debug, Drop)]
pub struct Stats {
    /// How many rows it has.
    pub count: Option<u64>,
    /// Of each column of the schema. Of a partition column, whose value the log has, nothing is known here.
    pub columns: Items<ColumnStats>,
}

/// What is known of the values of a column.
#[derive(Debug, Drop)]
pub struct ColumnStats {
    /// How many are null.
    pub nulls: Option<u64>,
    /// At most each value that isn't null.
    pub least: Option<Datum>,
    /// At least each value that isn't null.
    pub greatest: Option<Datum>,
}

impl ColumnStats {
    /// Nothing is known.
    pub(crate) fn nothing() -> ColumnStats
        ensures { result ≡ no_stats }
    {
        ColumnStats {
            nulls: None,
            least: None,
            greatest: None,
        }
    }
}
