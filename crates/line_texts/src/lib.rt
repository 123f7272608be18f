//! The texts of commits and data files, line by line, both ways.
#![tactic(auto)]

mod numbers;
mod pieces;
mod read;
mod write;

ghost use Rattle.std.specs.Prelude.{◌≡◌};
ghost use Rattle.line_texts.specs.Laws.{ColumnsReadBack, PathReadsBack, RowsReadBack, ColumnsAreWritten, PathIsWritten, RowsAreWritten};

pub use read::{read_add, read_columns, read_rows};
use row_base::OutOfMemory;
pub use write::{are_long_rows, write_add, write_columns, write_rows};

/// Why a text has no reading.
#[derive(Clone, Copy, Debug, Drop, PartialEq, Eq)]
pub enum TextFault {
    /// The first bad line, counted from 1.
    Line(u32),
    NoMemory,
}

impl<E: OutOfMemory> From<E> for TextFault {
    ghost use Rattle.std.specs.Prelude.{◌≡◌};
    ghost use Rattle.line_texts.specs.declared.TextFault.TheVariants.{NoMemory};

    ghost from_gives = { λ _ e. e ≡ NoMemory };

    fn from(_refused: E) -> TextFault {
        TextFault::NoMemory
    }
}

/// Each text that is written of words, of a path or of rows of numbers reads back, and a text that reads is the one
/// that is written of what it reads as.
pub fn texts_read_back()
    ensures columns_back { ColumnsReadBack }
    ensures path_back { PathReadsBack }
    ensures rows_back { RowsReadBack }
    ensures columns_written { ColumnsAreWritten }
    ensures path_written { PathIsWritten }
    ensures rows_written { RowsAreWritten }
{}
