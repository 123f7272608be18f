//! Why a change of rows has no result.
ghost use Rattle.std.specs.Prelude.{◌≡◌};
ghost use Rattle.dml_ops.specs.declared.fault.ImageFault.TheVariants as image;
ghost use Rattle.dml_ops.specs.declared.fault.OpFault.TheVariants as op;
ghost use Rattle.dml_ops.specs.Outcomes.{op_fault};

use row_base::{OutOfMemory, Row, RowFault};

/// What is wrong with what comes of a row.
#[derive(Clone, Copy, Drop)]
pub enum Wrong {
    /// A sum, difference or product leaves the range of its kind.
    Overflow,
    /// The new row does not fit the schema.
    Misfit(RowFault),
}

/// Why nothing comes of a row.
#[derive(Clone, Copy, Drop)]
pub enum ImageFault {
    Wrong(Wrong),
    NoMemory,
}

/// A row of the table of which nothing comes, and what is wrong.
#[derive(Drop)]
pub struct WrongRow {
    pub row: Row,
    pub wrong: Wrong,
}

/// Why a change of a file's rows has no result. The row is the least one of the file of which nothing comes, as it
/// stands in the file; of one row an overflow comes first.
#[derive(Debug, Drop)]
pub enum OpFault {
    /// A value that is computed for this row leaves the range of its kind.
    Overflow { row: Row },
    /// The new row for this one does not fit the schema.
    Row { row: Row, fault: RowFault },
    /// Memory ran out.
    NoMemory,
}

impl<E: OutOfMemory> From<E> for ImageFault {
    ghost from_gives = { λ _ e. e ≡ image.NoMemory };

    fn from(_refused: E) -> ImageFault {
        ImageFault::NoMemory
    }
}

impl From<WrongRow> for OpFault {
    ghost from_gives = { λ row e. e ≡ op_fault row };

    fn from(wrong: WrongRow) -> OpFault {
        let WrongRow { row, wrong } = wrong;
        match wrong {
            Wrong::Overflow => OpFault::Overflow { row },
            Wrong::Misfit(fault) => OpFault::Row { row, fault },
        }
    }
}

impl<E: OutOfMemory> From<E> for OpFault {
    ghost from_gives = { λ _ e. e ≡ op.NoMemory };

    fn from(_refused: E) -> OpFault {
        OpFault::NoMemory
    }
}
