//! Why a merge has no result.
ghost use Rattle.std.specs.Prelude.{◌≡◌};
ghost use Rattle.merge_op.specs.declared.fault.MergeFault.TheVariants as fault;
ghost use Rattle.merge_op.specs.Merges.{merge_fault};

use dml_ops::OpFault;
use row_base::{OutOfMemory, Row, RowFault};

/// Why a merge has no result. The row is one of the table: an ambiguous one comes before all others, and else the
/// least one of which nothing comes counts; of one row an overflow comes first.
#[derive(Debug, Drop)]
pub enum MergeFault {
    /// A value that is computed for this row leaves the range of its kind.
    Overflow { row: Row },
    /// The new row for this one does not fit the schema.
    Row { row: Row, fault: RowFault },
    /// Two rows of the source match this one, the least such row, and a clause changes matched rows.
    Ambiguous { row: Row },
    /// Memory ran out.
    NoMemory,
}

impl MergeFault {
    /// The fault of the least row of which nothing comes.
    pub(crate) fn of(fault: OpFault) -> MergeFault
        ensures { result ≡ merge_fault fault }
    {
        match fault {
            OpFault::Overflow { row } => MergeFault::Overflow { row },
            OpFault::Row { row, fault } => MergeFault::Row { row, fault },
            OpFault::NoMemory => MergeFault::NoMemory,
        }
    }
}

impl<E: OutOfMemory> From<E> for MergeFault {
    ghost from_gives = { λ _ e. e ≡ fault.NoMemory };

    fn from(_refused: E) -> MergeFault {
        MergeFault::NoMemory
    }
}
