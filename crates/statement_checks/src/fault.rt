//! Why literal rows don't fit.
ghost use Rattle.std.specs.Prelude.{◌≡◌};
ghost use Rattle.statement_checks.specs.declared.fault.RowsFault.TheVariants as fault;

use row_base::{OutOfMemory, Row, RowFault};

/// Why literal rows don't fit a schema.
#[derive(Debug, Drop)]
pub enum RowsFault {
    /// The first row that doesn't fit, as it came.
    Row { row: Row, fault: RowFault },
    /// Memory ran out.
    NoMemory,
}

impl<E: OutOfMemory> From<E> for RowsFault {
    ghost from_gives = { λ _ e. e ≡ fault.NoMemory };

    fn from(_refused: E) -> RowsFault {
        RowsFault::NoMemory
    }
}
