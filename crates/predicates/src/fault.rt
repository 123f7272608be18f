//! Why a predicate or an expression does not fit a schema.
ghost use Rattle.std.specs.Prelude.{◌≡◌};
ghost use Rattle.predicates.specs.declared.fault.BindFault.TheVariants as fault;

use row_base::{OutOfMemory, Text};

/// Why a part of a statement does not fit the schema of its table.
#[derive(Debug, Drop)]
pub enum BindFault {
    /// The table has no column of this name.
    Column { name: Text },
    /// What the column of this name is compared with, or set to, is of another kind, or a number out of its range.
    Kind { name: Text },
    /// The column of this name stands twice where it may stand once.
    Twice { name: Text },
    /// There are more or fewer parts than columns.
    Count,
    /// There is no property of this key, or its value is none that it takes.
    Property { key: Text },
    /// The property of this key cannot be changed.
    Fixed { key: Text },
    /// Memory ran out.
    NoMemory,
}

impl<E: OutOfMemory> From<E> for BindFault {
    ghost from_gives = { λ _ e. e ≡ fault.NoMemory };

    fn from(_refused: E) -> BindFault {
        BindFault::NoMemory
    }
}
