//! Why a text has no reading.
ghost use Rattle.std.specs.Prelude.{◌≡◌};
ghost use Rattle.schema_text.specs.declared.fault.SchemaTextFault.TheVariants as faults;

use json_lines::ShapeFault;
use row_base::{NoMemory, Text};
use std::alloc::{AllocError, AllocFailed};

/// Why the text of a schema, or the values of a file's partition columns, have no reading.
#[derive(Debug, Drop)]
pub enum SchemaTextFault {
    /// The text is no JSON text of a schema that a table can have.
    Shape,
    /// The type of this column is none that is supported.
    Kind { name: Text },
    /// This column has an invariant.
    Invariant { name: Text },
    /// The value of this partition column is none of its kind, or null where none may stand.
    Value { name: Text },
    /// Memory ran out.
    NoMemory,
}

impl From<NoMemory> for SchemaTextFault {
    ghost from_gives = { λ _ e. e ≡ faults.NoMemory };

    fn from(_refused: NoMemory) -> SchemaTextFault {
        SchemaTextFault::NoMemory
    }
}

impl From<AllocError> for SchemaTextFault {
    ghost from_gives = { λ _ e. e ≡ faults.NoMemory };

    fn from(_refused: AllocError) -> SchemaTextFault {
        SchemaTextFault::NoMemory
    }
}

impl<T: Drop> From<AllocFailed<T>> for SchemaTextFault {
    ghost from_gives = { λ _ e. e ≡ faults.NoMemory };

    fn from(_refused: AllocFailed<T>) -> SchemaTextFault {
        SchemaTextFault::NoMemory
    }
}

impl From<ShapeFault> for SchemaTextFault {
    ghost use Rattle.schema_text.specs.Faults.{fault_of};

    ghost from_gives = { λ s e. e ≡ fault_of s };

    fn from(fault: ShapeFault) -> SchemaTextFault {
        match fault {
            ShapeFault::Shape => SchemaTextFault::Shape,
            ShapeFault::NoMemory => SchemaTextFault::NoMemory,
        }
    }
}
