//! Why a file has no facts.
ghost use Rattle.std.specs.Prelude.{◌≡◌};
ghost use Rattle.prune.specs.declared.fault.PartitionFault.TheVariants as faults;
ghost use Rattle.prune.specs.Known.{fault_of};

use row_base::{NoMemory, Text};
use schema_text::SchemaTextFault;

/// Why what the log says of a file could not be taken as facts.
#[derive(Debug, Drop)]
pub enum PartitionFault {
    /// The value of the partition column of this name has no reading.
    Value { name: Text },
    /// Memory ran out.
    NoMemory,
}

impl From<NoMemory> for PartitionFault {
    ghost from_gives = { λ _ e. e ≡ faults.NoMemory };

    fn from(_refused: NoMemory) -> PartitionFault {
        PartitionFault::NoMemory
    }
}

/// The fault of a row of partition values.
pub(crate) fn partition_fault(fault: SchemaTextFault) -> PartitionFault
    ensures { result ≡ fault_of fault }
{
    match fault {
        SchemaTextFault::Value { name } => PartitionFault::Value { name },
        _ => PartitionFault::NoMemory,
    }
}
