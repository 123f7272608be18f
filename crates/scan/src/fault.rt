//! Why a scan fails.
ghost use Rattle.std.specs.Prelude.{◌≡◌};
ghost use Rattle.scan.specs.Faults as spec;
ghost use Rattle.scan.specs.declared.fault.ScanFault.TheVariants as faults;

use call_phases::GetFault;
use edge_api::{Called, Name};
use log_actions::Feature;
use parquet_meta::FileFault;
use prune::PartitionFault;
use row_base::{OutOfMemory, Text};
use schema_text::SchemaTextFault;

/// Why a live file can't be read.
#[derive(Debug, Drop)]
pub enum ScanBad {
    /// Its bytes have this fault.
    File(FileFault),
    /// Its value of the partition column of this name has no reading.
    Value { name: Text },
}

/// Why a scan has no result.
#[derive(Drop)]
pub enum ScanFault {
    /// A live file isn't there.
    FileGone { name: Name },
    /// A live file can't be read.
    BadObject { name: Name, fault: ScanBad },
    /// A file asks for what isn't supported.
    Unsupported { feature: Feature },
    /// The store answered this call by a fault.
    Fault { call: Called },
    /// Memory ran out.
    NoMemory,
}

impl<E: OutOfMemory> From<E> for ScanFault {
    ghost from_gives = { λ _ e. e ≡ faults.NoMemory };

    fn from(_refused: E) -> ScanFault {
        ScanFault::NoMemory
    }
}

/// A file under this name whose values of partition columns have no reading.
pub(crate) fn of_values(name: Name, fault: SchemaTextFault) -> ScanFault
    ensures { result ≡ spec.of_values name fault }
{
    match fault {
        SchemaTextFault::Value { name: column } => ScanFault::BadObject {
            name,
            fault: ScanBad::Value { name: column },
        },
        _ => ScanFault::NoMemory,
    }
}

/// The same of a file that has no facts.
pub(crate) fn of_facts(name: Name, fault: PartitionFault) -> ScanFault
    ensures { result ≡ spec.of_facts name fault }
{
    match fault {
        PartitionFault::Value { name: column } => ScanFault::BadObject {
            name,
            fault: ScanBad::Value { name: column },
        },
        PartitionFault::NoMemory => ScanFault::NoMemory,
    }
}

/// A file under this name whose bytes have this fault: what isn't supported is named, else the fault.
fn of_file(name: Name, fault: FileFault) -> ScanFault
    ensures { result ≡ spec.of_file name fault }
{
    let feature = match fault {
        FileFault::Codec { codec } => Feature::Codec { codec },
        FileFault::Encoding { encoding } => Feature::Encoding { encoding },
        FileFault::PageKind { kind } => Feature::PageKind { kind },
        FileFault::Physical { column } => Feature::ColumnType { name: column },
        FileFault::Nested => Feature::NestedColumns,
        FileFault::NoMemory => return ScanFault::NoMemory,
        fault => {
            return ScanFault::BadObject {
                name,
                fault: ScanBad::File(fault),
            };
        }
    };
    ScanFault::Unsupported { feature }
}

/// Why a scan has no result, by how its gets failed.
pub(crate) fn of_get(fault: GetFault<FileFault>) -> ScanFault
    ensures { result ≡ spec.of_get fault }
{
    match fault {
        GetFault::Fault { call } => ScanFault::Fault { call },
        GetFault::Missing { name } => ScanFault::FileGone { name },
        GetFault::Bad { name, fault } => of_file(name, fault),
        GetFault::NoMemory => ScanFault::NoMemory,
    }
}
