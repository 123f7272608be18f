//! Why there is no table loaded.
ghost use Rattle.std.specs.Prelude.{◌≡◌};
ghost use Rattle.snapshot_load.specs.Faults as spec;

use call_phases::GetFault;
use edge_api::{Called, Name};
use log_actions::{Feature, LogFault, LogFaultKind};
use log_state::State;

/// Why a load has no table.
#[derive(Drop)]
pub enum LoadFault {
    /// No commit is listed.
    NoTable,
    /// A commit that is needed isn't there.
    LogGone { name: Name },
    /// A commit's bytes have no reading.
    BadObject { name: Name, fault: LogFault },
    /// The table asks for this, which isn't supported.
    Unsupported { feature: Feature },
    /// The store answered this call by a fault.
    Fault { call: Called },
    NoMemory,
}

/// What a load that failed hands back.
#[derive(Drop)]
pub struct LoadFailed {
    pub fault: LoadFault,
    /// The table that was handed in, unless the load began with it.
    pub kept: Option<State>,
}

impl LoadFault {
    /// The fault of a commit without a reading.
    fn of_commit(name: Name, fault: LogFault) -> LoadFault
        ensures { result ≡ spec.fault_of_commit name fault }
    {
        let LogFault { line, kind } = fault;
        match kind {
            LogFaultKind::Unsupported(feature) => LoadFault::Unsupported { feature },
            kind => LoadFault::BadObject {
                name,
                fault: LogFault { line, kind },
            },
        }
    }

    /// The fault of the gets of commits.
    pub(crate) fn of_gets(fault: GetFault<LogFault>) -> LoadFault
        ensures { result ≡ spec.fault_of_gets fault }
    {
        match fault {
            GetFault::Fault { call } => LoadFault::Fault { call },
            GetFault::Missing { name } => LoadFault::LogGone { name },
            GetFault::Bad { name, fault } => LoadFault::of_commit(name, fault),
            GetFault::NoMemory => LoadFault::NoMemory,
        }
    }
}
