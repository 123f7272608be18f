//! How the attempts of a commit end.
ghost use Rattle.std.specs.Prelude.{◌≡◌};
ghost use Rattle.commit_attempts.specs.Faults as spec;

use crate::JudgeFault;
use edge_api::{Called, Name};
use log_actions::{Action, Feature, LogFault, LogFaultKind};
use row_base::{Items, Text};

/// A commit that landed.
#[derive(Drop)]
pub struct Landed {
    pub version: u64,
    /// How many puts were made, the one that landed among them.
    pub attempts: u32,
    /// The reading of the clock of the attempt that landed, in milliseconds.
    pub now: u64,
    /// The actions of the commits that won before it, one list for each, in order of version.
    pub winners: Items<Items<Action>>,
}

/// What the attempts hand back where a commit landed.
#[derive(Drop)]
pub struct Won<J> {
    pub judge: J,
    pub landed: Landed,
}

/// What the attempts hand back where none landed.
#[derive(Drop)]
pub struct Lost<J, C> {
    pub judge: J,
    pub fault: AttemptFault<C>,
}

/// Why the commit of a winner has no reading.
#[derive(Debug, Drop)]
pub enum WinnerFault {
    /// A line of it is wrong.
    Log(LogFault),
    /// Its value of this partition column has no reading.
    Value { name: Text },
}

/// Why no commit landed.
#[derive(Drop)]
pub enum AttemptFault<C> {
    /// The winner is the least one with a clash.
    Conflict { winner: u64, clash: C },
    /// As many puts as the limit were lost without a clash.
    TooManyAttempts { lost: u32 },
    /// Twice the time from the start to now, both in milliseconds, exceeds the retention.
    Outlasted { start: u64, now: u64 },
    /// The commit of a winner has no reading.
    BadObject { name: Name, fault: WinnerFault },
    /// A winner asks for this, which isn't supported.
    Unsupported { feature: Feature },
    /// The store answered this call by a fault.
    Fault { call: Called },
    /// The put and the reading back were both answered by a fault.
    OutcomeUnknown { version: u64 },
    NoMemory,
    /// A winner's commit isn't there.
    LogGone { name: Name },
    /// The text would have so many bytes, more than are written.
    TooLarge { bytes: u64 },
}

impl<C: Drop> AttemptFault<C> {
    /// The fault of a winner's commit that can't be read.
    pub(crate) fn of_commit(name: Name, fault: LogFault) -> AttemptFault<C>
        ensures { result ≡ spec.fault_of_commit name fault }
    {
        let LogFault { line, kind } = fault;
        match kind {
            LogFaultKind::Unsupported(feature) => AttemptFault::Unsupported { feature },
            LogFaultKind::NoMemory => AttemptFault::NoMemory,
            kind => AttemptFault::BadObject {
                name,
                fault: WinnerFault::Log(LogFault { line, kind }),
            },
        }
    }

    /// The fault of a winner's commit that can't be judged.
    pub(crate) fn of_judge(name: Name, fault: JudgeFault) -> AttemptFault<C>
        ensures { result ≡ spec.fault_of_judge name fault }
    {
        match fault {
            JudgeFault::Value { name: column } => AttemptFault::BadObject {
                name,
                fault: WinnerFault::Value { name: column },
            },
            JudgeFault::NoMemory => AttemptFault::NoMemory,
        }
    }
}
