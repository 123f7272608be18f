//! Why a statement is refused.
ghost use Rattle.std.specs.Prelude.{◌≡◌, IfOk};

use edge_api::{Called, Name};
use log_actions::{Feature, LogFaultKind};
use row_base::NoMemory;

/// Why an object's bytes have no reading.
#[derive(Debug, Drop)]
pub enum ObjectFault {
    /// The first bad line, counted from 1.
    Line { line: u32, kind: LogFaultKind },
}

impl ObjectFault {
    /// The same fault. The error is want of memory.
    pub fn copy(&self) -> Result<ObjectFault, NoMemory>
        ensures { IfOk result (λ f. f ≡ self.now) }
    {
        match self {
            ObjectFault::Line { line, kind } => Ok(ObjectFault::Line {
                line: *line,
                kind: kind.copy()?,
            }),
        }
    }
}

/// Why a commit that won stands against a statement.
#[derive(Clone, Copy, Debug, Drop, PartialEq, Eq)]
pub enum Clash {
    /// It sets the protocol; for a statement that makes the table, any winner does.
    Protocol,
}

/// Why a statement is refused. After each of these but `OutcomeUnknown`, and but `NoMemory` where the commit's put
/// was answered by a fault, the statement has committed no version.
#[derive(Drop)]
pub enum Refusal {
    /// No commit is listed.
    NoTable,
    /// A commit is listed where the table should be made.
    TableThere,
    /// The least winner with a clash, a version, and its clash.
    Conflict { winner: u64, clash: Clash },
    /// As many commit puts as the limit were lost without a clash.
    TooManyAttempts { lost: u32 },
    /// Twice the time from the start to now, in milliseconds, exceeds the retention.
    Outlasted { start: u64, now: u64 },
    /// A data file isn't there.
    FileGone { name: Name },
    /// The name of a new data file isn't free.
    NameTaken { name: Name },
    /// The bytes of an object have no reading.
    BadObject { name: Name, fault: ObjectFault },
    /// An object or a listing names a feature that isn't supported.
    Unsupported { feature: Feature },
    /// The store answered this call by a fault.
    Fault { call: Called },
    /// The commit's put and its reading back were both answered by a fault.
    OutcomeUnknown { version: u64 },
    NoMemory,
    /// A needed commit isn't listed, or isn't there.
    LogGone { name: Name },
    /// The commit's text would have so many bytes, more than are written.
    TooLarge { bytes: u64 },
}

impl Refusal {
    /// The same refusal. The error is want of memory.
    pub fn copy(&self) -> Result<Refusal, NoMemory>
        ensures { IfOk result (λ r. r ≡ self.now) }
    {
        match self {
            Refusal::NoTable => Ok(Refusal::NoTable),
            Refusal::TableThere => Ok(Refusal::TableThere),
            Refusal::Conflict { winner, clash } => Ok(Refusal::Conflict {
                winner: *winner,
                clash: *clash,
            }),
            Refusal::TooManyAttempts { lost } => Ok(Refusal::TooManyAttempts { lost: *lost }),
            Refusal::Outlasted { start, now } => Ok(Refusal::Outlasted {
                start: *start,
                now: *now,
            }),
            Refusal::FileGone { name } => Ok(Refusal::FileGone { name: name.copy()? }),
            Refusal::NameTaken { name } => Ok(Refusal::NameTaken { name: name.copy()? }),
            Refusal::BadObject { name, fault } => Ok(Refusal::BadObject {
                name: name.copy()?,
                fault: fault.copy()?,
            }),
            Refusal::Unsupported { feature } => Ok(Refusal::Unsupported {
                feature: feature.copy()?,
            }),
            Refusal::Fault { call } => Ok(Refusal::Fault { call: call.copy()? }),
            Refusal::OutcomeUnknown { version } => {
                Ok(Refusal::OutcomeUnknown { version: *version })
            }
            Refusal::NoMemory => Ok(Refusal::NoMemory),
            Refusal::LogGone { name } => Ok(Refusal::LogGone { name: name.copy()? }),
            Refusal::TooLarge { bytes } => Ok(Refusal::TooLarge { bytes: *bytes }),
        }
    }
}
