//! Why a statement is refused.
ghost use Rattle.std.specs.Prelude.{◌≡◌, IfOk};

use edge_api::{Called, Name};
use log_actions::{Feature, LogFaultKind};
use predicates::BindFault;
use row_base::{NoMemory, Row, Text};
use std::alloc::Global;

/// Why an object's bytes have no reading, or why what was loaded can't be used.
#[derive(Debug, Drop)]
pub enum ObjectFault {
    /// The first bad line, counted from 1.
    Line { line: u32, kind: LogFaultKind },
    /// The commits make no table that can be read: there is no protocol, no metadata or no schema in it.
    Table,
    /// The file is too short, or too long.
    Short,
    /// The file's first or last bytes aren't those of its format (Parquet, "File Format").
    Magic,
    /// The footer isn't within the file.
    Footer,
    /// The byte at which a structure has no reading (Thrift compact protocol).
    Thrift { at: usize },
    /// The column of this name isn't stored as the format says.
    Shape { name: Text },
    /// The byte at which a page begins that has no reading.
    Page { at: usize },
    /// The value of the partition column of this name has no reading.
    Value { name: Text },
}

impl ObjectFault {
    /// The same fault. The error is want of memory.
    pub fn copy(&self) -> Result<ObjectFault, NoMemory>
        ensures { IfOk result (λ f. f ≡ self.now) }
    {
        match self {
            ObjectFault::Line { line, kind } => Ok(ObjectFault::Line {
                line: *line,
                kind: kind.copy()?,
            }),
            ObjectFault::Table => Ok(ObjectFault::Table),
            ObjectFault::Short => Ok(ObjectFault::Short),
            ObjectFault::Magic => Ok(ObjectFault::Magic),
            ObjectFault::Footer => Ok(ObjectFault::Footer),
            ObjectFault::Thrift { at } => Ok(ObjectFault::Thrift { at: *at }),
            ObjectFault::Shape { name } => Ok(ObjectFault::Shape { name: name.copy()? }),
            ObjectFault::Page { at } => Ok(ObjectFault::Page { at: *at }),
            ObjectFault::Value { name } => Ok(ObjectFault::Value { name: name.copy()? }),
        }
    }
}

/// Why a row doesn't fit the columns of its table.
#[derive(Debug, Drop)]
pub enum RowWrong {
    /// It has more or fewer data than there are columns.
    Count,
    /// The datum for the column of this name is of another kind, or a number out of its range.
    Kind { name: Text },
    /// There is no datum for the column of this name, which has to have one.
    Null { name: Text },
    /// The column of this name is a partition column, whose text can't be empty.
    EmptyPartition { name: Text },
}

impl RowWrong {
    /// The same fault. The error is want of memory.
    pub fn copy(&self) -> Result<RowWrong, NoMemory>
        ensures { IfOk result (λ f. f ≡ self.now) }
    {
        match self {
            RowWrong::Count => Ok(RowWrong::Count),
            RowWrong::Kind { name } => Ok(RowWrong::Kind { name: name.copy()? }),
            RowWrong::Null { name } => Ok(RowWrong::Null { name: name.copy()? }),
            RowWrong::EmptyPartition { name } => {
                Ok(RowWrong::EmptyPartition { name: name.copy()? })
            }
        }
    }
}

/// Why a commit that won stands against a statement.
#[derive(Clone, Copy, Debug, Drop, PartialEq, Eq)]
pub enum Clash {
    /// It sets the protocol; for a statement that makes the table, any winner does.
    Protocol,
}

/// The same fault of a statement.
fn copy_of_fault(fault: &BindFault) -> Result<BindFault, NoMemory>
    ensures { IfOk result (λ f. f ≡ fault.now) }
{
    match fault {
        BindFault::Column { name } => Ok(BindFault::Column { name: name.copy()? }),
        BindFault::Kind { name } => Ok(BindFault::Kind { name: name.copy()? }),
        BindFault::Twice { name } => Ok(BindFault::Twice { name: name.copy()? }),
        BindFault::Count => Ok(BindFault::Count),
        BindFault::Property { key } => Ok(BindFault::Property { key: key.copy()? }),
        BindFault::Fixed { key } => Ok(BindFault::Fixed { key: key.copy()? }),
        BindFault::NoMemory => Ok(BindFault::NoMemory),
    }
}

/// Why a statement is refused. After each of these but `OutcomeUnknown`, and but `NoMemory` where the commit's put
/// was answered by a fault, the statement has committed no version.
#[derive(Drop)]
pub enum Refusal {
    /// No commit is listed.
    NoTable,
    /// A commit is listed where the table should be made.
    TableThere,
    /// The first literal row that doesn't fit the table's columns, as it stands in the statement.
    Row { row: Row, fault: RowWrong },
    /// The least winner with a clash, a version, and its clash.
    Conflict { winner: u64, clash: Clash },
    /// As many commit puts as the limit were lost without a clash.
    TooManyAttempts { lost: u32 },
    /// Twice the time from the start to now, in milliseconds, exceeds the retention.
    Outlasted { start: u64, now: u64 },
    /// A data file isn't there.
    FileGone { name: Name },
    /// The name of a new data file isn't free.
    NameTaken { name: Name },
    /// The bytes of an object have no reading.
    BadObject { name: Name, fault: ObjectFault },
    /// An object, a listing or a table names a feature that isn't supported.
    Unsupported { feature: Feature },
    /// The store answered this call by a fault.
    Fault { call: Called },
    /// The commit's put and its reading back were both answered by a fault.
    OutcomeUnknown { version: u64 },
    NoMemory,
    /// A needed commit isn't listed, or isn't there.
    LogGone { name: Name },
    /// A name, a kind, a count or a property of the statement is wrong: the first one from the left.
    BadStatement { fault: BindFault },
    /// The commit's text would have so many bytes, more than are written.
    TooLarge { bytes: u64 },
}

impl Refusal {
    /// The same refusal. The error is want of memory.
    pub fn copy(&self, alloc: Global) -> Result<Refusal, NoMemory>
        ensures { IfOk result (λ r. r ≡ self.now) }
    {
        match self {
            Refusal::NoTable => Ok(Refusal::NoTable),
            Refusal::TableThere => Ok(Refusal::TableThere),
            Refusal::Row { row, fault } => Ok(Refusal::Row {
                row: row.copy(alloc)?,
                fault: fault.copy()?,
            }),
            Refusal::Conflict { winner, clash } => Ok(Refusal::Conflict {
                winner: *winner,
                clash: *clash,
            }),
            Refusal::TooManyAttempts { lost } => Ok(Refusal::TooManyAttempts { lost: *lost }),
            Refusal::Outlasted { start, now } => Ok(Refusal::Outlasted {
                start: *start,
                now: *now,
            }),
            Refusal::FileGone { name } => Ok(Refusal::FileGone { name: name.copy()? }),
            Refusal::NameTaken { name } => Ok(Refusal::NameTaken { name: name.copy()? }),
            Refusal::BadObject { name, fault } => Ok(Refusal::BadObject {
                name: name.copy()?,
                fault: fault.copy()?,
            }),
            Refusal::Unsupported { feature } => Ok(Refusal::Unsupported {
                feature: feature.copy()?,
            }),
            Refusal::Fault { call } => Ok(Refusal::Fault { call: call.copy()? }),
            Refusal::OutcomeUnknown { version } => {
                Ok(Refusal::OutcomeUnknown { version: *version })
            }
            Refusal::NoMemory => Ok(Refusal::NoMemory),
            Refusal::LogGone { name } => Ok(Refusal::LogGone { name: name.copy()? }),
            Refusal::BadStatement { fault } => Ok(Refusal::BadStatement {
                fault: copy_of_fault(fault)?,
            }),
            Refusal::TooLarge { bytes } => Ok(Refusal::TooLarge { bytes: *bytes }),
        }
    }
}
