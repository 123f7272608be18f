//! Replies of statements.
ghost use Rattle.std.specs.Prelude.{◌≡◌, IfOk};

use crate::Refusal;
use row_base::{Items, NoMemory, Rows};
use std::alloc::Global;

/// What became of the checkpoint after a commit.
#[derive(Clone, Copy, Debug, Drop, PartialEq, Eq)]
pub enum CheckpointOutcome {
    /// None was due.
    NotDue,
    /// It was written, and the hint that names it.
    Written,
    /// The store answered one of its puts by a fault.
    Fault,
    /// Its name was taken.
    Taken,
    /// Its text would be too large.
    TooLarge,
    NoMemory,
}

/// The reply of a statement.
#[derive(Drop)]
pub enum Reply {
    /// The table was made at version 0.
    Created,
    /// A version was committed, from the version that was read, by so many puts.
    Committed {
        version: u64,
        read: u64,
        attempts: u32,
        checkpoint: CheckpointOutcome,
    },
    /// The rows of a version, in order, and how many of its live files were read.
    Rows {
        version: u64,
        rows: Rows,
        files_read: u64,
        files_live: u64,
    },
    /// The time to wait has passed.
    Waited,
    /// The session ended before the statement had a reply.
    Killed,
    Refused(Refusal),
}

impl Reply {
    /// The same reply. The error is want of memory.
    pub fn copy(&self, alloc: Global) -> Result<Reply, NoMemory>
        ensures { IfOk result (λ r. r ≡ self.now) }
    {
        match self {
            Reply::Created => Ok(Reply::Created),
            Reply::Committed {
                version,
                read,
                attempts,
                checkpoint,
            } => Ok(Reply::Committed {
                version: *version,
                read: *read,
                attempts: *attempts,
                checkpoint: *checkpoint,
            }),
            Reply::Rows {
                version,
                rows,
                files_read,
                files_live,
            } => Ok(Reply::Rows {
                version: *version,
                rows: rows.copy(alloc)?,
                files_read: *files_read,
                files_live: *files_live,
            }),
            Reply::Waited => Ok(Reply::Waited),
            Reply::Killed => Ok(Reply::Killed),
            Reply::Refused(refusal) => Ok(Reply::Refused(refusal.copy(alloc)?)),
        }
    }
}

/// The replies of a session's statements, in order.
pub type SessionReplies = Items<Reply>;
