//! How far the attempts of a commit have come.
ghost use Rattle.std.specs.Prelude.{◌≡◌, ◌+◌, ◌-◌, ◌<◌, ◌≤◌, IfOk};
ghost use Rattle.row_base.specs.declared.limits.TheConstants.{LAST_TIME, MAX_ATTEMPTS, VERSION_LIMIT};
ghost use Rattle.table_rules.specs.Names.{commit_text};

use crate::AttemptFault;
use edge_api::{CallKind, Called, Name};
use row_base::NoMemory;
use std::alloc::Global;
use table_rules::commit_name;

/// The statement's start, the table's retention, both in milliseconds, the version of the first attempt, how
/// many attempts were lost, and how many may follow the one that is made.
#[derive(Clone, Copy, Drop)]
pub struct Progress {
    pub start: u64,
    pub retention: u64,
    pub first: u64,
    pub lost: u32,
    pub left: u32,
    pub ghost versions: { first ≤ VERSION_LIMIT },
    pub ghost limit: { lost + left < MAX_ATTEMPTS },
}

impl Progress {
    ghost use Rattle.commit_attempts.specs.Attempts.{outlasts};
    ghost use Rattle.commit_attempts.specs.Machine.{terms_of};

    /// The version of the attempt that is made.
    pub fn version(&self) -> u64
        ensures { result ≡ self.now.first + self.now.lost }
    {
        self.first + self.lost as u64
    }

    /// Whether twice the time since the start exceeds the retention.
    pub fn outlasts(&self, now: u64) -> bool
        requires { now ≤ LAST_TIME }
        ensures { result ≡ outlasts (terms_of self.now) now }
    {
        2 * now.saturating_sub(self.start) > self.retention
    }
}

/// The commit of an attempt.
#[derive(Drop)]
pub struct Commit {
    pub version: u64,
    pub name: Name,
    pub ghost named: { name ≡ commit_text version },
}

impl Commit {
    /// The commit of this version. The error is want of memory.
    pub fn make(alloc: Global, version: u64) -> Result<Commit, NoMemory>
        ensures { IfOk result (λ commit. commit.version ≡ version) }
    {
        let name = commit_name(alloc, version)?;
        Ok(Commit { version, name })
    }

    /// A call of this kind that speaks of the commit was answered by a fault.
    pub fn faulted<C>(self, kind: CallKind) -> AttemptFault<C>
        ensures { result ≡ AttemptFault.Fault (record { kind = kind; name = self.name }) }
    {
        let name = self.name;
        let call = Called { kind, name };
        AttemptFault::Fault { call }
    }
}
