//! The commits of a log, got one after another.
ghost use Rattle.std.specs.Prelude.{◌≡◌, ◌≤◌, ◌+◌, List, Result, MatchResult, Ok};
ghost use Rattle.log_actions.specs.Commit.{actions_of, FaultOf};
ghost use Rattle.log_actions.specs.declared.action.Action.{Action as ActionValue};
ghost use Rattle.log_actions.specs.declared.fault.LogFault.{LogFault as FaultValue};
ghost use Rattle.snapshot_load.specs.Commits as spec;
ghost use Rattle.snapshot_load.specs.Readers.{commits_of, wanted_version, is_memory, IsUnread};

use crate::Supported;
use call_phases::{Reader, Unread};
use edge_api::{Body, Name};
use log_actions::{Action, LogFault, LogFaultKind, read_commit};
use log_state::State;
use row_base::NoMemory;
use std::alloc::Global;
use table_rules::commit_name;

/// The commits behind a table, up to a version.
#[derive(Drop)]
pub(crate) struct Commits {
    pub alloc: Global,
    pub last: Supported,
    pub table: State,
}

/// Whether a line is wrong only for want of memory.
fn is_memory(kind: &LogFaultKind) -> bool
    ensures { result ≡ is_memory kind.now }
{
    matches!(kind, LogFaultKind::NoMemory)
}

/// The fault of a text, or want of memory.
#[tactic(auto, using(crate::proofs::Faults::not_memory))]
fn unread(fault: LogFault) -> Unread<LogFault>
    ensures unread { (r : Result (List ActionValue) FaultValue) → FaultOf fault r → IsUnread r result }
{
    if is_memory(&fault.kind) {
        Unread::NoMemory
    } else {
        Unread::Bad(fault)
    }
}

/// The actions of a commit's text.
fn actions_in(alloc: Global, body: &Body) -> Result<Vec<Action>, Unread<LogFault>>
    ensures { MatchResult result (λ v. actions_of body.now ≡ Ok v.items) (IsUnread (actions_of body.now)) }
{
    match read_commit(alloc, body.as_bytes()) {
        Ok(actions) => Ok(actions),
        Err(fault) => Err(unread(fault)),
    }
}

impl Commits {
    /// The version whose commit is wanted next, if one is left.
    fn wanted_version(&self) -> Option<u64>
        ensures { result ≡ wanted_version self.now }
    {
        match self.table.version() {
            None => Some(0),
            Some(version) if version < self.last.version => Some(version + 1),
            Some(_) => None,
        }
    }
}

impl Reader for Commits {
    type Fault = LogFault;

    ghost use Rattle.snapshot_load.specs.Readers.{wanted_commit, commits_left_of, commits_after};

    ghost wants = { wanted_commit };

    ghost left = { commits_left_of };

    ghost after = { commits_after };

    fn name(&self) -> Result<Option<Name>, NoMemory> {
        match self.wanted_version() {
            Some(version) => Ok(Some(commit_name(self.alloc, version)?)),
            None => Ok(None),
        }
    }

    fn read(&mut self, body: Body) -> Result<(), Unread<LogFault>> {
        let Some(version) = self.wanted_version() else {
            unreachable!()
        };
        let actions = actions_in(self.alloc, &body)?;
        match self.table.apply(version, actions) {
            Ok(()) => Ok(()),
            Err(_) => Err(Unread::NoMemory),
        }
    }
}

/// Where a load begins, and the kept table, where it doesn't begin with it.
#[derive(Drop)]
pub(crate) struct Base {
    pub commits: Commits,
    pub spare: Option<State>,
}

/// The table before version 0.
fn no_table(alloc: Global) -> State
    ensures { result ≡ spec.no_table }
{
    State::new(alloc)
}

/// Whether a table is of this version or of an earlier one.
fn is_up_to(table: &State, version: u64) -> bool
    ensures { result ≡ spec.is_up_to version table.now.version }
{
    match table.version() {
        None => true,
        Some(of_table) => of_table <= version,
    }
}

impl Base {
    /// A load of a version begins with the kept table, unless that is of a later version.
    pub fn make(alloc: Global, kept: Option<State>, last: Supported) -> Base
        ensures commits { commits_of result.commits ≡ (spec.base_of kept last.version).commits }
        ensures spare { result.spare ≡ (spec.base_of kept last.version).spare }
    {
        match kept {
            Some(table) if is_up_to(&table, last.version) => Base {
                commits: Commits { alloc, last, table },
                spare: None,
            },
            spare => Base {
                commits: Commits {
                    alloc,
                    last,
                    table: no_table(alloc),
                },
                spare,
            },
        }
    }
}

/// The first version whose commit is needed for a load of a version.
pub(crate) fn first_needed(kept: &Option<State>, last: Supported) -> u64
    ensures first { result ≡ (spec.base_of kept.now last.version).commits.at }
    ensures bound { result ≤ last.version + 1 }
{
    let version = match kept {
        Some(table) => table.version(),
        None => None,
    };
    match version {
        Some(version) if version <= last.version => version + 1,
        _ => 0,
    }
}
