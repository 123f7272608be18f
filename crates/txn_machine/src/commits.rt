//! The commits of a log, got one after another.
ghost use Rattle.std.specs.Prelude.{◌≡◌, ◌≤◌, ◌+◌, None};
ghost use Rattle.statement_calls.specs.Answered.{base_of};
ghost use Rattle.txn_machine.specs.Readers.{commits_of, kept_of};

use crate::Supported;
use crate::texts::apply_commit;
use call_phases::{Reader, Unread};
use edge_api::{Body, Name};
use op_types::ObjectFault;
use row_base::NoMemory;
use snapshot_replay::State;
use statement_calls::Kept;
use std::alloc::Global;
use table_rules::commit_name;

/// The commits from a version up to an end, which isn't among them, and the table before them.
#[derive(Drop)]
pub struct Commits {
    pub alloc: Global,
    pub at: u64,
    pub end: u64,
    pub table: State,
}

impl Reader for Commits {
    type Fault = ObjectFault;

    ghost use Rattle.txn_machine.specs.Readers.{wanted_commit, commits_left_of, commits_after};

    ghost wants = { wanted_commit };

    ghost left = { commits_left_of };

    ghost after = { commits_after };

    fn name(&self) -> Result<Option<Name>, NoMemory> {
        if self.at < self.end {
            Ok(Some(commit_name(self.alloc, self.at)?))
        } else {
            Ok(None)
        }
    }

    fn read(&mut self, body: Body) -> Result<(), Unread<ObjectFault>> {
        apply_commit(self.alloc, &mut self.table, self.at, &body)?;
        self.at += 1;
        Ok(())
    }
}

/// Where a load begins, and what is kept meanwhile.
#[derive(Drop)]
pub struct Base {
    pub commits: Commits,
    pub spare: Option<Kept>,
}

impl Base {
    /// A load of a version begins with the kept table, unless that is of a later version.
    pub fn make(alloc: Global, kept: Option<Kept>, read: Supported) -> Base
        ensures commits { commits_of result.commits ≡ (base_of kept read.version).commits }
        ensures spare { result.spare ≡ (base_of kept read.version).spare }
    {
        let end = read.version + 1;
        match kept {
            Some(kept) if kept.versions <= end => Base {
                commits: Commits {
                    alloc,
                    at: kept.versions,
                    end,
                    table: kept.state,
                },
                spare: None,
            },
            spare => Base {
                commits: Commits {
                    alloc,
                    at: 0,
                    end,
                    table: State::new(alloc),
                },
                spare,
            },
        }
    }
}

/// The first version whose commit is needed for a load of a version.
pub fn first_needed(kept: &Option<Kept>, read: Supported) -> u64
    ensures first { result ≡ (base_of kept.now read.version).commits.at }
    ensures bound { result ≤ read.version + 1 }
{
    match kept {
        Some(kept) if kept.versions <= read.version + 1 => kept.versions,
        _ => 0,
    }
}

/// What is kept after a load of a version.
pub fn kept_of(spare: Option<Kept>, read: Supported, table: State) -> Kept
    ensures { result ≡ kept_of spare read.version table }
{
    match spare {
        Some(kept) => kept,
        None => Kept {
            versions: read.version + 1,
            state: table,
        },
    }
}
