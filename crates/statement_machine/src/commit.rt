//! The commit of a statement is attempted.
ghost use Rattle.std.specs.Prelude.{◌≡◌, ◌<◌, is_none, IfSome};
ghost use Rattle.row_base.specs.declared.limits.TheConstants.{VERSION_LIMIT};
ghost use Rattle.commit_attempts.specs.Machine.{first_after};
ghost use Rattle.statement_steps.specs.Bounds.{most_attempts};
ghost use Rattle.statement_steps.specs.Answered.{AtCommit};
ghost use Rattle.statement_machine.specs.Machine.{landed_after, GoesOn};

use crate::faults::refusal_of_attempt;
use crate::{Plan, Stage};
use call_phases::{Ready, Step, go};
use commit_attempts::{Attempts, Landed, Lost, Won};
use commit_plans::CommitPlan;
use log_state::State;
use statement_steps::{CommitJudge, Finish};
use statement_types::{CheckpointOutcome, Clash, Reply};

/// The commit is attempted, and then the reply is there. A table is made without a version that was read.
#[derive(Drop)]
pub struct CommitStep {
    pub read: Option<u64>,
    pub kept: Option<State>,
}

/// The reply once the commit has landed.
fn landed_after(read: Option<u64>, landed: Landed) -> Reply
    ensures { result ≡ landed_after read landed }
{
    match read {
        None => Reply::Created,
        Some(read) => Reply::Committed {
            version: landed.version,
            read,
            attempts: landed.attempts,
            checkpoint: CheckpointOutcome::NotDue,
        },
    }
}

impl Step for CommitStep {
    type Part = Attempts<CommitJudge>;

    type Stage = Stage;

    ghost use Rattle.statement_machine.specs.Machine.{ByAttempt, NextCommit};

    ghost fails = { λ s. ByAttempt s.kept };

    ghost next = { NextCommit };

    ghost most = { λ s. 0 };

    fn stand(self, attempts: Attempts<CommitJudge>) -> Stage {
        Stage::Commit(self, attempts)
    }

    fn done(self, won: Won<CommitJudge>) -> Ready<Stage> {
        Stage::done(Finish {
            reply: landed_after(self.read, won.landed),
            kept: self.kept,
        })
    }

    fn failed(self, lost: Lost<CommitJudge, Clash>) -> Ready<Stage> {
        Stage::refused(self.kept, refusal_of_attempt(lost.fault))
    }
}

impl CommitStep {
    /// The commit of this plan is attempted, from the version after the read one on, for a statement with this start, over
    /// a table of this retention, both in milliseconds.
    pub fn begin(
        plan: Plan,
        commit: CommitPlan,
        kept: Option<State>,
        start: u64,
        retention: u64,
        read: Option<u64>,
    ) -> Ready<Stage>
        requires { IfSome read (λ version. version < VERSION_LIMIT) }
        ensures { GoesOn most_attempts (λ out. AtCommit plan.tag plan.limit out kept (record { start = start; retention = retention; first = first_after read })
            (record { plan = commit; makes_table = is_none read }) (landed_after read)) result }
    {
        let judge = CommitJudge {
            alloc: plan.alloc,
            plan: commit,
            makes_table: read.is_none(),
        };
        let attempts = Attempts::new(plan.alloc, judge, start, retention, read, plan.limit);
        go(CommitStep { read, kept }, attempts)
    }
}
