//! The commit of a statement is attempted.
ghost use Rattle.std.specs.Prelude.{◌≡◌, ◌<◌, is_none, IfSome};
ghost use Rattle.committer.specs.Machine.{first_after};
ghost use Rattle.statement_calls.specs.Bounds.{version_limit, most_attempts};
ghost use Rattle.statement_calls.specs.Outcome.{refusal_of_attempt};
ghost use Rattle.statement_calls.specs.Answered.{AtCommit};
ghost use Rattle.txn_machine.specs.Machine.{landed_after, GoesOn};

use crate::{CommitJudge, Plan, Stage};
use call_phases::{Ready, Step, go};
use committer::{AttemptFault, Attempts, Landed, Lost, Won};
use edge_api::Body;
use op_types::{CheckpointOutcome, Clash, Refusal, Reply};
use statement_calls::{Finish, Kept};
use table_rules::DEFAULT_RETENTION;

/// The commit is attempted, and then the reply is there. A table is made without a version that was read.
#[derive(Drop)]
pub struct CommitStep {
    pub read: Option<u64>,
    pub kept: Option<Kept>,
}

fn refusal_of_attempt(fault: AttemptFault<Clash>) -> Refusal
    ensures { result ≡ refusal_of_attempt fault }
{
    match fault {
        AttemptFault::Conflict { winner, clash } => Refusal::Conflict { winner, clash },
        AttemptFault::TooManyAttempts { lost } => Refusal::TooManyAttempts { lost },
        AttemptFault::Outlasted { start, now } => Refusal::Outlasted { start, now },
        AttemptFault::Fault { call } => Refusal::Fault { call },
        AttemptFault::OutcomeUnknown { version } => Refusal::OutcomeUnknown { version },
        AttemptFault::NoMemory => Refusal::NoMemory,
        AttemptFault::LogGone { name } => Refusal::LogGone { name },
        AttemptFault::TooLarge { bytes } => Refusal::TooLarge { bytes },
    }
}

/// The reply once the commit has landed.
fn landed_after(read: Option<u64>, landed: Landed) -> Reply
    ensures { result ≡ landed_after read landed }
{
    match read {
        None => Reply::Created,
        Some(read) => Reply::Committed {
            version: landed.version,
            read,
            attempts: landed.attempts,
            checkpoint: CheckpointOutcome::NotDue,
        },
    }
}

impl Step for CommitStep {
    type Part = Attempts<CommitJudge>;

    type Stage = Stage;

    ghost use Rattle.txn_machine.specs.Machine.{ByAttempt, NextCommit};

    ghost fails = { λ s. ByAttempt s.kept };

    ghost next = { NextCommit };

    ghost most = { λ s. 0 };

    fn stand(self, attempts: Attempts<CommitJudge>) -> Stage {
        Stage::Commit(self, attempts)
    }

    fn done(self, won: Won<CommitJudge>) -> Ready<Stage> {
        Stage::done(Finish {
            reply: landed_after(self.read, won.landed),
            kept: self.kept,
        })
    }

    fn failed(self, lost: Lost<CommitJudge, Clash>) -> Ready<Stage> {
        Stage::refused(self.kept, refusal_of_attempt(lost.fault))
    }
}

impl CommitStep {
    /// The commit with this text is attempted, from the version after the read one on.
    pub fn begin(
        plan: Plan,
        text: Body,
        kept: Option<Kept>,
        start: u64,
        read: Option<u64>,
    ) -> Ready<Stage>
        requires { IfSome read (λ version. version < version_limit) }
        ensures { GoesOn most_attempts (λ out. AtCommit plan.tag plan.limit out kept start (first_after read) (record { text = text; makes_table = is_none read }) (landed_after read)) result }
    {
        let judge = CommitJudge {
            text,
            makes_table: read.is_none(),
        };
        let attempts = Attempts::new(
            plan.alloc,
            judge,
            start,
            DEFAULT_RETENTION,
            read,
            plan.limit,
        );
        go(CommitStep { read, kept }, attempts)
    }
}
