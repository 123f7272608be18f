//! What the next call of the attempts is for.
ghost use Rattle.std.specs.Prelude.{◌≡◌, IfOk, Option};
ghost use Rattle.commit_attempts.specs.Machine.{call_at};
ghost use Rattle.commit_attempts.specs.Steps.{ahead_of, or_no_memory, result_of};

use crate::progress::Commit;
use crate::{AttemptFault, Landed};
use call_phases::{Reading, Ready};
use edge_api::{Body, Call};
use log_actions::Action;
use row_base::{Items, NoMemory};
use std::alloc::Global;

/// A commit that is put.
#[derive(Drop)]
pub struct Put {
    pub commit: Commit,
    pub text: Body,
    pub now: u64,
}

impl Put {
    /// The put of a version's commit with this text, and its call. The error is want of memory.
    pub fn make(alloc: Global, version: u64, text: Body, now: u64) -> Result<(Put, Call), NoMemory>
        ensures version { IfOk result (λ made. made.0.commit.version ≡ version) }
        ensures text { IfOk result (λ made. made.0.text ≡ text) }
        ensures now { IfOk result (λ made. made.0.now ≡ now) }
        ensures call { IfOk result (λ made. made.1 ≡ Call.PutNew made.0.commit.name text) }
    {
        let commit = Commit::make(alloc, version)?;
        let call = Call::PutNew(commit.name.copy()?, text.copy()?);
        Ok((Put { commit, text, now }, call))
    }
}

/// What the next call is for.
#[derive(Drop)]
pub enum Stage<C> {
    /// The clock is read for an attempt.
    Clock(Reading),
    /// The commit is put.
    Put(Put),
    /// The commit is read back, since its put was answered by a fault.
    ReadBack(Put),
    /// The commit that won is got.
    Winner(Commit),
    /// The commit landed. Nothing is called any more.
    Landed { version: u64, now: u64 },
    /// No commit landed. Nothing is called any more.
    Failed(AttemptFault<C>),
}

impl<C: Drop> Stage<C> {
    /// Nothing is called any more.
    pub fn failed(fault: AttemptFault<C>) -> Ready<Stage<C>>
        ensures { result ≡ ahead_of (Stage.Failed fault) }
    {
        Ready::no_call(Stage::Failed(fault))
    }

    /// The commit landed.
    pub fn landed(put: Put) -> Ready<Stage<C>>
        ensures { result ≡ ahead_of (Stage.Landed put.commit.version put.now) }
    {
        let version = put.commit.version;
        Ready::no_call(Stage::Landed {
            version,
            now: put.now,
        })
    }

    /// The commit is read back next. The error is want of memory.
    pub fn read_back(put: Put) -> Result<Ready<Stage<C>>, NoMemory>
        ensures { IfOk result (λ a. a ≡ ahead_of (Stage.ReadBack put)) }
    {
        let call = Some(Call::Get(put.commit.name.copy()?));
        let stage = Stage::ReadBack(put);
        Ok(Ready { stage, call })
    }

    /// The commit that won is got next. The error is want of memory.
    pub fn winner(commit: Commit) -> Result<Ready<Stage<C>>, NoMemory>
        ensures { IfOk result (λ a. a ≡ ahead_of (Stage.Winner commit)) }
    {
        let call = Some(Call::Get(commit.name.copy()?));
        let stage = Stage::Winner(commit);
        Ok(Ready { stage, call })
    }

    /// What was made, or the end for want of memory.
    pub fn or_no_memory(made: Result<Ready<Stage<C>>, NoMemory>) -> Ready<Stage<C>>
        ensures { result ≡ or_no_memory made }
    {
        match made {
            Ok(ahead) => ahead,
            Err(_) => Stage::failed(AttemptFault::NoMemory),
        }
    }
}

/// How the attempts ended, by the number of puts and the commits that won.
pub fn ended<C: Drop>(
    stage: Stage<C>,
    attempts: u32,
    winners: Vec<Items<Action>>,
) -> Result<Landed, AttemptFault<C>>
    requires { call_at stage ≡ Option.None }
    ensures { result ≡ result_of stage attempts winners.items }
{
    match stage {
        Stage::Landed { version, now } => Ok(Landed {
            version,
            attempts,
            now,
            winners: Items::from_vec(winners),
        }),
        Stage::Failed(fault) => Err(fault),
        _ => unreachable!(),
    }
}
