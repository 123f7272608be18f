//! Where a statement stands: one phase, and what the statement still needs for what follows it.
ghost use Rattle.std.specs.Prelude.{◌≡◌, ◌≤◌, true, None, Option, IfSome};
ghost use Rattle.edge_api.specs.declared.actor.Stage.TheVariants as place;
ghost use Rattle.call_phases.specs.Phases.{Entries};
ghost use Rattle.call_phases.specs.Machine.{LeftBy};
ghost use Rattle.statement_calls.specs.declared.finish.Finish.{Finish as AFinish};
ghost use Rattle.statement_calls.specs.Bounds.{most_calls};
ghost use Rattle.statement_calls.specs.Outcome.{refused};
ghost use Rattle.statement_calls.specs.Answered.{Answered};
ghost use Rattle.txn_machine.specs.Machine.{call_of, left_of, is_settled, Rest};
ghost use Rattle.txn_machine.specs.Place.{place_of};

use crate::resume::{Resumes, advance};
use crate::{
    ClockStep, CommitJudge, CommitStep, Commits, DataStep, Files, ListLog, ListStep, LoadStep,
    Plan, ScanStep,
};
use call_phases::{Gets, Phase, Puts, ReadClock, Ready, Stages, feed, go};
use committer::Attempts;
use edge_api::{Answer, Call, Fed};
use op_types::{Refusal, Reply, Statement};
use statement_calls::{Finish, Kept};

/// Where a statement stands.
#[derive(Drop)]
pub enum Stage {
    Clock(ClockStep, ReadClock),
    List(ListStep, ListLog),
    Load(LoadStep, Gets<Commits>),
    Scan(ScanStep, Gets<Files>),
    Data(DataStep, Puts),
    Commit(CommitStep, Attempts<CommitJudge>),
    Done(Finish),
}

impl Stages for Stage {
    type Finish = Finish;

    ghost use Rattle.txn_machine.specs.Machine.{call_of, left_of, is_settled, Rest};

    ghost call_of = { call_of };

    ghost left_of = { left_of };

    ghost is_settled = { is_settled };

    ghost may = { Rest };
}

impl Resumes for Stage {
    ghost use Rattle.txn_machine.specs.Machine.{Rests};

    ghost rests = { Rests };

    fn idle() -> Stage {
        Stage::Done(Finish {
            reply: Reply::Killed,
            kept: None,
        })
    }

    fn go_on(&mut self, answer: Answer) -> Option<Call> {
        match self {
            Stage::Clock(_, clock) => advance(clock, answer),
            Stage::List(_, list) => advance(list, answer),
            Stage::Load(_, load) => advance(load, answer),
            Stage::Scan(_, scan) => advance(scan, answer),
            Stage::Data(_, puts) => advance(puts, answer),
            Stage::Commit(_, attempts) => advance(attempts, answer),
            Stage::Done(_) => unreachable!(),
        }
    }

    fn ended(self) -> Ready<Stage> {
        match self {
            Stage::Clock(step, clock) => go(step, clock),
            Stage::List(step, list) => go(step, list),
            Stage::Load(step, load) => go(step, load),
            Stage::Scan(step, scan) => go(step, scan),
            Stage::Data(step, puts) => go(step, puts),
            Stage::Commit(step, attempts) => go(step, attempts),
            Stage::Done(_) => unreachable!(),
        }
    }

    fn out_of_memory(self) -> Ready<Stage> {
        match self {
            Stage::Clock(step, clock) => feed(step, clock, Fed::NoMemory),
            Stage::List(step, list) => feed(step, list, Fed::NoMemory),
            Stage::Load(step, load) => feed(step, load, Fed::NoMemory),
            Stage::Scan(step, scan) => feed(step, scan, Fed::NoMemory),
            Stage::Data(step, puts) => feed(step, puts, Fed::NoMemory),
            Stage::Commit(step, attempts) => feed(step, attempts, Fed::NoMemory),
            Stage::Done(_) => unreachable!(),
        }
    }
}

impl Stage {
    /// The reply is there.
    pub fn done(finish: Finish) -> Ready<Stage>
        ensures { result ≡ record { stage = Stage.Done finish; call = None } }
    {
        Ready::no_call(Stage::Done(finish))
    }

    /// The statement is refused.
    pub fn refused(kept: Option<Kept>, refusal: Refusal) -> Ready<Stage>
        ensures { result ≡ record { stage = Stage.Done (refused kept refusal); call = None } }
    {
        Stage::done(Finish {
            reply: Reply::Refused(refusal),
            kept,
        })
    }

    /// A statement begins: the clock is read.
    pub fn begin(plan: Plan, statement: Statement, kept: Option<Kept>) -> Ready<Stage>
        ensures ready { result.call ≡ call_of result.stage }
        ensures settled { is_settled result.stage ≡ true }
        ensures begins { (es : Entries) (out : Option AFinish) → Rest result.stage es out → Answered plan.tag plan.limit kept statement es out }
        ensures most { left_of result.stage ≤ most_calls }
        ensures first { IfSome result.call (λ call. place_of result.stage ≡ place.Between) }
        ensures some { LeftBy (left_of result.stage) result.call }
    {
        let mut clock = ReadClock::new(plan.alloc);
        match clock.next() {
            Some(call) => {
                let step = ClockStep {
                    plan,
                    statement,
                    kept,
                };
                Ready {
                    stage: Stage::Clock(step, clock),
                    call: Some(call),
                }
            }
            None => Stage::refused(kept, Refusal::NoMemory),
        }
    }
}
