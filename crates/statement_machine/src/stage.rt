//! Where a statement stands: one phase, and what the statement still needs for what follows it.
ghost use Rattle.std.specs.Prelude.{◌≡◌, ◌≤◌, true, None, Option, IfSome};
ghost use Rattle.edge_api.specs.declared.actor.Stage.TheVariants as place;
ghost use Rattle.call_phases.specs.Phases.{Entries};
ghost use Rattle.call_phases.specs.Machine.{LeftBy};
ghost use Rattle.statement_steps.specs.declared.finish.Finish.{Finish as AFinish};
ghost use Rattle.statement_steps.specs.Bounds.{most_calls};
ghost use Rattle.statement_steps.specs.Outcome.{refused};
ghost use Rattle.statement_steps.specs.Answered.{Answered, Begins, Waits};
ghost use Rattle.statement_machine.specs.Machine.{call_of, left_of, is_settled, Rest};
ghost use Rattle.statement_machine.specs.Place.{place_of};
ghost use Rattle.statement_machine.specs.Starting.{StartsAs};

use crate::resume::{Resumes, advance};
use crate::{
    ClockStep, CommitStep, DataStep, ListLog, ListStep, LoadStep, Plan, ScanStep, WaitStep,
    WaitTime,
};
use call_phases::{Phase, ReadClock, Ready, Stages, Wait, feed, go};
use commit_attempts::Attempts;
use edge_api::{Answer, Call, Fed};
use log_state::State;
use scan::Scan;
use snapshot_load::Load;
use statement_steps::{CommitJudge, Finish, LoadedStatement, OverTable};
use statement_types::{Refusal, Reply, Statement};
use write_files::WriteOut;

/// Where a statement stands.
#[derive(Drop)]
pub enum Stage {
    Wait(WaitStep, WaitTime),
    Clock(ClockStep, ReadClock),
    List(ListStep, ListLog),
    Load(LoadStep, Load),
    Scan(ScanStep, Scan),
    Data(DataStep, WriteOut),
    Commit(CommitStep, Attempts<CommitJudge>),
    Done(Finish),
}

impl Stages for Stage {
    type Finish = Finish;

    ghost use Rattle.statement_machine.specs.Machine.{call_of, left_of, is_settled, Rest};

    ghost call_of = { call_of };

    ghost left_of = { left_of };

    ghost is_settled = { is_settled };

    ghost may = { Rest };
}

impl Resumes for Stage {
    ghost use Rattle.statement_machine.specs.Machine.{Rests};

    ghost rests = { Rests };

    fn idle() -> Stage {
        Stage::Done(Finish {
            reply: Reply::Killed,
            kept: None,
        })
    }

    fn go_on(&mut self, answer: Answer) -> Option<Call> {
        match self {
            Stage::Wait(_, wait) => advance(wait, answer),
            Stage::Clock(_, clock) => advance(clock, answer),
            Stage::List(_, list) => advance(list, answer),
            Stage::Load(_, load) => advance(load, answer),
            Stage::Scan(_, scan) => advance(scan, answer),
            Stage::Data(_, puts) => advance(puts, answer),
            Stage::Commit(_, attempts) => advance(attempts, answer),
            Stage::Done(_) => unreachable!(),
        }
    }

    fn ended(self) -> Ready<Stage> {
        match self {
            Stage::Wait(step, wait) => go(step, wait),
            Stage::Clock(step, clock) => go(step, clock),
            Stage::List(step, list) => go(step, list),
            Stage::Load(step, load) => go(step, load),
            Stage::Scan(step, scan) => go(step, scan),
            Stage::Data(step, puts) => go(step, puts),
            Stage::Commit(step, attempts) => go(step, attempts),
            Stage::Done(_) => unreachable!(),
        }
    }

    fn out_of_memory(self) -> Ready<Stage> {
        match self {
            Stage::Wait(step, wait) => feed(step, wait, Fed::NoMemory),
            Stage::Clock(step, clock) => feed(step, clock, Fed::NoMemory),
            Stage::List(step, list) => feed(step, list, Fed::NoMemory),
            Stage::Load(step, load) => feed(step, load, Fed::NoMemory),
            Stage::Scan(step, scan) => feed(step, scan, Fed::NoMemory),
            Stage::Data(step, puts) => feed(step, puts, Fed::NoMemory),
            Stage::Commit(step, attempts) => feed(step, attempts, Fed::NoMemory),
            Stage::Done(_) => unreachable!(),
        }
    }
}

impl Stage {
    /// The reply is there.
    pub fn done(finish: Finish) -> Ready<Stage>
        ensures { result ≡ record { stage = Stage.Done finish; call = None } }
    {
        Ready::no_call(Stage::Done(finish))
    }

    /// The statement is refused.
    pub fn refused(kept: Option<State>, refusal: Refusal) -> Ready<Stage>
        ensures { result ≡ record { stage = Stage.Done (refused kept refusal); call = None } }
    {
        Stage::done(Finish {
            reply: Reply::Refused(refusal),
            kept,
        })
    }

    /// A statement over the table begins: the clock is read.
    fn begin_clock(plan: Plan, statement: OverTable, kept: Option<State>) -> Ready<Stage>
        ensures { StartsAs (λ out. Begins plan.tag plan.limit out statement kept) result }
    {
        let mut clock = ReadClock::new(plan.alloc);
        match clock.next() {
            Some(call) => {
                let step = ClockStep {
                    plan,
                    statement,
                    kept,
                };
                Ready {
                    stage: Stage::Clock(step, clock),
                    call: Some(call),
                }
            }
            None => Stage::refused(kept, Refusal::NoMemory),
        }
    }

    /// A statement waits.
    fn begin_wait(plan: Plan, time: u64, kept: Option<State>) -> Ready<Stage>
        ensures { StartsAs (λ out. Waits plan.tag plan.limit out time kept) result }
    {
        let mut wait = WaitTime {
            wait: Wait::new(plan.alloc, time),
        };
        match wait.next() {
            Some(call) => Ready {
                stage: Stage::Wait(WaitStep { kept }, wait),
                call: Some(call),
            },
            None => Stage::refused(kept, Refusal::NoMemory),
        }
    }

    /// A statement begins.
    pub fn begin(plan: Plan, statement: Statement, kept: Option<State>) -> Ready<Stage>
        ensures { StartsAs (λ out es. Answered plan.tag plan.limit kept statement es out) result }
    {
        match statement {
            Statement::Table(spec) => Stage::begin_clock(plan, OverTable::Make(spec), kept),
            Statement::Insert { rows } => {
                let statement = LoadedStatement::Insert { rows };
                Stage::begin_clock(plan, OverTable::Load(statement), kept)
            }
            Statement::Select => {
                Stage::begin_clock(plan, OverTable::Load(LoadedStatement::Select), kept)
            }
            Statement::Wait(time) => Stage::begin_wait(plan, time, kept),
        }
    }
}
