//! The steps that all statements over a table share: the clock is read, and the log is listed.
ghost use Rattle.std.specs.Prelude.{◌≡◌};

use crate::faults::refusal_of_call;
use crate::table::makes;
use crate::{ListLog, LoadStep, Plan, Stage};
use call_phases::{CallFault, ListNames, ReadClock, Ready, Step, go};
use edge_api::Listing;
use log_state::State;
use snapshot_load::newest_version;
use statement_steps::OverTable;
use statement_types::Refusal;
use table_rules::log_prefix;

/// The clock is read, and then the log is listed.
#[derive(Drop)]
pub struct ClockStep {
    pub plan: Plan,
    pub statement: OverTable,
    pub kept: Option<State>,
}

/// The log is listed, and then the statement does its own.
#[derive(Drop)]
pub struct ListStep {
    pub plan: Plan,
    pub statement: OverTable,
    pub kept: Option<State>,
    pub start: u64,
}

impl Step for ClockStep {
    type Part = ReadClock;

    type Stage = Stage;

    ghost use Rattle.statement_steps.specs.Bounds.{most_after_clock};
    ghost use Rattle.statement_machine.specs.Machine.{ByCall, NextClock};

    ghost fails = { λ s. ByCall s.kept };

    ghost next = { NextClock };

    ghost most = { λ s. most_after_clock };

    fn stand(self, clock: ReadClock) -> Stage {
        Stage::Clock(self, clock)
    }

    fn done(self, start: u64) -> Ready<Stage> {
        let ClockStep {
            plan,
            statement,
            kept,
        } = self;
        match log_prefix(plan.alloc) {
            Ok(prefix) => {
                let step = ListStep {
                    plan,
                    statement,
                    kept,
                    start,
                };
                let names = ListNames::new(prefix);
                go(step, ListLog { names })
            }
            Err(_) => Stage::refused(kept, Refusal::NoMemory),
        }
    }

    fn failed(self, fault: CallFault) -> Ready<Stage> {
        Stage::refused(self.kept, refusal_of_call(fault))
    }
}

impl Step for ListStep {
    type Part = ListLog;

    type Stage = Stage;

    ghost use Rattle.statement_steps.specs.Bounds.{most_after_list};
    ghost use Rattle.statement_machine.specs.Machine.{ByCall, NextList};

    ghost fails = { λ s. ByCall s.kept };

    ghost next = { NextList };

    ghost most = { λ s. most_after_list };

    fn stand(self, list: ListLog) -> Stage {
        Stage::List(self, list)
    }

    fn done(self, names: Listing) -> Ready<Stage> {
        let ListStep {
            plan,
            statement,
            kept,
            start,
        } = self;
        let newest = newest_version(names.as_slice());
        match statement {
            OverTable::Make(spec) => makes(plan, &spec, kept, start, newest),
            OverTable::Load(statement) => {
                LoadStep::loads(plan, statement, kept, start, names, newest)
            }
        }
    }

    fn failed(self, fault: CallFault) -> Ready<Stage> {
        Stage::refused(self.kept, refusal_of_call(fault))
    }
}
