//! The steps that all statements share: the clock is read, the log is listed, and the commits are loaded.
ghost use Rattle.std.specs.Prelude.{◌≡◌, ◌⊎◌};
ghost use Rattle.table_rules.specs.Names.{commit_text};
ghost use Rattle.op_types.specs.declared.refusal.Refusal.TheVariants as refusal;
ghost use Rattle.statement_calls.specs.Bounds.{most_after_list};
ghost use Rattle.statement_calls.specs.Outcome.{refusal_of_call, refusal_of_load};
ghost use Rattle.statement_calls.specs.Answered.{base_of, AtLoad, LoadsFrom, Loads};
ghost use Rattle.txn_machine.specs.Machine.{GoesOn};

use crate::commits::{Base, kept_of};
use crate::listing::{missing_for, newest_version};
use crate::table::makes;
use crate::{Commits, DataStep, ListLog, Plan, ScanStep, Stage, Supported};
use call_phases::{CallFault, GetFault, Gets, ListNames, ReadClock, Ready, Step, go};
use edge_api::{Listed, Listing};
use op_types::{Feature, ObjectFault, Refusal, Statement};
use statement_calls::{Kept, TableStatement};
use std::alloc::Global;
use table_rules::{commit_name, log_prefix};

/// The clock is read, and then the log is listed.
#[derive(Drop)]
pub struct ClockStep {
    pub plan: Plan,
    pub statement: Statement,
    pub kept: Option<Kept>,
}

/// The log is listed, and then the statement does its own.
#[derive(Drop)]
pub struct ListStep {
    pub plan: Plan,
    pub statement: Statement,
    pub kept: Option<Kept>,
    pub start: u64,
}

/// The commits of a version are loaded, and then the statement does its own.
#[derive(Drop)]
pub struct LoadStep {
    pub plan: Plan,
    pub statement: TableStatement,
    pub start: u64,
    pub read: Supported,
    pub spare: Option<Kept>,
}

fn refusal_of_call(fault: CallFault) -> Refusal
    ensures { result ≡ refusal_of_call fault }
{
    match fault {
        CallFault::Fault { call } => Refusal::Fault { call },
        CallFault::NoMemory => Refusal::NoMemory,
    }
}

fn refusal_of_load(fault: GetFault<ObjectFault>) -> Refusal
    ensures { result ≡ refusal_of_load fault }
{
    match fault {
        GetFault::Fault { call } => Refusal::Fault { call },
        GetFault::Missing { name } => Refusal::LogGone { name },
        GetFault::Bad { name, fault } => Refusal::BadObject { name, fault },
        GetFault::NoMemory => Refusal::NoMemory,
    }
}

impl Step for ClockStep {
    type Part = ReadClock;

    type Stage = Stage;

    ghost use Rattle.statement_calls.specs.Bounds.{most_after_clock};
    ghost use Rattle.txn_machine.specs.Machine.{ByCall, NextClock};

    ghost fails = { λ s. ByCall s.kept };

    ghost next = { NextClock };

    ghost most = { λ s. most_after_clock };

    fn stand(self, clock: ReadClock) -> Stage {
        Stage::Clock(self, clock)
    }

    fn done(self, start: u64) -> Ready<Stage> {
        let ClockStep {
            plan,
            statement,
            kept,
        } = self;
        match log_prefix(plan.alloc) {
            Ok(prefix) => {
                let step = ListStep {
                    plan,
                    statement,
                    kept,
                    start,
                };
                let names = ListNames::new(prefix);
                go(step, ListLog { names })
            }
            Err(_) => Stage::refused(kept, Refusal::NoMemory),
        }
    }

    fn failed(self, fault: CallFault) -> Ready<Stage> {
        Stage::refused(self.kept, refusal_of_call(fault))
    }
}

impl Step for ListStep {
    type Part = ListLog;

    type Stage = Stage;

    ghost use Rattle.statement_calls.specs.Bounds.{most_after_list};
    ghost use Rattle.txn_machine.specs.Machine.{ByCall, NextList};

    ghost fails = { λ s. ByCall s.kept };

    ghost next = { NextList };

    ghost most = { λ s. most_after_list };

    fn stand(self, list: ListLog) -> Stage {
        Stage::List(self, list)
    }

    fn done(self, names: Listing) -> Ready<Stage> {
        let ListStep {
            plan,
            statement,
            kept,
            start,
        } = self;
        let listing = names.as_slice();
        let newest = newest_version(listing);
        match statement {
            Statement::Table(spec) => makes(plan, &spec, kept, start, newest),
            Statement::Insert { rows } => {
                let statement = TableStatement::Insert { rows };
                LoadStep::loads(plan, statement, kept, start, listing, newest)
            }
            Statement::Select => {
                LoadStep::loads(plan, TableStatement::Select, kept, start, listing, newest)
            }
        }
    }

    fn failed(self, fault: CallFault) -> Ready<Stage> {
        Stage::refused(self.kept, refusal_of_call(fault))
    }
}

/// A commit that is needed isn't listed.
fn log_gone(alloc: Global, version: u64) -> Refusal
    ensures { (result ≡ refusal.LogGone (commit_text version)) ⊎ (result ≡ refusal.NoMemory) }
{
    match commit_name(alloc, version) {
        Ok(name) => Refusal::LogGone { name },
        Err(_) => Refusal::NoMemory,
    }
}

impl LoadStep {
    /// The commits of a version are got, as far as they are needed.
    fn begin(
        plan: Plan,
        statement: TableStatement,
        kept: Option<Kept>,
        start: u64,
        read: Supported,
    ) -> Ready<Stage>
        ensures { GoesOn most_after_list (λ out. AtLoad plan.tag plan.limit out statement start read.version (base_of kept read.version)) result }
    {
        let base = Base::make(plan.alloc, kept, read);
        let step = LoadStep {
            plan,
            statement,
            start,
            read,
            spare: base.spare,
        };
        go(step, Gets::new(base.commits))
    }

    /// A version is loaded, if the commits that are needed are listed.
    fn loads_from(
        plan: Plan,
        statement: TableStatement,
        kept: Option<Kept>,
        start: u64,
        listing: &[Listed],
        read: Supported,
    ) -> Ready<Stage>
        ensures { GoesOn most_after_list (λ out. LoadsFrom plan.tag plan.limit out statement start listing.now kept read.version (base_of kept read.version)) result }
    {
        match missing_for(plan.alloc, listing, &kept, read) {
            Ok(None) => LoadStep::begin(plan, statement, kept, start, read),
            Ok(Some(version)) => Stage::refused(kept, log_gone(plan.alloc, version)),
            Err(_) => Stage::refused(kept, Refusal::NoMemory),
        }
    }

    /// The newest version is loaded.
    fn loads(
        plan: Plan,
        statement: TableStatement,
        kept: Option<Kept>,
        start: u64,
        listing: &[Listed],
        newest: Option<u64>,
    ) -> Ready<Stage>
        ensures { GoesOn most_after_list (λ out. Loads plan.tag plan.limit out statement start listing.now kept newest) result }
    {
        let Some(version) = newest else {
            return Stage::refused(kept, Refusal::NoTable);
        };
        let Some(read) = Supported::make(version) else {
            let feature = Feature::Versions;
            return Stage::refused(kept, Refusal::Unsupported { feature });
        };
        LoadStep::loads_from(plan, statement, kept, start, listing, read)
    }
}

impl Step for LoadStep {
    type Part = Gets<Commits>;

    type Stage = Stage;

    ghost use Rattle.statement_calls.specs.Bounds.{most_after_load};
    ghost use Rattle.txn_machine.specs.Machine.{ByLoad, NextLoad};

    ghost fails = { λ s. ByLoad s.spare };

    ghost next = { NextLoad };

    ghost most = { λ s. most_after_load };

    fn stand(self, load: Gets<Commits>) -> Stage {
        Stage::Load(self, load)
    }

    fn done(self, commits: Commits) -> Ready<Stage> {
        let LoadStep {
            plan,
            statement,
            start,
            read,
            spare,
        } = self;
        match statement {
            TableStatement::Insert { rows } => {
                let kept = kept_of(spare, read, commits.table);
                DataStep::begin(plan, &rows, Some(kept), start, read)
            }
            TableStatement::Select => ScanStep::begin(plan, commits.table, spare, read),
        }
    }

    fn failed(self, fault: GetFault<ObjectFault>) -> Ready<Stage> {
        Stage::refused(self.spare, refusal_of_load(fault))
    }
}
