//! A version is loaded, and then the statement does its own.
ghost use Rattle.std.specs.Prelude.{◌≡◌, Some};
ghost use Rattle.statement_steps.specs.Bounds.{most_after_list, most_after_load};
ghost use Rattle.statement_steps.specs.Outcome.{OrNoMemory};
ghost use Rattle.statement_steps.specs.Answered.{kept_after, Does, LoadsVersion, Loads};
ghost use Rattle.statement_machine.specs.Machine.{GoesOn};

use crate::faults::{refusal_of_definition, refusal_of_load};
use crate::{DataStep, Plan, ScanStep, Stage};
use call_phases::{Ready, Step, go};
use edge_api::Listing;
use log_actions::Feature;
use log_state::State;
use snapshot_load::{Asked, Load, LoadFailed, Loaded, Supported};
use statement_steps::LoadedStatement;
use statement_types::Refusal;
use table_definition::{Definition, definition_of};

/// The commits of a version are loaded, and then the statement does its own.
#[derive(Drop)]
pub struct LoadStep {
    pub plan: Plan,
    pub statement: LoadedStatement,
    pub start: u64,
    pub read: Supported,
}

/// A table that was loaded, of a definition: what a statement is about. The table that is kept is of a later version, if
/// there is one, and else the loaded one.
#[derive(Drop)]
pub struct OnTable {
    pub plan: Plan,
    pub start: u64,
    pub read: Supported,
    pub state: State,
    pub spare: Option<State>,
}

/// What is kept after a load.
pub fn kept_after(spare: Option<State>, state: State) -> State
    ensures { result ≡ kept_after spare state }
{
    match spare {
        Some(kept) => kept,
        None => state,
    }
}

impl OnTable {
    /// The table that is kept.
    pub fn into_kept(self) -> Option<State>
        ensures { result ≡ Some (kept_after self.spare self.state) }
    {
        Some(kept_after(self.spare, self.state))
    }

    /// The statement does its own with a table of this definition.
    fn does(self, statement: LoadedStatement, definition: &Definition) -> Ready<Stage>
        ensures { GoesOn most_after_load (λ out. OrNoMemory out (Some (kept_after self.spare self.state))
            (Does self.plan.tag self.plan.limit out statement self.start self.read.version definition.now self.state (Some (kept_after self.spare self.state)))) result }
    {
        match statement {
            LoadedStatement::Insert { rows } => DataStep::inserts(self, &rows, definition),
            LoadedStatement::Select => ScanStep::begin(self, definition),
        }
    }
}

impl Step for LoadStep {
    type Part = Load;

    type Stage = Stage;

    ghost use Rattle.statement_steps.specs.Bounds.{most_after_load};
    ghost use Rattle.statement_machine.specs.Machine.{ByLoad, NextLoad};

    ghost fails = { λ s. ByLoad };

    ghost next = { NextLoad };

    ghost most = { λ s. most_after_load };

    fn stand(self, load: Load) -> Stage {
        Stage::Load(self, load)
    }

    fn done(self, loaded: Loaded) -> Ready<Stage> {
        let LoadStep {
            plan,
            statement,
            start,
            read,
        } = self;
        let Loaded { state, kept, .. } = loaded;
        let on = OnTable {
            plan,
            start,
            read,
            state,
            spare: kept,
        };
        match definition_of(plan.alloc, on.state.protocol(), on.state.meta()) {
            Ok(definition) => on.does(statement, &definition),
            Err(fault) => {
                let refusal = refusal_of_definition(plan.alloc, read.version, fault);
                Stage::refused(on.into_kept(), refusal)
            }
        }
    }

    fn failed(self, failed: LoadFailed) -> Ready<Stage> {
        Stage::refused(failed.kept, refusal_of_load(failed.fault))
    }
}

impl LoadStep {
    /// A version is loaded.
    fn loads_version(
        plan: Plan,
        statement: LoadedStatement,
        kept: Option<State>,
        start: u64,
        listing: Listing,
        read: Supported,
    ) -> Ready<Stage>
        ensures { GoesOn most_after_list (λ out. LoadsVersion plan.tag plan.limit out statement start listing kept read.version) result }
    {
        match Load::new(plan.alloc, listing, Asked::Newest, kept) {
            Ok(load) => {
                let step = LoadStep {
                    plan,
                    statement,
                    start,
                    read,
                };
                go(step, load)
            }
            Err(failed) => Stage::refused(failed.kept, refusal_of_load(failed.fault)),
        }
    }

    /// The newest version is loaded.
    pub fn loads(
        plan: Plan,
        statement: LoadedStatement,
        kept: Option<State>,
        start: u64,
        listing: Listing,
        newest: Option<u64>,
    ) -> Ready<Stage>
        ensures { GoesOn most_after_list (λ out. Loads plan.tag plan.limit out statement start listing kept newest) result }
    {
        let Some(version) = newest else {
            return Stage::refused(kept, Refusal::NoTable);
        };
        let Some(read) = Supported::make(version) else {
            let feature = Feature::Versions;
            return Stage::refused(kept, Refusal::Unsupported { feature });
        };
        LoadStep::loads_version(plan, statement, kept, start, listing, read)
    }
}
