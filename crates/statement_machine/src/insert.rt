//! An insert: its data files are put, and then its commit is attempted.
ghost use Rattle.std.specs.Prelude.{◌≡◌, ◌+◌, Some, IfOk};
ghost use Rattle.std.specs.List.{All};
ghost use Rattle.row_base.specs.Faults.{Reads};
ghost use Rattle.row_base.specs.Schema.{FitsSchema};
ghost use Rattle.schema_text.specs.PartitionWritten.{HasText};
ghost use Rattle.statement_checks.specs.Rows.{is_memory, rows_in};
ghost use Rattle.statement_types.specs.declared.refusal.Refusal.TheVariants as refusals;
ghost use Rattle.statement_steps.specs.Bounds.{most_puts, most_attempts};
ghost use Rattle.statement_steps.specs.Outcome.{OrNoMemory};
ghost use Rattle.statement_steps.specs.Answered.{append_of, kept_after, Appends, Inserts};
ghost use Rattle.commit_plans.specs.Plans.{insert_plan};
ghost use Rattle.table_rules.specs.Names.{statement_text};
ghost use Rattle.statement_machine.specs.Machine.{GoesOn};

use crate::faults::{refusal_of_put, refusal_of_rows};
use crate::load::OnTable;
use crate::{CommitStep, Stage};
use call_phases::{PutFault, Ready, Step, go};
use commit_plans::{CommitPlan, insert_plan};
use log_actions::AddFile;
use row_base::{Items, NoMemory, Rows, Schema};
use statement_checks::{RowsFault, literal_rows};
use statement_types::{LiteralRows, Refusal};
use std::alloc::Global;
use table_definition::Definition;
use table_rules::{Rules, statement_id};
use write_files::WriteOut;

/// The data files are put, and then the commit that adds them is attempted.
#[derive(Drop)]
pub struct DataStep {
    pub on: OnTable,
    pub rules: Rules,
}

/// The rows of a statement as the columns of a table take them, or the first that doesn't fit.
#[tactic(auto, using(crate::proofs::Literals::rows_have_texts))]
fn taken_rows(alloc: Global, schema: &Schema, rows: &LiteralRows) -> Result<Rows, RowsFault>
    ensures read { Reads is_memory result (rows_in schema.now rows.now) }
    ensures fits { IfOk result (All (FitsSchema schema.now)) }
    ensures texts { IfOk result (All (λ r. All HasText r)) }
{
    let taken = literal_rows(alloc, schema, rows.rows())?;
    Ok(taken)
}

/// The plan of the commit that adds these files.
fn plan_of(on: &OnTable, rules: Rules, files: Items<AddFile>) -> Result<CommitPlan, NoMemory>
    ensures { IfOk result (λ p. p ≡ insert_plan on.now.state (statement_text on.now.plan.tag on.now.start) rules.level None files) }
{
    let alloc = on.plan.alloc;
    let id = statement_id(alloc, on.plan.tag, on.start)?;
    insert_plan(alloc, &on.state, id, rules.level, None, files.into_vec())
}

impl Step for DataStep {
    type Part = WriteOut;

    type Stage = Stage;

    ghost use Rattle.statement_steps.specs.Bounds.{most_attempts};
    ghost use Rattle.statement_machine.specs.Machine.{ByPut, NextData};

    ghost fails = { λ s. ByPut s.on };

    ghost next = { NextData };

    ghost most = { λ s. most_attempts };

    fn stand(self, puts: WriteOut) -> Stage {
        Stage::Data(self, puts)
    }

    fn done(self, files: Items<AddFile>) -> Ready<Stage> {
        let DataStep { on, rules } = self;
        match plan_of(&on, rules, files) {
            Ok(commit) => {
                let plan = on.plan;
                let start = on.start;
                let read = Some(on.read.version);
                CommitStep::begin(plan, commit, on.into_kept(), start, rules.retention, read)
            }
            Err(_) => Stage::refused(on.into_kept(), Refusal::NoMemory),
        }
    }

    fn failed(self, fault: PutFault) -> Ready<Stage> {
        Stage::refused(self.on.into_kept(), refusal_of_put(fault))
    }
}

impl DataStep {
    /// The data files of these rows are put.
    fn appends(on: OnTable, rows: Rows, definition: &Definition) -> Ready<Stage>
        requires fits { All (FitsSchema definition.now.schema) rows }
        requires texts { All (λ r. All HasText r) rows }
        ensures { GoesOn (most_puts + most_attempts) (λ out. OrNoMemory out (Some (kept_after on.spare on.state))
            (Appends on.plan.tag on.plan.limit out rows on.start on.read.version definition.now on.state (Some (kept_after on.spare on.state)))) result }
    {
        let plan = on.plan;
        let schema = &definition.schema;
        match WriteOut::new(plan.alloc, schema, rows, plan.tag, on.start, 0, true) {
            Ok(files) => {
                let rules = definition.rules;
                go(DataStep { on, rules }, files)
            }
            Err(_) => Stage::refused(on.into_kept(), Refusal::NoMemory),
        }
    }

    /// The data files of an insert are put, if its rows fit the table's columns.
    pub fn inserts(on: OnTable, rows: &LiteralRows, definition: &Definition) -> Ready<Stage>
        ensures { GoesOn (most_puts + most_attempts) (λ out. OrNoMemory out (Some (kept_after on.spare on.state))
            (Inserts on.plan.tag on.plan.limit out rows.now on.start on.read.version definition.now on.state (Some (kept_after on.spare on.state)))) result }
    {
        let alloc = on.plan.alloc;
        match taken_rows(alloc, &definition.schema, rows) {
            Ok(taken) => DataStep::appends(on, taken, definition),
            Err(fault) => {
                let refusal = refusal_of_rows(alloc, definition.schema.columns(), fault);
                Stage::refused(on.into_kept(), refusal)
            }
        }
    }
}
