//! A table is made: a commit at version 0, where none is listed.
ghost use Rattle.std.specs.Prelude.{◌≡◌, Ok, IfOk};
ghost use Rattle.table_rules.specs.Properties.{rules_of};
ghost use Rattle.table_rules.specs.Faults.{Judges};
ghost use Rattle.commit_plans.specs.Made.{made_metadata};
ghost use Rattle.statement_steps.specs.Bounds.{most_attempts};
ghost use Rattle.statement_steps.specs.Outcome.{OrNoMemory};
ghost use Rattle.schema_text.specs.SchemaWritten.{schema_text};
ghost use Rattle.statement_checks.specs.Tables.{table_in};
ghost use Rattle.statement_steps.specs.Answered.{MakesSchema, Makes, SchemaReads};
ghost use Rattle.statement_machine.specs.Making.{IsMaking};
ghost use Rattle.statement_machine.specs.Machine.{GoesOn};

use crate::faults::refusal_of_statement;
use crate::{CommitStep, Plan, Stage};
use call_phases::Ready;
use commit_plans::{CommitPlan, made_metadata, made_properties, table_plan};
use json_lines::{TextMap, TryCopy};
use log_state::State;
use row_base::{NoMemory, Schema, Text, copy_texts};
use schema_text::write_schema;
use statement_checks::bound_table;
use statement_types::{Refusal, TableSpec};
use std::alloc::Global;
use table_rules::{FeatureFault, Rules, rules_of, statement_id};

/// The commit that makes a table, and the table's rules.
#[derive(Drop)]
struct Making {
    commit: CommitPlan,
    rules: Rules,
}

/// The rules of a table that is made with this metadata.
fn made_rules(
    alloc: Global,
    id: &Text,
    start: u64,
    schema: &Text,
    partition: &[Text],
    properties: &TextMap,
) -> Result<Rules, FeatureFault>
    ensures { Judges result (rules_of (made_metadata id.now start schema.now partition.now properties.now)) }
{
    let meta = made_metadata(
        alloc,
        id.copy()?,
        start,
        schema.copy()?,
        copy_texts(alloc, partition)?,
        properties.try_copy(alloc)?,
    )?;
    rules_of(&meta)
}

/// The text of the schema of the table that a statement makes.
#[tactic(auto, using(crate::proofs::Partitions::reads_back))]
fn text_of_schema(alloc: Global, spec: &TableSpec, schema: &Schema) -> Result<Text, NoMemory>
    requires { table_in spec.now.columns spec.now.partition spec.now.properties ≡ Ok schema.now }
    ensures text { IfOk result (λ t. t ≡ schema_text schema.now.columns) }
    ensures reads { IfOk result (λ t. SchemaReads spec.now schema.now) }
{
    let text = write_schema(alloc, schema)?;
    Ok(text)
}

/// The making of a table of this schema.
fn plan_making(
    plan: Plan,
    spec: &TableSpec,
    start: u64,
    schema: &Schema,
) -> Result<Making, FeatureFault>
    requires { table_in spec.now.columns spec.now.partition spec.now.properties ≡ Ok schema.now }
    ensures { IsMaking plan.tag start spec.now schema.now result }
{
    let alloc = plan.alloc;
    let id = statement_id(alloc, plan.tag, start)?;
    let text = text_of_schema(alloc, spec, schema)?;
    let partition = copy_texts(alloc, spec.partition.as_slice())?;
    let properties = made_properties(alloc, spec.properties.as_slice())?;
    let rules = made_rules(alloc, &id, start, &text, partition.as_slice(), &properties)?;
    let commit = table_plan(alloc, id, start, rules.level, text, partition, properties)?;
    Ok(Making { commit, rules })
}

/// A table of this schema is made.
fn makes_schema(
    plan: Plan,
    spec: &TableSpec,
    kept: Option<State>,
    start: u64,
    schema: &Schema,
) -> Ready<Stage>
    requires { table_in spec.now.columns spec.now.partition spec.now.properties ≡ Ok schema.now }
    ensures { GoesOn most_attempts (λ out. OrNoMemory out kept (MakesSchema plan.tag plan.limit out spec.now start kept schema.now)) result }
{
    match plan_making(plan, spec, start, schema) {
        Ok(Making { commit, rules }) => {
            CommitStep::begin(plan, commit, kept, start, rules.retention, None)
        }
        Err(FeatureFault::Unsupported(feature)) => {
            Stage::refused(kept, Refusal::Unsupported { feature })
        }
        Err(FeatureFault::NoMemory) => Stage::refused(kept, Refusal::NoMemory),
    }
}

/// The table is made, where no commit is listed, if the statement is right.
pub fn makes(
    plan: Plan,
    spec: &TableSpec,
    kept: Option<State>,
    start: u64,
    newest: Option<u64>,
) -> Ready<Stage>
    ensures { GoesOn most_attempts (λ out. Makes plan.tag plan.limit out spec.now start kept newest) result }
{
    if newest.is_some() {
        return Stage::refused(kept, Refusal::TableThere);
    }
    let TableSpec {
        columns,
        partition,
        properties,
    } = spec;
    match bound_table(
        plan.alloc,
        columns.as_slice(),
        partition.as_slice(),
        properties.as_slice(),
    ) {
        Ok(schema) => makes_schema(plan, spec, kept, start, &schema),
        Err(fault) => Stage::refused(kept, refusal_of_statement(fault)),
    }
}
