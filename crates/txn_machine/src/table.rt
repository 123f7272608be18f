//! A table is made: a commit at version 0, where none is listed.
ghost use Rattle.std.specs.Prelude.{◌≡◌, true, IfOk};
ghost use Rattle.op_types.specs.declared.reply.Reply.TheVariants.{Created};
ghost use Rattle.line_texts.specs.Texts.{text_of_columns};
ghost use Rattle.statement_calls.specs.Bounds.{most_attempts};
ghost use Rattle.statement_calls.specs.Answered.{names_of, AtCommit, Makes};
ghost use Rattle.txn_machine.specs.Machine.{GoesOn};

use crate::{CommitStep, Plan, Stage};
use call_phases::Ready;
use edge_api::Body;
use line_texts::write_columns;
use op_types::{Refusal, TableSpec};
use row_base::{Column, NoMemory, Text};
use statement_calls::Kept;
use std::alloc::Global;

/// The names of columns.
fn names_of(alloc: Global, columns: &[Column]) -> Result<Vec<Text>, NoMemory>
    ensures { IfOk result (λ names. names.items ≡ names_of columns.now) }
{
    let mut names = Vec::new(alloc);
    for column in columns {
        names.push(column.name.copy()?)?;
    }
    Ok(names)
}

/// The text of the commit that makes a table of these columns.
fn table_text(alloc: Global, columns: &[Column]) -> Result<Body, NoMemory>
    ensures { IfOk result (λ text. text ≡ text_of_columns (names_of columns.now)) }
{
    let names = names_of(alloc, columns)?;
    let text = write_columns(alloc, &names)?;
    Body::make(alloc, text)
}

/// The commit that makes the table is attempted.
fn commits(plan: Plan, spec: &TableSpec, kept: Option<Kept>, start: u64) -> Ready<Stage>
    ensures { GoesOn most_attempts (λ out. AtCommit plan.tag plan.limit out kept start 0 (record { text = text_of_columns (names_of spec.now.columns); makes_table = true }) (λ l. Created)) result }
{
    match table_text(plan.alloc, spec.columns.as_slice()) {
        Ok(text) => CommitStep::begin(plan, text, kept, start, None),
        Err(_) => Stage::refused(kept, Refusal::NoMemory),
    }
}

/// The table is made, where no commit is listed.
pub fn makes(
    plan: Plan,
    spec: &TableSpec,
    kept: Option<Kept>,
    start: u64,
    newest: Option<u64>,
) -> Ready<Stage>
    ensures { GoesOn most_attempts (λ out. Makes plan.tag plan.limit out spec.now.columns start kept newest) result }
{
    match newest {
        None => commits(plan, spec, kept, start),
        Some(_) => Stage::refused(kept, Refusal::TableThere),
    }
}
