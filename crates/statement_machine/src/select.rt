//! A select: the live files are got, and their rows are the reply.
ghost use Rattle.std.specs.Prelude.{◌≡◌, Some, IfOk};
ghost use Rattle.row_base.specs.Sorting.{Sorts};
ghost use Rattle.statement_steps.specs.Bounds.{most_files};
ghost use Rattle.statement_steps.specs.Outcome.{OrNoMemory};
ghost use Rattle.statement_steps.specs.Answered.{kept_after, rows_of_files, Selects};
ghost use Rattle.statement_machine.specs.Machine.{GoesOn};

use crate::faults::refusal_of_scan;
use crate::load::OnTable;
use crate::{Plan, Stage};
use call_phases::{Ready, Step, go};
use log_state::State;
use predicates::Pred;
use row_base::{NoMemory, Rows, ScannedFile, sorted};
use scan::{Scan, ScanFault, Scanned};
use statement_steps::Finish;
use statement_types::{Refusal, Reply};
use std::alloc::Global;
use table_definition::Definition;

/// The files are got, and then the reply is there.
#[derive(Drop)]
pub struct ScanStep {
    pub plan: Plan,
    pub read: u64,
    pub kept: Option<State>,
}

/// The rows of files, one file after another. The error is want of memory.
fn all_rows(alloc: Global, files: Vec<ScannedFile>) -> Result<Rows, NoMemory>
    ensures { IfOk result (λ rows. rows ≡ rows_of_files files.items) }
{
    let mut rows = Rows::new(alloc);
    for file in files {
        rows.append(file.rows)?;
    }
    Ok(rows)
}

/// The rows of files in order. The error is want of memory.
fn sorted_rows(alloc: Global, files: Vec<ScannedFile>) -> Result<Rows, NoMemory>
    ensures { IfOk result (λ rows. Sorts (rows_of_files files.items) rows) }
{
    let rows = all_rows(alloc, files)?;
    sorted(alloc, &rows)
}

impl Step for ScanStep {
    type Part = Scan;

    type Stage = Stage;

    ghost use Rattle.statement_machine.specs.Machine.{ByScan, NextScan};

    ghost fails = { λ s. ByScan s.kept };

    ghost next = { NextScan };

    ghost most = { λ s. 0 };

    fn stand(self, scan: Scan) -> Stage {
        Stage::Scan(self, scan)
    }

    fn done(self, scanned: Scanned) -> Ready<Stage> {
        let files = scanned.files.into_vec();
        let files_read = files.len() as u64;
        let Ok(rows) = sorted_rows(self.plan.alloc, files) else {
            return Stage::refused(self.kept, Refusal::NoMemory);
        };
        let reply = Reply::Rows {
            version: self.read,
            rows,
            files_read,
            files_live: scanned.live,
        };
        Stage::done(Finish {
            reply,
            kept: self.kept,
        })
    }

    fn failed(self, fault: ScanFault) -> Ready<Stage> {
        Stage::refused(self.kept, refusal_of_scan(fault))
    }
}

impl ScanStep {
    /// The live files of the table that was loaded are got.
    pub fn begin(on: OnTable, definition: &Definition) -> Ready<Stage>
        ensures { GoesOn most_files (λ out. OrNoMemory out (Some (kept_after on.spare on.state))
            (Selects on.plan.tag on.plan.limit out on.read.version definition.now on.state (Some (kept_after on.spare on.state)))) result }
    {
        match Scan::new(on.plan.alloc, &on.state, &definition.schema, &Pred::Always) {
            Ok(scan) => {
                let plan = on.plan;
                let read = on.read.version;
                let kept = on.into_kept();
                go(ScanStep { plan, read, kept }, scan)
            }
            Err(fault) => Stage::refused(on.into_kept(), refusal_of_scan(fault)),
        }
    }
}
