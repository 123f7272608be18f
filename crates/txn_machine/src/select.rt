//! A select: the live files are got, and their rows are the reply.
ghost use Rattle.std.specs.Prelude.{◌≡◌, Some, IfOk};
ghost use Rattle.row_base.specs.Sorting.{Sorts};
ghost use Rattle.statement_calls.specs.Bounds.{most_files};
ghost use Rattle.statement_calls.specs.Outcome.{refusal_of_scan};
ghost use Rattle.statement_calls.specs.Answered.{rows_of_files, Selects};
ghost use Rattle.txn_machine.specs.Readers.{kept_of};
ghost use Rattle.txn_machine.specs.Machine.{GoesOn};

use crate::commits::kept_of;
use crate::files::{Paths, no_files};
use crate::{Files, Plan, Stage, Supported};
use call_phases::{GetFault, Gets, Ready, Step, go};
use op_types::{ObjectFault, Refusal, Reply};
use row_base::{NoMemory, Rows, ScannedFile, sorted};
use snapshot_replay::State;
use statement_calls::{Finish, Kept};
use std::alloc::Global;

/// The files are got, and then the reply is there.
#[derive(Drop)]
pub struct ScanStep {
    pub plan: Plan,
    pub read: u64,
    pub live: u64,
    pub kept: Option<Kept>,
}

fn refusal_of_scan(fault: GetFault<ObjectFault>) -> Refusal
    ensures { result ≡ refusal_of_scan fault }
{
    match fault {
        GetFault::Fault { call } => Refusal::Fault { call },
        GetFault::Missing { name } => Refusal::FileGone { name },
        GetFault::Bad { name, fault } => Refusal::BadObject { name, fault },
        GetFault::NoMemory => Refusal::NoMemory,
    }
}

/// The rows of files, one file after another. The error is want of memory.
fn all_rows(alloc: Global, files: Vec<ScannedFile>) -> Result<Rows, NoMemory>
    ensures { IfOk result (λ rows. rows ≡ rows_of_files files.items) }
{
    let mut rows = Rows::new(alloc);
    for file in files {
        rows.append(file.rows)?;
    }
    Ok(rows)
}

/// The rows of files in order. The error is want of memory.
fn sorted_rows(alloc: Global, files: Vec<ScannedFile>) -> Result<Rows, NoMemory>
    ensures { IfOk result (λ rows. Sorts (rows_of_files files.items) rows) }
{
    let rows = all_rows(alloc, files)?;
    sorted(alloc, &rows)
}

impl Step for ScanStep {
    type Part = Gets<Files>;

    type Stage = Stage;

    ghost use Rattle.txn_machine.specs.Machine.{ByScan, NextScan};

    ghost fails = { λ s. ByScan s.kept };

    ghost next = { NextScan };

    ghost most = { λ s. 0 };

    fn stand(self, scan: Gets<Files>) -> Stage {
        Stage::Scan(self, scan)
    }

    fn done(self, files: Files) -> Ready<Stage> {
        let files = files.got.into_vec();
        let files_read = files.len() as u64;
        let Ok(rows) = sorted_rows(self.plan.alloc, files) else {
            return Stage::refused(self.kept, Refusal::NoMemory);
        };
        let reply = Reply::Rows {
            version: self.read,
            rows,
            files_read,
            files_live: self.live,
        };
        Stage::done(Finish {
            reply,
            kept: self.kept,
        })
    }

    fn failed(self, fault: GetFault<ObjectFault>) -> Ready<Stage> {
        Stage::refused(self.kept, refusal_of_scan(fault))
    }
}

impl ScanStep {
    /// The live files of the table that was loaded are got.
    pub fn begin(plan: Plan, table: State, spare: Option<Kept>, read: Supported) -> Ready<Stage>
        ensures { GoesOn most_files (λ out. Selects plan.tag plan.limit out table (Some (kept_of spare read.version table)) read.version) result }
    {
        let live = table.file_count() as u64;
        let paths = table.paths(plan.alloc);
        let kept = Some(kept_of(spare, read, table));
        match paths {
            Ok(paths) => {
                let files = Files {
                    alloc: plan.alloc,
                    paths: Paths::new(paths),
                    got: no_files(plan.alloc),
                };
                let read = read.version;
                let step = ScanStep {
                    plan,
                    read,
                    live,
                    kept,
                };
                go(step, Gets::new(files))
            }
            Err(_) => Stage::refused(kept, Refusal::NoMemory),
        }
    }
}
