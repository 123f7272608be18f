//! An insert: its data file is put, and then its commit is attempted.
ghost use Rattle.std.specs.Prelude.{◌≡◌, ◌+◌, [], ◌∷◌, IfOk};
ghost use Rattle.table_rules.specs.Names.{data_text};
ghost use Rattle.line_texts.specs.Texts.{text_of_add, text_of_rows};
ghost use Rattle.statement_calls.specs.Bounds.{most_puts, most_attempts};
ghost use Rattle.statement_calls.specs.Outcome.{refusal_of_put};
ghost use Rattle.statement_calls.specs.Answered.{Appends};
ghost use Rattle.txn_machine.specs.Machine.{GoesOn};

use crate::{CommitStep, Plan, Stage, Supported};
use call_phases::{File, PutFault, Puts, Ready, Step, go};
use edge_api::{Body, Name};
use line_texts::{write_add, write_rows};
use op_types::Refusal;
use row_base::{NoMemory, Rows};
use statement_calls::Kept;
use std::alloc::Global;
use std::collections::VecDeque;
use table_rules::data_file_name;

/// The data file is put, and then the commit with this text is attempted.
#[derive(Drop)]
pub struct DataStep {
    pub plan: Plan,
    pub text: Body,
    pub kept: Option<Kept>,
    pub start: u64,
    pub read: Supported,
}

fn refusal_of_put(fault: PutFault) -> Refusal
    ensures { result ≡ refusal_of_put fault }
{
    match fault {
        PutFault::Fault { call } => Refusal::Fault { call },
        PutFault::NameTaken { name } => Refusal::NameTaken { name },
        PutFault::NoMemory => Refusal::NoMemory,
    }
}

/// The text of the commit that adds a file.
fn add_text(alloc: Global, path: &Name) -> Result<Body, NoMemory>
    ensures { IfOk result (λ text. text ≡ text_of_add path.now) }
{
    let text = write_add(alloc, path)?;
    Body::make(alloc, text)
}

/// A data file with these rows, as the only one.
fn data_files(alloc: Global, name: Name, rows: &Rows) -> Result<VecDeque<File>, NoMemory>
    ensures { IfOk result (λ files. files.items ≡ record { name = name; body = text_of_rows rows.now } ∷ []) }
{
    let text = write_rows(alloc, rows)?;
    let body = Body::make(alloc, text)?;
    let mut files = VecDeque::new(alloc);
    files.push_back(File { name, body })?;
    Ok(files)
}

/// The text of the commit, and the data file.
fn append_of(plan: Plan, start: u64, rows: &Rows) -> Result<(Body, VecDeque<File>), NoMemory>
    ensures text { IfOk result (λ a. a.0 ≡ text_of_add (data_text plan.tag start 0)) }
    ensures files { IfOk result (λ a. a.1.items ≡ record { name = data_text plan.tag start 0; body = text_of_rows rows.now } ∷ []) }
{
    let name = data_file_name(plan.alloc, plan.tag, start, 0)?;
    let text = add_text(plan.alloc, &name)?;
    let files = data_files(plan.alloc, name, rows)?;
    Ok((text, files))
}

impl Step for DataStep {
    type Part = Puts;

    type Stage = Stage;

    ghost use Rattle.statement_calls.specs.Bounds.{most_attempts};
    ghost use Rattle.txn_machine.specs.Machine.{ByPut, NextData};

    ghost fails = { λ s. ByPut s.kept };

    ghost next = { NextData };

    ghost most = { λ s. most_attempts };

    fn stand(self, puts: Puts) -> Stage {
        Stage::Data(self, puts)
    }

    fn done(self, _stored: ()) -> Ready<Stage> {
        let read = Some(self.read.version);
        CommitStep::begin(self.plan, self.text, self.kept, self.start, read)
    }

    fn failed(self, fault: PutFault) -> Ready<Stage> {
        Stage::refused(self.kept, refusal_of_put(fault))
    }
}

impl DataStep {
    /// The data file of an insert is put.
    pub fn begin(
        plan: Plan,
        rows: &Rows,
        kept: Option<Kept>,
        start: u64,
        read: Supported,
    ) -> Ready<Stage>
        ensures { GoesOn (most_puts + most_attempts) (λ out. Appends plan.tag plan.limit out rows.now kept start read.version) result }
    {
        match append_of(plan, start, rows) {
            Ok((text, files)) => {
                let step = DataStep {
                    plan,
                    text,
                    kept,
                    start,
                    read,
                };
                go(step, Puts::new(files))
            }
            Err(_) => Stage::refused(kept, Refusal::NoMemory),
        }
    }
}
