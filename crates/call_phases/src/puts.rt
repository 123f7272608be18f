//! Puts of files under free names, one after another.
ghost use Rattle.std.specs.Prelude.{◌≡◌, ◌≤◌, length, IfOk};
ghost use Rattle.call_phases.specs.Phases.{Entries};
ghost use Rattle.call_phases.specs.Ending.{Ending};
ghost use Rattle.call_phases.specs.declared.puts.PutFault.{PutFault as AFault};
ghost use Rattle.call_phases.specs.Puts.{PutsAll, call_at, left_at, RestAt};

use crate::{CallStage, Ready};
use edge_api::{Answer, Body, Call, CallKind, Called, Name};
use row_base::NoMemory;
use std::collections::VecDeque;

/// A file that is put.
#[derive(Drop)]
pub struct File {
    pub name: Name,
    pub body: Body,
}

/// Why the files were not all put.
#[derive(Drop)]
pub enum PutFault {
    /// The store answered this call by a fault.
    Fault { call: Called },
    /// There is an object of that name.
    NameTaken { name: Name },
    NoMemory,
}

/// Where the puts stand.
#[derive(Drop)]
pub enum PutsStage {
    Putting { file: File, left: VecDeque<File> },
    Stored,
    Failed(PutFault),
}

/// A phase of puts.
pub type Puts = Ready<PutsStage>;

impl File {
    /// The put of the file. The error is want of memory.
    fn put(&self) -> Result<Call, NoMemory>
        ensures { IfOk result (λ call. call ≡ Call.PutNew self.now.name self.now.body) }
    {
        Ok(Call::PutNew(self.name.copy()?, self.body.copy()?))
    }
}

impl Puts {
    /// The files are put, unless memory is wanting.
    pub fn new(mut files: VecDeque<File>) -> Puts
        ensures ready { result.call ≡ call_at result.stage }
        ensures begins { (es : Entries) (o : Ending AFault (Unit {0})) → RestAt result.stage es o → PutsAll files.items es o }
        ensures most { left_at result.stage ≤ length files.items }
    {
        match files.pop_front() {
            Some(file) => match file.put() {
                Ok(call) => Ready {
                    stage: PutsStage::Putting { file, left: files },
                    call: Some(call),
                },
                Err(_) => Ready::no_call(PutsStage::Failed(PutFault::NoMemory)),
            },
            None => Ready::no_call(PutsStage::Stored),
        }
    }
}

impl CallStage for PutsStage {
    type Done = ();

    type Fault = PutFault;

    ghost use Rattle.std.proofs.Common.{rules};
    ghost use Rattle.call_phases.specs.Puts.{call_at, left_at, RestAt};

    ghost call_at = { call_at };

    ghost left_at = { left_at };

    ghost rest_at = { RestAt };

    ghost some = { Prim.search rules };

    ghost open = { Prim.search rules };

    fn out_of_memory() -> PutsStage {
        PutsStage::Failed(PutFault::NoMemory)
    }

    fn after(self, answer: Answer) -> Ready<PutsStage> {
        let PutsStage::Putting { file, left } = self else {
            unreachable!()
        };
        let fault = match answer {
            Answer::Stored => return Puts::new(left),
            Answer::Taken => PutFault::NameTaken { name: file.name },
            _ => PutFault::Fault {
                call: Called {
                    kind: CallKind::PutNew,
                    name: file.name,
                },
            },
        };
        Ready::no_call(PutsStage::Failed(fault))
    }

    fn ended(self) -> Result<(), PutFault> {
        match self {
            PutsStage::Stored => Ok(()),
            PutsStage::Failed(fault) => Err(fault),
            PutsStage::Putting { .. } => unreachable!(),
        }
    }
}
