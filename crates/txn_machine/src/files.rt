//! The data files of a select, got one after another.
ghost use Rattle.std.specs.Prelude.{◌≡◌, ◌∷◌, ◌++◌, [], IfOk, IfErr, IsSome};
ghost use Rattle.statement_calls.specs.Objects.{first_of};
ghost use Rattle.txn_machine.specs.Readers.{after_first};

use crate::texts::rows_of_file;
use call_phases::{Reader, Unread};
use edge_api::{Body, Name};
use op_types::ObjectFault;
use row_base::{Items, NoMemory, ScannedFile};
use std::alloc::Global;
use std::collections::VecDeque;
use std::marker::Model;
use std::mem;

/// Paths of files, which contracts see as their list.
#[derive(Drop)]
pub struct Paths {
    items: VecDeque<Name>,
}

impl Model for Paths {
    ghost use Rattle.std.specs.Prelude.{List, ℕ};

    ghost Value = { List (List ℕ) };

    ghost view = { λ p. p.items.items };
}

impl Paths {
    /// The paths of this list.
    pub fn new(items: VecDeque<Name>) -> Paths
        ensures { result ≡ items.items }
    {
        Paths { items }
    }

    /// A copy of the first path. The error is want of memory.
    fn copy_first(&self) -> Result<Option<Name>, NoMemory>
        ensures ok { IfOk result (λ name. name ≡ first_of self.now) }
        ensures err { IfErr result (λ e. IsSome (first_of self.now)) }
    {
        match self.items.front() {
            Some(path) => Ok(Some(path.copy()?)),
            None => Ok(None),
        }
    }

    /// The first path, which is taken out.
    fn take_first(&mut self) -> Option<Name>
        ensures first { result ≡ first_of self.old }
        ensures rest { self.new ≡ after_first self.old }
    {
        self.items.pop_front()
    }
}

/// No file yet.
pub fn no_files(alloc: Global) -> Items<ScannedFile>
    ensures { result ≡ [] }
{
    Items::from_vec(Vec::new(alloc))
}

/// One more file. The error is want of memory.
fn with_file(got: Items<ScannedFile>, file: ScannedFile) -> Result<Items<ScannedFile>, NoMemory>
    ensures { IfOk result (λ all. all ≡ got ++ file ∷ []) }
{
    let mut all = got.into_vec();
    all.push(file)?;
    Ok(Items::from_vec(all))
}

/// The files of these paths, and those got before them with their rows.
#[derive(Drop)]
pub struct Files {
    pub alloc: Global,
    pub paths: Paths,
    pub got: Items<ScannedFile>,
}

impl Reader for Files {
    type Fault = ObjectFault;

    ghost use Rattle.txn_machine.specs.Readers.{wanted_file, files_left_of, files_after};

    ghost wants = { wanted_file };

    ghost left = { files_left_of };

    ghost after = { files_after };

    fn name(&self) -> Result<Option<Name>, NoMemory> {
        self.paths.copy_first()
    }

    fn read(&mut self, body: Body) -> Result<(), Unread<ObjectFault>> {
        let rows = rows_of_file(self.alloc, &body)?;
        let Some(path) = self.paths.take_first() else {
            unreachable!()
        };
        let path = path.into_text();
        let got = mem::replace(&mut self.got, no_files(self.alloc));
        let Ok(got) = with_file(got, ScannedFile { path, rows }) else {
            return Err(Unread::NoMemory);
        };
        self.got = got;
        Ok(())
    }
}
