//! The live files that a scan gets.
ghost use Rattle.std.specs.Prelude.{◌≡◌, [], length, map, true, IfOk, IfErr, OnOk, IsSome};
ghost use Rattle.row_base.specs.Faults.{Reads};
ghost use Rattle.predicates.specs.Truths.{is_bound};
ghost use Rattle.scan.specs.Faults.{is_memory};
ghost use Rattle.scan.specs.Files as spec;

use crate::ScanFault;
use crate::fault::{of_facts, of_values};
use edge_api::Name;
use log_actions::AddFile;
use predicates::Pred;
use prune::{FileFacts, may_match};
use row_base::{NoMemory, Row, Schema, Text};
use schema_text::read_partition;
use std::alloc::Global;
use std::collections::VecDeque;
use std::marker::Model;

/// A data file that is got: its path as the log has it, its name in the store, and a row with its values of the partition
/// columns.
#[derive(Debug, Drop)]
pub(crate) struct WantedFile {
    pub path: Text,
    pub name: Name,
    pub values: Row,
}

/// Files that are got, in order. Contracts see it as their list.
#[derive(Debug, Drop)]
pub(crate) struct WantedFiles {
    items: VecDeque<WantedFile>,
}

impl Model for WantedFiles {
    ghost use Rattle.std.specs.Prelude.{List};
    ghost use Rattle.scan.specs.declared.wanted.WantedFile.{WantedFile};

    ghost Value = { List WantedFile };

    ghost view = { λ w. w.items.items };
}

impl WantedFiles {
    /// No file.
    pub fn new(alloc: Global) -> WantedFiles
        ensures { result ≡ [] }
    {
        WantedFiles {
            items: VecDeque::new(alloc),
        }
    }

    /// One more file behind the others, where there is one. The error is want of memory.
    fn push(&mut self, file: Option<WantedFile>) -> Result<(), NoMemory>
        ensures { OnOk result (self.new ≡ spec.with_last self.old file) }
    {
        if let Some(file) = file {
            self.items.push_back(file)?;
        }
        Ok(())
    }

    /// A copy of the first file's name. The error is want of memory.
    pub fn copy_first_name(&self) -> Result<Option<Name>, NoMemory>
        ensures ok { IfOk result (λ name. name ≡ spec.first_name self.now) }
        ensures err { IfErr result (λ e. IsSome (spec.first_name self.now)) }
    {
        match self.items.front() {
            Some(file) => Ok(Some(file.name.copy()?)),
            None => Ok(None),
        }
    }

    /// The first file, which is taken out.
    pub fn take_first(&mut self) -> Option<WantedFile>
        ensures first { result ≡ spec.first_of self.old }
        ensures rest { self.new ≡ spec.behind_first self.old }
    {
        self.items.pop_front()
    }
}

/// The file with its values of the partition columns.
fn with_values(
    alloc: Global,
    schema: &Schema,
    file: &AddFile,
) -> Result<Option<WantedFile>, ScanFault>
    ensures { Reads is_memory result (spec.with_values schema.now file.now) }
{
    let name = Name::new(file.name.copy()?);
    let path = file.path.copy()?;
    match read_partition(alloc, schema, &file.partition_values) {
        Ok(values) => Ok(Some(WantedFile { path, name, values })),
        Err(fault) => Err(of_values(name, fault)),
    }
}

/// What is known of a file.
fn facts_of(alloc: Global, schema: &Schema, file: &AddFile) -> Result<FileFacts, ScanFault>
    ensures facts { Reads is_memory result (spec.facts_of schema.now file.now) }
    ensures width { IfOk result (λ f. length f ≡ length schema.now.columns) }
{
    let name = Name::new(file.name.copy()?);
    match FileFacts::of(alloc, schema, file) {
        Ok(facts) => Ok(facts),
        Err(fault) => Err(of_facts(name, fault)),
    }
}

/// The file, if it may have a row for which the predicate is `Yes`.
fn if_wanted(
    alloc: Global,
    schema: &Schema,
    pred: &Pred<u32>,
    file: &AddFile,
) -> Result<Option<WantedFile>, ScanFault>
    requires { is_bound (length schema.now.columns) pred.now ≡ true }
    ensures { Reads is_memory result (spec.if_wanted schema.now pred.now file.now) }
{
    let facts = facts_of(alloc, schema, file)?;
    if may_match(pred, &facts) {
        with_values(alloc, schema, file)
    } else {
        Ok(None)
    }
}

/// The files that may have a row for which the predicate is `Yes`, or why the first of all can't be looked at whose values
/// of the partition columns have no reading.
#[tactic(auto, unfolding(crate::specs::Files::wanted_in))]
pub(crate) fn wanted_files(
    alloc: Global,
    schema: &Schema,
    pred: &Pred<u32>,
    files: &[&AddFile],
) -> Result<WantedFiles, ScanFault>
    requires { is_bound (length schema.now.columns) pred.now ≡ true }
    ensures { Reads is_memory result (spec.wanted_in schema.now pred.now (map (λ f. f.now) files.now)) }
{
    let mut wanted = WantedFiles::new(alloc);
    for file in files {
        wanted.push(if_wanted(alloc, schema, pred, file)?)?;
    }
    Ok(wanted)
}
