//! The table at a version.
ghost use Rattle.std.specs.Prelude.{◌≡◌, ◌≤◌, suc, length, [], OnOk, OnErr, IfOk};
ghost use Rattle.snapshot_replay.specs.Table.{no_table, applied, table_commit, append_commit, paths_of, placed, without_path};
ghost use Rattle.snapshot_replay.specs.State.{files_of};

use edge_api::Name;
use row_base::{Items, NoMemory, Text};
use std::alloc::Global;
use std::collections::{BTreeSet, VecDeque};
use std::marker::Model;

/// How many paths there are.
fn count_of(files: &BTreeSet<Name>) -> usize
    ensures { result ≡ length (files_of files.now.keys) }
{
    files.len()
}

/// Puts a path among those of the live files. The error is want of memory, and then nothing has changed.
fn put_path(files: &mut BTreeSet<Name>, path: Name) -> Result<(), NoMemory>
    ensures ok { OnOk result (files_of files.new.keys ≡ placed (record { path = path; stats = [] }) (without_path (files_of files.old.keys) path)) }
    ensures more { length (files_of files.new.keys) ≤ suc (length (files_of files.old.keys)) }
    ensures err { OnErr result (files.new.keys ≡ files.old.keys) }
{
    let _count = files.len();
    match files.insert(path) {
        Ok(_) => Ok(()),
        Err(_) => Err(NoMemory),
    }
}

/// The paths in order.
fn copy_paths(alloc: Global, files: &BTreeSet<Name>) -> Result<VecDeque<Name>, NoMemory>
    ensures { IfOk result (λ paths. paths.items ≡ paths_of (files_of files.now.keys)) }
{
    let mut paths = VecDeque::new(alloc);
    for path in files.iter() {
        if paths.push_back(path.copy()?).is_err() {
            return Err(NoMemory);
        }
    }
    Ok(paths)
}

/// The table that the commits of versions 0 to some version leave: the names of its columns and its live files
/// (PROTOCOL.md, "Action Reconciliation").
#[derive(Drop)]
pub struct State {
    columns: Option<Items<Text>>,
    files: BTreeSet<Name>,
}

impl Model for State {
    ghost use Rattle.snapshot_replay.specs.Table.{Snapshot};
    ghost use Rattle.snapshot_replay.specs.State.{files_of};

    ghost Value = { Snapshot };

    ghost view = { λ s. record { columns = s.columns; files = files_of s.files.keys } };
}

impl State {
    /// The table before version 0.
    pub fn new(alloc: Global) -> State
        ensures { result ≡ no_table }
    {
        State {
            columns: None,
            files: BTreeSet::new(alloc),
        }
    }

    /// Applies a commit that makes a table of these columns.
    pub fn set_columns(&mut self, columns: Items<Text>)
        ensures { self.new ≡ applied self.old (table_commit columns) }
    {
        self.columns = Some(columns);
    }

    /// Applies a commit that appends a file. The error is want of memory, and then nothing has changed.
    pub fn add_file(&mut self, path: Name) -> Result<(), NoMemory>
        ensures ok { OnOk result (self.new ≡ applied self.old (append_commit path)) }
        ensures more { length self.new.files ≤ suc (length self.old.files) }
        ensures err { OnErr result (self.new ≡ self.old) }
    {
        put_path(&mut self.files, path)
    }

    /// The paths of the live files, in byte order. They share their texts. The error is want of memory.
    pub fn paths(&self, alloc: Global) -> Result<VecDeque<Name>, NoMemory>
        ensures { IfOk result (λ paths. paths.items ≡ paths_of self.now.files) }
    {
        copy_paths(alloc, &self.files)
    }

    /// How many files are live.
    pub fn file_count(&self) -> usize
        ensures { result ≡ length self.now.files }
    {
        count_of(&self.files)
    }
}
