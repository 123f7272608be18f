//! The rows of a table at a version, by the plainest reading of the texts, with no regard to time or to calls.
ghost use Rattle.std.specs.Prelude.{◌≡◌, IfOk, OnOk};
ghost use Rattle.std.specs.List.{flat_map};
ghost use Rattle.snapshot_replay.specs.Table.{applied, snapshot_at};
ghost use Rattle.row_base.specs.Sorting.{Sorts};
ghost use Rattle.statement_calls.specs.Texts.{read_commit, read_file};
ghost use Rattle.txn_machine.specs.Plain.{or_no_change, commit_in, or_no_rows, rows_in, rows_at};

use crate::texts::{apply_commit, rows_of_file};
use call_phases::Unread;
use edge_api::{Body, Name};
use row_base::{NoMemory, Rows, sorted};
use snapshot_replay::State;
use std::alloc::Global;
use std::collections::VecDeque;

/// A data file: its path, as commits have it, and its bytes.
#[derive(Drop)]
pub struct DataFile {
    pub path: Name,
    pub text: Body,
}

/// Applies a version's commit, where its text has a reading.
fn apply_text(alloc: Global, state: &mut State, version: u64, text: &Body) -> Result<(), NoMemory>
    ensures { OnOk result (state.new ≡ applied state.old (or_no_change (read_commit version text.now))) }
{
    match apply_commit(alloc, state, version, text) {
        Ok(()) => Ok(()),
        Err(Unread::Bad(_)) => Ok(()),
        Err(Unread::NoMemory) => Err(NoMemory),
    }
}

/// The table after one more version.
fn after(
    alloc: Global,
    mut state: State,
    commits: &[Body],
    version: usize,
) -> Result<State, NoMemory>
    ensures { IfOk result (λ s. s ≡ applied state (commit_in commits.now version)) }
{
    match commits.get(version) {
        Some(text) => {
            apply_text(alloc, &mut state, version as u64, text)?;
            Ok(state)
        }
        None => Ok(state),
    }
}

/// The table at a version.
fn state_at(alloc: Global, commits: &[Body], version: usize) -> Result<State, NoMemory>
    ensures { IfOk result (λ s. s ≡ snapshot_at (commit_in commits.now) version) }
{
    match version.checked_sub(1) {
        None => after(alloc, State::new(alloc), commits, version),
        Some(before) => {
            let state = state_at(alloc, commits, before)?;
            after(alloc, state, commits, version)
        }
    }
}

/// The rows of a data file, or none where its text has no reading.
fn rows_of_text(alloc: Global, text: &Body) -> Result<Rows, NoMemory>
    ensures { IfOk result (λ rows. rows ≡ or_no_rows (read_file text.now)) }
{
    match rows_of_file(alloc, text) {
        Ok(rows) => Ok(rows),
        Err(Unread::Bad(_)) => Ok(Rows::new(alloc)),
        Err(Unread::NoMemory) => Err(NoMemory),
    }
}

/// The rows of the first data file with the path.
fn rows_under(alloc: Global, files: &[DataFile], path: &Name) -> Result<Rows, NoMemory>
    ensures { IfOk result (λ rows. rows ≡ rows_in files.now path.now) }
{
    for file in files {
        if file.path.as_bytes() == path.as_bytes() {
            return rows_of_text(alloc, &file.text);
        }
    }
    Ok(Rows::new(alloc))
}

/// The rows of the files of these paths, one file after another.
fn rows_of_paths(alloc: Global, files: &[DataFile], paths: VecDeque<Name>) -> Result<Rows, NoMemory>
    ensures { IfOk result (λ rows. rows ≡ flat_map (rows_in files.now) paths.items) }
{
    let mut rows = Rows::new(alloc);
    for path in paths {
        rows.append(rows_under(alloc, files, &path)?)?;
    }
    Ok(rows)
}

/// The rows of a table at a version, in order, by the texts of its commits from version 0 on and by its data files.
/// A text that isn't there, or that has no reading, says nothing. It is slow and plain: what a select replies is to be
/// compared with it. The error is want of memory.
pub fn replay(
    alloc: Global,
    commits: &[Body],
    files: &[DataFile],
    version: usize,
) -> Result<Rows, NoMemory>
    ensures { IfOk result (λ rows. Sorts (rows_at commits.now files.now version) rows) }
{
    let state = state_at(alloc, commits, version)?;
    let rows = rows_of_paths(alloc, files, state.paths(alloc)?)?;
    sorted(alloc, &rows)
}
