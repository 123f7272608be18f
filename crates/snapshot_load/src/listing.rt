//! What a listing of the log says of commits and checkpoints.
ghost use Rattle.std.specs.Prelude.{◌≡◌, ◌≤◌, ◌<◌, ◌+◌, ◌^◌, ℕ, suc, List, length, IfOk};
ghost use Rattle.snapshot_load.specs.Listing.{commit_version, checkpoint_version, later, newest, missing, is_listed, is_at_most, has_checkpoint};
ghost use Rattle.snapshot_load.specs.Marks.{Marks, mark_at};

use edge_api::{Listed, Name};
use row_base::NoMemory;
use std::alloc::Global;
use table_rules::{LogName, read_log_name};

/// The version whose commit has the name.
fn commit_version(name: &Name) -> Option<u64>
    ensures { result ≡ commit_version name.now }
{
    match read_log_name(name) {
        LogName::Commit(version) => Some(version),
        _ => None,
    }
}

/// The version whose checkpoint, of whatever form, has the name.
fn checkpoint_version(name: &Name) -> Option<u64>
    ensures { result ≡ checkpoint_version name.now }
{
    match read_log_name(name) {
        LogName::CheckpointJson(version) => Some(version),
        LogName::CheckpointOther(version) => Some(version),
        _ => None,
    }
}

/// The greater of two versions, if there are any.
fn later(first: Option<u64>, second: Option<u64>) -> Option<u64>
    ensures { result ≡ later first second }
{
    match (first, second) {
        (Some(a), Some(b)) => Some(a.max(b)),
        (Some(a), None) => Some(a),
        (None, second) => second,
    }
}

/// The greatest version whose commit is listed. Takes no memory.
pub fn newest_version(listing: &[Listed]) -> Option<u64>
    ensures { result ≡ newest listing.now }
{
    let mut found = None;
    for listed in listing {
        found = later(found, commit_version(&listed.name));
    }
    found
}

/// Whether there is a version, and it is at most this one.
fn is_at_most(limit: u64, version: Option<u64>) -> bool
    ensures { result ≡ is_at_most limit version }
{
    match version {
        Some(version) => version <= limit,
        None => false,
    }
}

/// Whether a checkpoint is listed of this version or of an earlier one.
pub(crate) fn has_checkpoint(listing: &[Listed], version: u64) -> bool
    ensures { result ≡ has_checkpoint version listing.now }
{
    for listed in listing {
        if is_at_most(version, checkpoint_version(&listed.name)) {
            return true;
        }
    }
    false
}

/// Marks the place of a version, where it is among those from the first on.
fn mark(marks: &mut [bool], first: u64, version: Option<u64>)
    ensures { Marks first version marks.old marks.new }
{
    if let Some(version) = version {
        if version >= first && version - first < marks.len() as u64 {
            marks[(version - first) as usize] = true;
        }
    }
}

/// The greatest version that has no mark, of those from the first on.
fn last_unmarked(marks: &[bool], first: u64, listing: &[Listed]) -> Option<u64>
    requires marked { (k : ℕ) → k < length marks.now → mark_at marks.now k ≡ is_listed (first + k) listing.now }
    requires bound { first + length marks.now ≤ 2 ^ 62 }
    ensures { result ≡ missing listing.now first (length marks.now) }
{
    let mut count = marks.len();
    while count > 0 {
        count -= 1;
        if !marks[count] {
            return Some(first + count as u64);
        }
    }
    None
}

/// Marks the versions whose commits are listed, of so many from the first on. The error is want of memory.
fn marks_of(
    alloc: Global,
    listing: &[Listed],
    first: u64,
    count: usize,
) -> Result<Vec<bool>, NoMemory>
    ensures same { IfOk result (λ marks. length marks.items ≡ count) }
    ensures marked { IfOk result (λ marks. (k : ℕ) → k < count → mark_at marks.items k ≡ is_listed (first + k) listing.now) }
{
    let mut marks = vec![in alloc; false; count]?;
    for listed in listing {
        mark(&mut marks, first, commit_version(&listed.name));
    }
    Ok(marks)
}

/// The greatest version whose commit isn't listed, of so many from the first on. The error is want of memory.
pub(crate) fn missing_version(
    alloc: Global,
    listing: &[Listed],
    first: u64,
    count: usize,
) -> Result<Option<u64>, NoMemory>
    requires { first + count ≤ 2 ^ 62 }
    ensures { IfOk result (λ version. version ≡ missing listing.now first count) }
{
    let marks = marks_of(alloc, listing, first, count)?;
    Ok(last_unmarked(&marks, first, listing))
}
