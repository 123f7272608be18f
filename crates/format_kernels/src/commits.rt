//! Commits that are written and read.

ghost use Rattle.std.specs.Prelude.{◌≡◌, ◌<◌, ◌≤◌, ◌⊎◌, length, IfOk, IfErr, string_bytes};
ghost use Rattle.log_actions.specs.Commit.{max_bytes};
ghost use Rattle.log_actions.specs.Grammar.{Commit};
ghost use Rattle.log_actions.specs.Written.{text_of};
ghost use Rattle.format_kernels.specs.Commits as spec;

use crate::fault::KernelFault;
use log_actions::{Action, AddFile, LogFault, LogFaultKind, read_commit, write_commit};
use row_base::{Items, NoMemory, Text};
use std::alloc::{AllocError, Global};

/// Writes a commit of so many added files, and gives the number of its bytes.
pub fn run_write(alloc: Global, count: u32) -> Result<u64, KernelFault>
    ensures ok { IfOk result (λ size. size ≡ length (text_of (spec.adds count))) }
    ensures err { IfErr result (λ e. e ≡ KernelFault.NoMemory) }
{
    let bytes = commit_text(alloc, count)?;
    Ok(bytes.len() as u64)
}

/// Writes a commit of so many added files and reads it, and gives the number of its actions. A text of more bytes than
/// a commit may have is wrong at line 1.
pub fn run_read(alloc: Global, count: u32) -> Result<u64, KernelFault>
    ensures ok { IfOk result (λ actions. actions ≡ count) }
    ensures err { IfErr result (λ e. (e ≡ KernelFault.NoMemory) ⊎ ((e ≡ KernelFault.Line 1) × (max_bytes < length (text_of (spec.adds count))))) }
{
    let bytes = commit_text(alloc, count)?;
    match read_commit(alloc, &bytes) {
        Ok(actions) => Ok(actions.len() as u64),
        Err(fault) => Err(fault_of(fault)),
    }
}

/// Why a commit has no reading.
fn fault_of(fault: LogFault) -> KernelFault
    ensures { result ≡ spec.fault_of fault }
{
    match fault.kind {
        LogFaultKind::NoMemory => KernelFault::NoMemory,
        _ => KernelFault::Line(fault.line),
    }
}

/// The text of a commit of so many added files.
fn commit_text(alloc: Global, count: u32) -> Result<Vec<u8>, NoMemory>
    ensures text { IfOk result (λ text. text.items ≡ text_of (spec.adds count)) }
    ensures back { IfOk result (λ text. length text.items ≤ max_bytes → Commit text.items (spec.adds count)) }
{
    let mut actions = Vec::new(alloc);
    for number in 0..count {
        actions.push(Action::Add(added_file(alloc, number)?))?;
    }
    let text = write_commit(alloc, &actions)?;
    Ok(text)
}

/// An added file with one row, whose only datum is its number.
#[tactic(auto, unfolding(crate::specs::Commits::file_of))]
fn added_file(alloc: Global, number: u32) -> Result<AddFile, NoMemory>
    ensures { IfOk result (λ file. file ≡ spec.file_of number) }
{
    let path = Text::from_string(path_text(alloc, number)?)?;
    Ok(AddFile {
        name: path.copy()?,
        path,
        partition_values: Items::from_vec(Vec::new(alloc)),
        size: 99,
        modification_time: 1_700_000_000_000,
        data_change: true,
        stats: Some(Text::from_string(statistics_text(alloc, number)?)?),
        tags: None,
    })
}

/// The path of a number.
fn path_text(alloc: Global, number: u32) -> Result<String, AllocError>
    ensures { IfOk result (λ text. string_bytes text ≡ spec.path_of number) }
{
    format!(in alloc; "part-{number:05}-018bcfe5-6800-8000-8000-000100000001-c000.parquet")
}

/// The statistics of one row, whose only datum is the number.
#[tactic(auto, unfolding(crate::specs::Commits::statistics_of))]
fn statistics_text(alloc: Global, number: u32) -> Result<String, AllocError>
    ensures { IfOk result (λ text. string_bytes text ≡ spec.statistics_of number) }
{
    format!(in alloc;
        "{{\"maxValues\":{{\"id\":{number}}},\"minValues\":{{\"id\":{number}}},\"nullCount\":{{\"id\":0}},\"numRecords\":1}}"
    )
}
