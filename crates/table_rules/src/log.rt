//! Names of the log.
ghost use Rattle.std.specs.Prelude.{◌≡◌, ◌==◌, ◌||◌, not, true, IfOk, string_bytes, option_copied, codes, take, drop};
ghost use Rattle.std.specs.List.{list_all};
ghost use Rattle.table_rules.specs.Names as spec;

use crate::digits::{number_of, padded_digits};
use edge_api::Name;
use row_base::{NoMemory, Text};
use std::alloc::Global;

/// What each name of the log begins with.
pub const LOG_PREFIX: &str = "_delta_log/";

/// What a name says (PROTOCOL.md, "Delta Log Entries", "Checkpoints" and "Last Checkpoint File").
#[derive(Clone, Copy, Debug, Drop, PartialEq, Eq)]
pub enum LogName {
    /// The commit of this version.
    Commit(u64),
    /// A checkpoint of this version in JSON.
    CheckpointJson(u64),
    /// A checkpoint of this version in Parquet: by its identifier, in one piece, or one of its parts.
    CheckpointOther(u64),
    /// The hint of the last checkpoint.
    Hint,
    /// Another name in the log, also one whose version has more than 64 bits.
    OtherLog,
    /// A name outside of the log.
    Outside,
}

/// What each name of the log begins with, as a name. The error is want of memory.
pub fn log_prefix(alloc: Global) -> Result<Name, NoMemory>
    ensures { IfOk result (λ name. name ≡ spec.log_prefix) }
{
    Name::make(alloc, LOG_PREFIX)
}

fn version_name(alloc: Global, version: u64, end: &str) -> Result<Name, NoMemory>
    ensures { IfOk result (λ name. name ≡ spec.version_text version end.now) }
{
    let digits = padded_digits::<20>(version);
    let mut name = String::from_str(alloc, LOG_PREFIX)?;
    name.push_str(str::from_utf8(&digits).unwrap())?;
    name.push_str(end)?;
    Name::from_string(name)
}

/// The name of a version's commit. The error is want of memory.
pub fn commit_name(alloc: Global, version: u64) -> Result<Name, NoMemory>
    ensures { IfOk result (λ name. name ≡ spec.commit_text version) }
{
    version_name(alloc, version, ".json")
}

fn checkpoint_end(alloc: Global, id: &str) -> Result<String, NoMemory>
    ensures { IfOk result (λ end. string_bytes end ≡ spec.checkpoint_end id.now) }
{
    Ok(format!(in alloc; ".checkpoint.{id}.json")?)
}

/// The name of a version's checkpoint in JSON (PROTOCOL.md, "Checkpoints"). Its identifier has one character or more,
/// and neither a dot nor a slash. The error is want of memory.
pub fn checkpoint_name(alloc: Global, version: u64, id: &Text) -> Result<Name, NoMemory>
    requires { spec.is_id id.now ≡ true }
    ensures { IfOk result (λ name. name ≡ spec.checkpoint_text version id.now) }
{
    let end = checkpoint_end(alloc, id.as_str())?;
    version_name(alloc, version, end.as_str())
}

fn after<'a>(front: &[u8], text: &'a [u8]) -> Option<&'a [u8]>
    ensures { option_copied result ≡ spec.after front.now text.now }
{
    text.strip_prefix(front)
}

fn before<'a>(end: &[u8], text: &'a [u8]) -> Option<&'a [u8]>
    ensures { option_copied result ≡ spec.before end.now text.now }
{
    text.strip_suffix(end)
}

fn between<'a>(front: &[u8], end: &[u8], text: &'a [u8]) -> Option<&'a [u8]>
    ensures { option_copied result ≡ spec.between front.now end.now text.now }
{
    match after(front, text) {
        Some(rest) => before(end, rest),
        None => None,
    }
}

fn has_no_dot_or_slash(text: &[u8]) -> bool
    ensures { result ≡ list_all (λ b. not ((b == 46) || (b == 47))) text.now }
{
    text.iter().all(|b| !(*b == b'.' || *b == b'/'))
}

fn is_id(text: &[u8]) -> bool
    ensures { result ≡ spec.is_id text.now }
{
    text.len() > 0 && has_no_dot_or_slash(text)
}

fn is_in_order(part: Option<u64>, parts: Option<u64>) -> bool
    ensures { result ≡ spec.is_in_order part parts }
{
    match (part, parts) {
        (Some(part), Some(parts)) => 0 < part && part <= parts,
        (Some(_), None) => false,
        (None, _) => false,
    }
}

fn is_part(text: &[u8]) -> bool
    ensures { result ≡ spec.is_part text.now }
{
    text.len() > 10
        && text[10] == b'.'
        && is_in_order(number_of(10, &text[..10]), number_of(10, &text[11..]))
}

fn is_json_checkpoint(end: &[u8]) -> bool
    ensures { result ≡ spec.holds_of spec.is_id (spec.between (codes ".checkpoint.") (codes ".json") end.now) }
{
    match between(b".checkpoint.", b".json", end) {
        Some(id) => is_id(id),
        None => false,
    }
}

fn is_parquet_checkpoint(end: &[u8]) -> bool
    ensures { result ≡ spec.holds_of spec.is_id_or_part (spec.between (codes ".checkpoint.") (codes ".parquet") end.now) }
{
    match between(b".checkpoint.", b".parquet", end) {
        Some(middle) => is_id(middle) || is_part(middle),
        None => false,
    }
}

fn of_version(version: u64, end: &[u8]) -> LogName
    ensures { result ≡ spec.of_version version end.now }
{
    if end == b".json".as_slice() {
        LogName::Commit(version)
    } else if is_json_checkpoint(end) {
        LogName::CheckpointJson(version)
    } else if end == b".checkpoint.parquet".as_slice() {
        LogName::CheckpointOther(version)
    } else if is_parquet_checkpoint(end) {
        LogName::CheckpointOther(version)
    } else {
        LogName::OtherLog
    }
}

fn with_version(version: Option<u64>, end: &[u8]) -> LogName
    ensures { result ≡ spec.with_version version end.now }
{
    match version {
        Some(version) => of_version(version, end),
        None => LogName::OtherLog,
    }
}

#[tactic(auto, using(std::proofs::lemmas::List::take_min, std::proofs::lemmas::List::drop_min))]
fn cut(text: &[u8], at: usize) -> (&[u8], &[u8])
    ensures front { result.0.now ≡ take at text.now }
    ensures back { result.1.now ≡ drop at text.now }
{
    text.split_at(at.min(text.len()))
}

fn in_log(text: &[u8]) -> LogName
    ensures { result ≡ spec.in_log text.now }
{
    if text == b"_last_checkpoint".as_slice() {
        return LogName::Hint;
    }
    let (digits, end) = cut(text, 20);
    with_version(number_of(20, digits), end)
}

/// What a name says. Takes no memory.
pub fn read_log_name(name: &Name) -> LogName
    ensures { result ≡ spec.log_name name.now }
{
    match after(LOG_PREFIX.as_bytes(), name.as_bytes()) {
        Some(text) => in_log(text),
        None => LogName::Outside,
    }
}
