//! The rules that a table's properties set.
ghost use Rattle.std.specs.Prelude.{◌≡◌, ℕ, List, [], option_copied, unwrap_or, OnOk, IfErr};
ghost use Rattle.table_rules.specs.Faults.{Judges};
ghost use Rattle.table_rules.specs.Properties as spec;

use crate::fault::FeatureFault;
use crate::interval::read_interval;
use json_lines::{Entry, TextMap};
use log_actions::{Feature, MetaData};
use row_base::Text;
use row_base::numbers::read_decimal;

/// `delta.deletedFileRetentionDuration` where it isn't set, in milliseconds: a week.
pub const DEFAULT_RETENTION: u64 = 604_800_000;

/// `delta.logRetentionDuration` where it isn't set, in milliseconds: thirty days.
const DEFAULT_LOG_RETENTION: u64 = 2_592_000_000;

/// The greatest number of commits between two checkpoints.
const MAX_CHECKPOINT_INTERVAL: u64 = 1_000_000;

/// Which commits of others a commit can stand behind: the table's `delta.isolationLevel`.
#[derive(Clone, Copy, Debug, Drop, PartialEq, Eq)]
pub enum Level {
    Serializable,
    WriteSerializable,
}

/// What the properties of a table set.
#[derive(Clone, Copy, Debug, Drop, PartialEq, Eq)]
pub struct Rules {
    /// `delta.isolationLevel`, by default `WriteSerializable`.
    pub level: Level,
    /// `delta.deletedFileRetentionDuration` in milliseconds, by default `DEFAULT_RETENTION`.
    pub retention: u64,
    /// `delta.checkpointInterval` in commits, from 1 to `MAX_CHECKPOINT_INTERVAL`, by default 10.
    pub interval: u64,
    /// `delta.appendOnly` (PROTOCOL.md, "Append-only Tables"), by default false, and the only value so far.
    pub append_only: bool,
}

fn level_in(text: &Text) -> Option<Level>
    ensures { result ≡ spec.level_in text.now }
{
    match text.as_str() {
        "Serializable" => Some(Level::Serializable),
        "WriteSerializable" => Some(Level::WriteSerializable),
        _ => None,
    }
}

fn checkpoint_interval_in(text: &Text) -> Option<u64>
    ensures { result ≡ spec.checkpoint_interval_in text.now }
{
    match read_decimal(text.as_str().as_bytes()) {
        Some(number) if 0 < number && number <= MAX_CHECKPOINT_INTERVAL => Some(number),
        _ => None,
    }
}

fn append_only_in(text: &Text) -> Option<bool>
    ensures { result ≡ spec.append_only_in text.now }
{
    match text.as_str() {
        "false" => Some(false),
        _ => None,
    }
}

#[tactic(auto, unfolding(crate::specs::Properties::entry_of))]
fn entry_of<'a>(configuration: &'a [Entry<Text>], key: &str) -> Option<&'a Entry<Text>>
    ensures { option_copied result ≡ spec.entry_of key.now configuration.now }
{
    configuration
        .iter()
        .find(|entry| entry.name.as_str() == key)
}

/// A property's value, where its text has one.
fn or_refused<T: Drop>(entry: &Entry<Text>, value: Option<T>) -> Result<T, FeatureFault>
    ensures { Judges result (spec.or_refused entry.now.name value) }
{
    match value {
        Some(value) => Ok(value),
        None => Err(FeatureFault::Unsupported(Feature::Property {
            key: entry.name.copy()?,
        })),
    }
}

fn level_of(configuration: &[Entry<Text>]) -> Result<Level, FeatureFault>
    ensures { Judges result (spec.level_of configuration.now) }
{
    match entry_of(configuration, "delta.isolationLevel") {
        Some(entry) => or_refused(entry, level_in(&entry.value)),
        None => Ok(Level::WriteSerializable),
    }
}

fn checkpoint_interval_of(configuration: &[Entry<Text>]) -> Result<u64, FeatureFault>
    ensures { Judges result (spec.checkpoint_interval_of configuration.now) }
{
    match entry_of(configuration, "delta.checkpointInterval") {
        Some(entry) => or_refused(entry, checkpoint_interval_in(&entry.value)),
        None => Ok(10),
    }
}

fn append_only_of(configuration: &[Entry<Text>]) -> Result<bool, FeatureFault>
    ensures { Judges result (spec.append_only_of configuration.now) }
{
    match entry_of(configuration, "delta.appendOnly") {
        Some(entry) => or_refused(entry, append_only_in(&entry.value)),
        None => Ok(false),
    }
}

fn retention_of(configuration: &[Entry<Text>]) -> Result<u64, FeatureFault>
    ensures { Judges result (spec.retention_of configuration.now) }
{
    match entry_of(configuration, "delta.deletedFileRetentionDuration") {
        Some(entry) => or_refused(entry, read_interval(&entry.value)),
        None => Ok(DEFAULT_RETENTION),
    }
}

fn log_retention_of(configuration: &[Entry<Text>]) -> Result<u64, FeatureFault>
    ensures { Judges result (spec.log_retention_of configuration.now) }
{
    match entry_of(configuration, "delta.logRetentionDuration") {
        Some(entry) => or_refused(entry, read_interval(&entry.value)),
        None => Ok(DEFAULT_LOG_RETENTION),
    }
}

fn rules_in(configuration: &[Entry<Text>]) -> Result<Rules, FeatureFault>
    ensures { Judges result (spec.rules_in configuration.now) }
{
    let append_only = append_only_of(configuration)?;
    let interval = checkpoint_interval_of(configuration)?;
    let retention = retention_of(configuration)?;
    let level = level_of(configuration)?;
    let _log_retention = log_retention_of(configuration)?;
    Ok(Rules {
        level,
        retention,
        interval,
        append_only,
    })
}

fn rules_set(configuration: &Option<TextMap>) -> Result<Rules, FeatureFault>
    ensures { Judges result (spec.rules_in (unwrap_or configuration.now [])) }
{
    match configuration {
        Some(configuration) => rules_in(configuration.as_slice()),
        None => rules_in(&[]),
    }
}

/// The rules that a table's properties set, with their defaults (Delta Lake, "Table properties reference"). A known
/// property with another value is unsupported, and of several the one with the least key in byte order is named. Other
/// properties are not looked at, and neither is `delta.checkpointPolicy`.
pub fn rules_of(meta: &MetaData) -> Result<Rules, FeatureFault>
    ensures value { Judges result (spec.rules_of meta.now) }
    ensures none_bad { OnOk result ((key : List ℕ) → ¬ (spec.IsBad (spec.configuration_of meta.now) key)) }
    ensures least_bad { IfErr result (spec.NamesLeast (spec.configuration_of meta.now)) }
{
    rules_set(&meta.configuration)
}
