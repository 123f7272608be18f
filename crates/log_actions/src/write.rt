//! The text of actions.
ghost use Rattle.std.specs.Prelude.{◌≡◌, ◌≤◌, ◌++◌, [], length, flat_map, Some, IfOk, OnOk, option_map};
ghost use Rattle.serde_json.specs.View.{view, members_view};
ghost use Rattle.json_lines.specs.Written.{single_object};
ghost use Rattle.log_actions.specs.Written as spec;
ghost use Rattle.log_actions.specs.Commit.{max_bytes};
ghost use Rattle.log_actions.specs.Grammar.{Commit};
ghost use Rattle.log_actions.specs.Whole.{AreWhole, AllReturn, ReturnsIfWhole};

use crate::action::{
    Action, AddFile, CheckpointMetadata, CommitInfo, Format, MetaData, Protocol, RemoveFile,
    Sidecar, Txn,
};
use json_lines::{push_line, put_member, put_optional, single_value};
use row_base::NoMemory;
use serde_json::{Map, Value};
use std::alloc::Global;

/// The members of an object.
type Members = Map<String, Value>;

#[tactic(auto, unfolding(crate::specs::Written::members_of))]
fn protocol_members(alloc: Global, protocol: &Protocol) -> Result<Members, NoMemory>
    ensures { IfOk result (λ m. members_view m.entries ≡ spec.members_of (spec.protocol_fields protocol.now)) }
{
    let mut members = Map::new(alloc);
    put_member(
        alloc,
        &mut members,
        "minReaderVersion",
        &protocol.min_reader_version,
    )?;
    put_member(
        alloc,
        &mut members,
        "minWriterVersion",
        &protocol.min_writer_version,
    )?;
    put_optional(
        alloc,
        &mut members,
        "readerFeatures",
        &protocol.reader_features,
    )?;
    put_optional(
        alloc,
        &mut members,
        "writerFeatures",
        &protocol.writer_features,
    )?;
    Ok(members)
}

#[tactic(auto, unfolding(crate::specs::Written::members_of))]
pub(crate) fn format_members(alloc: Global, format: &Format) -> Result<Members, NoMemory>
    ensures { IfOk result (λ m. members_view m.entries ≡ spec.members_of (spec.format_fields format.now)) }
{
    let mut members = Map::new(alloc);
    put_optional(alloc, &mut members, "options", &format.options)?;
    put_member(alloc, &mut members, "provider", &format.provider)?;
    Ok(members)
}

#[tactic(auto, unfolding(crate::specs::Written::members_of))]
fn metadata_members(alloc: Global, meta: &MetaData) -> Result<Members, NoMemory>
    ensures { IfOk result (λ m. members_view m.entries ≡ spec.members_of (spec.metadata_fields meta.now)) }
{
    let mut members = Map::new(alloc);
    put_optional(alloc, &mut members, "configuration", &meta.configuration)?;
    put_optional(alloc, &mut members, "createdTime", &meta.created_time)?;
    put_optional(alloc, &mut members, "description", &meta.description)?;
    put_member(alloc, &mut members, "format", &meta.format)?;
    put_member(alloc, &mut members, "id", &meta.id)?;
    put_optional(alloc, &mut members, "name", &meta.name)?;
    put_member(
        alloc,
        &mut members,
        "partitionColumns",
        &meta.partition_columns,
    )?;
    put_member(alloc, &mut members, "schemaString", &meta.schema_string)?;
    Ok(members)
}

#[tactic(auto, unfolding(crate::specs::Written::members_of))]
fn add_members(alloc: Global, add: &AddFile) -> Result<Members, NoMemory>
    ensures { IfOk result (λ m. members_view m.entries ≡ spec.members_of (spec.add_fields add.now)) }
{
    let mut members = Map::new(alloc);
    put_member(alloc, &mut members, "dataChange", &add.data_change)?;
    put_member(
        alloc,
        &mut members,
        "modificationTime",
        &add.modification_time,
    )?;
    put_member(
        alloc,
        &mut members,
        "partitionValues",
        &add.partition_values,
    )?;
    put_member(alloc, &mut members, "path", &add.path)?;
    put_member(alloc, &mut members, "size", &add.size)?;
    put_optional(alloc, &mut members, "stats", &add.stats)?;
    put_optional(alloc, &mut members, "tags", &add.tags)?;
    Ok(members)
}

#[tactic(auto, unfolding(crate::specs::Written::members_of))]
fn remove_members(alloc: Global, remove: &RemoveFile) -> Result<Members, NoMemory>
    ensures { IfOk result (λ m. members_view m.entries ≡ spec.members_of (spec.remove_fields remove.now)) }
{
    let mut members = Map::new(alloc);
    put_member(alloc, &mut members, "dataChange", &remove.data_change)?;
    put_member(
        alloc,
        &mut members,
        "deletionTimestamp",
        &remove.deletion_timestamp,
    )?;
    put_optional(
        alloc,
        &mut members,
        "extendedFileMetadata",
        &remove.extended_file_metadata,
    )?;
    put_optional(
        alloc,
        &mut members,
        "partitionValues",
        &remove.partition_values,
    )?;
    put_member(alloc, &mut members, "path", &remove.path)?;
    put_optional(alloc, &mut members, "size", &remove.size)?;
    put_optional(alloc, &mut members, "tags", &remove.tags)?;
    Ok(members)
}

#[tactic(auto, unfolding(crate::specs::Written::members_of))]
fn txn_members(alloc: Global, txn: &Txn) -> Result<Members, NoMemory>
    ensures { IfOk result (λ m. members_view m.entries ≡ spec.members_of (spec.txn_fields txn.now)) }
{
    let mut members = Map::new(alloc);
    put_member(alloc, &mut members, "appId", &txn.app_id)?;
    put_member(alloc, &mut members, "version", &txn.version)?;
    Ok(members)
}

#[tactic(auto, unfolding(crate::specs::Written::members_of))]
fn commit_info_members(alloc: Global, info: &CommitInfo) -> Result<Members, NoMemory>
    ensures { IfOk result (λ m. members_view m.entries ≡ spec.members_of (spec.commit_info_fields info.now)) }
{
    let mut members = Map::new(alloc);
    put_optional(alloc, &mut members, "isBlindAppend", &info.is_blind_append)?;
    put_optional(alloc, &mut members, "isolationLevel", &info.isolation_level)?;
    put_optional(alloc, &mut members, "operation", &info.operation)?;
    put_optional(alloc, &mut members, "readVersion", &info.read_version)?;
    put_optional(alloc, &mut members, "timestamp", &info.timestamp)?;
    put_optional(alloc, &mut members, "txnId", &info.txn_id)?;
    Ok(members)
}

#[tactic(auto, unfolding(crate::specs::Written::members_of))]
fn checkpoint_members(alloc: Global, checkpoint: &CheckpointMetadata) -> Result<Members, NoMemory>
    ensures { IfOk result (λ m. members_view m.entries ≡ spec.members_of (spec.checkpoint_fields checkpoint.now)) }
{
    let mut members = Map::new(alloc);
    put_optional(alloc, &mut members, "tags", &checkpoint.tags)?;
    put_member(alloc, &mut members, "version", &checkpoint.version)?;
    Ok(members)
}

#[tactic(auto, unfolding(crate::specs::Written::members_of))]
fn sidecar_members(alloc: Global, sidecar: &Sidecar) -> Result<Members, NoMemory>
    ensures { IfOk result (λ m. members_view m.entries ≡ spec.members_of (spec.sidecar_fields sidecar.now)) }
{
    let mut members = Map::new(alloc);
    put_optional(
        alloc,
        &mut members,
        "modificationTime",
        &sidecar.modification_time,
    )?;
    put_member(alloc, &mut members, "path", &sidecar.path)?;
    put_member(alloc, &mut members, "sizeInBytes", &sidecar.size_in_bytes)?;
    Ok(members)
}

fn some_object(alloc: Global, name: &str, members: Members) -> Result<Option<Value>, NoMemory>
    ensures { IfOk result (λ v. option_map view v ≡ Some (single_object name.now (members_view members.entries))) }
{
    Ok(Some(single_value(alloc, name, members)?))
}

#[tactic(auto, unfolding(crate::specs::Written::action_data))]
fn action_value(alloc: Global, action: &Action) -> Result<Option<Value>, NoMemory>
    ensures { IfOk result (λ v. option_map view v ≡ spec.action_data action.now) }
{
    match action {
        Action::Protocol(protocol) => some_object(
            alloc,
            "protocol",
            protocol_members(alloc, protocol)?,
        ),
        Action::Meta(meta) => some_object(alloc, "metaData", metadata_members(alloc, meta)?),
        Action::Add(add) => some_object(alloc, "add", add_members(alloc, add)?),
        Action::Remove(remove) => some_object(alloc, "remove", remove_members(alloc, remove)?),
        Action::Txn(txn) => some_object(alloc, "txn", txn_members(alloc, txn)?),
        Action::Info(info) => some_object(alloc, "commitInfo", commit_info_members(alloc, info)?),
        Action::Checkpoint(checkpoint) => {
            some_object(
                alloc,
                "checkpointMetadata",
                checkpoint_members(alloc, checkpoint)?,
            )
        }
        Action::Sidecar(sidecar) => some_object(alloc, "sidecar", sidecar_members(alloc, sidecar)?),
        Action::Ignored => Ok(None),
    }
}

fn push_action(alloc: Global, out: &mut Vec<u8>, action: &Action) -> Result<(), NoMemory>
    ensures text { OnOk result (out.new.items ≡ out.old.items ++ spec.line_of_action action.now) }
    ensures back { OnOk result (ReturnsIfWhole action.now) }
{
    match action_value(alloc, action)? {
        Some(value) => {
            push_line(alloc, out, &value)?;
            Ok(())
        }
        None => Ok(()),
    }
}

fn write_lines(alloc: Global, actions: &[Action]) -> Result<Vec<u8>, NoMemory>
    ensures text { IfOk result (λ v. v.items ≡ flat_map spec.line_of_action actions.now) }
    ensures back { OnOk result (AllReturn actions.now) }
{
    let mut out = Vec::new(alloc);
    for action in actions {
        push_action(alloc, &mut out, action)?;
    }
    Ok(out)
}

/// The text of a commit: a line of compact JSON for each action, with members in byte order of their names. An ignored
/// action is written as nothing. Actions that are whole, none of them twice, are read back from a text that is not too
/// long.
#[tactic(auto, unfolding(crate::specs::Written::text_of))]
pub fn write_commit(alloc: Global, actions: &[Action]) -> Result<Vec<u8>, NoMemory>
    ensures text { IfOk result (λ v. v.items ≡ spec.text_of actions.now) }
    ensures back { IfOk result (λ v. AreWhole [] actions.now → length v.items ≤ max_bytes
        → Commit v.items actions.now) }
{
    write_lines(alloc, actions)
}
