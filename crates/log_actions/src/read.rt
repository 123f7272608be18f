//! Actions read from the members of JSON objects.
ghost use Rattle.std.specs.Prelude.{◌≡◌, IfOk};
ghost use Rattle.serde_json.specs.Data.{object};
ghost use Rattle.serde_json.specs.View.{view};
ghost use Rattle.row_base.specs.Readings.{Gives};
ghost use Rattle.json_lines.specs.Gives.{is_memory};
ghost use Rattle.json_lines.specs.Kinds.{needed as spec_needed, as_integer};
ghost use Rattle.log_actions.specs.Actions as spec;
ghost use Rattle.log_actions.specs.Written.{members_of, format_fields};

use crate::action::{
    Action, AddFile, CheckpointMetadata, CommitInfo, Format, MetaData, Protocol, RemoveFile,
    Sidecar, Txn,
};
use crate::name::{ActionName, action_name};
use crate::path::name_of_path;
use crate::write::format_members;
use json_lines::{Member, ShapeFault, needed, needed_integer, optional, optional_integer};
use row_base::{NoMemory, Text};
use serde_json::Value;
use std::alloc::Global;

/// The greatest size, in bytes, and time, in milliseconds.
const MAX_AMOUNT: u64 = (1 << 63) - 1;

/// The greatest time of a commit, in milliseconds.
const MAX_STAMP: u64 = 1 << 62;

#[tactic(auto, unfolding(crate::specs::Actions::protocol_of))]
fn read_protocol(alloc: Global, body: &Value) -> Result<Protocol, ShapeFault>
    ensures { Gives is_memory (λ x. x) result (spec.protocol_of (view body.now)) }
{
    let min_reader_version = needed_integer(body, "minReaderVersion", u64::MAX)?;
    let min_writer_version = needed_integer(body, "minWriterVersion", u64::MAX)?;
    let reader_features = optional(alloc, body, "readerFeatures")?;
    let writer_features = optional(alloc, body, "writerFeatures")?;
    Ok(Protocol {
        min_reader_version,
        min_writer_version,
        reader_features,
        writer_features,
    })
}

#[tactic(auto, unfolding(crate::specs::Actions::format_of))]
fn read_format(alloc: Global, body: &Value) -> Result<Format, ShapeFault>
    ensures { Gives is_memory (λ x. x) result (spec.format_of (view body.now)) }
{
    let provider = needed(alloc, body, "provider")?;
    let options = optional(alloc, body, "options")?;
    Ok(Format { provider, options })
}

/// The format of data files.
impl Member for Format {
    ghost kind = { spec.format_of };

    ghost written = { λ f. object (members_of (format_fields f)) };

    fn read(alloc: Global, value: &Value) -> Result<Format, ShapeFault> {
        read_format(alloc, value)
    }

    fn write(&self, alloc: Global) -> Result<Value, NoMemory> {
        Ok(Value::Object(format_members(alloc, self)?))
    }
}

#[tactic(auto, unfolding(crate::specs::Actions::metadata_of))]
fn read_metadata(alloc: Global, body: &Value) -> Result<MetaData, ShapeFault>
    ensures { Gives is_memory (λ x. x) result (spec.metadata_of (view body.now)) }
{
    let created_time = optional_integer(body, "createdTime", MAX_AMOUNT)?;
    let id = needed(alloc, body, "id")?;
    let name = optional(alloc, body, "name")?;
    let description = optional(alloc, body, "description")?;
    let format = needed(alloc, body, "format")?;
    let schema_string = needed(alloc, body, "schemaString")?;
    let partition_columns = needed(alloc, body, "partitionColumns")?;
    let configuration = optional(alloc, body, "configuration")?;
    Ok(MetaData {
        id,
        name,
        description,
        format,
        schema_string,
        partition_columns,
        created_time,
        configuration,
    })
}

#[tactic(auto, unfolding(crate::specs::Actions::add_of))]
fn read_add(alloc: Global, body: &Value) -> Result<AddFile, ShapeFault>
    ensures { Gives is_memory (λ x. x) result (spec.add_of (view body.now)) }
{
    let path: Text = needed(alloc, body, "path")?;
    let name = name_of_path(alloc, &path)?;
    let partition_values = needed(alloc, body, "partitionValues")?;
    let size = needed_integer(body, "size", MAX_AMOUNT)?;
    let modification_time = needed_integer(body, "modificationTime", MAX_AMOUNT)?;
    let data_change = needed(alloc, body, "dataChange")?;
    let stats = optional(alloc, body, "stats")?;
    let tags = optional(alloc, body, "tags")?;
    Ok(AddFile {
        path,
        name,
        partition_values,
        size,
        modification_time,
        data_change,
        stats,
        tags,
    })
}

#[tactic(auto, unfolding(crate::specs::Actions::remove_of))]
fn read_remove(alloc: Global, body: &Value) -> Result<RemoveFile, ShapeFault>
    ensures { Gives is_memory (λ x. x) result (spec.remove_of (view body.now)) }
{
    let path: Text = needed(alloc, body, "path")?;
    let name = name_of_path(alloc, &path)?;
    let deleted = optional_integer(body, "deletionTimestamp", MAX_AMOUNT)?;
    let data_change = needed(alloc, body, "dataChange")?;
    let extended_file_metadata = optional(alloc, body, "extendedFileMetadata")?;
    let partition_values = optional(alloc, body, "partitionValues")?;
    let size = optional_integer(body, "size", MAX_AMOUNT)?;
    let tags = optional(alloc, body, "tags")?;
    Ok(RemoveFile {
        path,
        name,
        deletion_timestamp: deleted.unwrap_or(0),
        data_change,
        extended_file_metadata,
        partition_values,
        size,
        tags,
    })
}

#[tactic(auto, unfolding(crate::specs::Actions::txn_of))]
fn read_txn(alloc: Global, body: &Value) -> Result<Txn, ShapeFault>
    ensures { Gives is_memory (λ x. x) result (spec.txn_of (view body.now)) }
{
    let app_id = needed(alloc, body, "appId")?;
    let version = needed_integer(body, "version", u64::MAX)?;
    let last_updated = optional_integer(body, "lastUpdated", MAX_AMOUNT)?;
    Ok(Txn {
        app_id,
        version,
        last_updated,
    })
}

/// What a member stands for, where it is there and has its kind.
fn if_one<M: Member>(alloc: Global, body: &Value, name: &str) -> Result<Option<M>, NoMemory>
    ensures { IfOk result (λ o. o ≡ spec_needed M.kind name.now (view body.now)) }
{
    match needed(alloc, body, name) {
        Ok(value) => Ok(Some(value)),
        Err(ShapeFault::Shape) => Ok(None),
        Err(ShapeFault::NoMemory) => Err(NoMemory),
    }
}

/// An integer, where the member is one up to the limit.
fn integer_if_one(body: &Value, name: &str, limit: u64) -> Result<Option<u64>, NoMemory>
    ensures { IfOk result (λ o. o ≡ spec_needed (as_integer limit) name.now (view body.now)) }
{
    match needed_integer(body, name, limit) {
        Ok(number) => Ok(Some(number)),
        Err(ShapeFault::Shape) => Ok(None),
        Err(ShapeFault::NoMemory) => Err(NoMemory),
    }
}

#[tactic(auto, unfolding(crate::specs::Actions::said_in))]
fn read_said(alloc: Global, body: &Value) -> Result<CommitInfo, NoMemory>
    ensures { IfOk result (λ i. i ≡ spec.said_in (view body.now)) }
{
    let timestamp = integer_if_one(body, "timestamp", MAX_STAMP)?;
    let operation = if_one(alloc, body, "operation")?;
    let read_version = integer_if_one(body, "readVersion", u64::MAX)?;
    let isolation_level = if_one(alloc, body, "isolationLevel")?;
    let is_blind_append = if_one(alloc, body, "isBlindAppend")?;
    let txn_id = if_one(alloc, body, "txnId")?;
    Ok(CommitInfo {
        timestamp,
        operation,
        read_version,
        isolation_level,
        is_blind_append,
        txn_id,
    })
}

#[tactic(auto, unfolding(crate::specs::Actions::commit_info_of))]
fn read_commit_info(alloc: Global, body: &Value) -> Result<CommitInfo, ShapeFault>
    ensures { Gives is_memory (λ x. x) result (spec.commit_info_of (view body.now)) }
{
    if body.is_object() {
        Ok(read_said(alloc, body)?)
    } else {
        Err(ShapeFault::Shape)
    }
}

#[tactic(auto, unfolding(crate::specs::Actions::checkpoint_of))]
fn read_checkpoint(alloc: Global, body: &Value) -> Result<CheckpointMetadata, ShapeFault>
    ensures { Gives is_memory (λ x. x) result (spec.checkpoint_of (view body.now)) }
{
    let version = needed_integer(body, "version", u64::MAX)?;
    let tags = optional(alloc, body, "tags")?;
    Ok(CheckpointMetadata { version, tags })
}

#[tactic(auto, unfolding(crate::specs::Actions::sidecar_of))]
fn read_sidecar(alloc: Global, body: &Value) -> Result<Sidecar, ShapeFault>
    ensures { Gives is_memory (λ x. x) result (spec.sidecar_of (view body.now)) }
{
    let path: Text = needed(alloc, body, "path")?;
    let _name = name_of_path(alloc, &path)?;
    let size_in_bytes = needed_integer(body, "sizeInBytes", MAX_AMOUNT)?;
    let modification_time = optional_integer(body, "modificationTime", MAX_AMOUNT)?;
    Ok(Sidecar {
        path,
        size_in_bytes,
        modification_time,
    })
}

/// The action that the only member of a line's object is, by its name and its value. The fault of its shape says that
/// a needed member of it is absent, or one is of the wrong kind.
#[tactic(auto, unfolding(crate::specs::Actions::action_of))]
pub(crate) fn read_action(alloc: Global, name: &str, body: &Value) -> Result<Action, ShapeFault>
    ensures { Gives is_memory (λ x. x) result (spec.action_of name.now (view body.now)) }
{
    match action_name(name) {
        ActionName::Protocol => Ok(Action::Protocol(read_protocol(alloc, body)?)),
        ActionName::Meta => Ok(Action::Meta(read_metadata(alloc, body)?)),
        ActionName::Add => Ok(Action::Add(read_add(alloc, body)?)),
        ActionName::Remove => Ok(Action::Remove(read_remove(alloc, body)?)),
        ActionName::Txn => Ok(Action::Txn(read_txn(alloc, body)?)),
        ActionName::Info => Ok(Action::Info(read_commit_info(alloc, body)?)),
        ActionName::Checkpoint => Ok(Action::Checkpoint(read_checkpoint(alloc, body)?)),
        ActionName::Sidecar => Ok(Action::Sidecar(read_sidecar(alloc, body)?)),
        ActionName::Other => Ok(Action::Ignored),
    }
}
