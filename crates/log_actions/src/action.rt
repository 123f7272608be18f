//! The actions and their members (PROTOCOL.md, "Actions").

use json_lines::{NullableMap, TextMap};
use row_base::{Items, Text};

/// The values of a file's partition columns by the names of these: texts and nulls, in byte order of the names.
pub type PartitionMap = NullableMap;

/// The versions of the protocol that reading and writing the table need, and its features (PROTOCOL.md, "Protocol
/// Evolution").
#[derive(Debug, Drop)]
pub struct Protocol {
    pub min_reader_version: u64,
    pub min_writer_version: u64,
    pub reader_features: Option<Items<Text>>,
    pub writer_features: Option<Items<Text>>,
}

/// The format of a table's data files (PROTOCOL.md, "Format Specification").
#[derive(Debug, Drop)]
pub struct Format {
    pub provider: Text,
    pub options: Option<TextMap>,
}

/// What describes a table (PROTOCOL.md, "Change Metadata").
#[derive(Debug, Drop)]
pub struct MetaData {
    pub id: Text,
    pub name: Option<Text>,
    pub description: Option<Text>,
    pub format: Format,
    pub schema_string: Text,
    pub partition_columns: Items<Text>,
    /// In milliseconds since 1970, at most 2^63 - 1.
    pub created_time: Option<u64>,
    pub configuration: Option<TextMap>,
}

/// A data file that is added (PROTOCOL.md, "Add File and Remove File").
#[derive(Debug, Drop)]
pub struct AddFile {
    /// As it stands in the log, with its percent escapes. Paths are compared so.
    pub path: Text,
    /// The path with its percent escapes undone: the name of the object.
    pub name: Text,
    pub partition_values: PartitionMap,
    /// In bytes, at most 2^63 - 1.
    pub size: u64,
    /// In milliseconds since 1970, at most 2^63 - 1.
    pub modification_time: u64,
    pub data_change: bool,
    /// The statistics, a JSON text.
    pub stats: Option<Text>,
    pub tags: Option<TextMap>,
}

/// A data file that is removed (PROTOCOL.md, "Add File and Remove File").
#[derive(Debug, Drop)]
pub struct RemoveFile {
    /// As it stands in the log, with its percent escapes. Paths are compared so.
    pub path: Text,
    /// The path with its percent escapes undone: the name of the object.
    pub name: Text,
    /// In milliseconds since 1970, at most 2^63 - 1. Where it isn't there it counts as 0.
    pub deletion_timestamp: u64,
    pub data_change: bool,
    pub extended_file_metadata: Option<bool>,
    pub partition_values: Option<PartitionMap>,
    /// In bytes, at most 2^63 - 1.
    pub size: Option<u64>,
    pub tags: Option<TextMap>,
}

/// The newest version that an application has committed (PROTOCOL.md, "Transaction Identifiers").
#[derive(Debug, Drop)]
pub struct Txn {
    pub app_id: Text,
    pub version: u64,
    /// In milliseconds since 1970, at most 2^63 - 1. It is read and never written.
    pub last_updated: Option<u64>,
}

/// What is said about a commit (PROTOCOL.md, "Commit Provenance Information"). A member of another kind than it has
/// here counts as absent.
#[derive(Debug, Drop)]
pub struct CommitInfo {
    /// In milliseconds since 1970, at most 2^62.
    pub timestamp: Option<u64>,
    pub operation: Option<Text>,
    pub read_version: Option<u64>,
    pub isolation_level: Option<Text>,
    pub is_blind_append: Option<bool>,
    pub txn_id: Option<Text>,
}

/// What describes a checkpoint (PROTOCOL.md, "Checkpoint Metadata").
#[derive(Debug, Drop)]
pub struct CheckpointMetadata {
    pub version: u64,
    pub tags: Option<TextMap>,
}

/// A file that holds a part of a checkpoint (PROTOCOL.md, "Sidecar File Information").
#[derive(Debug, Drop)]
pub struct Sidecar {
    pub path: Text,
    /// In bytes, at most 2^63 - 1.
    pub size_in_bytes: u64,
    /// In milliseconds since 1970, at most 2^63 - 1.
    pub modification_time: Option<u64>,
}

/// What a line of a commit or a checkpoint says.
#[derive(Debug, Drop)]
pub enum Action {
    Protocol(Protocol),
    Meta(MetaData),
    Add(AddFile),
    Remove(RemoveFile),
    Txn(Txn),
    Info(CommitInfo),
    Checkpoint(CheckpointMetadata),
    Sidecar(Sidecar),
    /// An action that changes nothing that the engine keeps: of change data, of domain metadata, or of a name that
    /// isn't known.
    Ignored,
}
