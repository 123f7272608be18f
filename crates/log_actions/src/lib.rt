//! The actions of a table's log, as commits and checkpoints hold them: lines of JSON objects, read and written
//! (Delta transaction log protocol, PROTOCOL.md, "Actions").
#![tactic(auto)]

mod action;
mod commit;
mod copy;
mod fault;
mod line;
mod name;
mod named;
mod path;
mod read;
mod write;

pub use action::{
    Action, AddFile, CheckpointMetadata, CommitInfo, Format, MetaData, PartitionMap, Protocol,
    RemoveFile, Sidecar, Txn,
};
pub use commit::{commits_are_whole, read_commit};
pub use fault::{Feature, LogFault, LogFaultKind};
pub use json_lines::{Entry, TextMap, TryCopy};
pub use path::is_absolute;
pub use write::write_commit;
