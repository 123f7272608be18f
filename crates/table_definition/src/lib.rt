//! What a table is by its protocol and its metadata: its schema and its rules (Delta transaction log protocol,
//! PROTOCOL.md, "Protocol Evolution", "Change Metadata" and "Schema Serialization Format").
#![tactic(auto)]

mod definition;
mod fault;

pub use definition::{Definition, definition_of};
pub use fault::DefinitionFault;
