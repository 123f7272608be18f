//! The schema of a table as the text that the log has, and the values of a file's partition columns as texts, both ways.
#![tactic(auto)]

mod fault;
mod field;
mod partition;
mod partition_written;
mod schema;
mod schema_written;

pub use fault::SchemaTextFault;
pub use partition::read_partition;
pub use partition_written::write_partition;
pub use schema::read_schema;
pub use schema_written::write_schema;
