//! Which truths a predicate may have for the rows of a data file, by what the log says of the file: so files that can
//! have no row for which it is `Yes` are passed over.
#![tactic(auto)]

mod column;
mod fault;
mod file;
mod laws;
mod possible;
mod walk;

pub use column::ColumnFacts;
pub use fault::PartitionFault;
pub use file::FileFacts;
pub use laws::{facts_hold, no_row_is_lost};
pub use walk::may_match;
