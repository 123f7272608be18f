//! Names of the objects of a table: commits and checkpoints of its log, identifiers of statements and data files; the
//! protocols that are accepted; and the rules that a table's properties set.
#![tactic(auto)]

mod data;
mod digits;
mod fault;
mod interval;
mod log;
mod protocol;
mod rules;
mod told;

pub use data::{data_file_name, statement_id};
pub use fault::FeatureFault;
pub use interval::read_interval;
pub use log::{LOG_PREFIX, LogName, checkpoint_name, commit_name, log_prefix, read_log_name};
pub use protocol::accepts;
pub use rules::{DEFAULT_RETENTION, Level, Rules, rules_of};
pub use told::names_are_told_apart;
