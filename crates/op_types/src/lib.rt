//! Statements over a table, and their replies.
#![tactic(auto)]

mod bound;
mod refusal;
mod reply;
mod statement;

pub use bound::{BySource, Change, MergeOp, MergeSpec, RowOp, Scope, SetTo};
pub use log_actions::{Feature, LogFaultKind};
pub use refusal::{Clash, ObjectFault, Refusal};
pub use reply::{CheckpointOutcome, Reply, SessionReplies};
pub use statement::{Property, Statement, TableSpec};
