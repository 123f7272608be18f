//! Statements over a table of any kinds of columns, and their replies.
#![tactic(auto)]

mod literals;
mod refusal;
mod reply;
mod statement;

pub use literals::LiteralRows;
pub use refusal::{Clash, ObjectFault, Refusal, RowWrong};
pub use reply::{CheckpointOutcome, Reply, SessionReplies};
pub use statement::{Statement, TableSpec};
