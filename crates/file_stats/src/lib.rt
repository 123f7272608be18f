//! The statistics of a data file: how many rows it has, how many of them are null in each data column, and bounds of
//! the other values (PROTOCOL.md, "Per-file Statistics"). They are taken of rows, written as the log has them, and read.
#![tactic(auto)]

mod bound;
mod cut;
mod laws;
mod of_rows;
mod read;
mod stats;
mod write;

pub use laws::{bounds_are_of_their_kind, kept_stats_are_true, stats_are_true};
pub use of_rows::stats_of;
pub use read::read_stats;
pub use stats::{ColumnStats, Stats};
pub use write::write_stats;
