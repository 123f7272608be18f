//! A merge of the rows of a source into the rows of files, and what it does to the rows of a table, as laws.
#![tactic(auto)]

mod ambiguous;
mod fault;
mod keys;
mod laws;
mod matching;
mod merge;
mod outcome;
mod unmatched;

pub use fault::MergeFault;
pub use laws::{bags_are_merged, merge_is_operated, scope_is_merged};
pub use merge::{Merged, merge_files};
