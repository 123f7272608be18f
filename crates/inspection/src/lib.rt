//! What the run of a script did, to be shown: its calls of the store, or the objects that it leaves.
#![tactic(auto)]

mod journal;
mod objects;
mod top;
mod words;

pub use journal::print_journal;
pub use top::{run, run_journal, run_objects};
pub use words::{Words, read_words};
