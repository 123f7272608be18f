//! A script is read from a source and run over a store, and how that ended is told: the common part of the programs
//! that take a script.
#![tactic(auto)]

mod given;
mod reading;
mod running;
mod status;
mod telling;

pub use given::words_or_status;
pub use reading::read_script;
pub use running::{ScriptReplies, new_store, run_script};
pub use status::Status;
pub use telling::{say, tell};
