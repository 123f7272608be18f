//! The table that commits leave: their actions, reconciled in order of version.
#![tactic(auto)]

mod laws;
mod state;

pub use laws::newest_action_decides;
pub use state::State;
