//! The table that the commits of a JSON log leave: their actions, reconciled by version and by line (Delta transaction
//! log protocol, PROTOCOL.md, "Action Reconciliation").
#![tactic(auto)]

mod kept;
mod keyed;
mod listed;
mod stamp;
mod state;

pub use kept::Kept;
pub use stamp::{LAST_STAMP, stamp_after, stamp_in};
pub use state::State;
