//! The attempts of a commit: optimistic concurrency on a log with put-if-absent.
#![tactic(auto)]

mod attempts;
mod fault;
mod judge;
mod progress;
mod stage;
mod steps;

pub use attempts::Attempts;
pub use fault::{AttemptFault, Landed, Lost, WinnerFault, Won};
pub use judge::{BodyFault, Judge, JudgeFault, Verdict};
