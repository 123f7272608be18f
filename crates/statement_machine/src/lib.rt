//! One statement over a table: the calls that it makes, one after another, and its reply.
#![tactic(auto)]

mod begin;
mod commit;
mod faults;
mod insert;
mod load;
mod log;
mod place;
mod plan;
mod resume;
mod select;
mod stage;
mod table;
mod txn;
mod wait;

pub use begin::{ClockStep, ListStep};
pub use commit::CommitStep;
pub use insert::DataStep;
pub use load::LoadStep;
pub use log::ListLog;
pub use plan::Plan;
pub use select::ScanStep;
pub use stage::Stage;
pub use txn::Txn;
pub use wait::{WaitStep, WaitTime};
