//! One statement over a table: the calls that it makes, one after another, and its reply.
#![tactic(auto)]

mod commit;
mod commits;
mod files;
mod insert;
mod judge;
mod listing;
mod log;
mod machine;
mod place;
mod plain;
mod plan;
mod resume;
mod select;
mod stage;
mod table;
mod texts;
mod txn;

pub use commit::CommitStep;
pub use commits::Commits;
pub use files::{Files, Paths};
pub use insert::DataStep;
pub use judge::CommitJudge;
pub use log::ListLog;
pub use machine::{ClockStep, ListStep, LoadStep};
pub use plain::{DataFile, replay};
pub use plan::{Plan, Supported};
pub use select::ScanStep;
pub use stage::Stage;
pub use txn::Txn;
