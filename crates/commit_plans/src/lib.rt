//! The actions of a statement's commit but for the clock, and with it at each attempt (Delta transaction log protocol,
//! PROTOCOL.md, "Actions").
#![tactic(auto)]

mod added;
mod laws;
mod made;
mod plan;
mod properties;
mod stamp;
mod text;

pub use added::added_file;
pub use laws::{plans_are_whole, properties_are_made, stamps_rise};
pub use made::{made_metadata, made_protocol};
pub use plan::{CommitPlan, Operation, insert_plan, table_plan};
pub use properties::made_properties;
pub use stamp::{LastStamp, Stamp};
pub use text::TextFault;
