//! The checks of statements against the schema of their table: the parts of a statement give their form over places,
//! or the first fault from the left; literal rows give rows that fit, or the first that doesn't.
#![tactic(auto)]

mod column;
mod fault;
mod laws;
mod merge;
mod operation;
mod plain;
mod property;
mod rows;
mod sets;
mod table;

pub use fault::RowsFault;
pub use laws::set_values_are_read;
pub use merge::{bound_merge, settled_merge};
pub use operation::{bound_delete, bound_insert_select, bound_update};
pub use property::{check_properties, check_setting};
pub use rows::literal_rows;
pub use table::bound_table;
