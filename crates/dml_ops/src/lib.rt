//! What delete, update and insert select do to the rows of a file, and what they do to the rows of a table, as laws.
#![tactic(auto)]

mod change;
mod fault;
mod gathered;
mod image;
mod laws;

pub use change::{Changed, change_file, passes};
pub use fault::{ImageFault, OpFault, Wrong, WrongRow};
pub use gathered::{Gathered, copied_row};
pub use image::{selected_row, updated_row};
pub use laws::{
    bags_are_respected, files_add_up, files_are_operated, scope_decides, untouched_rows_stay,
};
