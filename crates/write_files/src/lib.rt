//! New rows as data files: which rows go into which file, the files' bodies and adds, and the phase that puts them.
#![tactic(auto)]

mod file;
mod laws;
pub mod limits;
mod order;
mod pieces;
mod size;
mod write;

pub use laws::files_hold_the_rows;
pub use pieces::pieces_of;
pub use write::{WriteFault, WriteOut};
