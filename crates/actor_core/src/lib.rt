//! Actors that share an object store, one call at a time, in the order of a schedule.
#![tactic(auto)]

mod piece;
mod schedule;

pub use piece::{Till, run_piece, step_actor};
pub use schedule::{Item, ItemForm, run_schedule};
