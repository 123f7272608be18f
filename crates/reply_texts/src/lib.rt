//! The replies of a run as they are printed, and the printer of such texts.
#![tactic(auto)]

mod literal;
mod printer;
mod refusal;
mod reply;

pub use printer::Printer;
pub use reply::print_replies;
