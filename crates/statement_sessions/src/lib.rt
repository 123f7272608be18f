//! Statements one after another under one actor's number.
#![tactic(auto)]

mod session;

pub use session::Session;
