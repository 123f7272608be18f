//! Tests of the crates of the engine, one module for each crate that is tested, with values worked out by hand.
#![tactic(auto)]

#[cfg(test)]
mod actors;
#[cfg(test)]
mod attempts;
#[cfg(test)]
mod session_replies;
