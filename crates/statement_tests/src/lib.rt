//! Tests of one statement and of what it reads and writes, one module for each crate that is tested, with values worked out
//! by hand.
#![tactic(auto)]

#[cfg(test)]
mod statements;
#[cfg(test)]
mod states;
#[cfg(test)]
mod texts;
