//! Tests of the crates at the bottom: rows and what describes them, and the stores.
#![tactic(auto)]

#[cfg(test)]
mod rows;
#[cfg(test)]
mod stores;
