//! Tests of the statistics of files.
#![tactic(auto)]

#[cfg(test)]
mod statistics;
