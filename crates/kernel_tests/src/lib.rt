//! Tests of the kernels that are timed.
#![tactic(auto)]

#[cfg(test)]
mod counts;
