//! Tests of predicates and expressions.
#![tactic(auto)]

#[cfg(test)]
mod predicates_of_rows;
