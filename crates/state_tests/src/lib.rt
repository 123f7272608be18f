//! Tests of the table's state, of loads of it, of its definition, and of the plans of commits.
#![tactic(auto)]

#[cfg(test)]
mod definitions;
#[cfg(test)]
mod loads;
#[cfg(test)]
mod plans;
#[cfg(test)]
mod states;
