//! Tests of merges.
#![tactic(auto)]

#[cfg(test)]
mod days;
#[cfg(test)]
mod pairs;
#[cfg(test)]
mod plain;
#[cfg(test)]
mod worked;
