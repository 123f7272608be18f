//! Tests of which files are passed over, by their statistics and partition values.
#![tactic(auto)]

#[cfg(test)]
mod all_rows;
#[cfg(test)]
mod bounds;
#[cfg(test)]
mod files;
#[cfg(test)]
mod partitions;
