//! Tests of changes of files' rows, and of statements that do not fit.
#![tactic(auto)]

#[cfg(test)]
mod changes_of_files;
#[cfg(test)]
mod faults;
#[cfg(test)]
mod pairs;
