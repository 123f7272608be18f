//! Tests of the log's texts: lines of JSON, actions, schemas, and the rules of a table.
#![tactic(auto)]

#[cfg(test)]
mod commits;
#[cfg(test)]
mod rules;
#[cfg(test)]
mod schemas;
