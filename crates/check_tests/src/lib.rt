//! Tests of the checks of statements.
#![tactic(auto)]

#[cfg(test)]
mod changes;
#[cfg(test)]
mod literal;
#[cfg(test)]
mod parts;
#[cfg(test)]
mod tables;
