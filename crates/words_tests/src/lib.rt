//! Tests of what stands between a script and its printed replies: tokens, scripts and their faults, and printing.
#![tactic(auto)]

#[cfg(test)]
mod printing;
#[cfg(test)]
mod replies;
#[cfg(test)]
mod scripts;
#[cfg(test)]
mod tables;
#[cfg(test)]
mod tokens;
