//! Tests of what shows the run of a script: the words, the line of each call and answer, and whole runs.
#![tactic(auto)]

#[cfg(test)]
mod runs;
