//! Tests of the phases that write new data files and scan a table's files.
#![tactic(auto)]

#[cfg(test)]
mod round_trips;
#[cfg(test)]
mod scans;
#[cfg(test)]
mod stores;
#[cfg(test)]
mod tables;
#[cfg(test)]
mod writes;
