//! The scan of a table: a phase that gets the live data files that may have a row of a scope, one after another in byte
//! order of path, and reads each by the table's schema.
#![tactic(auto)]

mod fault;
mod fill;
mod reader;
mod scan;
mod wanted;

pub use fault::{ScanBad, ScanFault};
pub use scan::{Scan, Scanned};
