//! Kernels that are timed over rows in memory: predicates, changes of a file, merges, and which files may match.
#![tactic(auto)]

mod asked;
mod changes;
mod fault;
mod files;
mod kernel;
mod kernels;
mod merges;
mod rows;
mod scopes;
mod truths;

pub use fault::RowKernelFault;
pub use kernel::{RowChange, RowKernel};
pub use kernels::run;
