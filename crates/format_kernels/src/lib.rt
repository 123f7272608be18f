//! The kernels of the formats that are timed: bit packing, commits, and Parquet files.
#![tactic(auto)]

mod commits;
mod fault;
mod kernel;
mod kernels;
mod register;
mod tables;

pub use fault::KernelFault;
pub use kernel::{Kernel, Step, Table};
pub use kernels::run;
