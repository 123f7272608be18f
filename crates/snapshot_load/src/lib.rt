//! A load of a table from its JSON log: the commits that are needed are got one after another and applied.
#![tactic(auto)]

mod commits;
mod fault;
mod laws;
mod listing;
mod load;
mod loaded;
mod version;

pub use fault::{LoadFailed, LoadFault};
pub use laws::loads_are_replays;
pub use listing::newest_version;
pub use load::Load;
pub use loaded::{Asked, Loaded};
pub use version::Supported;
