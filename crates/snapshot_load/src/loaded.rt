//! What is loaded.
use edge_api::Listing;
use log_state::State;

/// Which version of a table is asked for.
#[derive(Clone, Copy, Debug, Drop, PartialEq, Eq)]
pub enum Asked {
    /// The greatest version whose commit is listed.
    Newest,
}

/// What a load hands back.
#[derive(Drop)]
pub struct Loaded {
    /// The table.
    pub state: State,
    /// The table that was handed in, unless the load began with it.
    pub kept: Option<State>,
    /// The listing that was handed in.
    pub listing: Listing,
}
