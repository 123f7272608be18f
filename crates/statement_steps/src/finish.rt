//! What a statement comes to.
use log_state::State;
use statement_types::Reply;

/// What a statement comes to.
#[derive(Drop)]
pub struct Finish {
    /// Its reply.
    pub reply: Reply,
    /// The table that is kept for the session's next statement, at the version that was loaded last.
    pub kept: Option<State>,
}
