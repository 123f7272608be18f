//! What a statement comes to.
use op_types::Reply;
use snapshot_replay::State;

/// What a session keeps of a load: the table that so many versions leave, from version 0 on.
#[derive(Drop)]
pub struct Kept {
    /// How many versions there are.
    pub versions: u64,
    /// The table that they leave.
    pub state: State,
}

/// What a statement comes to.
#[derive(Drop)]
pub struct Finish {
    /// Its reply.
    pub reply: Reply,
    /// What is kept for the session's next statement.
    pub kept: Option<Kept>,
}
