//! Which calls a statement makes and what it comes to: each statement as a chain of phases, told by the entries of a
//! journal. The machine that runs statements and the law over journals both stand on it.
#![tactic(auto)]

mod finish;
mod statement;

ghost use Rattle.statement_calls.specs.Laws.{OpensWithoutCalls, ReadsClockFirst};

pub use finish::{Finish, Kept};
pub use statement::TableStatement;

/// A statement that has made no call is open, and its first call reads the clock.
pub fn statements_begin()
    ensures open { OpensWithoutCalls }
    ensures first { ReadsClockFirst }
{}
