//! Which calls a statement makes and what it comes to: each statement as a chain of phases, told by the entries of a
//! journal. The machine that runs statements and the law over journals both stand on it.
#![tactic(auto)]

mod finish;
mod judge;
mod statement;

ghost use Rattle.statement_steps.specs.Laws.{OpensWithoutCalls, BeginsFirst};

pub use finish::Finish;
pub use judge::CommitJudge;
pub use statement::{LoadedStatement, OverTable};

/// A statement that has made no call is open, and its first call reads the clock or waits.
pub fn statements_begin()
    ensures open { OpensWithoutCalls }
    ensures first { BeginsFirst }
{}
