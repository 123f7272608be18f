//! What a statement says of its commit's text and of the commits that won over it.
ghost use Rattle.std.specs.Prelude.{◌≡◌, ℕ, List, Result};
ghost use Rattle.log_actions.specs.declared.action.Action.{Action as ActionValue};
ghost use Rattle.commit_attempts.specs.Judging.{ClearHolds};

use edge_api::Body;
use log_actions::Action;
use row_base::{Items, Text};

/// Why there is no text for a commit.
#[derive(Clone, Copy, Debug, Drop, PartialEq, Eq)]
pub enum BodyFault {
    /// The text would have so many bytes, more than are written.
    TooLarge { bytes: u64 },
    NoMemory,
}

/// Why a judge says nothing of a winner.
#[derive(Debug, Drop)]
pub enum JudgeFault {
    /// The winner's value of this partition column has no reading.
    Value { name: Text },
    NoMemory,
}

/// What a judge says of a winner.
#[derive(Drop)]
pub enum Verdict<C> {
    /// There is no clash. The winner is handed back.
    Clear(Items<Action>),
    /// The winner clashes with the statement.
    Clash(C),
}

/// Makes the text of a commit, and checks the commits that were there first.
pub trait Judge: Drop {
    ghost use Rattle.commit_attempts.specs.declared.judge.BodyFault.{BodyFault};
    ghost use Rattle.commit_attempts.specs.declared.judge.JudgeFault.{JudgeFault};
    ghost use Rattle.commit_attempts.specs.declared.judge.Verdict.{Verdict};

    type Clash: Drop;

    /// From before to after a call that makes the text for a reading of the clock.
    ghost bodies: { Self → ℕ → Result (List ℕ) BodyFault → Self → Type 0 };

    /// From before to after a call that judges a winner.
    ghost judges: { Self → List ActionValue → Result (Verdict Self.Clash) JudgeFault → Self → Type 0 };

    /// The text of the commit, by the attempt's reading of the clock in milliseconds.
    fn body(&mut self, now: u64) -> Result<Body, BodyFault>
        ensures { bodies self.old now result self.new };

    /// Whether a commit that won, by its actions, clashes with the statement.
    fn judge(&mut self, winner: Items<Action>) -> Result<Verdict<Self::Clash>, JudgeFault>
        ensures judged { judges self.old winner result self.new }
        ensures clear { ClearHolds winner result };
}
