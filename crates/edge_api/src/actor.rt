//! An actor: a machine that is resumed at each call of the store.
ghost use Rattle.std.specs.Prelude.{◌≡◌, ◌<◌, ◌≤◌, ℕ};

use crate::{Answer, Call, Tag};

/// What an actor does next.
#[derive(Drop)]
pub enum Step {
    /// It makes this call.
    Call(Tag, Call),
    /// It makes no further call.
    Done,
}

/// What an actor is fed after its call.
#[derive(Drop)]
pub enum Fed {
    /// The store's answer.
    Answer(Answer),
    /// Memory was wanting for the call, which wasn't made.
    NoMemory,
}

/// Where an actor stands.
#[derive(Clone, Copy, Debug, Drop, PartialEq, Eq)]
pub enum Stage {
    /// Between two statements.
    Between,
    /// Within a statement.
    Running,
    /// Its next call is the put of a commit.
    Attempt,
    /// It makes no further call.
    Done,
}

/// A machine that makes calls of a store and is resumed with each answer. `next` and `feed` take turns.
pub trait Actor {
    ghost use Rattle.std.specs.Prelude.{◌↔◌};
    ghost use Rattle.edge_api.specs.declared.call.Call.{Call};
    ghost use Rattle.edge_api.specs.declared.call.Tag.{Tag};
    ghost use Rattle.edge_api.specs.declared.actor.Stage.{Stage};
    ghost use Rattle.edge_api.specs.Actor.{Event, Asks, event_of, IsFit};

    /// It waits for no answer.
    ghost ready: { Self → Type 0 };

    /// How many answers it takes at most. It is done exactly where this is 0.
    ghost left: { Self → ℕ };

    /// The number in its tags.
    ghost number: { Self → ℕ };

    /// Where it stands.
    ghost stands: { Self → Stage };

    /// An event leads from the state before a call to the state after its answer.
    ghost goes: { Self → Event → Self → Type 0 };

    /// The actor asked for this call, and waits.
    ghost asks: { Self → Tag → Call → Self → Type 0 };

    /// Where the actor stands.
    fn stage(&self) -> Stage
        requires { ready self.now }
        ensures stands { result ≡ stands self.now }
        ensures done { (result ≡ Stage.Done) ↔ (left self.now ≡ 0) };

    /// The next call, or that there is none. It takes no memory.
    fn next(&mut self) -> Step
        requires { ready self.old }
        ensures asked { Asks ready left number asks self.old result self.new }
        ensures number { number self.new ≡ number self.old }
        ensures stands { stands self.new ≡ stands self.old };

    /// Goes on with the answer to the call that was asked for, or with want of memory.
    fn feed(&mut self, answer: Fed)
        requires { (old : Self) × (tag : Tag) × (call : Call) × asks old tag call self.old × IsFit call answer }
        ensures fed { (old : Self) (tag : Tag) (call : Call) → asks old tag call self.old → goes old (event_of tag call answer) self.new × (left self.new < left old) × ready self.new }
        ensures number { number self.new ≡ number self.old };
}
