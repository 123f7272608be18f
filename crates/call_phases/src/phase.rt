//! A phase: a part of a statement that makes store calls one at a time and is resumed with each answer.
ghost use Rattle.std.specs.Prelude.{◌≡◌, ◌<◌, ℕ, [], Option, None, IsSome, IsSomeAnd, IfSome};

use edge_api::{Call, Fed};

/// A stage with its next call made ready, until the call is taken.
#[derive(Drop)]
pub struct Ready<S> {
    pub stage: S,
    pub call: Option<Call>,
}

impl<S> Ready<S> {
    /// A stage without a call.
    pub fn no_call(stage: S) -> Ready<S>
        ensures { result ≡ record { stage = stage; call = None } }
    {
        Ready { stage, call: None }
    }
}

/// A part of a statement that makes store calls. `next` and `feed` take turns.
pub trait Phase {
    ghost use Rattle.edge_api.specs.declared.call.Call.{Call};
    ghost use Rattle.edge_api.specs.Actor.{IsFit};
    ghost use Rattle.call_phases.specs.Phases.{Entries};
    ghost use Rattle.call_phases.specs.Ending.{Ending, Open};
    ghost use Rattle.call_phases.specs.Endings.{EndsAs};
    ghost use Rattle.call_phases.specs.Machine.{Covers, Goes, IsStopped, LeftBy};

    /// What it hands back where it ends with a result.
    type Done: Drop;

    /// Why it ends without one.
    type Fault: Drop;

    /// It waits for no answer.
    ghost ready: { Self → Type 0 };

    /// The next call. There is none exactly where the phase has ended.
    ghost call: { Self → Option Call };

    /// How many answers it takes at most.
    ghost left: { Self → ℕ };

    /// What the entries still to come have to be, and how they end.
    ghost rest: { Self → Entries → Ending Self.Fault Self.Done → Type 0 };

    /// The next call. It takes no memory.
    fn next(&mut self) -> Option<Call>
        requires { ready self.old }
        ensures call { result ≡ call self.old }
        ensures waits { call self.new ≡ call self.old }
        ensures left { left self.new ≡ left self.old }
        ensures some { LeftBy (left self.old) result }
        ensures covers { Covers rest self.old self.new }
        ensures open { IsSome result → rest self.old [] Open }
        ensures again { result ≡ None → ready self.new };

    /// Goes on with the answer to the call that was given last, or fails for want of memory.
    fn feed(&mut self, input: Fed)
        requires { IsSomeAnd (call self.old) (λ c. IsFit c input) }
        ensures ready { ready self.new }
        ensures goes { IfSome (call self.old) (λ c. Goes rest self.old c input self.new) }
        ensures memory { input ≡ Fed.NoMemory → (call self.new ≡ None) × IsStopped (rest self.new) }
        ensures falls { left self.new < left self.old };

    /// The result of a phase that has ended, or why there is none.
    fn finish(self) -> Result<Self::Done, Self::Fault>
        requires { call self ≡ None }
        ensures { (es : Entries) (o : Ending Self.Fault Self.Done) → EndsAs result es o → rest self es o };
}
