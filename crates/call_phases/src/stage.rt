//! A phase that is told by the stage where it stands.
ghost use Rattle.std.specs.Prelude.{◌≡◌, ◌<◌, ℕ, [], Option, None, IsSome, IsSomeAnd, IfSome};

use crate::{Phase, Ready};
use edge_api::{Answer, Call, Fed};
use std::mem;

/// Where a phase stands: at a call, or at its end.
pub trait CallStage: Drop {
    ghost use Rattle.edge_api.specs.declared.call.Call.{Call};
    ghost use Rattle.edge_api.specs.Journal.{IsOfKind};
    ghost use Rattle.call_phases.specs.Phases.{Entries};
    ghost use Rattle.call_phases.specs.Ending.{Ending, Open};
    ghost use Rattle.call_phases.specs.Endings.{EndsAs};
    ghost use Rattle.call_phases.specs.Machine.{IsStopped, Leads, LeftBy, Stops};

    /// What the phase hands back where it ends with a result.
    type Done: Drop;

    /// Why it ends without one.
    type Fault: Drop;

    /// The call at which it stands. There is none where the phase has ended.
    ghost call_at: { Self → Option Call };

    /// How many answers it takes at most.
    ghost left_at: { Self → ℕ };

    /// What the entries still to come have to be, and how they end.
    ghost rest_at: { Self → Entries → Ending Self.Fault Self.Done → Type 0 };

    /// The phase has failed for want of memory, whatever its call was.
    fn out_of_memory() -> Self
        ensures ended { call_at result ≡ None }
        ensures stopped { IsStopped (rest_at result) }
        ensures stops { (stage : Self) → IfSome (call_at stage) (λ call. Stops rest_at stage result) };

    /// What comes after the answer.
    fn after(self, answer: Answer) -> Ready<Self>
        requires { IsSomeAnd (call_at self) (λ call. IsOfKind call answer) }
        ensures ready { result.call ≡ call_at result.stage }
        ensures leads { IfSome (call_at self) (λ call. Leads rest_at self call answer result.stage) }
        ensures falls { left_at result.stage < left_at self };

    /// The result of the phase, which has ended, or why there is none.
    fn ended(self) -> Result<Self::Done, Self::Fault>
        requires { call_at self ≡ None }
        ensures { (es : Entries) (o : Ending Self.Fault Self.Done) → EndsAs result es o → rest_at self es o };

    /// Answers are left exactly where there is a call.
    ghost some: { (stage : Self) → LeftBy (left_at stage) (call_at stage) };

    /// At a call the phase may be open.
    ghost open: { (stage : Self) → IsSome (call_at stage) → rest_at stage [] Open };
}

impl<S: CallStage> Phase for Ready<S> {
    type Done = S::Done;

    type Fault = S::Fault;

    ghost ready = { λ p. p.call ≡ S.call_at p.stage };

    ghost call = { λ p. S.call_at p.stage };

    ghost left = { λ p. S.left_at p.stage };

    ghost rest = { λ p. S.rest_at p.stage };

    fn next(&mut self) -> Option<Call> {
        self.call.take()
    }

    fn feed(&mut self, input: Fed) {
        let stage = mem::replace(&mut self.stage, S::out_of_memory());
        self.call = None;
        if let Fed::Answer(answer) = input {
            *self = stage.after(answer);
        }
    }

    fn finish(self) -> Result<S::Done, S::Fault> {
        let Ready { stage, .. } = self;
        stage.ended()
    }
}
