//! A step of a statement: a phase, and what comes after it.
ghost use Rattle.std.specs.Prelude.{◌≡◌, ◌<◌, ◌≤◌, ◌+◌, ℕ, Bool, true, [], Option, None, IsSome, IsSomeAnd, IfSome};
ghost use Rattle.edge_api.specs.Actor.{IsFit};
ghost use Rattle.edge_api.specs.declared.call.Call.{Call as ACall};
ghost use Rattle.call_phases.specs.Phases.{Entries};
ghost use Rattle.call_phases.specs.Machine.{IsStopped, LeftBy};
ghost use Rattle.call_phases.specs.Step.{Steps, FedBy};

use crate::{Phase, Ready};
use edge_api::{Call, Fed};

/// Where a statement stands: an enum with a phase in each arm.
pub trait Stages: Drop {
    /// What a statement comes to in the end. Its outcome is this, or none while it is open.
    type Finish: Drop;

    /// The next call.
    ghost call_of: { Self → Option ACall };

    /// How many answers may come.
    ghost left_of: { Self → ℕ };

    /// Whether a stage that has a phase has a call to make.
    ghost is_settled: { Self → Bool };

    /// What the entries still to come have to be, by the outcome.
    ghost may: { Self → Entries → Option Self.Finish → Type 0 };
}

/// What a statement does with a phase.
pub trait Step: Drop {
    /// The phase.
    type Part: Phase + Drop;

    /// Where the statement stands.
    type Stage: Stages;

    /// The outcome after a fault of the phase.
    ghost fails: { Self → Option Self.Stage.Finish → Self.Part.Fault → Type 0 };

    /// What comes after the result of the phase, by the outcome.
    ghost next: { Self → Option Self.Stage.Finish → Self.Part.Done → Entries → Type 0 };

    /// How many answers may come after the phase.
    ghost most: { Self → ℕ };

    /// The stage at which the phase goes on.
    fn stand(self, part: Self::Part) -> Self::Stage
        requires { IsSome (Self.Part.call part) }
        ensures settled { Self.Stage.is_settled result ≡ true }
        ensures call { Self.Stage.call_of result ≡ Self.Part.call part }
        ensures left { Self.Stage.left_of result ≡ Self.Part.left part + most self }
        ensures may { (es : Entries) (out : Option Self.Stage.Finish) → Self.Stage.may result es out → Steps (Self.Part.rest part) (fails self) (next self) es out };

    /// The phase ended with its result.
    fn done(self, done: <Self::Part as Phase>::Done) -> Ready<Self::Stage>
        ensures ready { result.call ≡ Self.Stage.call_of result.stage }
        ensures settled { Self.Stage.is_settled result.stage ≡ true }
        ensures left { Self.Stage.left_of result.stage ≤ most self }
        ensures some { LeftBy (Self.Stage.left_of result.stage) result.call }
        ensures may { (es : Entries) (out : Option Self.Stage.Finish) → Self.Stage.may result.stage es out → next self out done es };

    /// The phase ended with its fault.
    fn failed(self, fault: <Self::Part as Phase>::Fault) -> Ready<Self::Stage>
        ensures ready { (result.call ≡ None) × (Self.Stage.call_of result.stage ≡ None) }
        ensures settled { Self.Stage.is_settled result.stage ≡ true }
        ensures left { Self.Stage.left_of result.stage ≤ most self }
        ensures some { LeftBy (Self.Stage.left_of result.stage) result.call }
        ensures may { (es : Entries) (out : Option Self.Stage.Finish) → Self.Stage.may result.stage es out → (es ≡ []) × fails self out fault };
}

/// The step goes on with the next call of its phase, or with what comes after it.
pub fn go<T: Step>(step: T, mut part: T::Part) -> Ready<T::Stage>
    requires { T.Part.ready part }
    ensures ready { result.call ≡ T.Stage.call_of result.stage }
    ensures settled { T.Stage.is_settled result.stage ≡ true }
    ensures may { (es : Entries) (out : Option T.Stage.Finish) → T.Stage.may result.stage es out → Steps (T.Part.rest part) (T.fails step) (T.next step) es out }
    ensures left { T.Stage.left_of result.stage ≤ T.Part.left part + T.most step }
    ensures some { LeftBy (T.Stage.left_of result.stage) result.call }
    ensures stops { T.Part.call part ≡ None → IsStopped (T.Part.rest part) → result.call ≡ None }
{
    match part.next() {
        Some(call) => Ready {
            stage: step.stand(part),
            call: Some(call),
        },
        None => match part.finish() {
            Ok(done) => step.done(done),
            Err(fault) => step.failed(fault),
        },
    }
}

/// The step goes on with the answer to the call of its phase, or with want of memory.
pub fn feed<T: Step>(step: T, mut part: T::Part, input: Fed) -> Ready<T::Stage>
    requires { IsSomeAnd (T.Part.call part) (λ call. IsFit call input) }
    ensures ready { result.call ≡ T.Stage.call_of result.stage }
    ensures settled { T.Stage.is_settled result.stage ≡ true }
    ensures goes { IfSome (T.Part.call part) (λ call. FedBy (Steps (T.Part.rest part) (T.fails step) (T.next step)) call input (T.Stage.may result.stage)) }
    ensures memory { input ≡ Fed.NoMemory → result.call ≡ None }
    ensures falls { T.Stage.left_of result.stage < T.Part.left part + T.most step }
    ensures some { LeftBy (T.Stage.left_of result.stage) result.call }
{
    part.feed(input);
    go(step, part)
}
