//! What a statement makes of the objects that it gets one after another.
ghost use Rattle.std.specs.Prelude.{◌≡◌, ◌<◌, ℕ, List, Option, Result, IfOk, IfErr, OnOk, IsSome};
ghost use Rattle.call_phases.specs.Gets.{Reads, HasLeft};

use edge_api::{Body, Name};
use row_base::NoMemory;

/// Why an object's bytes were not taken.
#[derive(Drop)]
pub enum Unread<F> {
    /// They have this fault.
    Bad(F),
    NoMemory,
}

/// Names objects one after another, and takes the body of each.
pub trait Reader: Drop {
    /// What may be wrong with a body.
    type Fault: Drop;

    /// The object that is wanted next. There is none where all are read.
    ghost wants: { Self → Option (List ℕ) };

    /// How many are wanted at most.
    ghost left: { Self → ℕ };

    /// From the body of the wanted object to what is known after it, or to the fault of the body.
    ghost after: { Self → List ℕ → Result Self Self.Fault };

    /// The name of the object that is wanted next. The error is want of memory.
    fn name(&self) -> Result<Option<Name>, NoMemory>
        ensures name { IfOk result (λ name. name ≡ wants self.now) }
        ensures wanting { IfErr result (λ e. IsSome (wants self.now)) }
        ensures some { HasLeft (left self.now) (wants self.now) };

    /// Takes the body of the wanted object.
    fn read(&mut self, body: Body) -> Result<(), Unread<Self::Fault>>
        requires { IsSome (wants self.old) }
        ensures reads { Reads (after self.old body) result self.new }
        ensures falls { OnOk result (left self.new < left self.old) };
}
