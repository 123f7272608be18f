//! An object store, seen by the journal of its calls.
ghost use Rattle.std.specs.Prelude.{◌≡◌, ◌≤◌, ℕ, List, [], ◌∷◌, ◌++◌, Option, IfOk, IfErr, OnErr, IfSome};
ghost use Rattle.edge_api.specs.declared.call.JournalEntry.{JournalEntry};
ghost use Rattle.edge_api.specs.Journal.{HasLegalCompletion, IsOfKind};
ghost use Rattle.edge_api.specs.World.{Grows, FaultHasCause};

use crate::{Answer, Back, Call, Tag};

/// An object store. One call is one atomic step.
pub trait World {
    /// The calls so far with their answers, where the store tells them.
    ghost journal: { Self → Option (List JournalEntry) };

    /// How often the store has failed.
    ghost faults: { Self → ℕ };

    /// Makes a call. An answer appends exactly this call with it to the journal, is of the call's kind,
    /// and is a fault only where the count of faults rose. The error is want of memory: it hands the call
    /// back, and leaves the journal as before. A journal that is told has a legal completion.
    fn call(&mut self, tag: Tag, call: Call) -> Result<Answer, Back>
        ensures appended { IfOk result (λ answer. Grows (journal self.old) (record { tag = tag; call = call; answer = answer } ∷ []) (journal self.new)) }
        ensures kind { IfOk result (λ answer. IsOfKind call answer) }
        ensures completion { IfSome (journal self.new) HasLegalCompletion }
        ensures back { IfErr result (λ back. back.call ≡ call) }
        ensures unchanged { OnErr result (journal self.new ≡ journal self.old) }
        ensures later { faults self.old ≤ faults self.new }
        ensures cause { IfOk result (FaultHasCause (faults self.old) (faults self.new)) };
}

/// What threads call around a statement: before its first call of the store, and after its reply is made.
pub trait Gate {
    /// A statement begins: it has made no call yet.
    fn enter(&self, tag: Tag);

    /// A statement has its reply, and makes no further call.
    fn leave(&self, tag: Tag);
}
