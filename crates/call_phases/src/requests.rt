//! The phases of one call: a reading of the clock, a listing, a put that stores or replaces, and a wait.
ghost use Rattle.std.specs.Prelude.{◌≡◌, ◌≤◌, ℕ, List};
ghost use Rattle.edge_api.specs.declared.call.Listed.{Listed};
ghost use Rattle.call_phases.specs.Phases.{Entries};
ghost use Rattle.call_phases.specs.Ending.{Ending};
ghost use Rattle.call_phases.specs.declared.fault.CallFault.{CallFault as AFault};
ghost use Rattle.call_phases.specs.Request.{call_at, left_at, RestAt};
ghost use Rattle.call_phases.specs.Requests.{reading_call, prefix_call, replacement_call, waiting_call, ReadsClock, ListsNames, Replaces, WaitsFor, ReadingRest, PrefixRest, ReplacementRest, WaitingRest};

use crate::{CallFault, File, Reading, Ready, Request, RequestStage, Waiting};
use edge_api::{Answer, Call, CallKind, Listing, Name};
use row_base::NoMemory;
use std::alloc::Global;

/// A listing of the names with a prefix.
#[derive(Drop)]
pub struct Prefix {
    pub name: Name,
}

/// A put of a file, whether or not its name is free.
#[derive(Drop)]
pub struct Replacement {
    pub file: File,
}

/// A phase of one reading of the clock, in milliseconds.
pub type ReadClock = Ready<RequestStage<Reading, u64>>;

/// A phase of one listing.
pub type ListNames = Ready<RequestStage<Prefix, Listing>>;

/// A phase of one put, whether or not the name is free.
pub type Put = Ready<RequestStage<Replacement, ()>>;

/// A phase of one call that waits.
pub type Wait = Ready<RequestStage<Waiting, ()>>;

impl Request for Reading {
    type Value = u64;

    ghost use Rattle.std.proofs.Common.{rules};
    ghost use Rattle.call_phases.specs.Requests.{reading_call, ReadingRest};

    ghost asks = { reading_call };

    ghost rest = { ReadingRest };

    ghost open = { Prim.search rules };

    fn call(&self) -> Result<Call, NoMemory> {
        Ok(Call::Now)
    }

    fn answered(self, answer: Answer) -> Result<u64, CallFault> {
        match answer {
            Answer::Time(now) => Ok(now),
            _ => Err(CallFault::Fault { call: self.called }),
        }
    }
}

impl Request for Prefix {
    type Value = Listing;

    ghost use Rattle.std.proofs.Common.{rules};
    ghost use Rattle.call_phases.specs.Requests.{prefix_call, PrefixRest};

    ghost asks = { prefix_call };

    ghost rest = { PrefixRest };

    ghost open = { Prim.search rules };

    fn call(&self) -> Result<Call, NoMemory> {
        Ok(Call::List(self.name.copy()?))
    }

    fn answered(self, answer: Answer) -> Result<Listing, CallFault> {
        match answer {
            Answer::Names(names) => Ok(names),
            _ => Err(CallFault::of(CallKind::List, self.name)),
        }
    }
}

impl Request for Replacement {
    type Value = ();

    ghost use Rattle.std.proofs.Common.{rules};
    ghost use Rattle.call_phases.specs.Requests.{replacement_call, ReplacementRest};

    ghost asks = { replacement_call };

    ghost rest = { ReplacementRest };

    ghost open = { Prim.search rules };

    fn call(&self) -> Result<Call, NoMemory> {
        Ok(Call::Put(self.file.name.copy()?, self.file.body.copy()?))
    }

    fn answered(self, answer: Answer) -> Result<(), CallFault> {
        let file = self.file;
        match answer {
            Answer::Stored => Ok(()),
            _ => Err(CallFault::of(CallKind::Put, file.name)),
        }
    }
}

impl Request for Waiting {
    type Value = ();

    ghost use Rattle.std.proofs.Common.{rules};
    ghost use Rattle.call_phases.specs.Requests.{waiting_call, WaitingRest};

    ghost asks = { waiting_call };

    ghost rest = { WaitingRest };

    ghost open = { Prim.search rules };

    fn call(&self) -> Result<Call, NoMemory> {
        Ok(Call::Wait(self.time))
    }

    fn answered(self, answer: Answer) -> Result<(), CallFault> {
        match answer {
            Answer::Waited => Ok(()),
            _ => Err(CallFault::Fault { call: self.called }),
        }
    }
}

impl ReadClock {
    /// The clock is read, unless memory is wanting.
    pub fn new(alloc: Global) -> ReadClock
        ensures ready { result.call ≡ call_at reading_call result.stage }
        ensures begins { (es : Entries) (o : Ending AFault ℕ) → RestAt ReadingRest result.stage es o → ReadsClock es o }
        ensures most { left_at result.stage ≤ 1 }
    {
        match Reading::make(alloc) {
            Ok(reading) => Ready::ask(reading),
            Err(_) => Ready::no_call(RequestStage::Failed(CallFault::NoMemory)),
        }
    }
}

impl ListNames {
    /// The names with the prefix are listed, unless memory is wanting.
    pub fn new(prefix: Name) -> ListNames
        ensures ready { result.call ≡ call_at prefix_call result.stage }
        ensures begins { (es : Entries) (o : Ending AFault (List Listed)) → RestAt PrefixRest result.stage es o → ListsNames prefix es o }
        ensures most { left_at result.stage ≤ 1 }
    {
        Ready::ask(Prefix { name: prefix })
    }
}

impl Put {
    /// The file is put, unless memory is wanting.
    pub fn new(file: File) -> Put
        ensures ready { result.call ≡ call_at replacement_call result.stage }
        ensures begins { (es : Entries) (o : Ending AFault (Unit {0})) → RestAt ReplacementRest result.stage es o → Replaces file es o }
        ensures most { left_at result.stage ≤ 1 }
    {
        Ready::ask(Replacement { file })
    }
}

impl Wait {
    /// So many milliseconds are waited for, unless memory is wanting.
    pub fn new(alloc: Global, time: u64) -> Wait
        ensures ready { result.call ≡ call_at waiting_call result.stage }
        ensures begins { (es : Entries) (o : Ending AFault (Unit {0})) → RestAt WaitingRest result.stage es o → WaitsFor time es o }
        ensures most { left_at result.stage ≤ 1 }
    {
        match Waiting::make(alloc, time) {
            Ok(waiting) => Ready::ask(waiting),
            Err(_) => Ready::no_call(RequestStage::Failed(CallFault::NoMemory)),
        }
    }
}
