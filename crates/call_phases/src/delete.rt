//! Deletions of objects, one after another.
ghost use Rattle.std.specs.Prelude.{◌≡◌, ◌≤◌, length};
ghost use Rattle.call_phases.specs.Phases.{Entries};
ghost use Rattle.call_phases.specs.Ending.{Ending};
ghost use Rattle.call_phases.specs.declared.fault.CallFault.{CallFault as AFault};
ghost use Rattle.call_phases.specs.Delete.{DeletesAll, call_at, left_at, RestAt};

use crate::{CallFault, CallStage, Ready};
use edge_api::{Answer, Call, CallKind, Name};
use std::collections::VecDeque;

/// Where the deletions stand.
#[derive(Drop)]
pub enum DeleteStage {
    Deleting { name: Name, left: VecDeque<Name> },
    Deleted,
    Failed(CallFault),
}

/// A phase of deletions.
pub type Delete = Ready<DeleteStage>;

impl Delete {
    /// The objects of these names are deleted, unless memory is wanting.
    pub fn new(mut names: VecDeque<Name>) -> Delete
        ensures ready { result.call ≡ call_at result.stage }
        ensures begins { (es : Entries) (o : Ending AFault (Unit {0})) → RestAt result.stage es o → DeletesAll names.items es o }
        ensures most { left_at result.stage ≤ length names.items }
    {
        match names.pop_front() {
            Some(name) => match name.copy() {
                Ok(called) => Ready {
                    stage: DeleteStage::Deleting { name, left: names },
                    call: Some(Call::Delete(called)),
                },
                Err(_) => Ready::no_call(DeleteStage::Failed(CallFault::NoMemory)),
            },
            None => Ready::no_call(DeleteStage::Deleted),
        }
    }
}

impl CallStage for DeleteStage {
    type Done = ();

    type Fault = CallFault;

    ghost use Rattle.std.proofs.Common.{rules};
    ghost use Rattle.call_phases.specs.Delete.{call_at, left_at, RestAt};

    ghost call_at = { call_at };

    ghost left_at = { left_at };

    ghost rest_at = { RestAt };

    ghost some = { Prim.search rules };

    ghost open = { Prim.search rules };

    fn out_of_memory() -> DeleteStage {
        DeleteStage::Failed(CallFault::NoMemory)
    }

    fn after(self, answer: Answer) -> Ready<DeleteStage> {
        let DeleteStage::Deleting { name, left } = self else {
            unreachable!()
        };
        match answer {
            Answer::Gone => Delete::new(left),
            _ => Ready::no_call(DeleteStage::Failed(CallFault::of(CallKind::Delete, name))),
        }
    }

    fn ended(self) -> Result<(), CallFault> {
        match self {
            DeleteStage::Deleted => Ok(()),
            DeleteStage::Failed(fault) => Err(fault),
            DeleteStage::Deleting { .. } => unreachable!(),
        }
    }
}
