//! A phase of one call.
ghost use Rattle.std.specs.Prelude.{◌≡◌, ◌≤◌};
ghost use Rattle.call_phases.specs.Phases.{Entries};
ghost use Rattle.call_phases.specs.Ending.{Ending};
ghost use Rattle.call_phases.specs.declared.fault.CallFault.{CallFault as AFault};
ghost use Rattle.call_phases.specs.Request.{call_at, left_at, RestAt};

use crate::{CallFault, CallStage, Ready};
use edge_api::{Answer, Call};
use row_base::NoMemory;

/// One call, and what its answer gives.
pub trait Request: Drop {
    ghost use Rattle.std.specs.Prelude.{[], IfOk};
    ghost use Rattle.edge_api.specs.declared.call.Call.{Call};
    ghost use Rattle.edge_api.specs.Journal.{IsOfKind};
    ghost use Rattle.call_phases.specs.declared.fault.CallFault.TheVariants.{NoMemory};
    ghost use Rattle.call_phases.specs.Endings.{IsOpenEnd};
    ghost use Rattle.call_phases.specs.Request.{GivesAt};

    /// What the answer gives.
    type Value: Drop;

    /// The call.
    ghost asks: { Self → Call };

    /// What the entries from the call on have to be, and how they end.
    ghost rest: { Self → Entries → Ending AFault Self.Value → Type 0 };

    /// The call. The error is want of memory.
    fn call(&self) -> Result<Call, NoMemory>
        ensures { IfOk result (λ call. call ≡ asks self.now) };

    /// What the answer gives. The error is a fault of the store.
    fn answered(self, answer: Answer) -> Result<Self::Value, CallFault>
        requires { IsOfKind (asks self) answer }
        ensures { GivesAt (rest self) (asks self) answer result };

    /// Before the call the phase is open.
    ghost open: { (request : Self) (o : Ending AFault Self.Value) → IsOpenEnd NoMemory o → rest request [] o };
}

/// Where a request stands.
#[derive(Drop)]
pub enum RequestStage<Q, V> {
    Asking(Q),
    Answered(V),
    Failed(CallFault),
}

impl<Q: Request> Ready<RequestStage<Q, Q::Value>> {
    /// The request is made, unless memory is wanting.
    pub fn ask(request: Q) -> Ready<RequestStage<Q, Q::Value>>
        ensures ready { result.call ≡ call_at Q.asks result.stage }
        ensures begins { (es : Entries) (o : Ending AFault Q.Value) → RestAt Q.rest result.stage es o → Q.rest request es o }
        ensures most { left_at result.stage ≤ 1 }
    {
        match request.call() {
            Ok(call) => Ready {
                stage: RequestStage::Asking(request),
                call: Some(call),
            },
            Err(_) => Ready::no_call(RequestStage::Failed(CallFault::NoMemory)),
        }
    }
}

impl<Q: Request> CallStage for RequestStage<Q, Q::Value> {
    type Done = Q::Value;

    type Fault = CallFault;

    ghost use Rattle.std.proofs.Common.{rules};
    ghost use Rattle.call_phases.specs.Request.{call_at, left_at, RestAt};

    ghost call_at = { call_at Q.asks };

    ghost left_at = { left_at };

    ghost rest_at = { RestAt Q.rest };

    ghost some = { Prim.search rules };

    ghost open = { Prim.search rules };

    fn out_of_memory() -> RequestStage<Q, Q::Value> {
        RequestStage::Failed(CallFault::NoMemory)
    }

    fn after(self, answer: Answer) -> Ready<RequestStage<Q, Q::Value>> {
        let RequestStage::Asking(request) = self else {
            unreachable!()
        };
        Ready::no_call(match request.answered(answer) {
            Ok(value) => RequestStage::Answered(value),
            Err(fault) => RequestStage::Failed(fault),
        })
    }

    fn ended(self) -> Result<Q::Value, CallFault> {
        match self {
            RequestStage::Answered(value) => Ok(value),
            RequestStage::Failed(fault) => Err(fault),
            RequestStage::Asking(_) => unreachable!(),
        }
    }
}
