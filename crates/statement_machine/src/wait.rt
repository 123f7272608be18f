//! A statement that waits.
ghost use Rattle.std.specs.Prelude.{◌≡◌};

use crate::Stage;
use crate::faults::refusal_of_call;
use call_phases::{CallFault, Phase, Ready, Step, Wait};
use edge_api::{Call, Fed};
use log_state::State;
use statement_steps::Finish;
use statement_types::Reply;

/// A phase of one wait.
#[derive(Drop)]
pub struct WaitTime {
    pub wait: Wait,
}

impl Phase for WaitTime {
    type Done = ();

    type Fault = CallFault;

    ghost use Rattle.std.specs.Prelude.{◌≡◌};
    ghost use Rattle.call_phases.specs.Request.{call_at, left_at, RestAt};
    ghost use Rattle.call_phases.specs.Requests.{waiting_call, WaitingRest};

    ghost ready = { λ p. p.wait.call ≡ call_at waiting_call p.wait.stage };

    ghost call = { λ p. call_at waiting_call p.wait.stage };

    ghost left = { λ p. left_at p.wait.stage };

    ghost rest = { λ p. RestAt WaitingRest p.wait.stage };

    fn next(&mut self) -> Option<Call> {
        self.wait.next()
    }

    fn feed(&mut self, input: Fed) {
        self.wait.feed(input);
    }

    fn finish(self) -> Result<(), CallFault> {
        self.wait.finish()
    }
}

/// Time passes, and then the reply is there.
#[derive(Drop)]
pub struct WaitStep {
    pub kept: Option<State>,
}

impl Step for WaitStep {
    type Part = WaitTime;

    type Stage = Stage;

    ghost use Rattle.statement_steps.specs.Bounds.{most_after_clock};
    ghost use Rattle.statement_machine.specs.Machine.{ByCall, NextWait};

    ghost fails = { λ s. ByCall s.kept };

    ghost next = { NextWait };

    ghost most = { λ s. most_after_clock };

    fn stand(self, wait: WaitTime) -> Stage {
        Stage::Wait(self, wait)
    }

    fn done(self, _passed: ()) -> Ready<Stage> {
        Stage::done(Finish {
            reply: Reply::Waited,
            kept: self.kept,
        })
    }

    fn failed(self, fault: CallFault) -> Ready<Stage> {
        Stage::refused(self.kept, refusal_of_call(fault))
    }
}
