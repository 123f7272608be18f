//! A statement as an actor.
ghost use Rattle.std.specs.Prelude.{◌≡◌, ◌<◌, ◌≤◌, Option, None, Some, [], IfSome, option_copied};
ghost use Rattle.row_base.specs.declared.limits.TheConstants.{MAX_ATTEMPTS};
ghost use Rattle.edge_api.specs.declared.actor.Stage.TheVariants as place;
ghost use Rattle.call_phases.specs.Phases.{Entries};
ghost use Rattle.statement_steps.specs.declared.finish.Finish.{Finish as AFinish};
ghost use Rattle.statement_steps.specs.Bounds.{most_calls};
ghost use Rattle.statement_steps.specs.Answered.{Answered};
ghost use Rattle.statement_machine.specs.Machine.{Rest, left_of};
ghost use Rattle.statement_machine.specs.Place.{place_of};
ghost use Rattle.statement_machine.specs.Txn.{IsReady, reply_of};

use crate::place::place_of_call;
use crate::resume::resume;
use crate::{Plan, Stage};
use edge_api::{Actor, Call, Fed, Stage as Place, Step, Tag};
use log_state::State;
use statement_steps::Finish;
use statement_types::{Reply, Statement};
use std::alloc::Global;

/// One statement under one tag: a machine that makes its store calls one at a time.
#[derive(Drop)]
pub struct Txn {
    pub tag: Tag,
    pub stage: Stage,
    pub pending: Option<Call>,
}

impl Txn {
    /// A statement that is still to make its first call, with what is kept of an earlier load. Where memory is wanting
    /// it is refused at once. The limit is that of its attempts.
    pub fn new(
        alloc: Global,
        tag: Tag,
        statement: Statement,
        limit: u32,
        kept: Option<State>,
    ) -> Txn
        requires some { 0 < limit }
        requires few { limit ≤ MAX_ATTEMPTS }
        ensures ready { IsReady result }
        ensures tag { result.tag ≡ tag }
        ensures begins { (es : Entries) (out : Option AFinish) → Rest result.stage es out → Answered tag limit kept statement es out }
        ensures left { left_of result.stage ≤ most_calls }
        ensures first { IfSome result.pending (λ call. place_of result.stage ≡ place.Between) }
    {
        let ready = Stage::begin(Plan { alloc, tag, limit }, statement, kept);
        Txn {
            tag,
            stage: ready.stage,
            pending: ready.call,
        }
    }

    /// The reply, once it is there.
    pub fn reply(&self) -> Option<&Reply>
        ensures { option_copied result ≡ reply_of self.now.stage }
    {
        match &self.stage {
            Stage::Done(finish) => Some(&finish.reply),
            _ => None,
        }
    }

    /// What a statement that is done comes to.
    pub fn finish(self) -> Finish
        requires ready { IsReady self }
        requires done { self.pending ≡ None }
        ensures { Rest self.stage [] (Some result) }
    {
        let Txn { stage, .. } = self;
        match stage {
            Stage::Done(finish) => finish,
            _ => unreachable!(),
        }
    }
}

impl Actor for Txn {
    ghost use Rattle.statement_machine.specs.Machine.{left_of};
    ghost use Rattle.statement_machine.specs.Place.{place_of};
    ghost use Rattle.statement_machine.specs.Txn.{IsReady, Asks, Goes};

    ghost ready = { IsReady };

    ghost left = { λ t. left_of t.stage };

    ghost number = { λ t. t.tag.actor };

    ghost stands = { λ t. place_of t.stage };

    ghost goes = { Goes };

    ghost asks = { Asks };

    fn stage(&self) -> Place {
        match &self.pending {
            Some(call) => {
                if self.stage.is_first() {
                    Place::Between
                } else {
                    place_of_call(call)
                }
            }
            None => Place::Done,
        }
    }

    fn next(&mut self) -> Step {
        match self.pending.take() {
            Some(call) => Step::Call(self.tag, call),
            None => Step::Done,
        }
    }

    fn feed(&mut self, answer: Fed) {
        resume(&mut self.stage, &mut self.pending, answer);
    }
}
