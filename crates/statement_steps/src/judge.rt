//! What a statement says of its commit's text and of the commits that won over it.
ghost use Rattle.std.specs.Prelude.{◌≡◌};

use commit_attempts::{BodyFault, Judge, JudgeFault, Verdict};
use commit_plans::{CommitPlan, TextFault};
use edge_api::Body;
use log_actions::Action;
use row_base::Items;
use statement_types::Clash;
use std::alloc::Global;

/// The judge of a statement whose commit is planned. The making of a table clashes with each winner. An append clashes
/// with none, since it reads nothing of the table: its plan follows the winner.
#[derive(Drop)]
pub struct CommitJudge {
    pub alloc: Global,
    pub plan: CommitPlan,
    pub makes_table: bool,
}

impl Judge for CommitJudge {
    type Clash = Clash;

    ghost use Rattle.statement_steps.specs.Judged.{Makes, Says};

    ghost bodies = { Makes };

    ghost judges = { Says };

    fn body(&mut self, now: u64) -> Result<Body, BodyFault> {
        match self.plan.body_at(self.alloc, now) {
            Ok(text) => Ok(text),
            Err(TextFault::TooLarge { bytes }) => Err(BodyFault::TooLarge { bytes }),
            Err(TextFault::NoMemory) => Err(BodyFault::NoMemory),
        }
    }

    fn judge(&mut self, winner: Items<Action>) -> Result<Verdict<Clash>, JudgeFault> {
        if self.makes_table {
            return Ok(Verdict::Clash(Clash::Protocol));
        }
        match self.plan.follow(winner.as_slice()) {
            Ok(()) => Ok(Verdict::Clear(winner)),
            // No stamp that a commit is read with comes so far.
            Err(_) => Err(JudgeFault::NoMemory),
        }
    }
}
