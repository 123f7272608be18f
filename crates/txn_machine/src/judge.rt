//! What a statement says of its commit and of the commits that won over it.
ghost use Rattle.std.specs.Prelude.{◌≡◌};

use committer::{BodyFault, Judge, Verdict};
use edge_api::Body;
use op_types::Clash;

/// The judge of a statement whose commit has one text. An append clashes with no winner, since it reads nothing
/// of the table; the making of a table clashes with each.
#[derive(Drop)]
pub struct CommitJudge {
    pub text: Body,
    pub makes_table: bool,
}

impl Judge for CommitJudge {
    type Clash = Clash;

    ghost use Rattle.txn_machine.specs.Judging.{Makes, Says};

    ghost bodies = { Makes };

    ghost judges = { Says };

    fn body(&mut self, _now: u64) -> Result<Body, BodyFault> {
        match self.text.copy() {
            Ok(text) => Ok(text),
            Err(_) => Err(BodyFault::NoMemory),
        }
    }

    fn judge(&mut self, winner: Body) -> Verdict<Clash> {
        if self.makes_table {
            Verdict::Clash(Clash::Protocol)
        } else {
            Verdict::Clear(winner)
        }
    }
}
