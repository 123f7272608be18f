//! Where the actor of a statement stands.
ghost use Rattle.std.specs.Prelude.{◌≡◌};
ghost use Rattle.statement_steps.specs.Place.{place_of_call};
ghost use Rattle.statement_machine.specs.Place.{is_first};

use crate::Stage;
use edge_api::{Call, Stage as Place};
use table_rules::{LogName, read_log_name};

/// Where an actor stands that makes this call next, within a statement.
pub fn place_of_call(call: &Call) -> Place
    ensures { result ≡ place_of_call call.now }
{
    match call {
        Call::PutNew(name, _) => match read_log_name(name) {
            LogName::Commit(_) => Place::Attempt,
            _ => Place::Running,
        },
        _ => Place::Running,
    }
}

impl Stage {
    /// Whether it is the first one.
    pub fn is_first(&self) -> bool
        ensures { result ≡ is_first self.now }
    {
        matches!(self, Stage::Wait(..) | Stage::Clock(..))
    }
}
