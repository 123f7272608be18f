//! The listing of the log.
use call_phases::{CallFault, ListNames, Phase};
use edge_api::{Call, Fed, Listing};

/// A phase of one listing.
#[derive(Drop)]
pub struct ListLog {
    pub names: ListNames,
}

impl Phase for ListLog {
    type Done = Listing;

    type Fault = CallFault;

    ghost use Rattle.std.specs.Prelude.{◌≡◌};
    ghost use Rattle.call_phases.specs.Request.{call_at, left_at, RestAt};
    ghost use Rattle.call_phases.specs.Requests.{prefix_call, PrefixRest};

    ghost ready = { λ p. p.names.call ≡ call_at prefix_call p.names.stage };

    ghost call = { λ p. call_at prefix_call p.names.stage };

    ghost left = { λ p. left_at p.names.stage };

    ghost rest = { λ p. RestAt PrefixRest p.names.stage };

    fn next(&mut self) -> Option<Call> {
        self.names.next()
    }

    fn feed(&mut self, input: Fed) {
        self.names.feed(input);
    }

    fn finish(self) -> Result<Listing, CallFault> {
        self.names.finish()
    }
}
