//! How far an actor goes at once.
ghost use Rattle.std.specs.Prelude.{◌≡◌, ◌<◌, ℕ};
ghost use Rattle.std.specs.Bool.{OnTrue, OnFalse};
ghost use Rattle.edge_api.specs.Actor.{Moves};
ghost use Rattle.actor_core.specs.Piece.{stays, stops, Steps, RunsOn, RunsPiece, RunsAlone};
ghost use Rattle.actor_core.specs.Faults.{FaultsAreCounted};

use edge_api::{Actor, Fed, Stage, Step, World};

/// How far an actor goes at once. An actor that is done makes no call.
#[derive(Clone, Copy, Debug, Drop, PartialEq, Eq)]
pub enum Till {
    /// One call.
    OneCall,
    /// To the end of the statement that it is in, or through the next one where it stands between two.
    StatementEnd,
    /// Until its next call is the put of a commit, or to the end of the statement. No call where its
    /// next one is the put of a commit already.
    CommitPut,
    /// Until it is done.
    End,
}

impl Till {
    /// Whether an actor that stands there makes no call at all.
    fn stays(self, stage: Stage) -> bool
        ensures { result ≡ stays self stage }
    {
        match (self, stage) {
            (_, Stage::Done) => true,
            (Till::CommitPut, Stage::Attempt) => true,
            _ => false,
        }
    }

    /// Whether an actor that stands there after a call makes no further one.
    fn stops(self, stage: Stage) -> bool
        ensures { result ≡ stops self stage }
    {
        match (self, stage) {
            (Till::OneCall, _) => true,
            (_, Stage::Done) => true,
            (Till::StatementEnd, Stage::Between) => true,
            (Till::CommitPut, Stage::Between) => true,
            (Till::CommitPut, Stage::Attempt) => true,
            _ => false,
        }
    }
}

/// Makes the next call of an actor and feeds it the answer, or want of memory where the store handed
/// the call back. `false`: the actor is done, and nothing has changed. It takes no memory itself.
pub fn step_actor<A: Actor, W: World>(actor: &mut A, world: &mut W) -> bool
    requires { A.ready actor.old }
    ensures ready { A.ready actor.new }
    ensures steps { OnTrue result (Steps (Moves A.goes A.number) (W.journal world.old) (W.journal world.new) actor.old actor.new) }
    ensures falls { OnTrue result (A.left actor.new < A.left actor.old) }
    ensures counted { FaultsAreCounted (W.journal world.old) (W.journal world.new) (W.faults world.old) (W.faults world.new) }
    ensures done { OnFalse result ((actor.new ≡ actor.old) × (W.journal world.new ≡ W.journal world.old) × (A.left actor.old ≡ 0)) }
{
    match actor.next() {
        Step::Done => false,
        Step::Call(tag, call) => {
            match world.call(tag, call) {
                Ok(answer) => actor.feed(Fed::Answer(answer)),
                Err(_) => actor.feed(Fed::NoMemory),
            }
            true
        }
    }
}

/// Makes calls of an actor until it stops.
fn run_on<A: Actor, W: World>(actor: &mut A, world: &mut W, till: Till)
    requires { A.ready actor.old }
    ensures ready { A.ready actor.new }
    ensures ends { till ≡ Till.End → A.left actor.new ≡ 0 }
    ensures runs { RunsOn (Moves A.goes A.number) A.stands till (W.journal world.old) (W.journal world.new) actor.old actor.new }
    ensures counted { FaultsAreCounted (W.journal world.old) (W.journal world.new) (W.faults world.old) (W.faults world.new) }
{
    let mut stopped = till.stops(actor.stage());
    while !stopped {
        step_actor(actor, world);
        stopped = till.stops(actor.stage());
    }
}

/// Makes the calls of one actor as far as `till` says. It takes no memory itself.
pub fn run_piece<A: Actor, W: World>(actor: &mut A, world: &mut W, till: Till)
    requires { A.ready actor.old }
    ensures ready { A.ready actor.new }
    ensures ends { till ≡ Till.End → A.left actor.new ≡ 0 }
    ensures runs { RunsPiece (Moves A.goes A.number) A.stands till (W.journal world.old) (W.journal world.new) actor.old actor.new }
    ensures alone { RunsAlone A.goes A.number (W.journal world.old) (W.journal world.new) actor.old actor.new }
    ensures counted { FaultsAreCounted (W.journal world.old) (W.journal world.new) (W.faults world.old) (W.faults world.new) }
{
    if !till.stays(actor.stage()) {
        step_actor(actor, world);
        run_on(actor, world, till);
    }
}
