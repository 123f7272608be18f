//! The calls of actors in the order of a schedule.
ghost use Rattle.std.specs.Prelude.{◌≡◌, ◌<◌, ◌≤◌, ℕ, length, All};
ghost use Rattle.edge_api.specs.Actor.{Moves};
ghost use Rattle.actor_core.specs.Schedule.{till_of, slots_of, to_the_end, FollowsSlots, FollowsSchedule, TakesTurns, AreApart, EachOwnPart};
ghost use Rattle.actor_core.specs.Faults.{FaultsAreCounted};

use crate::{Till, run_piece};
use edge_api::{Actor, World};

/// How far the actor of an item goes. An item of an actor that is done is passed over.
#[derive(Clone, Copy, Debug, Drop, PartialEq, Eq)]
pub enum ItemForm {
    /// One call.
    One,
    /// To the end of the statement that the actor is in, or through the next one where it stands
    /// between two.
    Statement,
    /// Until the actor's next call is the put of a commit, or to the end of the statement. No call
    /// where its next one is the put of a commit already.
    Attempt,
}

impl ItemForm {
    /// How far the actor goes.
    fn till(self) -> Till
        ensures { result ≡ till_of self }
    {
        match self {
            ItemForm::One => Till::OneCall,
            ItemForm::Statement => Till::StatementEnd,
            ItemForm::Attempt => Till::CommitPut,
        }
    }
}

/// An item of a schedule: an actor by its place, counted from 1, and how far it goes.
#[derive(Clone, Copy, Debug, Drop, PartialEq, Eq)]
pub struct Item {
    pub actor: u16,
    pub form: ItemForm,
}

/// Makes the calls of the items.
fn run_items<A: Actor, W: World>(actors: &mut [A], world: &mut W, items: &[Item])
    requires items { All (λ i. (0 < i.actor) × (i.actor ≤ length actors.old)) items.now }
    requires ready { All A.ready actors.old }
    ensures ready { All A.ready actors.new }
    ensures follows { FollowsSlots (Moves A.goes A.number) A.stands (slots_of items.now) (W.journal world.old) (W.journal world.new) actors.old actors.new }
    ensures counted { FaultsAreCounted (W.journal world.old) (W.journal world.new) (W.faults world.old) (W.faults world.new) }
{
    for item in items {
        let actor = &mut actors[item.actor as usize - 1];
        run_piece(actor, world, item.form.till());
    }
}

/// Runs each actor to its end, in order.
fn run_rest<A: Actor, W: World>(actors: &mut [A], world: &mut W)
    requires { All A.ready actors.old }
    ensures ready { All A.ready actors.new }
    ensures done { All (λ a. A.left a ≡ 0) actors.new }
    ensures follows { FollowsSlots (Moves A.goes A.number) A.stands (to_the_end (length actors.old)) (W.journal world.old) (W.journal world.new) actors.old actors.new }
    ensures counted { FaultsAreCounted (W.journal world.old) (W.journal world.new) (W.faults world.old) (W.faults world.new) }
{
    for actor in actors.iter_mut() {
        run_piece(actor, world, Till::End);
    }
}

/// Makes the calls of the items in order, then runs each unfinished actor to its end in order. It
/// takes no memory itself. Where no two actors have one number, each actor is fed the answers to the
/// entries of its own number, in order, and the journal has no others.
pub fn run_schedule<A: Actor, W: World>(actors: &mut [A], world: &mut W, items: &[Item])
    requires items { All (λ i. (0 < i.actor) × (i.actor ≤ length actors.old)) items.now }
    requires ready { All A.ready actors.old }
    ensures ready { All A.ready actors.new }
    ensures done { All (λ a. A.left a ≡ 0) actors.new }
    ensures follows { FollowsSchedule (Moves A.goes A.number) A.stands items.now (W.journal world.old) (W.journal world.new) actors.old actors.new }
    ensures turns { TakesTurns (Moves A.goes A.number) (W.journal world.old) (W.journal world.new) actors.old actors.new }
    ensures own { AreApart A.number actors.old → EachOwnPart (Moves A.goes A.number) A.number (W.journal world.old) (W.journal world.new) actors.old actors.new }
    ensures counted { FaultsAreCounted (W.journal world.old) (W.journal world.new) (W.faults world.old) (W.faults world.new) }
{
    run_items(actors, world, items);
    run_rest(actors, world);
}
