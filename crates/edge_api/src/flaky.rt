//! A store in memory whose calls fail by a plan.
ghost use Rattle.std.specs.Prelude.{◌≡◌, ◌≤◌, Some, [], ◌∷◌, IfOk, IfErr, OnOk, OnErr};
ghost use Rattle.edge_api.specs.Journal.{same_tag, HasLegalCompletion, IsOfKind};
ghost use Rattle.edge_api.specs.World.{Grows, FaultHasCause};
ghost use Rattle.edge_api.specs.Flaky.{same_kind, counts, trouble_after, failure_of, plan_after, answer_by, memory_by, faults_by, flaky_answer, flaky_after};

use crate::{Answer, Back, Call, CallKind, MemWorld, Tag, World};
use std::marker::Model;

/// How a call fails.
#[derive(Clone, Copy, Debug, Drop, PartialEq, Eq)]
pub enum How {
    /// The call isn't done.
    NotDone,
    /// The call is done, and its answer is lost.
    DoneUnheard,
}

/// A call that fails: of the calls of this kind under this tag the one with the number `nth`, counted from 1.
/// A call that found no memory isn't counted.
#[derive(Clone, Copy, Debug, Drop, PartialEq, Eq)]
pub struct Trouble {
    pub tag: Tag,
    pub kind: CallKind,
    pub nth: u32,
    pub how: How,
}

impl Trouble {
    /// Whether the entry counts the calls of this kind under this tag.
    fn counts(&self, tag: Tag, kind: CallKind) -> bool
        ensures { result ≡ counts tag kind self.now }
    {
        is_same_tag(self.tag, tag) && is_same_kind(self.kind, kind)
    }

    /// The entry after a call.
    fn after(self, tag: Tag, kind: CallKind) -> Trouble
        ensures { result ≡ trouble_after tag kind self }
    {
        if self.counts(tag, kind) {
            Trouble {
                nth: self.nth.saturating_sub(1),
                ..self
            }
        } else {
            self
        }
    }
}

fn is_same_tag(a: Tag, b: Tag) -> bool
    ensures { result ≡ same_tag a b }
{
    a.actor == b.actor && a.statement == b.statement
}

fn is_same_kind(a: CallKind, b: CallKind) -> bool
    ensures { result ≡ same_kind a b }
{
    a == b
}

/// How a call fails, where it does: by the first entry whose number has come.
fn failure_in(plan: &[Trouble], tag: Tag, kind: CallKind) -> Option<How>
    ensures { result ≡ failure_of plan.now tag kind }
{
    for trouble in plan {
        if trouble.counts(tag, kind) && trouble.nth == 1 {
            return Some(trouble.how);
        }
    }
    None
}

/// Counts a call in the plan.
fn count_call(plan: &mut [Trouble], tag: Tag, kind: CallKind)
    ensures { plan.new ≡ plan_after plan.old tag kind }
{
    for trouble in plan.iter_mut() {
        *trouble = trouble.after(tag, kind);
    }
}

/// Makes a call, or lets it fail.
fn call_by(
    world: &mut MemWorld,
    faults: &mut u64,
    failure: Option<How>,
    tag: Tag,
    call: Call,
) -> Result<Answer, Back>
    ensures answer { IfOk result (λ answer. answer ≡ answer_by failure world.old call) }
    ensures kind { IfOk result (λ answer. IsOfKind call answer) }
    ensures world { OnOk result (world.new ≡ memory_by failure world.old tag call) }
    ensures faults { OnOk result (faults.new ≡ faults_by failure faults.old) }
    ensures later { faults.old ≤ faults.new }
    ensures completion { HasLegalCompletion world.new.journal }
    ensures back { IfErr result (λ back. back.call ≡ call) }
    ensures same_world { OnErr result (world.new ≡ world.old) }
    ensures same_faults { OnErr result (faults.new ≡ faults.old) }
{
    match failure {
        None => world.call(tag, call),
        Some(how) => {
            world.fail(tag, call, how)?;
            *faults = faults.saturating_add(1);
            Ok(Answer::Fault)
        }
    }
}

/// A store in memory whose calls fail by a plan. Its journal is that of the store in memory, in which each call
/// stands with the answer that was heard.
#[derive(Drop)]
pub struct FlakyWorld {
    world: MemWorld,
    plan: Vec<Trouble>,
    faults: u64,
}

impl Model for FlakyWorld {
    ghost use Rattle.edge_api.specs.Flaky.{Flaky};

    ghost Value = { Flaky };

    ghost view = { λ w. record { memory = w.world; plan = w.plan.items; faults = w.faults } };
}

impl FlakyWorld {
    /// The store, whose calls from now on fail by the plan. Of several entries for one call the first counts.
    /// It takes no memory.
    pub fn new(world: MemWorld, plan: Vec<Trouble>) -> FlakyWorld
        ensures { result ≡ record { memory = world; plan = plan.items; faults = 0 } }
    {
        FlakyWorld {
            world,
            plan,
            faults: 0,
        }
    }

    /// The store in memory.
    pub fn inner(&self) -> &MemWorld
        ensures { result.now ≡ self.now.memory }
    {
        &self.world
    }
}

impl World for FlakyWorld {
    ghost journal = { λ w. Some w.memory.journal };

    ghost faults = { λ w. w.faults };

    fn call(&mut self, tag: Tag, call: Call) -> Result<Answer, Back>
        ensures appended { IfOk result (λ answer. Grows (Some self.old.memory.journal) (record { tag = tag; call = call; answer = answer } ∷ []) (Some self.new.memory.journal)) }
        ensures kind { IfOk result (λ answer. IsOfKind call answer) }
        ensures completion { HasLegalCompletion self.new.memory.journal }
        ensures back { IfErr result (λ back. back.call ≡ call) }
        ensures unchanged { OnErr result (self.new ≡ self.old) }
        ensures later { self.old.faults ≤ self.new.faults }
        ensures cause { IfOk result (FaultHasCause self.old.faults self.new.faults) }
        ensures answer { IfOk result (λ answer. answer ≡ flaky_answer self.old tag call) }
        ensures after { OnOk result (self.new ≡ flaky_after self.old tag call) }
    {
        let kind = call.kind();
        let failure = failure_in(&self.plan, tag, kind);
        let answer = call_by(&mut self.world, &mut self.faults, failure, tag, call)?;
        count_call(&mut self.plan, tag, kind);
        Ok(answer)
    }
}
