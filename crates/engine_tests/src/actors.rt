//! Journals of two small actors, worked out by hand.
ghost use Rattle.std.specs.Prelude.{◌≡◌, ◌<◌, ◌↔◌, ◌≤◌, All, IfOk, length};
ghost use Rattle.edge_api.specs.declared.actor.Stage.TheVariants.{Done};

use actor_core::{Item, ItemForm, Till, run_piece, run_schedule, step_actor};
use edge_api::{Actor, Answer, Back, Body, Call, CallKind, Fed, Name, Stage, Step, Tag, World};
use row_base::NoMemory;
use std::alloc::Global;
use std::test::Fail;

/// A call that an actor is to make, and where it stands before.
#[derive(Drop)]
struct Planned {
    stage: Stage,
    statement: u32,
    call: Call,
}

/// An actor whose calls are known from the start, the last one first.
#[derive(Drop)]
struct Writer {
    number: u16,
    stage: Stage,
    calls: Vec<Planned>,
}

/// Where an actor with these calls stands.
fn stage_of(calls: &[Planned]) -> Stage
    ensures { (result ≡ Done) ↔ (length calls.now ≡ 0) }
{
    match calls.last() {
        None => Stage::Done,
        Some(planned) => match planned.stage {
            Stage::Between => Stage::Between,
            Stage::Attempt => Stage::Attempt,
            _ => Stage::Running,
        },
    }
}

impl Actor for Writer {
    ghost use Rattle.std.specs.Prelude.{◌≡◌, ◌<◌, ◌↔◌, length, ⊤};
    ghost use Rattle.edge_api.specs.declared.actor.Stage.TheVariants.{Done};

    ghost ready = { λ w. (w.stage ≡ Done) ↔ (length w.calls.items ≡ 0) };

    ghost left = { λ w. length w.calls.items };

    ghost number = { λ w. w.number };

    ghost stands = { λ w. w.stage };

    ghost goes = { λ old event new. ⊤ };

    ghost asks = { λ old tag call new. length new.calls.items < length old.calls.items };

    fn stage(&self) -> Stage {
        self.stage
    }

    fn next(&mut self) -> Step {
        if self.calls.is_empty() {
            return Step::Done;
        }
        match self.calls.pop() {
            None => Step::Done,
            Some(planned) => Step::Call(
                Tag {
                    actor: self.number,
                    statement: planned.statement,
                },
                planned.call,
            ),
        }
    }

    fn feed(&mut self, _answer: Fed) {
        self.stage = stage_of(self.calls.as_slice());
    }
}

/// A store that notes its calls and refuses the call of one number, counted from 1.
#[derive(Drop)]
struct Recorder {
    made: Vec<(u16, u32, CallKind)>,
    count: u32,
    refused: u32,
}

impl World for Recorder {
    ghost use Rattle.std.specs.Prelude.{None};

    ghost journal = { λ w. None };

    ghost faults = { λ w. 0 };

    fn call(&mut self, tag: Tag, call: Call) -> Result<Answer, Back> {
        self.count = self.count.saturating_add(1);
        let answer = match &call {
            Call::Now => Answer::Time(0),
            Call::PutNew(_, _) => Answer::Stored,
            _ => return Err(Back { call }),
        };
        if self.count == self.refused {
            return Err(Back { call });
        }
        match self.made.push((tag.actor, tag.statement, call.kind())) {
            Ok(()) => Ok(answer),
            Err(_) => Err(Back { call }),
        }
    }
}

impl Writer {
    /// An actor of two statements: `Now`, `Now`, the put of a commit, `Now`; and `Now`, the put of a commit.
    fn new(alloc: Global, number: u16) -> Result<Writer, NoMemory>
        ensures { IfOk result (λ w. (w.stage ≡ Done) ↔ (length w.calls.items ≡ 0)) }
    {
        let body = Body::make(alloc, Vec::new(alloc))?;
        let first = Call::PutNew(Name::make(alloc, "first")?, body.copy()?);
        let second = Call::PutNew(Name::make(alloc, "second")?, body);
        let calls = vec![in alloc;
            Planned {
                stage: Stage::Attempt,
                statement: 2,
                call: second
            },
            Planned {
                stage: Stage::Between,
                statement: 2,
                call: Call::Now
            },
            Planned {
                stage: Stage::Running,
                statement: 1,
                call: Call::Now
            },
            Planned {
                stage: Stage::Attempt,
                statement: 1,
                call: first
            },
            Planned {
                stage: Stage::Running,
                statement: 1,
                call: Call::Now
            },
            Planned {
                stage: Stage::Between,
                statement: 1,
                call: Call::Now
            },
        ]?;
        Ok(Writer {
            number,
            stage: stage_of(calls.as_slice()),
            calls,
        })
    }
}

/// The calls that two actors make along the items, as words: the actor, the statement, and `n` for a
/// reading of the clock or `p` for the put of a commit.
fn calls_of(alloc: Global, items: &[Item], refused: u32) -> Result<String, NoMemory>
    requires { All (λ i. (0 < i.actor) × (i.actor ≤ 2)) items.now }
{
    let mut world = Recorder {
        made: Vec::new(alloc),
        count: 0,
        refused,
    };
    let mut actors = [Writer::new(alloc, 1)?, Writer::new(alloc, 2)?];
    run_schedule(&mut actors, &mut world, items);
    text_of(alloc, &world.made)
}

fn text_of(alloc: Global, made: &[(u16, u32, CallKind)]) -> Result<String, NoMemory> {
    let mut text = String::new(alloc);
    for (actor, statement, kind) in made {
        text.push_str(if *actor == 1 { " a" } else { " b" })?;
        text.push_str(if *statement == 1 { "1" } else { "2" })?;
        text.push_str(if *kind == CallKind::Now { "n" } else { "p" })?;
    }
    Ok(text)
}

/// One call of an actor.
fn one(actor: u16) -> Item
    ensures { result.actor ≡ actor }
{
    Item {
        actor,
        form: ItemForm::One,
    }
}

/// To the end of a statement of an actor.
fn statement(actor: u16) -> Item
    ensures { result.actor ≡ actor }
{
    Item {
        actor,
        form: ItemForm::Statement,
    }
}

/// Until an actor's next call is the put of a commit.
fn attempt(actor: u16) -> Item
    ensures { result.actor ≡ actor }
{
    Item {
        actor,
        form: ItemForm::Attempt,
    }
}

/// Whether two actors make these calls along the items.
fn makes(alloc: Global, items: &[Item], refused: u32, calls: &str) -> Result<bool, NoMemory>
    requires { All (λ i. (0 < i.actor) × (i.actor ≤ 2)) items.now }
{
    Ok(calls_of(alloc, items, refused)?.as_str() == calls)
}

#[test]
fn an_item_of_one_call_makes_one(rt: HostRuntime) -> Result<(), Fail> {
    let items = [one(1), one(2), one(2), one(1), one(1)];
    let calls = " a1n b1n b1n a1n a1p a1n a2n a2p b1p b1n b2n b2p";
    assert!(rt; makes(rt.alloc(), &items, 0, calls)?);
    Ok(())
}

#[test]
fn a_statement_goes_to_its_end(rt: HostRuntime) -> Result<(), Fail> {
    let alloc = rt.alloc();
    let between = [statement(1), one(2), statement(1), one(2)];
    let calls = " a1n a1n a1p a1n b1n a2n a2p b1n b1p b1n b2n b2p";
    assert!(rt; makes(alloc, &between, 0, calls)?);
    let within = [
        one(2),
        statement(2),
        one(1),
        attempt(2),
        statement(2),
        one(1),
    ];
    let calls = " b1n b1n b1p b1n a1n b2n b2p a1n a1p a1n a2n a2p";
    assert!(rt; makes(alloc, &within, 0, calls)?);
    Ok(())
}

#[test]
fn an_attempt_stops_before_the_put(rt: HostRuntime) -> Result<(), Fail> {
    let alloc = rt.alloc();
    let at_put = [attempt(1), one(2), attempt(1), one(2), one(1), one(2)];
    let calls = " a1n a1n b1n b1n a1p b1p a1n a2n a2p b1n b2n b2p";
    assert!(rt; makes(alloc, &at_put, 0, calls)?);
    let after_put = [attempt(2), one(2), attempt(2), one(1), attempt(2), one(1)];
    let calls = " b1n b1n b1p b1n a1n b2n a1n a1p a1n a2n a2p b2p";
    assert!(rt; makes(alloc, &after_put, 0, calls)?);
    Ok(())
}

#[test]
fn items_of_a_finished_actor_are_passed_over(rt: HostRuntime) -> Result<(), Fail> {
    let items = [
        statement(2),
        statement(2),
        statement(2),
        attempt(2),
        one(2),
        attempt(1),
        statement(1),
        attempt(1),
        one(1),
        one(1),
        one(2),
    ];
    let calls = " b1n b1n b1p b1n b2n b2p a1n a1n a1p a1n a2n a2p";
    assert!(rt; makes(rt.alloc(), &items, 0, calls)?);
    Ok(())
}

#[test]
fn a_refused_call_is_that_of_its_item(rt: HostRuntime) -> Result<(), Fail> {
    let alloc = rt.alloc();
    let between = [one(1), one(2), one(1)];
    let calls = " a1n a1n a1p a1n a2n a2p b1n b1p b1n b2n b2p";
    assert!(rt; makes(alloc, &between, 2, calls)?);
    let within = [statement(1), one(2)];
    let calls = " a1n a1p a1n b1n a2n a2p b1n b1p b1n b2n b2p";
    assert!(rt; makes(alloc, &within, 2, calls)?);
    Ok(())
}

#[test]
fn one_actor_runs_alone(rt: HostRuntime) -> Result<(), Fail> {
    let alloc = rt.alloc();
    let mut world = Recorder {
        made: Vec::new(alloc),
        count: 0,
        refused: 0,
    };
    let mut writer = Writer::new(alloc, 2)?;
    assert!(rt; step_actor(&mut writer, &mut world));
    run_piece(&mut writer, &mut world, Till::CommitPut);
    let before_put = text_of(alloc, &world.made)?;
    assert_eq!(rt; before_put.as_str(), " b1n b1n");
    run_piece(&mut writer, &mut world, Till::End);
    let whole = text_of(alloc, &world.made)?;
    assert_eq!(rt; whole.as_str(), " b1n b1n b1p b1n b2n b2p");
    assert!(rt; !step_actor(&mut writer, &mut world));
    Ok(())
}
