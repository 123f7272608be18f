//! A store in memory, and how a phase is run over it.
ghost use Rattle.edge_api.specs.Actor.{IsFit};

use call_phases::Phase;
use edge_api::{Answer, Body, Call, Fed, MemWorld, Name, Tag, World};
use row_base::NoMemory;
use std::alloc::Global;

pub const TAG: Tag = Tag {
    actor: 1,
    statement: 1,
};

/// What comes in place of the answer to a call.
#[derive(Clone, Copy, Drop)]
pub enum Trouble {
    Fault,
    NoMemory,
}

/// Which calls of a phase are answered: so many, and then there is trouble.
#[derive(Clone, Copy, Drop)]
pub struct Answers {
    pub count: u32,
    pub then: Trouble,
}

pub const ALL: Answers = Answers {
    count: u32::MAX,
    then: Trouble::Fault,
};

fn made(world: &mut MemWorld, call: Call) -> Fed
    ensures { IsFit call result }
{
    match world.call(TAG, call) {
        Ok(answer) => Fed::Answer(answer),
        Err(_) => Fed::NoMemory,
    }
}

fn troubled(call: Call, trouble: Trouble) -> Fed
    ensures { IsFit call result }
{
    drop(call);
    match trouble {
        Trouble::Fault => Fed::Answer(Answer::Fault),
        Trouble::NoMemory => Fed::NoMemory,
    }
}

fn fed(world: &mut MemWorld, call: Call, answers: &mut Answers) -> Fed
    ensures { IsFit call result }
{
    match answers.count.checked_sub(1) {
        Some(left) => {
            answers.count = left;
            made(world, call)
        }
        None => troubled(call, answers.then),
    }
}

/// Makes the calls of a phase, until it has ended.
pub fn run<P: Phase>(
    mut phase: P,
    world: &mut MemWorld,
    mut answers: Answers,
) -> Result<P::Done, P::Fault>
    requires { P.ready phase }
{
    while let Some(call) = phase.next() {
        phase.feed(fed(world, call, &mut answers));
    }
    phase.finish()
}

/// Puts an object.
pub fn put(
    world: &mut MemWorld,
    name: Result<Name, NoMemory>,
    body: Result<Body, NoMemory>,
) -> Result<(), NoMemory> {
    let name = name?;
    let body = body?;
    match world.call(TAG, Call::PutNew(name, body)) {
        Ok(_) => Ok(()),
        Err(_) => Err(NoMemory),
    }
}

pub fn text_body(alloc: Global, text: &str) -> Result<Body, NoMemory> {
    Body::make(alloc, text.as_bytes().to_vec(alloc)?)
}
