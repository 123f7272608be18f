//! A store in memory, which keeps its journal.
ghost use Rattle.std.specs.Prelude.{◌≡◌, ◌≤◌, [], ◌∷◌, ◌++◌, Some, IfOk, IfErr, OnOk, OnErr};
ghost use Rattle.std.specs.Option.{option_copied, option_map};
ghost use Rattle.row_base.specs.declared.limits.TheConstants.{LAST_TIME};
ghost use Rattle.edge_api.specs.Journal.{object_at, with_object, without_object, listing, answer_of, effect_of, HasLegalCompletion, IsOfKind};
ghost use Rattle.edge_api.specs.Memory.{clock_after, memory_answer, memory_after, memory_after_fault};
ghost use Rattle.edge_api.specs.World.{Grows, FaultHasCause};

use crate::{
    Answer, Back, Body, Call, How, JournalEntry, Listed, Listing, Name, Object, Tag, World,
};
use row_base::NoMemory;
use row_base::limits::LAST_TIME;
use std::alloc::Global;
use std::collections::BTreeMap;
use std::marker::Model;
use std::ops::Bound;

fn object_of<'a>(objects: &'a BTreeMap<Name, Object>, name: &Name) -> Option<&'a Object>
    ensures { option_copied result ≡ object_at objects.now.entries name.now }
{
    objects.get(name)
}

/// The names that begin with the prefix, from the first one on.
fn listing_of(
    alloc: Global,
    objects: &BTreeMap<Name, Object>,
    prefix: &Name,
) -> Result<Listing, NoMemory>
    ensures { IfOk result (λ l. l ≡ listing objects.now.entries prefix.now) }
{
    let mut items = Vec::new(alloc);
    for (name, object) in objects.range((Bound::Included(prefix), Bound::Unbounded)) {
        if !name.as_bytes().starts_with(prefix.as_bytes()) {
            break;
        }
        items.push(Listed {
            name: name.copy()?,
            put_at: object.put_at,
        })?;
    }
    Listing::make(alloc, items)
}

/// The clock after a call.
pub(crate) fn clock_of(clock: u64, call: &Call) -> u64
    requires { clock ≤ LAST_TIME }
    ensures clock { result ≡ clock_after clock call.now }
    ensures bound { result ≤ LAST_TIME }
{
    match call {
        Call::Wait(time) => clock.saturating_add(*time).min(LAST_TIME),
        _ => clock,
    }
}

/// The answer to a call.
fn answer_to(
    alloc: Global,
    objects: &BTreeMap<Name, Object>,
    clock: u64,
    call: &Call,
) -> Result<Answer, NoMemory>
    ensures { IfOk result (λ answer. answer ≡ answer_of objects.now.entries clock call.now) }
{
    match call {
        Call::Get(name) => match object_of(objects, name) {
            Some(object) => Ok(Answer::Body(object.body.copy()?)),
            None => Ok(Answer::Missing),
        },
        Call::PutNew(name, _) => match object_of(objects, name) {
            Some(_) => Ok(Answer::Taken),
            None => Ok(Answer::Stored),
        },
        Call::Put(_, _) => Ok(Answer::Stored),
        Call::List(prefix) => Ok(Answer::Names(listing_of(alloc, objects, prefix)?)),
        Call::Delete(_) => Ok(Answer::Gone),
        Call::Now => Ok(Answer::Time(clock)),
        Call::Wait(_) => Ok(Answer::Waited),
    }
}

fn put_object(
    objects: &mut BTreeMap<Name, Object>,
    clock: u64,
    name: &Name,
    body: &Body,
) -> Result<(), NoMemory>
    ensures ok { OnOk result (objects.new.entries ≡ with_object objects.old.entries name.now (record { body = body.now; put_at = clock })) }
    ensures err { OnErr result (objects.new.entries ≡ objects.old.entries) }
{
    let object = Object {
        body: body.copy()?,
        put_at: clock,
    };
    objects.insert(name.copy()?, object)?;
    Ok(())
}

fn remove_object(objects: &mut BTreeMap<Name, Object>, name: &Name)
    ensures { objects.new.entries ≡ without_object objects.old.entries name.now }
{
    objects.remove(name);
}

/// Changes the objects as the call says.
fn change_objects(
    objects: &mut BTreeMap<Name, Object>,
    clock: u64,
    call: &Call,
) -> Result<(), NoMemory>
    ensures ok { OnOk result (objects.new.entries ≡ effect_of objects.old.entries clock call.now) }
    ensures err { OnErr result (objects.new.entries ≡ objects.old.entries) }
{
    match call {
        Call::PutNew(name, body) => match object_of(objects, name) {
            Some(_) => Ok(()),
            None => put_object(objects, clock, name, body),
        },
        Call::Put(name, body) => put_object(objects, clock, name, body),
        Call::Delete(name) => {
            remove_object(objects, name);
            Ok(())
        }
        Call::Get(_) | Call::List(_) | Call::Now | Call::Wait(_) => Ok(()),
    }
}

/// Does a call and writes it into the journal with what is heard of it.
fn do_call(
    objects: &mut BTreeMap<Name, Object>,
    journal: &mut Vec<JournalEntry>,
    clock: &mut u64,
    tag: Tag,
    call: &Call,
    heard: &Answer,
) -> Result<(), NoMemory>
    requires { clock.old ≤ LAST_TIME }
    ensures objects { OnOk result (objects.new.entries ≡ effect_of objects.old.entries clock.new call.now) }
    ensures journal { OnOk result (journal.new.items ≡ journal.old.items ++ record { tag = tag; call = call.now; answer = heard.now } ∷ []) }
    ensures clock { OnOk result (clock.new ≡ clock_after clock.old call.now) }
    ensures same_objects { OnErr result (objects.new.entries ≡ objects.old.entries) }
    ensures same_journal { OnErr result (journal.new.items ≡ journal.old.items) }
    ensures same_clock { OnErr result (clock.new ≡ clock.old) }
{
    let later = clock_of(*clock, call);
    let entry = JournalEntry {
        tag,
        call: call.copy()?,
        answer: heard.copy()?,
    };
    journal.reserve(1)?;
    change_objects(objects, later, call)?;
    journal.push(entry).unwrap();
    *clock = later;
    Ok(())
}

/// Writes a call that isn't done into the journal.
fn skip_call(journal: &mut Vec<JournalEntry>, tag: Tag, call: &Call) -> Result<(), NoMemory>
    ensures ok { OnOk result (journal.new.items ≡ journal.old.items ++ record { tag = tag; call = call.now; answer = Answer.Fault } ∷ []) }
    ensures err { OnErr result (journal.new.items ≡ journal.old.items) }
{
    let entry = JournalEntry {
        tag,
        call: call.copy()?,
        answer: Answer::Fault,
    };
    journal.push(entry)?;
    Ok(())
}

/// Makes a call, which is answered.
fn make_call(
    alloc: Global,
    objects: &mut BTreeMap<Name, Object>,
    journal: &mut Vec<JournalEntry>,
    clock: &mut u64,
    tag: Tag,
    call: &Call,
) -> Result<Answer, NoMemory>
    requires { clock.old ≤ LAST_TIME }
    ensures answer { IfOk result (λ answer. answer ≡ answer_of objects.old.entries clock.new call.now) }
    ensures objects { OnOk result (objects.new.entries ≡ effect_of objects.old.entries clock.new call.now) }
    ensures journal { IfOk result (λ answer. journal.new.items ≡ journal.old.items ++ record { tag = tag; call = call.now; answer = answer } ∷ []) }
    ensures clock { OnOk result (clock.new ≡ clock_after clock.old call.now) }
    ensures same_objects { OnErr result (objects.new.entries ≡ objects.old.entries) }
    ensures same_journal { OnErr result (journal.new.items ≡ journal.old.items) }
    ensures same_clock { OnErr result (clock.new ≡ clock.old) }
{
    let answer = answer_to(alloc, objects, clock_of(*clock, call), call)?;
    do_call(objects, journal, clock, tag, call, &answer)?;
    Ok(answer)
}

/// Makes a call, which fails.
fn fail_call(
    objects: &mut BTreeMap<Name, Object>,
    journal: &mut Vec<JournalEntry>,
    clock: &mut u64,
    tag: Tag,
    call: &Call,
    how: How,
) -> Result<(), NoMemory>
    requires { clock.old ≤ LAST_TIME }
    ensures ok { OnOk result (record { journal = journal.new.items; objects = objects.new.entries; clock = clock.new } ≡ memory_after_fault (record { journal = journal.old.items; objects = objects.old.entries; clock = clock.old }) tag call.now how) }
    ensures same_objects { OnErr result (objects.new.entries ≡ objects.old.entries) }
    ensures same_journal { OnErr result (journal.new.items ≡ journal.old.items) }
    ensures same_clock { OnErr result (clock.new ≡ clock.old) }
{
    match how {
        How::NotDone => skip_call(journal, tag, call),
        How::DoneUnheard => do_call(objects, journal, clock, tag, call, &Answer::Fault),
    }
}

/// A store in memory. It keeps the journal of its calls, and it never fails of itself.
#[derive(Drop)]
pub struct MemWorld {
    alloc: Global,
    clock: u64,
    objects: BTreeMap<Name, Object>,
    journal: Vec<JournalEntry>,
}

impl Model for MemWorld {
    ghost use Rattle.edge_api.specs.Memory.{Memory, IsCompleted};

    ghost Value = { Memory };

    ghost view = { λ w. record { journal = w.journal.items; objects = w.objects.entries; clock = w.clock } };

    ghost invariant = { λ w. IsCompleted w.journal.items w.objects.entries w.clock };
}

impl MemWorld {
    /// A store with no objects, whose clock stands at a start in milliseconds, at most `LAST_TIME`.
    pub fn new(alloc: Global, start: u64) -> MemWorld
        requires { start ≤ LAST_TIME }
        ensures { result ≡ record { journal = []; objects = []; clock = start } }
    {
        MemWorld {
            alloc,
            clock: start,
            objects: BTreeMap::new(alloc),
            journal: Vec::new(alloc),
        }
    }

    /// The body of the object under a name, if it is there.
    pub fn object(&self, name: &Name) -> Option<&Body>
        ensures { option_copied result ≡ option_map (λ o. o.body) (object_at self.now.objects name.now) }
    {
        object_of(&self.objects, name).map(|object| &object.body)
    }

    /// The calls so far with the answers that were heard.
    pub fn journal(&self) -> &[JournalEntry]
        ensures { result.now ≡ self.now.journal }
    {
        &self.journal
    }

    /// Makes a call whose answer is `Fault`. The error is want of memory: it hands the call back, and nothing has changed.
    pub(crate) fn fail(&mut self, tag: Tag, call: Call, how: How) -> Result<(), Back>
        ensures ok { OnOk result (self.new ≡ memory_after_fault self.old tag call how) }
        ensures completion { HasLegalCompletion self.new.journal }
        ensures back { IfErr result (λ back. back.call ≡ call) }
        ensures unchanged { OnErr result (self.new ≡ self.old) }
    {
        match fail_call(
            &mut self.objects,
            &mut self.journal,
            &mut self.clock,
            tag,
            &call,
            how,
        ) {
            Ok(()) => Ok(()),
            Err(_) => Err(Back { call }),
        }
    }
}

impl World for MemWorld {
    ghost journal = { λ w. Some w.journal };

    ghost faults = { λ _. 0 };

    fn call(&mut self, tag: Tag, call: Call) -> Result<Answer, Back>
        ensures appended { IfOk result (λ answer. Grows (Some self.old.journal) (record { tag = tag; call = call; answer = answer } ∷ []) (Some self.new.journal)) }
        ensures kind { IfOk result (λ answer. IsOfKind call answer) }
        ensures completion { HasLegalCompletion self.new.journal }
        ensures back { IfErr result (λ back. back.call ≡ call) }
        ensures unchanged { OnErr result (self.new ≡ self.old) }
        ensures cause { IfOk result (FaultHasCause 0 0) }
        ensures answer { IfOk result (λ answer. answer ≡ memory_answer self.old call) }
        ensures after { OnOk result (self.new ≡ memory_after self.old tag call) }
    {
        match make_call(
            self.alloc,
            &mut self.objects,
            &mut self.journal,
            &mut self.clock,
            tag,
            &call,
        ) {
            Ok(answer) => Ok(answer),
            Err(_) => Err(Back { call }),
        }
    }
}
