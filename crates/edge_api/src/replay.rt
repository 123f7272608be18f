//! A plain replay of a journal, which goes over all objects for each call.
ghost use Rattle.std.specs.Prelude.{◌≡◌, ◌≤◌, ◌<◌, ◌+◌, ◌++◌, ◌∷◌, [], length, not, take, drop, slice_set, IfOk, OnOk, MatchResult};
ghost use Rattle.std.specs.Str.{bytes_eq};
ghost use Rattle.std.specs.Option.{option_copied};
ghost use Rattle.row_base.specs.declared.limits.TheConstants.{LAST_TIME};
ghost use Rattle.edge_api.specs.declared.call.Object.{Object};
ghost use Rattle.edge_api.specs.Journal.{object_at, with_object, without_object, effect_of, after_moment};
ghost use Rattle.edge_api.specs.Replay.{moment_at, replay_objects};

use crate::memory::clock_of;
use crate::{Answer, Body, Call, JournalEntry, Name, Object};
use row_base::NoMemory;
use std::alloc::Global;
use std::cmp::Ordering;

fn find<'a>(objects: &'a [(Name, Object)], name: &Name) -> Option<&'a Object>
    ensures { option_copied result ≡ object_at objects.now name.now }
{
    for (key, object) in objects {
        if key == name {
            return Some(object);
        }
    }
    None
}

/// Where an object goes: `Ok` of the place of the name, or `Err` of the place before which it is put.
fn place_of(objects: &[(Name, Object)], name: &Name) -> Result<usize, usize>
    ensures bound { MatchResult result (λ i. i < length objects.now) (λ i. i ≤ length objects.now) }
    ensures place { MatchResult result
        (λ i. (o : Object) → with_object objects.now name.now o ≡ slice_set objects.now i (name.now, o))
        (λ i. (o : Object) → with_object objects.now name.now o ≡ take i objects.now ++ (name.now, o) ∷ drop i objects.now) }
{
    for (i, object) in objects.iter().enumerate() {
        match name.cmp(&object.0) {
            Ordering::Less => return Err(i),
            Ordering::Equal => return Ok(i),
            Ordering::Greater => {}
        }
    }
    Err(objects.len())
}

fn put(
    objects: &mut Vec<(Name, Object)>,
    clock: u64,
    name: &Name,
    body: &Body,
) -> Result<(), NoMemory>
    ensures { OnOk result (objects.new.items ≡ with_object objects.old.items name.now (record { body = body.now; put_at = clock })) }
{
    let object = (
        name.copy()?,
        Object {
            body: body.copy()?,
            put_at: clock,
        },
    );
    match place_of(objects, name) {
        Ok(i) => objects[i] = object,
        Err(i) => objects.insert(i, object)?,
    }
    Ok(())
}

fn remove(objects: &mut Vec<(Name, Object)>, name: &Name)
    ensures { objects.new.items ≡ without_object objects.old.items name.now }
{
    objects.retain(
        |object|
            ensures { result ≡ not (bytes_eq object.now.0 name.entry.now) }
        { object.0 != *name },
    );
}

fn change(objects: &mut Vec<(Name, Object)>, clock: u64, call: &Call) -> Result<(), NoMemory>
    ensures { OnOk result (objects.new.items ≡ effect_of objects.old.items clock call.now) }
{
    match call {
        Call::PutNew(name, body) => match find(objects, name) {
            Some(_) => Ok(()),
            None => put(objects, clock, name, body),
        },
        Call::Put(name, body) => put(objects, clock, name, body),
        Call::Delete(name) => {
            remove(objects, name);
            Ok(())
        }
        Call::Get(_) | Call::List(_) | Call::Now | Call::Wait(_) => Ok(()),
    }
}

fn replay_entry(
    objects: &mut Vec<(Name, Object)>,
    clock: u64,
    entry: &JournalEntry,
) -> Result<(), NoMemory>
    ensures { OnOk result (objects.new.items ≡ after_moment objects.old.items (moment_at clock entry.now)) }
{
    match entry.answer {
        Answer::Fault => Ok(()),
        _ => change(objects, clock, &entry.call),
    }
}

/// The objects that a journal of a store in memory leaves, in byte order of their names. The store's clock
/// stood at `start` before the first call, in milliseconds, at most `LAST_TIME`. It goes over all objects
/// for each call, so it is for small journals. The error is want of memory.
pub fn replay_journal(
    alloc: Global,
    start: u64,
    journal: &[JournalEntry],
) -> Result<Vec<(Name, Object)>, NoMemory>
    requires { start ≤ LAST_TIME }
    ensures { IfOk result (λ v. v.items ≡ replay_objects start journal.now) }
{
    let mut objects = Vec::new(alloc);
    let mut clock = start;
    for entry in journal {
        clock = clock_of(clock, &entry.call);
        replay_entry(&mut objects, clock, entry)?;
    }
    Ok(objects)
}
