//! The calls of an object store, their answers, and the entries of its journal.
ghost use Rattle.std.specs.Prelude.{◌≡◌, IfOk};
ghost use Rattle.edge_api.specs.Journal.{kind_of, name_of};

use crate::{Body, Name};
use row_base::NoMemory;
use std::alloc::Global;
use std::marker::Model;
use std::sync::Arc;

/// Which statement of which actor makes a call.
#[derive(Clone, Copy, Debug, Drop, PartialEq, Eq)]
pub struct Tag {
    pub actor: u16,
    pub statement: u32,
}

/// A call of an object store. Times are in milliseconds.
#[derive(Drop)]
pub enum Call {
    /// Reads an object.
    Get(Name),
    /// Stores an object exactly where its name is free.
    PutNew(Name, Body),
    /// Stores or replaces an object.
    Put(Name, Body),
    /// Lists the names that begin with a prefix, in byte order.
    List(Name),
    /// Deletes an object, if it is there.
    Delete(Name),
    /// Reads the clock.
    Now,
    /// Waits for so many milliseconds.
    Wait(u64),
}

/// The kind of a call.
#[derive(Clone, Copy, Debug, Drop, PartialEq, Eq)]
pub enum CallKind {
    Get,
    PutNew,
    Put,
    List,
    Delete,
    Now,
    Wait,
}

impl Call {
    /// The same call, which shares its name and its body. The error is want of memory.
    pub fn copy(&self) -> Result<Call, NoMemory>
        ensures { IfOk result (λ call. call ≡ self.now) }
    {
        match self {
            Call::Get(name) => Ok(Call::Get(name.copy()?)),
            Call::PutNew(name, body) => Ok(Call::PutNew(name.copy()?, body.copy()?)),
            Call::Put(name, body) => Ok(Call::Put(name.copy()?, body.copy()?)),
            Call::List(prefix) => Ok(Call::List(prefix.copy()?)),
            Call::Delete(name) => Ok(Call::Delete(name.copy()?)),
            Call::Now => Ok(Call::Now),
            Call::Wait(time) => Ok(Call::Wait(*time)),
        }
    }

    /// The kind of the call.
    pub fn kind(&self) -> CallKind
        ensures { result ≡ kind_of self.now }
    {
        match self {
            Call::Get(_) => CallKind::Get,
            Call::PutNew(_, _) => CallKind::PutNew,
            Call::Put(_, _) => CallKind::Put,
            Call::List(_) => CallKind::List,
            Call::Delete(_) => CallKind::Delete,
            Call::Now => CallKind::Now,
            Call::Wait(_) => CallKind::Wait,
        }
    }
}

/// A call without its body. The name is empty for a reading of the clock and for a wait.
#[derive(Drop)]
pub struct Called {
    pub kind: CallKind,
    pub name: Name,
}

impl Called {
    /// The same, which shares the name. The error is want of memory.
    pub fn copy(&self) -> Result<Called, NoMemory>
        ensures { IfOk result (λ called. called ≡ self.now) }
    {
        Ok(Called {
            kind: self.kind,
            name: self.name.copy()?,
        })
    }
}

/// An object of a store, with the clock of its last put.
#[derive(Drop)]
pub struct Object {
    pub body: Body,
    pub put_at: u64,
}

/// A name and the clock of its last put.
#[derive(Drop)]
pub struct Listed {
    pub name: Name,
    pub put_at: u64,
}

/// The names of a listing, in byte order. Copies share them.
#[derive(Drop)]
pub struct Listing {
    items: Arc<Vec<Listed>>,
}

impl Model for Listing {
    ghost use Rattle.std.specs.Prelude.{List};
    ghost use Rattle.std.specs.Arc.{arc_value};
    ghost use Rattle.edge_api.specs.declared.call.Listed.{Listed};

    ghost Value = { List Listed };

    ghost view = { λ l. (arc_value l.items).items };
}

impl Listing {
    /// The items as a listing. The error is want of memory.
    pub fn make(alloc: Global, items: Vec<Listed>) -> Result<Listing, NoMemory>
        ensures { IfOk result (λ l. l ≡ items.items) }
    {
        match Arc::new(alloc, items) {
            Ok(items) => Ok(Listing { items }),
            Err(_) => Err(NoMemory),
        }
    }

    /// Another owner of the same items. The error is want of memory.
    pub fn copy(&self) -> Result<Listing, NoMemory>
        ensures { IfOk result (λ l. l ≡ self.now) }
    {
        Ok(Listing {
            items: Arc::try_clone(&self.items)?,
        })
    }

    /// The items.
    pub fn as_slice(&self) -> &[Listed]
        ensures { result.now ≡ self.now }
    {
        let items: &Vec<Listed> = &self.items;
        items.as_slice()
    }
}

/// The answer of a store to a call.
#[derive(Drop)]
pub enum Answer {
    /// The store failed. A write was done or wasn't done.
    Fault,
    /// The object's bytes.
    Body(Body),
    /// There is no object of that name.
    Missing,
    /// The object is stored.
    Stored,
    /// The name isn't free.
    Taken,
    /// The names with the prefix.
    Names(Listing),
    /// There is no object of that name any more.
    Gone,
    /// The clock, in milliseconds, at most `LAST_TIME`.
    Time(u64),
    /// The wait is over.
    Waited,
}

impl Answer {
    /// The same answer, which shares its contents. The error is want of memory.
    pub fn copy(&self) -> Result<Answer, NoMemory>
        ensures { IfOk result (λ answer. answer ≡ self.now) }
    {
        match self {
            Answer::Fault => Ok(Answer::Fault),
            Answer::Body(body) => Ok(Answer::Body(body.copy()?)),
            Answer::Missing => Ok(Answer::Missing),
            Answer::Stored => Ok(Answer::Stored),
            Answer::Taken => Ok(Answer::Taken),
            Answer::Names(listing) => Ok(Answer::Names(listing.copy()?)),
            Answer::Gone => Ok(Answer::Gone),
            Answer::Time(time) => Ok(Answer::Time(*time)),
            Answer::Waited => Ok(Answer::Waited),
        }
    }
}

/// One call of the store with its answer.
#[derive(Drop)]
pub struct JournalEntry {
    pub tag: Tag,
    pub call: Call,
    pub answer: Answer,
}

/// Want of memory, which hands the call back.
#[derive(Drop)]
pub struct Back {
    pub call: Call,
}
