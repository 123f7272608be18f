//! Scripts and their faults.
use actor_core::Item;
use row_base::{Items, Text};
use statement_types::{Statement, TableSpec};

/// What a script begins with.
#[derive(Drop)]
pub enum Header {
    /// The table that is there is opened.
    Existing,
    /// The table is made.
    Table(TableSpec),
}

/// A session: its name and its statements, in order.
#[derive(Drop)]
pub struct SessionScript {
    pub name: Text,
    pub statements: Items<Statement>,
}

/// A script: how many puts of a commit a statement makes at most, the header, the sessions in order, and the
/// schedule's items in order. An item's actor is a session by its place in the script, counted from 1.
#[derive(Drop)]
pub struct Script {
    pub attempts: u32,
    pub header: Header,
    pub sessions: Items<SessionScript>,
    pub items: Items<Item>,
}

/// What is wrong with a line.
#[derive(Clone, Copy, Debug, Drop, PartialEq, Eq)]
pub enum ScriptFaultKind {
    /// It isn't UTF-8.
    Utf8,
    /// It stands where the header should.
    Header,
    /// It has no form that may stand there.
    Form,
    /// It declares a session twice, or an item names an unknown one.
    Session,
    /// It passes a limit.
    Limit,
    /// Memory ran out at the line.
    NoMemory,
}

/// The least bad line, counted from 1, and the first kind of fault that it has.
#[derive(Clone, Copy, Debug, Drop, PartialEq, Eq)]
pub struct ScriptFault {
    pub line: u32,
    pub kind: ScriptFaultKind,
}
