//! Where a script's reader stands between two lines.
use crate::{Header, Script, SessionScript};
use actor_core::ItemForm;
use row_base::{Items, Rows, Text};
use statement_types::TableSpec;

/// The place behind the lines that were taken so far.
#[derive(Drop)]
pub enum Place {
    /// Before the header, behind an `attempts` line or none.
    Start(Option<u32>),
    /// Behind the header.
    Headed(Script),
    /// In a session. The script holds the sessions before it.
    Session(Script, SessionScript),
    /// Behind `schedule`.
    Items(Script),
}

/// An item of a line: the place of its session in the script, counted from 1, if there is one of its name.
#[derive(Clone, Copy, Debug, Drop)]
pub struct Placed {
    pub session: Option<u16>,
    pub form: ItemForm,
}

/// A statement as its line gives it, which may pass a limit.
#[derive(Drop)]
pub enum Stated {
    Table(TableSpec),
    Insert(Rows),
    Select,
    /// The milliseconds to wait.
    Wait(u64),
}

/// What a line is at its place.
#[derive(Drop)]
pub enum Entry {
    /// The limit of puts, if it is one.
    Attempts(Option<u32>),
    Header(Header),
    /// A session of this name begins.
    Session(Text),
    Statement(Stated),
    /// The items begin.
    Schedule,
    Items(Items<Placed>),
}
