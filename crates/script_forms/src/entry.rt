//! What a line is at its place, and the place behind it.
ghost use Rattle.std.specs.Prelude.{◌≡◌, ◌≤◌, ◌++◌, true, IfOk, IfErr, OnOk};
ghost use Rattle.row_base.specs.declared.limits.TheConstants.{MAX_SESSIONS};
ghost use Rattle.script_tokens.specs.Gives.{Gives};
ghost use Rattle.script_forms.specs.Places.{attempts_of, or_none, spec_of, wait_of, wait_entry, begins_lower, are_lower, is_session_name, made_header, start_entry, session_start, headed_entry, made_table, session_entry, entry_at, is_declared, is_new, is_placed, is_known, session_fits, statement_fits, items_fit, is_within, IsSound, begun, named, with_session, with_statement, known_item, with_items, after_start, after_header, after_session, after_schedule, after};
ghost use Rattle.script_forms.specs.Scripts.{session_count};
ghost use Rattle.std.specs.List.{list_all, flat_map};

use crate::items::{has_bytes, placed_items};
use crate::limits::{are_keys, stated_within, statement_of, table_within};
use crate::line::{Line, read_one};
use crate::place::{Entry, Place, Placed, Stated};
use crate::script::{Header, Script, SessionScript};
use crate::table::TableForm;
use actor_core::Item;
use row_base::limits::{MAX_ATTEMPTS, MAX_SCHEDULE_ITEMS, MAX_SESSIONS, MAX_STATEMENTS};
use row_base::{Items, Text};
use script_tokens::ParseError;
use statement_types::{Statement, TableSpec};
use std::alloc::Global;

/// The most bytes of a session's name.
const MAX_SESSION_NAME: usize = 16;

/// How many puts of a commit a statement makes at most, where the script doesn't say.
const ATTEMPTS: u32 = 1_000;

fn attempts_of(number: i64) -> Option<u32>
    ensures { result ≡ attempts_of number }
{
    if number >= 1 && number <= MAX_ATTEMPTS as i64 {
        Some(number as u32)
    } else {
        None
    }
}

fn or_none<T>(alloc: Global, items: Option<Items<T>>) -> Items<T>
    ensures { result ≡ or_none items }
{
    match items {
        Some(items) => items,
        None => Items::from_vec(Vec::new(alloc)),
    }
}

fn spec_of(alloc: Global, form: TableForm) -> TableSpec
    ensures { result ≡ spec_of form }
{
    TableSpec {
        columns: form.columns,
        partition: or_none(alloc, form.partition),
        properties: or_none(alloc, form.properties),
    }
}

fn wait_of(number: i64) -> Option<u64>
    ensures { result ≡ wait_of number }
{
    if number >= 0 {
        Some(number as u64)
    } else {
        None
    }
}

fn begins_lower(name: &[u8]) -> bool
    ensures { result ≡ begins_lower name.now }
{
    match name {
        [] => false,
        [b, ..] => b.is_ascii_lowercase(),
    }
}

fn are_lower(name: &[u8]) -> bool
    ensures { result ≡ are_lower name.now }
{
    name.iter()
        .all(|b| b.is_ascii_lowercase() || b.is_ascii_digit())
}

fn is_session_name(name: &[u8]) -> bool
    ensures { result ≡ is_session_name name.now }
{
    begins_lower(name) && are_lower(name) && name.len() <= MAX_SESSION_NAME
}

fn made_header(spec: TableSpec) -> Result<Entry, ParseError>
    ensures { Gives (λ e. e) result (made_header spec) }
{
    if !are_keys(spec.properties.as_slice()) {
        return Err(ParseError::Form);
    }
    if !table_within(&spec) {
        return Err(ParseError::Form);
    }
    Ok(Entry::Header(Header::Table(spec)))
}

fn start_entry(alloc: Global, attempts: Option<u32>, line: Line) -> Result<Entry, ParseError>
    ensures { Gives (λ e. e) result (start_entry line attempts) }
{
    match line {
        Line::Attempts(number) => match attempts {
            None => Ok(Entry::Attempts(attempts_of(number))),
            Some(_) => Err(ParseError::Form),
        },
        Line::Open => Ok(Entry::Header(Header::Existing)),
        Line::Table(form) => made_header(spec_of(alloc, form)),
        _ => Err(ParseError::Form),
    }
}

fn session_start(name: Text) -> Result<Entry, ParseError>
    ensures { Gives (λ e. e) result (session_start name) }
{
    if is_session_name(name.as_bytes()) {
        Ok(Entry::Session(name))
    } else {
        Err(ParseError::Form)
    }
}

fn headed_entry(line: Line) -> Result<Entry, ParseError>
    ensures { Gives (λ e. e) result (headed_entry line) }
{
    match line {
        Line::Session(name) => session_start(name),
        Line::Schedule => Ok(Entry::Schedule),
        _ => Err(ParseError::Form),
    }
}

fn made_table(spec: TableSpec) -> Result<Entry, ParseError>
    ensures { Gives (λ e. e) result (made_table spec) }
{
    if are_keys(spec.properties.as_slice()) {
        Ok(Entry::Statement(Stated::Table(spec)))
    } else {
        Err(ParseError::Form)
    }
}

fn wait_entry(number: i64) -> Result<Entry, ParseError>
    ensures { Gives (λ e. e) result (wait_entry number) }
{
    match wait_of(number) {
        Some(time) => Ok(Entry::Statement(Stated::Wait(time))),
        None => Err(ParseError::Form),
    }
}

fn session_entry(alloc: Global, line: Line) -> Result<Entry, ParseError>
    ensures { Gives (λ e. e) result (session_entry line) }
{
    match line {
        Line::Session(name) => session_start(name),
        Line::Table(form) => made_table(spec_of(alloc, form)),
        Line::Insert(rows) => Ok(Entry::Statement(Stated::Insert(rows))),
        Line::Select => Ok(Entry::Statement(Stated::Select)),
        Line::Wait(number) => wait_entry(number),
        Line::Schedule => Ok(Entry::Schedule),
        _ => Err(ParseError::Form),
    }
}

#[tactic(auto, unfolding(crate::specs::Places::entry_at))]
fn entry_at(alloc: Global, place: &Place, line: &[u8]) -> Result<Entry, ParseError>
    requires { session_count place.now ≤ MAX_SESSIONS }
    ensures { Gives (λ e. e) result (entry_at place.now line.now) }
{
    match place {
        Place::Start(attempts) => start_entry(alloc, *attempts, read_one(alloc, line)?),
        Place::Headed(_) => headed_entry(read_one(alloc, line)?),
        Place::Session(..) => session_entry(alloc, read_one(alloc, line)?),
        Place::Items(script) => {
            let items = placed_items(alloc, script.sessions.as_slice(), line)?;
            Ok(Entry::Items(items))
        }
    }
}

/// What the line is at the place. The error `Form` comes where it may not stand there.
pub fn entry(alloc: Global, place: &Place, line: &[u8]) -> Result<Entry, ParseError>
    requires { session_count place.now ≤ MAX_SESSIONS }
    ensures gives { Gives (λ e. e) result (entry_at place.now line.now) }
    ensures sound { IfOk result (λ e. is_within place.now e ≡ true → IsSound e) }
{
    entry_at(alloc, place, line)
}

fn is_declared(sessions: &[SessionScript], name: &[u8]) -> bool
    ensures { result ≡ is_declared sessions.now name.now }
{
    sessions
        .iter()
        .any(|session| has_bytes(&session.name, name))
}

fn is_new(place: &Place, name: &[u8]) -> bool
    ensures { result ≡ is_new place.now name.now }
{
    match place {
        Place::Session(script, current) => {
            !(is_declared(script.sessions.as_slice(), name) || has_bytes(&current.name, name))
        }
        _ => true,
    }
}

fn are_placed(items: &[Placed]) -> bool
    ensures { result ≡ list_all is_placed items.now }
{
    items.iter().all(|item| item.session.is_some())
}

/// Whether a session's name is new there, and the sessions of items are declared.
#[tactic(auto, unfolding(crate::specs::Places::is_known))]
pub fn is_known(place: &Place, entry: &Entry) -> bool
    ensures { result ≡ is_known place.now entry.now }
{
    match entry {
        Entry::Session(name) => is_new(place, name.as_bytes()),
        Entry::Items(items) => are_placed(items.as_slice()),
        _ => true,
    }
}

fn session_fits(place: &Place) -> bool
    ensures { result ≡ session_fits place.now }
{
    match place {
        Place::Headed(script) => script.sessions.as_slice().len() < MAX_SESSIONS,
        Place::Session(script, _) => script.sessions.as_slice().len() < MAX_SESSIONS - 1,
        _ => true,
    }
}

fn statement_fits(place: &Place, stated: &Stated) -> bool
    ensures { result ≡ statement_fits place.now stated.now }
{
    match place {
        Place::Session(_, current) => {
            stated_within(stated) && current.statements.as_slice().len() < MAX_STATEMENTS
        }
        _ => true,
    }
}

fn items_fit(place: &Place, count: usize) -> bool
    ensures { result ≡ items_fit place.now count }
{
    match place {
        Place::Items(script) => {
            let room = MAX_SCHEDULE_ITEMS.checked_sub(script.items.as_slice().len());
            match room {
                Some(room) => count <= room,
                None => false,
            }
        }
        _ => true,
    }
}

/// Whether the entry passes no limit there.
#[tactic(auto, unfolding(crate::specs::Places::is_within))]
pub fn is_within(place: &Place, entry: &Entry) -> bool
    ensures { result ≡ is_within place.now entry.now }
{
    match entry {
        Entry::Attempts(limit) => limit.is_some(),
        Entry::Session(_) => session_fits(place),
        Entry::Statement(stated) => statement_fits(place, stated),
        Entry::Items(items) => items_fit(place, items.as_slice().len()),
        _ => true,
    }
}

fn begun(alloc: Global, attempts: Option<u32>, header: Header) -> Script
    ensures { result ≡ begun attempts header }
{
    let attempts = match attempts {
        Some(limit) => limit,
        None => ATTEMPTS,
    };
    Script {
        attempts,
        header,
        sessions: Items::from_vec(Vec::new(alloc)),
        items: Items::from_vec(Vec::new(alloc)),
    }
}

fn named(alloc: Global, name: Text) -> SessionScript
    ensures { result ≡ named name }
{
    SessionScript {
        name,
        statements: Items::from_vec(Vec::new(alloc)),
    }
}

/// The script with a further session. The error is want of memory.
pub fn with_session(script: Script, session: SessionScript) -> Result<Script, ParseError>
    ensures ok { IfOk result (λ s. s ≡ with_session script session) }
    ensures err { IfErr result (λ e. e ≡ ParseError.NoMemory) }
{
    let mut sessions = script.sessions.into_vec();
    sessions.push(session)?;
    Ok(Script {
        attempts: script.attempts,
        header: script.header,
        sessions: Items::from_vec(sessions),
        items: script.items,
    })
}

fn with_statement(session: SessionScript, statement: Statement) -> Result<SessionScript, ParseError>
    ensures ok { IfOk result (λ s. s ≡ with_statement session statement) }
    ensures err { IfErr result (λ e. e ≡ ParseError.NoMemory) }
{
    let mut statements = session.statements.into_vec();
    statements.push(statement)?;
    Ok(SessionScript {
        name: session.name,
        statements: Items::from_vec(statements),
    })
}

fn push_known(all: &mut Vec<Item>, item: &Placed) -> Result<(), ParseError>
    ensures ok { OnOk result (all.new.items ≡ all.old.items ++ known_item item.now) }
    ensures err { IfErr result (λ e. e ≡ ParseError.NoMemory) }
{
    match item.session {
        Some(actor) => all.push(Item {
            actor,
            form: item.form,
        })?,
        None => {}
    }
    Ok(())
}

fn all_known(all: Vec<Item>, items: &[Placed]) -> Result<Vec<Item>, ParseError>
    ensures ok { IfOk result (λ v. v.items ≡ all.items ++ flat_map known_item items.now) }
    ensures err { IfErr result (λ e. e ≡ ParseError.NoMemory) }
{
    let mut all = all;
    for item in items {
        push_known(&mut all, item)?;
    }
    Ok(all)
}

fn with_items(script: Script, items: &[Placed]) -> Result<Script, ParseError>
    ensures ok { IfOk result (λ s. s ≡ with_items script items.now) }
    ensures err { IfErr result (λ e. e ≡ ParseError.NoMemory) }
{
    Ok(Script {
        attempts: script.attempts,
        header: script.header,
        sessions: script.sessions,
        items: Items::from_vec(all_known(script.items.into_vec(), items)?),
    })
}

fn after_start(alloc: Global, attempts: Option<u32>, entry: Entry) -> Place
    ensures { result ≡ after_start attempts entry }
{
    match entry {
        Entry::Attempts(limit) => Place::Start(limit),
        Entry::Header(header) => Place::Headed(begun(alloc, attempts, header)),
        _ => Place::Start(attempts),
    }
}

fn after_header(alloc: Global, script: Script, entry: Entry) -> Place
    ensures { result ≡ after_header script entry }
{
    match entry {
        Entry::Session(name) => Place::Session(script, named(alloc, name)),
        Entry::Schedule => Place::Items(script),
        _ => Place::Headed(script),
    }
}

fn after_session(
    alloc: Global,
    script: Script,
    current: SessionScript,
    entry: Entry,
) -> Result<Place, ParseError>
    requires { IsSound entry }
    ensures ok { IfOk result (λ p. p ≡ after_session script current entry) }
    ensures err { IfErr result (λ e. e ≡ ParseError.NoMemory) }
{
    match entry {
        Entry::Session(name) => Ok(Place::Session(
            with_session(script, current)?,
            named(alloc, name),
        )),
        Entry::Statement(stated) => Ok(Place::Session(
            script,
            with_statement(current, statement_of(stated))?,
        )),
        Entry::Schedule => Ok(Place::Items(with_session(script, current)?)),
        _ => Ok(Place::Session(script, current)),
    }
}

fn after_schedule(script: Script, entry: Entry) -> Result<Place, ParseError>
    ensures ok { IfOk result (λ p. p ≡ after_schedule script entry) }
    ensures err { IfErr result (λ e. e ≡ ParseError.NoMemory) }
{
    match entry {
        Entry::Items(items) => Ok(Place::Items(with_items(script, items.as_slice())?)),
        _ => Ok(Place::Items(script)),
    }
}

/// The place behind the entry. The error is want of memory.
#[tactic(auto, unfolding(crate::specs::Places::after))]
pub fn after(alloc: Global, place: Place, entry: Entry) -> Result<Place, ParseError>
    requires { IsSound entry }
    ensures ok { IfOk result (λ p. p ≡ after place entry) }
    ensures err { IfErr result (λ e. e ≡ ParseError.NoMemory) }
{
    match place {
        Place::Start(attempts) => Ok(after_start(alloc, attempts, entry)),
        Place::Headed(script) => Ok(after_header(alloc, script, entry)),
        Place::Session(script, current) => after_session(alloc, script, current, entry),
        Place::Items(script) => after_schedule(script, entry),
    }
}
