//! What a statement commits.
ghost use Rattle.std.specs.Prelude.{◌≡◌, ◌<◌, ◌≤◌, ◌-◌, ◌^◌, ◌++◌, ◌∷◌, [], map, IfSome, IfOk, OnOk, OnErr, MatchResult};
ghost use Rattle.log_actions.specs.declared.action.Action.TheVariants as actions;
ghost use Rattle.log_state.specs.Stamps.{stamp_in, stamp_after};
ghost use Rattle.commit_plans.specs.Plans as spec;
ghost use Rattle.commit_plans.specs.Texts.{Writes, HasNoText};

use crate::made::{made_metadata, made_protocol};
use crate::stamp::{LastStamp, Stamp, next_stamp};
use crate::text::{TextFault, text_of};
use edge_api::Body;
use json_lines::{TextMap, TryCopy};
use log_actions::{Action, AddFile, CommitInfo, MetaData, Protocol, Txn};
use log_state::{State, stamp_after, stamp_in};
use row_base::{Items, NoMemory, Text};
use std::alloc::Global;
use table_rules::Level;

/// What a statement does, as its commit names it.
#[derive(Clone, Copy, Debug, Drop, PartialEq, Eq)]
pub enum Operation {
    CreateTable,
    Write,
}

/// What a commit is made of but for the clock.
#[derive(Debug, Drop)]
pub struct CommitPlan {
    /// The version that the statement read, none where it makes the table.
    pub read: Option<u64>,
    /// The stamp of the version before the attempt.
    pub last: Option<Stamp>,
    pub operation: Operation,
    /// The isolation level of the table at the version that was read, or of the table that is made.
    pub level: Level,
    /// Whether rows were added without a look at the table's.
    pub blind: bool,
    /// The statement's identifier.
    pub id: Text,
    /// All other actions, in their order.
    pub changes: Items<Action>,
}

#[tactic(auto, unfolding(crate::specs::Plans::operation_text))]
fn operation_text(operation: Operation) -> &'static str
    ensures { result.now ≡ spec.operation_text operation }
{
    match operation {
        Operation::CreateTable => "CREATE TABLE",
        Operation::Write => "WRITE",
    }
}

#[tactic(auto, unfolding(crate::specs::Plans::level_text))]
fn level_text(level: Level) -> &'static str
    ensures { result.now ≡ spec.level_text level }
{
    match level {
        Level::Serializable => "Serializable",
        Level::WriteSerializable => "WriteSerializable",
    }
}

/// Appends copies of these actions.
fn append_copies(alloc: Global, actions: &[Action], out: &mut Vec<Action>) -> Result<(), NoMemory>
    ensures { OnOk result (out.new.items ≡ out.old.items ++ actions.now) }
{
    for action in actions {
        out.push(action.try_copy(alloc)?)?;
    }
    Ok(())
}

/// The time of a stamp.
fn time_of(stamp: Option<Stamp>) -> Option<u64>
    ensures value { result ≡ stamp }
    ensures small { IfSome result (λ s. s < 2 ^ 64 - 1) }
{
    match stamp {
        Some(stamp) => Some(stamp.time()),
        None => None,
    }
}

impl CommitPlan {
    /// What the commit says about itself at an attempt with this reading of the clock.
    fn info_at(&self, alloc: Global, now: u64) -> Result<CommitInfo, NoMemory>
        ensures { IfOk result (λ i. i ≡ spec.info_at self.now now) }
    {
        let operation = Text::make(alloc, operation_text(self.operation))?;
        let level = Text::make(alloc, level_text(self.level))?;
        let id = self.id.copy()?;
        Ok(CommitInfo {
            timestamp: Some(next_stamp(self.last, now)),
            operation: Some(operation),
            read_version: self.read,
            isolation_level: Some(level),
            is_blind_append: Some(self.blind),
            txn_id: Some(id),
        })
    }

    /// The actions of the attempt with this reading of the clock, in milliseconds since 1970. The error is want of
    /// memory.
    pub fn actions_at(&self, alloc: Global, now: u64) -> Result<Vec<Action>, NoMemory>
        ensures { IfOk result (λ v. v.items ≡ spec.actions_at self.now now) }
    {
        let mut actions = Vec::new(alloc);
        actions.push(Action::Info(self.info_at(alloc, now)?))?;
        append_copies(alloc, self.changes.as_slice(), &mut actions)?;
        Ok(actions)
    }

    /// The text of the attempt with this reading of the clock, in milliseconds since 1970.
    pub fn body_at(&self, alloc: Global, now: u64) -> Result<Body, TextFault>
        ensures { MatchResult result (λ text. Writes text (spec.actions_at self.now now))
            (λ f. HasNoText f (spec.actions_at self.now now)) }
    {
        match self.actions_at(alloc, now) {
            Ok(actions) => text_of(alloc, &actions),
            Err(_) => Err(TextFault::NoMemory),
        }
    }

    /// The plan for the next attempt, behind a commit with these actions that was there first. The error is a stamp of
    /// this commit that none of 64 bits follows, and then nothing has changed.
    pub fn follow(&mut self, winner: &[Action]) -> Result<(), LastStamp>
        ensures ok { OnOk result (self.new ≡ spec.behind self.old winner.now) }
        ensures err { OnErr result (self.new ≡ self.old) }
        ensures last { OnErr result (2 ^ 64 - 1 ≤ stamp_after self.old.last (stamp_in winner.now)) }
    {
        let stamp = stamp_after(time_of(self.last), stamp_in(winner));
        if stamp == u64::MAX {
            return Err(LastStamp);
        }
        self.last = Some(Stamp::new(stamp));
        Ok(())
    }
}

/// The making of a table: by its statement's identifier and start (in milliseconds since 1970), the table's level, the
/// text of its schema, the names of its partition columns and its properties in byte order. The error is want of memory.
pub fn table_plan(
    alloc: Global,
    id: Text,
    start: u64,
    level: Level,
    schema: Text,
    partition: Items<Text>,
    properties: TextMap,
) -> Result<CommitPlan, NoMemory>
    ensures { IfOk result (λ p. p ≡ spec.table_plan id start level schema partition properties) }
{
    let protocol = made_protocol(alloc)?;
    let meta = made_metadata(alloc, id.copy()?, start, schema, partition, properties)?;
    Ok(CommitPlan {
        read: None,
        last: None,
        operation: Operation::CreateTable,
        level,
        blind: false,
        id,
        changes: making(alloc, protocol, meta)?,
    })
}

/// The actions that make a table.
fn making(alloc: Global, protocol: Protocol, meta: MetaData) -> Result<Items<Action>, NoMemory>
    ensures { IfOk result (λ v. v ≡ actions.Protocol protocol ∷ actions.Meta meta ∷ []) }
{
    let mut changes = Vec::with_capacity(alloc, 2)?;
    changes.push(Action::Protocol(protocol))?;
    changes.push(Action::Meta(meta))?;
    Ok(Items::from_vec(changes))
}

/// Appends the actions that add these files, in order.
fn append_adds(files: Vec<AddFile>, out: &mut Vec<Action>) -> Result<(), NoMemory>
    ensures { OnOk result (out.new.items ≡ out.old.items ++ map actions.Add files.items) }
{
    for file in files {
        out.push(Action::Add(file))?;
    }
    Ok(())
}

/// The actions of an insert: the transaction of an application, where there is one, and the files.
fn inserting(
    alloc: Global,
    txn: Option<Txn>,
    files: Vec<AddFile>,
) -> Result<Items<Action>, NoMemory>
    ensures { IfOk result (λ v. v ≡ spec.txn_actions txn ++ map actions.Add files.items) }
{
    let mut changes = Vec::new(alloc);
    if let Some(txn) = txn {
        changes.push(Action::Txn(txn))?;
    }
    append_adds(files, &mut changes)?;
    Ok(Items::from_vec(changes))
}

/// The stamp of a table's version.
fn last_stamp(table: &State) -> Option<Stamp>
    ensures { result ≡ table.now.stamp }
{
    match table.stamp() {
        Some(stamp) => Some(Stamp::new(stamp)),
        None => None,
    }
}

/// An insert of literal rows over a table: by its statement's identifier, the level there, the transaction that the
/// statement names (PROTOCOL.md, "Transaction Identifiers") and its data files in order. The error is want of memory.
pub fn insert_plan(
    alloc: Global,
    table: &State,
    id: Text,
    level: Level,
    txn: Option<Txn>,
    files: Vec<AddFile>,
) -> Result<CommitPlan, NoMemory>
    ensures { IfOk result (λ p. p ≡ spec.insert_plan table.now id level txn files.items) }
{
    Ok(CommitPlan {
        read: table.version(),
        last: last_stamp(table),
        operation: Operation::Write,
        level,
        blind: true,
        id,
        changes: inserting(alloc, txn, files)?,
    })
}
