//! What a table keeps of its log's actions: the newest on each thing.
ghost use Rattle.std.specs.Prelude.{◌≡◌, ◌<◌, ◌≤◌, ◌+◌, ◌++◌, ◌∷◌, [], length, map, List, ℕ, Some, None, if◌then◌else◌, OnOk, OnErr, IfOk};
ghost use Rattle.std.specs.Str.{bytes_eq};
ghost use Rattle.indexmap.specs.IndexMap.{insert_entry, spare};
ghost use Rattle.log_state.specs.Newest.{newer, newest, protocol_in, metadata_in, txn_on, action_on};
ghost use Rattle.log_state.specs.Keys.{with_key};
ghost use Rattle.log_state.specs.Table.{found};
ghost use Rattle.log_state.specs.Kept.{Keeps, HasRoom, IsSame};

use crate::keyed::{Keyed, with_keys};
use indexmap::IndexMap;
use json_lines::TryCopy;
use log_actions::{Action, MetaData, Protocol, Txn};
use row_base::{NoMemory, Text};
use std::alloc::Global;

/// The newest protocol and metadata, the newest transaction of each application, and the newest action on each path.
#[derive(Drop)]
pub struct Kept {
    pub protocol: Option<Protocol>,
    pub meta: Option<MetaData>,
    pub txns: IndexMap<Text, Txn>,
    pub actions: IndexMap<Text, Action>,
}

/// Puts a value under a name in place of the one that was there. There has to be room for one more.
fn put<V: Drop>(map: &mut IndexMap<Text, V>, name: Text, value: V)
    requires { 0 < spare map.old }
    ensures entries { map.new.entries ≡ insert_entry bytes_eq map.old.entries name value }
    ensures found { (q : List ℕ) → found map.new.entries q ≡ (if bytes_eq name q then Some value else found map.old.entries q) }
    ensures room { spare map.old ≤ spare map.new + 1 }
{
    match map.insert(name, value) {
        Ok(old) => drop(old),
        Err(refused) => drop(refused),
    }
}

/// Keeps the newer of two values.
fn renew<V: Drop>(kept: &mut Option<V>, newer: V)
    ensures { kept.new ≡ Some newer }
{
    *kept = Some(newer);
}

/// Keeps an action in place of the one on the same thing.
#[tactic(auto, unfolding(crate::specs::Newest::newest), using(crate::proofs::Newer::by_test))]
fn keep(kept: &mut Kept, keyed: Keyed)
    requires key { keyed ≡ with_key keyed.action }
    requires room { HasRoom 1 kept.old }
    ensures keeps { Keeps kept.old (keyed.action ∷ []) kept.new }
    ensures room { (n : ℕ) → HasRoom (n + 1) kept.old → HasRoom n kept.new }
{
    let Keyed { key, action } = keyed;
    match action {
        Action::Protocol(protocol) => renew(&mut kept.protocol, protocol),
        Action::Meta(meta) => renew(&mut kept.meta, meta),
        Action::Txn(txn) => {
            if let Some(app) = key {
                put(&mut kept.txns, app, txn);
            }
        }
        Action::Add(add) => {
            if let Some(path) = key {
                put(&mut kept.actions, path, Action::Add(add));
            }
        }
        Action::Remove(remove) => {
            if let Some(path) = key {
                put(&mut kept.actions, path, Action::Remove(remove));
            }
        }
        Action::Info(_) | Action::Checkpoint(_) | Action::Sidecar(_) | Action::Ignored => {}
    }
}

/// Makes room for so many more actions. What is kept stays as it is, also where there is no memory.
fn make_room(kept: &mut Kept, additional: usize) -> Result<(), NoMemory>
    ensures room { OnOk result (HasRoom additional kept.new) }
    ensures same { IsSame kept.old kept.new }
{
    kept.txns.reserve(additional)?;
    kept.actions.reserve(additional)?;
    Ok(())
}

/// Keeps actions in order. The error is want of memory, and then nothing has changed.
#[tactic(auto, using(crate::proofs::Steps::first_keyed, crate::proofs::Steps::room_for_one))]
pub(crate) fn keep_all(kept: &mut Kept, alloc: Global, actions: Vec<Action>) -> Result<(), NoMemory>
    ensures ok { OnOk result (Keeps kept.old actions.items kept.new) }
    ensures err { OnErr result (IsSame kept.old kept.new) }
{
    let lines = with_keys(alloc, actions)?;
    make_room(kept, lines.len())?;
    for keyed in lines {
        keep(kept, keyed);
    }
    Ok(())
}

/// Nothing is kept.
pub(crate) fn nothing_kept(alloc: Global) -> Kept
    ensures protocol { result.protocol ≡ None }
    ensures meta { result.meta ≡ None }
    ensures txns { result.txns.entries ≡ [] }
    ensures actions { result.actions.entries ≡ [] }
{
    Kept {
        protocol: None,
        meta: None,
        txns: IndexMap::new(alloc),
        actions: IndexMap::new(alloc),
    }
}

/// Puts a value last, under a name that isn't there. The error is want of memory.
fn put_last<V: Drop>(map: &mut IndexMap<Text, V>, name: Text, value: V) -> Result<(), NoMemory>
    requires { found map.old.entries name ≡ None }
    ensures { OnOk result (map.new.entries ≡ map.old.entries ++ (name, value) ∷ []) }
{
    match map.insert(name, value) {
        Ok(old) => {
            drop(old);
            Ok(())
        }
        Err(refused) => {
            drop(refused);
            Err(NoMemory)
        }
    }
}

/// An equal map.
#[tactic(auto, using(crate::proofs::Steps::fresh))]
fn copied<V: TryCopy>(alloc: Global, map: &IndexMap<Text, V>) -> Result<IndexMap<Text, V>, NoMemory>
    ensures { IfOk result (λ m. m.entries ≡ map.now.entries) }
{
    let mut copy = IndexMap::with_capacity(alloc, map.len())?;
    for entry in map.iter() {
        put_last(&mut copy, entry.0.copy()?, entry.1.try_copy(alloc)?)?;
    }
    Ok(copy)
}

impl Kept {
    /// The same is kept. Texts share their bytes. The error is want of memory.
    pub(crate) fn copy(&self, alloc: Global) -> Result<Kept, NoMemory>
        ensures { IfOk result (IsSame self.now) }
    {
        Ok(Kept {
            protocol: self.protocol.try_copy(alloc)?,
            meta: self.meta.try_copy(alloc)?,
            txns: copied(alloc, &self.txns)?,
            actions: copied(alloc, &self.actions)?,
        })
    }
}
