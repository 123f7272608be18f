//! What the actions of a commit have said that may be said once.
ghost use Rattle.std.specs.Prelude.{◌≡◌, ◌||◌, [], not, List, ℕ, IfOk, OnOk};
ghost use Rattle.std.specs.Str.{bytes_eq};
ghost use Rattle.log_actions.specs.Named.{Holds, Notes, has, is_named};

use crate::action::Action;
use row_base::{NoMemory, Text};
use std::alloc::Global;
use std::collections::BTreeSet;
use std::mem;

/// Whether a protocol and a metadata were there, and of which applications and on which paths actions were.
#[derive(Drop)]
pub(crate) struct Named {
    protocol: bool,
    metadata: bool,
    applications: BTreeSet<Text>,
    paths: BTreeSet<Text>,
}

/// Nothing was said.
pub(crate) fn nothing_named(alloc: Global) -> Named
    ensures { Holds result [] }
{
    Named {
        protocol: false,
        metadata: false,
        applications: BTreeSet::new(alloc),
        paths: BTreeSet::new(alloc),
    }
}

/// Puts a text into a set, and says whether it was new.
fn put_name(names: &mut BTreeSet<Text>, name: Text) -> Result<bool, NoMemory>
    ensures new { IfOk result (λ new. new ≡ not (has names.old.keys name)) }
    ensures has { OnOk result ((q : List ℕ) → has names.new.keys q ≡ (bytes_eq name q || has names.old.keys q)) }
{
    Ok(names.insert(name)?)
}

/// Notes an action, and says whether it is the first to say what may be said once.
#[tactic(auto, unfolding(crate::specs::Named::is_named))]
pub(crate) fn note_action(named: &mut Named, action: &Action) -> Result<bool, NoMemory>
    ensures new { IfOk result (λ new. new ≡ not (is_named named.old action.now)) }
    ensures notes { OnOk result (Notes named.old action.now named.new) }
{
    match action {
        Action::Protocol(_) => Ok(!mem::replace(&mut named.protocol, true)),
        Action::Meta(_) => Ok(!mem::replace(&mut named.metadata, true)),
        Action::Add(add) => put_name(&mut named.paths, add.path.copy()?),
        Action::Remove(remove) => put_name(&mut named.paths, remove.path.copy()?),
        Action::Txn(txn) => put_name(&mut named.applications, txn.app_id.copy()?),
        Action::Info(_) | Action::Checkpoint(_) | Action::Sidecar(_) | Action::Ignored => Ok(true),
    }
}
