//! The table at a version.
ghost use Rattle.std.specs.Prelude.{◌≡◌, ◌<◌, ◌≤◌, ◌-◌, ◌^◌, ◌++◌, ◌∷◌, [], List, map, Some, IfSome, option_map, option_copied, OnOk, OnErr, IfOk};
ghost use Rattle.log_actions.specs.declared.action.Action.{Action as ActionValue};
ghost use Rattle.log_state.specs.Listed.{AreLive, AreTombstones, AreTxns};
ghost use Rattle.log_state.specs.Table.{applied, IsTableOf, IsApplied, Reconciles, next_version, txn_of};

use crate::kept::{Kept, keep_all, nothing_kept};
use crate::listed::listed;
use crate::stamp::{stamp_after, stamp_in};
use log_actions::{Action, AddFile, MetaData, Protocol, RemoveFile, Txn};
use row_base::{NoMemory, Text};
use std::alloc::Global;
use std::marker::Model;

/// The table that the commits of versions 0 to some version leave: of the actions on one thing the newest counts, by
/// version and in a commit by line (PROTOCOL.md, "Action Reconciliation").
#[derive(Drop)]
pub struct State {
    alloc: Global,
    version: Option<u64>,
    stamp: Option<u64>,
    kept: Kept,
}

impl Model for State {
    ghost use Rattle.log_state.specs.Kept.{table_at, IsState};
    ghost use Rattle.log_state.specs.Table.{Table};

    ghost Value = { Table };

    ghost view = { λ s. table_at s.version s.stamp s.kept };

    ghost invariant = { λ s. IsState s.version s.stamp s.kept };
}

/// The version of an application that its transaction names.
fn version_of(txn: &Txn) -> u64
    ensures { result ≡ txn.now.version }
{
    txn.version
}

impl State {
    /// The table before version 0.
    #[tactic(auto, unfolding(crate::specs::Newest::newest), using(crate::proofs::Owns::state_of_none))]
    pub fn new(alloc: Global) -> State
        ensures { IsTableOf [] result }
    {
        State {
            alloc,
            version: None,
            stamp: None,
            kept: nothing_kept(alloc),
        }
    }

    /// The table of a version with this stamp, in milliseconds since 1970, by actions of which a later one on the same
    /// thing counts. The error is want of memory.
    pub fn of_parts(
        alloc: Global,
        version: u64,
        stamp: u64,
        actions: Vec<Action>,
    ) -> Result<State, NoMemory>
        requires { stamp ≤ 2 ^ 63 - 2 ^ 21 }
        ensures version { IfOk result (λ t. t.version ≡ Some version) }
        ensures stamp { IfOk result (λ t. t.stamp ≡ Some stamp) }
        ensures reconciled { IfOk result (Reconciles actions.items) }
    {
        let mut kept = nothing_kept(alloc);
        keep_all(&mut kept, alloc, actions)?;
        Ok(State {
            alloc,
            version: Some(version),
            stamp: Some(stamp),
            kept,
        })
    }

    /// Applies the actions of the next version's commit. The error is want of memory, and then nothing has changed.
    #[tactic(auto, using(crate::proofs::Tables::below_the_end))]
    pub fn apply(&mut self, version: u64, actions: Vec<Action>) -> Result<(), NoMemory>
        requires next { version ≡ next_version self.old.version }
        requires few { version < 2 ^ 21 }
        ensures table { OnOk result (self.new ≡ applied self.old version actions.items) }
        ensures each { OnOk result (IsApplied self.old version actions.items self.new) }
        ensures reconciled { OnOk result ((commits : List (List ActionValue)) → IsTableOf commits self.old
            → IsTableOf (commits ++ actions.items ∷ []) self.new) }
        ensures err { OnErr result (self.new ≡ self.old) }
    {
        let stamp = stamp_after(self.stamp, stamp_in(actions.as_slice()));
        keep_all(&mut self.kept, self.alloc, actions)?;
        self.version = Some(version);
        self.stamp = Some(stamp);
        Ok(())
    }

    /// The version, or none before version 0.
    pub fn version(&self) -> Option<u64>
        ensures { result ≡ self.now.version }
    {
        self.version
    }

    /// The stamp of the version, in milliseconds since 1970.
    #[tactic(auto, using(crate::proofs::Tables::at_most))]
    pub fn stamp(&self) -> Option<u64>
        ensures value { result ≡ self.now.stamp }
        ensures small { IfSome result (λ s. s ≤ 2 ^ 63) }
    {
        self.stamp
    }

    /// The newest protocol.
    pub fn protocol(&self) -> Option<&Protocol>
        ensures { option_copied result ≡ self.now.protocol }
    {
        self.kept.protocol.as_ref()
    }

    /// The newest metadata.
    pub fn meta(&self) -> Option<&MetaData>
        ensures { option_copied result ≡ self.now.meta }
    {
        self.kept.meta.as_ref()
    }

    /// The newest version that an application has committed.
    pub fn txn(&self, app: &Text) -> Option<u64>
        ensures { result ≡ option_map (λ t. t.version) (txn_of self.now app.now) }
    {
        self.kept.txns.get(app).map(version_of)
    }
    /// The newest transaction of each application, in byte order of the applications. The error is want of memory.
    #[tactic(auto, using(crate::proofs::Owns::own_txns))]
    pub fn txns(&self) -> Result<Vec<&Txn>, NoMemory>
        ensures { IfOk result (λ txns. AreTxns self.now (map (λ t. t.now) txns.items)) }
    {
        listed(self.alloc, &self.kept.txns)
    }

    /// The live files, in byte order of path. The error is want of memory.
    #[tactic(auto, using(crate::proofs::Owns::own_adds))]
    pub fn files(&self) -> Result<Vec<&AddFile>, NoMemory>
        ensures { IfOk result (λ files. AreLive self.now (map (λ f. f.now) files.items)) }
    {
        listed(self.alloc, &self.kept.actions)
    }

    /// The files that are removed, in byte order of path. The error is want of memory.
    #[tactic(auto, using(crate::proofs::Owns::own_removes))]
    pub fn tombstones(&self) -> Result<Vec<&RemoveFile>, NoMemory>
        ensures { IfOk result (λ files. AreTombstones self.now (map (λ f. f.now) files.items)) }
    {
        listed(self.alloc, &self.kept.actions)
    }

    /// An equal table. Texts share their bytes. The error is want of memory.
    pub fn copy(&self) -> Result<State, NoMemory>
        ensures { IfOk result (λ t. t ≡ self.now) }
    {
        Ok(State {
            alloc: self.alloc,
            version: self.version,
            stamp: self.stamp,
            kept: self.kept.copy(self.alloc)?,
        })
    }
}
