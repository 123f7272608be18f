//! The load of a table, one call of the store after another.
ghost use Rattle.std.specs.Prelude.{◌≡◌, ◌≤◌, ◌⊎◌, Ok, Err, Some, None, IfOk, MatchResult};
ghost use Rattle.row_base.specs.declared.limits.TheConstants.{VERSION_LIMIT};
ghost use Rattle.call_phases.specs.Phases.{Entries};
ghost use Rattle.call_phases.specs.Ending.{Ending};
ghost use Rattle.call_phases.specs.Endings.{HasFailed};
ghost use Rattle.snapshot_load.specs.declared.fault.LoadFailed.{LoadFailed as AFailed};
ghost use Rattle.snapshot_load.specs.declared.fault.LoadFault.TheVariants as faults;
ghost use Rattle.snapshot_load.specs.declared.loaded.Loaded.{Loaded as ALoaded};
ghost use Rattle.snapshot_load.specs.Commits.{base_of};
ghost use Rattle.snapshot_load.specs.Loads.{if_supported, version_asked, fault_of_gap, fault_of_listing, LoadsAll};
ghost use Rattle.snapshot_load.specs.Machine.{IsReady, left_of, RestOf, base_by, LoadsBase};

use crate::commits::{Base, Commits, first_needed};
use crate::listing::{has_checkpoint, missing_version};
use crate::{Asked, LoadFailed, LoadFault, Loaded, Supported, newest_version};
use call_phases::{Gets, Phase};
use edge_api::{Call, Fed, Listed, Listing};
use log_actions::Feature;
use log_state::State;
use std::alloc::Global;
use table_rules::commit_name;

/// A load of a table: its commits are got in order of version, from the kept table or from version 0 on.
#[derive(Drop)]
pub struct Load {
    listing: Listing,
    kept: Option<State>,
    gets: Gets<Commits>,
}

/// A version that there is, if it is supported.
fn if_supported(version: Option<u64>) -> Result<Supported, LoadFault>
    ensures { MatchResult result (λ v. if_supported version ≡ Ok v.version) (λ f. if_supported version ≡ Err f) }
{
    let Some(version) = version else {
        return Err(LoadFault::NoTable);
    };
    match Supported::make(version) {
        Some(version) => Ok(version),
        None => Err(LoadFault::Unsupported {
            feature: Feature::Versions,
        }),
    }
}

/// The version that is loaded.
fn version_asked(listing: &[Listed], asked: Asked) -> Result<Supported, LoadFault>
    ensures { MatchResult result (λ v. version_asked asked listing.now ≡ Ok v.version) (λ f. version_asked asked listing.now ≡ Err f) }
{
    match asked {
        Asked::Newest => if_supported(newest_version(listing)),
    }
}

/// A commit that is needed for a version isn't listed.
fn fault_of_gap(alloc: Global, listing: &[Listed], version: u64, gap: u64) -> LoadFault
    ensures { (result ≡ fault_of_gap listing.now version gap) ⊎ (result ≡ faults.NoMemory) }
{
    if has_checkpoint(listing, version) {
        return LoadFault::Unsupported {
            feature: Feature::CheckpointForm,
        };
    }
    match commit_name(alloc, gap) {
        Ok(name) => LoadFault::LogGone { name },
        Err(_) => LoadFault::NoMemory,
    }
}

/// The commits that are needed for a version have to be listed.
fn check_listing(
    alloc: Global,
    listing: &[Listed],
    kept: &Option<State>,
    last: Supported,
) -> Result<(), LoadFault>
    ensures { MatchResult result (λ u. fault_of_listing listing.now last.version (base_of kept.now last.version).commits ≡ None)
        (λ f. (fault_of_listing listing.now last.version (base_of kept.now last.version).commits ≡ Some f) ⊎ (f ≡ faults.NoMemory)) }
{
    let first = first_needed(kept, last);
    let count = last.version + 1 - first;
    match missing_version(alloc, listing, first, count as usize) {
        Ok(None) => Ok(()),
        Ok(Some(gap)) => Err(fault_of_gap(alloc, listing, last.version, gap)),
        Err(_) => Err(LoadFault::NoMemory),
    }
}

impl Load {
    /// The commits are got from a base on.
    fn begin(listing: Listing, base: Base) -> Load
        ensures ready { IsReady result }
        ensures most { left_of result ≤ VERSION_LIMIT }
        ensures begins { (es : Entries) (o : Ending AFailed ALoaded) → RestOf result es o → LoadsBase listing (base_by base) es o }
    {
        let Base { commits, spare } = base;
        Load {
            listing,
            kept: spare,
            gets: Gets::new(commits),
        }
    }

    /// The load of a version of a table, by a listing of its log and the table that is kept, if there is one. The load
    /// begins with that, unless it is of a later version. A version of 2^20 or more isn't supported.
    ///
    /// Whatever entries the load has and however it ends, also where it fails at once, they are those of a load.
    pub fn new(
        alloc: Global,
        listing: Listing,
        asked: Asked,
        kept: Option<State>,
    ) -> Result<Load, LoadFailed>
        ensures ready { IfOk result IsReady }
        ensures most { IfOk result (λ load. left_of load ≤ VERSION_LIMIT) }
        ensures begins { MatchResult result
            (λ load. (es : Entries) (o : Ending AFailed ALoaded) → RestOf load es o → LoadsAll asked listing kept es o)
            (λ f. (es : Entries) (o : Ending AFailed ALoaded) → HasFailed o f es → LoadsAll asked listing kept es o) }
    {
        let last = match version_asked(listing.as_slice(), asked) {
            Ok(last) => last,
            Err(fault) => return Err(LoadFailed { fault, kept }),
        };
        match check_listing(alloc, listing.as_slice(), &kept, last) {
            Ok(()) => Ok(Load::begin(listing, Base::make(alloc, kept, last))),
            Err(fault) => Err(LoadFailed { fault, kept }),
        }
    }
}

impl Phase for Load {
    type Done = Loaded;

    type Fault = LoadFailed;

    ghost use Rattle.snapshot_load.specs.Machine.{IsReady, call_of, left_of, RestOf};

    ghost ready = { IsReady };

    ghost call = { call_of };

    ghost left = { left_of };

    ghost rest = { RestOf };

    fn next(&mut self) -> Option<Call> {
        self.gets.next()
    }

    fn feed(&mut self, input: Fed) {
        self.gets.feed(input);
    }

    fn finish(self) -> Result<Loaded, LoadFailed> {
        let Load {
            listing,
            kept,
            gets,
        } = self;
        match gets.finish() {
            Ok(commits) => Ok(Loaded {
                state: commits.table,
                kept,
                listing,
            }),
            Err(fault) => Err(LoadFailed {
                fault: LoadFault::of_gets(fault),
                kept,
            }),
        }
    }
}
