//! The scan as a phase.
ghost use Rattle.std.specs.Prelude.{◌≡◌, ◌≤◌, length, true, IfOk, MatchResult};
ghost use Rattle.call_phases.specs.Phases.{Entries};
ghost use Rattle.call_phases.specs.Ending.{Ending};
ghost use Rattle.call_phases.specs.Endings.{HasFailed};
ghost use Rattle.predicates.specs.Truths.{is_bound};
ghost use Rattle.scan.specs.declared.fault.ScanFault.{ScanFault as AFault};
ghost use Rattle.scan.specs.declared.scan.Scanned.{Scanned as AScanned};
ghost use Rattle.scan.specs.Reader.{files_of};
ghost use Rattle.scan.specs.Scans.{ScansFiles, ScansAll};
ghost use Rattle.scan.specs.Machine.{IsReady, left_of, RestOf};

use crate::ScanFault;
use crate::fault::of_get;
use crate::reader::FilesToGet;
use crate::wanted::wanted_files;
use call_phases::{Gets, Phase};
use edge_api::{Call, Fed};
use log_state::State;
use predicates::Pred;
use row_base::{Items, ScannedFile, Schema};
use std::alloc::Global;

/// What was scanned.
#[derive(Drop)]
pub struct Scanned {
    /// The files that were got, in byte order of path, with their rows.
    pub files: Items<ScannedFile>,
    /// How many live files the table has.
    pub live: u64,
}

/// A scan of a table's live files.
#[derive(Drop)]
pub struct Scan {
    gets: Gets<FilesToGet>,
    live: u64,
}

impl Scan {
    /// The files that are wanted are got, of so many live ones.
    fn begin(reader: FilesToGet, live: u64) -> Scan
        ensures ready { IsReady result }
        ensures most { left_of result ≤ length reader.wanted }
        ensures live { result.live ≡ live }
        ensures begins { (es : Entries) (o : Ending AFault AScanned) → RestOf result es o → ScansFiles live (files_of reader) es o }
    {
        Scan {
            gets: Gets::new(reader),
            live,
        }
    }

    /// A scan of the live files of a table that may have a row for which the predicate is `Yes`. The columns of the
    /// predicate are places of the schema. Before any file is got, the values of the partition columns of all live files
    /// are read, and the first file with a value that has no reading is the fault.
    ///
    /// Whatever entries the scan has and however it ends, also where it fails at once, they are those of a scan.
    pub fn new(
        alloc: Global,
        state: &State,
        schema: &Schema,
        pred: &Pred<u32>,
    ) -> Result<Scan, ScanFault>
        requires { is_bound (length schema.now.columns) pred.now ≡ true }
        ensures ready { IfOk result IsReady }
        ensures most { IfOk result (λ scan. left_of scan ≤ scan.live) }
        ensures begins { MatchResult result
            (λ scan. (es : Entries) (o : Ending AFault AScanned) → RestOf scan es o → ScansAll schema.now pred.now state.now es o)
            (λ f. (es : Entries) (o : Ending AFault AScanned) → HasFailed o f es → ScansAll schema.now pred.now state.now es o) }
    {
        let files = state.files()?;
        let wanted = wanted_files(alloc, schema, pred, &files)?;
        let reader = FilesToGet {
            alloc,
            schema: schema.copy(alloc)?,
            wanted,
            got: Items::from_vec(Vec::new(alloc)),
        };
        Ok(Scan::begin(reader, files.len() as u64))
    }
}

impl Phase for Scan {
    type Done = Scanned;

    type Fault = ScanFault;

    ghost use Rattle.scan.specs.Machine.{IsReady, call_of, left_of, RestOf};

    ghost ready = { IsReady };

    ghost call = { call_of };

    ghost left = { left_of };

    ghost rest = { RestOf };

    fn next(&mut self) -> Option<Call> {
        self.gets.next()
    }

    fn feed(&mut self, input: Fed) {
        self.gets.feed(input);
    }

    fn finish(self) -> Result<Scanned, ScanFault> {
        let Scan { gets, live } = self;
        match gets.finish() {
            Ok(reader) => Ok(Scanned {
                files: reader.got,
                live,
            }),
            Err(fault) => Err(of_get(fault)),
        }
    }
}
