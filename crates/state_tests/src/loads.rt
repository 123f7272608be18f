//! Loads of a table over a store in memory.
ghost use Rattle.edge_api.specs.Actor.{IsFit};
ghost use Rattle.snapshot_load.specs.Machine.{IsReady};

use crate::states::{Wanted, is_wanted};
use call_phases::Phase;
use edge_api::{Answer, Body, Call, Fed, Listing, MemWorld, Name, Tag, World};
use log_actions::Feature;
use log_state::State;
use row_base::NoMemory;
use snapshot_load::{Asked, Load, LoadFailed, LoadFault, Loaded};
use std::alloc::Global;
use table_rules::{LogName, commit_name, log_prefix, read_log_name};

const TAG: Tag = Tag {
    actor: 1,
    statement: 1,
};

/// An object of a store.
struct Object {
    name: &'static str,
    text: &'static str,
}

/// Lines in another order than this engine writes, with foreign members, a foreign action and blank lines.
const FIRST: Object = Object {
    name: "_delta_log/00000000000000000000.json",
    text: r#"{"add":{"path":"b","partitionValues":{},"size":1,"modificationTime":1,"dataChange":true,"foreign":{"x":[1]}}}

{"foreignAction":{"a":1}}
{"metaData":{"id":"i","format":{"provider":"parquet"},"schemaString":"{}","partitionColumns":[],"foreign":null}}
{"protocol":{"minReaderVersion":1,"minWriterVersion":2,"foreign":"y"}}
{"commitInfo":{"timestamp":5,"engineInfo":"another"}}

"#,
};

/// The last line has no end.
const SECOND: Object = Object {
    name: "_delta_log/00000000000000000001.json",
    text: r#"{"remove":{"path":"b","dataChange":true}}
{"commitInfo":{"timestamp":9}}
{"txn":{"appId":"z","version":2}}
{"add":{"path":"a","partitionValues":{},"size":2,"modificationTime":2,"dataChange":true}}"#,
};

/// Its stamp is one more than the one before.
const THIRD: Object = Object {
    name: "_delta_log/00000000000000000002.json",
    text: r#"{"add":{"path":"c","partitionValues":{},"size":3,"modificationTime":3,"dataChange":true}}
"#,
};

const FOURTH: Object = Object {
    name: "_delta_log/00000000000000000003.json",
    text: "",
};

/// What isn't a commit's: a checkpoint, and names that only resemble one.
const CHECKPOINT: Object = Object {
    name: "_delta_log/00000000000000000001.checkpoint.x.json",
    text: "",
};

const OTHER: Object = Object {
    name: "_delta_log/00000000000000000009.json.tmp",
    text: "",
};

const DAMAGED: Object = Object {
    name: "_delta_log/00000000000000000001.json",
    text: "{}\n",
};

const ABSOLUTE: Object = Object {
    name: "_delta_log/00000000000000000001.json",
    text: "\n{\"remove\":{\"path\":\"/b\",\"dataChange\":true}}\n",
};

const GREAT: Object = Object {
    name: "_delta_log/00000000000001048576.json",
    text: "",
};

const AFTER_FIRST: Wanted = Wanted {
    version: 0,
    stamp: 5,
    id: "i",
    files: &[1],
    tombstones: &[],
    txns: &[],
};

const AFTER_THIRD: Wanted = Wanted {
    version: 2,
    stamp: 10,
    id: "i",
    files: &[2, 3],
    tombstones: &[1],
    txns: &[2],
};

fn put(alloc: Global, world: &mut MemWorld, name: Name, text: &str) -> Result<(), NoMemory> {
    let body = Body::make(alloc, text.as_bytes().to_vec(alloc)?)?;
    match world.call(TAG, Call::PutNew(name, body)) {
        Ok(_) => Ok(()),
        Err(_) => Err(NoMemory),
    }
}

fn put_object(alloc: Global, world: &mut MemWorld, object: &Object) -> Result<(), NoMemory> {
    let name = Name::make(alloc, object.name)?;
    put(alloc, world, name, object.text)
}

/// A store with these objects.
fn filled(alloc: Global, objects: &[Object]) -> MemWorld {
    let mut world = MemWorld::new(alloc, 7);
    for object in objects {
        put_object(alloc, &mut world, object).ok();
    }
    world
}

fn list(alloc: Global, world: &mut MemWorld) -> Result<Listing, NoMemory> {
    let prefix = log_prefix(alloc)?;
    match world.call(TAG, Call::List(prefix)) {
        Ok(Answer::Names(listing)) => Ok(listing),
        _ => Err(NoMemory),
    }
}

/// Makes the calls of a load, until it has ended.
fn run(mut load: Load, world: &mut MemWorld) -> Result<Loaded, LoadFailed>
    requires { IsReady load }
{
    while let Some(call) = load.next() {
        match world.call(TAG, call) {
            Ok(answer) => load.feed(Fed::Answer(answer)),
            Err(_) => load.feed(Fed::NoMemory),
        }
    }
    load.finish()
}

/// Loads the newest version.
fn load(alloc: Global, world: &mut MemWorld, kept: Option<State>) -> Result<Loaded, LoadFailed> {
    match list(alloc, world) {
        Ok(listing) => match Load::new(alloc, listing, Asked::Newest, kept) {
            Ok(load) => run(load, world),
            Err(failed) => Err(failed),
        },
        Err(_) => Err(LoadFailed {
            fault: LoadFault::NoMemory,
            kept,
        }),
    }
}

/// The table that a load of these objects gives.
fn table_of(alloc: Global, objects: &[Object]) -> Option<State> {
    let mut world = filled(alloc, objects);
    match load(alloc, &mut world, None) {
        Ok(loaded) => Some(loaded.state),
        Err(_) => None,
    }
}

/// Whether a load from a table that is kept gives the wanted one, hands the kept one back as it should, and leaves so
/// many entries in the store's journal: the puts of the objects, the listing and the gets.
fn loads(
    alloc: Global,
    objects: &[Object],
    kept: Option<State>,
    wanted: &Wanted,
    back: bool,
    entries: usize,
) -> bool {
    let mut world = filled(alloc, objects);
    match load(alloc, &mut world, kept) {
        Ok(loaded) => {
            let is = is_wanted(alloc, &loaded.state, wanted) && loaded.kept.is_some() == back;
            drop(loaded);
            is && world.journal().len() == entries
        }
        Err(_) => false,
    }
}

const LOG: &[Object] = &[FIRST, SECOND, THIRD, CHECKPOINT, OTHER];

#[test]
fn commits_are_loaded(rt: HostRuntime) {
    assert!(rt; loads(rt.alloc(), LOG, None, &AFTER_THIRD, false, 9));
}

#[test]
fn a_load_begins_with_the_kept_table(rt: HostRuntime) {
    let kept = table_of(rt.alloc(), &[FIRST]);
    assert!(rt; loads(rt.alloc(), LOG, kept, &AFTER_THIRD, false, 8));
}

#[test]
fn a_later_table_is_handed_back(rt: HostRuntime) {
    let kept = table_of(rt.alloc(), LOG);
    assert!(rt; loads(rt.alloc(), &[FIRST], kept, &AFTER_FIRST, true, 3));
}

/// Why nothing is loaded: by the version that is named, the line, or the number of a feature below.
#[derive(Clone, Copy, Drop, PartialEq, Eq)]
enum Why {
    Loaded,
    NoTable,
    Gone(u64),
    Bad(u64, u32),
    Unsupported(u64),
    Fault,
    NoMemory,
}

const CHECKPOINT_FORM: u64 = 1;

const ABSOLUTE_PATH: u64 = 2;

const VERSIONS: u64 = 3;

fn version_of(name: &Name) -> u64 {
    match read_log_name(name) {
        LogName::Commit(version) => version,
        _ => u64::MAX,
    }
}

fn number_of(feature: &Feature) -> u64 {
    match feature {
        Feature::CheckpointForm => CHECKPOINT_FORM,
        Feature::AbsolutePath => ABSOLUTE_PATH,
        Feature::Versions => VERSIONS,
        _ => 0,
    }
}

fn why_of(fault: &LoadFault) -> Why {
    match fault {
        LoadFault::NoTable => Why::NoTable,
        LoadFault::LogGone { name } => Why::Gone(version_of(name)),
        LoadFault::BadObject { name, fault } => Why::Bad(version_of(name), fault.line),
        LoadFault::Unsupported { feature } => Why::Unsupported(number_of(feature)),
        LoadFault::Fault { .. } => Why::Fault,
        LoadFault::NoMemory => Why::NoMemory,
    }
}

fn told(ended: Result<Loaded, LoadFailed>) -> Why {
    match ended {
        Ok(loaded) => {
            drop(loaded);
            Why::Loaded
        }
        Err(failed) => {
            let why = why_of(&failed.fault);
            drop(failed);
            why
        }
    }
}

/// Why a load of these objects gives nothing.
fn told_of(alloc: Global, objects: &[Object]) -> Why {
    let mut world = filled(alloc, objects);
    told(load(alloc, &mut world, None))
}

/// Objects, and why they have no table.
struct Case {
    objects: &'static [Object],
    why: Why,
}

const CASES: &[Case] = &[
    Case {
        objects: &[OTHER],
        why: Why::NoTable,
    },
    Case {
        objects: &[FIRST, FOURTH],
        why: Why::Gone(2),
    },
    Case {
        objects: &[CHECKPOINT, SECOND],
        why: Why::Unsupported(CHECKPOINT_FORM),
    },
    Case {
        objects: &[FIRST, DAMAGED],
        why: Why::Bad(1, 1),
    },
    Case {
        objects: &[FIRST, ABSOLUTE],
        why: Why::Unsupported(ABSOLUTE_PATH),
    },
    Case {
        objects: &[GREAT],
        why: Why::Unsupported(VERSIONS),
    },
];

fn all_are_why(alloc: Global, cases: &[Case]) -> bool {
    for case in cases {
        if told_of(alloc, case.objects) != case.why {
            return false;
        }
    }
    true
}

#[test]
fn faults_are_told(rt: HostRuntime) {
    assert!(rt; all_are_why(rt.alloc(), CASES));
}

/// What comes in place of the answer to a get.
#[derive(Clone, Copy, Drop)]
enum Trouble {
    Fault,
    Missing,
    NoMemory,
}

fn fed(call: &Call, trouble: Trouble) -> Fed
    ensures { IsFit call.now result }
{
    match (call, trouble) {
        (_, Trouble::NoMemory) => Fed::NoMemory,
        (Call::Get(_), Trouble::Missing) => Fed::Answer(Answer::Missing),
        _ => Fed::Answer(Answer::Fault),
    }
}

fn run_into(mut load: Load, trouble: Trouble) -> Result<Loaded, LoadFailed>
    requires { IsReady load }
{
    while let Some(call) = load.next() {
        load.feed(fed(&call, trouble));
    }
    load.finish()
}

/// Why a load of one commit gives nothing.
fn told_by(alloc: Global, trouble: Trouble) -> Why {
    let mut world = filled(alloc, &[FIRST]);
    let Ok(listing) = list(alloc, &mut world) else {
        return Why::Loaded;
    };
    match Load::new(alloc, listing, Asked::Newest, None) {
        Ok(load) => told(run_into(load, trouble)),
        Err(failed) => told(Err(failed)),
    }
}

#[test]
fn trouble_is_told(rt: HostRuntime) {
    assert!(rt; told_by(rt.alloc(), Trouble::Fault) == Why::Fault);
    assert!(rt; told_by(rt.alloc(), Trouble::Missing) == Why::Gone(0));
    assert!(rt; told_by(rt.alloc(), Trouble::NoMemory) == Why::NoMemory);
}

/// Puts a commit that adds one file.
fn put_commit(alloc: Global, world: &mut MemWorld, version: u64) -> Result<(), NoMemory> {
    let name = commit_name(alloc, version)?;
    let text = format!(in alloc;
        "{{\"add\":{{\"path\":\"f{version}\",\"partitionValues\":{{}},\"size\":1,\"modificationTime\":1,\"dataChange\":true}}}}\n"
    )?;
    put(alloc, world, name, text.as_str())
}

/// Whether a table of so many commits has as many files.
fn loads_many(alloc: Global, count: u64) -> bool {
    let mut world = MemWorld::new(alloc, 7);
    for version in 0..count {
        put_commit(alloc, &mut world, version).ok();
    }
    match load(alloc, &mut world, None) {
        Ok(loaded) => has_count(loaded.state, count),
        Err(_) => false,
    }
}

fn has_count(state: State, count: u64) -> bool {
    match state.files() {
        Ok(files) => files.len() as u64 == count,
        Err(_) => false,
    }
}

#[test]
fn many_commits_are_loaded(rt: HostRuntime) {
    assert!(rt; loads_many(rt.alloc(), 1000));
}
