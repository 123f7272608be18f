//! Whole runs over a store in memory. The expected texts are worked out by hand.
use crate::top::{Finished, run, run_step};
use edge_api::{Gate, MemSink, MemSource, MemWorld, Tag};
use row_base::Text;
use std::alloc::Global;
use std::test::Fail;

struct NoGate;

impl Gate for NoGate {
    fn enter(&self, _tag: Tag) {}

    fn leave(&self, _tag: Tag) {}
}

/// What a run ended with and wrote.
#[derive(Drop)]
struct Output {
    status: u8,
    text: Vec<u8>,
    errors: Vec<u8>,
}

impl Output {
    fn is(&self, status: u8, text: &str, errors: &str) -> bool {
        self.status == status
            && self.text.as_slice() == text.as_bytes()
            && self.errors.as_slice() == errors.as_bytes()
    }
}

fn numbers(alloc: Global, number: u32) -> Result<Vec<u32>, Fail> {
    let mut all = Vec::new(alloc);
    if number > 0 {
        all.push(number)?;
    }
    Ok(all)
}

/// Runs a script by `step`; the read and the write of these numbers fail, where they aren't 0.
fn step(alloc: Global, script: &str, read: u32, write: u32) -> Result<Output, Fail> {
    step_bytes(alloc, script.as_bytes().to_vec(alloc)?, read, write)
}

fn step_bytes(alloc: Global, bytes: Vec<u8>, read: u32, write: u32) -> Result<Output, Fail> {
    let mut source = MemSource::new(bytes, numbers(alloc, read)?);
    let mut sink = MemSink::new(alloc, numbers(alloc, write)?);
    let mut errors = MemSink::new(alloc, numbers(alloc, 0)?);
    let world = MemWorld::new(alloc, 1_700_000_000_000);
    let Finished { status, .. } = run_step(alloc, &mut source, &mut sink, &mut errors, world);
    Ok(Output {
        status,
        text: sink.bytes().to_vec(alloc)?,
        errors: errors.bytes().to_vec(alloc)?,
    })
}

const TWO_ROWS: &str =
    "table (id long not null, v long not null)\nsession a\ninsert (1, 10), (2, 20)\nselect\n";

/// Scripts, each with the status of its run, its replies and its errors.
const RUNS: [(&str, u8, &str, &str); 4] = [
    // one session inserts and selects
    (
        TWO_ROWS,
        0,
        "table 1 created 0\na 1 committed 1 read 0 attempts 1\na 2 rows 2 version 1 files 1 of 1\n(1, 10)\n(2, 20)\n",
        "",
    ),
    // a line without a form is named
    (
        "table (id long not null)\nsession a\ndelete\n",
        3,
        "",
        "script: line 3 form\n",
    ),
    // a lost put is rebased
    (
        "table (id long not null)\nsession a\ninsert (1)\nsession b\ninsert (2)\nschedule\na@ b! a!\n",
        0,
        "table 1 created 0\na 1 committed 2 read 0 attempts 2\nb 1 committed 1 read 0 attempts 1\n",
        "",
    ),
    // the limit of attempts is kept
    (
        "attempts 1\ntable (id long not null)\nsession a\ninsert (1)\nsession b\ninsert (2)\nschedule\na@ b! b! a!\n",
        0,
        "table 1 created 0\na 1 refused 8 attempts 1\nb 1 committed 1 read 0 attempts 1\n",
        "",
    ),
];

#[test]
fn scripts_have_these_runs(rt: HostRuntime) -> Result<(), Fail> {
    for (script, status, text, errors) in RUNS {
        let output = step(rt.alloc(), script, 0, 0)?;
        assert!(rt; output.is(status, text, errors), "{script}");
    }
    Ok(())
}

#[test]
fn faults_of_the_streams_are_told(rt: HostRuntime) -> Result<(), Fail> {
    let output = step(rt.alloc(), TWO_ROWS, 1, 0)?;
    assert!(rt; output.is(4, "", "read failed\n"));
    let output = step(rt.alloc(), TWO_ROWS, 0, 1)?;
    assert!(rt; output.is(5, "", "write failed\n"));
    Ok(())
}

/// A table of one column, session a with two inserts and session b with one, by a schedule.
fn scheduled(alloc: Global, items: &str) -> Result<Output, Fail> {
    let script = format!(in alloc;
        "table (id long not null)\nsession a\ninsert (1)\ninsert (2)\nsession b\ninsert (3)\nschedule\n{items}\n"
    )?;
    step(alloc, &script, 0, 0)
}

/// Schedules, and the replies of a 1, a 2 and b 1 that they lead to. An insert over version v reads the clock, lists the
/// log, gets the commits 0 to v, puts its file, reads the clock and puts its commit.
const SCHEDULES: [(&str, &str, &str, &str); 7] = [
    // five calls: the put of the commit is next, and is lost by the sixth
    (
        "a a a a a b! a",
        "2 read 0 attempts 2",
        "3 read 2 attempts 1",
        "1 read 0 attempts 1",
    ),
    // six calls are the whole first insert
    (
        "a a a a a a b!",
        "1 read 0 attempts 1",
        "3 read 2 attempts 1",
        "2 read 1 attempts 1",
    ),
    // where the put is next, going on to it makes no call
    (
        "a@ a@ a@ b! a!",
        "2 read 0 attempts 2",
        "3 read 2 attempts 1",
        "1 read 0 attempts 1",
    ),
    // items of finished sessions are passed over
    (
        "a! a! a! a! b! b! b",
        "1 read 0 attempts 1",
        "2 read 1 attempts 1",
        "3 read 2 attempts 1",
    ),
    // between two statements, the next one goes to its put
    (
        "a! a@ b! a!",
        "1 read 0 attempts 1",
        "3 read 1 attempts 2",
        "2 read 1 attempts 1",
    ),
    // within a statement, to its end and no further
    (
        "a b a! b!",
        "1 read 0 attempts 1",
        "3 read 2 attempts 1",
        "2 read 1 attempts 1",
    ),
    (
        "a! b@ a! b!",
        "1 read 0 attempts 1",
        "2 read 1 attempts 1",
        "3 read 1 attempts 2",
    ),
];

#[test]
fn each_item_goes_as_far_as_it_says(rt: HostRuntime) -> Result<(), Fail> {
    let alloc = rt.alloc();
    for (items, first, second, other) in SCHEDULES {
        let output = scheduled(alloc, items)?;
        let wanted = format!(in alloc;
            "table 1 created 0\na 1 committed {first}\na 2 committed {second}\nb 1 committed {other}\n"
        )?;
        assert!(rt; output.is(0, &wanted, ""));
    }
    Ok(())
}

#[test]
fn a_script_that_is_too_long_is_refused(rt: HostRuntime) -> Result<(), Fail> {
    let alloc = rt.alloc();
    let mut bytes = Vec::new(alloc);
    bytes.resize(16_777_217, b'\n')?;
    let output = step_bytes(alloc, bytes, 0, 0)?;
    assert!(rt; output.is(7, "", "script longer than 16777216 bytes\n"));
    Ok(())
}

#[test]
fn other_words_are_refused(rt: HostRuntime) -> Result<(), Fail> {
    let alloc = rt.alloc();
    let mut words = Vec::new(alloc);
    words.push(Text::make(alloc, "step")?)?;
    words.push(Text::make(alloc, "now")?)?;
    let mut source = MemSource::new(TWO_ROWS.as_bytes().to_vec(alloc)?, numbers(alloc, 0)?);
    let mut sink = MemSink::new(alloc, numbers(alloc, 0)?);
    let mut errors = MemSink::new(alloc, numbers(alloc, 0)?);
    let world = MemWorld::new(alloc, 1_700_000_000_000);
    let Finished { status, .. } = run(
        &rt,
        alloc,
        &words,
        &mut source,
        &mut sink,
        &mut errors,
        world,
        &NoGate,
    );
    assert!(rt; status == 2);
    assert!(rt; sink.bytes().is_empty());
    Ok(())
}
