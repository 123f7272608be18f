//! Worked calls of the store in memory, of the sources and of the sinks.
use edge_api::{
    Answer, Back, Body, Call, CallKind, Called, Failed, FlakyWorld, How, Listed, Listing, MemSink,
    MemSource, MemWorld, Name, Object, ReadError, Sink, Source, StdSink, StdSource, Tag, Trouble,
    World, read_all, replay_journal, write_all,
};
use row_base::{NoMemory, Text};
use std::alloc::Global;
use std::test::Fail;

const TAG: Tag = Tag {
    actor: 1,
    statement: 2,
};

fn body(alloc: Global, bytes: &[u8]) -> Result<Body, NoMemory> {
    Body::make(alloc, bytes.to_vec(alloc)?)
}

/// A call of this kind. The number of a wait is the length of the bytes.
fn call_of(alloc: Global, kind: CallKind, text: &str, bytes: &[u8]) -> Result<Call, NoMemory> {
    match kind {
        CallKind::Get => Ok(Call::Get(Name::make(alloc, text)?)),
        CallKind::PutNew => Ok(Call::PutNew(Name::make(alloc, text)?, body(alloc, bytes)?)),
        CallKind::Put => Ok(Call::Put(Name::make(alloc, text)?, body(alloc, bytes)?)),
        CallKind::List => Ok(Call::List(Name::make(alloc, text)?)),
        CallKind::Delete => Ok(Call::Delete(Name::make(alloc, text)?)),
        CallKind::Now => Ok(Call::Now),
        CallKind::Wait => Ok(Call::Wait(bytes.len() as u64)),
    }
}

/// Whether the answer is the word, or a body of these bytes.
fn is_answer(answer: &Answer, want: &str) -> bool {
    match answer {
        Answer::Body(body) => body.as_bytes() == want.as_bytes(),
        Answer::Fault => want == "fault",
        Answer::Missing => want == "missing",
        Answer::Stored => want == "stored",
        Answer::Taken => want == "taken",
        Answer::Gone => want == "gone",
        Answer::Waited => want == "waited",
        _ => false,
    }
}

/// Whether there is an answer, and it is the one that is wanted.
fn is_told(told: &Result<Answer, Back>, want: &str) -> bool {
    match told {
        Ok(answer) => is_answer(answer, want),
        Err(_) => false,
    }
}

/// Whether a call has the answer that is wanted.
fn answers<W: World>(world: &mut W, call: Result<Call, NoMemory>, want: &str) -> bool {
    match call {
        Ok(call) => {
            let told = world.call(TAG, call);
            is_told(&told, want)
        }
        Err(_) => false,
    }
}

/// A call's kind, its name, its bytes and the answer that is wanted.
type Told = (CallKind, &'static str, &'static [u8], &'static str);

/// Makes the calls one after another. Whether each has the answer that is wanted.
fn are_answered<W: World>(alloc: Global, world: &mut W, calls: &[Told]) -> bool {
    let mut all = true;
    for (kind, text, bytes, want) in calls {
        all = answers(world, call_of(alloc, *kind, text, bytes), want) && all;
    }
    all
}

/// The time that is told.
fn time_in(told: &Result<Answer, Back>) -> Option<u64> {
    match told {
        Ok(Answer::Time(time)) => Some(*time),
        _ => None,
    }
}

/// The clock, by a call.
fn time_of<W: World>(world: &mut W) -> Option<u64> {
    let told = world.call(TAG, Call::Now);
    time_in(&told)
}

/// The names that are told.
fn names_in(told: &Result<Answer, Back>) -> Result<Listing, NoMemory> {
    match told {
        Ok(Answer::Names(listing)) => listing.copy(),
        _ => Err(NoMemory),
    }
}

/// The names with a prefix, by a call.
fn listed(alloc: Global, world: &mut MemWorld, prefix: &str) -> Result<Listing, NoMemory> {
    let prefix = Name::make(alloc, prefix)?;
    let told = world.call(TAG, Call::List(prefix));
    names_in(&told)
}

const CALLS: [Told; 10] = [
    (CallKind::PutNew, "a", b"one", "stored"),
    (CallKind::PutNew, "a", b"two", "taken"),
    (CallKind::Get, "a", b"", "one"),
    (CallKind::Delete, "a", b"", "gone"),
    (CallKind::Get, "a", b"", "missing"),
    (CallKind::Delete, "a", b"", "gone"),
    (CallKind::Put, "b", b"two", "stored"),
    (CallKind::Put, "b", b"six", "stored"),
    (CallKind::Get, "b", b"", "six"),
    (CallKind::Wait, "", b"   ", "waited"),
];

#[test]
fn each_call_is_answered(rt: HostRuntime) {
    let mut world = MemWorld::new(rt.alloc(), 5);
    assert!(rt; are_answered(rt.alloc(), &mut world, &CALLS));
    assert!(rt; world.journal().len() == 10);
}

/// Whether these bytes are found; no bytes where nothing is to be found.
fn are_found(found: Option<&Body>, bytes: &str) -> bool {
    match found {
        Some(body) => body.as_bytes() == bytes.as_bytes(),
        None => bytes.is_empty(),
    }
}

/// Whether the object under a name has these bytes, or isn't there, where there are none.
fn holds(alloc: Global, world: &MemWorld, text: &str, bytes: &str) -> bool {
    match Name::make(alloc, text) {
        Ok(name) => are_found(world.object(&name), bytes),
        Err(_) => false,
    }
}

#[test]
fn objects_are_found(rt: HostRuntime) {
    let alloc = rt.alloc();
    let mut world = MemWorld::new(alloc, 5);
    assert!(rt; are_answered(alloc, &mut world, &[(CallKind::Put, "a", b"one", "stored")]));
    assert!(rt; holds(alloc, &world, "a", "one"));
    assert!(rt; holds(alloc, &world, "b", ""));
}

const WAITS: [(u64, u64); 4] = [(0, 5), (7, 12), (u64::MAX, 1 << 61), (1, 1 << 61)];

/// Whether the clock has this time after a wait.
fn is_moved(world: &mut MemWorld, wait: u64, time: u64) -> bool {
    answers(world, Ok(Call::Wait(wait)), "waited") && time_of(world) == Some(time)
}

#[test]
fn a_wait_moves_the_clock(rt: HostRuntime) {
    let mut world = MemWorld::new(rt.alloc(), 5);
    for (wait, time) in WAITS {
        assert!(rt; is_moved(&mut world, wait, time), "after {wait}");
    }
}

/// Puts an object whose bytes are its name, and waits for a millisecond.
fn is_put(alloc: Global, world: &mut MemWorld, text: &str) -> bool {
    let call = call_of(alloc, CallKind::PutNew, text, text.as_bytes());
    answers(world, call, "stored") && answers(world, Ok(Call::Wait(1)), "waited")
}

/// Puts objects of these names, each a millisecond after the one before.
fn are_put(alloc: Global, world: &mut MemWorld, names: &[&str]) -> bool {
    let mut all = true;
    for text in names {
        all = is_put(alloc, world, text) && all;
    }
    all
}

/// Notes a name and a time. Where memory is wanting it is left out, and the text isn't the one that is wanted.
fn note(text: &mut String, name: &Name, time: u64) {
    write!(text, "{} {time}; ", name.as_str()).ok();
}

/// What is listed, as a text.
fn listing_text(alloc: Global, listing: &[Listed]) -> String {
    let mut text = String::new(alloc);
    for item in listing {
        note(&mut text, &item.name, item.put_at);
    }
    text
}

/// Whether the names with a prefix are these, with their times.
fn lists(alloc: Global, world: &mut MemWorld, prefix: &str, want: &str) -> bool {
    match listed(alloc, world, prefix) {
        Ok(listing) => listing_text(alloc, listing.as_slice()).as_str() == want,
        Err(_) => false,
    }
}

#[test]
fn names_are_listed_in_byte_order(rt: HostRuntime) {
    let alloc = rt.alloc();
    let mut world = MemWorld::new(alloc, 5);
    let names = ["d/2", "d/10", "a", "d", "d/é", "e", "d/1"];
    assert!(rt; are_put(alloc, &mut world, &names));
    assert!(rt; lists(alloc, &mut world, "d/", "d/1 11; d/10 6; d/2 5; d/é 9; "));
}

/// The objects with their times, as a text.
fn objects_text(alloc: Global, objects: &[(Name, Object)]) -> String {
    let mut text = String::new(alloc);
    for (name, object) in objects {
        note(&mut text, name, object.put_at);
    }
    text
}

/// Whether the store has the same bytes.
fn has_object(world: &MemWorld, name: &Name, object: &Object) -> bool {
    match world.object(name) {
        Some(body) => body.as_bytes() == object.body.as_bytes(),
        None => false,
    }
}

/// Whether the store has the same bytes under each name.
fn has_objects(world: &MemWorld, objects: &[(Name, Object)]) -> bool {
    let mut all = true;
    for (name, object) in objects {
        all = has_object(world, name, object) && all;
    }
    all
}

/// Whether a replay of the store's journal leaves the store's objects, which have these names and times.
fn replays(alloc: Global, world: &mut MemWorld, want: &str) -> Result<bool, NoMemory> {
    let objects = replay_journal(alloc, 5, world.journal())?;
    let text = objects_text(alloc, &objects);
    Ok(text.as_str() == want && has_objects(world, &objects) && lists(alloc, world, "", want))
}

const CHANGES: [Told; 3] = [
    (CallKind::PutNew, "b", b"new", "taken"),
    (CallKind::Delete, "c", b"", "gone"),
    (CallKind::Put, "a", b"new", "stored"),
];

#[test]
fn a_replay_leaves_the_same_objects(rt: HostRuntime) {
    let alloc = rt.alloc();
    let mut world = MemWorld::new(alloc, 5);
    assert!(rt; are_put(alloc, &mut world, &["b", "a", "c", "aa"]));
    assert!(rt; are_answered(alloc, &mut world, &CHANGES));
    let same = replays(alloc, &mut world, "a 9; aa 8; b 5; ");
    assert!(rt; same == Ok(true));
}

/// A call that fails, and what it leaves: the bytes of `a` and of `b`, and the clock.
type Failing = (CallKind, &'static str, &'static str, &'static str, u64);

/// Whether a call fails and leaves what is wanted.
fn leaves(alloc: Global, world: &mut FlakyWorld, row: Failing) -> bool {
    let (kind, text, a, b, time) = row;
    answers(world, call_of(alloc, kind, text, b"new"), "fault")
        && holds(alloc, world.inner(), "a", a)
        && holds(alloc, world.inner(), "b", b)
        && world.inner().journal().len() == 2
        && time_of(world) == Some(time)
}

/// The plan by which the first call of a kind fails.
fn plan_of(alloc: Global, kind: CallKind, how: How) -> Result<Vec<Trouble>, NoMemory> {
    let trouble = Trouble {
        tag: TAG,
        kind,
        nth: 1,
        how,
    };
    Ok([trouble].to_vec(alloc)?)
}

/// Whether the call fails and leaves what is wanted, where `a` has the bytes `old` and the clock stands at 5.
fn fails(alloc: Global, how: How, row: Failing) -> Result<bool, NoMemory> {
    let plan = plan_of(alloc, row.0, how)?;
    let mut world = MemWorld::new(alloc, 5);
    let put = are_answered(alloc, &mut world, &[(CallKind::Put, "a", b"old", "stored")]);
    let mut world = FlakyWorld::new(world, plan);
    Ok(leaves(alloc, &mut world, row) && put)
}

/// Calls of which no answer is heard.
const UNHEARD: [Failing; 8] = [
    (CallKind::Get, "a", "old", "", 5),
    (CallKind::PutNew, "b", "old", "new", 5),
    (CallKind::PutNew, "a", "old", "", 5),
    (CallKind::Put, "a", "new", "", 5),
    (CallKind::List, "", "old", "", 5),
    (CallKind::Delete, "a", "", "", 5),
    (CallKind::Now, "", "old", "", 5),
    (CallKind::Wait, "", "old", "", 8),
];

#[test]
fn a_call_that_is_not_done_changes_nothing(rt: HostRuntime) -> Result<(), Fail> {
    for (kind, text, _, _, _) in UNHEARD {
        assert!(rt; fails(rt.alloc(), How::NotDone, (kind, text, "old", "", 5))?);
    }
    Ok(())
}

#[test]
fn a_call_that_is_unheard_is_done(rt: HostRuntime) -> Result<(), Fail> {
    for row in UNHEARD {
        assert!(rt; fails(rt.alloc(), How::DoneUnheard, row)?);
    }
    Ok(())
}

/// The second put fails, and then the second one again.
const TWO: [Trouble; 2] = [
    Trouble {
        tag: TAG,
        kind: CallKind::Put,
        nth: 2,
        how: How::NotDone,
    },
    Trouble {
        tag: TAG,
        kind: CallKind::Put,
        nth: 2,
        how: How::DoneUnheard,
    },
];

/// Bytes that are put, how that ends, and the bytes that stand then.
const PUTS: [(&[u8], &str, &str); 3] = [
    (b"one", "stored", "one"),
    (b"two", "fault", "one"),
    (b"six", "stored", "six"),
];

#[test]
fn the_numbered_calls_fail(rt: HostRuntime) -> Result<(), Fail> {
    let alloc = rt.alloc();
    let plan = TWO.to_vec(alloc)?;
    let mut world = FlakyWorld::new(MemWorld::new(alloc, 5), plan);
    for (bytes, end, left) in PUTS {
        let calls: [Told; 2] = [
            (CallKind::Put, "a", bytes, end),
            (CallKind::Get, "a", b"", left),
        ];
        assert!(rt; are_answered(alloc, &mut world, &calls));
    }
    Ok(())
}

/// The first get of another statement fails.
const ANOTHER: [Trouble; 1] = [Trouble {
    tag: Tag {
        actor: 1,
        statement: 3,
    },
    kind: CallKind::Get,
    nth: 1,
    how: How::NotDone,
}];

#[test]
fn another_statement_does_not_fail(rt: HostRuntime) -> Result<(), Fail> {
    let alloc = rt.alloc();
    let plan = ANOTHER.to_vec(alloc)?;
    let mut world = FlakyWorld::new(MemWorld::new(alloc, 5), plan);
    assert!(rt; are_answered(alloc, &mut world, &[(CallKind::Get, "a", b"", "missing")]));
    Ok(())
}

/// A copy of a name.
fn copied_name(alloc: Global, text: &str) -> Result<Name, NoMemory> {
    let name = Name::make(alloc, text)?;
    name.copy()
}

/// Whether a name stands before another one.
fn is_before(first: &Name, second: &Name) -> bool {
    first.cmp(second).is_lt() && first != second
}

#[test]
fn names_are_made_and_compared(rt: HostRuntime) -> Result<(), Fail> {
    let upper = Name::from_string(String::from_str(rt.alloc(), "B")?)?;
    let lower = copied_name(rt.alloc(), "a")?;
    assert!(rt; is_before(&upper, &lower) && lower.as_str() == "a");
    Ok(())
}

#[test]
fn names_are_texts(rt: HostRuntime) -> Result<(), Fail> {
    let name = Name::new(Text::make(rt.alloc(), "a")?);
    assert!(rt; name.as_text().as_str() == "a");
    let text = name.into_text();
    assert!(rt; text.as_str() == "a");
    Ok(())
}

#[test]
fn a_call_is_copied(rt: HostRuntime) -> Result<(), Fail> {
    let call = call_of(rt.alloc(), CallKind::PutNew, "a", b"one")?;
    let copy = call.copy()?;
    assert!(rt; copy.kind() == CallKind::PutNew);
    Ok(())
}

#[test]
fn what_is_called_is_copied(rt: HostRuntime) -> Result<(), Fail> {
    let name = Name::make(rt.alloc(), "")?;
    let called = Called {
        kind: CallKind::Now,
        name,
    };
    let copy = called.copy()?;
    assert!(rt; copy.kind == CallKind::Now);
    Ok(())
}

#[test]
fn an_answer_is_copied(rt: HostRuntime) -> Result<(), Fail> {
    let answer = Answer::Body(body(rt.alloc(), b"one")?);
    let copy = answer.copy()?;
    assert!(rt; is_answer(&copy, "one"));
    Ok(())
}

#[test]
fn a_listing_is_copied(rt: HostRuntime) -> Result<(), Fail> {
    let listing = Listing::make(rt.alloc(), Vec::new(rt.alloc()))?;
    let copy = listing.copy()?;
    assert!(rt; copy.as_slice().is_empty());
    Ok(())
}

/// A source of these bytes, whose reads of these numbers fail.
fn source(alloc: Global, bytes: &[u8], failing: &[u32]) -> Result<MemSource, NoMemory> {
    let bytes = bytes.to_vec(alloc)?;
    let failing = failing.to_vec(alloc)?;
    Ok(MemSource::new(bytes, failing))
}

const READS: [Result<usize, Failed>; 5] = [Ok(2), Err(Failed), Ok(1), Err(Failed), Ok(0)];

/// Whether the reads end so, and leave `c` before `b`.
fn reads_so(source: &mut MemSource) -> bool {
    let mut room = [0; 2];
    let mut all = true;
    for want in READS {
        all = source.read_some(&mut room) == want && all;
    }
    all && room == *b"cb"
}

#[test]
fn the_numbered_reads_fail(rt: HostRuntime) -> Result<(), Fail> {
    let mut source = source(rt.alloc(), b"abc", &[2, 4])?;
    assert!(rt; reads_so(&mut source));
    Ok(())
}

/// A limit, the number of the read that fails, and how many bytes are read.
const LIMITS: [(usize, u32, Result<usize, ReadError>); 5] = [
    (5, 9, Ok(5)),
    (4, 9, Err(ReadError::TooLong)),
    (4, 1, Err(ReadError::Failed)),
    (5, 2, Err(ReadError::Failed)),
    (4, 2, Err(ReadError::TooLong)),
];

/// Whether so many bytes of five are read, or this is why not.
fn is_read(
    alloc: Global,
    limit: usize,
    failing: u32,
    want: Result<usize, ReadError>,
) -> Result<bool, NoMemory> {
    let mut source = source(alloc, b"abcde", &[failing])?;
    let read = read_all(alloc, &mut source, limit).map(|v| v.len());
    Ok(read == want)
}

#[test]
fn a_source_is_read_within_the_limit(rt: HostRuntime) -> Result<(), Fail> {
    for (limit, failing, want) in LIMITS {
        assert!(rt;
            is_read(rt.alloc(), limit, failing, want)?,
            "limit {limit}, failing {failing}"
        );
    }
    Ok(())
}

const WRITES: [(&[u8], Result<(), Failed>); 3] = [
    (b"ab", Ok(())),
    (b"cd", Err(Failed)),
    (b"ef", Ok(())),
];

/// Whether the writes end so, and leave these bytes.
fn writes_so(sink: &mut MemSink) -> bool {
    let mut all = true;
    for (piece, want) in WRITES {
        all = write_all(sink, piece) == want && all;
    }
    all && sink.bytes() == b"abef".as_slice()
}

#[test]
fn the_numbered_writes_fail(rt: HostRuntime) -> Result<(), Fail> {
    let failing = [2].to_vec(rt.alloc())?;
    let mut sink = MemSink::new(rt.alloc(), failing);
    assert!(rt; writes_so(&mut sink));
    Ok(())
}

/// Whether these bytes were read.
fn are_read(read: Result<Vec<u8>, ReadError>, want: &[u8]) -> bool {
    match read {
        Ok(bytes) => bytes.as_slice() == want,
        Err(_) => false,
    }
}

#[test]
fn readers_are_adapted(rt: HostRuntime) {
    let mut source = StdSource::new(b"abc".as_slice());
    let read = read_all(rt.alloc(), &mut source, 3);
    assert!(rt; are_read(read, b"abc"));
}

/// What is written through an adapted list.
fn adapted(alloc: Global, bytes: &[u8]) -> Option<Vec<u8>> {
    let mut written = Vec::new(alloc);
    let mut sink = StdSink::new(&mut written);
    match write_all(&mut sink, bytes) {
        Ok(()) => Some(written),
        Err(_) => None,
    }
}

#[test]
fn writers_are_adapted(rt: HostRuntime) {
    let written = adapted(rt.alloc(), b"abc");
    assert!(rt; written.is_some_and(|v| v.as_slice() == b"abc".as_slice()));
    let mut none: [u8; 0] = [];
    let mut full = StdSink::new(none.as_mut_slice());
    assert!(rt; full.write_some(b"") == Ok(0));
    assert!(rt; full.write_some(b"a") == Err(Failed));
}
