//! The words, the line of each call and answer, and whole runs. The expected texts are worked out by hand.
use edge_api::{Answer, Body, Call, JournalEntry, Listed, Listing, MemSink, MemSource, Name, Tag};
use inspection::{Words, print_journal, read_words, run_journal, run_objects};
use row_base::{NoMemory, Text};
use std::alloc::Global;
use std::fs;
use std::test::Fail;

/// A call to be made, and of a put its body.
#[derive(Clone, Copy)]
enum Asked {
    Get(&'static str),
    PutNew(&'static str, &'static str),
    Put(&'static str, &'static str),
    List(&'static str),
    Delete(&'static str),
    Now,
    Wait(u64),
}

/// An answer to be made.
#[derive(Clone, Copy)]
enum Said {
    Fault,
    Body(&'static str),
    Missing,
    Stored,
    Taken,
    Names(&'static [&'static str]),
    Gone,
    Time(u64),
    Waited,
}

fn body(alloc: Global, text: &str) -> Result<Body, NoMemory> {
    Body::make(alloc, text.as_bytes().to_vec(alloc)?)
}

fn call(alloc: Global, asked: Asked) -> Result<Call, NoMemory> {
    Ok(match asked {
        Asked::Get(name) => Call::Get(Name::make(alloc, name)?),
        Asked::PutNew(name, text) => Call::PutNew(Name::make(alloc, name)?, body(alloc, text)?),
        Asked::Put(name, text) => Call::Put(Name::make(alloc, name)?, body(alloc, text)?),
        Asked::List(prefix) => Call::List(Name::make(alloc, prefix)?),
        Asked::Delete(name) => Call::Delete(Name::make(alloc, name)?),
        Asked::Now => Call::Now,
        Asked::Wait(time) => Call::Wait(time),
    })
}

fn listed(alloc: Global, name: &str) -> Result<Listed, NoMemory> {
    let name = Name::make(alloc, name)?;
    Ok(Listed { name, put_at: 7 })
}

fn listing(alloc: Global, names: &[&str]) -> Result<Listing, NoMemory> {
    let mut items = Vec::new(alloc);
    for name in names {
        items.push(listed(alloc, name)?)?;
    }
    Listing::make(alloc, items)
}

fn answer(alloc: Global, said: Said) -> Result<Answer, NoMemory> {
    match said {
        Said::Fault => Ok(Answer::Fault),
        Said::Body(text) => Ok(Answer::Body(body(alloc, text)?)),
        Said::Missing => Ok(Answer::Missing),
        Said::Stored => Ok(Answer::Stored),
        Said::Taken => Ok(Answer::Taken),
        Said::Names(names) => Ok(Answer::Names(listing(alloc, names)?)),
        Said::Gone => Ok(Answer::Gone),
        Said::Time(time) => Ok(Answer::Time(time)),
        Said::Waited => Ok(Answer::Waited),
    }
}

/// An actor, the number of its statement, a call with its answer, and the line.
type Case = (u16, u32, Asked, Said, &'static str);

const LINES: [Case; 10] = [
    (
        1,
        2,
        Asked::Get("a/b"),
        Said::Body("twelve bytes"),
        "1 2 Get a/b Body 12\n",
    ),
    (
        0,
        1,
        Asked::Get("a/b"),
        Said::Missing,
        "0 1 Get a/b Missing -\n",
    ),
    (
        65_535,
        4_294_967_295,
        Asked::List("a/"),
        Said::Names(&["a/b", "a/c", "a/d"]),
        "65535 4294967295 List a/ Names 3\n",
    ),
    (
        3,
        4,
        Asked::Now,
        Said::Time(1_700_000_000_000),
        "3 4 Now - Time 1700000000000\n",
    ),
    (3, 4, Asked::Now, Said::Fault, "3 4 Now - Fault -\n"),
    (
        1,
        1,
        Asked::PutNew("n", "four"),
        Said::Stored,
        "1 1 PutNew n Stored 4\n",
    ),
    (
        1,
        1,
        Asked::PutNew("n", "seven b"),
        Said::Taken,
        "1 1 PutNew n Taken 7\n",
    ),
    (
        1,
        1,
        Asked::Put("n", ""),
        Said::Fault,
        "1 1 Put n Fault 0\n",
    ),
    (
        1,
        1,
        Asked::Delete("n"),
        Said::Gone,
        "1 1 Delete n Gone -\n",
    ),
    (
        1,
        1,
        Asked::Wait(604_800),
        Said::Waited,
        "1 1 Wait - Waited 604800\n",
    ),
];

/// Whether this is the line of a call with its answer.
fn is_line(
    alloc: Global,
    tag: Tag,
    asked: Asked,
    said: Said,
    line: &str,
) -> Result<bool, NoMemory> {
    let call = call(alloc, asked)?;
    let answer = answer(alloc, said)?;
    let text = print_journal(alloc, &[JournalEntry { tag, call, answer }])?;
    Ok(text.as_slice() == line.as_bytes())
}

fn are_lines(alloc: Global, cases: &[Case]) -> Result<bool, NoMemory> {
    for (actor, statement, asked, said, line) in cases {
        let tag = Tag {
            actor: *actor,
            statement: *statement,
        };
        if !is_line(alloc, tag, *asked, *said, line)? {
            return Ok(false);
        }
    }
    Ok(true)
}

/// Each kind of call and of answer has its words, and its size where it has one.
#[test]
fn a_call_is_a_line(rt: HostRuntime) -> Result<(), Fail> {
    assert!(rt; are_lines(rt.alloc(), &LINES)?);
    Ok(())
}

/// A source of this script.
fn source(alloc: Global, script: &str) -> Result<MemSource, NoMemory> {
    let bytes = script.as_bytes().to_vec(alloc)?;
    Ok(MemSource::new(bytes, Vec::new(alloc)))
}

/// Whether `journal` ends with this status and writes these texts; the writes of these numbers fail.
fn shows(
    alloc: Global,
    script: &str,
    failing: &[u32],
    status: u8,
    text: &str,
    errors: &str,
) -> Result<bool, NoMemory> {
    let mut source = source(alloc, script)?;
    let mut sink = MemSink::new(alloc, failing.to_vec(alloc)?);
    let mut told = MemSink::new(alloc, Vec::new(alloc));
    let ended = run_journal(alloc, &mut source, &mut sink, &mut told);
    Ok(ended == status && sink.bytes() == text.as_bytes() && told.bytes() == errors.as_bytes())
}

const EMPTY_TABLE: &str = "table (id long not null)\nsession a\nselect\n";

/// The calls of its run. The commit is the line `columns id`.
const CALLS: &str =
    "0 1 Now - Time 1700000000000\n0 1 List _delta_log/ Names 0\n0 1 Now - Time 1700000000000\n0 1 PutNew _delta_log/00000000000000000000.json Stored 11\n1 1 Now - Time 1700000000000\n1 1 List _delta_log/ Names 1\n1 1 Get _delta_log/00000000000000000000.json Body 11\n";

/// A run ends well, where its journal isn't written, and where its script has no reading.
#[test]
fn a_read_of_an_empty_table_is_shown(rt: HostRuntime) -> Result<(), Fail> {
    let alloc = rt.alloc();
    assert!(rt; shows(alloc, EMPTY_TABLE, &[], 0, CALLS, "")?);
    assert!(rt; shows(alloc, EMPTY_TABLE, &[1], 5, "", "write failed\n")?);
    let no_session = "table (id long not null)\nselect\n";
    assert!(rt; shows(alloc, no_session, &[], 3, "", "script: line 2 form\n")?);
    Ok(())
}

/// Whether `objects` into this folder ends with this status and this text.
fn fills(
    rt: &HostRuntime,
    folder: &str,
    script: &str,
    status: u8,
    errors: &str,
) -> Result<bool, NoMemory> {
    let alloc = rt.alloc();
    let mut source = source(alloc, script)?;
    let mut told = MemSink::new(alloc, Vec::new(alloc));
    let ended = run_objects(rt, alloc, folder, &mut source, &mut told);
    Ok(ended == status && told.bytes() == errors.as_bytes())
}

/// A folder gets the objects of a run, but not one that is there, nor one that can't be made.
#[test]
fn the_commit_of_a_new_table_is_a_file(rt: HostRuntime) -> Result<(), Fail> {
    assert!(rt; fills(&rt, "inspected", EMPTY_TABLE, 0, "")?);
    let text = fs::read(&rt, "inspected/_delta_log/00000000000000000000.json")?;
    assert!(rt; text.as_slice() == "columns id\n".as_bytes());
    assert!(rt; fills(&rt, "inspected", EMPTY_TABLE, 8, "folder is there\n")?);
    fs::remove_dir_all(&rt, "inspected")?;
    assert!(rt; fills(&rt, "inspected", "select\n", 3, "script: line 1 header\n")?);
    assert!(rt; fills(&rt, "no/folder/here", EMPTY_TABLE, 5, "write failed\n")?);
    Ok(())
}

/// What words ask for.
#[derive(Clone, Copy)]
enum Want {
    Journal,
    Objects(&'static str),
    Nothing,
}

fn is_asked(asked: &Option<Words>, want: Want) -> bool {
    match (asked, want) {
        (Some(Words::Journal), Want::Journal) => true,
        (Some(Words::Objects(folder)), Want::Objects(name)) => folder.as_str() == name,
        (None, Want::Nothing) => true,
        _ => false,
    }
}

fn words(alloc: Global, given: &[&str]) -> Result<Vec<Text>, NoMemory> {
    let mut all = Vec::new(alloc);
    for word in given {
        all.push(Text::make(alloc, word)?)?;
    }
    Ok(all)
}

/// Whether these words ask for this.
fn ask(alloc: Global, given: &[&str], want: Want) -> Result<bool, NoMemory> {
    let words = words(alloc, given)?;
    let asked = read_words(&words)?;
    Ok(is_asked(&asked, want))
}

const WORDS: [(&'static [&'static str], Want); 4] = [
    (&["journal"], Want::Journal),
    (&["objects", "--to", "there"], Want::Objects("there")),
    (&["objects", "there"], Want::Nothing),
    (&["step"], Want::Nothing),
];

fn all_ask(alloc: Global, cases: &[(&'static [&'static str], Want)]) -> Result<bool, NoMemory> {
    let mut all = true;
    for (given, want) in cases {
        all &= ask(alloc, given, *want)?;
    }
    Ok(all)
}

/// Two commands are accepted, and nothing else.
#[test]
fn the_words_are_two_commands(rt: HostRuntime) -> Result<(), Fail> {
    assert!(rt; all_ask(rt.alloc(), &WORDS)?);
    Ok(())
}
