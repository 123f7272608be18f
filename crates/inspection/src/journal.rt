//! The journal of a store as it is printed.
ghost use Rattle.std.specs.Prelude.{◌≡◌, ◌++◌, IfOk, OnOk};
ghost use Rattle.std.specs.List.{flat_map};
ghost use Rattle.inspection.specs.Journal as spec;

use edge_api::{Answer, Call, JournalEntry, Name};
use report::Printer;
use row_base::NoMemory;
use std::alloc::Global;

fn push_named(out: &mut Printer, word: &[u8], name: &Name) -> Result<(), NoMemory>
    ensures { OnOk result (out.new ≡ out.old ++ (word.now ++ name.now)) }
{
    out.push(word)?;
    out.push(name.as_bytes())?;
    Ok(())
}

fn push_call(out: &mut Printer, call: &Call) -> Result<(), NoMemory>
    ensures { OnOk result (out.new ≡ out.old ++ spec.call_text call.now) }
{
    match call {
        Call::Get(name) => push_named(out, b" Get ", name),
        Call::PutNew(name, _) => push_named(out, b" PutNew ", name),
        Call::Put(name, _) => push_named(out, b" Put ", name),
        Call::List(prefix) => push_named(out, b" List ", prefix),
        Call::Delete(name) => push_named(out, b" Delete ", name),
        Call::Now => out.push(b" Now -"),
        Call::Wait(_) => out.push(b" Wait -"),
    }
}

fn push_answer(out: &mut Printer, answer: &Answer) -> Result<(), NoMemory>
    ensures { OnOk result (out.new ≡ out.old ++ spec.answer_text answer.now) }
{
    match answer {
        Answer::Fault => out.push(b" Fault"),
        Answer::Body(_) => out.push(b" Body"),
        Answer::Missing => out.push(b" Missing"),
        Answer::Stored => out.push(b" Stored"),
        Answer::Taken => out.push(b" Taken"),
        Answer::Names(_) => out.push(b" Names"),
        Answer::Gone => out.push(b" Gone"),
        Answer::Time(_) => out.push(b" Time"),
        Answer::Waited => out.push(b" Waited"),
    }
}

/// The size of what a call got.
fn size_got(answer: &Answer) -> Option<u64>
    ensures { result ≡ spec.size_got answer.now }
{
    match answer {
        Answer::Body(body) => Some(body.as_bytes().len() as u64),
        Answer::Names(listing) => Some(listing.as_slice().len() as u64),
        Answer::Time(time) => Some(*time),
        Answer::Fault
        | Answer::Missing
        | Answer::Stored
        | Answer::Taken
        | Answer::Gone
        | Answer::Waited => None,
    }
}

/// The size of what a call put or got, where it has one.
fn size_of(call: &Call, answer: &Answer) -> Option<u64>
    ensures { result ≡ spec.size_of call.now answer.now }
{
    match call {
        Call::PutNew(_, body) => Some(body.as_bytes().len() as u64),
        Call::Put(_, body) => Some(body.as_bytes().len() as u64),
        Call::Wait(time) => Some(*time),
        Call::Get(_) | Call::List(_) | Call::Delete(_) | Call::Now => size_got(answer),
    }
}

fn push_size(out: &mut Printer, size: Option<u64>) -> Result<(), NoMemory>
    ensures { OnOk result (out.new ≡ out.old ++ spec.size_text size) }
{
    match size {
        Some(size) => out.push_counted(b" ", size),
        None => out.push(b" -"),
    }
}

fn push_entry(out: &mut Printer, entry: &JournalEntry) -> Result<(), NoMemory>
    ensures { OnOk result (out.new ≡ out.old ++ spec.entry_line entry.now) }
{
    out.push_counted(b"", entry.tag.actor as u64)?;
    out.push_counted(b" ", entry.tag.statement as u64)?;
    push_call(out, &entry.call)?;
    push_answer(out, &entry.answer)?;
    push_size(out, size_of(&entry.call, &entry.answer))?;
    out.push(b"\n")?;
    Ok(())
}

fn push_entries(out: &mut Printer, journal: &[JournalEntry]) -> Result<(), NoMemory>
    ensures { OnOk result (out.new ≡ out.old ++ flat_map spec.entry_line journal.now) }
{
    for entry in journal {
        push_entry(out, entry)?;
    }
    Ok(())
}

/// The text of a journal: a line for each call, in order, with the actor, the statement, the kind of the call, the name
/// or `-`, the answer, and the size or `-`. The size is the bytes of a body that is put or got, the number of listed
/// names, the clock, or the time of a wait, in milliseconds. The error is want of memory.
pub fn print_journal(alloc: Global, journal: &[JournalEntry]) -> Result<Vec<u8>, NoMemory>
    ensures { IfOk result (λ text. text.items ≡ spec.journal_text journal.now) }
{
    let mut out = Printer::new(alloc);
    push_entries(&mut out, journal)?;
    Ok(out.into_bytes())
}
