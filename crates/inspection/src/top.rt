//! The commands.
ghost use Rattle.std.specs.Prelude.{◌≡◌, ℕ, List, None, Some, IfOk, IfErr};
ghost use Rattle.script_text.specs.Fit.{IsFit};
ghost use Rattle.script_runs.specs.declared.status.Status.{Status as AStatus};
ghost use Rattle.script_runs.specs.Status.{code_of, text_of};
ghost use Rattle.script_runs.specs.Reading.{Says, FailsReading};
ghost use Rattle.inspection.specs.Top.{Leaves, Runs, ShowsAs, ShowsJournal, FillsAs, FillsFolder};
ghost use Rattle.inspection.specs.Words.{words_of, words_text};
ghost use Rattle.inspection.specs.declared.words.Words.TheVariants as asks;

use crate::journal::print_journal;
use crate::objects::{Unwritten, write_objects};
use crate::words::{Words, folder_text, read_words, words_text};
use edge_api::{MemWorld, Sink, Source, write_all};
use row_base::{NoMemory, Text};
use script_runs::{Status, new_store, read_script, run_script, say, tell};
use script_text::Script;
use std::alloc::Global;
use std::fs;
use std::rt::Files;

/// The store after a run of the script's sessions over an empty one. The error is want of memory.
fn store_after(alloc: Global, script: Script) -> Result<MemWorld, NoMemory>
    requires { IsFit script }
    ensures { IfOk result (λ world. Leaves script world.journal) }
{
    let mut world = new_store(alloc);
    run_script(alloc, script, &mut world)?;
    Ok(world)
}

/// Reads a script and runs it over an empty store, which is the answer. The error is the status.
fn run_source<S: Source>(alloc: Global, source: &mut S) -> Result<MemWorld, Status>
    ensures ok { IfOk result (λ world. Runs (record { bytes = S.left source.old; faults = S.faults source.old }) (record { bytes = S.left source.new; faults = S.faults source.new }) world.journal) }
    ensures err { IfErr result (λ e. FailsReading e (record { bytes = S.left source.old; faults = S.faults source.old }) (record { bytes = S.left source.new; faults = S.faults source.new })) }
{
    let script = read_script(alloc, source)?;
    match store_after(alloc, script) {
        Ok(world) => Ok(world),
        Err(_) => Err(Status::NoMemory),
    }
}

/// Runs the source's script, and writes the journal to the sink.
fn show<S: Source, K: Sink>(alloc: Global, source: &mut S, sink: &mut K) -> Status
    ensures { ShowsAs result (record { bytes = S.left source.old; faults = S.faults source.old }) (record { bytes = S.left source.new; faults = S.faults source.new }) (record { bytes = K.written sink.old; faults = K.faults sink.old }) (record { bytes = K.written sink.new; faults = K.faults sink.new }) }
{
    let world = match run_source(alloc, source) {
        Ok(world) => world,
        Err(status) => return status,
    };
    match print_journal(alloc, world.journal()) {
        Ok(text) => match write_all(sink, &text) {
            Ok(()) => Status::Done,
            Err(_) => Status::WriteFault,
        },
        Err(_) => Status::NoMemory,
    }
}

/// The work of the command `journal`: reads a script from the source, runs it over an empty store, and writes the calls
/// of the store to the sink. How it ended is the exit status; its text goes to the errors sink.
pub fn run_journal<S: Source, K: Sink, E: Sink>(
    alloc: Global,
    source: &mut S,
    sink: &mut K,
    errors: &mut E,
) -> u8
    ensures { ShowsJournal result (record { bytes = S.left source.old; faults = S.faults source.old }) (record { bytes = S.left source.new; faults = S.faults source.new }) (record { bytes = K.written sink.old; faults = K.faults sink.old }) (record { bytes = K.written sink.new; faults = K.faults sink.new }) (record { bytes = E.written errors.old; faults = E.faults errors.old }) (record { bytes = E.written errors.new; faults = E.faults errors.new }) }
{
    let status = show(alloc, source, sink);
    let told = tell(alloc, status, errors);
    told.code()
}

/// Runs the source's script, and writes the objects into the folder.
fn fill<R: Files, S: Source>(rt: &R, alloc: Global, folder: &str, source: &mut S) -> Status
    ensures { FillsAs result (record { bytes = S.left source.old; faults = S.faults source.old }) (record { bytes = S.left source.new; faults = S.faults source.new }) }
{
    let world = match run_source(alloc, source) {
        Ok(world) => world,
        Err(status) => return status,
    };
    match write_objects(rt, alloc, folder, world) {
        Ok(()) => Status::Done,
        Err(Unwritten::Failed) => Status::WriteFault,
        Err(Unwritten::NoMemory) => Status::NoMemory,
    }
}

/// As `run_objects`, where the folder isn't there.
fn run_new_objects<R: Files, S: Source, E: Sink>(
    rt: &R,
    folder: &str,
    alloc: Global,
    source: &mut S,
    errors: &mut E,
) -> u8
    ensures { (s : AStatus) × (result ≡ code_of s) × FillsAs s (record { bytes = S.left source.old; faults = S.faults source.old }) (record { bytes = S.left source.new; faults = S.faults source.new })
        × Says (record { bytes = E.written errors.old; faults = E.faults errors.old }) (record { bytes = E.written errors.new; faults = E.faults errors.new }) (text_of s) }
{
    let status = fill(rt, alloc, folder, source);
    let told = tell(alloc, status, errors);
    told.code()
}

/// The work of the command `objects`: reads a script from the source, runs it over an empty store, makes the folder, and
/// writes each object under its name. How it ended is the exit status; its text goes to the errors sink. Where the folder
/// is there already, it is 8, and nothing is read.
pub fn run_objects<R: Files, S: Source, E: Sink>(
    rt: &R,
    alloc: Global,
    folder: &str,
    source: &mut S,
    errors: &mut E,
) -> u8
    ensures { FillsFolder result (record { bytes = S.left source.old; faults = S.faults source.old }) (record { bytes = S.left source.new; faults = S.faults source.new }) (record { bytes = E.written errors.old; faults = E.faults errors.old }) (record { bytes = E.written errors.new; faults = E.faults errors.new }) }
{
    if let Ok(true) = fs::exists(rt, folder) {
        say(errors, folder_text());
        return 8;
    }
    run_new_objects(rt, folder, alloc, source, errors)
}

/// The whole work of the program by the words of its command line. The answer is the exit status.
pub fn run<R: Files, S: Source, K: Sink, E: Sink>(
    rt: &R,
    alloc: Global,
    words: &[Text],
    source: &mut S,
    sink: &mut K,
    errors: &mut E,
) -> u8
    ensures journal { words_of words.now ≡ Some asks.Journal → ShowsJournal result (record { bytes = S.left source.old; faults = S.faults source.old }) (record { bytes = S.left source.new; faults = S.faults source.new }) (record { bytes = K.written sink.old; faults = K.faults sink.old }) (record { bytes = K.written sink.new; faults = K.faults sink.new }) (record { bytes = E.written errors.old; faults = E.faults errors.old }) (record { bytes = E.written errors.new; faults = E.faults errors.new }) }
    ensures objects { (folder : List ℕ) → words_of words.now ≡ Some (asks.Objects folder) → FillsFolder result (record { bytes = S.left source.old; faults = S.faults source.old }) (record { bytes = S.left source.new; faults = S.faults source.new }) (record { bytes = E.written errors.old; faults = E.faults errors.old }) (record { bytes = E.written errors.new; faults = E.faults errors.new }) × (K.written sink.new ≡ K.written sink.old) }
    ensures no_words { words_of words.now ≡ None → (result ≡ 2) × (S.left source.new ≡ S.left source.old) × (K.written sink.new ≡ K.written sink.old)
        × Says (record { bytes = E.written errors.old; faults = E.faults errors.old }) (record { bytes = E.written errors.new; faults = E.faults errors.new }) words_text }
{
    match read_words(words) {
        Ok(Some(Words::Journal)) => run_journal(alloc, source, sink, errors),
        Ok(Some(Words::Objects(folder))) => run_objects(rt, alloc, folder.as_str(), source, errors),
        Ok(None) => {
            say(errors, words_text());
            2
        }
        Err(_) => tell(alloc, Status::NoMemory, errors).code(),
    }
}
