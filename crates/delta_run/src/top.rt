//! The top call.
ghost use Rattle.std.specs.Prelude.{◌≡◌, ◌≢◌, None};
ghost use Rattle.actor_core.specs.Faults.{FaultsAreCounted};
ghost use Rattle.script_runs.specs.declared.status.Status.{Status as AStatus};
ghost use Rattle.script_runs.specs.Status.{code_of, text_of};
ghost use Rattle.script_runs.specs.Reading.{Says};
ghost use Rattle.delta_run.specs.Top.{EndsAs};
ghost use Rattle.delta_run.specs.Words.{words_of, words_text};

use crate::play::play;
use crate::words::{Words, read_words, words_text};
use edge_api::{Gate, Sink, Source, World, write_all};
use row_base::Text;
use script_runs::{Status, read_script, say, tell};
use std::alloc::Global;
use std::sync::Wait;
use std::thread::Threads;

/// How a run ended, and the store that it used.
#[derive(Drop)]
pub struct Finished<W> {
    /// 0: all replies were written. 2: the words aren't accepted. 3: the bytes are no script. 4: a read failed.
    /// 5: a write failed. 6: want of memory. 7: the script is too long.
    pub status: u8,
    pub world: W,
}

/// Reads a script, runs it over the store and prints the replies.
fn serve<S: Source, K: Sink, W: World>(
    alloc: Global,
    source: &mut S,
    sink: &mut K,
    world: &mut W,
) -> Status
    ensures ends { EndsAs result (record { source = record { bytes = S.left source.old; faults = S.faults source.old }; journal = W.journal world.old; sink = record { bytes = K.written sink.old; faults = K.faults sink.old } })
        (record { source = record { bytes = S.left source.new; faults = S.faults source.new }; journal = W.journal world.new; sink = record { bytes = K.written sink.new; faults = K.faults sink.new } }) }
    ensures counted { FaultsAreCounted (W.journal world.old) (W.journal world.new) (W.faults world.old) (W.faults world.new) }
{
    let script = match read_script(alloc, source) {
        Ok(script) => script,
        Err(status) => return status,
    };
    match play(alloc, script, world) {
        Ok(text) => match write_all(sink, &text) {
            Ok(()) => Status::Done,
            Err(_) => Status::WriteFault,
        },
        Err(_) => Status::NoMemory,
    }
}

/// The work of the command `step`: reads a script from the source, runs its sessions over the store in the order of
/// its schedule, and writes the replies to the sink. How it ended is the status; its text goes to the errors sink.
pub fn run_step<S: Source, K: Sink, E: Sink, W: World>(
    alloc: Global,
    source: &mut S,
    sink: &mut K,
    errors: &mut E,
    world: W,
) -> Finished<W>
    ensures ends { (s : AStatus) × (result.status ≡ code_of s)
        × EndsAs s (record { source = record { bytes = S.left source.old; faults = S.faults source.old }; journal = W.journal world; sink = record { bytes = K.written sink.old; faults = K.faults sink.old } })
        (record { source = record { bytes = S.left source.new; faults = S.faults source.new }; journal = W.journal result.world; sink = record { bytes = K.written sink.new; faults = K.faults sink.new } })
        × Says (record { bytes = E.written errors.old; faults = E.faults errors.old }) (record { bytes = E.written errors.new; faults = E.faults errors.new }) (text_of s) }
    ensures counted { FaultsAreCounted (W.journal world) (W.journal result.world) (W.faults world) (W.faults result.world) }
{
    let mut world = world;
    let status = serve(alloc, source, sink, &mut world);
    let told = tell(alloc, status, errors);
    Finished {
        status: told.code(),
        world,
    }
}

/// The whole work of the program by the words of its command line. The runtime and the gate are for commands that run
/// sessions in threads, and there are none yet.
pub fn run<R: Threads + Wait + Sync, S: Source, K: Sink, E: Sink, W: World + Send, G: Gate + Sync>(
    _rt: &R,
    alloc: Global,
    words: &[Text],
    source: &mut S,
    sink: &mut K,
    errors: &mut E,
    world: W,
    _gate: &G,
) -> Finished<W>
    ensures step { words_of words.now ≢ None → (s : AStatus) × (result.status ≡ code_of s)
        × EndsAs s (record { source = record { bytes = S.left source.old; faults = S.faults source.old }; journal = W.journal world; sink = record { bytes = K.written sink.old; faults = K.faults sink.old } })
        (record { source = record { bytes = S.left source.new; faults = S.faults source.new }; journal = W.journal result.world; sink = record { bytes = K.written sink.new; faults = K.faults sink.new } })
        × Says (record { bytes = E.written errors.old; faults = E.faults errors.old }) (record { bytes = E.written errors.new; faults = E.faults errors.new }) (text_of s) }
    ensures no_words { words_of words.now ≡ None → (result.status ≡ 2) × (W.journal result.world ≡ W.journal world) × (K.written sink.new ≡ K.written sink.old) × (S.left source.new ≡ S.left source.old)
        × Says (record { bytes = E.written errors.old; faults = E.faults errors.old }) (record { bytes = E.written errors.new; faults = E.faults errors.new }) words_text }
    ensures counted { FaultsAreCounted (W.journal world) (W.journal result.world) (W.faults world) (W.faults result.world) }
{
    match read_words(words) {
        Some(Words::Step) => run_step(alloc, source, sink, errors, world),
        None => {
            say(errors, words_text());
            Finished { status: 2, world }
        }
    }
}
