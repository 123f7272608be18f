//! The words of the command line.
ghost use Rattle.std.specs.Prelude.{◌≡◌, IfOk, IfErr, OnErr};
ghost use Rattle.script_runs.specs.declared.status.Status.TheVariants.{NoMemory as no_memory};
ghost use Rattle.script_runs.specs.Status.{code_of, text_of};
ghost use Rattle.script_runs.specs.Reading.{Says};

use crate::status::Status;
use crate::telling::say;
use edge_api::Sink;
use row_base::{NoMemory, Text};
use std::env;
use std::io::ErrorKind;

/// As `words_or_status`. The error is want of memory.
fn given_words(rt: &HostRuntime) -> Result<Vec<Text>, NoMemory> {
    let mut words = Vec::new(rt.alloc());
    match env::args(rt) {
        Ok(given) => {
            for word in given.skip(1) {
                words.push(Text::from_string(word)?)?;
            }
            Ok(words)
        }
        Err(error) if error.kind() == ErrorKind::OutOfMemory => Err(NoMemory),
        Err(_) => Ok(words),
    }
}

/// The words behind the program's name. Words that aren't text are accepted as little as none at all, so they count as
/// none. Where memory is wanting that is said, and the error is the exit status.
pub fn words_or_status<E: Sink>(rt: &HostRuntime, errors: &mut E) -> Result<Vec<Text>, u8>
    ensures quiet { IfOk result (λ words. errors.new ≡ errors.old) }
    ensures status { IfErr result (λ status. status ≡ code_of no_memory) }
    ensures says { OnErr result (Says (record { bytes = E.written errors.old; faults = E.faults errors.old }) (record { bytes = E.written errors.new; faults = E.faults errors.new }) (text_of no_memory)) }
{
    match given_words(rt) {
        Ok(words) => Ok(words),
        Err(NoMemory) => {
            say(errors, Status::NoMemory.fixed_text());
            Err(Status::NoMemory.code())
        }
    }
}
