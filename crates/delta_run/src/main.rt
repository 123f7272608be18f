//! Runs a script of sessions over a Delta table.
#![tactic(auto)]

mod play;
#[cfg(test)]
mod tests;
mod top;
mod words;

use crate::top::{Finished, run};
use edge_api::{Gate, StdSink, StdSource, Tag};
use script_runs::{new_store, words_or_status};
use std::process::ExitCode;

/// A gate that keeps nobody.
struct OpenGate;

impl Gate for OpenGate {
    fn enter(&self, _tag: Tag) {}

    fn leave(&self, _tag: Tag) {}
}

fn main(rt: HostRuntime) -> ExitCode {
    let mut source = StdSource::new(rt.stdin());
    let mut sink = StdSink::new(rt.stdout());
    let mut errors = StdSink::new(rt.stderr());
    let words = match words_or_status(&rt, &mut errors) {
        Ok(words) => words,
        Err(status) => return ExitCode::from(status),
    };
    let world = new_store(rt.alloc());
    let Finished { status, .. } = run(
        &rt,
        rt.alloc(),
        &words,
        &mut source,
        &mut sink,
        &mut errors,
        world,
        &OpenGate,
    );
    ExitCode::from(status)
}
