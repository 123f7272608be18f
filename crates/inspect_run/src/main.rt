//! Shows what the run of a script did: its calls of the store, or the objects that it leaves.
#![tactic(auto)]

use edge_api::{StdSink, StdSource};
use inspection::run;
use script_runs::words_or_status;
use std::process::ExitCode;

fn main(rt: HostRuntime) -> ExitCode {
    let mut source = StdSource::new(rt.stdin());
    let mut sink = StdSink::new(rt.stdout());
    let mut errors = StdSink::new(rt.stderr());
    ExitCode::from(match words_or_status(&rt, &mut errors) {
        Ok(words) => run(&rt, rt.alloc(), &words, &mut source, &mut sink, &mut errors),
        Err(status) => status,
    })
}
