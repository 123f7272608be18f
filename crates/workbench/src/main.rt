//! The workbench of the formats.
//!
//! `time KERNEL N` runs a kernel over data that it makes, and prints a number alone. `unpack-W` and `pack-W`, for a width W
//! from 0 to 32, run N times and print a checksum. `log-write` writes a commit of N added files with statistics and prints
//! the number of its bytes; `log-read` does so, reads it and prints the number of its actions. `parquet-STEP-TABLE` makes N
//! rows of a table (`longs`, `words` with a hundred texts, `texts` without repeats, `booleans` with nulls), goes on to the
//! step (`rows` no further, `write` to the file, `copy` to a copy of its bytes, `read` to the rows that it reads as), and
//! prints the number of rows or bytes. `rows-WORK` makes N rows of two longs `id` and `v` in memory and prints their
//! number (`made`), or that of those with `v > 5 and id <> 3`, by a predicate (`truth`) or by comparisons written out
//! (`plain`), or how many rows there are after these are deleted or updated (`delete`, `update`), or after a tenth as
//! many rows are merged in by `id` (`merge`). `files-WORK` prints how many files may match a predicate: 50,000 files,
//! summed over N rounds, by facts that are made once (`asked`) or in each round (`known`), or a hundred files, which are
//! asked for one of N keys (`keys`).
//!
//! `read FORMAT FILE` prints what a file reads as, or its fault; the formats are `hybrid` (one byte of width, four bytes of
//! count, lowest first, and then the hybrid), `thrift` (a struct) and `parquet` (a Parquet file, for a table of its own
//! columns).
//!
//! Where the words aren't accepted the status is 2, where the file can't be read or another call fails it is 1, and a
//! line on standard error says why.
#![tactic(auto)]

mod failed;
mod parquet;
mod reading;
mod words;

ghost use Rattle.std.specs.Prelude.{◌≡◌};
ghost use Rattle.workbench.specs.Status.{status_of};

use crate::failed::Failed;
use crate::words::{Command, Timed, WordsFault, command_of};
use std::alloc::Global;
use std::process::ExitCode;
use std::{env, fs};

/// The exit status of a failure.
fn status_of(failed: &Failed) -> u8
    ensures { result ≡ status_of failed.now }
{
    match failed {
        Failed::Words(_) => 2,
        _ => 1,
    }
}

/// What the kernel that is timed gives.
fn answer_of(alloc: Global, timed: Timed, number: u32) -> Result<u64, Failed> {
    match timed {
        Timed::Format(kernel) => format_kernels::run(alloc, kernel, number).map_err(Failed::Kernel),
        Timed::Rows(kernel) => row_kernels::run(alloc, kernel, number).map_err(Failed::Rows),
    }
}

/// Does what the words ask for.
fn obey(rt: &HostRuntime) -> Result<(), Failed> {
    let alloc = rt.alloc();
    let mut words = Vec::new(alloc);
    for word in env::args(rt).map_err(|_| Failed::Words(WordsFault::Count))? {
        words.push(word)?;
    }
    let [_, word, name, last] = words.as_slice() else {
        return Err(Failed::Words(WordsFault::Count));
    };
    let command = command_of(word.as_str(), name.as_str(), last.as_str()).map_err(Failed::Words)?;
    match command {
        Command::Time(timed, number) => {
            let answer = answer_of(alloc, timed, number)?;
            println!(rt; "{answer}").map_err(Failed::Print)
        }
        Command::Read(format) => {
            let bytes = fs::read(rt, last.as_str()).map_err(Failed::File)?;
            let text = reading::text_of(alloc, format, bytes.as_slice())?;
            println!(rt; "{text}").map_err(Failed::Print)
        }
    }
}

fn main(rt: HostRuntime) -> ExitCode {
    match obey(&rt) {
        Ok(()) => ExitCode::SUCCESS,
        Err(failed) => {
            let status = status_of(&failed);
            match eprintln!(rt; "workbench: {failed}") {
                Ok(()) => ExitCode::from(status),
                Err(_) => ExitCode::from(1),
            }
        }
    }
}
