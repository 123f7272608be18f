//! How a run ended is told to a sink of errors.
ghost use Rattle.std.specs.Prelude.{◌≡◌};
ghost use Rattle.script_runs.specs.Status.{text_of, IsTold, IsMade};
ghost use Rattle.script_runs.specs.Reading.{Says};

use crate::status::{Status, fault_text};
use edge_api::{Sink, write_all};
use std::alloc::Global;

/// How a run ended, with the text of a bad line.
#[derive(Drop)]
struct Told {
    status: Status,
    made: Vec<u8>,
}

/// Makes the text of a bad line; where memory is wanting for it, that is how the run ended.
fn settle(alloc: Global, status: Status) -> Told
    ensures told { IsTold status result.status }
    ensures made { IsMade result.status result.made.items }
{
    match status {
        Status::NoScript(fault) => match fault_text(alloc, fault) {
            Ok(made) => Told { status, made },
            Err(_) => Told {
                status: Status::NoMemory,
                made: Vec::new(alloc),
            },
        },
        _ => Told {
            status,
            made: Vec::new(alloc),
        },
    }
}

/// The text that tells the errors sink how the run ended.
fn text(told: &Told) -> &[u8]
    requires { IsMade told.now.status told.now.made.items }
    ensures { result.now ≡ text_of told.now.status }
{
    match told.status {
        Status::NoScript(_) => &told.made,
        status => status.fixed_text(),
    }
}

/// Says a text. Where the sink fails it is cut off.
pub fn say<E: Sink>(errors: &mut E, text: &[u8])
    ensures { Says (record { bytes = E.written errors.old; faults = E.faults errors.old }) (record { bytes = E.written errors.new; faults = E.faults errors.new }) text.now }
{
    let _ = write_all(errors, text);
}

/// Says how a run ended, and gives the status. Where memory is wanting for the text of a bad line, that is the status.
pub fn tell<E: Sink>(alloc: Global, status: Status, errors: &mut E) -> Status
    ensures told { IsTold status result }
    ensures says { Says (record { bytes = E.written errors.old; faults = E.faults errors.old }) (record { bytes = E.written errors.new; faults = E.faults errors.new }) (text_of result) }
{
    let told = settle(alloc, status);
    say(errors, text(&told));
    told.status
}
