//! Commits and data files that were got.
ghost use Rattle.std.specs.Prelude.{◌≡◌, Some, IfOk, IfErr, OnOk, OnErr};
ghost use Rattle.statement_calls.specs.Texts.{read_commit, commit_fault, read_file, file_fault};
ghost use Rattle.txn_machine.specs.Reading.{Extends, IsUnread, unread_by};

use call_phases::Unread;
use edge_api::Body;
use line_texts::{TextFault, read_add, read_columns, read_rows};
use op_types::{LogFaultKind, ObjectFault};
use row_base::Rows;
use snapshot_replay::State;
use std::alloc::Global;

fn fault_of(fault: TextFault) -> Unread<ObjectFault>
    ensures { result ≡ unread_by fault }
{
    match fault {
        TextFault::Line(line) => Unread::Bad(ObjectFault::Line {
            line,
            kind: LogFaultKind::Shape,
        }),
        TextFault::NoMemory => Unread::NoMemory,
    }
}

/// Applies a version's commit to the table. After an error nothing has changed.
pub fn apply_commit(
    alloc: Global,
    state: &mut State,
    version: u64,
    text: &Body,
) -> Result<(), Unread<ObjectFault>>
    ensures ok { OnOk result (Extends (read_commit version text.now) state.old state.new) }
    ensures err { IfErr result (IsUnread (read_commit version text.now) (commit_fault version text.now)) }
    ensures same { OnErr result (state.new ≡ state.old) }
{
    if version == 0 {
        match read_columns(alloc, text.as_bytes()) {
            Ok(columns) => {
                state.set_columns(columns);
                Ok(())
            }
            Err(fault) => Err(fault_of(fault)),
        }
    } else {
        match read_add(alloc, text.as_bytes()) {
            Ok(path) => match state.add_file(path) {
                Ok(()) => Ok(()),
                Err(_) => Err(Unread::NoMemory),
            },
            Err(fault) => Err(fault_of(fault)),
        }
    }
}

/// The rows of a data file.
pub fn rows_of_file(alloc: Global, text: &Body) -> Result<Rows, Unread<ObjectFault>>
    ensures ok { IfOk result (λ rows. read_file text.now ≡ Some rows) }
    ensures err { IfErr result (IsUnread (read_file text.now) (file_fault text.now)) }
{
    match read_rows(alloc, text.as_bytes()) {
        Ok(rows) => Ok(rows),
        Err(fault) => Err(fault_of(fault)),
    }
}
