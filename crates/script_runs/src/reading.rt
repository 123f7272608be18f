//! A script is read from a source.
ghost use Rattle.std.specs.Prelude.{◌≤◌, length, IfOk, IfErr};
ghost use Rattle.edge_api.specs.Streams.{ReadsAll};
ghost use Rattle.script_text.specs.Scripts.{SpellsScript};
ghost use Rattle.script_text.specs.Fit.{IsFit};
ghost use Rattle.script_runs.specs.Reading.{limit, ReadsScript, FailsReading, FailsParsing};

use crate::status::Status;
use edge_api::{ReadError, Source, read_all};
use row_base::limits::MAX_SCRIPT_BYTES;
use script_text::{Script, ScriptFaultKind, parse_script};
use std::alloc::Global;

/// Reads a source to its end. The error is the status.
fn read_bytes<S: Source>(alloc: Global, source: &mut S) -> Result<Vec<u8>, Status>
    ensures ok { IfOk result (λ v. ReadsAll (S.left source.old) (S.left source.new) v.items) }
    ensures bound { IfOk result (λ v. length v.items ≤ limit) }
    ensures err { IfErr result (λ e. FailsReading e (record { bytes = S.left source.old; faults = S.faults source.old }) (record { bytes = S.left source.new; faults = S.faults source.new })) }
{
    match read_all(alloc, source, MAX_SCRIPT_BYTES) {
        Ok(bytes) => Ok(bytes),
        Err(ReadError::Failed) => Err(Status::ReadFault),
        Err(ReadError::TooLong) => Err(Status::TooLong),
        Err(ReadError::NoMemory) => Err(Status::NoMemory),
    }
}

/// The script that the bytes spell. The error is the status.
fn parse(alloc: Global, bytes: &[u8]) -> Result<Script, Status>
    requires { length bytes.now ≤ limit }
    ensures ok { IfOk result (SpellsScript bytes.now) }
    ensures fit { IfOk result IsFit }
    ensures err { IfErr result (FailsParsing bytes.now) }
{
    match parse_script(alloc, bytes) {
        Ok(script) => Ok(script),
        Err(fault) => match fault.kind {
            ScriptFaultKind::NoMemory => Err(Status::NoMemory),
            _ => Err(Status::NoScript(fault)),
        },
    }
}

/// Reads a source to its end, of at most `MAX_SCRIPT_BYTES`, as a script. The error is the status: `NoScript`,
/// `ReadFault`, `TooLong` or `NoMemory`.
pub fn read_script<S: Source>(alloc: Global, source: &mut S) -> Result<Script, Status>
    ensures ok { IfOk result (ReadsScript (record { bytes = S.left source.old; faults = S.faults source.old }) (record { bytes = S.left source.new; faults = S.faults source.new })) }
    ensures fit { IfOk result IsFit }
    ensures err { IfErr result (λ e. FailsReading e (record { bytes = S.left source.old; faults = S.faults source.old }) (record { bytes = S.left source.new; faults = S.faults source.new })) }
{
    let bytes = read_bytes(alloc, source)?;
    parse(alloc, &bytes)
}
