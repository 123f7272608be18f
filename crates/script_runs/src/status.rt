//! How a run ends.
ghost use Rattle.std.specs.Prelude.{◌≡◌, IfOk};
ghost use Rattle.script_runs.specs.Status.{code_of, text_of, kind_text, IsFixed};

use row_base::NoMemory;
use script_text::{ScriptFault, ScriptFaultKind};
use std::alloc::Global;

/// How the run of a script ends.
#[derive(Clone, Copy, Debug, Drop, PartialEq, Eq)]
pub enum Status {
    /// All was written.
    Done,
    /// The source's bytes are no script.
    NoScript(ScriptFault),
    /// A read failed.
    ReadFault,
    /// A write failed.
    WriteFault,
    NoMemory,
    /// The source gives more bytes than a script may have.
    TooLong,
}

fn kind_text(kind: ScriptFaultKind) -> &'static [u8]
    ensures { result.now ≡ kind_text kind }
{
    match kind {
        ScriptFaultKind::Utf8 => b"utf8",
        ScriptFaultKind::Header => b"header",
        ScriptFaultKind::Form => b"form",
        ScriptFaultKind::Session => b"session",
        ScriptFaultKind::Limit => b"limit",
        ScriptFaultKind::NoMemory => b"memory",
    }
}

impl Status {
    /// The exit status.
    pub fn code(self) -> u8
        ensures { result ≡ code_of self }
    {
        match self {
            Status::Done => 0,
            Status::NoScript(_) => 3,
            Status::ReadFault => 4,
            Status::WriteFault => 5,
            Status::NoMemory => 6,
            Status::TooLong => 7,
        }
    }

    /// The text for the errors sink, but for a bad line's.
    pub fn fixed_text(self) -> &'static [u8]
        ensures { IsFixed self result.now }
    {
        match self {
            Status::Done => b"",
            Status::NoScript(_) => b"",
            Status::ReadFault => b"read failed\n",
            Status::WriteFault => b"write failed\n",
            Status::NoMemory => b"no memory\n",
            Status::TooLong => b"script longer than 16777216 bytes\n",
        }
    }
}

/// The text of a bad line. The error is want of memory.
pub fn fault_text(alloc: Global, fault: ScriptFault) -> Result<Vec<u8>, NoMemory>
    ensures { IfOk result (λ text. text.items ≡ text_of (Status.NoScript fault)) }
{
    let mut text = Vec::new(alloc);
    text.extend_from_slice(b"script: line ")?;
    let line = fault.line.to_string(alloc)?;
    text.extend_from_slice(line.as_bytes())?;
    text.extend_from_slice(b" ")?;
    text.extend_from_slice(kind_text(fault.kind))?;
    text.extend_from_slice(b"\n")?;
    Ok(text)
}
