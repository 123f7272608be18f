//! Why the bytes of a log object have no reading.
ghost use Rattle.std.specs.Prelude.{◌≡◌};
ghost use Rattle.log_actions.specs.declared.fault.LogFaultKind.TheVariants as kinds;

use row_base::{NoMemory, Text};

/// What a table may ask for and isn't supported.
#[derive(Debug, Drop)]
pub enum Feature {
    /// Versions of the protocol.
    Protocol { reader: u64, writer: u64 },
    /// A feature by its name.
    Named { name: Text },
    /// A value of a property.
    Property { key: Text },
    /// A path with a scheme or a leading slash.
    AbsolutePath,
    DeletionVector,
    /// A codec of pages, by its number.
    Codec { codec: i32 },
    /// An encoding of pages, by its number.
    Encoding { encoding: i32 },
    /// A type of pages, by its number.
    PageKind { kind: i32 },
    /// The type of a column.
    ColumnType { name: Text },
    /// A checkpoint of another form.
    CheckpointForm,
    Sidecar,
    NestedColumns,
    Timestamp,
    /// A newest version of 1,048,576 or more.
    Versions,
}

/// How a line is wrong. Of several the first here is named.
#[derive(Debug, Drop)]
pub enum LogFaultKind {
    /// It is no JSON text of an object.
    Json,
    /// Not exactly one member, a needed member that is absent, or a value of the wrong kind. At line 1 also: the text
    /// has more than 64 MiB.
    Shape,
    /// A second protocol, metadata, transaction of one application, or action on one path.
    Twice,
    /// It asks for what isn't supported.
    Unsupported(Feature),
    /// Memory ran out while it was read.
    NoMemory,
}

/// The first line that is wrong, counted from 1.
#[derive(Debug, Drop)]
pub struct LogFault {
    pub line: u32,
    pub kind: LogFaultKind,
}

impl From<NoMemory> for LogFaultKind {
    ghost from_gives = { λ _ k. k ≡ kinds.NoMemory };

    fn from(_refused: NoMemory) -> LogFaultKind {
        LogFaultKind::NoMemory
    }
}
