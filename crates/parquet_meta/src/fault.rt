//! Why a file has no reading.
ghost use Rattle.std.specs.Prelude.{◌≡◌};
ghost use Rattle.parquet_meta.specs.declared.fault.FileFault.TheVariants as faults;

use row_base::{OutOfMemory, Text};
use thiserror::Error;

/// Why a file has no reading: the first fault met in reading.
#[derive(Debug, Drop, PartialEq, Eq, Error)]
pub enum FileFault {
    /// The file has fewer than 12 bytes or more than `MAX_OBJECT_BYTES`.
    #[error("a file of fewer than 12 bytes or more than 67,108,864")]
    Short,
    /// The first or the last four bytes are not `PAR1`.
    #[error("no magic")]
    Magic,
    /// The footer's length and 12 pass the file's length.
    #[error("a footer longer than the file")]
    Footer,
    /// A fault of the Thrift compact protocol, a used field of another type, a used text that isn't UTF-8, or a struct
    /// without a needed field.
    #[error("the metadata can't be read at {at}")]
    Thrift {
        /// The place in the file, in bytes.
        at: usize,
    },
    /// A column that the schema or the row groups don't describe as they must.
    #[error("the shape of a column")]
    Shape {
        /// The name of the column, or of the schema element.
        column: Text,
    },
    /// A page whose bytes can't be read.
    #[error("the page at {at}")]
    Page {
        /// The place in the file of the page's head, or of its body.
        at: usize,
    },
    /// A codec that isn't read.
    #[error("codec {codec}")]
    Codec {
        /// Its number in the format.
        codec: i32,
    },
    /// An encoding that isn't read.
    #[error("encoding {encoding}")]
    Encoding {
        /// Its number in the format.
        encoding: i32,
    },
    /// A type of page that isn't read.
    #[error("page type {kind}")]
    PageKind {
        /// Its number in the format.
        kind: i32,
    },
    /// A column of another physical type.
    #[error("the type of a column")]
    Physical {
        /// The name of the column.
        column: Text,
    },
    /// A group below the root of the schema.
    #[error("a nested column")]
    Nested,
    /// Memory ran out.
    #[error("out of memory")]
    NoMemory,
}

impl<E: OutOfMemory> From<E> for FileFault {
    ghost from_gives = { λ _ e. e ≡ faults.NoMemory };

    fn from(_refused: E) -> FileFault {
        FileFault::NoMemory
    }
}
