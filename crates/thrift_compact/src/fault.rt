//! What can be wrong with the bytes.

use thiserror::Error;

/// What can be wrong with the bytes; the first fault met in reading.
#[derive(Clone, Copy, Debug, Drop, PartialEq, Eq, Error)]
pub enum ThriftFault {
    /// The bytes end inside a value.
    #[error("the bytes end at {at}")]
    Short {
        /// The place where the bytes end.
        at: usize,
    },
    /// A wire type that the protocol doesn't have.
    #[error("an unknown wire type at {at}")]
    Wire {
        /// The place of the byte that holds the type.
        at: usize,
    },
    /// A varint of more than ten bytes or 64 bits, a length or size of more than 32 bits, or a field id of more than 16.
    #[error("a number that is too long at {at}")]
    Long {
        /// The place of the varint's first byte, or of the field's first byte where it is an id.
        at: usize,
    },
    /// More than sixteen values inside one another.
    #[error("too many levels at {at}")]
    Deep {
        /// The place of the first byte of the value that is too deep.
        at: usize,
    },
}
