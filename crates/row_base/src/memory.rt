//! The answer that memory ran out.

use std::alloc::{AllocError, AllocFailed};
use thiserror::Error;

/// No memory was left for what a call makes.
#[derive(Clone, Copy, Debug, Drop, PartialEq, Eq, Error)]
#[error("out of memory")]
pub struct NoMemory;

impl From<AllocError> for NoMemory {
    fn from(_refused: AllocError) -> NoMemory {
        NoMemory
    }
}

impl<T: Drop> From<AllocFailed<T>> for NoMemory {
    fn from(_refused: AllocFailed<T>) -> NoMemory {
        NoMemory
    }
}

/// An answer that says that memory ran out, and nothing else. A type of faults is made from each of them by one `From`.
pub trait OutOfMemory: Drop {}

impl OutOfMemory for NoMemory {}

impl OutOfMemory for AllocError {}

impl<T: Drop> OutOfMemory for AllocFailed<T> {}
