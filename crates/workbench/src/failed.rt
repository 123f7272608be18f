//! Why nothing was printed.

use crate::words::WordsFault;
use format_kernels::KernelFault;
use row_base::OutOfMemory;
use row_kernels::RowKernelFault;
use std::io;
use thiserror::Error;

/// Why nothing was printed.
#[derive(Debug, Drop, Error)]
pub enum Failed {
    #[error("{0}")]
    Words(WordsFault),
    #[error("{0}")]
    Kernel(KernelFault),
    #[error("{0}")]
    Rows(RowKernelFault),
    #[error("the file can't be read: {0}")]
    File(io::Error),
    #[error("the answer can't be printed: {0}")]
    Print(io::Error),
}

impl<E: OutOfMemory> From<E> for Failed {
    fn from(refused: E) -> Failed {
        Failed::Kernel(KernelFault::from(refused))
    }
}
