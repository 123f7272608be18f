//! Why a kernel gives nothing.
ghost use Rattle.std.specs.Prelude.{◌≡◌};
ghost use Rattle.format_kernels.specs.declared.fault.KernelFault.TheVariants as fault;

use bit_pack::PackFault;
use parquet_meta::FileFault;
use row_base::OutOfMemory;
use thiserror::Error;

/// Why a kernel gives nothing.
#[derive(Debug, Drop, Error)]
pub enum KernelFault {
    #[error("out of memory")]
    NoMemory,
    #[error("the kernel failed: {0}")]
    Pack(PackFault),
    #[error("line {0} of the commit has no reading")]
    Line(u32),
    #[error("no file holds these rows")]
    Rows,
    #[error("the file that was written can't be read: {0}")]
    Parquet(FileFault),
}

impl<E: OutOfMemory> From<E> for KernelFault {
    ghost from_gives = { λ _ e. e ≡ fault.NoMemory };

    fn from(_refused: E) -> KernelFault {
        KernelFault::NoMemory
    }
}
