//! The kernels that are timed.
ghost use Rattle.row_base.specs.Faults.{Reads};
ghost use Rattle.row_kernels.specs.Kernels as spec;

use crate::asked::{run_asked, run_keys, run_known};
use crate::changes::run_change;
use crate::fault::RowKernelFault;
use crate::kernel::RowKernel;
use crate::merges::run_merge;
use crate::rows::run_made;
use crate::truths::{run_plain, run_truth};
use std::alloc::Global;

/// How many files are asked in each round.
const FILES: u32 = 50_000;

/// How many files are asked for keys.
const KEY_FILES: u32 = 100;

/// What a kernel counts over so many rows, rounds or keys.
pub fn run(alloc: Global, kernel: RowKernel, count: u32) -> Result<u64, RowKernelFault>
    ensures { Reads spec.is_memory result (spec.answer_of kernel count) }
{
    match kernel {
        RowKernel::Made => run_made(alloc, count).map_err(RowKernelFault::Memory),
        RowKernel::Truth => run_truth(alloc, count).map_err(RowKernelFault::Memory),
        RowKernel::Plain => run_plain(alloc, count).map_err(RowKernelFault::Memory),
        RowKernel::Change(change) => {
            run_change(alloc, change, count).map_err(RowKernelFault::Change)
        }
        RowKernel::Merge => run_merge(alloc, count).map_err(RowKernelFault::Merge),
        RowKernel::Asked => run_asked(alloc, FILES, count).map_err(RowKernelFault::File),
        RowKernel::Known => run_known(alloc, FILES, count).map_err(RowKernelFault::File),
        RowKernel::Keys => run_keys(alloc, KEY_FILES, count).map_err(RowKernelFault::File),
    }
}
