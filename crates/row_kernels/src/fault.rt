//! Why a kernel gives nothing.

use dml_ops::OpFault;
use merge_op::MergeFault;
use prune::PartitionFault;
use row_base::NoMemory;
use thiserror::Error;

/// Why a kernel gives nothing.
#[derive(Debug, Drop, Error)]
pub enum RowKernelFault {
    #[error("the change failed: {0:?}")]
    Change(OpFault),
    #[error("the merge failed: {0:?}")]
    Merge(MergeFault),
    #[error("what is known of a file can't be told: {0:?}")]
    File(PartitionFault),
    #[error("out of memory")]
    Memory(NoMemory),
}
