//! What the kernels count, worked out by hand.

use format_kernels::{Kernel, Step, Table};
use row_kernels::{RowChange, RowKernel};
use std::alloc::Global;
use std::test::Fail;

/// Kernels of formats, how many each runs over, and what it counts. The line of one added file has 266 bytes.
const FORMATS: [(Kernel, u32, u64); 6] = [
    (Kernel::LogWrite, 2, 532),
    (Kernel::LogRead, 2, 2),
    (Kernel::Parquet(Step::Rows, Table::Longs), 3, 3),
    (Kernel::Parquet(Step::Read, Table::Words), 3, 3),
    (Kernel::Parquet(Step::Read, Table::Texts), 3, 3),
    (Kernel::Parquet(Step::Read, Table::Booleans), 3, 3),
];

/// The same of rows. Of twenty rows eight have `v > 5 and id <> 3`, and of the two rows that are merged one has an `id`
/// that is new. Half of the files begin with an `id` of 250,000 or more, and the first twenty keys are in two files.
const ROWS: [(RowKernel, u32, u64); 9] = [
    (RowKernel::Made, 20, 20),
    (RowKernel::Truth, 20, 8),
    (RowKernel::Plain, 20, 8),
    (RowKernel::Change(RowChange::Delete), 20, 12),
    (RowKernel::Change(RowChange::Update), 20, 20),
    (RowKernel::Merge, 20, 21),
    (RowKernel::Asked, 2, 50_000),
    (RowKernel::Known, 1, 25_000),
    (RowKernel::Keys, 20, 2),
];

#[test]
fn kernels_of_formats_count_so_many(rt: HostRuntime) -> Result<(), Fail> {
    let alloc = rt.alloc();
    for &(kernel, number, count) in &FORMATS {
        let counted = format_kernels::run(alloc, kernel, number).ok();
        assert!(rt; counted == Some(count));
    }
    Ok(())
}

#[test]
fn kernels_of_rows_count_so_many(rt: HostRuntime) -> Result<(), Fail> {
    let alloc = rt.alloc();
    for &(kernel, number, count) in &ROWS {
        let counted = row_kernels::run(alloc, kernel, number).ok();
        assert!(rt; counted == Some(count));
    }
    Ok(())
}
