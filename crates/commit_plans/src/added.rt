//! Data files that a statement adds.
ghost use Rattle.std.specs.Prelude.{◌≡◌, IfOk};
ghost use Rattle.commit_plans.specs.Plans as spec;

use log_actions::{AddFile, PartitionMap};
use row_base::{NoMemory, Text};

/// The action that adds a data file of this name, with the values of its partition columns, its size in bytes, the
/// statement's start (in milliseconds since 1970) and the statistics. The name has no character that a path escapes. The
/// error is want of memory.
pub fn added_file(
    name: Text,
    partition_values: PartitionMap,
    size: u64,
    start: u64,
    stats: Option<Text>,
) -> Result<AddFile, NoMemory>
    ensures { IfOk result (λ f. f ≡ spec.added_file name partition_values size start stats) }
{
    Ok(AddFile {
        path: name.copy()?,
        name,
        partition_values,
        size,
        modification_time: start,
        data_change: true,
        stats,
        tags: None,
    })
}
