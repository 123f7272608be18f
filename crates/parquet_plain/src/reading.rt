//! The rows of a file.
ghost use Rattle.std.specs.Prelude.{◌≡◌, IfOk};
ghost use Rattle.parquet_meta.specs.Faults.{Reads};
ghost use Rattle.parquet_plain.specs.Reading as spec;

use crate::groups::groups_rows;
use crate::tree::read_tree;
use parquet_meta::{FileFault, read_footer};
use row_base::{NoMemory, Rows, Schema, Text};
use std::alloc::Global;

/// The name of the first column that is no partition column.
fn first_name(alloc: Global, schema: &Schema) -> Result<Text, NoMemory>
    ensures { IfOk result (λ t. t ≡ spec.first_name schema.now.partition 0 schema.now.columns) }
{
    for (i, column) in schema.columns().iter().enumerate() {
        if !schema.is_partition(i as u32) {
            return column.name.copy();
        }
    }
    Text::make(alloc, "")
}

/// The rows of a Parquet file for a table of this schema (Parquet format, README.md, "File format"). Columns are found by
/// name; partition columns, and columns that the file lacks and that may be null, are null in each row.
///
/// The fault is the first one in reading order: the footer (`Short`, `Magic`, `Footer`, `Thrift`), the schema's elements in
/// order (`Nested`, `Physical`, `Shape` with the element's name), then the row groups in order, and in each the columns in
/// the schema's order: the chunk (`Physical`, `Codec`, `Shape` with the column's name) and its pages (`Thrift`, `Page` at
/// the place of a head or of a body, `Encoding`, `PageKind`, `Shape`). A group with which there are more than
/// `MAX_FILE_ROWS` rows is `Shape` of the first column that is no partition column.
#[tactic(auto, unfolding(crate::specs::Reading::file_rows))]
pub fn read_file(alloc: Global, schema: &Schema, bytes: &[u8]) -> Result<Rows, FileFault>
    ensures { Reads result (spec.file_rows schema.now bytes.now) }
{
    let meta = read_footer(alloc, bytes)?;
    let sources = read_tree(alloc, schema, meta.schema.as_slice())?;
    let name = first_name(alloc, schema)?;
    groups_rows(alloc, &name, &sources, bytes, meta.row_groups.as_slice())
}
