//! The row groups of a file that is written (parquet.thrift, `RowGroup`).
ghost use Rattle.std.specs.Prelude.{◌≡◌, ◌++◌, ◌<◌, ◌≤◌, length, take, drop, IfOk, OnOk};
ghost use Rattle.std.specs.List.{All};
ghost use Rattle.row_base.specs.Schema.{FitsSchema};
ghost use Rattle.parquet_plain.specs.Written as spec;

use crate::chunk_writer::{append_chunk, column_values};
use parquet_meta::{ColumnChunk, RowGroup};
use row_base::{Items, NoMemory, RowSlice, Schema};
use std::alloc::Global;

/// The most rows of a group.
const GROUP_ROWS: usize = 16_384;

/// The same rows, once more.
#[tactic(auto, using(crate::proofs::Parts::take_length))]
fn again<'a>(rows: &RowSlice<'a>) -> RowSlice<'a>
    ensures { result ≡ rows.now }
{
    let (all, _none) = rows.split_at(rows.len());
    all
}

/// The chunks of the data columns, and what the footer says of them.
fn append_chunks(
    alloc: Global,
    schema: &Schema,
    rows: &RowSlice<'_>,
    out: &mut Vec<u8>,
) -> Result<Vec<ColumnChunk>, NoMemory>
    requires few { length rows.now ≤ spec.group_rows_most }
    requires fits { All (FitsSchema schema.now) rows.now }
    ensures text { OnOk result (out.new.items ≡ out.old.items ++ spec.chunks_text schema.now.partition rows.now 0 schema.now.columns) }
    ensures entries { IfOk result (λ v. v.items ≡ spec.chunk_entries schema.now.partition rows.now (length out.old.items) 0 schema.now.columns) }
{
    let mut chunks = Vec::new(alloc);
    for (i, column) in schema.columns().iter().enumerate() {
        if !schema.is_partition(i as u32) {
            let values = column_values(alloc, i, again(rows))?;
            chunks.push(append_chunk(alloc, column, &values, out)?)?;
        }
    }
    Ok(chunks)
}

/// A group of these rows, and what the footer says of it.
#[tactic(auto, unfolding(crate::specs::Written::group_text, crate::specs::Written::group_entry))]
fn append_group(
    alloc: Global,
    schema: &Schema,
    rows: &RowSlice<'_>,
    out: &mut Vec<u8>,
) -> Result<RowGroup, NoMemory>
    requires few { length rows.now ≤ spec.group_rows_most }
    requires fits { All (FitsSchema schema.now) rows.now }
    ensures text { OnOk result (out.new.items ≡ out.old.items ++ spec.group_text schema.now rows.now) }
    ensures entry { IfOk result (λ g. g ≡ spec.group_entry schema.now (length out.old.items) rows.now) }
{
    let at = out.len();
    let chunks = append_chunks(alloc, schema, rows, out)?;
    Ok(RowGroup {
        columns: Items::from_vec(chunks),
        total_byte_size: Some((out.len() - at) as i64),
        num_rows: rows.len() as i64,
    })
}

/// The rows of the next group, and those behind it.
#[tactic(auto, using(crate::proofs::Parts::take_min, crate::proofs::Parts::drop_min))]
fn next_group<'a>(rows: &RowSlice<'a>) -> (RowSlice<'a>, RowSlice<'a>)
    ensures group { result.0 ≡ take spec.group_rows_most rows.now }
    ensures later { result.1 ≡ drop spec.group_rows_most rows.now }
    ensures few { length result.0 ≤ spec.group_rows_most }
    ensures fewer { 0 < length rows.now → length result.1 < length rows.now }
{
    rows.split_at(rows.len().min(GROUP_ROWS))
}

/// The groups of a file, and what the footer says of them.
pub(crate) fn append_groups(
    alloc: Global,
    schema: &Schema,
    rows: RowSlice<'_>,
    out: &mut Vec<u8>,
) -> Result<Vec<RowGroup>, NoMemory>
    requires { All (FitsSchema schema.now) rows }
    ensures text { OnOk result (out.new.items ≡ out.old.items ++ spec.groups_text schema.now (spec.groups_of rows.entry)) }
    ensures entries { IfOk result (λ v. v.items ≡ spec.group_entries schema.now (length out.old.items) (spec.groups_of rows.entry)) }
{
    let mut groups = Vec::new(alloc);
    let mut rest = rows;
    while !rest.is_empty() {
        let (group, later) = next_group(&rest);
        groups.push(append_group(alloc, schema, &group, out)?)?;
        rest = later;
    }
    Ok(groups)
}
