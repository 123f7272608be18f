//! The rows of row groups (parquet.thrift, `RowGroup`).
ghost use Rattle.std.specs.Prelude.{◌≡◌, [], Ok, MatchResult};
ghost use Rattle.parquet_meta.specs.Faults.{Reads, FaultOf};
ghost use Rattle.parquet_plain.specs.Reading as spec;

use crate::chunk::{chunk_of, span_of};
use crate::pages::chunk_values;
use crate::rows::append_side_by_side;
use crate::source::{Leaf, Source, refuse_shape};
use parquet_meta::{ColumnChunk, FileFault, RowGroup};
use row_base::limits::MAX_FILE_ROWS;
use row_base::{Datum, Items, Rows, Text};
use std::alloc::Global;

/// The values of a leaf in a group of so many rows.
#[tactic(auto, unfolding(crate::specs::Reading::leaf_values))]
fn leaf_values(
    alloc: Global,
    leaf: &Leaf,
    rows: usize,
    chunks: &[ColumnChunk],
    file: &[u8],
) -> Result<Items<Datum>, FileFault>
    ensures { Reads result (spec.leaf_values leaf.now rows chunks.now file.now) }
{
    match chunk_of(&leaf.name, chunks) {
        Some(chunk) => {
            let span = span_of(leaf, rows, file.len(), chunk)?;
            chunk_values(alloc, leaf, rows, span, file)
        }
        None => refuse_shape(&leaf.name),
    }
}

/// The values of a column in a group of so many rows, or none where it is null in each.
fn source_values(
    alloc: Global,
    source: &Source,
    rows: usize,
    chunks: &[ColumnChunk],
    file: &[u8],
) -> Result<Items<Datum>, FileFault>
    ensures { Reads result (spec.source_values source.now rows chunks.now file.now) }
{
    match source {
        Source::Leaf(leaf) => leaf_values(alloc, leaf, rows, chunks, file),
        Source::Lacking { name } if rows != 0 => refuse_shape(name),
        _ => Ok(Items::from_vec(Vec::new(alloc))),
    }
}

/// The values of each column.
fn columns_values(
    alloc: Global,
    sources: &[Source],
    rows: usize,
    chunks: &[ColumnChunk],
    file: &[u8],
) -> Result<Vec<Items<Datum>>, FileFault>
    ensures { MatchResult result (λ v. spec.columns_values sources.now rows chunks.now file.now ≡ Ok v.items) (λ e. FaultOf e (spec.columns_values sources.now rows chunks.now file.now)) }
{
    let mut columns = Vec::with_capacity(alloc, sources.len())?;
    for source in sources {
        columns.push(source_values(alloc, source, rows, chunks, file)?)?;
    }
    Ok(columns)
}

/// How many rows a group has behind so many others, where there are no more than a file may have.
fn rows_of(name: &Text, before: usize, number: i64) -> Result<usize, FileFault>
    ensures { Reads result (spec.rows_of name.now before number) }
{
    if 0 <= number && before <= MAX_FILE_ROWS && number <= (MAX_FILE_ROWS - before) as i64 {
        Ok(number as usize)
    } else {
        refuse_shape(name)
    }
}

/// The rows of all groups.
#[tactic(auto, unfolding(crate::specs::Reading::group_rows))]
pub(crate) fn groups_rows(
    alloc: Global,
    name: &Text,
    sources: &[Source],
    file: &[u8],
    groups: &[RowGroup],
) -> Result<Rows, FileFault>
    ensures { Reads result (spec.with_groups name.now sources.now file.now [] groups.now) }
{
    let mut rows = Rows::new(alloc);
    for group in groups {
        let count = rows_of(name, rows.len(), group.num_rows)?;
        let columns = columns_values(alloc, sources, count, group.columns.as_slice(), file)?;
        append_side_by_side(alloc, count, columns, &mut rows)?;
    }
    Ok(rows)
}
