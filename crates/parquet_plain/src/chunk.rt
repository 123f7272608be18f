//! The chunk of a column in a row group (parquet.thrift, `ColumnChunk`, `ColumnMetaData`).
ghost use Rattle.std.specs.Prelude.{◌≡◌, ◌≤◌, ◌^◌, IfOk};
ghost use Rattle.std.specs.List.{find};
ghost use Rattle.std.specs.Option.{option_copied};
ghost use Rattle.parquet_meta.specs.Faults.{Reads};
ghost use Rattle.parquet_plain.specs.Reading as spec;

use crate::source::{Leaf, refuse_shape};
use crate::tree::physical_of;
use parquet_meta::{ColumnChunk, ColumnMetaData, FileFault};
use row_base::{NoMemory, Text};

/// Where the bytes of a chunk stand in the file.
#[derive(Clone, Copy, Debug)]
pub(crate) struct Span {
    pub(crate) begins: usize,
    pub(crate) ends: usize,
}

/// Whether a path is of this name alone.
fn is_path_of(name: &Text, path: &[Text]) -> bool
    ensures { result ≡ spec.is_path_of name.now path.now }
{
    match path {
        [only] => *only == *name,
        _ => false,
    }
}

fn is_chunk_of(name: &Text, chunk: &ColumnChunk) -> bool
    ensures { result ≡ spec.is_chunk_of name.now chunk.now }
{
    is_path_of(name, chunk.meta_data.path_in_schema.as_slice())
}

/// The chunk of the column of this name: the first one.
pub(crate) fn chunk_of<'a>(name: &Text, chunks: &'a [ColumnChunk]) -> Option<&'a ColumnChunk>
    ensures { option_copied result ≡ find (spec.is_chunk_of name.now) chunks.now }
{
    chunks.iter().find(|chunk| is_chunk_of(name, chunk))
}

fn is_absent_or_natural(number: Option<i64>) -> bool
    ensures { result ≡ spec.is_absent_or_natural number }
{
    match number {
        Some(number) => is_natural(number),
        None => true,
    }
}

fn is_natural(number: i64) -> bool
    ensures { result ≡ spec.is_natural number }
{
    0 <= number
}

/// Whether no number of a chunk is below 0.
fn has_natural_numbers(chunk: &ColumnChunk) -> bool
    ensures { result ≡ spec.has_natural_numbers chunk.now }
{
    let meta = &chunk.meta_data;
    (is_absent_or_natural(chunk.file_offset) && is_natural(meta.num_values))
        && (is_absent_or_natural(meta.total_uncompressed_size)
            && is_natural(meta.total_compressed_size))
        && (is_natural(meta.data_page_offset) && is_absent_or_natural(meta.dictionary_page_offset))
}

fn first_of(place: u64, dictionary: Option<i64>) -> u64
    requires { place ≤ 2 ^ 63 }
    ensures value { result ≡ spec.first_of place dictionary }
    ensures bound { result ≤ 2 ^ 63 }
{
    match dictionary {
        Some(number) => {
            let first = number.unsigned_abs();
            if 0 < first && first < place {
                first
            } else {
                place
            }
        }
        None => place,
    }
}

/// The place of a chunk's first byte, which is that of its dictionary page where it has one.
fn first_byte(meta: &ColumnMetaData) -> u64
    ensures value { result ≡ spec.first_byte meta.now }
    ensures bound { result ≤ 2 ^ 63 }
{
    first_of(
        meta.data_page_offset.unsigned_abs(),
        meta.dictionary_page_offset,
    )
}

/// Why a codec isn't read.
fn codec_fault(name: &Text, codec: i64) -> Result<FileFault, NoMemory>
    ensures { IfOk result (λ f. f ≡ spec.codec_fault name.now codec) }
{
    match i32::try_from(codec) {
        Ok(codec) => Ok(FileFault::Codec { codec }),
        Err(_) => Ok(FileFault::Shape {
            column: name.copy()?,
        }),
    }
}

/// Whether a chunk has as many values as its group has rows, and stands in a file of so many bytes.
fn is_whole(rows: usize, size: usize, chunk: &ColumnChunk) -> bool
    ensures { result ≡ spec.is_whole rows size chunk.now }
{
    let meta = &chunk.meta_data;
    (chunk.file_path.is_none() && has_natural_numbers(chunk))
        && (meta.num_values.unsigned_abs() == rows as u64
            && first_byte(meta) + meta.total_compressed_size.unsigned_abs() <= size as u64)
}

/// Where the bytes of a leaf's chunk stand, in a file of so many bytes and a group of so many rows.
#[tactic(auto, unfolding(crate::specs::Reading::span_of))]
pub(crate) fn span_of(
    leaf: &Leaf,
    rows: usize,
    size: usize,
    chunk: &ColumnChunk,
) -> Result<Span, FileFault>
    ensures { Reads result (spec.span_of leaf.now rows size chunk.now) }
{
    let meta = &chunk.meta_data;
    if meta.physical_type != physical_of(leaf.kind) {
        return Err(FileFault::Physical {
            column: leaf.name.copy()?,
        });
    }
    if meta.codec != 0 {
        return Err(codec_fault(&leaf.name, meta.codec)?);
    }
    if !is_whole(rows, size, chunk) {
        return refuse_shape(&leaf.name);
    }
    let begins = first_byte(meta);
    Ok(Span {
        begins: begins as usize,
        ends: (begins + meta.total_compressed_size.unsigned_abs()) as usize,
    })
}
