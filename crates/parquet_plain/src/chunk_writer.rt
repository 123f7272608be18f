//! The chunks of a row group that is written (parquet.thrift, `ColumnChunk`, `ColumnMetaData`).
ghost use Rattle.std.specs.Prelude.{◌≡◌, ◌+◌, ◌++◌, ◌≤◌, ◌^◌, ◌<◌, ◌∷◌, [], length, pos, IfOk, OnOk, slice_index_or};
ghost use Rattle.std.specs.List.{All};
ghost use Rattle.row_base.specs.declared.row.Datum.TheVariants as datum;
ghost use Rattle.parquet_pages.specs.Written.{CanStand};
ghost use Rattle.parquet_plain.specs.Written as spec;

use crate::page_writer::{append_front, append_pages};
use crate::tree::physical_of;
use parquet_meta::{ColumnChunk, ColumnMetaData};
use parquet_pages::{Dictionary, Indexed};
use row_base::{Column, Datum, Items, NoMemory, RowSlice, Text};
use std::alloc::Global;

/// The encodings of a chunk's pages and levels: PLAIN and RLE, and RLE_DICTIONARY where it has a dictionary.
fn encodings_of(alloc: Global, dictionary: &Option<Dictionary>) -> Result<Items<i64>, NoMemory>
    ensures { IfOk result (λ v. v ≡ spec.encodings_of dictionary.now) }
{
    match dictionary {
        Some(_) => Ok(Items::from_vec(vec![in alloc; 0, 3, 8]?)),
        None => Ok(Items::from_vec(vec![in alloc; 0, 3]?)),
    }
}

/// The place of a chunk's dictionary page, where it has one.
fn place_if(at: i64, dictionary: &Option<Dictionary>) -> Option<i64>
    ensures { result ≡ spec.place_if at dictionary.now }
{
    match dictionary {
        Some(_) => Some(at),
        None => None,
    }
}

/// The path of a column below the root.
fn path_of(alloc: Global, name: &Text) -> Result<Items<Text>, NoMemory>
    ensures { IfOk result (λ p. p ≡ name.now ∷ []) }
{
    let mut path = Vec::with_capacity(alloc, 1)?;
    path.push(name.copy()?)?;
    Ok(Items::from_vec(path))
}

/// What the footer says of a chunk of so many values and bytes, which stands at `at`, and its data pages at `data_at`.
fn entry_of(
    alloc: Global,
    column: &Column,
    dictionary: &Option<Dictionary>,
    count: i64,
    at: i64,
    data_at: i64,
    size: i64,
) -> Result<ColumnChunk, NoMemory>
    ensures { IfOk result (λ c. c ≡ spec.entry_of column.now dictionary.now count at data_at size) }
{
    Ok(ColumnChunk {
        file_path: None,
        file_offset: Some(0),
        meta_data: ColumnMetaData {
            physical_type: physical_of(column.kind),
            encodings: Some(encodings_of(alloc, dictionary)?),
            path_in_schema: path_of(alloc, &column.name)?,
            codec: 0,
            num_values: count,
            total_uncompressed_size: Some(size),
            total_compressed_size: size,
            data_page_offset: data_at,
            dictionary_page_offset: place_if(at, dictionary),
        },
    })
}

/// The chunk of a column with or without a dictionary and the places in it, and what the footer says of it.
#[tactic(auto, unfolding(crate::specs::Written::chunk_text_by, crate::specs::Written::chunk_entry_by))]
fn append_by(
    alloc: Global,
    column: &Column,
    dictionary: &Option<Dictionary>,
    places: &[u32],
    values: &[Datum],
    out: &mut Vec<u8>,
) -> Result<ColumnChunk, NoMemory>
    requires stand { All (CanStand column.now.kind column.now.nullable) values.now }
    requires placed { spec.AreIn dictionary.now column.now.nullable values.now }
    requires places { spec.ArePlaces dictionary.now values.now places.now }
    requires front { spec.DictionaryStands column.now.kind dictionary.now }
    ensures text { OnOk result (out.new.items ≡ out.old.items ++ spec.chunk_text_by column.now dictionary.now values.now) }
    ensures entry { IfOk result (λ c. c ≡ spec.chunk_entry_by column.now dictionary.now values.now (length out.old.items)) }
{
    let at = out.len();
    append_front(alloc, column, dictionary, out)?;
    let data_at = out.len();
    append_pages(alloc, column, dictionary, places, values, out)?;
    let size = out.len() - at;
    entry_of(
        alloc,
        column,
        dictionary,
        values.len() as i64,
        at as i64,
        data_at as i64,
        size as i64,
    )
}

/// The chunk of a column with these values, and what the footer says of it.
#[tactic(auto, unfolding(crate::specs::Written::chunk_text, crate::specs::Written::chunk_entry))]
pub(crate) fn append_chunk(
    alloc: Global,
    column: &Column,
    values: &[Datum],
    out: &mut Vec<u8>,
) -> Result<ColumnChunk, NoMemory>
    requires few { length values.now ≤ spec.group_rows_most }
    requires stand { All (CanStand column.now.kind column.now.nullable) values.now }
    ensures text { OnOk result (out.new.items ≡ out.old.items ++ spec.chunk_text column.now values.now) }
    ensures entry { IfOk result (λ c. c ≡ spec.chunk_entry column.now values.now (length out.old.items)) }
{
    match Dictionary::of(alloc, column.kind, values)? {
        Some(Indexed { dictionary, places }) => {
            append_by(alloc, column, &Some(dictionary), &places, values, out)
        }
        None => append_by(alloc, column, &None, &[], values, out),
    }
}

/// The datum at a place of a row, which is null where the row lacks it.
fn datum_at(row: &[Datum], place: usize) -> Result<Datum, NoMemory>
    ensures { IfOk result (λ d. d ≡ slice_index_or row.now place datum.Null) }
{
    if place < row.len() {
        row[place].copy()
    } else {
        Ok(Datum::Null)
    }
}

/// The values of the column at this place.
pub(crate) fn column_values(
    alloc: Global,
    place: usize,
    rows: RowSlice<'_>,
) -> Result<Vec<Datum>, NoMemory>
    ensures { IfOk result (λ v. v.items ≡ spec.column_values place rows.entry) }
{
    let mut values = Vec::with_capacity(alloc, rows.len())?;
    for row in rows {
        values.push(datum_at(row, place)?)?;
    }
    Ok(values)
}
