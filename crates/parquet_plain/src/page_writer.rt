//! The pages of a chunk that is written (README.md, "Data Pages"; parquet.thrift, `PageHeader`).
ghost use Rattle.std.specs.Prelude.{◌≡◌, ◌++◌, ◌≤◌, ◌^◌, ◌<◌, length, take, drop, pos, IfOk, OnOk};
ghost use Rattle.std.specs.List.{All};
ghost use Rattle.parquet_meta.specs.Written.{head_text};
ghost use Rattle.parquet_pages.specs.Places.{present};
ghost use Rattle.parquet_pages.specs.Written.{CanStand};
ghost use Rattle.parquet_plain.specs.Written as spec;

use parquet_meta::{DataPageHead, DictionaryPageHead, PageHead, write_page_head};
use parquet_pages::{Dictionary, count_present, write_page};
use row_base::{Column, Datum, NoMemory};
use std::alloc::Global;

/// The most values of a page.
const PAGE_VALUES: usize = 4096;

/// A number of values or bytes, as a page's head has it. A body of more bytes than a head can name is refused as one
/// for which no memory is left.
fn number_of(count: usize) -> Result<i32, NoMemory>
    ensures { IfOk result (λ n. n ≡ pos count) }
{
    match i32::try_from(count) {
        Ok(number) => Ok(number),
        Err(_) => Err(NoMemory),
    }
}

fn data_head(encoding: i32, count: i32, size: i32) -> PageHead
    ensures { result ≡ spec.data_head encoding count size }
{
    PageHead {
        page_type: 0,
        uncompressed_page_size: Some(size),
        compressed_page_size: size,
        data_page: Some(DataPageHead {
            num_values: count,
            encoding,
            definition_level_encoding: 3,
            repetition_level_encoding: 3,
        }),
        dictionary_page: None,
        data_page_v2: false,
    }
}

fn dictionary_head(count: i32, size: i32) -> PageHead
    ensures { result ≡ spec.dictionary_head count size }
{
    PageHead {
        page_type: 2,
        uncompressed_page_size: Some(size),
        compressed_page_size: size,
        data_page: None,
        dictionary_page: Some(DictionaryPageHead {
            num_values: count,
            encoding: 0,
        }),
        data_page_v2: false,
    }
}

/// A page: its head and its body.
fn append_page(
    alloc: Global,
    head: &PageHead,
    body: &[u8],
    out: &mut Vec<u8>,
) -> Result<(), NoMemory>
    ensures { OnOk result (out.new.items ≡ out.old.items ++ (head_text head.now ++ body.now)) }
{
    let text = write_page_head(alloc, head)?;
    out.extend_from_slice(&text)?;
    out.extend_from_slice(body)?;
    Ok(())
}

/// A data page of so many values.
fn append_data_page(
    alloc: Global,
    encoding: i32,
    count: usize,
    body: &[u8],
    out: &mut Vec<u8>,
) -> Result<(), NoMemory>
    ensures { OnOk result (out.new.items ≡ out.old.items ++ spec.data_page encoding count body.now) }
{
    let head = data_head(encoding, number_of(count)?, number_of(body.len())?);
    append_page(alloc, &head, body, out)
}

/// A data page of these values, with or without the dictionary of its chunk.
#[tactic(auto, unfolding(crate::specs::Written::page_of))]
fn append_values(
    alloc: Global,
    column: &Column,
    dictionary: &Option<Dictionary>,
    places: &[u32],
    values: &[Datum],
    out: &mut Vec<u8>,
) -> Result<(), NoMemory>
    requires few { length values.now ≤ spec.page_values_most }
    requires stand { All (CanStand column.now.kind column.now.nullable) values.now }
    requires placed { spec.AreIn dictionary.now column.now.nullable values.now }
    requires places { spec.ArePlaces dictionary.now values.now places.now }
    ensures { OnOk result (out.new.items ≡ out.old.items ++ spec.page_of column.now dictionary.now values.now) }
{
    match dictionary {
        Some(dictionary) => {
            let body = dictionary.indices(alloc, column.nullable, values, places)?;
            append_data_page(alloc, 8, values.len(), &body, out)
        }
        None => {
            let body = write_page(alloc, column.kind, column.nullable, values)?;
            append_data_page(alloc, 0, values.len(), &body, out)
        }
    }
}

/// The values of the next page, and those behind it.
#[tactic(auto, using(crate::proofs::Parts::take_min, crate::proofs::Parts::drop_min))]
fn next_page(values: &[Datum]) -> (&[Datum], &[Datum])
    ensures page { result.0.now ≡ take spec.page_values_most values.now }
    ensures later { result.1.now ≡ drop spec.page_values_most values.now }
    ensures few { length result.0.now ≤ spec.page_values_most }
    ensures fewer { 0 < length values.now → length result.1.now < length values.now }
{
    values.split_at(values.len().min(PAGE_VALUES))
}

/// The places of a page's values, and those behind them.
#[tactic(auto, using(crate::proofs::Parts::take_min, crate::proofs::Parts::drop_min))]
fn next_places<'a>(page: &[Datum], places: &'a [u32]) -> (&'a [u32], &'a [u32])
    ensures page { result.0.now ≡ take (present page.now) places.now }
    ensures later { result.1.now ≡ drop (present page.now) places.now }
{
    places.split_at(places.len().min(count_present(page)))
}

/// The data pages of a chunk.
pub(crate) fn append_pages(
    alloc: Global,
    column: &Column,
    dictionary: &Option<Dictionary>,
    places: &[u32],
    values: &[Datum],
    out: &mut Vec<u8>,
) -> Result<(), NoMemory>
    requires stand { All (CanStand column.now.kind column.now.nullable) values.now }
    requires placed { spec.AreIn dictionary.now column.now.nullable values.now }
    requires places { spec.ArePlaces dictionary.now values.now places.now }
    ensures { OnOk result (out.new.items ≡ out.old.items ++ spec.pages_of column.now dictionary.now (spec.parts_of spec.page_values_most values.now)) }
{
    let mut rest = values;
    let mut places = places;
    while !rest.is_empty() {
        let (page, later) = next_page(rest);
        let (here, behind) = next_places(page, places);
        append_values(alloc, column, dictionary, here, page, out)?;
        rest = later;
        places = behind;
    }
    Ok(())
}

/// The dictionary page of a chunk, where it has a dictionary.
#[tactic(auto, unfolding(crate::specs::Written::front_of))]
pub(crate) fn append_front(
    alloc: Global,
    column: &Column,
    dictionary: &Option<Dictionary>,
    out: &mut Vec<u8>,
) -> Result<(), NoMemory>
    requires { spec.DictionaryStands column.now.kind dictionary.now }
    ensures { OnOk result (out.new.items ≡ out.old.items ++ spec.front_of column.now dictionary.now) }
{
    match dictionary {
        Some(dictionary) => {
            let body = dictionary.page(alloc, column.kind)?;
            let count = number_of(dictionary.len())?;
            let head = dictionary_head(count, number_of(body.len())?);
            append_page(alloc, &head, &body, out)
        }
        None => Ok(()),
    }
}
