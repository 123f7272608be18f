//! The structs of a page's head, read (Parquet format, parquet.thrift). They take no memory.
ghost use Rattle.std.specs.Prelude.{◌≡◌};
ghost use Rattle.parquet_meta.specs.Pieces.{Moves};
ghost use Rattle.parquet_meta.specs.Values.{typed};
ghost use Rattle.parquet_meta.specs.Heads as spec;
ghost use Rattle.thrift_compact.specs.declared.wire.Wire.TheVariants as wires;

use crate::fault::FileFault;
use crate::fields::{Fields, keep, needed, read_fields, read_number};
use crate::head::{DataPageHead, DictionaryPageHead, PageHead};
use crate::known::{
    DataKnown, DataNumbers, DictionaryKnown, DictionaryNumbers, HeadKnown, HeadNumbers,
};
use crate::reader::{Header, Reader};
use thrift_compact::Wire;

impl Fields<()> for DataKnown {
    ghost step = { spec.data_step };

    fn put(
        &mut self,
        _memory: (),
        reader: &mut Reader<'_>,
        header: Header,
    ) -> Result<(), FileFault> {
        match header.id {
            1 => keep!(self.num_values, read_number(reader, header, Wire::I32)),
            2 => keep!(self.encoding, read_number(reader, header, Wire::I32)),
            3 => keep!(
                self.definition_level_encoding,
                read_number(reader, header, Wire::I32)
            ),
            4 => keep!(
                self.repetition_level_encoding,
                read_number(reader, header, Wire::I32)
            ),
            _ => reader.skip(header.wire),
        }
    }
}

fn data_of(stop: usize, known: DataKnown) -> Result<DataNumbers, FileFault>
    ensures { result ≡ spec.data_made stop known }
{
    Ok(DataNumbers {
        num_values: needed(stop, known.num_values)?,
        encoding: needed(stop, known.encoding)?,
        definition_level_encoding: needed(stop, known.definition_level_encoding)?,
        repetition_level_encoding: needed(stop, known.repetition_level_encoding)?,
    })
}

#[tactic(auto, unfolding(crate::specs::Heads::data_in))]
fn read_data(reader: &mut Reader<'_>, header: Header) -> Result<DataNumbers, FileFault>
    ensures { Moves reader.old reader.new result (typed wires.Struct header.wire header.place (spec.data_in reader.old.piece header.place reader.old.at)) }
{
    header.expect(Wire::Struct)?;
    let none = DataKnown {
        num_values: None,
        encoding: None,
        definition_level_encoding: None,
        repetition_level_encoding: None,
    };
    let (known, stop) = read_fields((), reader, none)?;
    data_of(stop, known)
}

impl Fields<()> for DictionaryKnown {
    ghost step = { spec.dictionary_step };

    fn put(
        &mut self,
        _memory: (),
        reader: &mut Reader<'_>,
        header: Header,
    ) -> Result<(), FileFault> {
        match header.id {
            1 => keep!(self.num_values, read_number(reader, header, Wire::I32)),
            2 => keep!(self.encoding, read_number(reader, header, Wire::I32)),
            _ => reader.skip(header.wire),
        }
    }
}

fn dictionary_of(stop: usize, known: DictionaryKnown) -> Result<DictionaryNumbers, FileFault>
    ensures { result ≡ spec.dictionary_made stop known }
{
    Ok(DictionaryNumbers {
        num_values: needed(stop, known.num_values)?,
        encoding: needed(stop, known.encoding)?,
    })
}

#[tactic(auto, unfolding(crate::specs::Heads::dictionary_in))]
fn read_dictionary(reader: &mut Reader<'_>, header: Header) -> Result<DictionaryNumbers, FileFault>
    ensures { Moves reader.old reader.new result (typed wires.Struct header.wire header.place (spec.dictionary_in reader.old.piece header.place reader.old.at)) }
{
    header.expect(Wire::Struct)?;
    let none = DictionaryKnown {
        num_values: None,
        encoding: None,
    };
    let (known, stop) = read_fields((), reader, none)?;
    dictionary_of(stop, known)
}

impl Fields<()> for HeadKnown {
    ghost step = { spec.head_step };

    fn put(
        &mut self,
        _memory: (),
        reader: &mut Reader<'_>,
        header: Header,
    ) -> Result<(), FileFault> {
        match header.id {
            1 => keep!(self.page_type, read_number(reader, header, Wire::I32)),
            2 => keep!(
                self.uncompressed_page_size,
                read_number(reader, header, Wire::I32)
            ),
            3 => keep!(
                self.compressed_page_size,
                read_number(reader, header, Wire::I32)
            ),
            5 => keep!(self.data_page, read_data(reader, header)),
            7 => keep!(self.dictionary_page, read_dictionary(reader, header)),
            8 => {
                header.expect(Wire::Struct)?;
                reader.skip(Wire::Struct)?;
                self.data_page_v2 = true;
                Ok(())
            }
            _ => reader.skip(header.wire),
        }
    }
}

/// A page of a type needs a value.
fn needed_for<T>(
    stop: usize,
    page_type: i64,
    wanted: i64,
    value: &Option<T>,
) -> Result<(), FileFault>
    ensures { result ≡ spec.needed_for stop page_type wanted value.now }
{
    match value {
        Some(_) => Ok(()),
        None => {
            if page_type == wanted {
                Err(FileFault::Thrift { at: stop })
            } else {
                Ok(())
            }
        }
    }
}

fn head_of(stop: usize, known: HeadKnown) -> Result<HeadNumbers, FileFault>
    ensures { result ≡ spec.head_made stop known }
{
    let page_type = needed(stop, known.page_type)?;
    let compressed_page_size = needed(stop, known.compressed_page_size)?;
    needed_for(stop, page_type, 0, &known.data_page)?;
    needed_for(stop, page_type, 2, &known.dictionary_page)?;
    Ok(HeadNumbers {
        page_type,
        uncompressed_page_size: known.uncompressed_page_size,
        compressed_page_size,
        data_page: known.data_page,
        dictionary_page: known.dictionary_page,
        data_page_v2: known.data_page_v2,
    })
}

/// The head of a page as it stands.
#[tactic(auto, unfolding(crate::specs::Heads::numbers_in))]
pub(crate) fn read_numbers(reader: &mut Reader<'_>) -> Result<HeadNumbers, FileFault>
    ensures { Moves reader.old reader.new result (spec.numbers_in reader.old.piece 0 reader.old.at) }
{
    let none = HeadKnown {
        page_type: None,
        uncompressed_page_size: None,
        compressed_page_size: None,
        data_page: None,
        dictionary_page: None,
        data_page_v2: false,
    };
    let (known, stop) = read_fields((), reader, none)?;
    head_of(stop, known)
}

/// A number of the head that begins at a place.
fn narrow(at: usize, number: i64) -> Result<i32, FileFault>
    ensures { result ≡ spec.narrow at number }
{
    if 0 <= number && number < 1 << 31 {
        Ok(number as i32)
    } else {
        Err(FileFault::Page { at })
    }
}

fn narrow_optional(at: usize, number: Option<i64>) -> Result<Option<i32>, FileFault>
    ensures { result ≡ spec.narrow_optional at number }
{
    match number {
        Some(number) => Ok(Some(narrow(at, number)?)),
        None => Ok(None),
    }
}

fn data_head(at: usize, numbers: Option<DataNumbers>) -> Result<Option<DataPageHead>, FileFault>
    ensures { result ≡ spec.data_head at numbers }
{
    match numbers {
        Some(numbers) => Ok(Some(DataPageHead {
            num_values: narrow(at, numbers.num_values)?,
            encoding: narrow(at, numbers.encoding)?,
            definition_level_encoding: narrow(at, numbers.definition_level_encoding)?,
            repetition_level_encoding: narrow(at, numbers.repetition_level_encoding)?,
        })),
        None => Ok(None),
    }
}

fn dictionary_head(
    at: usize,
    numbers: Option<DictionaryNumbers>,
) -> Result<Option<DictionaryPageHead>, FileFault>
    ensures { result ≡ spec.dictionary_head at numbers }
{
    match numbers {
        Some(numbers) => Ok(Some(DictionaryPageHead {
            num_values: narrow(at, numbers.num_values)?,
            encoding: narrow(at, numbers.encoding)?,
        })),
        None => Ok(None),
    }
}

/// The head that begins at a place, its numbers in range.
#[tactic(auto, unfolding(crate::specs::Heads::page_head))]
pub(crate) fn page_head(at: usize, numbers: HeadNumbers) -> Result<PageHead, FileFault>
    ensures { result ≡ spec.page_head at numbers }
{
    Ok(PageHead {
        page_type: narrow(at, numbers.page_type)?,
        uncompressed_page_size: narrow_optional(at, numbers.uncompressed_page_size)?,
        compressed_page_size: narrow(at, numbers.compressed_page_size)?,
        data_page: data_head(at, numbers.data_page)?,
        dictionary_page: dictionary_head(at, numbers.dictionary_page)?,
        data_page_v2: numbers.data_page_v2,
    })
}
