//! The structs of a file's metadata and of a page's head, written: fields in ascending ids, absent ones left out.
ghost use Rattle.std.specs.Prelude.{◌≡◌, ◌++◌, IfOk, OnOk, pos};
ghost use Rattle.thrift_compact.specs.declared.wire.Wire.TheVariants as wires;
ghost use Rattle.thrift_compact.specs.Writing.{number_bytes, binary_bytes};
ghost use Rattle.parquet_meta.specs.Written as spec;

use crate::fields::Element;
use crate::head::{DataPageHead, DictionaryPageHead, PageHead};
use crate::meta::{ColumnChunk, ColumnMetaData, FileMeta, RowGroup, SchemaElement};
use row_base::{Items, NoMemory, Text};
use thrift_compact::{Appender, Wire};

/// Appends a field that is a number, behind one of the id `last`, and gives the id of the field that is the last one now.
fn put_number(
    out: &mut Appender,
    last: i16,
    id: i16,
    wire: Wire,
    number: i64,
) -> Result<i16, NoMemory>
    ensures { IfOk result (λ now. spec.Writes out.old last out.new now (spec.always id wire (number_bytes number))) }
{
    out.field(last, id, wire)?;
    out.number(number)?;
    Ok(id)
}

/// The same for a number that may be absent.
#[tactic(auto, using(crate::proofs::Puts::put_none))]
fn put_optional(
    out: &mut Appender,
    last: i16,
    id: i16,
    wire: Wire,
    number: Option<i64>,
) -> Result<i16, NoMemory>
    ensures { IfOk result (λ now. spec.Writes out.old last out.new now (spec.if_some id wire number_bytes number)) }
{
    match number {
        Some(number) => put_number(out, last, id, wire, number),
        None => Ok(last),
    }
}

/// The same for a field that is a text.
fn put_text(out: &mut Appender, last: i16, id: i16, text: &Text) -> Result<i16, NoMemory>
    ensures { IfOk result (λ now. spec.Writes out.old last out.new now (spec.always id wires.Binary (binary_bytes text.now))) }
{
    out.field(last, id, Wire::Binary)?;
    text.write(out)?;
    Ok(id)
}

/// Appends the elements of a list, one behind another.
#[tactic(auto, unfolding(crate::specs::Written::texts_of))]
fn write_elements<E: Element>(out: &mut Appender, elements: &[E]) -> Result<(), NoMemory>
    ensures { OnOk result (out.new ≡ out.old ++ spec.texts_of E.text elements.now) }
{
    for element in elements {
        element.write(out)?;
    }
    Ok(())
}

/// Appends a list. One of 2^32 elements or more has no text.
fn write_list<E: Element>(out: &mut Appender, elements: &[E]) -> Result<(), NoMemory>
    ensures { OnOk result (out.new ≡ out.old ++ spec.list_text E.kind E.text elements.now) }
{
    match u32::try_from(elements.len()) {
        Ok(count) => {
            out.list(E::wire(), count)?;
            write_elements(out, elements)
        }
        Err(_) => Err(NoMemory),
    }
}

/// The same for a field that is a list.
fn put_list<E: Element>(
    out: &mut Appender,
    last: i16,
    id: i16,
    elements: &[E],
) -> Result<i16, NoMemory>
    ensures { IfOk result (λ now. spec.Writes out.old last out.new now (spec.always id wires.List (spec.list_text E.kind E.text elements.now))) }
{
    out.field(last, id, Wire::List)?;
    write_list(out, elements)?;
    Ok(id)
}

pub(crate) fn write_file(out: &mut Appender, meta: &FileMeta) -> Result<(), NoMemory>
    ensures { OnOk result (out.new ≡ out.old ++ spec.footer_text meta.now) }
{
    let last = put_optional(out, 0, 1, Wire::I32, meta.version)?;
    let last = put_list(out, last, 2, meta.schema.as_slice())?;
    let last = put_number(out, last, 3, Wire::I64, meta.num_rows)?;
    put_list(out, last, 4, meta.row_groups.as_slice())?;
    out.stop()
}

pub(crate) fn write_element(out: &mut Appender, element: &SchemaElement) -> Result<(), NoMemory>
    ensures { OnOk result (out.new ≡ out.old ++ spec.element_text element.now) }
{
    let last = put_optional(out, 0, 1, Wire::I32, element.physical_type)?;
    let last = put_optional(out, last, 3, Wire::I32, element.repetition_type)?;
    let last = put_text(out, last, 4, &element.name)?;
    let last = put_optional(out, last, 5, Wire::I32, element.num_children)?;
    put_optional(out, last, 6, Wire::I32, element.converted_type)?;
    out.stop()
}

pub(crate) fn write_group(out: &mut Appender, group: &RowGroup) -> Result<(), NoMemory>
    ensures { OnOk result (out.new ≡ out.old ++ spec.group_text group.now) }
{
    let last = put_list(out, 0, 1, group.columns.as_slice())?;
    let last = put_optional(out, last, 2, Wire::I64, group.total_byte_size)?;
    put_number(out, last, 3, Wire::I64, group.num_rows)?;
    out.stop()
}

/// The same for the path of another file, which may be absent and is the first field.
#[tactic(auto, using(crate::proofs::Puts::put_none))]
fn put_path(out: &mut Appender, path: &Option<Text>) -> Result<i16, NoMemory>
    ensures { IfOk result (λ now. spec.Writes out.old (pos 0) out.new now (spec.if_some (pos 1) wires.Binary binary_bytes path.now)) }
{
    match path {
        Some(path) => put_text(out, 0, 1, path),
        None => Ok(0),
    }
}

pub(crate) fn write_chunk(out: &mut Appender, chunk: &ColumnChunk) -> Result<(), NoMemory>
    ensures { OnOk result (out.new ≡ out.old ++ spec.chunk_text chunk.now) }
{
    let last = put_path(out, &chunk.file_path)?;
    let last = put_optional(out, last, 2, Wire::I64, chunk.file_offset)?;
    out.field(last, 3, Wire::Struct)?;
    write_column(out, &chunk.meta_data)?;
    out.stop()
}

/// The same for the encodings of a chunk, which may be absent.
#[tactic(auto, using(crate::proofs::Puts::put_none))]
fn put_encodings(
    out: &mut Appender,
    last: i16,
    encodings: &Option<Items<i64>>,
) -> Result<i16, NoMemory>
    ensures { IfOk result (λ now. spec.Writes out.old last out.new now (spec.if_some (pos 2) wires.List (spec.list_text wires.I32 number_bytes) encodings.now)) }
{
    match encodings {
        Some(encodings) => put_list(out, last, 2, encodings.as_slice()),
        None => Ok(last),
    }
}

fn write_column(out: &mut Appender, column: &ColumnMetaData) -> Result<(), NoMemory>
    ensures { OnOk result (out.new ≡ out.old ++ spec.column_text column.now) }
{
    let last = put_number(out, 0, 1, Wire::I32, column.physical_type)?;
    let last = put_encodings(out, last, &column.encodings)?;
    let last = put_list(out, last, 3, column.path_in_schema.as_slice())?;
    let last = put_number(out, last, 4, Wire::I32, column.codec)?;
    let last = put_number(out, last, 5, Wire::I64, column.num_values)?;
    let last = put_optional(out, last, 6, Wire::I64, column.total_uncompressed_size)?;
    let last = put_number(out, last, 7, Wire::I64, column.total_compressed_size)?;
    let last = put_number(out, last, 9, Wire::I64, column.data_page_offset)?;
    put_optional(out, last, 11, Wire::I64, column.dictionary_page_offset)?;
    out.stop()
}

fn write_data(out: &mut Appender, head: &DataPageHead) -> Result<(), NoMemory>
    ensures { OnOk result (out.new ≡ out.old ++ spec.data_text head.now) }
{
    let last = put_number(out, 0, 1, Wire::I32, i64::from(head.num_values))?;
    let last = put_number(out, last, 2, Wire::I32, i64::from(head.encoding))?;
    let last = put_number(
        out,
        last,
        3,
        Wire::I32,
        i64::from(head.definition_level_encoding),
    )?;
    put_number(
        out,
        last,
        4,
        Wire::I32,
        i64::from(head.repetition_level_encoding),
    )?;
    out.stop()
}

fn write_dictionary(out: &mut Appender, head: &DictionaryPageHead) -> Result<(), NoMemory>
    ensures { OnOk result (out.new ≡ out.old ++ spec.dictionary_text head.now) }
{
    let last = put_number(out, 0, 1, Wire::I32, i64::from(head.num_values))?;
    put_number(out, last, 2, Wire::I32, i64::from(head.encoding))?;
    out.stop()
}

#[tactic(auto, using(crate::proofs::Puts::put_none))]
fn put_size(out: &mut Appender, last: i16, size: Option<i32>) -> Result<i16, NoMemory>
    ensures { IfOk result (λ now. spec.Writes out.old last out.new now (spec.if_some (pos 2) wires.I32 number_bytes size)) }
{
    match size {
        Some(size) => put_number(out, last, 2, Wire::I32, i64::from(size)),
        None => Ok(last),
    }
}

#[tactic(auto, using(crate::proofs::Puts::put_none))]
fn put_data(out: &mut Appender, last: i16, head: &Option<DataPageHead>) -> Result<i16, NoMemory>
    ensures { IfOk result (λ now. spec.Writes out.old last out.new now (spec.if_some (pos 5) wires.Struct spec.data_text head.now)) }
{
    match head {
        Some(head) => {
            out.field(last, 5, Wire::Struct)?;
            write_data(out, head)?;
            Ok(5)
        }
        None => Ok(last),
    }
}

#[tactic(auto, using(crate::proofs::Puts::put_none))]
fn put_dictionary(
    out: &mut Appender,
    last: i16,
    head: &Option<DictionaryPageHead>,
) -> Result<i16, NoMemory>
    ensures { IfOk result (λ now. spec.Writes out.old last out.new now (spec.if_some (pos 7) wires.Struct spec.dictionary_text head.now)) }
{
    match head {
        Some(head) => {
            out.field(last, 7, Wire::Struct)?;
            write_dictionary(out, head)?;
            Ok(7)
        }
        None => Ok(last),
    }
}

/// The same for the header of a data page of the second version, which is written without fields.
fn put_v2(out: &mut Appender, last: i16, data_page_v2: bool) -> Result<i16, NoMemory>
    ensures { IfOk result (λ now. spec.Writes out.old last out.new now (spec.v2_text data_page_v2)) }
{
    if !data_page_v2 {
        return Ok(last);
    }
    out.field(last, 8, Wire::Struct)?;
    out.stop()?;
    Ok(8)
}

pub(crate) fn write_head(out: &mut Appender, head: &PageHead) -> Result<(), NoMemory>
    ensures { OnOk result (out.new ≡ out.old ++ spec.head_text head.now) }
{
    let last = put_number(out, 0, 1, Wire::I32, i64::from(head.page_type))?;
    let last = put_size(out, last, head.uncompressed_page_size)?;
    let last = put_number(
        out,
        last,
        3,
        Wire::I32,
        i64::from(head.compressed_page_size),
    )?;
    let last = put_data(out, last, &head.data_page)?;
    let last = put_dictionary(out, last, &head.dictionary_page)?;
    put_v2(out, last, head.data_page_v2)?;
    out.stop()
}
