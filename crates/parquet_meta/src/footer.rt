//! The structs of a file's metadata, read (Parquet format, parquet.thrift).
ghost use Rattle.std.specs.Prelude.{◌≡◌};
ghost use Rattle.parquet_meta.specs.Pieces.{Moves, Puts};
ghost use Rattle.parquet_meta.specs.Values.{list_in, number_of, text_in, typed};
ghost use Rattle.parquet_meta.specs.Footer as spec;
ghost use Rattle.parquet_meta.specs.Written.{chunk_text, group_text, element_text};
ghost use Rattle.thrift_compact.specs.declared.wire.Wire.TheVariants as wires;
ghost use Rattle.thrift_compact.specs.Writing.{number_bytes, binary_bytes};

use crate::fault::FileFault;
use crate::fields::{
    Element, Fields, keep, needed, read_fields, read_list, read_number, read_text,
};
use crate::known::{ChunkKnown, ColumnKnown, ElementKnown, FileKnown, GroupKnown};
use crate::meta::{ColumnChunk, ColumnMetaData, FileMeta, RowGroup, SchemaElement};
use crate::reader::{Header, Reader};
use crate::written::{write_chunk, write_element, write_group};
use row_base::{NoMemory, Text};
use std::alloc::Global;
use thrift_compact::{Appender, Wire};

impl Element for i64 {
    ghost kind = { wires.I32 };

    ghost element = { number_of };

    ghost text = { number_bytes };

    fn wire() -> Wire {
        Wire::I32
    }

    fn write(&self, out: &mut Appender) -> Result<(), NoMemory> {
        out.number(*self)
    }

    fn read(_alloc: Global, reader: &mut Reader<'_>, _place: usize) -> Result<i64, FileFault> {
        reader.number()
    }
}

impl Element for Text {
    ghost kind = { wires.Binary };

    ghost element = { text_in };

    ghost text = { binary_bytes };

    fn wire() -> Wire {
        Wire::Binary
    }

    fn write(&self, out: &mut Appender) -> Result<(), NoMemory> {
        out.binary(self.as_str().as_bytes())
    }

    fn read(alloc: Global, reader: &mut Reader<'_>, place: usize) -> Result<Text, FileFault> {
        reader.text(alloc, place)
    }
}

impl Fields<Global> for ColumnKnown {
    ghost step = { spec.column_step };

    fn put(
        &mut self,
        alloc: Global,
        reader: &mut Reader<'_>,
        header: Header,
    ) -> Result<(), FileFault> {
        match header.id {
            2 => keep!(self.encodings, read_list(alloc, reader, header)),
            3 => keep!(self.path_in_schema, read_list(alloc, reader, header)),
            _ => self.put_number(reader, header),
        }
    }
}

impl ColumnKnown {
    /// Reads a number, where the field is one.
    fn put_number(&mut self, reader: &mut Reader<'_>, header: Header) -> Result<(), FileFault>
        ensures { Puts reader.old reader.new self.new result (spec.column_number_step reader.old.piece header.id header.wire header.place reader.old.at self.old) }
    {
        match header.id {
            1 => keep!(self.physical_type, read_number(reader, header, Wire::I32)),
            4 => keep!(self.codec, read_number(reader, header, Wire::I32)),
            5 => keep!(self.num_values, read_number(reader, header, Wire::I64)),
            6 => keep!(
                self.total_uncompressed_size,
                read_number(reader, header, Wire::I64)
            ),
            7 => keep!(
                self.total_compressed_size,
                read_number(reader, header, Wire::I64)
            ),
            9 => keep!(
                self.data_page_offset,
                read_number(reader, header, Wire::I64)
            ),
            11 => keep!(
                self.dictionary_page_offset,
                read_number(reader, header, Wire::I64)
            ),
            _ => reader.skip(header.wire),
        }
    }
}

fn column_of(stop: usize, known: ColumnKnown) -> Result<ColumnMetaData, FileFault>
    ensures { result ≡ spec.column_made stop known }
{
    Ok(ColumnMetaData {
        physical_type: needed(stop, known.physical_type)?,
        encodings: known.encodings,
        path_in_schema: needed(stop, known.path_in_schema)?,
        codec: needed(stop, known.codec)?,
        num_values: needed(stop, known.num_values)?,
        total_uncompressed_size: known.total_uncompressed_size,
        total_compressed_size: needed(stop, known.total_compressed_size)?,
        data_page_offset: needed(stop, known.data_page_offset)?,
        dictionary_page_offset: known.dictionary_page_offset,
    })
}

#[tactic(auto, unfolding(crate::specs::Footer::column_in))]
fn read_column(
    alloc: Global,
    reader: &mut Reader<'_>,
    header: Header,
) -> Result<ColumnMetaData, FileFault>
    ensures { Moves reader.old reader.new result (typed wires.Struct header.wire header.place (spec.column_in reader.old.piece header.place reader.old.at)) }
{
    header.expect(Wire::Struct)?;
    let none = ColumnKnown {
        physical_type: None,
        encodings: None,
        path_in_schema: None,
        codec: None,
        num_values: None,
        total_uncompressed_size: None,
        total_compressed_size: None,
        data_page_offset: None,
        dictionary_page_offset: None,
    };
    let (known, stop) = read_fields(alloc, reader, none)?;
    column_of(stop, known)
}

impl Fields<Global> for GroupKnown {
    ghost step = { spec.group_step };

    fn put(
        &mut self,
        alloc: Global,
        reader: &mut Reader<'_>,
        header: Header,
    ) -> Result<(), FileFault> {
        match header.id {
            1 => keep!(self.columns, read_list(alloc, reader, header)),
            2 => keep!(self.total_byte_size, read_number(reader, header, Wire::I64)),
            3 => keep!(self.num_rows, read_number(reader, header, Wire::I64)),
            _ => reader.skip(header.wire),
        }
    }
}

impl Element for ColumnChunk {
    ghost kind = { wires.Struct };

    ghost element = { spec.chunk_in };

    ghost text = { chunk_text };

    fn wire() -> Wire {
        Wire::Struct
    }

    fn write(&self, out: &mut Appender) -> Result<(), NoMemory> {
        write_chunk(out, self)
    }

    #[tactic(auto, unfolding(crate::specs::Footer::chunk_in))]
    fn read(
        alloc: Global,
        reader: &mut Reader<'_>,
        _place: usize,
    ) -> Result<ColumnChunk, FileFault> {
        let none = ChunkKnown {
            file_path: None,
            file_offset: None,
            meta_data: None,
        };
        let (known, stop) = read_fields(alloc, reader, none)?;
        chunk_of(stop, known)
    }
}

impl Fields<Global> for ChunkKnown {
    ghost step = { spec.chunk_step };

    fn put(
        &mut self,
        alloc: Global,
        reader: &mut Reader<'_>,
        header: Header,
    ) -> Result<(), FileFault> {
        match header.id {
            1 => keep!(self.file_path, read_text(alloc, reader, header)),
            2 => keep!(self.file_offset, read_number(reader, header, Wire::I64)),
            3 => keep!(self.meta_data, read_column(alloc, reader, header)),
            _ => reader.skip(header.wire),
        }
    }
}

fn chunk_of(stop: usize, known: ChunkKnown) -> Result<ColumnChunk, FileFault>
    ensures { result ≡ spec.chunk_made stop known }
{
    Ok(ColumnChunk {
        file_path: known.file_path,
        file_offset: known.file_offset,
        meta_data: needed(stop, known.meta_data)?,
    })
}

impl Element for RowGroup {
    ghost kind = { wires.Struct };

    ghost element = { spec.group_in };

    ghost text = { group_text };

    fn wire() -> Wire {
        Wire::Struct
    }

    fn write(&self, out: &mut Appender) -> Result<(), NoMemory> {
        write_group(out, self)
    }

    #[tactic(auto, unfolding(crate::specs::Footer::group_in))]
    fn read(alloc: Global, reader: &mut Reader<'_>, _place: usize) -> Result<RowGroup, FileFault> {
        let none = GroupKnown {
            columns: None,
            total_byte_size: None,
            num_rows: None,
        };
        let (known, stop) = read_fields(alloc, reader, none)?;
        group_of(stop, known)
    }
}

fn group_of(stop: usize, known: GroupKnown) -> Result<RowGroup, FileFault>
    ensures { result ≡ spec.group_made stop known }
{
    Ok(RowGroup {
        columns: needed(stop, known.columns)?,
        total_byte_size: known.total_byte_size,
        num_rows: needed(stop, known.num_rows)?,
    })
}

impl Fields<Global> for ElementKnown {
    ghost step = { spec.element_step };

    fn put(
        &mut self,
        alloc: Global,
        reader: &mut Reader<'_>,
        header: Header,
    ) -> Result<(), FileFault> {
        match header.id {
            1 => keep!(self.physical_type, read_number(reader, header, Wire::I32)),
            3 => keep!(self.repetition_type, read_number(reader, header, Wire::I32)),
            4 => keep!(self.name, read_text(alloc, reader, header)),
            5 => keep!(self.num_children, read_number(reader, header, Wire::I32)),
            6 => keep!(self.converted_type, read_number(reader, header, Wire::I32)),
            _ => reader.skip(header.wire),
        }
    }
}

fn element_of(stop: usize, known: ElementKnown) -> Result<SchemaElement, FileFault>
    ensures { result ≡ spec.element_made stop known }
{
    Ok(SchemaElement {
        physical_type: known.physical_type,
        repetition_type: known.repetition_type,
        name: needed(stop, known.name)?,
        num_children: known.num_children,
        converted_type: known.converted_type,
    })
}

impl Element for SchemaElement {
    ghost kind = { wires.Struct };

    ghost element = { spec.element_in };

    ghost text = { element_text };

    fn wire() -> Wire {
        Wire::Struct
    }

    fn write(&self, out: &mut Appender) -> Result<(), NoMemory> {
        write_element(out, self)
    }

    #[tactic(auto, unfolding(crate::specs::Footer::element_in))]
    fn read(
        alloc: Global,
        reader: &mut Reader<'_>,
        _place: usize,
    ) -> Result<SchemaElement, FileFault> {
        let none = ElementKnown {
            physical_type: None,
            repetition_type: None,
            name: None,
            num_children: None,
            converted_type: None,
        };
        let (known, stop) = read_fields(alloc, reader, none)?;
        element_of(stop, known)
    }
}

impl Fields<Global> for FileKnown {
    ghost step = { spec.file_step };

    fn put(
        &mut self,
        alloc: Global,
        reader: &mut Reader<'_>,
        header: Header,
    ) -> Result<(), FileFault> {
        match header.id {
            1 => keep!(self.version, read_number(reader, header, Wire::I32)),
            2 => keep!(self.schema, read_list(alloc, reader, header)),
            3 => keep!(self.num_rows, read_number(reader, header, Wire::I64)),
            4 => keep!(self.row_groups, read_list(alloc, reader, header)),
            _ => reader.skip(header.wire),
        }
    }
}

fn file_of(stop: usize, known: FileKnown) -> Result<FileMeta, FileFault>
    ensures { result ≡ spec.file_made stop known }
{
    Ok(FileMeta {
        version: known.version,
        schema: needed(stop, known.schema)?,
        num_rows: needed(stop, known.num_rows)?,
        row_groups: needed(stop, known.row_groups)?,
    })
}

/// The metadata of a file.
#[tactic(auto, unfolding(crate::specs::Footer::file_in))]
pub(crate) fn read_file(alloc: Global, reader: &mut Reader<'_>) -> Result<FileMeta, FileFault>
    ensures { Moves reader.old reader.new result (spec.file_in reader.old.piece 0 reader.old.at) }
{
    let none = FileKnown {
        version: None,
        schema: None,
        num_rows: None,
        row_groups: None,
    };
    let (known, stop) = read_fields(alloc, reader, none)?;
    file_of(stop, known)
}
