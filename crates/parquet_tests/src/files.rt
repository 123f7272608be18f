//! Files written by hand after the format, written ones, and damaged ones.

ghost use Rattle.std.specs.Prelude.{◌↔◌, ◌≤ℤ◌, pos, IsTrue};
ghost use Rattle.std.specs.List.{All};
ghost use Rattle.row_base.specs.Schema.{FitsSchema};

use crate::meta::FILE;
use parquet_meta::{
    ColumnChunk, ColumnMetaData, FileFault, FileMeta, RowGroup, SchemaElement, write_footer,
};
use parquet_plain::{read_file, write_file};
use row_base::limits::MAX_FILE_ROWS;
use row_base::{Column, Datum, Items, Kind, NoMemory, Row, Rows, Schema, Text};
use std::alloc::Global;
use std::test::Fail;

/// The chunk of the column `id` with the rows (5), (5): a dictionary page, and a data page of places in it.
const FIVES: [u8; 41] = [
    0x15, 0x04, 0x15, 0x10, 0x15, 0x10, 0x4c, 0x15, 0x02, 0x15, 0x00, 0x00, 0x00, 0x05, 0x00, 0x00,
    0x00, 0x00, 0x00, 0x00, 0x00, 0x15, 0x00, 0x15, 0x06, 0x15, 0x06, 0x2c, 0x15, 0x04, 0x15, 0x10,
    0x15, 0x06, 0x15, 0x06, 0x00, 0x00, 0x01, 0x04, 0x00,
];

/// How a reading ended.
#[derive(Clone, Copy, Debug, Drop, PartialEq, Eq)]
enum Outcome {
    Read,
    Short,
    Magic,
    Footer,
    Codec,
    Shape,
    Kind,
    Other,
}

fn wrong(fault: &FileFault) -> Outcome {
    match fault {
        FileFault::Short => Outcome::Short,
        FileFault::Magic => Outcome::Magic,
        FileFault::Footer => Outcome::Footer,
        FileFault::Codec { codec: 1 } => Outcome::Codec,
        FileFault::Shape { .. } => Outcome::Shape,
        FileFault::PageKind { .. } => Outcome::Kind,
        _ => Outcome::Other,
    }
}

fn ending(alloc: Global, schema: &Schema, bytes: &[u8]) -> Outcome {
    match read_file(alloc, schema, bytes) {
        Ok(_) => Outcome::Read,
        Err(fault) => wrong(&fault),
    }
}

/// Puts what was made at the end of a list.
fn push<T: Drop>(list: &mut Vec<T>, made: Result<T, NoMemory>) -> Result<(), NoMemory> {
    list.push(made?)?;
    Ok(())
}

/// A column's name, its kind, and whether it may be null.
type Told = (&'static str, Kind, bool);

fn column(alloc: Global, told: Told) -> Result<Column, NoMemory> {
    let (name, kind, nullable) = told;
    let name = Text::make(alloc, name)?;
    Ok(Column {
        name,
        kind,
        nullable,
    })
}

fn columns_of(alloc: Global, told: &[Told]) -> Result<Vec<Column>, NoMemory> {
    let mut columns = Vec::new(alloc);
    for it in told {
        push(&mut columns, column(alloc, *it))?;
    }
    Ok(columns)
}

/// The schema of these columns, or the want of memory where they make none.
fn schema_with(columns: Vec<Column>, partition: Vec<u32>) -> Result<Schema, NoMemory> {
    Schema::make(columns, partition).map_err(|_| NoMemory)
}

fn schema_of(alloc: Global, told: &[Told], partition: &[u32]) -> Result<Schema, NoMemory> {
    let columns = columns_of(alloc, told)?;
    let partition = partition.to_vec(alloc)?;
    schema_with(columns, partition)
}

/// `id long not null`.
const ID: [Told; 1] = [("id", Kind::Long, false)];

/// `v string, id long not null`.
const TEXT_AND_ID: [Told; 2] = [("v", Kind::String, true), ("id", Kind::Long, false)];

/// The same columns turned round.
const ID_AND_TEXT: [Told; 2] = [("id", Kind::Long, false), ("v", Kind::String, true)];

fn long_row(alloc: Global, number: i64) -> Result<Row, NoMemory> {
    let mut values = Vec::with_capacity(alloc, 1)?;
    values.push_reserved(Datum::Long(number));
    Ok(Row::make(values))
}

fn pair(alloc: Global, first: Datum, second: Datum) -> Result<Row, NoMemory> {
    let mut values = Vec::with_capacity(alloc, 2)?;
    values.push_reserved(first);
    values.push_reserved(second);
    Ok(Row::make(values))
}

/// Rows of one long each.
fn long_rows(alloc: Global, numbers: &[i64]) -> Result<Vec<Row>, NoMemory> {
    let mut rows = Vec::new(alloc);
    for number in numbers {
        push(&mut rows, long_row(alloc, *number))?;
    }
    Ok(rows)
}

/// Rows of a null and a long each.
fn null_rows(alloc: Global, numbers: &[i64]) -> Result<Vec<Row>, NoMemory> {
    let mut rows = Vec::new(alloc);
    for number in numbers {
        push(&mut rows, pair(alloc, Datum::Null, Datum::Long(*number)))?;
    }
    Ok(rows)
}

/// Whether a row fits.
fn fits(schema: &Schema, row: &Row) -> bool
    ensures { IsTrue result ↔ FitsSchema schema.now row.now }
{
    schema.fits(row.as_slice()).is_ok()
}

/// Whether each row fits.
fn all_fit(schema: &Schema, rows: &[Row]) -> bool
    ensures { IsTrue result ↔ All (FitsSchema schema.now) rows.now }
{
    rows.iter().all(|row| fits(schema, row))
}

fn copies_of(alloc: Global, rows: &[Row]) -> Result<Vec<Row>, NoMemory> {
    let mut copies = Vec::new(alloc);
    for row in rows {
        push(&mut copies, row.copy(alloc))?;
    }
    Ok(copies)
}

/// The file of these rows, or nothing where one doesn't fit.
fn written(alloc: Global, schema: &Schema, rows: &[Row]) -> Result<Vec<u8>, NoMemory> {
    let copies = copies_of(alloc, rows)?;
    if copies.len() <= MAX_FILE_ROWS && all_fit(schema, &copies) {
        write_file(alloc, schema, &Rows::from_rows(alloc, copies)?)
    } else {
        Ok(Vec::new(alloc))
    }
}

/// Whether rows that were read are these.
fn are_rows(read: Result<Vec<Row>, NoMemory>, rows: &[Row]) -> bool {
    match read {
        Ok(read) => read.as_slice() == rows,
        Err(_) => false,
    }
}

/// Whether a file reads as these rows.
fn reads(alloc: Global, schema: &Schema, bytes: &[u8], rows: &[Row]) -> bool {
    match read_file(alloc, schema, bytes) {
        Ok(read) => are_rows(read.to_rows(alloc), rows),
        Err(_) => false,
    }
}

/// Whether a file was written, and reads as these rows.
fn comes_back(
    alloc: Global,
    schema: &Schema,
    file: &Result<Vec<u8>, NoMemory>,
    rows: &[Row],
) -> bool {
    match file {
        Ok(file) => reads(alloc, schema, file, rows),
        Err(_) => false,
    }
}

/// Whether a file was written, and has these bytes from a place on.
fn has(file: &Result<Vec<u8>, NoMemory>, at: usize, bytes: &[u8]) -> bool {
    match file {
        Ok(file) => file
            .as_slice()
            .get(at..)
            .is_some_and(|rest| rest.starts_with(bytes)),
        Err(_) => false,
    }
}

#[test]
fn a_row_is_written_and_read(rt: HostRuntime) -> Result<(), Fail> {
    let alloc = rt.alloc();
    let rows = long_rows(alloc, &[1])?;
    let schema = schema_of(alloc, &ID, &[])?;
    let file = written(alloc, &schema, &rows);
    assert!(rt; is_file(&file));
    assert!(rt; comes_back(alloc, &schema, &file, &rows));
    Ok(())
}

/// Whether the file of one row was written.
fn is_file(file: &Result<Vec<u8>, NoMemory>) -> bool {
    match file {
        Ok(file) => file.as_slice() == FILE.as_slice(),
        Err(_) => false,
    }
}

#[test]
fn repeated_values_have_a_dictionary(rt: HostRuntime) -> Result<(), Fail> {
    let alloc = rt.alloc();
    let rows = long_rows(alloc, &[5, 5])?;
    let schema = schema_of(alloc, &ID, &[])?;
    let file = written(alloc, &schema, &rows);
    assert!(rt; has(&file, 4, &FIVES));
    assert!(rt; comes_back(alloc, &schema, &file, &rows));
    Ok(())
}

/// How the file of one row ends that is cut to so many bytes.
fn cut_ending(len: usize) -> Outcome {
    if len < 12 {
        Outcome::Short
    } else {
        Outcome::Magic
    }
}

#[test]
fn each_prefix_is_refused(rt: HostRuntime) -> Result<(), Fail> {
    let alloc = rt.alloc();
    let schema = schema_of(alloc, &ID, &[])?;
    for len in 0..99 {
        assert!(rt; ending(alloc, &schema, &FILE[..len]) == cut_ending(len));
    }
    Ok(())
}

/// How the file ends with one byte changed.
fn changed(alloc: Global, place: usize, byte: u8) -> Result<Outcome, NoMemory> {
    let schema = schema_of(alloc, &ID, &[])?;
    let mut file = FILE;
    if place < 99 {
        file[place] = byte;
    }
    Ok(ending(alloc, &schema, &file))
}

/// Changed bytes of the file, and how it ends.
const CHANGES: [(usize, u8, Outcome); 5] = [
    (74, 0x02, Outcome::Codec),
    (91, 0xff, Outcome::Footer),
    (88, 0x04, Outcome::Shape),
    (76, 0x04, Outcome::Shape),
    (5, 0x02, Outcome::Kind),
];

#[test]
fn damaged_files_are_refused(rt: HostRuntime) -> Result<(), Fail> {
    for (place, byte, outcome) in CHANGES {
        assert!(rt; changed(rt.alloc(), place, byte)? == outcome);
    }
    Ok(())
}

/// The rows of the longs from 0 on, so many.
fn counted_rows(alloc: Global, count: i64) -> Result<Vec<Row>, NoMemory> {
    let mut numbers = Vec::new(alloc);
    for number in 0..count {
        numbers.push(number)?;
    }
    long_rows(alloc, &numbers)
}

/// The number of groups of a file.
fn group_count(alloc: Global, file: &[u8]) -> Option<usize> {
    let meta = parquet_meta::read_footer(alloc, file).ok()?;
    Some(meta.row_groups.as_slice().len())
}

/// Whether a file was written, and has two groups.
fn has_two_groups(alloc: Global, file: &Result<Vec<u8>, NoMemory>) -> bool {
    match file {
        Ok(file) => group_count(alloc, file) == Some(2),
        Err(_) => false,
    }
}

#[test]
fn many_rows_have_two_groups(rt: HostRuntime) -> Result<(), Fail> {
    let alloc = rt.alloc();
    let rows = counted_rows(alloc, 20_000)?;
    let schema = schema_of(alloc, &ID, &[])?;
    let file = written(alloc, &schema, &rows);
    assert!(rt; has_two_groups(alloc, &file));
    assert!(rt; comes_back(alloc, &schema, &file, &rows));
    Ok(())
}

/// An element of a file's schema.
fn element(
    alloc: Global,
    name: &str,
    physical_type: Option<i64>,
    num_children: Option<i64>,
) -> Result<SchemaElement, NoMemory> {
    Ok(SchemaElement {
        physical_type,
        repetition_type: None,
        name: Text::make(alloc, name)?,
        num_children,
        converted_type: None,
    })
}

/// What the footer says of a chunk of 41 bytes and two values that begins with a dictionary page at this place.
fn chunk(
    alloc: Global,
    name: &str,
    physical_type: i64,
    codec: i64,
    at: i64,
) -> Result<ColumnChunk, NoMemory>
    requires { at ≤ℤ pos 1000 }
{
    Ok(ColumnChunk {
        file_path: None,
        file_offset: None,
        meta_data: ColumnMetaData {
            physical_type,
            encodings: None,
            path_in_schema: Items::from_vec(vec![in alloc; Text::make(alloc, name)?]?),
            codec,
            num_values: 2,
            total_uncompressed_size: None,
            total_compressed_size: 41,
            data_page_offset: at + 21,
            dictionary_page_offset: Some(at),
        },
    })
}

/// A chunk of the column `w` that can't be read, and one of `id` at this place.
fn chunks(alloc: Global, at: i64) -> Result<Vec<ColumnChunk>, NoMemory>
    requires { at ≤ℤ pos 1000 }
{
    let mut chunks = Vec::new(alloc);
    push(&mut chunks, chunk(alloc, "w", 1, 5, 1000))?;
    push(&mut chunks, chunk(alloc, "id", 2, 0, at))?;
    Ok(chunks)
}

/// A group of two rows with these chunks.
fn group(alloc: Global, at: i64) -> Result<RowGroup, NoMemory>
    requires { at ≤ℤ pos 1000 }
{
    let columns = Items::from_vec(chunks(alloc, at)?);
    Ok(RowGroup {
        columns,
        total_byte_size: None,
        num_rows: 2,
    })
}

fn groups(alloc: Global) -> Result<Vec<RowGroup>, NoMemory> {
    let mut groups = Vec::new(alloc);
    push(&mut groups, group(alloc, 4))?;
    push(&mut groups, group(alloc, 45))?;
    Ok(groups)
}

/// The root, and the columns `w` and `id`.
fn elements(alloc: Global) -> Result<Vec<SchemaElement>, NoMemory> {
    let mut elements = Vec::new(alloc);
    push(&mut elements, element(alloc, "root", None, Some(2)))?;
    push(&mut elements, element(alloc, "w", Some(1), None))?;
    push(&mut elements, element(alloc, "id", Some(2), None))?;
    Ok(elements)
}

/// The footer of a file of two groups with the columns `w` and `id`.
fn foreign_footer(alloc: Global) -> Result<Vec<u8>, NoMemory> {
    let schema = Items::from_vec(elements(alloc)?);
    let row_groups = Items::from_vec(groups(alloc)?);
    let meta = FileMeta {
        version: None,
        schema,
        num_rows: 0,
        row_groups,
    };
    write_footer(alloc, &meta)
}

/// A file of two groups, whose chunks of `id` have dictionaries of one value each; the first one's data page has the
/// encoding 2.
fn foreign_file(alloc: Global, first: u8, second: u8) -> Result<Vec<u8>, NoMemory> {
    let mut chunks = [FIVES, FIVES];
    chunks[0][13] = first;
    chunks[0][31] = 0x04;
    chunks[1][13] = second;
    let footer = foreign_footer(alloc)?;
    let mut file = Vec::new(alloc);
    file.extend_from_slice(b"PAR1")?;
    file.extend_from_slice(&chunks[0])?;
    file.extend_from_slice(&chunks[1])?;
    file.extend_from_slice(&footer)?;
    file.extend_from_slice(&((footer.len() % 1000) as u32).to_le_bytes())?;
    file.extend_from_slice(b"PAR1")?;
    Ok(file)
}

#[test]
fn foreign_files_are_read(rt: HostRuntime) -> Result<(), Fail> {
    let alloc = rt.alloc();
    let file = foreign_file(alloc, 7, 9)?;
    let rows = null_rows(alloc, &[7, 7, 9, 9])?;
    let schema = schema_of(alloc, &TEXT_AND_ID, &[])?;
    assert!(rt; reads(alloc, &schema, &file, &rows));
    Ok(())
}

/// A file of the columns `id` and `v`, with the row (7, null).
fn number_and_text(alloc: Global) -> Result<Vec<u8>, NoMemory> {
    let row = pair(alloc, Datum::Long(7), Datum::Null)?;
    let schema = schema_of(alloc, &ID_AND_TEXT, &[])?;
    written(alloc, &schema, &[row])
}

#[test]
fn columns_are_found_by_name(rt: HostRuntime) -> Result<(), Fail> {
    let alloc = rt.alloc();
    let file = number_and_text(alloc)?;
    let rows = null_rows(alloc, &[7])?;
    let turned = schema_of(alloc, &TEXT_AND_ID, &[])?;
    assert!(rt; reads(alloc, &turned, &file, &rows));
    Ok(())
}

/// Columns that can't be read from the foreign file, and how it ends.
const UNREAD: [(Told, Outcome); 3] = [
    (("w", Kind::Integer, false), Outcome::Other),
    (("v", Kind::String, false), Outcome::Shape),
    (("id", Kind::String, false), Outcome::Other),
];

/// Whether the foreign file ends so for this column.
fn ends_so(alloc: Global, told: Told, want: Outcome) -> Result<bool, NoMemory> {
    let file = foreign_file(alloc, 7, 9)?;
    let schema = schema_of(alloc, &[told], &[])?;
    Ok(ending(alloc, &schema, &file) == want)
}

#[test]
fn columns_that_cannot_be_read_are_refused(rt: HostRuntime) -> Result<(), Fail> {
    for (told, outcome) in UNREAD {
        assert!(rt; ends_so(rt.alloc(), told, outcome)?);
    }
    Ok(())
}

/// `day integer not null, id long not null`, partitioned by the day.
fn by_day(alloc: Global) -> Result<Schema, NoMemory> {
    let told = [("day", Kind::Integer, false), ("id", Kind::Long, false)];
    schema_of(alloc, &told, &[0])
}

/// The file of the row (3, 1).
fn file_of_a_day(alloc: Global) -> Result<Vec<u8>, NoMemory> {
    let row = pair(alloc, Datum::Integer(3), Datum::Long(1))?;
    let schema = by_day(alloc)?;
    written(alloc, &schema, &[row])
}

#[test]
fn partition_columns_are_not_written(rt: HostRuntime) {
    let file = file_of_a_day(rt.alloc());
    assert!(rt; is_file(&file));
}

#[test]
fn partition_columns_are_read_as_null(rt: HostRuntime) -> Result<(), Fail> {
    let alloc = rt.alloc();
    let rows = null_rows(alloc, &[1])?;
    let schema = by_day(alloc)?;
    assert!(rt; reads(alloc, &schema, &FILE, &rows));
    Ok(())
}
