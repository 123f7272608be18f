//! Schemas and rows as constants tell them.
ghost use Rattle.std.specs.Prelude.{◌↔◌, ◌≤ℤ◌, pos, neg_ℤ, IsTrue};
ghost use Rattle.std.specs.List.{All};
ghost use Rattle.row_base.specs.Schema.{FitsSchema};
ghost use Rattle.schema_text.specs.PartitionWritten.{HasText};

use parquet_plain::read_file;
use row_base::{Column, Datum, Kind, NoMemory, Row, Rows, Schema, Text};
use std::alloc::Global;

/// A datum.
#[derive(Clone, Copy, Drop)]
pub enum Cell {
    Null,
    Long(i64),
    Integer(i32),
    Boolean(bool),
    /// Its number of days since 1970-01-01.
    Date(i32),
    Text(&'static str),
    /// A text of so many letters `x`.
    Letters(u32),
}

/// A row.
pub type Line = &'static [Cell];

/// A column's name, its kind, and whether it may be null.
pub type Told = (&'static str, Kind, bool);

/// The columns of a table, and the places of those by which it is partitioned.
#[derive(Clone, Copy, Drop)]
pub struct Shape {
    pub columns: &'static [Told],
    pub partition: &'static [u32],
}

/// Puts what was made at the end of a list.
fn push<T: Drop>(list: &mut Vec<T>, made: Result<T, NoMemory>) -> Result<(), NoMemory> {
    list.push(made?)?;
    Ok(())
}

fn letters(alloc: Global, count: u32) -> Result<Text, NoMemory> {
    let mut text = String::new(alloc);
    for _ in 0..count {
        text.push_str("x")?;
    }
    Ok(Text::from_string(text)?)
}

fn datum(alloc: Global, cell: Cell) -> Result<Datum, NoMemory> {
    match cell {
        Cell::Null => Ok(Datum::Null),
        Cell::Long(number) => Ok(Datum::Long(number)),
        Cell::Integer(number) => Ok(Datum::Integer(number)),
        Cell::Boolean(value) => Ok(Datum::Boolean(value)),
        Cell::Date(day) => Ok(Datum::Date(day)),
        Cell::Text(text) => Ok(Datum::Text(Text::make(alloc, text)?)),
        Cell::Letters(count) => Ok(Datum::Text(letters(alloc, count)?)),
    }
}

fn row_of(alloc: Global, line: &[Cell]) -> Result<Row, NoMemory> {
    let mut values = Vec::new(alloc);
    for cell in line {
        push(&mut values, datum(alloc, *cell))?;
    }
    Ok(Row::make(values))
}

pub fn rows_of(alloc: Global, lines: &[Line]) -> Result<Vec<Row>, NoMemory> {
    let mut rows = Vec::new(alloc);
    for line in lines {
        push(&mut rows, row_of(alloc, line))?;
    }
    Ok(rows)
}

/// So many equal rows.
pub fn repeated(alloc: Global, line: &[Cell], count: u32) -> Result<Vec<Row>, NoMemory> {
    let row = row_of(alloc, line)?;
    let mut rows = Vec::new(alloc);
    for _ in 0..count {
        push(&mut rows, row.copy(alloc))?;
    }
    Ok(rows)
}

fn long_row(alloc: Global, number: u32) -> Result<Row, NoMemory> {
    let mut values = Vec::new(alloc);
    values.push(Datum::Long(number as i64))?;
    Ok(Row::make(values))
}

/// Rows of one long each, from this number down to 1.
pub fn falling(alloc: Global, count: u32) -> Result<Vec<Row>, NoMemory> {
    let mut rows = Vec::new(alloc);
    for left in 0..count {
        push(&mut rows, long_row(alloc, count - left))?;
    }
    Ok(rows)
}

fn column(alloc: Global, told: Told) -> Result<Column, NoMemory> {
    let (name, kind, nullable) = told;
    let name = Text::make(alloc, name)?;
    Ok(Column {
        name,
        kind,
        nullable,
    })
}

fn columns_of(alloc: Global, told: &[Told]) -> Result<Vec<Column>, NoMemory> {
    let mut columns = Vec::new(alloc);
    for it in told {
        push(&mut columns, column(alloc, *it))?;
    }
    Ok(columns)
}

/// The schema of these columns, or the want of memory where they make none.
fn schema_with(columns: Vec<Column>, partition: Vec<u32>) -> Result<Schema, NoMemory> {
    Schema::make(columns, partition).map_err(|_| NoMemory)
}

pub fn schema_of(alloc: Global, shape: Shape) -> Result<Schema, NoMemory> {
    let columns = columns_of(alloc, shape.columns)?;
    let partition = shape.partition.to_vec(alloc)?;
    schema_with(columns, partition)
}

fn fits(schema: &Schema, row: &Row) -> bool
    ensures { IsTrue result ↔ FitsSchema schema.now row.now }
{
    schema.fits(row.as_slice()).is_ok()
}

/// Whether each row fits.
pub fn all_fit(schema: &Schema, rows: &[Row]) -> bool
    ensures { IsTrue result ↔ All (FitsSchema schema.now) rows.now }
{
    rows.iter().all(|row| fits(schema, row))
}

/// Whether a number is that of a day from 0001-01-01 to 9999-12-31.
fn is_day(day: i32) -> bool
    ensures { IsTrue result ↔ (neg_ℤ (pos 719_162) ≤ℤ day) × (day ≤ℤ pos 2_932_896) }
{
    -719_162 <= day && day <= 2_932_896
}

/// Whether a datum has a text: a date is a day of the years 1 to 9999.
fn has_text(datum: &Datum) -> bool
    ensures { IsTrue result ↔ HasText datum.now }
{
    match datum {
        Datum::Date(day) => is_day(*day),
        _ => true,
    }
}

fn have_texts(row: &Row) -> bool
    ensures { IsTrue result ↔ All HasText row.now }
{
    row.as_slice().iter().all(|datum| has_text(datum))
}

/// Whether each datum of each row has a text.
pub fn all_have_texts(rows: &[Row]) -> bool
    ensures { IsTrue result ↔ All (λ r. All HasText r) rows.now }
{
    rows.iter().all(|row| have_texts(row))
}

/// Whether rows that were read are these.
pub fn are_rows(read: Result<Vec<Row>, NoMemory>, rows: &[Row]) -> bool {
    match read {
        Ok(read) => read.as_slice() == rows,
        Err(_) => false,
    }
}

/// Whether rows are these.
pub fn are_lines(alloc: Global, rows: &Rows, lines: &[Line]) -> bool {
    match rows_of(alloc, lines) {
        Ok(wanted) => are_rows(rows.to_rows(alloc), &wanted),
        Err(_) => false,
    }
}

/// Whether a file reads as these rows.
pub fn reads(alloc: Global, schema: &Schema, bytes: &[u8], lines: &[Line]) -> bool {
    match read_file(alloc, schema, bytes) {
        Ok(read) => are_lines(alloc, &read, lines),
        Err(_) => false,
    }
}

/// Whether a file reads as so many rows.
pub fn reads_count(alloc: Global, schema: &Schema, bytes: &[u8], count: usize) -> bool {
    match read_file(alloc, schema, bytes) {
        Ok(read) => read.len() == count,
        Err(_) => false,
    }
}
