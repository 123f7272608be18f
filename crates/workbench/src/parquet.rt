//! What Parquet files read as.

ghost use Rattle.std.specs.Prelude.{◌≡◌, ◌%◌, ◌^◌, count_by, filter_map, IfOk, MatchResult, string_bytes};
ghost use Rattle.parquet_meta.specs.Faults.{Reads};
ghost use Rattle.workbench.specs.Parquet as spec;

use parquet_meta::{FileFault, SchemaElement, read_footer};
use parquet_plain::read_file;
use row_base::{Column, Datum, Kind, Rows, Schema};
use std::alloc::{AllocError, Global};

/// What a file reads as, for a table of the columns in its own schema that have a kind: the number of rows and of nulls in
/// them, or the fault.
pub fn file_text(alloc: Global, bytes: &[u8]) -> Result<String, AllocError>
    ensures { IfOk result (λ text. spec.IsFileText bytes.now (string_bytes text)) }
{
    match rows_in(alloc, bytes) {
        Ok(found) => found_text(alloc, found),
        Err(fault) => fault_text(alloc, fault),
    }
}

/// The text of what was read.
fn found_text(alloc: Global, found: Option<Rows>) -> Result<String, AllocError>
    ensures { IfOk result (λ text. string_bytes text ≡ spec.found_text (found)) }
{
    match found {
        Some(rows) => rows_text(alloc, rows.len(), count_nulls(&rows)),
        None => format!(in alloc; "no table"),
    }
}

/// The text of a fault.
fn fault_text(alloc: Global, fault: FileFault) -> Result<String, AllocError>
    ensures { IfOk result (λ text. fault ≡ FileFault.NoMemory → string_bytes text ≡ spec.wanting_text) }
{
    match fault {
        FileFault::NoMemory => format!(in alloc; "out of memory"),
        other => format!(in alloc; "{other}"),
    }
}

/// The text for rows.
fn rows_text(alloc: Global, count: usize, nulls: u64) -> Result<String, AllocError>
    ensures { IfOk result (λ text. string_bytes text ≡ spec.rows_text count nulls) }
{
    format!(in alloc; "{count} rows, {nulls} nulls")
}

/// The rows of a file for the table of its own columns, or `None` where these make no schema.
#[tactic(auto, unfolding(crate::specs::Parquet::rows_in))]
fn rows_in(alloc: Global, bytes: &[u8]) -> Result<Option<Rows>, FileFault>
    ensures { Reads result (spec.rows_in bytes.now) }
{
    let meta = read_footer(alloc, bytes)?;
    match schema_of(alloc, meta.schema.as_slice())? {
        Some(schema) => Ok(Some(read_file(alloc, &schema, bytes)?)),
        None => Ok(None),
    }
}

/// The schema of the columns that have a kind, if they make one.
#[tactic(auto, unfolding(crate::specs::Parquet::schema_of))]
fn schema_of(alloc: Global, elements: &[SchemaElement]) -> Result<Option<Schema>, FileFault>
    ensures { MatchResult result (λ schema. schema ≡ spec.schema_of elements.now) (λ e. e ≡ FileFault.NoMemory) }
{
    let columns = columns_of(alloc, elements)?;
    Ok(Schema::make(columns, Vec::new(alloc)).ok())
}

/// The columns of the elements that have a kind.
fn columns_of(alloc: Global, elements: &[SchemaElement]) -> Result<Vec<Column>, FileFault>
    ensures { MatchResult result (λ columns. columns.items ≡ filter_map spec.column_of elements.now) (λ e. e ≡ FileFault.NoMemory) }
{
    let mut columns = Vec::new(alloc);
    for element in elements {
        if let Some(column) = column_of(element)? {
            columns.push(column)?;
        }
    }
    Ok(columns)
}

/// The column of an element, if it has a kind.
#[tactic(auto, unfolding(crate::specs::Parquet::column_of))]
fn column_of(element: &SchemaElement) -> Result<Option<Column>, FileFault>
    ensures { MatchResult result (λ column. column ≡ spec.column_of element.now) (λ e. e ≡ FileFault.NoMemory) }
{
    match kind_of(element.physical_type, element.converted_type) {
        Some(kind) => Ok(Some(Column {
            name: element.name.copy()?,
            kind,
            nullable: element.repetition_type == Some(1),
        })),
        None => Ok(None),
    }
}

/// The kind of a physical type's values; the converted type 6 is a date's.
fn kind_of(physical: Option<i64>, converted: Option<i64>) -> Option<Kind>
    ensures { result ≡ spec.kind_of physical converted }
{
    match physical {
        Some(0) => Some(Kind::Boolean),
        Some(1) if converted == Some(6) => Some(Kind::Date),
        Some(1) => Some(Kind::Integer),
        Some(2) => Some(Kind::Long),
        Some(6) => Some(Kind::String),
        _ => None,
    }
}

/// How many data of the rows are null, in 64 bits.
fn count_nulls(rows: &Rows) -> u64
    ensures { result ≡ spec.null_count rows.now % 2 ^ 64 }
{
    let mut count: u64 = 0;
    for row in rows.iter() {
        count = count.wrapping_add(row_nulls(row) as u64);
    }
    count
}

/// How many data of a row are null.
fn row_nulls(row: &[Datum]) -> usize
    ensures { result ≡ count_by spec.is_null row.now }
{
    row.iter().filter(|datum| is_null(datum)).count()
}

fn is_null(datum: &Datum) -> bool
    ensures { result ≡ spec.is_null datum.now }
{
    matches!(datum, Datum::Null)
}
