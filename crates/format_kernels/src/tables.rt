//! Tables whose Parquet files are timed.

ghost use Rattle.std.specs.Prelude.{◌≡◌, ◌⊎◌, ◌<◌, ◌≤◌, ◌%◌, ◌++◌, IfOk, IfErr, OnOk, Ok, List, length, string_bytes};
ghost use Rattle.row_base.specs.declared.limits.TheConstants.{MAX_FILE_ROWS};
ghost use Rattle.row_base.specs.declared.row.Datum.{Datum as DatumValue};
ghost use Rattle.parquet_meta.specs.Faults.{FaultOf};
ghost use Rattle.parquet_meta.specs.declared.fault.FileFault.{FileFault};
ghost use Rattle.parquet_plain.specs.Reading.{file_rows};
ghost use Rattle.parquet_plain.specs.Written.{file_text};
ghost use Rattle.format_kernels.specs.Tables as spec;

use crate::fault::KernelFault;
use crate::kernel::{Step, Table};
use crate::register::{FIRST_STATE, next_state};
use parquet_plain::{read_file, write_file};
use row_base::limits::MAX_FILE_ROWS;
use row_base::{Column, Datum, Kind, NoMemory, Rows, Schema, Text};
use std::alloc::{AllocError, Global};

/// How many texts the table of repeated texts has.
const WORDS: u64 = 100;

/// The room for a row.
const MOST_DATA: usize = 2;

/// Makes so many rows of a table, and goes on from there as far as the step says; gives the number of bytes or rows.
pub fn run(alloc: Global, step: Step, table: Table, count: u32) -> Result<u64, KernelFault>
    ensures ok { IfOk result (λ answer. answer ≡ spec.answer_of step table count) }
    ensures err { IfErr result (spec.IsFailure table count) }
{
    match step {
        Step::Rows => Ok(rows_of(alloc, table, count)?.len() as u64),
        Step::Write => Ok(file_of(alloc, table, count)?.len() as u64),
        Step::Copy => Ok(copy_of(alloc, &file_of(alloc, table, count)?)?.len() as u64),
        Step::Read => Ok(count_rows(alloc, table, &file_of(alloc, table, count)?)?),
    }
}

/// The file of so many rows of a table, where a file holds as many.
fn file_of(alloc: Global, table: Table, count: u32) -> Result<Vec<u8>, KernelFault>
    ensures text { IfOk result (λ bytes. bytes.items ≡ file_text (spec.schema_of table) (spec.rows_of table count)) }
    ensures few { OnOk result (count ≤ MAX_FILE_ROWS) }
    ensures err { IfErr result (λ e. (e ≡ KernelFault.NoMemory) ⊎ ((e ≡ KernelFault.Rows) × (MAX_FILE_ROWS < count))) }
{
    if count as usize > MAX_FILE_ROWS {
        return Err(KernelFault::Rows);
    }
    let schema = schema_of(alloc, table)?;
    let rows = rows_of(alloc, table, count)?;
    Ok(write_file(alloc, &schema, &rows)?)
}

/// A copy of bytes.
fn copy_of(alloc: Global, bytes: &[u8]) -> Result<Vec<u8>, AllocError>
    ensures { IfOk result (λ copy. copy.items ≡ bytes.now) }
{
    let mut copy = Vec::with_capacity(alloc, bytes.len())?;
    copy.extend_from_slice(bytes)?;
    Ok(copy)
}

/// How many rows of a table a file reads as.
fn count_rows(alloc: Global, table: Table, bytes: &[u8]) -> Result<u64, KernelFault>
    ensures ok { IfOk result (λ count. (rows : List (List DatumValue)) × (file_rows (spec.schema_of table) bytes.now ≡ Ok rows) × (count ≡ length rows)) }
    ensures err { IfErr result (λ e. (e ≡ KernelFault.NoMemory) ⊎ ((fault : FileFault) × (e ≡ KernelFault.Parquet fault) × FaultOf fault (file_rows (spec.schema_of table) bytes.now))) }
{
    let schema = schema_of(alloc, table)?;
    match read_file(alloc, &schema, bytes) {
        Ok(rows) => Ok(rows.len() as u64),
        Err(fault) => Err(KernelFault::Parquet(fault)),
    }
}

/// The schema of a table.
fn schema_of(alloc: Global, table: Table) -> Result<Schema, NoMemory>
    ensures { IfOk result (λ schema. schema ≡ spec.schema_of table) }
{
    let columns = columns_of(alloc, table)?;
    Ok(Schema::make(columns, Vec::new(alloc)).unwrap())
}

/// The columns of a table.
fn columns_of(alloc: Global, table: Table) -> Result<Vec<Column>, NoMemory>
    ensures { IfOk result (λ columns. columns.items ≡ spec.columns_of table) }
{
    let mut columns = Vec::new(alloc);
    match table {
        Table::Longs => {
            columns.push(column(alloc, "k", Kind::Long, false)?)?;
            columns.push(column(alloc, "v", Kind::Long, false)?)?;
        }
        Table::Words | Table::Texts => columns.push(column(alloc, "text", Kind::String, false)?)?,
        Table::Booleans => columns.push(column(alloc, "flag", Kind::Boolean, true)?)?,
    }
    Ok(columns)
}

fn column(alloc: Global, name: &str, kind: Kind, nullable: bool) -> Result<Column, NoMemory>
    ensures { IfOk result (λ column. column ≡ spec.column name.now kind nullable) }
{
    Ok(Column {
        name: Text::make(alloc, name)?,
        kind,
        nullable,
    })
}

/// So many rows of a table.
#[tactic(auto, unfolding(crate::specs::Tables::rows_of, crate::specs::Register::state_after))]
fn rows_of(alloc: Global, table: Table, count: u32) -> Result<Rows, NoMemory>
    ensures { IfOk result (λ rows. rows ≡ spec.rows_of table count) }
{
    let words = words_of(alloc)?;
    let mut rows = Rows::new(alloc);
    let mut row = Vec::with_capacity(alloc, MOST_DATA)?;
    let mut state = FIRST_STATE;
    for number in 0..count {
        state = next_state(state);
        push_data(alloc, words.as_slice(), table, number, state, &mut row)?;
        rows.push_from(&mut row)?;
    }
    Ok(rows)
}

/// The texts of the table of repeated texts.
fn words_of(alloc: Global) -> Result<Vec<Text>, NoMemory>
    ensures { IfOk result (λ words. words.items ≡ spec.words) }
{
    let mut words = Vec::with_capacity(alloc, WORDS as usize)?;
    for number in 0..WORDS {
        words.push(Text::from_string(word_of(alloc, number)?)?)?;
    }
    Ok(words)
}

fn word_of(alloc: Global, number: u64) -> Result<String, AllocError>
    ensures { IfOk result (λ text. string_bytes text ≡ spec.word_of number) }
{
    format!(in alloc; "word {number}")
}

/// Puts the data of a number's row behind a list, by a state of the shift register.
fn push_data(
    alloc: Global,
    words: &[Text],
    table: Table,
    number: u32,
    state: u64,
    row: &mut Vec<Datum>,
) -> Result<(), NoMemory>
    requires { words.now ≡ spec.words }
    ensures { OnOk result (row.new.items ≡ row.old.items ++ spec.row_of table number state) }
{
    match table {
        Table::Longs => {
            row.push(Datum::Long(i64::from(number)))?;
            row.push(Datum::Long((state / 2) as i64))?;
        }
        Table::Words => row.push(Datum::Text(word_at(words, state)?))?,
        Table::Texts => {
            row.push(Datum::Text(Text::from_string(text_of(alloc, number, state)?)?))?;
        }
        Table::Booleans => row.push(flag_of(state))?,
    }
    Ok(())
}

/// The word that a state picks.
fn word_at(words: &[Text], state: u64) -> Result<Text, NoMemory>
    requires { words.now ≡ spec.words }
    ensures { IfOk result (λ word. word ≡ spec.word_of (state % 100)) }
{
    words[(state % WORDS) as usize].copy()
}

/// A text that no other row has.
fn text_of(alloc: Global, number: u32, state: u64) -> Result<String, AllocError>
    ensures { IfOk result (λ text. string_bytes text ≡ spec.text_of number state) }
{
    format!(in alloc; "text {number} {state}")
}

/// Null, true or false.
fn flag_of(state: u64) -> Datum
    ensures { result ≡ spec.flag_of (state % 3) }
{
    match state % 3 {
        0 => Datum::Null,
        rest => Datum::Boolean(rest == 1),
    }
}
