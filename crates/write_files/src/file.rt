//! New data files and the actions that add them.
ghost use Rattle.std.specs.Prelude.{◌≡◌, ◌+◌, ◌≤◌, ◌<◌, ◌^◌, length, None, IfOk};
ghost use Rattle.std.specs.List.{All};
ghost use Rattle.row_base.specs.declared.limits.TheConstants.{MAX_FILE_ROWS, MAX_OBJECT_BYTES};
ghost use Rattle.row_base.specs.Schema.{FitsSchema};
ghost use Rattle.schema_text.specs.PartitionWritten.{HasText, partition_values};
ghost use Rattle.parquet_plain.specs.Written.{file_text};
ghost use Rattle.commit_plans.specs.Plans.{added_file};
ghost use Rattle.write_files.specs.Pieces.{first_row};
ghost use Rattle.write_files.specs.Files as spec;

use call_phases::File;
use commit_plans::added_file;
use edge_api::{Body, Name, Tag};
use log_actions::{AddFile, PartitionMap};
use parquet_plain::write_file;
use row_base::limits::MAX_OBJECT_BYTES;
use row_base::{Datum, NoMemory, Row, Rows, Schema};
use schema_text::write_partition;
use std::alloc::Global;
use std::collections::VecDeque;
use table_rules::data_file_name;

/// What all files of a statement share: the statement's tag, its start in milliseconds since 1970, and whether the rows
/// are new to the table.
#[derive(Clone, Copy, Drop)]
pub(crate) struct Origin {
    pub tag: Tag,
    pub start: u64,
    pub change: bool,
}

/// A data file and the action that adds it.
#[derive(Drop)]
pub(crate) struct NewFile {
    pub file: File,
    pub add: AddFile,
}

/// Data files and the actions that add them, in order of the parts.
#[derive(Drop)]
pub(crate) struct NewFiles {
    pub files: VecDeque<File>,
    pub adds: Vec<AddFile>,
}

/// An equal row, of its own. The bytes of its texts are shared.
fn copied_row(alloc: Global, row: &[Datum]) -> Result<Row, NoMemory>
    ensures { IfOk result (λ r. r ≡ row.now) }
{
    let mut values = Vec::with_capacity(alloc, row.len())?;
    for datum in row {
        values.push(datum.copy()?)?;
    }
    Ok(Row::make(values))
}

/// The first of these rows, or one without data where there is none.
#[tactic(auto, using(crate::proofs::Firsts::first_some, crate::proofs::Firsts::first_none))]
fn first_row(alloc: Global, rows: &Rows) -> Result<Row, NoMemory>
    ensures { IfOk result (λ r. r ≡ first_row rows.now) }
{
    match rows.get(0) {
        Some(row) => copied_row(alloc, row),
        None => Ok(Row::make(Vec::new(alloc))),
    }
}

/// The values of the partition columns in these rows, of which all have the same.
#[tactic(auto, using(crate::proofs::Firsts::first_texts))]
fn values_of(alloc: Global, schema: &Schema, rows: &Rows) -> Result<PartitionMap, NoMemory>
    requires { All (λ r. All HasText r) rows.now }
    ensures { IfOk result (λ m. m ≡ partition_values schema.now (first_row rows.now)) }
{
    let row = first_row(alloc, rows)?;
    let values = write_partition(alloc, schema, &row)?;
    Ok(values)
}

/// The bytes of the file of these rows. One that is too long to be read is refused as one for which no memory is left.
fn bytes_of(alloc: Global, schema: &Schema, rows: &Rows) -> Result<Vec<u8>, NoMemory>
    requires few { length rows.now ≤ MAX_FILE_ROWS }
    requires fits { All (FitsSchema schema.now) rows.now }
    ensures bytes { IfOk result (λ v. v.items ≡ file_text schema.now rows.now) }
    ensures readable { IfOk result (λ v. length v.items ≤ MAX_OBJECT_BYTES) }
{
    let bytes = write_file(alloc, schema, rows)?;
    if bytes.len() > MAX_OBJECT_BYTES {
        return Err(NoMemory);
    }
    Ok(bytes)
}

/// The add of a file of this name, values and size. Its statistics are to come.
fn add_of(name: &Name, values: PartitionMap, size: u64, origin: Origin) -> Result<AddFile, NoMemory>
    ensures { IfOk result (λ a. a ≡ spec.with_change origin.change (added_file name.now values size origin.start None)) }
{
    let mut add = added_file(name.as_text().copy()?, values, size, origin.start, None)?;
    add.data_change = origin.change;
    Ok(add)
}

impl NewFile {
    /// The file of these rows, as a statement's part.
    fn make(
        alloc: Global,
        schema: &Schema,
        origin: Origin,
        part: u32,
        rows: &Rows,
    ) -> Result<NewFile, NoMemory>
        requires { spec.CanBeWritten schema.now rows.now }
        ensures file { IfOk result (λ n. n.file ≡ spec.file_of schema.now origin.tag origin.start part rows.now) }
        ensures add { IfOk result (λ n. n.add ≡ spec.add_of schema.now origin.tag origin.start origin.change part rows.now) }
        ensures readable { IfOk result (λ n. spec.IsReadable n.add) }
    {
        let name = data_file_name(alloc, origin.tag, origin.start, part)?;
        let values = values_of(alloc, schema, rows)?;
        let bytes = bytes_of(alloc, schema, rows)?;
        let add = add_of(&name, values, bytes.len() as u64, origin)?;
        let body = Body::make(alloc, bytes)?;
        Ok(NewFile {
            file: File { name, body },
            add,
        })
    }
}

/// The number of the part that follows so many from this one on. One past 32 bits is refused as one for which no memory
/// is left.
fn part_after(first: u32, count: usize) -> Result<u32, NoMemory>
    ensures value { IfOk result (λ p. p ≡ first + count) }
    ensures small { IfOk result (λ p. p < 2 ^ 32) }
{
    match u32::try_from(count) {
        Ok(count) => first.checked_add(count).ok_or(NoMemory),
        Err(_) => Err(NoMemory),
    }
}

impl NewFiles {
    /// The files of these rows, numbered from this part on. The rows of each are let go once it is made.
    pub fn make(
        alloc: Global,
        schema: &Schema,
        origin: Origin,
        first: u32,
        pieces: VecDeque<Rows>,
    ) -> Result<NewFiles, NoMemory>
        requires { All (spec.CanBeWritten schema.now) pieces.items }
        ensures files { IfOk result (λ n. n.files.items ≡ spec.files_from schema.now origin.tag origin.start first pieces.items) }
        ensures adds { IfOk result (λ n. n.adds.items ≡ spec.adds_from schema.now origin.tag origin.start origin.change first pieces.items) }
        ensures readable { IfOk result (λ n. All spec.IsReadable n.adds.items) }
        ensures few { IfOk result (λ n. length n.adds.items ≤ 2 ^ 32) }
    {
        let count = pieces.len();
        let mut files = VecDeque::with_capacity(alloc, count)?;
        let mut adds = Vec::with_capacity(alloc, count)?;
        for rows in pieces {
            let part = part_after(first, adds.len())?;
            let NewFile { file, add } = NewFile::make(alloc, schema, origin, part, &rows)?;
            files.push_back(file)?;
            adds.push(add)?;
        }
        Ok(NewFiles { files, adds })
    }
}
