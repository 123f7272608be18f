//! The files of a scan, got one after another.
ghost use Rattle.std.specs.Prelude.{◌≡◌, ◌∷◌, ◌++◌, [], IfOk};
ghost use Rattle.parquet_meta.specs.Faults.{Reads};
ghost use Rattle.scan.specs.Files.{rows_of};

use crate::fill::filled_rows;
use crate::wanted::{WantedFile, WantedFiles};
use call_phases::{Reader, Unread};
use edge_api::{Body, Name};
use parquet_meta::FileFault;
use parquet_plain::read_file;
use row_base::{Items, NoMemory, Rows, ScannedFile, Schema};
use std::alloc::Global;
use std::mem;

/// The files that are still wanted, and those that were got before them with their rows.
#[derive(Drop)]
pub(crate) struct FilesToGet {
    pub alloc: Global,
    pub schema: Schema,
    pub wanted: WantedFiles,
    pub got: Items<ScannedFile>,
}

/// The rows of a file by its body.
fn rows_of(
    alloc: Global,
    schema: &Schema,
    file: &WantedFile,
    body: &Body,
) -> Result<Rows, FileFault>
    ensures { Reads result (rows_of schema.now file.now body.now) }
{
    let rows = read_file(alloc, schema, body.as_bytes())?;
    let rows = filled_rows(alloc, schema, file.values.as_slice(), rows)?;
    Ok(rows)
}

/// One more file. The error is want of memory.
fn with_file(got: Items<ScannedFile>, file: ScannedFile) -> Result<Items<ScannedFile>, NoMemory>
    ensures { IfOk result (λ all. all ≡ got ++ file ∷ []) }
{
    let mut all = got.into_vec();
    all.push(file)?;
    Ok(Items::from_vec(all))
}

impl Reader for FilesToGet {
    type Fault = FileFault;

    ghost use Rattle.scan.specs.Reader.{wanted_name, files_left_of, after_body};

    ghost wants = { wanted_name };

    ghost left = { files_left_of };

    ghost after = { after_body };

    fn name(&self) -> Result<Option<Name>, NoMemory> {
        self.wanted.copy_first_name()
    }

    fn read(&mut self, body: Body) -> Result<(), Unread<FileFault>> {
        let Some(file) = self.wanted.take_first() else {
            unreachable!()
        };
        let rows = match rows_of(self.alloc, &self.schema, &file, &body) {
            Ok(rows) => rows,
            Err(FileFault::NoMemory) => return Err(Unread::NoMemory),
            Err(fault) => return Err(Unread::Bad(fault)),
        };
        let path = file.path;
        let got = mem::replace(&mut self.got, Items::from_vec(Vec::new(self.alloc)));
        let Ok(got) = with_file(got, ScannedFile { path, rows }) else {
            return Err(Unread::NoMemory);
        };
        self.got = got;
        Ok(())
    }
}
