//! What comes of rows, one by one.
ghost use Rattle.std.specs.Prelude.{◌≡◌, ◌++◌, ◌∷◌, [], true, IfOk, OnOk, None, Some};
ghost use Rattle.dml_ops.specs.Images.{is_memory};
ghost use Rattle.dml_ops.specs.Outcomes as spec;

use crate::{ImageFault, OpFault, Wrong, WrongRow};
use row_base::{Datum, NoMemory, Row, Rows, cmp_rows};
use std::alloc::Global;

/// What came of rows so far, and the least row of which nothing came.
#[derive(Drop)]
pub struct Gathered {
    pub rows: Rows,
    pub least: Option<WrongRow>,
}

/// A row of these data. The bytes of texts are shared.
pub fn copied_row(alloc: Global, row: &[Datum]) -> Result<Row, NoMemory>
    ensures { IfOk result (λ r. r ≡ row.now) }
{
    let mut values = Vec::with_capacity(alloc, row.len())?;
    for datum in row {
        values.push(datum.copy()?)?;
    }
    Ok(Row::make(values))
}

/// Whether the least wrong row so far gives way to this one.
fn gives_way(least: &Option<WrongRow>, row: &[Datum]) -> bool
    ensures { result ≡ spec.gives_way spec.its_row least.now row.now }
{
    match least {
        Some(wrong) => cmp_rows(wrong.row.as_slice(), row).is_gt(),
        None => true,
    }
}

impl Gathered {
    /// Nothing yet.
    pub fn new(alloc: Global) -> Gathered
        ensures rows { result.rows ≡ [] }
        ensures least { result.least ≡ None }
    {
        Gathered {
            rows: Rows::new(alloc),
            least: None,
        }
    }

    /// Takes a row that stays, by move. The list of its data is left without any, with its room.
    pub fn keep(&mut self, row: &mut Vec<Datum>) -> Result<(), NoMemory>
        ensures rows { OnOk result (self.new.rows ≡ self.old.rows ++ row.old.items ∷ []) }
        ensures least { self.new.least ≡ self.old.least }
    {
        self.rows.push_from(row)
    }

    /// Notes that nothing came of a row.
    pub fn note(&mut self, alloc: Global, row: &[Datum], wrong: Wrong) -> Result<(), NoMemory>
        ensures rows { self.new.rows ≡ self.old.rows }
        ensures least { OnOk result (self.new.least ≡ spec.lesser self.old.least (Some (record { row = row.now; wrong = wrong }))) }
    {
        if gives_way(&self.least, row) {
            let row = copied_row(alloc, row)?;
            self.least = Some(WrongRow { row, wrong });
        }
        Ok(())
    }

    /// Takes what came of a row.
    pub fn put(
        &mut self,
        alloc: Global,
        row: &[Datum],
        image: Result<Row, ImageFault>,
    ) -> Result<(), NoMemory>
        ensures rows { OnOk result (self.new.rows ≡ self.old.rows ++ spec.given (spec.one image)) }
        ensures least { OnOk result (self.new.least ≡ spec.lesser self.old.least (spec.wrong_of row.now (spec.one image))) }
        ensures told { OnOk result (spec.is_told image ≡ true) }
    {
        match image {
            Ok(image) => {
                let mut data = image.into_vec();
                self.rows.push_from(&mut data)?;
                Ok(())
            }
            Err(ImageFault::Wrong(wrong)) => {
                self.note(alloc, row, wrong)?;
                Ok(())
            }
            Err(ImageFault::NoMemory) => Err(NoMemory),
        }
    }

    /// What came of all the rows, or the least one of which nothing came.
    pub fn finish(self) -> Result<Rows, OpFault>
        ensures { result ≡ spec.finished self.rows self.least }
    {
        let Gathered { rows, least } = self;
        match least {
            Some(wrong) => Err(OpFault::from(wrong)),
            None => Ok(rows),
        }
    }
}
