//! Data, literal rows and data files.
ghost use Rattle.std.specs.Prelude.{◌≡◌, IfOk};

use crate::{NoMemory, Rows, Text, cmp_rows};
use std::alloc::Global;
use std::cmp::Ordering;
use std::marker::Model;

/// The kind of a column: a primitive type of the Delta protocol's schema (PROTOCOL.md, "Schema
/// Serialization Format").
#[derive(Clone, Copy, Debug, Drop, PartialEq, Eq)]
pub enum Kind {
    Long,
    Integer,
    Boolean,
    String,
    Date,
}

/// One value of a row. A date is its number of days since 1970-01-01.
#[derive(Debug, Drop, PartialEq, Eq, PartialOrd, Ord, Hash)]
pub enum Datum {
    Null,
    Long(i64),
    Integer(i32),
    Boolean(bool),
    Text(Text),
    Date(i32),
}

impl Datum {
    /// An equal datum. A text's bytes are shared.
    pub fn copy(&self) -> Result<Datum, NoMemory>
        ensures { IfOk result (λ d. d ≡ self.now) }
    {
        match self {
            Datum::Null => Ok(Datum::Null),
            Datum::Long(n) => Ok(Datum::Long(*n)),
            Datum::Integer(n) => Ok(Datum::Integer(*n)),
            Datum::Boolean(b) => Ok(Datum::Boolean(*b)),
            Datum::Text(text) => Ok(Datum::Text(text.copy()?)),
            Datum::Date(day) => Ok(Datum::Date(*day)),
        }
    }
}

/// A literal row: a datum for each column, in the order of the columns. Rows of a list are borrowed as `&[Datum]`.
#[derive(Debug, Drop)]
pub struct Row {
    values: Vec<Datum>,
}

impl Model for Row {
    ghost use Rattle.std.specs.Prelude.{List};
    ghost use Rattle.row_base.specs.declared.row.Datum.{Datum};

    ghost Value = { List Datum };

    ghost view = { λ a. a.values.items };
}

impl Row {
    /// The row of these data.
    pub fn make(values: Vec<Datum>) -> Row
        ensures { result ≡ values.items }
    {
        Row { values }
    }

    /// Its data.
    pub fn as_slice(&self) -> &[Datum]
        ensures { result.now ≡ self.now }
    {
        self.values.as_slice()
    }

    /// Its data, handed over.
    pub fn into_vec(self) -> Vec<Datum>
        ensures { result.items ≡ self }
    {
        self.values
    }

    /// An equal row. The bytes of its texts are shared.
    pub fn copy(&self, alloc: Global) -> Result<Row, NoMemory>
        ensures { IfOk result (λ r. r ≡ self.now) }
    {
        let mut values = Vec::with_capacity(alloc, self.values.len())?;
        for datum in self.values.as_slice() {
            values.push(datum.copy()?)?;
        }
        Ok(Row { values })
    }
}

impl PartialEq for Row {
    ghost use Rattle.std.specs.Cmp.{partial_equiv_from_equiv};
    ghost use Rattle.row_base.specs.RowOrder.{row_eq};
    ghost use Rattle.row_base.specs.RowOrderLaws.{row_eq_equivalence};

    ghost eq = { row_eq };

    ghost laws = { partial_equiv_from_equiv row_eq_equivalence };

    fn eq(&self, other: &Row) -> bool {
        cmp_rows(self.as_slice(), other.as_slice()).is_eq()
    }
}

impl Eq for Row {
    ghost use Rattle.row_base.specs.RowOrderLaws.{row_eq_equivalence};

    ghost laws = { row_eq_equivalence };
}

impl Ord for Row {
    ghost use Rattle.std.specs.Prelude.{refl};
    ghost use Rattle.row_base.specs.RowOrder.{row_cmp};
    ghost use Rattle.row_base.specs.RowOrderLaws.{row_cmp_total};

    ghost cmp = { row_cmp };

    ghost total = { row_cmp_total };

    ghost matches_partial_cmp = { λ x y. refl };

    ghost matches_eq = { λ x y. refl };

    fn cmp(&self, other: &Row) -> Ordering {
        cmp_rows(self.as_slice(), other.as_slice())
    }
}

impl PartialOrd for Row {
    ghost use Rattle.std.specs.Prelude.{refl};
    ghost use Rattle.std.specs.Ordering.{as_partial_cmp};
    ghost use Rattle.std.specs.Cmp.{partial_order_from_agreeing_total};
    ghost use Rattle.row_base.specs.RowOrder.{row_cmp};
    ghost use Rattle.row_base.specs.RowOrderLaws.{row_cmp_total};

    ghost partial_cmp = { as_partial_cmp row_cmp };

    ghost laws = { partial_order_from_agreeing_total row_cmp row_cmp_total (λ x y. refl) (λ x y. refl) };

    fn partial_cmp(&self, other: &Row) -> Option<Ordering> {
        Some(self.cmp(other))
    }
}

/// A data file's path, as the log has it, and the rows that it holds.
#[derive(Debug, Drop)]
pub struct ScannedFile {
    pub path: Text,
    pub rows: Rows,
}

impl ScannedFile {
    /// An equal file.
    pub fn copy(&self, alloc: Global) -> Result<ScannedFile, NoMemory>
        ensures { IfOk result (λ f. f ≡ self.now) }
    {
        Ok(ScannedFile {
            path: self.path.copy()?,
            rows: self.rows.copy(alloc)?,
        })
    }
}
