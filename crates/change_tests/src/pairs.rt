//! Rows of two longs, `id` and `v`.
ghost use Rattle.std.specs.Prelude.{◌≡◌, ◌==◌, length};
ghost use Rattle.std.specs.List.{list_all};

use row_base::{Column, Datum, Kind, NoMemory, Rows, Schema, Text};
use std::alloc::Global;
use std::test::Fail;

/// A row of two longs; `None` is null.
pub type Pair = (Option<i64>, Option<i64>);

/// The row of two numbers.
pub fn pair(id: i64, v: i64) -> Pair {
    (Some(id), Some(v))
}

fn datum(value: Option<i64>) -> Datum {
    match value {
        Some(n) => Datum::Long(n),
        None => Datum::Null,
    }
}

/// These rows.
pub fn rows_of(alloc: Global, pairs: &[Pair]) -> Result<Rows, NoMemory> {
    let mut rows = Rows::new(alloc);
    for pair in pairs {
        rows.push_copy(&[datum(pair.0), datum(pair.1)])?;
    }
    Ok(rows)
}

/// Whether a row is this one.
pub fn is_pair(row: &[Datum], pair: Pair) -> bool {
    row == [datum(pair.0), datum(pair.1)].as_slice()
}

/// Whether the rows are these, in this order.
pub fn are_pairs(rows: &Rows, pairs: &[Pair]) -> bool {
    if rows.len() != pairs.len() {
        return false;
    }
    for (i, pair) in pairs.iter().enumerate() {
        match rows.get(i) {
            Some(row) if is_pair(row, *pair) => {}
            _ => return false,
        }
    }
    true
}

/// Whether each row has two data.
pub fn are_wide(rows: &Rows) -> bool
    ensures { result ≡ list_all (λ r. length r == 2) rows.now }
{
    for row in rows.iter() {
        if row.len() != 2 {
            return false;
        }
    }
    true
}

/// A column of longs.
fn longs(alloc: Global, name: &str, nullable: bool) -> Result<Column, NoMemory> {
    Ok(Column {
        name: Text::make(alloc, name)?,
        kind: Kind::Long,
        nullable,
    })
}

/// `id long not null, v long`.
pub fn two_columns(alloc: Global) -> Result<Schema, Fail> {
    let mut columns = Vec::new(alloc);
    columns.push(longs(alloc, "id", false)?)?;
    columns.push(longs(alloc, "v", true)?)?;
    Ok(Schema::make(columns, Vec::new(alloc))?)
}
