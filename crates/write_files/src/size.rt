//! The plain size of rows.
ghost use Rattle.std.specs.Prelude.{◌≡◌};
ghost use Rattle.write_files.specs.Pieces as spec;

use crate::limits::MAX_NEW_FILE_ROWS;
use row_base::Datum;

/// The plain size of a datum in bytes: one, and what its kind takes.
fn datum_size(datum: &Datum) -> u64
    ensures { result ≡ spec.datum_size datum.now }
{
    match datum {
        Datum::Null => 1,
        Datum::Long(_) => 9,
        Datum::Integer(_) => 5,
        Datum::Boolean(_) => 2,
        Datum::Text(text) => 5 + text.as_bytes().len() as u64,
        Datum::Date(_) => 5,
    }
}

/// The bytes that are left of so many behind a row, where it has room in them.
pub(crate) fn room_after(room: u64, row: &[Datum]) -> Option<u64>
    ensures { result ≡ spec.room_after room row.now }
{
    let mut left = room;
    for datum in row {
        left = left.checked_sub(datum_size(datum))?;
    }
    Some(left)
}

/// The bytes that are left of so many behind a row, where a file of so many rows has room for it.
pub(crate) fn room_behind(count: usize, room: u64, row: &[Datum]) -> Option<u64>
    ensures { result ≡ spec.room_behind count room row.now }
{
    if count < MAX_NEW_FILE_ROWS {
        room_after(room, row)
    } else {
        None
    }
}
