//! The rows of the source that match no row of the table.
ghost use Rattle.std.specs.Prelude.{◌≡◌, true, length, nat_lt, ◌||◌, not, IfOk, filter};
ghost use Rattle.std.specs.List.{list_all};
ghost use Rattle.merge_op.specs.Found.{is_left};

use crate::keys::{Keyed, has_met, is_null_key, key_of};
use row_base::{Datum, NoMemory, Rows};
use std::alloc::Global;

/// Whether the key of a row is null, or no row of the table has it.
fn is_unmatched(
    alloc: Global,
    keys: &[u32],
    row: &[Datum],
    keyed: &Keyed<'_>,
) -> Result<bool, NoMemory>
    requires { list_all (λ c. nat_lt c (length row.now)) keys.now ≡ true }
    ensures { IfOk result (λ b. b ≡ is_left keys.now keyed.now row.now) }
{
    if is_null_key(keys, row) {
        return Ok(true);
    }
    let key = key_of(alloc, keys, row)?;
    Ok(!has_met(keyed, &key))
}

/// The rows of the source whose key is null, or which no row of the table has.
pub(crate) fn unmatched_rows(
    alloc: Global,
    keys: &[u32],
    source: &Rows,
    keyed: &Keyed<'_>,
) -> Result<Rows, NoMemory>
    requires { list_all (λ s. list_all (λ c. nat_lt c (length s)) keys.now) source.now ≡ true }
    ensures { IfOk result (λ r. r ≡ filter (is_left keys.now keyed.now) source.now) }
{
    let mut left = Rows::new(alloc);
    for row in source.iter() {
        if is_unmatched(alloc, keys, row, keyed)? {
            left.push_copy(row)?;
        }
    }
    Ok(left)
}
