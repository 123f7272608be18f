//! The rows of a file beside what matches them.
ghost use Rattle.std.specs.Prelude.{◌≡◌, true, nat_lt, length, List, IfOk, OnOk};
ghost use Rattle.std.specs.BTreeMap.{get};
ghost use Rattle.std.specs.List.{All, list_all, list_any};
ghost use Rattle.row_base.specs.RowOrder.{row_cmp};
ghost use Rattle.row_base.specs.declared.row.Datum.{Datum};
ghost use Rattle.op_types.specs.Bound.{is_merge_bound};
ghost use Rattle.merge_op.specs.Found.{IsKeyed, IsRowMatch, found_under, has_key, met_by, rows_beside};

use crate::keys::{Found, Keyed, is_null_key, key_of, meet};
use op_types::MergeOp;
use row_base::{Datum, NoMemory, Rows};
use std::alloc::Global;

/// A row of the table, and the first row of the source that matches it.
#[derive(Clone, Copy, Drop)]
pub struct RowMatch<'r, 's> {
    pub row: &'r [Datum],
    pub found: Option<Found<'s>>,
}

/// What stands under the key of a row, where no datum of it is null. The row has the key from now on.
fn meet_row<'s>(
    alloc: Global,
    keys: &[u32],
    row: &[Datum],
    keyed: &mut Keyed<'s>,
) -> Result<Option<Found<'s>>, NoMemory>
    requires { list_all (λ c. nat_lt c (length row.now)) keys.now ≡ true }
    ensures found { IfOk result (λ o. o ≡ found_under keys.now keyed.old row.now) }
    ensures met { OnOk result ((q : List Datum) → get row_cmp keyed.new q ≡ met_by (has_key keys.now q row.now) (get row_cmp keyed.old q)) }
{
    if is_null_key(keys, row) {
        return Ok(None);
    }
    let key = key_of(alloc, keys, row)?;
    Ok(meet(keyed, &key))
}

/// A row beside what matches it.
fn match_row<'r, 's>(
    alloc: Global,
    op: &MergeOp,
    row: &'r [Datum],
    keyed: &mut Keyed<'s>,
) -> Result<RowMatch<'r, 's>, NoMemory>
    requires bound { is_merge_bound (length row.now) op.now ≡ true }
    requires keyed { IsKeyed op.now.keys op.now.source keyed.old }
    ensures row { IfOk result (λ m. m.row.now ≡ row.now) }
    ensures matches { IfOk result (IsRowMatch op.now) }
    ensures met { OnOk result ((q : List Datum) → get row_cmp keyed.new q ≡ met_by (has_key op.now.keys q row.now) (get row_cmp keyed.old q)) }
{
    let found = meet_row(alloc, op.keys.as_slice(), row, keyed)?;
    Ok(RowMatch { row, found })
}

/// The rows of a file beside what matches them. Each key is looked up once.
pub(crate) fn match_rows<'r, 's>(
    alloc: Global,
    op: &MergeOp,
    rows: &'r Rows,
    keyed: &mut Keyed<'s>,
) -> Result<Vec<RowMatch<'r, 's>>, NoMemory>
    requires bound { list_all (λ r. is_merge_bound (length r) op.now) rows.now ≡ true }
    requires keyed { IsKeyed op.now.keys op.now.source keyed.old }
    ensures rows { IfOk result (λ ms. rows_beside ms.items ≡ rows.now) }
    ensures matches { IfOk result (λ ms. All (IsRowMatch op.now) ms.items) }
    ensures met { OnOk result ((q : List Datum) → get row_cmp keyed.new q ≡ met_by (list_any (has_key op.now.keys q) rows.now) (get row_cmp keyed.old q)) }
{
    let mut matches = Vec::with_capacity(alloc, rows.len())?;
    for row in rows.iter() {
        let beside = match_row(alloc, op, row, keyed)?;
        matches.push(beside)?;
    }
    Ok(matches)
}
