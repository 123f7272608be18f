//! The rows of a source by their keys.
ghost use Rattle.std.specs.Prelude.{◌≡◌, ◌<◌, ◌==◌, true, false, nat_lt, length, List, IfOk, Some, option_copied};
ghost use Rattle.std.specs.BTreeMap.{get};
ghost use Rattle.std.specs.List.{list_all, list_any};
ghost use Rattle.row_base.specs.RowOrder.{row_cmp, row_eq};
ghost use Rattle.row_base.specs.declared.row.Datum.{Datum};
ghost use Rattle.predicates.specs.Truths;
ghost use Rattle.merge_op.specs.Matches.{key_data, has_null};
ghost use Rattle.merge_op.specs.Found.{IsKeyed, NoneMet, found_view, is_met, met_by, with_row};

use row_base::{Datum, NoMemory, Row, Rows};
use std::alloc::Global;
use std::collections::BTreeMap;

/// The first row of a source with a key, whether there is another one, and whether a row of the table has the key.
#[derive(Clone, Copy, Drop)]
pub struct Found<'a> {
    pub row: &'a [Datum],
    pub several: bool,
    pub met: bool,
}

/// The rows of a source by their keys.
pub type Keyed<'a> = BTreeMap<Row, Found<'a>>;

/// What stands in a column.
fn cell(row: &[Datum], column: u32) -> &Datum
    requires { column < length row.now }
    ensures { result.now ≡ Truths.cell row.now column }
{
    &row[column as usize]
}

fn is_null(datum: &Datum) -> bool
    ensures { result ≡ Truths.is_null datum.now }
{
    matches!(datum, Datum::Null)
}

/// Whether a key column is null in a row.
pub(crate) fn is_null_key(keys: &[u32], row: &[Datum]) -> bool
    requires { list_all (λ c. nat_lt c (length row.now)) keys.now ≡ true }
    ensures { result ≡ has_null keys.now row.now }
{
    for column in keys {
        if is_null(cell(row, *column)) {
            return true;
        }
    }
    false
}

/// The data of the key columns of a row. The bytes of texts are shared.
pub(crate) fn key_of(alloc: Global, keys: &[u32], row: &[Datum]) -> Result<Row, NoMemory>
    requires { list_all (λ c. nat_lt c (length row.now)) keys.now ≡ true }
    ensures { IfOk result (λ k. k ≡ key_data keys.now row.now) }
{
    let mut key = Vec::with_capacity(alloc, keys.len())?;
    for column in keys {
        key.push(cell(row, *column).copy()?)?;
    }
    Ok(Row::make(key))
}

/// What stands under a key once this row has come.
fn found_with<'a>(found: Option<&Found<'a>>, row: &'a [Datum]) -> Found<'a>
    ensures found { Some (result.row.now, result.several) ≡ with_row (found_view (option_copied found.entry)) row.now }
    ensures unmet { result.met ≡ false }
{
    match found {
        Some(first) => Found {
            row: first.row,
            several: true,
            met: false,
        },
        None => Found {
            row,
            several: false,
            met: false,
        },
    }
}

/// The rows of a source by their keys, before a row of the table has one of them.
#[tactic(auto, using(crate::proofs::Keyings::first_is))]
pub(crate) fn keyed<'a>(
    alloc: Global,
    keys: &[u32],
    source: &'a Rows,
) -> Result<Keyed<'a>, NoMemory>
    requires { list_all (λ s. list_all (λ c. nat_lt c (length s)) keys.now) source.now ≡ true }
    ensures keyed { IfOk result (λ m. IsKeyed keys.now source.now m) }
    ensures unmet { IfOk result NoneMet }
{
    let mut keyed = BTreeMap::new(alloc);
    for row in source.iter() {
        let key = key_of(alloc, keys, row)?;
        let found = found_with(keyed.get(&key), row);
        keyed.insert(key, found)?;
    }
    Ok(keyed)
}

/// What stands under a key, which a row of the table has.
pub(crate) fn meet<'a>(keyed: &mut Keyed<'a>, key: &Row) -> Option<Found<'a>>
    ensures found { result ≡ get row_cmp keyed.old key.now }
    ensures met { (q : List Datum) → get row_cmp keyed.new q ≡ met_by (row_eq key.now q) (get row_cmp keyed.old q) }
{
    match keyed.get_mut(key) {
        Some(found) => {
            let first = *found;
            found.met = true;
            Some(first)
        }
        None => None,
    }
}

/// Whether a row of the table has a key.
pub(crate) fn has_met(keyed: &Keyed<'_>, key: &Row) -> bool
    ensures { result ≡ is_met (get row_cmp keyed.now key.now) }
{
    match keyed.get(key) {
        Some(found) => found.met,
        None => false,
    }
}
