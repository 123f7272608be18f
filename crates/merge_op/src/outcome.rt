//! What a merge makes of rows, one by one.
ghost use Rattle.std.specs.Prelude.{◌≡◌, ◌++◌, ◌&&◌, ◌==◌, true, length, is_some, IfSome, OnOk, option_copied};
ghost use Rattle.std.specs.List.{All, list_all, list_any};
ghost use Rattle.op_types.specs.Bound.{is_change_bound, is_by_source_bound, is_merge_bound};
ghost use Rattle.dml_ops.specs.Outcomes.{given, wrong_of, lesser, rows_of, least_of};
ghost use Rattle.merge_op.specs.Found.{IsRowMatch, found_view, rows_beside};
ghost use Rattle.merge_op.specs.Merges as spec;

use crate::keys::Found;
use crate::matching::RowMatch;
use dml_ops::{Gathered, passes, updated_row};
use op_types::{BySource, Change, MergeOp};
use row_base::{Datum, NoMemory, Row, Schema, cmp_rows};
use std::alloc::Global;

/// The change of the rows that no row of the source matches, where this is one of them that it names.
fn change_by_source<'a>(clause: &'a Option<BySource<u32>>, row: &[Datum]) -> Option<&'a Change<u32>>
    requires { is_by_source_bound (length row.now) clause.now ≡ true }
    ensures change { option_copied result ≡ spec.change_by_source clause.now row.now }
    ensures bound { IfSome result (λ c. is_change_bound (length row.now) 0 c.now ≡ true) }
{
    match clause {
        Some(clause) if passes(&clause.pred, row) => Some(&clause.change),
        _ => None,
    }
}

/// The source row that a change sees, or no data.
fn source_of<'a>(found: Option<Found<'a>>) -> &'a [Datum]
    ensures { result.now ≡ spec.source_of (found_view found.entry) }
{
    match found {
        Some(found) => found.row,
        None => &[],
    }
}

/// The change of a row beside what matches it.
fn change_by<'a>(
    op: &'a MergeOp,
    found: Option<Found<'_>>,
    row: &[Datum],
) -> Option<&'a Change<u32>>
    requires bound { is_merge_bound (length row.now) op.now ≡ true }
    requires wide { IfSome found (λ f. length f.row.now ≡ length row.now) }
    ensures change { option_copied result ≡ spec.change_by op.now row.now (found_view found.entry) }
    ensures bound { IfSome result (λ c. is_change_bound (length row.now) (length (spec.source_of (found_view found.entry))) c.now ≡ true) }
{
    match found {
        Some(_) => op.matched.as_ref(),
        None => change_by_source(&op.by_source, row),
    }
}

/// Takes what a change makes of a row beside a source row.
#[tactic(auto, using(dml_ops::proofs::Told::told_is))]
fn put_changed(
    alloc: Global,
    schema: &Schema,
    change: &Change<u32>,
    row: &[Datum],
    source: &[Datum],
    gathered: &mut Gathered,
) -> Result<(), NoMemory>
    requires { is_change_bound (length row.now) (length source.now) change.now ≡ true }
    ensures rows { OnOk result (gathered.new.rows ≡ gathered.old.rows ++ given (spec.changed_to schema.now row.now source.now change.now)) }
    ensures least { OnOk result (gathered.new.least ≡ lesser gathered.old.least (wrong_of row.now (spec.changed_to schema.now row.now source.now change.now))) }
{
    match change {
        Change::Update(sets) => {
            let image = updated_row(alloc, schema, sets.as_slice(), row, source);
            gathered.put(alloc, row, image)?;
            Ok(())
        }
        Change::Delete => Ok(()),
    }
}

/// Takes what comes of a row.
fn merge_row(
    alloc: Global,
    op: &MergeOp,
    schema: &Schema,
    beside: &RowMatch<'_, '_>,
    gathered: &mut Gathered,
) -> Result<(), NoMemory>
    requires { IsRowMatch op.now beside.now }
    ensures rows { OnOk result (gathered.new.rows ≡ gathered.old.rows ++ given (spec.merge_step schema.now op.now beside.now.row.now)) }
    ensures least { OnOk result (gathered.new.least ≡ lesser gathered.old.least (wrong_of beside.now.row.now (spec.merge_step schema.now op.now beside.now.row.now))) }
{
    let RowMatch { row, found } = *beside;
    match change_by(op, found, row) {
        Some(change) => {
            put_changed(alloc, schema, change, row, source_of(found), gathered)?;
            Ok(())
        }
        None => {
            gathered.rows.push_copy(row)?;
            Ok(())
        }
    }
}

/// Takes what comes of the rows of a file.
pub(crate) fn merge_rows(
    alloc: Global,
    op: &MergeOp,
    schema: &Schema,
    matches: &[RowMatch<'_, '_>],
    gathered: &mut Gathered,
) -> Result<(), NoMemory>
    requires { All (IsRowMatch op.now) matches.now }
    ensures rows { OnOk result (gathered.new.rows ≡ gathered.old.rows ++ rows_of (spec.merge_step schema.now op.now) (rows_beside matches.now)) }
    ensures least { OnOk result (gathered.new.least ≡ lesser gathered.old.least (least_of (spec.merge_step schema.now op.now) (rows_beside matches.now))) }
{
    for beside in matches {
        merge_row(alloc, op, schema, beside, gathered)?;
    }
    Ok(())
}

/// Whether a clause changes a row.
fn is_changed(op: &MergeOp, beside: &RowMatch<'_, '_>) -> bool
    requires { IsRowMatch op.now beside.now }
    ensures { result ≡ is_some (spec.change_of op.now beside.now.row.now) }
{
    change_by(op, beside.found, beside.row).is_some()
}

/// Whether a clause changes one of these rows.
pub(crate) fn any_changed(op: &MergeOp, matches: &[RowMatch<'_, '_>]) -> bool
    requires { All (IsRowMatch op.now) matches.now }
    ensures { result ≡ spec.any_changed op.now (rows_beside matches.now) }
{
    for beside in matches {
        if is_changed(op, beside) {
            return true;
        }
    }
    false
}
