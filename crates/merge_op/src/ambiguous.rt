//! The least row that two rows of the source match.
ghost use Rattle.std.specs.Prelude.{◌≡◌, ◌&&◌, is_some, Some, None, if◌then◌else◌, option_map};
ghost use Rattle.std.specs.List.{All};
ghost use Rattle.dml_ops.specs.Outcomes.{lesser_by, gives_way};
ghost use Rattle.merge_op.specs.Found.{IsRowMatch, rows_beside};
ghost use Rattle.merge_op.specs.Merges as spec;

use crate::matching::RowMatch;
use op_types::MergeOp;
use row_base::{Datum, cmp_rows};

/// A row that two rows of the source match, where a clause changes matched rows.
fn is_ambiguous(op: &MergeOp, beside: &RowMatch<'_, '_>) -> bool
    requires { IsRowMatch op.now beside.now }
    ensures { result ≡ spec.is_ambiguous op.now beside.now.row.now }
{
    match beside.found {
        Some(found) => op.matched.is_some() && found.several,
        None => false,
    }
}

/// Whether the least row so far gives way to this one.
fn is_lesser(row: &[Datum], least: Option<&[Datum]>) -> bool
    ensures { result ≡ gives_way spec.itself (option_map (λ l. l.now) least.entry) row.now }
{
    match least {
        Some(least) => cmp_rows(least, row).is_gt(),
        None => true,
    }
}

/// The lesser of the least row so far and this one, where it is ambiguous.
fn lesser_of<'r>(
    op: &MergeOp,
    beside: &RowMatch<'r, '_>,
    least: Option<&'r [Datum]>,
) -> Option<&'r [Datum]>
    requires { IsRowMatch op.now beside.now }
    ensures { option_map (λ l. l.now) result ≡ lesser_by spec.itself (option_map (λ l. l.now) least.entry) (if spec.is_ambiguous op.now beside.now.row.now then Some beside.now.row.now else None) }
{
    if !is_ambiguous(op, beside) {
        return least;
    }
    if is_lesser(beside.row, least) {
        return Some(beside.row);
    }
    least
}

/// The lesser of the least row so far and the ambiguous ones of these.
pub(crate) fn least_of<'r>(
    op: &MergeOp,
    matches: &[RowMatch<'r, '_>],
    first: Option<&'r [Datum]>,
) -> Option<&'r [Datum]>
    requires { All (IsRowMatch op.now) matches.now }
    ensures { option_map (λ l. l.now) result ≡ lesser_by spec.itself (option_map (λ l. l.now) first.entry) (spec.least_where (spec.is_ambiguous op.now) (rows_beside matches.now)) }
{
    let mut least = first;
    for beside in matches {
        least = lesser_of(op, beside, least);
    }
    least
}
