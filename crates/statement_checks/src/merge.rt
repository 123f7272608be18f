//! Merges.
ghost use Rattle.std.specs.Prelude.{◌≡◌, ◌==◌, true, length, IfOk};
ghost use Rattle.std.specs.List.{All, list_all};
ghost use Rattle.row_base.specs.Faults.{Reads};
ghost use Rattle.row_base.specs.Schema.{FitsSchema};
ghost use Rattle.predicates.specs.Binding.{is_memory};
ghost use Rattle.op_types.specs.Bound.{is_change_bound, is_matched_bound, is_by_source_bound, is_merge_bound};
ghost use Rattle.statement_checks.specs.Operations.{change_in, matched_in, by_source_in, source_in, merge_in};
ghost use Rattle.statement_checks.specs.Plain.{is_change_plain, is_by_source_plain};
ghost use Rattle.statement_checks.specs.Rows as rows;

use crate::column::places;
use crate::sets::bound_sets;
use crate::{RowsFault, literal_rows};
use op_types::{BySource, Change, MergeOp, MergeSpec};
use predicates::BindFault;
use row_base::{Rows, Schema, Text};
use std::alloc::Global;

/// What becomes of a row, over places. Where no expression has a cell of a source row, it needs none.
fn bound_change(
    alloc: Global,
    schema: &Schema,
    change: &Change<Text>,
) -> Result<Change<u32>, BindFault>
    ensures read { Reads is_memory result (change_in schema.now.columns change.now) }
    ensures bound { IfOk result (λ c. is_change_bound (length schema.now.columns) (length schema.now.columns) c ≡ true) }
    ensures plain { is_change_plain change.now ≡ true → IfOk result (λ c. is_change_bound (length schema.now.columns) 0 c ≡ true) }
{
    match change {
        Change::Update(sets) => Ok(Change::Update(bound_sets(alloc, schema, sets.as_slice())?)),
        Change::Delete => Ok(Change::Delete),
    }
}

/// The clause of matched rows, over places.
fn bound_matched(
    alloc: Global,
    schema: &Schema,
    matched: &Option<Change<Text>>,
) -> Result<Option<Change<u32>>, BindFault>
    ensures read { Reads is_memory result (matched_in schema.now.columns matched.now) }
    ensures bound { IfOk result (λ m. is_matched_bound (length schema.now.columns) m ≡ true) }
{
    match matched {
        Some(change) => Ok(Some(bound_change(alloc, schema, change)?)),
        None => Ok(None),
    }
}

/// The clause of rows that no row of the source matches, over places.
fn bound_by_source(
    alloc: Global,
    by_source: &Option<BySource<Text>>,
    schema: &Schema,
) -> Result<Option<BySource<u32>>, BindFault>
    ensures read { Reads is_memory result (by_source_in schema.now.columns by_source.now) }
    ensures bound { is_by_source_plain by_source.now ≡ true → IfOk result (λ s. is_by_source_bound (length schema.now.columns) s ≡ true) }
{
    match by_source {
        Some(clause) => {
            let pred = clause.pred.bind(alloc, schema)?;
            let change = bound_change(alloc, schema, &clause.change)?;
            Ok(Some(BySource { pred, change }))
        }
        None => Ok(None),
    }
}

/// Whether each row has so many data.
fn all_have(rows: &Rows, count: usize) -> bool
    ensures { result ≡ list_all (λ r. length r == count) rows.now }
{
    rows.iter().all(|row| row.len() == count)
}

/// The rows of a source, each with a datum for each column.
fn counted_rows(alloc: Global, schema: &Schema, rows: &Rows) -> Result<Rows, BindFault>
    ensures read { Reads is_memory result (source_in schema.now.columns rows.now) }
    ensures count { IfOk result (λ rs. list_all (λ r. length r == length schema.now.columns) rs ≡ true) }
{
    if all_have(rows, schema.columns().len()) {
        Ok(rows.copy(alloc)?)
    } else {
        Err(BindFault::Count)
    }
}

/// A merge over places, or the first fault from the left: the key columns, each of which must exist (`Column`) and
/// stand once (`Twice`), `Count` where a row of the source hasn't a datum for each column, and then the clauses. The
/// rows of the source are as they came: `settled_merge` makes them rows of the table. Expressions of the clause of rows
/// that no row of the source matches may have no cell of a source row.
pub fn bound_merge(
    alloc: Global,
    schema: &Schema,
    merge: &MergeSpec<Text>,
) -> Result<MergeOp, BindFault>
    ensures read { Reads is_memory result (merge_in schema.now merge.now) }
    ensures bound { is_by_source_plain merge.now.by_source ≡ true → IfOk result (λ m. is_merge_bound (length schema.now.columns) m ≡ true) }
{
    let keys = places(alloc, schema.columns(), merge.keys.as_slice())?;
    let source = counted_rows(alloc, schema, &merge.source)?;
    let matched = bound_matched(alloc, schema, &merge.matched)?;
    let by_source = bound_by_source(alloc, &merge.by_source, schema)?;
    Ok(MergeSpec {
        keys,
        source,
        matched,
        insert: merge.insert,
        by_source,
    })
}

/// A merge over places with the rows of its source as the table takes them, whether or not a clause adds rows: a long
/// in a column of integers is an integer, so that it can match one. Else the first row of the source that doesn't fit,
/// as it came, and why.
#[tactic(auto, using(crate::proofs::Fitting::stays_bound))]
pub fn settled_merge(alloc: Global, schema: &Schema, merge: MergeOp) -> Result<MergeOp, RowsFault>
    ensures read { Reads rows.is_memory result (rows.merge_rows_in schema.now merge) }
    ensures fits { IfOk result (λ m. All (FitsSchema schema.now) m.source) }
    ensures bound { is_merge_bound (length schema.now.columns) merge ≡ true → IfOk result (λ m. is_merge_bound (length schema.now.columns) m ≡ true) }
{
    let source = literal_rows(alloc, schema, &merge.source)?;
    Ok(MergeSpec { source, ..merge })
}
