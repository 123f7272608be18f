//! A merge of the rows of a source into the rows of files.
ghost use Rattle.std.specs.Prelude.{◌≡◌, ◌++◌, ◌==◌, true, nat_lt, length, List, map, filter, if◌then◌else◌, ◌∷◌, [], OnOk, IfOk, option_map};
ghost use Rattle.std.specs.BTreeMap.{get};
ghost use Rattle.std.specs.Result.{result_map_both};
ghost use Rattle.std.specs.List.{All, list_all, list_any};
ghost use Rattle.row_base.specs.Faults.{Reads};
ghost use Rattle.row_base.specs.RowOrder.{row_cmp};
ghost use Rattle.row_base.specs.declared.row.Datum.{Datum};
ghost use Rattle.op_types.specs.Bound.{is_merge_bound};
ghost use Rattle.dml_ops.specs.Outcomes as outcomes;
ghost use Rattle.merge_op.specs.Found.{IsKeyed, IsRowMatch, has_key, is_left, met_by, rows_beside};
ghost use Rattle.merge_op.specs.Merges as spec;
ghost use Rattle.merge_op.specs.Merges.{is_merge_memory, is_touched, merge_step, merge_fault};

use crate::MergeFault;
use crate::ambiguous::least_of;
use crate::keys::{Keyed, keyed};
use crate::matching::{RowMatch, match_rows};
use crate::outcome::{any_changed, merge_rows};
use crate::unmatched::unmatched_rows;
use dml_ops::{Gathered, copied_row};
use op_types::MergeOp;
use row_base::{Datum, Items, NoMemory, Rows, ScannedFile, Schema, Text};
use std::alloc::Global;

/// What a merge makes of files.
#[derive(Drop)]
pub struct Merged {
    /// The paths of the files with a row that is replaced or taken away.
    pub removed: Items<Text>,
    /// The rows that come in the place of theirs: the other ones, the changed ones, and those that are added.
    pub rows: Rows,
}

/// What comes of the files, and what stands against it.
#[derive(Drop)]
struct Progress<'r> {
    /// The least ambiguous row.
    ambiguous: Option<&'r [Datum]>,
    removed: Vec<Text>,
    gathered: Gathered,
}

/// Takes what comes of the rows of a file, where a clause changes one of them.
fn merge_file(
    alloc: Global,
    op: &MergeOp,
    schema: &Schema,
    file: &ScannedFile,
    matches: &[RowMatch<'_, '_>],
    removed: &mut Vec<Text>,
    gathered: &mut Gathered,
) -> Result<(), NoMemory>
    requires rows { rows_beside matches.now ≡ file.now.rows }
    requires matches { All (IsRowMatch op.now) matches.now }
    ensures removed { OnOk result (removed.new.items ≡ removed.old.items ++ (if is_touched op.now file.now then file.now.path ∷ [] else [])) }
    ensures rows { OnOk result (gathered.new.rows ≡ gathered.old.rows ++ outcomes.rows_of (merge_step schema.now op.now) (if is_touched op.now file.now then file.now.rows else [])) }
    ensures least { OnOk result (gathered.new.least ≡ outcomes.lesser gathered.old.least (outcomes.least_of (merge_step schema.now op.now) (if is_touched op.now file.now then file.now.rows else []))) }
{
    if any_changed(op, matches) {
        removed.push(file.path.copy()?)?;
        merge_rows(alloc, op, schema, matches, gathered)?;
    }
    Ok(())
}

/// What comes of these files. The keys of their rows are met.
fn merge_each<'r>(
    alloc: Global,
    op: &MergeOp,
    schema: &Schema,
    files: &'r [ScannedFile],
    keyed: &mut Keyed<'_>,
) -> Result<Progress<'r>, NoMemory>
    requires bound { list_all (λ f. list_all (λ r. is_merge_bound (length r) op.now) f.rows) files.now ≡ true }
    requires keyed { IsKeyed op.now.keys op.now.source keyed.old }
    ensures ambiguous { IfOk result (λ p. option_map (λ l. l.now) p.ambiguous ≡ spec.least_where (spec.is_ambiguous op.now) (spec.rows_in files.now)) }
    ensures removed { IfOk result (λ p. p.removed.items ≡ map (λ f. f.path) (filter (is_touched op.now) files.now)) }
    ensures rows { IfOk result (λ p. p.gathered.rows ≡ outcomes.rows_of (merge_step schema.now op.now) (spec.rows_in (filter (is_touched op.now) files.now))) }
    ensures least { IfOk result (λ p. p.gathered.least ≡ outcomes.least_of (merge_step schema.now op.now) (spec.rows_in (filter (is_touched op.now) files.now))) }
    ensures met { OnOk result ((q : List Datum) → get row_cmp keyed.new q ≡ met_by (list_any (has_key op.now.keys q) (spec.rows_in files.now)) (get row_cmp keyed.old q)) }
{
    let mut ambiguous = None;
    let mut removed = Vec::new(alloc);
    let mut gathered = Gathered::new(alloc);
    for file in files {
        let found = match_rows(alloc, op, &file.rows, keyed)?;
        let matches = found.as_slice();
        ambiguous = least_of(op, matches, ambiguous);
        merge_file(
            alloc,
            op,
            schema,
            file,
            matches,
            &mut removed,
            &mut gathered,
        )?;
    }
    Ok(Progress {
        ambiguous,
        removed,
        gathered,
    })
}

/// The rows that the insert clause adds.
fn added_rows(alloc: Global, op: &MergeOp, keyed: &Keyed<'_>) -> Result<Rows, NoMemory>
    requires { list_all (λ s. list_all (λ c. nat_lt c (length s)) op.now.keys) op.now.source ≡ true }
    ensures { IfOk result (λ r. r ≡ (if op.now.insert then filter (is_left op.now.keys keyed.now) op.now.source else [])) }
{
    if op.insert {
        unmatched_rows(alloc, op.keys.as_slice(), &op.source, keyed)
    } else {
        Ok(Rows::new(alloc))
    }
}

/// What comes of these files, and the rows that the insert clause adds.
fn merge_source<'r>(
    alloc: Global,
    op: &MergeOp,
    schema: &Schema,
    files: &'r [ScannedFile],
) -> Result<(Progress<'r>, Rows), NoMemory>
    requires bound { list_all (λ f. list_all (λ r. is_merge_bound (length r) op.now) f.rows) files.now ≡ true }
    requires source { list_all (λ s. list_all (λ c. nat_lt c (length s)) op.now.keys) op.now.source ≡ true }
    ensures ambiguous { IfOk result (λ p. option_map (λ l. l.now) p.0.ambiguous ≡ spec.least_where (spec.is_ambiguous op.now) (spec.rows_in files.now)) }
    ensures removed { IfOk result (λ p. p.0.removed.items ≡ map (λ f. f.path) (filter (is_touched op.now) files.now)) }
    ensures rows { IfOk result (λ p. p.0.gathered.rows ≡ outcomes.rows_of (merge_step schema.now op.now) (spec.rows_in (filter (is_touched op.now) files.now))) }
    ensures least { IfOk result (λ p. p.0.gathered.least ≡ outcomes.least_of (merge_step schema.now op.now) (spec.rows_in (filter (is_touched op.now) files.now))) }
    ensures added { IfOk result (λ p. p.1 ≡ spec.added op.now (spec.rows_in files.now)) }
{
    let mut keyed = keyed(alloc, op.keys.as_slice(), &op.source)?;
    let progress = merge_each(alloc, op, schema, files, &mut keyed)?;
    let added = added_rows(alloc, op, &keyed)?;
    Ok((progress, added))
}

/// What came of all the rows, or the fault of the least one of which nothing came.
fn finished(gathered: Gathered) -> Result<Rows, MergeFault>
    ensures { result ≡ result_map_both (λ ys. ys) merge_fault (outcomes.finished gathered.rows gathered.least) }
{
    match gathered.finish() {
        Ok(rows) => Ok(rows),
        Err(fault) => Err(MergeFault::of(fault)),
    }
}

/// That no row is ambiguous, or the least one that is.
fn check_ambiguous(alloc: Global, least: Option<&[Datum]>) -> Result<(), MergeFault>
    ensures { Reads is_merge_memory result (spec.unambiguous (option_map (λ l. l.now) least.entry)) }
{
    match least {
        Some(row) => Err(MergeFault::Ambiguous {
            row: copied_row(alloc, row)?,
        }),
        None => Ok(()),
    }
}

/// What a merge makes of these files.
fn merge_scanned(
    alloc: Global,
    op: &MergeOp,
    schema: &Schema,
    files: &[ScannedFile],
) -> Result<Merged, MergeFault>
    requires bound { list_all (λ f. list_all (λ r. is_merge_bound (length r) op.now) f.rows) files.now ≡ true }
    requires source { list_all (λ s. list_all (λ c. nat_lt c (length s)) op.now.keys) op.now.source ≡ true }
    ensures { Reads is_merge_memory result (spec.merged schema.now op.now files.now) }
{
    let (progress, added) = merge_source(alloc, op, schema, files)?;
    let Progress {
        ambiguous,
        removed,
        gathered,
    } = progress;
    check_ambiguous(alloc, ambiguous)?;
    let mut rows = finished(gathered)?;
    rows.append(added)?;
    Ok(Merged {
        removed: Items::from_vec(removed),
        rows,
    })
}

/// What a merge makes of the files of a table that may have rows of its scope. A row of the table matches one of the
/// source where each key column is equal and null in neither. The matched clause changes the rows that one of the
/// source matches, the clause of the others those that none matches and for which its predicate is `Yes`, and the
/// insert clause adds the rows of the source that match none. The rows of files in which no row is changed are not
/// among those of the answer. Where two rows of the source match one of the table, which a matched clause is to change,
/// the least such row is the fault; else the least of which nothing comes.
pub fn merge_files(
    alloc: Global,
    op: &MergeOp,
    schema: &Schema,
    files: Vec<ScannedFile>,
) -> Result<Merged, MergeFault>
    requires op { is_merge_bound (length schema.now.columns) op.now ≡ true }
    requires rows { list_all (λ f. list_all (λ r. length r == length schema.now.columns) f.rows) files.items ≡ true }
    ensures { Reads is_merge_memory result (spec.merged schema.now op.now files.items) }
{
    merge_scanned(alloc, op, schema, files.as_slice())
}
