//! Merges into a file.
ghost use Rattle.std.specs.Prelude.{◌≡◌, ◌==◌, ◌∷◌, [], true, length, IfOk};
ghost use Rattle.std.specs.List.{list_all};
ghost use Rattle.op_types.specs.Bound.{is_merge_bound};
ghost use Rattle.row_base.specs.Faults.{Reads};
ghost use Rattle.merge_op.specs.Merges.{is_merge_memory};
ghost use Rattle.row_kernels.specs.Scopes as spec;

use crate::changes::set_v;
use crate::rows::{id_alone, rows_of, schema_of};
use merge_op::{MergeFault, merge_files};
use op_types::{Change, MergeOp};
use predicates::Expr;
use row_base::{NoMemory, Rows, ScannedFile, Text};
use std::alloc::Global;

/// A merge of these rows by `id`: rows that match are updated by the source's `v`, the others of the source are added.
fn merge_of(alloc: Global, source: Rows) -> Result<MergeOp, NoMemory>
    requires { list_all (λ s. length s == 2) source ≡ true }
    ensures op { IfOk result (λ op. op ≡ spec.merge source) }
    ensures bound { IfOk result (λ op. is_merge_bound 2 op ≡ true) }
{
    let keys = id_alone(alloc)?;
    let sets = set_v(alloc, Expr::SourceCell(1))?;
    Ok(MergeOp {
        keys,
        source,
        matched: Some(Change::Update(sets)),
        insert: true,
        by_source: None,
    })
}

/// One file of these rows.
fn files_of(alloc: Global, rows: Rows) -> Result<Vec<ScannedFile>, NoMemory>
    requires { list_all (λ r. length r == 2) rows ≡ true }
    ensures files { IfOk result (λ files. files.items ≡ spec.file_with rows ∷ []) }
    ensures wide { IfOk result (λ files. list_all (λ f. list_all (λ r. length r == 2) f.rows) files.items ≡ true) }
{
    let path = Text::make(alloc, "target")?;
    let mut files = Vec::with_capacity(alloc, 1)?;
    files.push_reserved(ScannedFile { path, rows });
    Ok(files)
}

/// How many rows a merge gives, of a tenth as many rows as the file's, whose `id` is a multiple of 20.
#[tactic(auto, using(crate::proofs::Widths::two_wide))]
pub fn run_merge(alloc: Global, count: u32) -> Result<u64, MergeFault>
    ensures { Reads is_merge_memory result (spec.merged_count count) }
{
    let schema = schema_of(alloc)?;
    let source = rows_of(alloc, 20, count / 10)?;
    let op = merge_of(alloc, source)?;
    let rows = rows_of(alloc, 1, count)?;
    let files = files_of(alloc, rows)?;
    let merged = merge_files(alloc, &op, &schema, files)?;
    Ok(merged.rows.len() as u64)
}
