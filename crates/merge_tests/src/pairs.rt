//! Rows of two longs, `id` and `v`, in two files `a` and `b`, and merges into them by `id`.
ghost use Rattle.std.specs.Prelude.{◌≡◌, ◌==◌, ◌∷◌, [], ◌<◌, true, length, IfOk, Some};
ghost use Rattle.std.specs.List.{list_all};
ghost use Rattle.predicates.specs.Truths.{is_bound};
ghost use Rattle.predicates.specs.Values.{is_expr_bound};
ghost use Rattle.op_types.specs.Bound.{are_sets_bound, is_by_source_bound, is_change_bound, is_matched_bound, is_merge_bound};

use merge_op::{MergeFault, Merged, merge_files};
use op_types::{BySource, Change, MergeOp, MergeSpec, SetTo};
use predicates::{Expr, Op, Operand, Pred};
use row_base::{
    Column, Datum, Items, Kind, NoMemory, Row, RowFault, Rows, ScannedFile, Schema, Text,
};
use sqlite_items::Boxed;
use std::alloc::Global;

/// What becomes of a row that a row of the source matches.
#[derive(Clone, Copy, Drop)]
pub enum Matched {
    /// There is no such clause.
    Stays,
    Goes,
    /// `v = source.v`
    Takes,
    /// `v = v + source.v`
    Adds,
}

/// What becomes of a row that none matches.
#[derive(Clone, Copy, Drop)]
pub enum Other {
    /// There is no such clause.
    Stays,
    Goes,
    /// `v = 0`
    Falls,
    /// `id = v + 1, v = id`
    Turns,
}

/// The clauses of a merge.
#[derive(Clone, Copy, Drop)]
pub struct Clauses {
    pub matched: Matched,
    /// Whether rows of the source are added.
    pub insert: bool,
    pub other: Other,
    /// The others are those with `v` above this.
    pub above: i64,
}

/// One column that is set.
fn one_set(alloc: Global, column: u32, value: Expr<u32>) -> Result<Items<SetTo<u32>>, NoMemory>
    ensures { IfOk result (λ s. s ≡ record { column = column; value = value } ∷ []) }
{
    let mut sets = Vec::with_capacity(alloc, 1)?;
    sets.push_reserved(SetTo { column, value });
    Ok(Items::from_vec(sets))
}

/// `v + source.v`
fn sum_of_both(alloc: Global) -> Result<Expr<u32>, NoMemory>
    ensures { IfOk result (λ e. is_expr_bound 2 2 e ≡ true) }
{
    let own = Boxed::new(alloc, Expr::Cell(1))?;
    let other = Boxed::new(alloc, Expr::SourceCell(1))?;
    Ok(Expr::Plus(own, other))
}

/// `v + 1`
fn one_more(alloc: Global) -> Result<Expr<u32>, NoMemory>
    ensures { IfOk result (λ e. is_expr_bound 2 0 e ≡ true) }
{
    let own = Boxed::new(alloc, Expr::Cell(1))?;
    let one = Boxed::new(alloc, Expr::Literal(Datum::Long(1)))?;
    Ok(Expr::Plus(own, one))
}

/// `id = v + 1, v = id`
fn turned(alloc: Global) -> Result<Items<SetTo<u32>>, NoMemory>
    ensures { IfOk result (λ s. are_sets_bound 2 0 s ≡ true) }
{
    let mut sets = Vec::with_capacity(alloc, 2)?;
    let value = one_more(alloc)?;
    sets.push_reserved(SetTo { column: 0, value });
    let value = Expr::Cell(0);
    sets.push_reserved(SetTo { column: 1, value });
    Ok(Items::from_vec(sets))
}

/// The clause of matched rows.
pub fn matched_clause(alloc: Global, matched: Matched) -> Result<Option<Change<u32>>, NoMemory>
    ensures { IfOk result (λ m. is_matched_bound 2 m ≡ true) }
{
    match matched {
        Matched::Stays => Ok(None),
        Matched::Goes => Ok(Some(Change::Delete)),
        Matched::Takes => Ok(Some(Change::Update(one_set(alloc, 1, Expr::SourceCell(1))?))),
        Matched::Adds => {
            let sum = sum_of_both(alloc)?;
            Ok(Some(Change::Update(one_set(alloc, 1, sum)?)))
        }
    }
}

/// `v > n`
fn above(n: i64) -> Pred<u32>
    ensures { is_bound 2 result ≡ true }
{
    Pred::Compare {
        op: Op::Gt,
        column: 1,
        right: Operand::Literal(Datum::Long(n)),
    }
}

/// The rows with `v` above a number that no row of the source matches.
fn others(n: i64, change: Change<u32>) -> BySource<u32>
    requires { is_change_bound 2 0 change ≡ true }
    ensures { is_by_source_bound 2 (Some result) ≡ true }
{
    BySource {
        pred: above(n),
        change,
    }
}

/// The clause of rows that no row of the source matches.
pub fn other_clause(alloc: Global, other: Other, n: i64) -> Result<Option<BySource<u32>>, NoMemory>
    ensures { IfOk result (λ b. is_by_source_bound 2 b ≡ true) }
{
    match other {
        Other::Stays => Ok(None),
        Other::Goes => Ok(Some(others(n, Change::Delete))),
        Other::Falls => {
            let zero = one_set(alloc, 1, Expr::Literal(Datum::Long(0)))?;
            Ok(Some(others(n, Change::Update(zero))))
        }
        Other::Turns => Ok(Some(others(n, Change::Update(turned(alloc)?)))),
    }
}

/// A row of two longs; `None` is null.
pub type Pair = (Option<i64>, Option<i64>);

/// A merge into two files.
#[derive(Clone, Copy, Drop)]
pub struct Case<'a> {
    pub clauses: Clauses,
    pub source: &'a [Pair],
    pub first: &'a [Pair],
    pub second: &'a [Pair],
    /// Whether `v` may be null.
    pub nulls: bool,
}

/// Why a merge has no result.
#[derive(Clone, Copy, Drop, PartialEq, Eq)]
pub enum Why {
    Ambiguous,
    Overflow,
    Row(RowFault),
}

/// What a merge comes to.
#[derive(Clone, Copy, Drop)]
pub enum Answer<'a> {
    /// These files are removed, and these rows come, in this order.
    Rows(&'a [&'a str], &'a [Pair]),
    /// There is no result because of this row.
    Fails(Why, Pair),
}

fn datum(number: Option<i64>) -> Datum {
    match number {
        Some(n) => Datum::Long(n),
        None => Datum::Null,
    }
}

/// These rows.
#[tactic(auto, using(crate::proofs::Wide::one_more))]
fn rows_of(alloc: Global, pairs: &[Pair]) -> Result<Rows, NoMemory>
    ensures { IfOk result (λ rs. list_all (λ r. length r == 2) rs ≡ true) }
{
    let mut rows = Rows::new(alloc);
    for (id, v) in pairs {
        rows.push_copy(&[datum(*id), datum(*v)])?;
    }
    Ok(rows)
}

/// Whether a datum is this number.
fn is_number(datum: &Datum, number: Option<i64>) -> bool {
    match datum {
        Datum::Long(n) => number == Some(*n),
        Datum::Null => number.is_none(),
        _ => false,
    }
}

/// Whether a row is this one.
fn is_pair(row: &[Datum], pair: Pair) -> bool {
    match row {
        [id, v] => is_number(id, pair.0) && is_number(v, pair.1),
        _ => false,
    }
}

/// Whether the rows are these, in this order.
fn are_rows(rows: &Rows, pairs: &[Pair]) -> bool {
    rows.len() == pairs.len()
        && rows
            .iter()
            .zip(pairs)
            .all(|(row, pair)| is_pair(row, *pair))
}

/// Whether the paths are these, in this order.
fn are_paths(paths: &[Text], names: &[&str]) -> bool {
    paths.len() == names.len()
        && paths
            .iter()
            .zip(names)
            .all(|(path, name)| path.as_str() == *name)
}

/// A file of these rows.
fn file(alloc: Global, path: &str, pairs: &[Pair]) -> Result<ScannedFile, NoMemory>
    ensures { IfOk result (λ f. list_all (λ r. length r == 2) f.rows ≡ true) }
{
    let path = Text::make(alloc, path)?;
    let rows = rows_of(alloc, pairs)?;
    Ok(ScannedFile { path, rows })
}

/// The two files.
fn files_of(alloc: Global, case: &Case<'_>) -> Result<Vec<ScannedFile>, NoMemory>
    ensures { IfOk result (λ fs. list_all (λ f. list_all (λ r. length r == 2) f.rows) fs.items ≡ true) }
{
    let mut files = Vec::with_capacity(alloc, 2)?;
    files.push_reserved(file(alloc, "a", case.first)?);
    files.push_reserved(file(alloc, "b", case.second)?);
    Ok(files)
}

fn longs(alloc: Global, name: &str, nullable: bool) -> Result<Column, NoMemory> {
    let name = Text::make(alloc, name)?;
    let kind = Kind::Long;
    Ok(Column {
        name,
        kind,
        nullable,
    })
}

/// `id long, v long`, or `v long not null`.
fn schema(alloc: Global, nulls: bool) -> Result<Schema, NoMemory>
    ensures { IfOk result (λ s. length s.columns ≡ 2) }
{
    let mut columns = Vec::with_capacity(alloc, 2)?;
    columns.push_reserved(longs(alloc, "id", true)?);
    columns.push_reserved(longs(alloc, "v", nulls)?);
    Schema::make(columns, Vec::new(alloc)).map_err(|_| NoMemory)
}

fn merge_of(alloc: Global, case: &Case<'_>) -> Result<MergeOp, NoMemory>
    ensures { IfOk result (λ m. is_merge_bound 2 m ≡ true) }
{
    let mut keys = Vec::with_capacity(alloc, 1)?;
    keys.push_reserved(0);
    let source = rows_of(alloc, case.source)?;
    let matched = matched_clause(alloc, case.clauses.matched)?;
    let by_source = other_clause(alloc, case.clauses.other, case.clauses.above)?;
    Ok(MergeSpec {
        keys: Items::from_vec(keys),
        source,
        matched,
        insert: case.clauses.insert,
        by_source,
    })
}

fn merged(alloc: Global, case: &Case<'_>) -> Result<Merged, MergeFault> {
    let files = files_of(alloc, case)?;
    let schema = schema(alloc, case.nulls)?;
    let op = merge_of(alloc, case)?;
    merge_files(alloc, &op, &schema, files)
}

/// Whether a fault is this one.
fn is_fault(fault: &MergeFault, why: Why, pair: Pair) -> bool {
    match fault {
        MergeFault::Ambiguous { row } => why == Why::Ambiguous && is_pair(row.as_slice(), pair),
        MergeFault::Overflow { row } => why == Why::Overflow && is_pair(row.as_slice(), pair),
        MergeFault::Row { row, fault } => why == Why::Row(*fault) && is_pair(row.as_slice(), pair),
        MergeFault::NoMemory => false,
    }
}

/// Whether what came of a merge is this.
fn is_answer(merged: &Result<Merged, MergeFault>, answer: Answer<'_>) -> bool {
    match (merged, answer) {
        (Ok(merged), Answer::Rows(removed, rows)) => {
            are_paths(merged.removed.as_slice(), removed) && are_rows(&merged.rows, rows)
        }
        (Err(fault), Answer::Fails(why, pair)) => is_fault(fault, why, pair),
        _ => false,
    }
}

/// Whether a merge comes to this.
pub fn comes_to(alloc: Global, case: &Case<'_>, answer: Answer<'_>) -> bool {
    let merged = merged(alloc, case);
    let comes = is_answer(&merged, answer);
    drop(merged);
    comes
}
