//! Deletes, updates and insert selects of the rows of a file.
ghost use Rattle.std.specs.Prelude.{◌≡◌, ◌<◌, true, IfOk};
ghost use Rattle.std.specs.List.{list_all};
ghost use Rattle.predicates.specs.Truths.{is_bound};
ghost use Rattle.predicates.specs.Values.{is_expr_bound};
ghost use Rattle.op_types.specs.Bound.{are_sets_bound, is_row_op_bound};

use crate::pairs::{Pair, are_pairs, are_wide, is_pair, pair, rows_of, two_columns};
use dml_ops::{Changed, OpFault, change_file};
use op_types::{RowOp, Scope, SetTo};
use predicates::{Expr, Op, Operand, Pred};
use row_base::{Datum, Items, NoMemory, RowFault, Rows};
use sqlite_items::Boxed;
use std::alloc::Global;
use std::test::Fail;

/// A comparison of the second column with a number.
fn compared(op: Op, n: i64) -> Scope
    ensures { is_bound 2 result ≡ true }
{
    Pred::Compare {
        op,
        column: 1,
        right: Operand::Literal(Datum::Long(n)),
    }
}

/// `v = 1 or v > 5`.
fn one_or_above_five(alloc: Global) -> Result<Scope, NoMemory>
    ensures { IfOk result (λ p. is_bound 2 p ≡ true) }
{
    let one = compared(Op::Eq, 1);
    let above = compared(Op::Gt, 5);
    Ok(Pred::Either(Boxed::new(alloc, one)?, Boxed::new(alloc, above)?))
}

/// A column and a number more.
fn sum(alloc: Global, column: u32, n: i64) -> Result<Expr<u32>, NoMemory>
    requires { column < 2 }
    ensures { IfOk result (λ e. is_expr_bound 2 0 e ≡ true) }
{
    let cell = Expr::Cell(column);
    let number = Expr::Literal(Datum::Long(n));
    Ok(Expr::Plus(Boxed::new(alloc, cell)?, Boxed::new(alloc, number)?))
}

/// One column that is set.
fn one_set(alloc: Global, column: u32, value: Expr<u32>) -> Result<Items<SetTo<u32>>, NoMemory>
    requires column { column < 2 }
    requires value { is_expr_bound 2 0 value ≡ true }
    ensures { IfOk result (λ s. are_sets_bound 2 0 s ≡ true) }
{
    let mut sets = Vec::new(alloc);
    sets.push(SetTo { column, value })?;
    Ok(Items::from_vec(sets))
}

/// An update of one column to `v` and a number more.
fn update(alloc: Global, pred: Scope, column: u32, n: i64) -> Result<RowOp, Fail>
    requires pred { is_bound 2 pred ≡ true }
    requires column { column < 2 }
    ensures { IfOk result (λ o. is_row_op_bound 2 o ≡ true) }
{
    let schema = two_columns(alloc)?;
    let value = sum(alloc, 1, n)?;
    let sets = one_set(alloc, column, value)?;
    Ok(RowOp::Update { pred, sets, schema })
}

/// Two expressions.
fn both(alloc: Global, first: Expr<u32>, second: Expr<u32>) -> Result<Items<Expr<u32>>, NoMemory>
    requires first { is_expr_bound 2 0 first ≡ true }
    requires second { is_expr_bound 2 0 second ≡ true }
    ensures { IfOk result (λ es. list_all (is_expr_bound 2 0) es ≡ true) }
{
    let mut exprs = Vec::with_capacity(alloc, 2)?;
    exprs.push_reserved(first);
    exprs.push_reserved(second);
    Ok(Items::from_vec(exprs))
}

/// An insert select of two expressions for each row.
fn insert_select(alloc: Global, first: Expr<u32>, second: Expr<u32>) -> Result<RowOp, Fail>
    requires first { is_expr_bound 2 0 first ≡ true }
    requires second { is_expr_bound 2 0 second ≡ true }
    ensures { IfOk result (λ o. is_row_op_bound 2 o ≡ true) }
{
    let exprs = both(alloc, first, second)?;
    let schema = two_columns(alloc)?;
    Ok(RowOp::InsertSelect {
        pred: Pred::Always,
        exprs,
        schema,
    })
}

/// The file of these rows after an operation.
fn change(alloc: Global, op: &RowOp, pairs: &[Pair]) -> Result<Changed, OpFault>
    requires { is_row_op_bound 2 op.now ≡ true }
{
    let rows = rows_of(alloc, pairs)?;
    if are_wide(&rows) {
        change_file(alloc, op, rows)
    } else {
        Err(OpFault::NoMemory)
    }
}

/// What came of a file.
#[derive(Clone, Copy, Debug, Drop, PartialEq, Eq)]
enum Outcome {
    /// A touched file with these rows, and these added.
    Touched,
    /// A file that is not touched.
    Left,
    /// Other rows.
    Other,
    Overflow,
    Row(RowFault),
    /// A fault that names another row.
    Elsewhere,
    NoMemory,
}

/// What came of a file, beside its rows, those that are added, and the row of a fault.
fn seen(changed: &Result<Changed, OpFault>, rows: &[Pair], extra: &[Pair], row: Pair) -> Outcome {
    match changed {
        Ok(changed) => {
            if !are_pairs(&changed.rows, rows) || !are_pairs(&changed.extra, extra) {
                Outcome::Other
            } else if changed.touched {
                Outcome::Touched
            } else {
                Outcome::Left
            }
        }
        Err(fault) => fault_seen(fault, row),
    }
}

/// Which fault there is, beside the row that it should name.
fn fault_seen(fault: &OpFault, row: Pair) -> Outcome {
    match fault {
        OpFault::Overflow { row: at } => {
            if is_pair(at.as_slice(), row) {
                Outcome::Overflow
            } else {
                Outcome::Elsewhere
            }
        }
        OpFault::Row { row: at, fault } => {
            if is_pair(at.as_slice(), row) {
                Outcome::Row(*fault)
            } else {
                Outcome::Elsewhere
            }
        }
        OpFault::NoMemory => Outcome::NoMemory,
    }
}

/// What comes of a file by an operation, which goes with it.
fn after(
    alloc: Global,
    op: RowOp,
    file: &[Pair],
    rows: &[Pair],
    extra: &[Pair],
    row: Pair,
) -> Outcome
    requires { is_row_op_bound 2 op ≡ true }
{
    let changed = change(alloc, &op, file);
    let outcome = seen(&changed, rows, extra, row);
    drop(changed);
    drop(op);
    outcome
}

const FOUR: [Pair; 4] = [
    (Some(1), Some(1)),
    (Some(2), None),
    (Some(3), Some(3)),
    (Some(4), Some(9)),
];

const ANY: Pair = (None, None);

/// A delete of the rows with `v = 1 or v > 5`.
fn deleted(alloc: Global, file: &[Pair], rows: &[Pair]) -> Result<Outcome, Fail> {
    let pred = one_or_above_five(alloc)?;
    Ok(after(alloc, RowOp::Delete { pred }, file, rows, &[], ANY))
}

#[test]
fn a_delete_leaves_what_is_unknown(rt: HostRuntime) -> Result<(), Fail> {
    let alloc = rt.alloc();
    let left = deleted(alloc, &FOUR, &[(Some(2), None), pair(3, 3)])?;
    assert!(rt; left == Outcome::Touched);
    let none = deleted(alloc, &[pair(1, 2), pair(2, 3)], &[pair(1, 2), pair(2, 3)])?;
    assert!(rt; none == Outcome::Left);
    Ok(())
}

/// An update `set v = v + n where v >= 3`.
fn raised(alloc: Global, n: i64, file: &[Pair], rows: &[Pair]) -> Result<Outcome, Fail> {
    let op = update(alloc, compared(Op::Ge, 3), 1, n)?;
    Ok(after(alloc, op, file, rows, &[], ANY))
}

/// `id` is this number.
fn with_id(id: i64) -> Scope
    ensures { is_bound 2 result ≡ true }
{
    Pred::Compare {
        op: Op::Eq,
        column: 0,
        right: Operand::Literal(Datum::Long(id)),
    }
}

/// An update `set v = v + n where id = 1` of the row `(1, 10)`.
fn raised_first(alloc: Global, n: i64, row: Pair) -> Result<Outcome, Fail> {
    let op = update(alloc, with_id(1), 1, n)?;
    Ok(after(alloc, op, &[pair(1, 10)], &[row], &[], ANY))
}

#[test]
fn an_update_sets_a_column(rt: HostRuntime) -> Result<(), Fail> {
    let alloc = rt.alloc();
    let four = [pair(1, 1), (Some(2), None), pair(3, 4), pair(4, 10)];
    assert!(rt; raised(alloc, 1, &FOUR, &four)? == Outcome::Touched);
    assert!(rt; raised(alloc, 1, &[pair(1, 2)], &[pair(1, 2)])? == Outcome::Left);
    assert!(rt; raised(alloc, 0, &[pair(3, 4)], &[pair(3, 4)])? == Outcome::Touched);
    assert!(rt; raised_first(alloc, 1, pair(1, 11))? == Outcome::Touched);
    assert!(rt; raised_first(alloc, 5, pair(1, 15))? == Outcome::Touched);
    Ok(())
}

/// An insert select of `id + 1, id` of each row.
fn extended(alloc: Global, file: &[Pair], extra: &[Pair]) -> Result<Outcome, Fail> {
    let op = insert_select(alloc, sum(alloc, 0, 1)?, Expr::Cell(0))?;
    Ok(after(alloc, op, file, file, extra, ANY))
}

#[test]
fn an_insert_select_adds_rows(rt: HostRuntime) -> Result<(), Fail> {
    let alloc = rt.alloc();
    let changed = extended(alloc, &[(Some(1), None)], &[pair(2, 1)])?;
    assert!(rt; changed == Outcome::Left);
    Ok(())
}

/// An update of each row's column to `v + 1`, whose fault should name this row.
fn set_wrong(alloc: Global, column: u32, file: &[Pair], row: Pair) -> Result<Outcome, Fail>
    requires { column < 2 }
{
    let op = update(alloc, Pred::Always, column, 1)?;
    Ok(after(alloc, op, file, &[], &[], row))
}

#[test]
fn the_least_wrong_row_is_named(rt: HostRuntime) -> Result<(), Fail> {
    let alloc = rt.alloc();
    let most = i64::MAX;
    let file = [pair(5, most), pair(2, most), pair(3, most)];
    assert!(rt; set_wrong(alloc, 1, &file, pair(2, most))? == Outcome::Overflow);
    let file = [pair(1, 1), pair(2, most)];
    assert!(rt; set_wrong(alloc, 1, &file, pair(2, most))? == Outcome::Overflow);
    let null = Outcome::Row(RowFault::Null { column: 0 });
    let file = [pair(5, most), (Some(4), None), (Some(6), None)];
    assert!(rt; set_wrong(alloc, 0, &file, (Some(4), None))? == null);
    let file = [pair(3, most), (Some(4), None)];
    assert!(rt; set_wrong(alloc, 0, &file, pair(3, most))? == Outcome::Overflow);
    Ok(())
}

/// An insert select of a literal and `v + 1` of a row, whose fault should name it.
fn select_wrong(alloc: Global, first: Datum, row: Pair) -> Result<Outcome, Fail> {
    let op = insert_select(alloc, Expr::Literal(first), sum(alloc, 1, 1)?)?;
    Ok(after(alloc, op, &[row], &[], &[], row))
}

#[test]
fn of_one_row_an_overflow_comes_first(rt: HostRuntime) -> Result<(), Fail> {
    let alloc = rt.alloc();
    assert!(rt; select_wrong(alloc, Datum::Null, pair(1, i64::MAX))? == Outcome::Overflow);
    let null = Outcome::Row(RowFault::Null { column: 0 });
    assert!(rt; select_wrong(alloc, Datum::Null, pair(1, 1))? == null);
    let kind = Outcome::Row(RowFault::Kind { column: 0 });
    assert!(rt; select_wrong(alloc, Datum::Boolean(true), pair(1, 1))? == kind);
    Ok(())
}
