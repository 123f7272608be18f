//! The row that comes of a row.
ghost use Rattle.std.specs.Prelude.{◌≡◌, ◌==◌, true, length, List, [], IfSome, option_copied};
ghost use Rattle.std.specs.List.{find, list_all};
ghost use Rattle.row_base.specs.Faults.{Reads};
ghost use Rattle.row_base.specs.declared.row.Datum.{Datum};
ghost use Rattle.predicates.specs.Values.{is_expr_bound};
ghost use Rattle.op_types.specs.Bound.{are_sets_bound};
ghost use Rattle.dml_ops.specs.Images as spec;
ghost use Rattle.dml_ops.specs.Images.{is_memory};

use crate::{ImageFault, Wrong};
use op_types::SetTo;
use predicates::{Expr, ExprFault};
use row_base::{Datum, Row, Schema};
use std::alloc::Global;

/// The value of an expression for a row and a source row.
fn value(expr: &Expr<u32>, row: &[Datum], source: &[Datum]) -> Result<Datum, ImageFault>
    requires { is_expr_bound (length row.now) (length source.now) expr.now ≡ true }
    ensures { Reads is_memory result (spec.value_for row.now source.now expr.now) }
{
    match expr.value(row, Some(source)) {
        Ok(value) => Ok(value),
        Err(ExprFault::Overflow) => Err(ImageFault::Wrong(Wrong::Overflow)),
        Err(ExprFault::NoMemory) => Err(ImageFault::NoMemory),
    }
}

/// The set of the column at this place.
fn set_at(sets: &[SetTo<u32>], place: usize) -> Option<&SetTo<u32>>
    ensures { option_copied result ≡ find (λ s. s.column == place) sets.now }
{
    sets.iter().find(|set| set.column as usize == place)
}

/// The same of sets that are bound, and so is what it gives.
fn set_of<'a>(
    sets: &'a [SetTo<u32>],
    place: usize,
    row: &[Datum],
    source: &[Datum],
) -> Option<&'a SetTo<u32>>
    requires { are_sets_bound (length row.now) (length source.now) sets.now ≡ true }
    ensures found { option_copied result ≡ find (λ s. s.column == place) sets.now }
    ensures bound { IfSome result (λ s. is_expr_bound (length row.now) (length source.now) s.now.value ≡ true) }
{
    set_at(sets, place)
}

/// What the column at this place holds once the columns are set.
fn new_value(
    sets: &[SetTo<u32>],
    place: usize,
    datum: &Datum,
    row: &[Datum],
    source: &[Datum],
) -> Result<Datum, ImageFault>
    requires { are_sets_bound (length row.now) (length source.now) sets.now ≡ true }
    ensures { Reads is_memory result (spec.new_value row.now source.now sets.now place datum.now) }
{
    match set_of(sets, place, row, source) {
        Some(set) => value(&set.value, row, source),
        None => Ok(datum.copy()?),
    }
}

/// The row with these columns set.
#[tactic(auto, unfolding(crate::specs::Images::new_values))]
fn new_values(
    alloc: Global,
    sets: &[SetTo<u32>],
    row: &[Datum],
    source: &[Datum],
) -> Result<Row, ImageFault>
    requires { are_sets_bound (length row.now) (length source.now) sets.now ≡ true }
    ensures { Reads is_memory result (spec.new_values row.now source.now sets.now 0 row.now) }
{
    let mut values = Vec::with_capacity(alloc, row.len())?;
    for i in 0..row.len() {
        values.push(new_value(sets, i, &row[i], row, source)?)?;
    }
    Ok(Row::make(values))
}

/// The row of the values of these expressions.
#[tactic(auto, unfolding(crate::specs::Images::values_of))]
fn values_of(alloc: Global, exprs: &[Expr<u32>], row: &[Datum]) -> Result<Row, ImageFault>
    requires { list_all (is_expr_bound (length row.now) 0) exprs.now ≡ true }
    ensures { Reads is_memory result (spec.values_of row.now exprs.now) }
{
    let mut values = Vec::with_capacity(alloc, exprs.len())?;
    for expr in exprs {
        values.push(value(expr, row, &[])?)?;
    }
    Ok(Row::make(values))
}

/// The row, where it fits the schema.
fn fitting(schema: &Schema, row: Row) -> Result<Row, ImageFault>
    ensures { result ≡ spec.fitting schema.now row }
{
    match schema.fits(row.as_slice()) {
        Ok(()) => Ok(row),
        Err(fault) => Err(ImageFault::Wrong(Wrong::Misfit(fault))),
    }
}

/// The row that comes of a row where these columns are set, each at most once. All expressions see the row as it was,
/// and the source row, which has no data where there is none. An overflow comes before a new row that does not fit the
/// schema.
pub fn updated_row(
    alloc: Global,
    schema: &Schema,
    sets: &[SetTo<u32>],
    row: &[Datum],
    source: &[Datum],
) -> Result<Row, ImageFault>
    requires { are_sets_bound (length row.now) (length source.now) sets.now ≡ true }
    ensures { Reads is_memory result (spec.updated schema.now sets.now row.now source.now) }
{
    fitting(schema, new_values(alloc, sets, row, source)?)
}

/// The row of these expressions' values for a row. An overflow comes before a new row that does not fit the schema.
pub fn selected_row(
    alloc: Global,
    schema: &Schema,
    exprs: &[Expr<u32>],
    row: &[Datum],
) -> Result<Row, ImageFault>
    requires { list_all (is_expr_bound (length row.now) 0) exprs.now ≡ true }
    ensures { Reads is_memory result (spec.selected schema.now exprs.now row.now) }
{
    fitting(schema, values_of(alloc, exprs, row)?)
}
