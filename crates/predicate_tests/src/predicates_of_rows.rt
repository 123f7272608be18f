//! Predicates and expressions over names, bound to a schema and asked of rows: each public function once with ample
//! memory, and values from outside.
use predicates::{BindFault, Expr, ExprFault, Op, Operand, Pred, Truth};
use row_base::{Column, Datum, Items, Kind, NoMemory, Rows, Schema, Text};
use sqlite_items::Boxed;
use std::alloc::Global;
use std::test::Fail;

fn column(alloc: Global, name: &str, kind: Kind) -> Result<Column, NoMemory> {
    Ok(Column {
        name: Text::make(alloc, name)?,
        kind,
        nullable: true,
    })
}

/// `v long, n integer, s string`.
const THREE: [(&str, Kind); 3] = [("v", Kind::Long), ("n", Kind::Integer), ("s", Kind::String)];

fn three_columns(alloc: Global) -> Result<Vec<Column>, NoMemory> {
    let mut columns = Vec::new(alloc);
    for (name, kind) in THREE {
        columns.push(column(alloc, name, kind)?)?;
    }
    Ok(columns)
}

/// The schema of the three columns.
fn three(alloc: Global) -> Result<Schema, NoMemory> {
    let columns = three_columns(alloc)?;
    Schema::make(columns, Vec::new(alloc)).map_err(|_| NoMemory)
}

/// A long, or null.
fn long(n: Option<i64>) -> Datum {
    match n {
        Some(n) => Datum::Long(n),
        None => Datum::Null,
    }
}

/// The comparison of a column with a long or null.
fn compared(alloc: Global, name: &str, op: Op, right: Option<i64>) -> Result<Pred<Text>, NoMemory> {
    let column = Text::make(alloc, name)?;
    Ok(Pred::Compare {
        op,
        column,
        right: Operand::Literal(long(right)),
    })
}

/// `v = 'x'`.
fn text_compared(alloc: Global) -> Result<Pred<Text>, NoMemory> {
    let column = Text::make(alloc, "v")?;
    let right = Text::make(alloc, "x")?;
    Ok(Pred::Compare {
        op: Op::Eq,
        column,
        right: Operand::Literal(Datum::Text(right)),
    })
}

/// What was made, in a box.
fn boxed<T: Drop>(alloc: Global, made: Result<T, NoMemory>) -> Result<Boxed<T>, NoMemory> {
    Ok(Boxed::new(alloc, made?)?)
}

/// `v = 1 or v > 5`.
fn one_or_above_five(alloc: Global) -> Result<Pred<Text>, NoMemory> {
    let one = boxed(alloc, compared(alloc, "v", Op::Eq, Some(1)))?;
    let above = boxed(alloc, compared(alloc, "v", Op::Gt, Some(5)))?;
    Ok(Pred::Either(one, above))
}

/// A copy of it.
fn copied_choice(alloc: Global) -> Result<Pred<Text>, NoMemory> {
    let named = one_or_above_five(alloc)?;
    named.copy(alloc)
}

/// How a binding ended.
#[derive(Clone, Copy, Debug, Drop, PartialEq, Eq)]
enum Outcome {
    Bound,
    Column,
    Kind,
    Other,
}

fn outcome_of<T: Drop>(bound: &Result<T, BindFault>) -> Outcome {
    match bound {
        Ok(_) => Outcome::Bound,
        Err(BindFault::Column { .. }) => Outcome::Column,
        Err(BindFault::Kind { .. }) => Outcome::Kind,
        Err(_) => Outcome::Other,
    }
}

/// The truth of a predicate for a row, or none where the row is not as wide as the schema.
fn truth_of(
    alloc: Global,
    schema: &Schema,
    named: &Pred<Text>,
    row: &[Datum],
) -> Result<Option<Truth>, BindFault> {
    let pred = named.bind(alloc, schema)?;
    if row.len() == schema.columns().len() {
        Ok(Some(pred.truth(row)))
    } else {
        Ok(None)
    }
}

/// Whether a predicate has this truth for a row.
fn is_truth(found: &Result<Option<Truth>, BindFault>, want: Truth) -> bool {
    match found {
        Ok(Some(truth)) => *truth == want,
        _ => false,
    }
}

/// Whether a predicate has this truth for the row that has this first datum.
fn is_so(
    alloc: Global,
    schema: &Schema,
    named: &Pred<Text>,
    first: Option<i64>,
    want: Truth,
) -> bool {
    let row = [long(first), Datum::Integer(7), Datum::Null];
    let found = truth_of(alloc, schema, named, &row);
    is_truth(&found, want)
}

/// First data of rows, and a predicate's truth for them.
type Truths = [(Option<i64>, Truth); 3];

/// Whether a predicate has these truths.
fn are_so(
    alloc: Global,
    named: Result<Pred<Text>, NoMemory>,
    wanted: &Truths,
) -> Result<bool, NoMemory> {
    let named = named?;
    let schema = three(alloc)?;
    let mut all = true;
    for (first, want) in wanted {
        all = is_so(alloc, &schema, &named, *first, *want) && all;
    }
    Ok(all)
}

const OF_CHOICE: Truths = [
    (None, Truth::Unknown),
    (Some(3), Truth::No),
    (Some(9), Truth::Yes),
];

#[test]
fn unknown_is_kept_by_or(rt: HostRuntime) -> Result<(), Fail> {
    assert!(rt; are_so(rt.alloc(), copied_choice(rt.alloc()), &OF_CHOICE)?);
    Ok(())
}

/// Whether a predicate is bound so.
fn binds_so(
    alloc: Global,
    named: Result<Pred<Text>, NoMemory>,
    want: Outcome,
) -> Result<bool, NoMemory> {
    let named = named?;
    let schema = three(alloc)?;
    let bound = named.bind(alloc, &schema);
    Ok(outcome_of(&bound) == want)
}

/// Comparisons of a column with a literal, and how they are bound.
const COMPARED: [(&str, Op, Option<i64>, Outcome); 4] = [
    ("w", Op::Eq, Some(1), Outcome::Column),
    ("n", Op::Le, Some(2_147_483_647), Outcome::Bound),
    ("n", Op::Le, Some(2_147_483_648), Outcome::Kind),
    ("s", Op::Ne, None, Outcome::Bound),
];

#[test]
fn faults_are_named(rt: HostRuntime) -> Result<(), Fail> {
    for (name, op, right, want) in COMPARED {
        let named = compared(rt.alloc(), name, op, right);
        assert!(rt; binds_so(rt.alloc(), named, want)?);
    }
    assert!(rt; binds_so(rt.alloc(), text_compared(rt.alloc()), Outcome::Kind)?);
    Ok(())
}

/// `v = 'x' and w = 1`.
fn two_faults(alloc: Global) -> Result<Pred<Text>, NoMemory> {
    let text = boxed(alloc, text_compared(alloc))?;
    let absent = boxed(alloc, compared(alloc, "w", Op::Eq, Some(1)))?;
    Ok(Pred::Both(text, absent))
}

#[test]
fn the_first_fault_is_named(rt: HostRuntime) -> Result<(), Fail> {
    assert!(rt; binds_so(rt.alloc(), two_faults(rt.alloc()), Outcome::Kind)?);
    Ok(())
}

/// The names `v` and `n`.
fn two_names(alloc: Global) -> Result<Items<Text>, NoMemory> {
    let mut names = Vec::new(alloc);
    for name in ["v", "n"] {
        names.push(Text::make(alloc, name)?)?;
    }
    Ok(Items::from_vec(names))
}

/// The rows (1, 8) and (3, 7).
fn two_rows(alloc: Global) -> Result<Rows, NoMemory> {
    let mut rows = Rows::new(alloc);
    rows.push_copy(&[Datum::Long(1), Datum::Long(8)])?;
    rows.push_copy(&[Datum::Long(3), Datum::Long(7)])?;
    Ok(rows)
}

/// `(v, n) in ((1, 8), (3, 7))`.
fn keys(alloc: Global) -> Result<Pred<Text>, NoMemory> {
    let columns = two_names(alloc)?;
    let rows = two_rows(alloc)?;
    Ok(Pred::Keys { columns, rows })
}

const OF_KEYS: Truths = [
    (Some(3), Truth::Yes),
    (Some(1), Truth::No),
    (None, Truth::Unknown),
];

#[test]
fn keys_are_looked_for(rt: HostRuntime) -> Result<(), Fail> {
    assert!(rt; are_so(rt.alloc(), keys(rt.alloc()), &OF_KEYS)?);
    Ok(())
}

/// `v`.
fn cell(alloc: Global) -> Result<Expr<Text>, NoMemory> {
    Ok(Expr::Cell(Text::make(alloc, "v")?))
}

/// `1`.
fn one() -> Expr<Text> {
    Expr::Literal(Datum::Long(1))
}

/// `v + 1`.
fn one_more(alloc: Global) -> Result<Expr<Text>, NoMemory> {
    let cell = boxed(alloc, cell(alloc))?;
    let one = boxed(alloc, Ok(one()))?;
    Ok(Expr::Plus(cell, one))
}

/// A copy of it.
fn copied_sum(alloc: Global) -> Result<Expr<Text>, NoMemory> {
    let named = one_more(alloc)?;
    named.copy(alloc)
}

/// `1 * factor`.
fn times(alloc: Global, factor: Result<Expr<Text>, NoMemory>) -> Result<Expr<Text>, NoMemory> {
    let factor = boxed(alloc, factor)?;
    let one = boxed(alloc, Ok(one()))?;
    Ok(Expr::Times(one, factor))
}

/// `v + 1 * factor`.
fn mixed(alloc: Global, factor: Result<Expr<Text>, NoMemory>) -> Result<Expr<Text>, NoMemory> {
    let product = boxed(alloc, times(alloc, factor))?;
    let cell = boxed(alloc, cell(alloc))?;
    Ok(Expr::Plus(cell, product))
}

/// What the value of an expression is for a row.
#[derive(Clone, Copy, Debug, Drop, PartialEq, Eq)]
enum Value {
    Long(i64),
    Null,
    Overflow,
    Other,
}

fn seen(value: &Result<Datum, ExprFault>) -> Value {
    match value {
        Ok(Datum::Long(n)) => Value::Long(*n),
        Ok(Datum::Null) => Value::Null,
        Err(ExprFault::Overflow) => Value::Overflow,
        _ => Value::Other,
    }
}

/// The value of an expression for column `v` in the row that has this first datum.
fn value_of(
    alloc: Global,
    schema: &Schema,
    named: &Expr<Text>,
    first: Option<i64>,
) -> Result<Value, BindFault> {
    let name = Text::make(alloc, "v")?;
    let expr = named.bind(alloc, schema, Kind::Long, &name)?;
    let row = [long(first), Datum::Integer(7), Datum::Null];
    if row.len() == schema.columns().len() {
        let value = expr.value(&row, Some(&row));
        Ok(seen(&value))
    } else {
        Ok(Value::Other)
    }
}

/// Whether an expression has this value for a row.
fn is_value(found: &Result<Value, BindFault>, want: Value) -> bool {
    match found {
        Ok(value) => *value == want,
        Err(_) => false,
    }
}

/// First data of rows, and the values of the sum.
const SUMS: [(Option<i64>, Value); 3] = [
    (Some(1), Value::Long(2)),
    (None, Value::Null),
    (Some(i64::MAX), Value::Overflow),
];

/// Whether an expression has these values.
fn come_to(alloc: Global, named: Result<Expr<Text>, NoMemory>) -> Result<bool, NoMemory> {
    let named = named?;
    let schema = three(alloc)?;
    let mut all = true;
    for (first, want) in SUMS {
        all = is_value(&value_of(alloc, &schema, &named, first), want) && all;
    }
    Ok(all)
}

#[test]
fn sums_overflow_in_their_width(rt: HostRuntime) -> Result<(), Fail> {
    assert!(rt; come_to(rt.alloc(), copied_sum(rt.alloc()))?);
    Ok(())
}

/// Whether an expression for column `v`, of this kind, is bound so.
fn is_bound_so(
    alloc: Global,
    named: Result<Expr<Text>, NoMemory>,
    kind: Kind,
    want: Outcome,
) -> Result<bool, NoMemory> {
    let named = named?;
    let name = Text::make(alloc, "v")?;
    let schema = three(alloc)?;
    let bound = named.bind(alloc, &schema, kind, &name);
    Ok(outcome_of(&bound) == want)
}

/// `s`, which is a text.
fn text_cell(alloc: Global) -> Result<Expr<Text>, NoMemory> {
    Ok(Expr::Cell(Text::make(alloc, "s")?))
}

/// `w` of the source, which isn't there.
fn absent_cell(alloc: Global) -> Result<Expr<Text>, NoMemory> {
    Ok(Expr::SourceCell(Text::make(alloc, "w")?))
}

#[test]
fn sums_of_another_width_are_refused(rt: HostRuntime) -> Result<(), Fail> {
    let alloc = rt.alloc();
    assert!(rt; is_bound_so(alloc, copied_sum(alloc), Kind::Integer, Outcome::Kind)?);
    Ok(())
}

#[test]
fn the_first_wrong_cell_is_named(rt: HostRuntime) -> Result<(), Fail> {
    let alloc = rt.alloc();
    let text = mixed(alloc, text_cell(alloc));
    assert!(rt; is_bound_so(alloc, text, Kind::Long, Outcome::Kind)?);
    let absent = mixed(alloc, absent_cell(alloc));
    assert!(rt; is_bound_so(alloc, absent, Kind::Long, Outcome::Column)?);
    Ok(())
}
