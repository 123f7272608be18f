//! What statements get that do not fit a schema, and values that leave their width.
ghost use Rattle.std.specs.Prelude.{◌≡◌, true, IfOk};
ghost use Rattle.predicates.specs.Values.{is_expr_bound};

use predicates::{BindFault, Expr, ExprFault, Op, Operand, Pred};
use row_base::{Column, Datum, Items, Kind, NoMemory, Rows, Schema, Text};
use sqlite_items::Boxed;
use std::alloc::Global;
use std::test::Fail;

fn column(alloc: Global, name: &str, kind: Kind) -> Result<Column, NoMemory> {
    let name = Text::make(alloc, name)?;
    Ok(Column {
        name,
        kind,
        nullable: true,
    })
}

/// `v long, n integer, s string`.
fn three_columns(alloc: Global) -> Result<Schema, Fail> {
    let long = column(alloc, "v", Kind::Long)?;
    let integer = column(alloc, "n", Kind::Integer)?;
    let text = column(alloc, "s", Kind::String)?;
    let mut columns = Vec::new(alloc);
    columns.push(long)?;
    columns.push(integer)?;
    columns.push(text)?;
    Ok(Schema::make(columns, Vec::new(alloc))?)
}

/// How a binding ended.
#[derive(Clone, Copy, Debug, Drop, PartialEq, Eq)]
enum Bound {
    Whole,
    /// No column of the name.
    Column,
    /// A kind that is not that of the column of the name.
    Kind,
    Count,
    /// A fault that names another column, or another fault.
    Other,
}

/// Which fault there is, beside the name that it should have.
fn fault_seen(fault: &BindFault, name: &str) -> Bound {
    match fault {
        BindFault::Column { name: wrong } if wrong.as_str() == name => Bound::Column,
        BindFault::Kind { name: wrong } if wrong.as_str() == name => Bound::Kind,
        BindFault::Count => Bound::Count,
        _ => Bound::Other,
    }
}

/// How a predicate binds, which goes with it.
fn ending(alloc: Global, schema: &Schema, named: Pred<Text>, name: &str) -> Bound {
    let bound = named.bind(alloc, schema);
    drop(named);
    match bound {
        Ok(pred) => {
            drop(pred);
            Bound::Whole
        }
        Err(fault) => fault_seen(&fault, name),
    }
}

/// What a column is compared with.
#[derive(Clone, Copy, Debug, Drop)]
enum Right {
    Column(&'static str),
    Long(i64),
    Text(&'static str),
    Day(i32),
    Truth,
    Null,
}

fn operand(alloc: Global, right: Right) -> Result<Operand<Text>, NoMemory> {
    match right {
        Right::Column(name) => Ok(Operand::Column(Text::make(alloc, name)?)),
        Right::Long(number) => Ok(Operand::Literal(Datum::Long(number))),
        Right::Text(text) => Ok(Operand::Literal(Datum::Text(Text::make(alloc, text)?))),
        Right::Day(day) => Ok(Operand::Literal(Datum::Date(day))),
        Right::Truth => Ok(Operand::Literal(Datum::Boolean(true))),
        Right::Null => Ok(Operand::Literal(Datum::Null)),
    }
}

/// How a comparison binds.
fn compared(alloc: Global, left: &str, right: Right, name: &str) -> Result<Bound, Fail> {
    let schema = three_columns(alloc)?;
    let column = Text::make(alloc, left)?;
    let right = operand(alloc, right)?;
    let named = Pred::Compare {
        op: Op::Eq,
        column,
        right,
    };
    Ok(ending(alloc, &schema, named, name))
}

/// A comparison, the name of its fault, and how it ends.
const COMPARED: [(&str, Right, &str, Bound); 14] = [
    ("w", Right::Long(1), "w", Bound::Column),
    ("v", Right::Text("x"), "v", Bound::Kind),
    ("v", Right::Column("w"), "w", Bound::Column),
    ("w", Right::Column("u"), "w", Bound::Column),
    ("v", Right::Column("n"), "v", Bound::Kind),
    ("n", Right::Column("v"), "n", Bound::Kind),
    ("v", Right::Column("v"), "", Bound::Whole),
    ("n", Right::Long(-2_147_483_648), "", Bound::Whole),
    ("n", Right::Long(-2_147_483_649), "n", Bound::Kind),
    ("n", Right::Long(2_147_483_648), "n", Bound::Kind),
    ("s", Right::Null, "", Bound::Whole),
    ("s", Right::Long(1), "s", Bound::Kind),
    ("v", Right::Day(0), "v", Bound::Kind),
    ("n", Right::Truth, "n", Bound::Kind),
];

#[test]
fn a_comparison_names_its_fault(rt: HostRuntime) -> Result<(), Fail> {
    let alloc = rt.alloc();
    for (left, right, name, wanted) in COMPARED {
        assert!(rt; compared(alloc, left, right, name)? == wanted);
    }
    Ok(())
}

/// How keys of one column bind, in rows of this many data.
fn keyed(alloc: Global, left: &str, width: usize, name: &str) -> Result<Bound, Fail> {
    let schema = three_columns(alloc)?;
    let mut rows = Rows::new(alloc);
    if width == 1 {
        rows.push_copy(&[Datum::Long(1)])?;
    } else {
        rows.push_copy(&[Datum::Long(1), Datum::Long(2)])?;
    }
    let column = Text::make(alloc, left)?;
    let mut names = Vec::new(alloc);
    names.push(column)?;
    let columns = Items::from_vec(names);
    Ok(ending(alloc, &schema, Pred::Keys { columns, rows }, name))
}

/// How a test for null binds.
fn asked_for_null(alloc: Global, left: &str) -> Result<Bound, Fail> {
    let schema = three_columns(alloc)?;
    let column = Text::make(alloc, left)?;
    Ok(ending(alloc, &schema, Pred::IsNull { column }, left))
}

#[test]
fn keys_and_tests_for_null_name_their_fault(rt: HostRuntime) -> Result<(), Fail> {
    let alloc = rt.alloc();
    assert!(rt; keyed(alloc, "v", 1, "")? == Bound::Whole);
    assert!(rt; keyed(alloc, "v", 2, "")? == Bound::Count);
    assert!(rt; keyed(alloc, "w", 2, "w")? == Bound::Column);
    assert!(rt; keyed(alloc, "s", 1, "s")? == Bound::Kind);
    assert!(rt; asked_for_null(alloc, "w")? == Bound::Column);
    assert!(rt; asked_for_null(alloc, "s")? == Bound::Whole);
    Ok(())
}

/// How two numbers make one.
#[derive(Clone, Copy, Debug, Drop)]
enum How {
    Plus,
    Minus,
    Times,
}

fn joined(alloc: Global, how: How, left: Expr<u32>, right: Expr<u32>) -> Result<Expr<u32>, NoMemory>
    requires left { is_expr_bound 0 0 left ≡ true }
    requires right { is_expr_bound 0 0 right ≡ true }
    ensures { IfOk result (λ e. is_expr_bound 0 0 e ≡ true) }
{
    let left = Boxed::new(alloc, left)?;
    let right = Boxed::new(alloc, right)?;
    match how {
        How::Plus => Ok(Expr::Plus(left, right)),
        How::Minus => Ok(Expr::Minus(left, right)),
        How::Times => Ok(Expr::Times(left, right)),
    }
}

/// A long, or null.
fn long(number: Option<i64>) -> Expr<u32>
    ensures { is_expr_bound 0 0 result ≡ true }
{
    match number {
        Some(number) => Expr::Literal(Datum::Long(number)),
        None => Expr::Literal(Datum::Null),
    }
}

/// What the value of an expression is.
#[derive(Clone, Copy, Debug, Drop, PartialEq, Eq)]
enum Value {
    Long(i64),
    Integer(i32),
    Null,
    Overflow,
    Other,
}

/// The value of an expression, which goes with it.
fn value_of(expr: Expr<u32>) -> Value
    requires { is_expr_bound 0 0 expr ≡ true }
{
    let value = expr.value(&[], None);
    drop(expr);
    match value {
        Ok(Datum::Long(number)) => Value::Long(number),
        Ok(Datum::Integer(number)) => Value::Integer(number),
        Ok(Datum::Null) => Value::Null,
        Err(ExprFault::Overflow) => Value::Overflow,
        _ => Value::Other,
    }
}

/// The value of two longs put together.
fn of_longs(alloc: Global, how: How, x: i64, y: Option<i64>) -> Result<Value, NoMemory> {
    let expr = joined(alloc, how, long(Some(x)), long(y))?;
    Ok(value_of(expr))
}

/// The value of two integers put together.
fn of_integers(alloc: Global, how: How, x: i32, y: i32) -> Result<Value, NoMemory> {
    let left = Expr::Literal(Datum::Integer(x));
    let right = Expr::Literal(Datum::Integer(y));
    let expr = joined(alloc, how, left, right)?;
    Ok(value_of(expr))
}

/// The value of a sum that overflows, times null or null times it.
fn beside_null(alloc: Global, is_first: bool) -> Result<Value, NoMemory> {
    let sum = joined(alloc, How::Plus, long(Some(i64::MAX)), long(Some(1)))?;
    let expr = if is_first {
        joined(alloc, How::Times, sum, long(None))?
    } else {
        joined(alloc, How::Times, long(None), sum)?
    };
    Ok(value_of(expr))
}

const HALF: i64 = 4_611_686_018_427_387_904;

const OF_LONGS: [(How, i64, Option<i64>, Value); 9] = [
    (How::Plus, 10, Some(1), Value::Long(11)),
    (How::Plus, 10, Some(5), Value::Long(15)),
    (How::Plus, i64::MAX, Some(1), Value::Overflow),
    (How::Plus, i64::MAX, None, Value::Null),
    (How::Minus, i64::MIN, Some(1), Value::Overflow),
    (How::Minus, -1, Some(i64::MAX), Value::Long(i64::MIN)),
    (How::Times, HALF, Some(2), Value::Overflow),
    (How::Times, HALF, Some(-2), Value::Long(i64::MIN)),
    (How::Times, i64::MIN, Some(-1), Value::Overflow),
];

const OF_INTEGERS: [(How, i32, i32, Value); 4] = [
    (How::Plus, 2_147_483_647, 1, Value::Overflow),
    (How::Plus, 2_147_483_646, 1, Value::Integer(2_147_483_647)),
    (How::Minus, -2_147_483_648, 1, Value::Overflow),
    (How::Times, 65_536, 32_768, Value::Overflow),
];

#[test]
fn a_number_past_its_width_overflows(rt: HostRuntime) -> Result<(), Fail> {
    let alloc = rt.alloc();
    for (how, x, y, wanted) in OF_LONGS {
        assert!(rt; of_longs(alloc, how, x, y)? == wanted);
    }
    for (how, x, y, wanted) in OF_INTEGERS {
        assert!(rt; of_integers(alloc, how, x, y)? == wanted);
    }
    Ok(())
}

#[test]
fn an_overflow_counts_beside_null(rt: HostRuntime) -> Result<(), Fail> {
    let alloc = rt.alloc();
    assert!(rt; beside_null(alloc, true)? == Value::Overflow);
    assert!(rt; beside_null(alloc, false)? == Value::Overflow);
    Ok(())
}
