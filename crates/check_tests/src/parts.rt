//! Parts of statements that tests are made of, and the faults that they have.
use op_types::SetTo;
use predicates::{BindFault, Expr, Op, Operand, Pred};
use row_base::{Column, Datum, Kind, NoMemory, Schema, Text};
use sqlite_items::Boxed;
use std::alloc::Global;
use std::test::Fail;

/// A literal of a script.
#[derive(Clone, Copy, Drop)]
pub enum Literal {
    Null,
    Number(i64),
    Flag(bool),
    Word(&'static str),
}

/// What a column is compared with.
#[derive(Clone, Copy, Drop)]
pub enum Right {
    Column(&'static str),
    Literal(Literal),
}

/// `NAME = RIGHT`
pub type Comparison = (&'static str, Right);

/// A part of an expression.
#[derive(Clone, Copy, Drop)]
pub enum Side {
    Cell(&'static str),
    Source(&'static str),
    Literal(Literal),
}

/// An expression.
#[derive(Clone, Copy, Drop)]
pub enum Form {
    Of(Side),
    Sum(Side, Side),
}

/// `NAME = EXPR` in `set`.
pub type Set = (&'static str, Form);

/// What a statement comes to.
#[derive(Clone, Copy, Drop)]
pub enum Answer {
    Bound,
    Column(&'static str),
    Kind(&'static str),
    Twice(&'static str),
    Count,
    Property(&'static str),
    Fixed(&'static str),
}

/// A number.
pub const ONE: Literal = Literal::Number(1);

/// The first number that is no integer of 32 bits.
pub const WIDE: Literal = Literal::Number(2_147_483_648);

pub fn texts(alloc: Global, names: &[&str]) -> Result<Vec<Text>, NoMemory> {
    let mut texts = Vec::new(alloc);
    for name in names {
        texts.push(Text::make(alloc, name)?)?;
    }
    Ok(texts)
}

pub fn column(alloc: Global, name: &str, kind: Kind, nullable: bool) -> Result<Column, NoMemory> {
    let name = Text::make(alloc, name)?;
    Ok(Column {
        name,
        kind,
        nullable,
    })
}

fn columns(alloc: Global) -> Result<Vec<Column>, NoMemory> {
    let mut columns = Vec::new(alloc);
    columns.push(column(alloc, "id", Kind::Long, false)?)?;
    columns.push(column(alloc, "v", Kind::Long, true)?)?;
    columns.push(column(alloc, "n", Kind::Integer, true)?)?;
    columns.push(column(alloc, "s", Kind::String, true)?)?;
    Ok(columns)
}

/// `id long not null, v long, n integer, s string`, partitioned by `s`.
pub fn schema(alloc: Global) -> Result<Schema, Fail> {
    let columns = columns(alloc)?;
    let partition = Vec::from_slice(alloc, &[3u32])?;
    Ok(Schema::make(columns, partition)?)
}

pub fn datum(alloc: Global, literal: Literal) -> Result<Datum, NoMemory> {
    match literal {
        Literal::Null => Ok(Datum::Null),
        Literal::Number(n) => Ok(Datum::Long(n)),
        Literal::Flag(b) => Ok(Datum::Boolean(b)),
        Literal::Word(s) => Ok(Datum::Text(Text::make(alloc, s)?)),
    }
}

fn operand(alloc: Global, right: Right) -> Result<Operand<Text>, NoMemory> {
    match right {
        Right::Column(name) => Ok(Operand::Column(Text::make(alloc, name)?)),
        Right::Literal(literal) => Ok(Operand::Literal(datum(alloc, literal)?)),
    }
}

/// `NAME = RIGHT`
pub fn equals(alloc: Global, comparison: Comparison) -> Result<Pred<Text>, NoMemory> {
    let column = Text::make(alloc, comparison.0)?;
    let right = operand(alloc, comparison.1)?;
    Ok(Pred::Compare {
        op: Op::Eq,
        column,
        right,
    })
}

fn side_of(alloc: Global, side: Side) -> Result<Expr<Text>, NoMemory> {
    match side {
        Side::Cell(name) => Ok(Expr::Cell(Text::make(alloc, name)?)),
        Side::Source(name) => Ok(Expr::SourceCell(Text::make(alloc, name)?)),
        Side::Literal(literal) => Ok(Expr::Literal(datum(alloc, literal)?)),
    }
}

fn boxed(alloc: Global, side: Side) -> Result<Boxed<Expr<Text>>, NoMemory> {
    let expr = side_of(alloc, side)?;
    Ok(Boxed::new(alloc, expr)?)
}

fn sum(alloc: Global, left: Side, right: Side) -> Result<Expr<Text>, NoMemory> {
    let left = boxed(alloc, left)?;
    let right = boxed(alloc, right)?;
    Ok(Expr::Plus(left, right))
}

fn expr(alloc: Global, form: Form) -> Result<Expr<Text>, NoMemory> {
    match form {
        Form::Of(side) => side_of(alloc, side),
        Form::Sum(left, right) => sum(alloc, left, right),
    }
}

pub fn exprs(alloc: Global, forms: &[Form]) -> Result<Vec<Expr<Text>>, NoMemory> {
    let mut exprs = Vec::new(alloc);
    for form in forms {
        exprs.push(expr(alloc, *form)?)?;
    }
    Ok(exprs)
}

fn set(alloc: Global, set: Set) -> Result<SetTo<Text>, NoMemory> {
    let column = Text::make(alloc, set.0)?;
    let value = expr(alloc, set.1)?;
    Ok(SetTo { column, value })
}

pub fn sets(alloc: Global, forms: &[Set]) -> Result<Vec<SetTo<Text>>, NoMemory> {
    let mut sets = Vec::new(alloc);
    for form in forms {
        sets.push(set(alloc, *form)?)?;
    }
    Ok(sets)
}

/// Whether a fault is this one.
fn is_fault(fault: &BindFault, answer: Answer) -> bool {
    match (fault, answer) {
        (BindFault::Column { name }, Answer::Column(wanted)) => name.as_str() == wanted,
        (BindFault::Kind { name }, Answer::Kind(wanted)) => name.as_str() == wanted,
        (BindFault::Twice { name }, Answer::Twice(wanted)) => name.as_str() == wanted,
        (BindFault::Count, Answer::Count) => true,
        (BindFault::Property { key }, Answer::Property(wanted)) => key.as_str() == wanted,
        (BindFault::Fixed { key }, Answer::Fixed(wanted)) => key.as_str() == wanted,
        _ => false,
    }
}

/// Whether a statement comes to this.
pub fn is_answer(bound: &Result<(), BindFault>, answer: Answer) -> bool {
    match bound {
        Ok(()) => matches!(answer, Answer::Bound),
        Err(fault) => is_fault(fault, answer),
    }
}
