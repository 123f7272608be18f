//! Predicates over places for predicates over names.
ghost use Rattle.std.specs.Prelude.{◌≡◌, ◌==◌, ◌<◌, true, length, nat_lt, IfOk, IfSome};
ghost use Rattle.std.specs.List.{list_all};
ghost use Rattle.row_base.specs.Faults.{Reads};
ghost use Rattle.predicates.specs.Truths.{is_bound, is_operand};
ghost use Rattle.predicates.specs.Binding.{is_memory, place_in, found_in, literal_as, operand_in, places_in, key_literal_in, key_as, key_in, keys_as, keys_in, comparison_in, bound_in};

use crate::{BindFault, Op, Operand, Pred};
use row_base::{Column, Datum, Items, Kind, Rows, Schema, Text};
use sqlite_items::Boxed;
use std::alloc::Global;

/// Where the column of a name stands.
fn place(columns: &[Column], name: &Text) -> Option<usize>
    ensures at { result ≡ place_in columns.now name.now }
    ensures within { IfSome result (λ p. p < length columns.now) }
{
    columns.iter().position(|c| c.name == *name)
}

/// The place and the kind of the column of a name.
pub(crate) fn found(columns: &[Column], name: &Text) -> Result<(u32, Kind), BindFault>
    requires { length columns.now < 65 }
    ensures read { Reads is_memory result (found_in columns.now name.now) }
    ensures within { IfOk result (λ p. p.0 < length columns.now) }
{
    match place(columns, name) {
        Some(place) => Ok((place as u32, columns[place].kind)),
        None => Err(BindFault::Column { name: name.copy()? }),
    }
}

/// A literal as a column of this kind takes it.
pub(crate) fn literal(kind: Kind, datum: &Datum, name: &Text) -> Result<Datum, BindFault>
    ensures { Reads is_memory result (literal_as kind datum.now name.now) }
{
    match (kind, datum) {
        (_, Datum::Null) => Ok(Datum::Null),
        (Kind::Long, Datum::Long(n)) => Ok(Datum::Long(*n)),
        (Kind::Integer, Datum::Integer(n)) => Ok(Datum::Integer(*n)),
        (Kind::Integer, Datum::Long(n)) => narrowed(*n, name),
        (Kind::Boolean, Datum::Boolean(b)) => Ok(Datum::Boolean(*b)),
        (Kind::String, Datum::Text(text)) => Ok(Datum::Text(text.copy()?)),
        (Kind::Date, Datum::Date(n)) => Ok(Datum::Date(*n)),
        _ => Err(BindFault::Kind { name: name.copy()? }),
    }
}

/// A number literal as a column of integers takes it.
fn narrowed(n: i64, name: &Text) -> Result<Datum, BindFault>
    ensures { Reads is_memory result (Rattle.predicates.specs.Binding.narrowed n name.now) }
{
    match i32::try_from(n) {
        Ok(n) => Ok(Datum::Integer(n)),
        Err(_) => Err(BindFault::Kind { name: name.copy()? }),
    }
}

/// The right side of a comparison with a column of this kind.
fn operand(
    columns: &[Column],
    kind: Kind,
    right: &Operand<Text>,
    name: &Text,
) -> Result<Operand<u32>, BindFault>
    requires { length columns.now < 65 }
    ensures read { Reads is_memory result (operand_in columns.now kind right.now name.now) }
    ensures within { IfOk result (λ r. is_operand (length columns.now) r ≡ true) }
{
    match right {
        Operand::Column(other) => {
            let (place, other) = found(columns, other)?;
            if kind == other {
                Ok(Operand::Column(place))
            } else {
                Err(BindFault::Kind { name: name.copy()? })
            }
        }
        Operand::Literal(datum) => Ok(Operand::Literal(literal(kind, datum, name)?)),
    }
}

/// A comparison.
fn comparison(
    columns: &[Column],
    op: Op,
    column: &Text,
    right: &Operand<Text>,
) -> Result<Pred<u32>, BindFault>
    requires { length columns.now < 65 }
    ensures read { Reads is_memory result (comparison_in columns.now op column.now right.now) }
    ensures bound { IfOk result (λ p. is_bound (length columns.now) p ≡ true) }
{
    let (place, kind) = found(columns, column)?;
    let right = operand(columns, kind, right, column)?;
    Ok(Pred::Compare {
        op,
        column: place,
        right,
    })
}

/// The places of the columns of these names.
#[tactic(auto, unfolding(crate::specs::Binding::places_in))]
fn places(alloc: Global, columns: &[Column], names: &[Text]) -> Result<Items<u32>, BindFault>
    requires { length columns.now < 65 }
    ensures read { Reads is_memory result (places_in columns.now names.now) }
    ensures within { IfOk result (λ ps. list_all (λ p. nat_lt p (length columns.now)) ps ≡ true) }
    ensures count { IfOk result (λ ps. length ps ≡ length names.now) }
{
    let mut places = Vec::with_capacity(alloc, names.len())?;
    for name in names {
        let (place, _) = found(columns, name)?;
        places.push(place)?;
    }
    Ok(Items::from_vec(places))
}

/// The data of a key, each as a literal that is compared with its column.
#[tactic(auto, unfolding(crate::specs::Binding::key_as))]
fn key(
    alloc: Global,
    columns: &[Column],
    names: &[Text],
    values: &[Datum],
) -> Result<Items<Datum>, BindFault>
    requires few { length columns.now < 65 }
    requires same { length values.now ≡ length names.now }
    ensures read { Reads is_memory result (key_as columns.now names.now values.now) }
    ensures count { IfOk result (λ ds. length ds ≡ length names.now) }
{
    let mut key = Vec::with_capacity(alloc, names.len())?;
    for i in 0..names.len() {
        key.push(key_literal(columns, &names[i], &values[i])?)?;
    }
    Ok(Items::from_vec(key))
}

/// A key, which has a datum for each of its columns.
fn whole_key(
    alloc: Global,
    columns: &[Column],
    names: &[Text],
    values: &[Datum],
) -> Result<Items<Datum>, BindFault>
    requires { length columns.now < 65 }
    ensures read { Reads is_memory result (key_in columns.now names.now values.now) }
    ensures count { IfOk result (λ ds. length ds ≡ length names.now) }
{
    if values.len() == names.len() {
        key(alloc, columns, names, values)
    } else {
        Err(BindFault::Count)
    }
}

/// A datum of a key.
fn key_literal(columns: &[Column], name: &Text, datum: &Datum) -> Result<Datum, BindFault>
    requires { length columns.now < 65 }
    ensures { Reads is_memory result (key_literal_in columns.now name.now datum.now) }
{
    let (_, kind) = found(columns, name)?;
    literal(kind, datum, name)
}

/// The same of each key.
#[tactic(auto, unfolding(crate::specs::Binding::keys_as))]
fn keys(alloc: Global, columns: &[Column], names: &[Text], rows: &Rows) -> Result<Rows, BindFault>
    requires { length columns.now < 65 }
    ensures read { Reads is_memory result (keys_as columns.now names.now rows.now) }
    ensures count { IfOk result (λ ks. list_all (λ k. length k == length names.now) ks ≡ true) }
{
    let mut keys = Rows::new(alloc);
    for row in rows.iter() {
        let mut data = whole_key(alloc, columns, names, row)?.into_vec();
        keys.push_from(&mut data)?;
    }
    Ok(keys)
}

/// The keys, and their columns.
fn bound_keys(
    alloc: Global,
    columns: &[Column],
    names: &[Text],
    rows: &Rows,
) -> Result<Pred<u32>, BindFault>
    requires { length columns.now < 65 }
    ensures read { Reads is_memory result (keys_in columns.now names.now rows.now) }
    ensures bound { IfOk result (λ p. is_bound (length columns.now) p ≡ true) }
{
    let places = places(alloc, columns, names)?;
    let keys = keys(alloc, columns, names, rows)?;
    Ok(Pred::Keys {
        columns: places,
        rows: keys,
    })
}

/// A part that was bound, on the heap.
pub(crate) fn boxed<T: Drop>(
    alloc: Global,
    part: Result<T, BindFault>,
) -> Result<Boxed<T>, BindFault>
    ensures { Reads is_memory result part }
{
    Ok(Boxed::new(alloc, part?)?)
}

/// The predicate over the places of these columns, or the first fault from the left.
fn bound(alloc: Global, pred: &Pred<Text>, columns: &[Column]) -> Result<Pred<u32>, BindFault>
    requires { length columns.now < 65 }
    ensures read { Reads is_memory result (bound_in columns.now pred.now) }
    ensures bound { IfOk result (λ p. is_bound (length columns.now) p ≡ true) }
{
    match pred {
        Pred::Always => Ok(Pred::Always),
        Pred::Never => Ok(Pred::Never),
        Pred::Compare { op, column, right } => comparison(columns, *op, column, right),
        Pred::IsNull { column } => {
            let (place, _) = found(columns, column)?;
            Ok(Pred::IsNull { column: place })
        }
        Pred::Both(left, right) => {
            let left = boxed(alloc, bound(alloc, left.get(), columns))?;
            let right = boxed(alloc, bound(alloc, right.get(), columns))?;
            Ok(Pred::Both(left, right))
        }
        Pred::Either(left, right) => {
            let left = boxed(alloc, bound(alloc, left.get(), columns))?;
            let right = boxed(alloc, bound(alloc, right.get(), columns))?;
            Ok(Pred::Either(left, right))
        }
        Pred::Negation(inner) => {
            let inner = boxed(alloc, bound(alloc, inner.get(), columns))?;
            Ok(Pred::Negation(inner))
        }
        Pred::Keys {
            columns: names,
            rows,
        } => bound_keys(alloc, columns, names.as_slice(), rows),
    }
}

impl Pred<Text> {
    /// The same predicate over the places of a schema's columns, or the first fault from the left. A column must
    /// exist, and what it is compared with be of its kind: null is of every kind, and a long literal stands for an
    /// integer beside a column of integers, where it fits 32 bits. A fault of kinds names the left column. Each datum
    /// of `Keys` is a literal that is compared with its column; a row of more or fewer data is `Count`.
    pub fn bind(&self, alloc: Global, schema: &Schema) -> Result<Pred<u32>, BindFault>
        ensures read { Reads is_memory result (bound_in schema.now.columns self.now) }
        ensures bound { IfOk result (λ p. is_bound (length schema.now.columns) p ≡ true) }
    {
        bound(alloc, self, schema.columns())
    }
}
