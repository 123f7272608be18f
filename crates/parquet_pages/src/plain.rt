//! Values in the PLAIN encoding (Parquet format, Encodings.md, "Plain: (PLAIN = 0)").
ghost use Rattle.std.specs.Prelude.{◌≡◌, ◌≤◌, ◌*◌, ◌++◌, length, map, option_map, IfOk, OnOk};
ghost use Rattle.std.specs.List.{flat_map};
ghost use Rattle.bit_pack.specs.Bits.{most_values};
ghost use Rattle.row_base.specs.declared.row.Kind.TheVariants as kind;
ghost use Rattle.parquet_pages.specs.Gives.{Gives};
ghost use Rattle.parquet_pages.specs.Plain as spec;
ghost use Rattle.parquet_pages.specs.Written as written;

use crate::fault::BodyFault;
use crate::hybrid::{append_bits, bits};
use row_base::limits::MAX_TEXT_BYTES;
use row_base::{Datum, Kind, NoMemory, Text};
use std::alloc::Global;
use std::str;

/// The bytes of a long.
const LONG_SIZE: usize = 8;

/// The fewest bytes of a value that isn't a boolean.
const LEAST_SIZE: usize = 4;

/// The numbers of 0001-01-01 and of 9999-12-31.
const FIRST_DAY: i32 = -719_162;

const LAST_DAY: i32 = 2_932_896;

/// The first bytes, so many, and what is behind them.
pub(crate) fn cut(bytes: &[u8], count: usize) -> Option<(&[u8], &[u8])>
    ensures { option_map (λ c. (c.0.now, c.1.now)) result ≡ spec.cut count bytes.now }
{
    if count <= bytes.len() {
        Some(bytes.split_at(count))
    } else {
        None
    }
}

/// Bytes behind their number, which has four bytes, and what is behind them.
#[tactic(auto, unfolding(crate::specs::Plain::block_in))]
pub(crate) fn block(bytes: &[u8]) -> Option<(&[u8], &[u8])>
    ensures { option_map (λ c. (c.0.now, c.1.now)) result ≡ spec.block_in bytes.now }
{
    let (front, rest) = bytes.split_first_chunk::<4>()?;
    cut(rest, u32::from_le_bytes(*front) as usize)
}

/// The long at the front, and what is behind it.
fn long(bytes: &[u8]) -> Option<(Datum, &[u8])>
    ensures { option_map (λ c. (c.0, c.1.now)) result ≡ spec.long_in bytes.now }
{
    let (front, rest) = bytes.split_first_chunk::<8>()?;
    Some((Datum::Long(i64::from_le_bytes(*front)), rest))
}

/// The integer at the front, and what is behind it.
fn integer(bytes: &[u8]) -> Option<(Datum, &[u8])>
    ensures { option_map (λ c. (c.0, c.1.now)) result ≡ spec.integer_in bytes.now }
{
    let (front, rest) = bytes.split_first_chunk::<4>()?;
    Some((Datum::Integer(i32::from_le_bytes(*front)), rest))
}

/// The date at the front, where it is in range, and what is behind it.
fn date(bytes: &[u8]) -> Option<(Datum, &[u8])>
    ensures { option_map (λ c. (c.0, c.1.now)) result ≡ spec.date_in bytes.now }
{
    let (front, rest) = bytes.split_first_chunk::<4>()?;
    let day = i32::from_le_bytes(*front);
    if FIRST_DAY <= day && day <= LAST_DAY {
        Some((Datum::Date(day), rest))
    } else {
        None
    }
}

/// The text of these bytes.
fn text_of(alloc: Global, bytes: &[u8]) -> Result<Datum, BodyFault>
    ensures { Gives result (λ x. x) (spec.text_datum bytes.now) }
{
    if bytes.len() > MAX_TEXT_BYTES {
        return Err(BodyFault::Damaged);
    }
    match str::from_utf8(bytes) {
        Ok(text) => Ok(Datum::Text(Text::make(alloc, text)?)),
        Err(_) => Err(BodyFault::Damaged),
    }
}

/// The text at the front, and what is behind it.
fn text(alloc: Global, bytes: &[u8]) -> Result<(Datum, &[u8]), BodyFault>
    ensures { Gives result (λ v. (v.0, v.1.now)) (spec.text_in bytes.now) }
{
    match block(bytes) {
        Some((text, rest)) => Ok((text_of(alloc, text)?, rest)),
        None => Err(BodyFault::Damaged),
    }
}

/// The value at the front, and what is behind it.
#[tactic(auto, unfolding(crate::specs::Plain::plain_value))]
#[inline]
fn plain_value(alloc: Global, kind: Kind, bytes: &[u8]) -> Result<(Datum, &[u8]), BodyFault>
    ensures { Gives result (λ v. (v.0, v.1.now)) (spec.plain_value kind bytes.now) }
{
    match kind {
        Kind::Long => long(bytes).ok_or(BodyFault::Damaged),
        Kind::Integer => integer(bytes).ok_or(BodyFault::Damaged),
        Kind::Boolean => Err(BodyFault::Damaged),
        Kind::String => text(alloc, bytes),
        Kind::Date => date(bytes).ok_or(BodyFault::Damaged),
    }
}

/// So many values one behind the other. Room is made for no more of them than the bytes could hold.
fn values_in_line(
    alloc: Global,
    kind: Kind,
    count: usize,
    bytes: &[u8],
) -> Result<Vec<Datum>, BodyFault>
    ensures { Gives result (λ v. v.items) (spec.values_in_line kind count bytes.now) }
{
    let mut values = Vec::with_capacity(alloc, count.min(bytes.len() / LEAST_SIZE))?;
    let mut rest = bytes;
    for i in 0..count {
        let (value, behind) = plain_value(alloc, kind, rest)?;
        values.push(value)?;
        rest = behind;
    }
    Ok(values)
}

/// The longs of these bytes.
fn longs_of(alloc: Global, longs: &[[u8; LONG_SIZE]]) -> Result<Vec<Datum>, NoMemory>
    ensures { IfOk result (λ v. v.items ≡ map spec.long_datum longs.now) }
{
    let mut values = Vec::with_capacity(alloc, longs.len())?;
    for long in longs {
        values.push_reserved(Datum::Long(i64::from_le_bytes(*long)));
    }
    Ok(values)
}

/// So many longs one behind the other.
fn longs(alloc: Global, count: usize, bytes: &[u8]) -> Result<Vec<Datum>, BodyFault>
    ensures { Gives result (λ v. v.items) (spec.values_in_line kind.Long count bytes.now) }
{
    let (chunks, _rest) = bytes.as_chunks::<LONG_SIZE>();
    if chunks.len() < count {
        return Err(BodyFault::Damaged);
    }
    let (longs, _others) = chunks.split_at(count);
    Ok(longs_of(alloc, longs)?)
}

/// So many booleans, a bit each.
#[tactic(auto, unfolding(crate::specs::Plain::booleans_in))]
fn booleans(alloc: Global, count: usize, bytes: &[u8]) -> Result<Vec<Datum>, BodyFault>
    requires { count ≤ most_values }
    ensures { Gives result (λ v. v.items) (spec.booleans_in count bytes.now) }
{
    let bits = bits(alloc, bytes, count)?;
    let mut values = Vec::with_capacity(alloc, bits.len())?;
    for bit in bits.as_slice() {
        values.push(Datum::Boolean(*bit != 0))?;
    }
    Ok(values)
}

/// So many values of a kind.
#[tactic(auto, unfolding(crate::specs::Plain::plain_values))]
pub(crate) fn plain_values(
    alloc: Global,
    kind: Kind,
    count: usize,
    bytes: &[u8],
) -> Result<Vec<Datum>, BodyFault>
    requires { count ≤ most_values }
    ensures { Gives result (λ v. v.items) (spec.plain_values kind count bytes.now) }
{
    match kind {
        Kind::Boolean => booleans(alloc, count, bytes),
        Kind::Long => longs(alloc, count, bytes),
        Kind::Integer | Kind::String | Kind::Date => values_in_line(alloc, kind, count, bytes),
    }
}

/// Appends bytes behind their number. Bytes whose number has more than four bytes are refused as want of memory.
pub(crate) fn append_block(bytes: &[u8], out: &mut Vec<u8>) -> Result<(), NoMemory>
    ensures { OnOk result (out.new.items ≡ out.old.items ++ written.block_text bytes.now) }
{
    match u32::try_from(bytes.len()) {
        Ok(number) => {
            out.extend_from_slice(&number.to_le_bytes())?;
            out.extend_from_slice(bytes)?;
            Ok(())
        }
        Err(_) => Err(NoMemory),
    }
}

/// Appends the bytes of a value that isn't a boolean.
fn append_value(value: &Datum, out: &mut Vec<u8>) -> Result<(), NoMemory>
    ensures { OnOk result (out.new.items ≡ out.old.items ++ written.plain_text value.now) }
{
    match value {
        Datum::Null => Ok(()),
        Datum::Long(number) => append(&number.to_le_bytes(), out),
        Datum::Integer(number) => append(&number.to_le_bytes(), out),
        Datum::Boolean(_) => Ok(()),
        Datum::Text(text) => append_block(text.as_str().as_bytes(), out),
        Datum::Date(day) => append(&day.to_le_bytes(), out),
    }
}

pub(crate) fn append(bytes: &[u8], out: &mut Vec<u8>) -> Result<(), NoMemory>
    ensures { OnOk result (out.new.items ≡ out.old.items ++ bytes.now) }
{
    out.extend_from_slice(bytes)?;
    Ok(())
}

/// The bits of the booleans among these values.
fn bits_of(alloc: Global, values: &[Datum]) -> Result<Vec<u32>, NoMemory>
    ensures { IfOk result (λ bits. bits.items ≡ written.bits_of values.now) }
{
    let mut bits = Vec::with_capacity(alloc, values.len())?;
    for value in values {
        if let Datum::Boolean(set) = value {
            bits.push(u32::from(*set))?;
        }
    }
    Ok(bits)
}

fn append_booleans(alloc: Global, values: &[Datum], out: &mut Vec<u8>) -> Result<(), NoMemory>
    requires { length values.now ≤ most_values }
    ensures { OnOk result (out.new.items ≡ out.old.items ++ written.bits_text (written.bits_of values.now)) }
{
    let bits = bits_of(alloc, values)?;
    append_bits(alloc, bits.as_slice(), out)
}

fn append_in_line(values: &[Datum], out: &mut Vec<u8>) -> Result<(), NoMemory>
    ensures { OnOk result (out.new.items ≡ out.old.items ++ flat_map written.plain_text values.now) }
{
    for value in values {
        append_value(value, out)?;
    }
    Ok(())
}

/// The room for so many values of a kind, where texts have as many bytes as longs.
pub(crate) fn room_for(kind: Kind, count: usize) -> usize
    requires { count ≤ most_values }
    ensures { result ≤ 8 * count }
{
    match kind {
        Kind::Long | Kind::String => 8 * count,
        Kind::Integer | Kind::Date => 4 * count,
        Kind::Boolean => count / 8,
    }
}

/// Appends the bytes of the values that aren't null.
#[tactic(auto, unfolding(crate::specs::Written::values_text))]
pub(crate) fn append_values(
    alloc: Global,
    kind: Kind,
    values: &[Datum],
    out: &mut Vec<u8>,
) -> Result<(), NoMemory>
    requires { length values.now ≤ most_values }
    ensures { OnOk result (out.new.items ≡ out.old.items ++ written.values_text kind values.now) }
{
    match kind {
        Kind::Boolean => append_booleans(alloc, values, out),
        Kind::Long | Kind::Integer | Kind::String | Kind::Date => append_in_line(values, out),
    }
}
