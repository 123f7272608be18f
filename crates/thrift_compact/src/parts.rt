//! Reading from a place in bytes: a value and the place behind it.

ghost use Rattle.std.specs.Prelude.{◌≡◌, ℕ, ◌+◌, ◌*◌, ◌^◌, ◌<◌, ◌≤◌, length, nat_lt, if◌then◌else◌, Ok, Err, IfOk};
ghost use Rattle.thrift_compact.specs.Varints.{unzigzag};
ghost use Rattle.thrift_compact.specs.Places.{Gives};
ghost use Rattle.thrift_compact.specs.Values.{varint_at, number_at, size_at, behind, byte_at, wire_of, known, field_here, field_at, list_at, binary_at};

use crate::fault::ThriftFault;
use crate::wire::{Field, ListHead, Wire};

/// A varint of at most ten bytes and 64 bits.
pub(crate) fn read_varint(bytes: &[u8], at: usize) -> Result<(u64, usize), ThriftFault>
    requires { at ≤ length bytes.now }
    ensures value { result ≡ varint_at bytes.now at }
    ensures within { IfOk result (λ read. (at < read.1) × (read.1 ≤ length bytes.now)) }
{
    let mut number: u128 = 0;
    for i in 0..10 {
        if at + i == bytes.len() {
            return Err(ThriftFault::Short { at: bytes.len() });
        }
        let byte = bytes[at + i];
        number |= u128::from(byte % 128) << (7 * i);
        if byte < 128 {
            return short_number(number, at, at + i + 1);
        }
    }
    Err(ThriftFault::Long { at })
}

/// A number that is to have at most 64 bits.
fn short_number(number: u128, at: usize, end: usize) -> Result<(u64, usize), ThriftFault>
    ensures value { result ≡ (if nat_lt number (2 ^ 64) then Ok (number, end) else Err (ThriftFault.Long at)) }
    ensures within { IfOk result (λ read. read.1 ≡ end) }
{
    if number < 1 << 64 {
        Ok((number as u64, end))
    } else {
        Err(ThriftFault::Long { at })
    }
}

/// A zigzag varint.
#[tactic(auto, unfolding(crate::specs::Values::number_at))]
pub(crate) fn read_number(bytes: &[u8], at: usize) -> Result<(i64, usize), ThriftFault>
    requires { at ≤ length bytes.now }
    ensures value { result ≡ number_at bytes.now at }
    ensures within { IfOk result (λ read. (at < read.1) × (read.1 ≤ length bytes.now)) }
{
    let (number, end) = read_varint(bytes, at)?;
    Ok((signed(number), end))
}

/// The number that a zigzag varint stands for.
pub(crate) fn signed(number: u64) -> i64
    ensures { result ≡ unzigzag number }
{
    let half = (number / 2) as i64;
    if number % 2 == 0 { half } else { -half - 1 }
}

/// A length or a size: a plain varint of at most 32 bits.
#[tactic(auto, unfolding(crate::specs::Values::size_at))]
pub(crate) fn read_size(bytes: &[u8], at: usize) -> Result<(u32, usize), ThriftFault>
    requires { at ≤ length bytes.now }
    ensures value { result ≡ size_at bytes.now at }
    ensures within { IfOk result (λ read. (at < read.1) × (read.1 ≤ length bytes.now)) }
{
    let (size, end) = read_varint(bytes, at)?;
    if size >= 1 << 32 {
        return Err(ThriftFault::Long { at });
    }
    Ok((size as u32, end))
}

/// The place behind so many bytes.
pub(crate) fn pass(bytes: &[u8], at: usize, count: usize) -> Result<usize, ThriftFault>
    requires at { at ≤ length bytes.now }
    requires count { count < 2 ^ 33 }
    ensures value { result ≡ behind bytes.now at count }
    ensures within { IfOk result (λ end. (at + count ≡ end) × (end ≤ length bytes.now)) }
{
    if count > bytes.len() - at {
        return Err(ThriftFault::Short { at: bytes.len() });
    }
    Ok(at + count)
}

/// One byte.
#[tactic(auto, unfolding(crate::specs::Values::byte_at))]
pub(crate) fn read_byte(bytes: &[u8], at: usize) -> Result<(u8, usize), ThriftFault>
    requires { at ≤ length bytes.now }
    ensures value { result ≡ byte_at bytes.now at }
    ensures within { IfOk result (λ read. (at < read.1) × (read.1 ≤ length bytes.now)) }
{
    let end = pass(bytes, at, 1)?;
    Ok((bytes[at], end))
}

/// A length and so many bytes.
#[tactic(auto, unfolding(crate::specs::Values::binary_at))]
pub(crate) fn read_binary(bytes: &[u8], at: usize) -> Result<(&[u8], usize), ThriftFault>
    requires { at ≤ length bytes.now }
    ensures value { Gives (λ read. (read.0.now, read.1)) result (binary_at bytes.now at) }
    ensures within { IfOk result (λ read. (at < read.1) × (read.1 ≤ length bytes.now)) }
{
    let (size, from) = read_size(bytes, at)?;
    let end = pass(bytes, from, size as usize)?;
    Ok((&bytes[from..end], end))
}

/// The wire type of a number, which the byte at a place holds.
pub(crate) fn wire_at(code: u8, at: usize) -> Result<Wire, ThriftFault>
    ensures { result ≡ known (wire_of code) at }
{
    match code {
        1 => Ok(Wire::True),
        2 => Ok(Wire::False),
        3 => Ok(Wire::Byte),
        4 => Ok(Wire::I16),
        5 => Ok(Wire::I32),
        6 => Ok(Wire::I64),
        7 => Ok(Wire::Double),
        8 => Ok(Wire::Binary),
        9 => Ok(Wire::List),
        10 => Ok(Wire::Set),
        11 => Ok(Wire::Map),
        12 => Ok(Wire::Struct),
        _ => Err(ThriftFault::Wire { at }),
    }
}

/// A field whose id is to have at most 16 bits.
fn field_of(at: usize, id: i64, wire: Wire, end: usize) -> Result<(Field, usize), ThriftFault>
    ensures value { result ≡ field_here at id wire end }
    ensures within { IfOk result (λ read. read.1 ≡ end) }
{
    if id < -32768 || id > 32767 {
        return Err(ThriftFault::Long { at });
    }
    Ok((
        Field::Next {
            id: id as i16,
            wire,
        },
        end,
    ))
}

/// The header of a field, behind a field of the id `last`.
#[tactic(auto, unfolding(crate::specs::Values::field_at))]
pub(crate) fn read_field(bytes: &[u8], last: i16, at: usize) -> Result<(Field, usize), ThriftFault>
    requires { at ≤ length bytes.now }
    ensures value { result ≡ field_at bytes.now last at }
    ensures within { IfOk result (λ read. (at < read.1) × (read.1 ≤ length bytes.now)) }
{
    let (head, end) = read_byte(bytes, at)?;
    if head == 0 {
        return Ok((Field::Stop, end));
    }
    let wire = wire_at(head % 16, at)?;
    if head < 16 {
        let (id, end) = read_number(bytes, end)?;
        return field_of(at, id, wire, end);
    }
    field_of(at, i64::from(last) + i64::from(head / 16), wire, end)
}

/// The header of a list or set.
#[tactic(auto, unfolding(crate::specs::Values::list_at))]
pub(crate) fn read_list(bytes: &[u8], at: usize) -> Result<(ListHead, usize), ThriftFault>
    requires { at ≤ length bytes.now }
    ensures value { result ≡ list_at bytes.now at }
    ensures within { IfOk result (λ read. (at < read.1) × (read.1 ≤ length bytes.now)) }
{
    let (head, end) = read_byte(bytes, at)?;
    let wire = wire_at(head % 16, at)?;
    if head / 16 == 15 {
        let (count, end) = read_size(bytes, end)?;
        return Ok((ListHead { wire, count }, end));
    }
    Ok((
        ListHead {
            wire,
            count: u32::from(head / 16),
        },
        end,
    ))
}
