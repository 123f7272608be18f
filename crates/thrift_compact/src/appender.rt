//! An appender of Thrift values.

ghost use Rattle.std.specs.Prelude.{◌≡◌, List, ℕ, [], ◌∷◌, ◌++◌, ◌+◌, ◌^◌, ◌<◌, ◌≤◌, length, take, IfOk, OnOk, OnErr};
ghost use Rattle.thrift_compact.specs.Varints.{zigzag};
ghost use Rattle.thrift_compact.specs.Writing.{code_of, varint_of, varint_bytes, number_bytes, binary_bytes, list_bytes, delta_bytes, field_bytes};

use crate::wire::Wire;
use row_base::NoMemory;
use std::alloc::{AllocError, Global};
use std::marker::Model;

/// Bytes to which Thrift values are appended. A refusal changes nothing.
#[derive(Drop)]
pub struct Appender {
    bytes: Vec<u8>,
}

impl Model for Appender {
    ghost use Rattle.std.specs.Prelude.{List, ℕ};

    ghost Value = { List ℕ };

    ghost view = { λ a. a.bytes.items };
}

impl Appender {
    /// No bytes yet.
    pub fn new(alloc: Global) -> Appender
        ensures { result ≡ [] }
    {
        Appender {
            bytes: Vec::new(alloc),
        }
    }

    /// Appends the header of a field behind a field of the id `last`, or 0 at the first field.
    pub fn field(&mut self, last: i16, id: i16, wire: Wire) -> Result<(), NoMemory>
        ensures ok { OnOk result (self.new ≡ self.old ++ field_bytes last id wire) }
        ensures err { OnErr result (self.new ≡ self.old) }
    {
        let length = self.bytes.len();
        match push_field(last, id, wire, &mut self.bytes) {
            Ok(()) => Ok(()),
            Err(_) => {
                self.bytes.truncate(length);
                Err(NoMemory)
            }
        }
    }

    /// Appends a number of 16, 32 or 64 bits.
    pub fn number(&mut self, value: i64) -> Result<(), NoMemory>
        ensures ok { OnOk result (self.new ≡ self.old ++ number_bytes value) }
        ensures err { OnErr result (self.new ≡ self.old) }
    {
        let length = self.bytes.len();
        match push_varint(unsigned(value), &mut self.bytes) {
            Ok(()) => Ok(()),
            Err(_) => {
                self.bytes.truncate(length);
                Err(NoMemory)
            }
        }
    }

    /// Appends bytes or a text behind their length.
    pub fn binary(&mut self, bytes: &[u8]) -> Result<(), NoMemory>
        ensures ok { OnOk result (self.new ≡ self.old ++ binary_bytes bytes.now) }
        ensures err { OnErr result (self.new ≡ self.old) }
    {
        let length = self.bytes.len();
        match push_binary(bytes, &mut self.bytes) {
            Ok(()) => Ok(()),
            Err(_) => {
                self.bytes.truncate(length);
                Err(NoMemory)
            }
        }
    }

    /// Appends the header of a list or set.
    pub fn list(&mut self, wire: Wire, count: u32) -> Result<(), NoMemory>
        ensures ok { OnOk result (self.new ≡ self.old ++ list_bytes wire count) }
        ensures err { OnErr result (self.new ≡ self.old) }
    {
        let length = self.bytes.len();
        match push_list(wire, count, &mut self.bytes) {
            Ok(()) => Ok(()),
            Err(_) => {
                self.bytes.truncate(length);
                Err(NoMemory)
            }
        }
    }

    /// Appends the end of a struct.
    pub fn stop(&mut self) -> Result<(), NoMemory>
        ensures ok { OnOk result (self.new ≡ self.old ++ 0 ∷ []) }
        ensures err { OnErr result (self.new ≡ self.old) }
    {
        match self.bytes.push(0) {
            Ok(()) => Ok(()),
            Err(_) => Err(NoMemory),
        }
    }

    /// The bytes.
    pub fn into_bytes(self) -> Vec<u8>
        ensures { result.items ≡ self }
    {
        self.bytes
    }
}

/// Appends one byte.
fn push_byte(byte: u8, out: &mut Vec<u8>) -> Result<(), AllocError>
    ensures ok { OnOk result (out.new.items ≡ out.old.items ++ byte ∷ []) }
    ensures kept { take (length out.old.items) out.new.items ≡ out.old.items }
{
    out.push(byte)?;
    Ok(())
}

/// Appends the shortest varint of a number.
fn push_varint(number: u64, out: &mut Vec<u8>) -> Result<(), AllocError>
    ensures ok { OnOk result (out.new.items ≡ out.old.items ++ varint_bytes number) }
    ensures kept { take (length out.old.items) out.new.items ≡ out.old.items }
{
    let mut rest = number;
    while rest >= 128 {
        push_byte((rest % 128 + 128) as u8, out)?;
        rest /= 128;
    }
    push_byte(rest as u8, out)?;
    Ok(())
}

/// The zigzag number that stands for a number.
fn unsigned(value: i64) -> u64
    ensures { result ≡ zigzag value }
{
    if value >= 0 {
        2 * (value as u64)
    } else {
        2 * ((-(value + 1)) as u64) + 1
    }
}

/// Appends bytes behind their length.
fn push_binary(bytes: &[u8], out: &mut Vec<u8>) -> Result<(), AllocError>
    ensures ok { OnOk result (out.new.items ≡ out.old.items ++ binary_bytes bytes.now) }
    ensures kept { take (length out.old.items) out.new.items ≡ out.old.items }
{
    push_varint(bytes.len() as u64, out)?;
    out.extend_from_slice(bytes)?;
    Ok(())
}

/// The number of a wire type.
fn code(wire: Wire) -> u8
    ensures code { result ≡ code_of wire }
    ensures small { result < 16 }
{
    match wire {
        Wire::True => 1,
        Wire::False => 2,
        Wire::Byte => 3,
        Wire::I16 => 4,
        Wire::I32 => 5,
        Wire::I64 => 6,
        Wire::Double => 7,
        Wire::Binary => 8,
        Wire::List => 9,
        Wire::Set => 10,
        Wire::Map => 11,
        Wire::Struct => 12,
    }
}

/// Appends the header of a list or set.
fn push_list(wire: Wire, count: u32, out: &mut Vec<u8>) -> Result<(), AllocError>
    ensures ok { OnOk result (out.new.items ≡ out.old.items ++ list_bytes wire count) }
    ensures kept { take (length out.old.items) out.new.items ≡ out.old.items }
{
    if count < 15 {
        push_byte(16 * (count as u8) + code(wire), out)?;
        return Ok(());
    }
    push_byte(240 + code(wire), out)?;
    push_varint(u64::from(count), out)?;
    Ok(())
}

/// Appends the header of a field.
fn push_field(last: i16, id: i16, wire: Wire, out: &mut Vec<u8>) -> Result<(), AllocError>
    ensures ok { OnOk result (out.new.items ≡ out.old.items ++ field_bytes last id wire) }
    ensures kept { take (length out.old.items) out.new.items ≡ out.old.items }
{
    push_delta(i32::from(id) - i32::from(last), id, wire, out)
}

/// Appends the header of a field whose id is so much above the last one.
fn push_delta(delta: i32, id: i16, wire: Wire, out: &mut Vec<u8>) -> Result<(), AllocError>
    ensures ok { OnOk result (out.new.items ≡ out.old.items ++ delta_bytes delta id wire) }
    ensures kept { take (length out.old.items) out.new.items ≡ out.old.items }
{
    if 0 < delta && delta < 16 {
        push_byte(16 * (delta as u8) + code(wire), out)?;
        return Ok(());
    }
    push_byte(code(wire), out)?;
    push_varint(unsigned(i64::from(id)), out)?;
    Ok(())
}
