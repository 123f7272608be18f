//! Skipping values.

ghost use Rattle.std.specs.Prelude.{◌≡◌, ℕ, ◌+◌, ◌<◌, ◌≤◌, length, false, true, pos, suc, IfOk};
ghost use Rattle.thrift_compact.specs.Skipped.{value_end, is_container, plain_end, container_end, list_end, map_end, pairs_end, each_end, fields_end};

use crate::fault::ThriftFault;
use crate::parts::{
    pass, read_binary, read_byte, read_field, read_list, read_size, read_varint, wire_at,
};
use crate::wire::{Field, Wire};

/// The place behind a value in which so many containers may be open at once.
#[cycle(skip)]
pub(crate) fn find_end(
    bytes: &[u8],
    at: usize,
    wire: Wire,
    element: bool,
    levels: usize,
) -> Result<usize, ThriftFault>
    requires { at ≤ length bytes.now }
    ensures value { result ≡ value_end levels bytes.now element wire at }
    ensures within { IfOk result (λ end. (at ≤ end) × (end ≤ length bytes.now)) }
{
    if !holds_values(wire) {
        return find_plain_end(bytes, at, wire, element);
    }
    if levels == 0 {
        return Err(ThriftFault::Deep { at });
    }
    match wire {
        Wire::Struct => find_struct_end(bytes, at, levels - 1),
        Wire::Map => find_map_end(bytes, at, levels - 1),
        _ => find_list_end(bytes, at, levels - 1),
    }
}

/// Whether a value of the type holds others.
fn holds_values(wire: Wire) -> bool
    ensures { result ≡ is_container wire }
{
    match wire {
        Wire::List => true,
        Wire::Set => true,
        Wire::Map => true,
        Wire::Struct => true,
        _ => false,
    }
}

/// The place behind a value that holds no others.
fn find_plain_end(bytes: &[u8], at: usize, wire: Wire, element: bool) -> Result<usize, ThriftFault>
    requires at { at ≤ length bytes.now }
    requires plain { is_container wire ≡ false }
    ensures value { result ≡ plain_end bytes.now element wire at }
    ensures within { IfOk result (λ end. (at ≤ end) × (end ≤ length bytes.now)) }
{
    match wire {
        Wire::True | Wire::False => { if element { pass(bytes, at, 1) } else { Ok(at) } }
        Wire::Byte => pass(bytes, at, 1),
        Wire::I16 | Wire::I32 | Wire::I64 => {
            let (_, end) = read_varint(bytes, at)?;
            Ok(end)
        }
        Wire::Double => pass(bytes, at, 8),
        Wire::Binary => {
            let (_, end) = read_binary(bytes, at)?;
            Ok(end)
        }
        _ => unreachable!(),
    }
}

/// The place behind a list or set.
#[cycle(skip)]
fn find_list_end(bytes: &[u8], at: usize, levels: usize) -> Result<usize, ThriftFault>
    requires { at ≤ length bytes.now }
    ensures value { result ≡ list_end (value_end levels bytes.now true) bytes.now at }
    ensures within { IfOk result (λ end. (at ≤ end) × (end ≤ length bytes.now)) }
{
    let (head, from) = read_list(bytes, at)?;
    let mut place = from;
    for _ in 0..head.count {
        place = find_end(bytes, place, head.wire, true, levels)?;
    }
    Ok(place)
}

/// The place behind a map.
#[cycle(skip)]
fn find_map_end(bytes: &[u8], at: usize, levels: usize) -> Result<usize, ThriftFault>
    requires { at ≤ length bytes.now }
    ensures value { result ≡ map_end (value_end levels bytes.now true) bytes.now at }
    ensures within { IfOk result (λ end. (at ≤ end) × (end ≤ length bytes.now)) }
{
    let (size, from) = read_size(bytes, at)?;
    if size == 0 {
        return Ok(from);
    }
    find_pairs_end(bytes, from, size, levels)
}

/// The place behind the pairs of a map, which are not none.
#[cycle(skip)]
fn find_pairs_end(bytes: &[u8], at: usize, size: u32, levels: usize) -> Result<usize, ThriftFault>
    requires { at ≤ length bytes.now }
    ensures value { result ≡ pairs_end (value_end levels bytes.now true) bytes.now size at }
    ensures within { IfOk result (λ end. (at ≤ end) × (end ≤ length bytes.now)) }
{
    let (types, from) = read_byte(bytes, at)?;
    let key = wire_at(types / 16, at)?;
    let value = wire_at(types % 16, at)?;
    let mut place = from;
    for _ in 0..size {
        let middle = find_end(bytes, place, key, true, levels)?;
        place = find_end(bytes, middle, value, true, levels)?;
    }
    Ok(place)
}

/// The place behind the fields of a struct and its stop.
#[cycle(skip)]
fn find_struct_end(bytes: &[u8], at: usize, levels: usize) -> Result<usize, ThriftFault>
    requires { at ≤ length bytes.now }
    ensures value { result ≡ fields_end (value_end levels bytes.now false) bytes.now (suc (length bytes.now)) (pos 0) at }
    ensures within { IfOk result (λ end. (at ≤ end) × (end ≤ length bytes.now)) }
{
    let mut last = 0;
    let mut place = at;
    loop {
        let (field, from) = read_field(bytes, last, place)?;
        match field {
            Field::Stop => return Ok(from),
            Field::Next { id, wire } => {
                place = find_end(bytes, from, wire, false, levels)?;
                last = id;
            }
        }
    }
}
