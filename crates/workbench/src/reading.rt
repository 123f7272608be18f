//! What files read as.

ghost use Rattle.std.specs.Prelude.{◌≡◌, ◌≤◌, ◌*◌, ◌+◌, ◌^◌, List, ℕ, length, pos, IfOk, MatchResult};
ghost use Rattle.std.specs.String.{string_bytes};
ghost use Rattle.workbench.specs.Parquet.{wanting_text};
ghost use Rattle.workbench.specs.Reading as spec;

use crate::parquet::file_text;
use crate::words::Format;
use bit_pack::{PackFault, read_hybrid};
use std::alloc::{AllocError, Global};
use thrift_compact::{Cursor, Field, ThriftFault};

/// What the bytes read as, or their fault.
pub fn text_of(alloc: Global, format: Format, bytes: &[u8]) -> Result<String, AllocError>
    ensures { IfOk result (λ text. spec.IsText format bytes.now (string_bytes text)) }
{
    match format {
        Format::Hybrid => hybrid_text(alloc, bytes),
        Format::Thrift => thrift_text(alloc, bytes),
        Format::Parquet => file_text(alloc, bytes),
    }
}

/// What a hybrid reads as: the number of values and their checksum, or the fault.
fn hybrid_text(alloc: Global, bytes: &[u8]) -> Result<String, AllocError>
    ensures { IfOk result (λ text. spec.IsHybridText bytes.now (string_bytes text)) }
{
    let [width, a, b, c, d, rest @ ..] = bytes else {
        return format!(in alloc; "no width and count");
    };
    let count = u32::from_le_bytes([*a, *b, *c, *d]);
    read_text(alloc, *width, count as usize, rest)
}

/// What the hybrid of so many values reads as.
fn read_text(alloc: Global, width: u8, count: usize, bytes: &[u8]) -> Result<String, AllocError>
    ensures { IfOk result (λ text. spec.IsValuesText width count bytes.now (string_bytes text)) }
{
    match read_hybrid(alloc, width, bytes, count) {
        Ok(values) => values_text(alloc, count, checksum(values.as_slice())),
        Err(fault) => fault_text(alloc, fault),
    }
}

/// The text of a fault.
fn fault_text(alloc: Global, fault: PackFault) -> Result<String, AllocError>
    ensures { IfOk result (λ text. fault ≡ PackFault.NoMemory → string_bytes text ≡ wanting_text) }
{
    match fault {
        PackFault::NoMemory => format!(in alloc; "out of memory"),
        other => format!(in alloc; "{other}"),
    }
}

/// The text for a hybrid.
fn values_text(alloc: Global, count: usize, sum: u64) -> Result<String, AllocError>
    ensures { IfOk result (λ text. string_bytes text ≡ spec.values_text count sum) }
{
    format!(in alloc; "{count} values, checksum {sum}")
}

/// The checksum of values, in 64 bits.
pub fn checksum(values: &[u32]) -> u64
    ensures { result ≡ spec.checksum_from 0 values.now }
{
    let mut sum: u64 = 0;
    for value in values {
        sum = sum.wrapping_mul(31).wrapping_add(u64::from(*value));
    }
    sum
}

/// What a struct reads as: how many fields it has and where it ends, or the fault.
fn thrift_text(alloc: Global, bytes: &[u8]) -> Result<String, AllocError>
    ensures { IfOk result (λ text. spec.IsFieldsText bytes.now (string_bytes text)) }
{
    match count_fields(bytes) {
        Ok((count, end)) => fields_text(alloc, count, end),
        Err(fault) => format!(in alloc; "{fault}"),
    }
}

/// The text for a struct.
fn fields_text(alloc: Global, count: usize, end: usize) -> Result<String, AllocError>
    ensures { IfOk result (λ text. string_bytes text ≡ spec.fields_text count end) }
{
    format!(in alloc; "{count} fields, {end} bytes")
}

/// How many fields stand before the stop of a struct, and where it ends; there are at most as many as bytes.
fn count_fields(bytes: &[u8]) -> Result<(usize, usize), ThriftFault>
    ensures { result ≡ spec.field_count (length bytes.now) bytes.now (pos 0) 0 }
{
    let mut cursor = Cursor::new(bytes);
    let mut last = 0;
    for count in 0..bytes.len() {
        match cursor.field(last)? {
            Field::Stop => return Ok((count, cursor.at())),
            Field::Next { id, wire } => {
                cursor.skip(wire)?;
                last = id;
            }
        }
    }
    Err(ThriftFault::Short { at: cursor.at() })
}
