//! The hybrid of runs and bit-packed stretches.

ghost use Rattle.std.specs.Prelude.{◌≡◌, ◌==◌, ◌≢◌, ◌⊎◌, ℕ, List, ◌∷◌, [], ◌+◌, ◌-◌, ◌*◌, ◌/◌, ◌%◌, ◌^◌, ◌<◌, ◌≤◌, ◌++◌, length, min, replicate, slice_index, EachIndex, IfOk, IfErr, OnOk, vec_len, take, drop};
ghost use Rattle.std.specs.List.{list_all};
ghost use Rattle.bit_pack.specs.Bits.{IsTooWide, most_values};
ghost use Rattle.bit_pack.specs.Numbers.{number_in, fields, bytes_of, packed_number};
ghost use Rattle.bit_pack.specs.Hybrid.{varint_number, IsHeader, IsLongHeader, IsCutHeader, byte_width, HasLargeHeader, EndsEarly, HasWideValue, Reads, StopsAt, Pieces, varint_of, hybrid_of, run_of, stretch_of};
ghost use Rattle.bit_pack.specs.Steps.{AddsRun, AddsStretch, AddsPiece};

use crate::fault::PackFault;
use crate::packing::{append_packed, check_values};
use crate::unpacking::{MOST_VALUES, append_values, check_count, short_word};
use std::alloc::{AllocError, Global};

/// The header at the front: how many bytes it has, and its number.
fn read_header(bytes: &[u8]) -> Result<(usize, u64), PackFault>
    ensures ok { IfOk result (λ header. IsHeader bytes.now header.0 header.1) }
    ensures count { IfErr result (λ e. e ≡ PackFault.Count → IsLongHeader bytes.now) }
    ensures short { IfErr result (λ e. e ≡ PackFault.Short → IsCutHeader bytes.now) }
    ensures width { IfErr result (λ e. (asked : ℕ) → e ≢ PackFault.Width asked) }
{
    let mut number = 0;
    for i in 0..5 {
        if i == bytes.len() {
            return Err(PackFault::Short);
        }
        let byte = bytes[i];
        number |= u64::from(byte % 128) << (7 * i);
        if byte < 128 {
            return Ok((i + 1, number));
        }
    }
    Err(PackFault::Count)
}

/// Reads what is behind a run's header; appends its values up to the count, and gives the bytes behind it.
fn read_run<'a>(
    width: u8,
    body: &'a [u8],
    copies: u64,
    count: usize,
    values: &mut Vec<u32>,
) -> Result<&'a [u8], PackFault>
    requires width { width ≤ 32 }
    requires few { count ≤ most_values }
    requires missing { vec_len values.old ≤ count }
    ensures ok { IfOk result (λ rest. AddsRun width body.now copies count values.old.items values.new.items rest.now) }
    ensures count { IfErr result (λ e. e ≡ PackFault.Count → most_values < copies) }
    ensures short { IfErr result (λ e. e ≡ PackFault.Short → (copies ≤ most_values) × (length body.now < byte_width width)) }
    ensures width { IfErr result (λ e. (asked : ℕ) → e ≡ PackFault.Width asked → (asked ≡ width) × (copies ≤ most_values) × (byte_width width ≤ length body.now) × (2 ^ width ≤ number_in (take (byte_width width) body.now))) }
{
    if copies > MOST_VALUES as u64 {
        return Err(PackFault::Count);
    }
    let size = usize::from(width).div_ceil(8);
    if body.len() < size {
        return Err(PackFault::Short);
    }
    let value = short_word(&body[..size]);
    if value >= 1 << width {
        return Err(PackFault::Width { width });
    }
    let more = (copies as usize).min(count - values.len());
    values.resize(values.len() + more, value as u32)?;
    Ok(&body[size..])
}

/// Reads what is behind a stretch's header; appends its values up to the count, and gives the bytes behind it.
fn read_stretch<'a>(
    width: u8,
    body: &'a [u8],
    groups: u64,
    count: usize,
    values: &mut Vec<u32>,
) -> Result<&'a [u8], PackFault>
    requires width { width ≤ 32 }
    requires few { count ≤ most_values }
    requires missing { vec_len values.old ≤ count }
    ensures ok { IfOk result (λ rest. AddsStretch width body.now groups count values.old.items values.new.items rest.now) }
    ensures count { IfErr result (λ e. e ≡ PackFault.Count → most_values < 8 * groups) }
    ensures short { IfErr result (λ e. e ≡ PackFault.Short → (8 * groups ≤ most_values) × (length body.now < groups * width)) }
    ensures width { IfErr result (λ e. (asked : ℕ) → e ≢ PackFault.Width asked) }
{
    if groups > MOST_VALUES as u64 / 8 {
        return Err(PackFault::Count);
    }
    let groups = groups as usize;
    let size = groups * usize::from(width);
    if body.len() < size {
        return Err(PackFault::Short);
    }
    let more = (8 * groups).min(count - values.len());
    append_values(width, body, more, values)?;
    Ok(&body[size..])
}

/// Reads the piece at the front; appends its values up to the count, and gives the bytes behind it.
fn read_piece<'a>(
    width: u8,
    bytes: &'a [u8],
    count: usize,
    values: &mut Vec<u32>,
) -> Result<&'a [u8], PackFault>
    requires width { width ≤ 32 }
    requires few { count ≤ most_values }
    requires missing { vec_len values.old ≤ count }
    ensures ok { IfOk result (λ rest. AddsPiece width bytes.now count values.old.items values.new.items rest.now) }
    ensures count { IfErr result (λ e. e ≡ PackFault.Count → HasLargeHeader bytes.now) }
    ensures short { IfErr result (λ e. e ≡ PackFault.Short → EndsEarly width bytes.now) }
    ensures width { IfErr result (λ e. (asked : ℕ) → e ≡ PackFault.Width asked → (asked ≡ width) × HasWideValue width bytes.now) }
{
    let (length, number) = read_header(bytes)?;
    let body = &bytes[length..];
    if number % 2 == 0 {
        read_run(width, body, number / 2, count, values)
    } else {
        read_stretch(width, body, number / 2, count, values)
    }
}

/// So many values of `width` bits, from the hybrid; values past the count are ignored.
pub fn read_hybrid(
    alloc: Global,
    width: u8,
    bytes: &[u8],
    count: usize,
) -> Result<Vec<u32>, PackFault>
    ensures ok { IfOk result (λ values. Reads width bytes.now count values.items) }
    ensures width { IfErr result (λ e. (asked : ℕ) → e ≡ PackFault.Width asked → (asked ≡ width) × ((32 < width) ⊎ StopsAt width bytes.now count (HasWideValue width))) }
    ensures count { IfErr result (λ e. e ≡ PackFault.Count → ((width ≤ 32) × (most_values < count)) ⊎ StopsAt width bytes.now count HasLargeHeader) }
    ensures short { IfErr result (λ e. e ≡ PackFault.Short → StopsAt width bytes.now count (EndsEarly width)) }
{
    check_count(width, count)?;
    let mut values = Vec::new(alloc);
    let mut rest = bytes;
    while values.len() < count {
        rest = read_piece(width, rest, count, &mut values)?;
    }
    Ok(values)
}

/// Appends the shortest varint of a number.
fn push_varint(number: u64, out: &mut Vec<u8>) -> Result<(), AllocError>
    requires { number < 2 ^ 35 }
    ensures { OnOk result (out.new.items ≡ out.old.items ++ varint_of 5 number) }
{
    let mut rest = number;
    while rest >= 128 {
        out.push((rest % 128 + 128) as u8)?;
        rest /= 128;
    }
    out.push(rest as u8)?;
    Ok(())
}

/// Appends a run.
fn write_run(width: u8, copies: usize, value: u32, out: &mut Vec<u8>) -> Result<(), AllocError>
    requires width { width ≤ 32 }
    requires few { copies ≤ most_values }
    ensures { OnOk result (out.new.items ≡ out.old.items ++ run_of width copies value) }
{
    push_varint(2 * copies as u64, out)?;
    let size = usize::from(width).div_ceil(8);
    out.extend_from_slice(&value.to_le_bytes()[..size])?;
    Ok(())
}

/// Appends a stretch of the values, filled up with zeros.
fn write_stretch(width: u8, values: &[u32], out: &mut Vec<u8>) -> Result<(), AllocError>
    requires width { width ≤ 32 }
    requires few { length values.now ≤ most_values }
    requires fit { EachIndex values.now (λ k. slice_index values.now k < 2 ^ width) }
    ensures { OnOk result (out.new.items ≡ out.old.items ++ stretch_of width ((length values.now + 7) / 8) values.now) }
{
    let groups = values.len().div_ceil(8);
    push_varint(2 * groups as u64 + 1, out)?;
    let bits = usize::from(width);
    let filled = (values.len() * bits).div_ceil(8);
    let rest = groups * bits - filled;
    append_packed(width, values, out)?;
    append_zeros(rest, out)?;
    Ok(())
}

/// Appends so many zeros.
fn append_zeros(count: usize, out: &mut Vec<u8>) -> Result<(), AllocError>
    requires { count < 2 ^ 32 }
    ensures { OnOk result (out.new.items ≡ out.old.items ++ replicate count 0) }
{
    for _ in 0..count {
        out.push(0)?;
    }
    Ok(())
}

/// The values as the hybrid: nothing for no values, one run where all are equal, and else one stretch.
pub fn write_hybrid(alloc: Global, width: u8, values: &[u32]) -> Result<Vec<u8>, PackFault>
    ensures limits { OnOk result ((width ≤ 32) × (length values.now ≤ most_values)) }
    ensures fit { OnOk result (EachIndex values.now (λ k. slice_index values.now k < 2 ^ width)) }
    ensures ok { IfOk result (λ bytes. bytes.items ≡ hybrid_of width values.now) }
    ensures reads { IfOk result (λ bytes. Reads width bytes.items (length values.now) values.now) }
    ensures width { IfErr result (λ e. (asked : ℕ) → e ≡ PackFault.Width asked → (asked ≡ width) × IsTooWide width values.now) }
    ensures count { IfErr result (λ e. e ≡ PackFault.Count → (width ≤ 32) × (most_values < length values.now)) }
    ensures short { IfErr result (λ e. e ≢ PackFault.Short) }
{
    check_values(width, values)?;
    let mut bytes = Vec::new(alloc);
    append_hybrid(width, values, &mut bytes)?;
    Ok(bytes)
}

/// Appends values as the hybrid.
fn append_hybrid(width: u8, values: &[u32], out: &mut Vec<u8>) -> Result<(), AllocError>
    requires width { width ≤ 32 }
    requires few { length values.now ≤ most_values }
    requires fit { EachIndex values.now (λ k. slice_index values.now k < 2 ^ width) }
    ensures { OnOk result (out.new.items ≡ out.old.items ++ hybrid_of width values.now) }
{
    if values.is_empty() {
        return Ok(());
    }
    let first = values[0];
    if all_equal(values, first) {
        write_run(width, values.len(), first, out)
    } else {
        write_stretch(width, values, out)
    }
}

/// Whether all values are this one.
fn all_equal(values: &[u32], first: u32) -> bool
    ensures { result ≡ list_all (λ other. other == first) values.now }
{
    values.iter().all(|value| *value == first)
}
