//! Reading bit-packed values.

ghost use Rattle.std.specs.Prelude.{◌≡◌, ◌≢◌, ℕ, ◌+◌, ◌-◌, ◌*◌, ◌/◌, ◌%◌, ◌^◌, ◌<◌, ◌≤◌, ◌↔◌, ◌++◌, length, IfSome, IsNone, IfOk, IfErr, OnOk, vec_len, vec_capacity};
ghost use Rattle.bit_pack.specs.Bits.{value_at, Packed, Unpacks, most_values};
ghost use Rattle.bit_pack.specs.Numbers.{number_in, fields};

use crate::fault::PackFault;
use crate::room::{push_all, take_out};
use crate::width::at_width;
use std::alloc::{AllocError, Global};

/// No call reads or writes more values than this.
pub const MOST_VALUES: usize = 1 << 26;

/// The value at a place, read bit by bit: the plain reader that the fast ones are held against.
pub fn plain_value(width: usize, bytes: &[u8], place: usize) -> u32
    requires width { width ≤ 32 }
    requires within { (place + 1) * width ≤ 8 * length bytes.now }
    requires small { (place + 1) * width < 2 ^ 64 }
    ensures { result ≡ value_at width bytes.now place }
{
    let mut value = 0;
    for bit in 0..width {
        let at = place * width + bit;
        let found = (bytes[at / 8] >> (at % 8)) & 1;
        value |= u32::from(found) << bit;
    }
    value
}

/// The 64 bits that begin at a byte.
#[inline(always)]
fn word_at(bytes: &[u8], at: usize) -> u64
    requires { at + 8 ≤ length bytes.now }
    ensures { result ≡ number_in bytes.now / 2 ^ (8 * at) % 2 ^ 64 }
{
    u64::from_le_bytes([
        bytes[at],
        bytes[at + 1],
        bytes[at + 2],
        bytes[at + 3],
        bytes[at + 4],
        bytes[at + 5],
        bytes[at + 6],
        bytes[at + 7],
    ])
}

/// All bits of at most seven bytes.
#[inline(always)]
pub(crate) fn short_word(bytes: &[u8]) -> u64
    requires { length bytes.now < 8 }
    ensures { result ≡ number_in bytes.now }
{
    let mut word = 0;
    for i in 0..bytes.len() {
        word |= u64::from(bytes[i]) << (8 * i);
    }
    word
}

/// `W` bits of a word, from the bit `from` on.
#[inline(always)]
fn field<const W: usize>(word: u64, from: usize) -> u32
    requires width { W ≤ 32 }
    requires within { from + W ≤ 64 }
    requires from { from < 64 }
    ensures { result ≡ word / 2 ^ from % 2 ^ W }
{
    ((word >> from) & ((1 << W) - 1)) as u32
}

/// The value at a place of a group of eight values that are at least eight bits wide.
#[inline(always)]
fn wide_value<const W: usize>(bytes: &[u8], place: usize) -> u32
    requires low { 8 ≤ W }
    requires high { W ≤ 32 }
    requires length { length bytes.now ≡ W }
    requires place { place < 8 }
    ensures { result ≡ number_in bytes.now / 2 ^ (place * W) % 2 ^ W }
{
    let first_bit = place * W;
    let at = (first_bit / 8).min(W - 8);
    field::<W>(word_at(bytes, at), first_bit - 8 * at)
}

/// The eight values of a group, with the width known to the compiler.
#[inline(always)]
#[tactic(auto, unfolding(crate::specs::Numbers::fields))]
fn unpack_group<const W: usize>(bytes: &[u8]) -> [u32; 8]
    requires width { W ≤ 32 }
    requires length { length bytes.now ≡ W }
    ensures { result ≡ fields W (number_in bytes.now) 0 8 }
{
    if W < 8 {
        let word = short_word(bytes);
        [
            field::<W>(word, 0),
            field::<W>(word, W),
            field::<W>(word, 2 * W),
            field::<W>(word, 3 * W),
            field::<W>(word, 4 * W),
            field::<W>(word, 5 * W),
            field::<W>(word, 6 * W),
            field::<W>(word, 7 * W),
        ]
    } else {
        [
            wide_value::<W>(bytes, 0),
            wide_value::<W>(bytes, 1),
            wide_value::<W>(bytes, 2),
            wide_value::<W>(bytes, 3),
            wide_value::<W>(bytes, 4),
            wide_value::<W>(bytes, 5),
            wide_value::<W>(bytes, 6),
            wide_value::<W>(bytes, 7),
        ]
    }
}

/// Eight values of `W` bits, from exactly `W` bytes; `None` for another number of bytes.
pub fn unpack8<const W: usize>(bytes: &[u8]) -> Option<[u32; 8]>
    requires { W ≤ 32 }
    ensures none { IsNone result ↔ (length bytes.now ≢ W) }
    ensures some { IfSome result (λ values. Packed W bytes.now values) }
{
    if bytes.len() == W {
        Some(unpack_group::<W>(bytes))
    } else {
        None
    }
}

/// The list with the values of whole groups of eight behind it, where there is room for them.
#[inline(always)]
fn append_groups<const W: usize>(bytes: &[u8], groups: usize, mut out: Vec<u32>) -> Vec<u32>
    requires width { W ≤ 32 }
    requires within { groups * W ≤ length bytes.now }
    requires few { groups ≤ most_values }
    requires room { vec_len out + 8 * groups ≤ vec_capacity out }
    ensures items { result.items ≡ out.items ++ fields W (number_in bytes.now) 0 (8 * groups) }
    ensures len { vec_len result ≡ vec_len out + 8 * groups }
    ensures capacity { vec_capacity result ≡ vec_capacity out }
{
    for group in 0..groups {
        let at = group * W;
        push_all(&unpack_group::<W>(&bytes[at..at + W]), &mut out);
    }
    out
}

/// Appends the values from the place `first` on, up to the place `count`, one by one, where there is room for them.
fn append_rest(width: usize, bytes: &[u8], first: usize, count: usize, out: &mut Vec<u32>)
    requires width { width ≤ 32 }
    requires first { first ≤ count }
    requires within { count * width ≤ 8 * length bytes.now }
    requires few { count ≤ most_values }
    requires room { vec_len out.old + (count - first) ≤ vec_capacity out.old }
    ensures { out.new.items ≡ out.old.items ++ fields width (number_in bytes.now) first (count - first) }
{
    for place in first..count {
        out.push_reserved(plain_value(width, bytes, place));
    }
}

/// Appends the first values of the bytes, so many.
fn append_at<const W: usize>(
    bytes: &[u8],
    count: usize,
    out: &mut Vec<u32>,
) -> Result<(), AllocError>
    requires width { W ≤ 32 }
    requires within { count * W ≤ 8 * length bytes.now }
    requires few { count ≤ most_values }
    ensures { OnOk result (out.new.items ≡ out.old.items ++ fields W (number_in bytes.now) 0 count) }
{
    let groups = count / 8;
    out.reserve(count)?;
    *out = append_groups::<W>(bytes, groups, take_out(out));
    append_rest(W, bytes, 8 * groups, count, out);
    Ok(())
}

/// Appends the first values of the bytes, so many.
pub(crate) fn append_values(
    width: u8,
    bytes: &[u8],
    count: usize,
    out: &mut Vec<u32>,
) -> Result<(), AllocError>
    requires width { width ≤ 32 }
    requires within { count * width ≤ 8 * length bytes.now }
    requires few { count ≤ most_values }
    ensures { OnOk result (out.new.items ≡ out.old.items ++ fields width (number_in bytes.now) 0 count) }
{
    at_width!(width, append_at(bytes, count, out))
}

/// So many values of `width` bits, which the bytes begin with. Bytes that are left over are ignored.
pub fn unpack(alloc: Global, width: u8, bytes: &[u8], count: usize) -> Result<Vec<u32>, PackFault>
    ensures ok { IfOk result (λ values. Unpacks width bytes.now count values.items) }
    ensures width { IfErr result (λ e. (asked : ℕ) → e ≡ PackFault.Width asked → (asked ≡ width) × (32 < width)) }
    ensures count { IfErr result (λ e. e ≡ PackFault.Count → (width ≤ 32) × (most_values < count)) }
    ensures short { IfErr result (λ e. e ≡ PackFault.Short → (width ≤ 32) × (count ≤ most_values) × (8 * length bytes.now < count * width)) }
{
    check_count(width, count)?;
    if (count * usize::from(width)).div_ceil(8) > bytes.len() {
        return Err(PackFault::Short);
    }
    let mut values = Vec::with_capacity(alloc, count)?;
    append_values(width, bytes, count, &mut values)?;
    Ok(values)
}

/// That a width and a number of values are allowed.
pub(crate) fn check_count(width: u8, count: usize) -> Result<(), PackFault>
    ensures ok { OnOk result ((width ≤ 32) × (count ≤ most_values)) }
    ensures width { IfErr result (λ e. (asked : ℕ) → e ≡ PackFault.Width asked → (asked ≡ width) × (32 < width)) }
    ensures count { IfErr result (λ e. e ≡ PackFault.Count → (width ≤ 32) × (most_values < count)) }
    ensures short { IfErr result (λ e. e ≢ PackFault.Short) }
{
    if width > 32 {
        return Err(PackFault::Width { width });
    }
    if count > MOST_VALUES {
        return Err(PackFault::Count);
    }
    Ok(())
}
