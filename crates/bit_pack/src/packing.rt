//! Writing bit-packed values.

ghost use Rattle.std.specs.Prelude.{◌≡◌, ◌≢◌, ◌⊎◌, ℕ, ◌∷◌, [], ◌+◌, ◌-◌, ◌*◌, ◌/◌, ◌%◌, ◌^◌, ◌<◌, ◌≤◌, ◌++◌, length, slice_index, EachIndex, SomeIndex, MatchBool, IsOk, IfOk, IfErr, OnOk, OnErr, vec_len, vec_capacity, take, drop};
ghost use Rattle.bit_pack.specs.Bits.{Packs, AppendsPacked, IsTooWide, most_values};
ghost use Rattle.bit_pack.specs.Numbers.{packed_number, bytes_of};

use crate::fault::PackFault;
use crate::room::{push_all, take_out};
use crate::unpacking::check_count;
use crate::width::at_width;
use std::alloc::{AllocError, Global};

/// Whether each value has at most `width` bits.
pub(crate) fn fit(width: usize, values: &[u32]) -> bool
    requires { width ≤ 32 }
    ensures { MatchBool result
        (EachIndex values.now (λ k. slice_index values.now k < 2 ^ width))
        (SomeIndex values.now (λ k. 2 ^ width ≤ slice_index values.now k)) }
{
    if width == 32 {
        return true;
    }
    let mut seen = 0;
    for value in values {
        seen |= *value;
    }
    u64::from(seen) < 1 << width
}

/// Four values beside one another, the first one lowest.
#[inline(always)]
fn four<const W: usize>(first: u32, second: u32, third: u32, fourth: u32) -> u128
    requires width { W ≤ 32 }
    requires first { first < 2 ^ W }
    requires second { second < 2 ^ W }
    requires third { third < 2 ^ W }
    requires fourth { fourth < 2 ^ W }
    ensures value { result ≡ packed_number W (first ∷ second ∷ third ∷ fourth ∷ []) }
    ensures bound { result < 2 ^ (4 * W) }
{
    let high = u128::from(fourth) << W | u128::from(third);
    (high << W | u128::from(second)) << W | u128::from(first)
}

/// What is left of eight values behind the bytes that the first four fill.
#[inline(always)]
fn rest<const W: usize>(low: u128, high: u128) -> u128
    requires width { W ≤ 32 }
    requires low { low < 2 ^ (4 * W) }
    requires high { high < 2 ^ (4 * W) }
    ensures { result ≡ (low + 2 ^ (4 * W) * high) / 2 ^ (8 * (W / 2)) }
{
    if W % 2 == 1 {
        high << 4 | low >> (8 * (W / 2))
    } else {
        high
    }
}

/// Appends eight values where there is room for their bytes, with the width known to the compiler.
#[inline(always)]
fn pack_group<const W: usize>(values: &[u32; 8], out: &mut Vec<u8>)
    requires width { W ≤ 32 }
    requires fit { EachIndex values.now (λ k. slice_index values.now k < 2 ^ W) }
    requires room { vec_len out.old + W ≤ vec_capacity out.old }
    ensures items { out.new.items ≡ out.old.items ++ bytes_of W (packed_number W values.now) }
    ensures len { vec_len out.new ≡ vec_len out.old + W }
    ensures capacity { vec_capacity out.new ≡ vec_capacity out.old }
{
    let low = four::<W>(values[0], values[1], values[2], values[3]);
    let high = four::<W>(values[4], values[5], values[6], values[7]);
    let half = W / 2;
    push_all(&low.to_le_bytes()[..half], out);
    push_all(&rest::<W>(low, high).to_le_bytes()[..W - half], out);
}

/// Appends exactly `W` bytes that hold eight values of `W` bits; a refusal leaves `out` as it was.
pub fn pack8<const W: usize>(values: &[u32; 8], out: &mut Vec<u8>) -> Result<(), PackFault>
    requires { W ≤ 32 }
    ensures fit { OnOk result (EachIndex values.now (λ k. slice_index values.now k < 2 ^ W)) }
    ensures ok { OnOk result (AppendsPacked W values.now out.old.items out.new.items) }
    ensures width { IfErr result (λ e. (asked : ℕ) → e ≡ PackFault.Width asked → (asked ≡ W) × SomeIndex values.now (λ k. 2 ^ W ≤ slice_index values.now k)) }
    ensures only { IfErr result (λ e. (e ≢ PackFault.Short) × (e ≢ PackFault.Count)) }
    ensures err { OnErr result (out.new.items ≡ out.old.items) }
{
    if !fit(W, values) {
        return Err(PackFault::Width { width: W as u8 });
    }
    out.reserve(W)?;
    pack_group::<W>(values, out);
    Ok(())
}

/// Eight values from a place on.
#[inline(always)]
fn eight_at(values: &[u32], at: usize) -> [u32; 8]
    requires { at + 8 ≤ length values.now }
    ensures { result ≡ take 8 (drop at values.now) }
{
    <[u32; 8]>::try_from(&values[at..at + 8]).unwrap()
}

/// The list with whole groups of eight values behind it, the first ones, where there is room for their bytes.
#[inline(always)]
fn pack_groups<const W: usize>(values: &[u32], groups: usize, mut out: Vec<u8>) -> Vec<u8>
    requires width { W ≤ 32 }
    requires within { 8 * groups ≤ length values.now }
    requires few { groups ≤ most_values }
    requires fit { EachIndex values.now (λ k. slice_index values.now k < 2 ^ W) }
    requires room { vec_len out + groups * W ≤ vec_capacity out }
    ensures items { result.items ≡ out.items ++ bytes_of (groups * W) (packed_number W (take (8 * groups) values.now)) }
    ensures len { vec_len result ≡ vec_len out + groups * W }
    ensures capacity { vec_capacity result ≡ vec_capacity out }
{
    for group in 0..groups {
        pack_group::<W>(&eight_at(values, 8 * group), &mut out);
    }
    out
}

/// Appends fewer than eight values in the fewest bytes, where there is room for a whole group.
fn pack_few<const W: usize>(values: &[u32], out: &mut Vec<u8>)
    requires width { W ≤ 32 }
    requires few { length values.now < 8 }
    requires fit { EachIndex values.now (λ k. slice_index values.now k < 2 ^ W) }
    requires room { vec_len out.old + W ≤ vec_capacity out.old }
    ensures { out.new.items ≡ out.old.items ++ bytes_of ((length values.now * W + 7) / 8) (packed_number W values.now) }
{
    let mut eight = [0; 8];
    eight[..values.len()].copy_from_slice(values);
    let end = out.len() + (values.len() * W).div_ceil(8);
    pack_group::<W>(&eight, out);
    out.truncate(end);
}

/// Appends values in the fewest bytes.
fn pack_at<const W: usize>(values: &[u32], out: &mut Vec<u8>) -> Result<(), AllocError>
    requires width { W ≤ 32 }
    requires few { length values.now ≤ 8 * most_values }
    requires fit { EachIndex values.now (λ k. slice_index values.now k < 2 ^ W) }
    ensures { OnOk result (out.new.items ≡ out.old.items ++ bytes_of ((length values.now * W + 7) / 8) (packed_number W values.now)) }
{
    let groups = values.len() / 8;
    out.reserve(groups * W + W)?;
    *out = pack_groups::<W>(values, groups, take_out(out));
    pack_few::<W>(&values[8 * groups..], out);
    Ok(())
}

/// Appends values of `width` bits in the fewest bytes.
pub(crate) fn append_packed(width: u8, values: &[u32], out: &mut Vec<u8>) -> Result<(), AllocError>
    requires width { width ≤ 32 }
    requires few { length values.now ≤ 8 * most_values }
    requires fit { EachIndex values.now (λ k. slice_index values.now k < 2 ^ width) }
    ensures { OnOk result (out.new.items ≡ out.old.items ++ bytes_of ((length values.now * width + 7) / 8) (packed_number width values.now)) }
{
    at_width!(width, pack_at(values, out))
}

/// The fewest bytes that hold the values, each of `width` bits; the last byte is filled up with zeros.
pub fn pack(alloc: Global, width: u8, values: &[u32]) -> Result<Vec<u8>, PackFault>
    ensures limits { OnOk result ((width ≤ 32) × (length values.now ≤ most_values)) }
    ensures fit { OnOk result (EachIndex values.now (λ k. slice_index values.now k < 2 ^ width)) }
    ensures ok { IfOk result (λ bytes. Packs width values.now bytes.items) }
    ensures width { IfErr result (λ e. (asked : ℕ) → e ≡ PackFault.Width asked → (asked ≡ width) × IsTooWide width values.now) }
    ensures count { IfErr result (λ e. e ≡ PackFault.Count → (width ≤ 32) × (most_values < length values.now)) }
    ensures short { IfErr result (λ e. e ≢ PackFault.Short) }
{
    check_values(width, values)?;
    let mut bytes = Vec::with_capacity(alloc, (values.len() / 8 + 1) * usize::from(width))?;
    append_packed(width, values, &mut bytes)?;
    Ok(bytes)
}

/// That a width and a number of values are allowed, and that each value has at most `width` bits.
pub(crate) fn check_values(width: u8, values: &[u32]) -> Result<(), PackFault>
    ensures limits { OnOk result ((width ≤ 32) × (length values.now ≤ most_values)) }
    ensures fit { OnOk result (EachIndex values.now (λ k. slice_index values.now k < 2 ^ width)) }
    ensures width { IfErr result (λ e. (asked : ℕ) → e ≡ PackFault.Width asked → (asked ≡ width) × IsTooWide width values.now) }
    ensures count { IfErr result (λ e. e ≡ PackFault.Count → (width ≤ 32) × (most_values < length values.now)) }
    ensures short { IfErr result (λ e. e ≢ PackFault.Short) }
{
    check_count(width, values.len())?;
    if !fit(usize::from(width), values) {
        return Err(PackFault::Width { width });
    }
    Ok(())
}
