//! Packed values and the hybrid, of which no fault is told apart from another.
ghost use Rattle.std.specs.Prelude.{◌≡◌, ◌^◌, ◌<◌, ◌≤◌, length, slice_index, EachIndex, ◌++◌, IfOk, OnOk};
ghost use Rattle.bit_pack.specs.Bits.{most_values, Packs};
ghost use Rattle.parquet_pages.specs.Gives.{Gives};
ghost use Rattle.parquet_pages.specs.Hybrids as spec;
ghost use Rattle.bit_pack.specs.Hybrid.{hybrid_of};
ghost use Rattle.parquet_pages.specs.Written as written;

use crate::fault::BodyFault;
use bit_pack::{PackFault, pack, read_hybrid, unpack, write_hybrid};
use row_base::NoMemory;
use std::alloc::Global;

/// So many values of a width, from the hybrid.
pub(crate) fn hybrid(
    alloc: Global,
    width: u8,
    bytes: &[u8],
    count: usize,
) -> Result<Vec<u32>, BodyFault>
    ensures values { Gives result (λ v. v.items) (spec.hybrid_values width bytes.now count) }
    ensures all { IfOk result (λ v. length v.items ≡ count) }
{
    match read_hybrid(alloc, width, bytes, count) {
        Ok(values) => Ok(values),
        Err(PackFault::NoMemory) => Err(BodyFault::NoMemory),
        Err(PackFault::Short) => Err(BodyFault::Damaged),
        Err(PackFault::Width { width: _ }) => Err(BodyFault::Damaged),
        Err(PackFault::Count) => Err(BodyFault::Damaged),
    }
}

/// So many bits, the lowest bit of each byte first.
pub(crate) fn bits(alloc: Global, bytes: &[u8], count: usize) -> Result<Vec<u32>, BodyFault>
    requires { count ≤ most_values }
    ensures { Gives result (λ v. v.items) (spec.unpacked 1 count bytes.now) }
{
    match unpack(alloc, 1, bytes, count) {
        Ok(values) => Ok(values),
        Err(PackFault::NoMemory) => Err(BodyFault::NoMemory),
        Err(PackFault::Short) => Err(BodyFault::Damaged),
        Err(PackFault::Width { width: _ }) => unreachable!(),
        Err(PackFault::Count) => unreachable!(),
    }
}

/// The hybrid of values that have at most `width` bits.
pub(crate) fn hybrid_text(alloc: Global, width: u8, values: &[u32]) -> Result<Vec<u8>, NoMemory>
    requires narrow { width ≤ 32 }
    requires few { length values.now ≤ most_values }
    requires fit { EachIndex values.now (λ k. slice_index values.now k < 2 ^ width) }
    ensures { IfOk result (λ bytes. bytes.items ≡ hybrid_of width values.now) }
{
    match write_hybrid(alloc, width, values) {
        Ok(bytes) => Ok(bytes),
        Err(PackFault::NoMemory) => Err(NoMemory),
        Err(PackFault::Short) => unreachable!(),
        Err(PackFault::Width { width: _ }) => unreachable!(),
        Err(PackFault::Count) => unreachable!(),
    }
}

/// Appends bits in the fewest bytes, the lowest bit of each byte first.
pub(crate) fn append_bits(alloc: Global, bits: &[u32], out: &mut Vec<u8>) -> Result<(), NoMemory>
    requires few { length bits.now ≤ most_values }
    requires fit { EachIndex bits.now (λ k. slice_index bits.now k < 2 ^ 1) }
    ensures { OnOk result (out.new.items ≡ out.old.items ++ written.bits_text bits.now) }
{
    match pack(alloc, 1, bits) {
        Ok(bytes) => append_packed(bits, bytes.as_slice(), out),
        Err(PackFault::NoMemory) => Err(NoMemory),
        Err(PackFault::Short) => unreachable!(),
        Err(PackFault::Width { width: _ }) => unreachable!(),
        Err(PackFault::Count) => unreachable!(),
    }
}

/// Appends the bytes that bits were packed into.
fn append_packed(bits: &[u32], bytes: &[u8], out: &mut Vec<u8>) -> Result<(), NoMemory>
    requires { Packs 1 bits.now bytes.now }
    ensures { OnOk result (out.new.items ≡ out.old.items ++ written.bits_text bits.now) }
{
    let _bits = bits;
    out.extend_from_slice(bytes)?;
    Ok(())
}
