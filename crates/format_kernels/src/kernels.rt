//! The kernels that are timed.

ghost use Rattle.std.specs.Prelude.{◌≡◌, ℕ, ◌%◌, ◌^◌, ◌<◌, ◌≤◌, min, slice_get, slice_index, IfOk, IfErr};
ghost use Rattle.format_kernels.specs.Kernels as spec;

use crate::fault::KernelFault;
use crate::kernel::Kernel;
use crate::register::{FIRST_STATE, next_state};
use crate::{commits, tables};
use bit_pack::{PackFault, pack, unpack};
use std::alloc::{AllocError, Global};

/// How many values a kernel runs over.
const COUNT: usize = 1 << 22;

/// The checksum of so many runs of a kernel, or what it counts of so many rows or added files.
pub fn run(alloc: Global, kernel: Kernel, number: u32) -> Result<u64, KernelFault>
    ensures ok { IfOk result (λ answer. answer ≡ spec.answer_of kernel number) }
    ensures err { IfErr result (spec.IsFailure kernel number) }
{
    match kernel {
        Kernel::Unpack(width) => run_unpack(alloc, width, number).map_err(KernelFault::Pack),
        Kernel::Pack(width) => run_pack(alloc, width, number).map_err(KernelFault::Pack),
        Kernel::LogWrite => commits::run_write(alloc, number),
        Kernel::LogRead => commits::run_read(alloc, number),
        Kernel::Parquet(step, table) => tables::run(alloc, step, table, number),
    }
}

/// So many values of a width, from a shift register.
#[tactic(auto, unfolding(crate::specs::Kernels::values_of, crate::specs::Register::state_after))]
fn make_values(alloc: Global, width: u8, count: usize) -> Result<Vec<u32>, AllocError>
    ensures { IfOk result (λ values. values.items ≡ spec.values_of width count) }
{
    let mut values = Vec::with_capacity(alloc, count)?;
    let mut state = FIRST_STATE;
    for _ in 0..count {
        state = next_state(state);
        values.push(cut(state, width))?;
    }
    Ok(values)
}

/// The low bits of a number, at most 32.
fn cut(state: u64, width: u8) -> u32
    ensures { result ≡ state % 2 ^ min width 32 }
{
    let low = state % (1 << 32);
    if width < 32 {
        (low % (1 << width)) as u32
    } else {
        low as u32
    }
}

/// Unpacks the same bytes so many times; the checksum takes one value of each run.
fn run_unpack(alloc: Global, width: u8, runs: u32) -> Result<u64, PackFault>
    ensures ok { IfOk result (λ sum. sum ≡ spec.checksum_of (spec.values_of width spec.value_count) runs) }
    ensures err { IfErr result (λ e. width ≤ 32 → e ≡ PackFault.NoMemory) }
{
    let values = make_values(alloc, width, COUNT)?;
    let bytes = pack(alloc, width, values.as_slice())?;
    let mut sum: u64 = 0;
    for turn in 0..runs {
        let found = unpack(alloc, width, bytes.as_slice(), COUNT)?;
        sum = add_value(sum, found.as_slice(), turn as usize % COUNT);
    }
    Ok(sum)
}

/// The checksum with the value at a place, if there is one.
fn add_value(sum: u64, values: &[u32], place: usize) -> u64
    ensures { result ≡ spec.summed sum (slice_get values.now place) }
{
    match values.get(place) {
        Some(value) => sum.wrapping_mul(31).wrapping_add(u64::from(*value)),
        None => sum,
    }
}

/// Packs the same values so many times; the checksum takes one byte of each run.
fn run_pack(alloc: Global, width: u8, runs: u32) -> Result<u64, PackFault>
    ensures ok { IfOk result (λ sum. sum ≡ spec.checksum_of (spec.packed width (spec.values_of width spec.value_count)) runs) }
    ensures err { IfErr result (λ e. width ≤ 32 → e ≡ PackFault.NoMemory) }
{
    let values = make_values(alloc, width, COUNT)?;
    let mut sum: u64 = 0;
    for turn in 0..runs {
        let bytes = pack(alloc, width, values.as_slice())?;
        sum = add_byte(sum, bytes.as_slice(), turn as usize % COUNT);
    }
    Ok(sum)
}

/// The checksum with the byte at a place, if there is one.
fn add_byte(sum: u64, bytes: &[u8], place: usize) -> u64
    ensures sum { result ≡ spec.summed sum (slice_get bytes.now place) }
    ensures fit { (k : ℕ) → slice_index bytes.now k < 256 }
{
    match bytes.get(place) {
        Some(byte) => sum.wrapping_mul(31).wrapping_add(u64::from(*byte)),
        None => sum,
    }
}
