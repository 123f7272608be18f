//! Kernels, lists of values and hybrids: known bytes, and a reader bit by bit beside them.
ghost use Rattle.std.specs.Prelude.{◌^◌, ◌<◌, ◌≤◌};

use bit_pack::{PackFault, pack, pack8, plain_value, read_hybrid, unpack, unpack8, write_hybrid};
use std::alloc::{AllocError, Global};
use std::test::Fail;

const ALL: [u32; 8] = [0, 1, 2, 3, 4, 5, 6, 7];

/// Whether these values were read.
fn are_values(read: Result<Vec<u32>, PackFault>, want: &[u32]) -> bool {
    match read {
        Ok(values) => values.as_slice() == want,
        Err(_) => false,
    }
}

/// Whether these bytes were written.
fn are_bytes(written: Result<Vec<u8>, PackFault>, want: &[u8]) -> bool {
    match written {
        Ok(bytes) => bytes.as_slice() == want,
        Err(_) => false,
    }
}

#[test]
fn eight_values_of_three_bits(rt: HostRuntime) -> Result<(), Fail> {
    assert!(rt; unpack8::<3>(&[0x88, 0xc6, 0xfa]) == Some(ALL));
    assert!(rt; unpack8::<3>(&[0x88, 0xc6]) == None);
    let mut out = Vec::new(rt.alloc());
    pack8::<3>(&ALL, &mut out)?;
    assert!(rt; out.as_slice() == [0x88, 0xc6, 0xfa].as_slice());
    Ok(())
}

const NINE: [u32; 9] = [1, 0, 1, 1, 0, 0, 0, 0, 1];

#[test]
fn a_list_of_values(rt: HostRuntime) {
    let alloc = rt.alloc();
    assert!(rt; are_bytes(pack(alloc, 1, &NINE), &[0x0d, 0x01]));
    assert!(rt; are_values(unpack(alloc, 1, &[0x0d, 0x01], 9), &NINE));
    assert!(rt; plain_value(3, &[0x88, 0xc6, 0xfa], 5) == 5);
}

#[test]
fn runs_and_stretches(rt: HostRuntime) {
    let alloc = rt.alloc();
    assert!(rt; are_values(read_hybrid(alloc, 1, &[0x08, 0x01], 4), &[1, 1, 1, 1]));
    assert!(rt; are_values(read_hybrid(alloc, 3, &[0x03, 0x88, 0xc6, 0xfa], 8), &ALL));
    assert!(rt; are_bytes(write_hybrid(alloc, 1, &[1, 0]), &[0x03, 0x01]));
    let short = read_hybrid(alloc, 1, &[0x08, 0x01], 5);
    assert!(rt; matches!(short, Err(PackFault::Short)));
}

/// So many bytes that look like noise.
fn noise(alloc: Global, count: usize, seed: u64) -> Result<Vec<u8>, AllocError> {
    let mut bytes = Vec::new(alloc);
    let mut state = seed;
    for _ in 0..count {
        state ^= state << 13;
        state ^= state >> 7;
        state ^= state << 17;
        bytes.push((state % 256) as u8)?;
    }
    Ok(bytes)
}

/// Whether these are the values that the plain reader gives.
fn are_plain(width: u8, bytes: &[u8], values: &[u32]) -> bool
    requires { width ≤ 32 }
{
    for (place, value) in values.iter().enumerate() {
        if place > 1000 || ((place + 1) * usize::from(width)).div_ceil(8) > bytes.len() {
            return false;
        }
        if plain_value(usize::from(width), bytes, place) != *value {
            return false;
        }
    }
    true
}

/// Whether unpacking what `pack` makes of these values gives them back.
fn come_back(alloc: Global, width: u8, values: &[u32]) -> Result<bool, PackFault> {
    let packed = pack(alloc, width, values)?;
    Ok(are_values(
        unpack(alloc, width, packed.as_slice(), values.len()),
        values,
    ))
}

/// Whether `unpack` gives what the plain reader gives, and unpacking what `pack` makes of these values gives them back.
fn unpacks_alike(alloc: Global, width: u8, count: usize, bytes: &[u8]) -> Result<bool, PackFault>
    requires { width ≤ 32 }
{
    let values = unpack(alloc, width, bytes, count)?;
    let back = come_back(alloc, width, values.as_slice())?;
    Ok(back && values.len() == count && are_plain(width, bytes, values.as_slice()))
}

/// The same for each count to 20.
fn all_alike(alloc: Global, width: u8, bytes: &[u8]) -> Result<bool, PackFault>
    requires { width ≤ 32 }
{
    let mut all = true;
    for count in 0..=20 {
        all = unpacks_alike(alloc, width, count, bytes)? && all;
    }
    Ok(all)
}

#[test]
fn every_width_is_read_as_the_plain_reader_reads_it(rt: HostRuntime) -> Result<(), Fail> {
    let bytes = noise(rt.alloc(), 80, 0x9e37_79b9_7f4a_7c15)?;
    for width in 0..=32 {
        let alike = all_alike(rt.alloc(), width, bytes.as_slice());
        assert!(rt; matches!(alike, Ok(true)));
    }
    Ok(())
}

/// The number of so many bits from a bit on, the lowest bit first; none where the bytes end before.
fn plain_number(bytes: &[u8], from: usize, width: usize) -> Option<u32>
    requires { (from < 2 ^ 40) × (width ≤ 32) }
{
    let mut number = 0;
    for bit in 0..width {
        let at = from + bit;
        let found = (*bytes.get(at / 8)? >> (at % 8)) & 1;
        number |= u32::from(found) << bit;
    }
    Some(number)
}

/// The number of the header at the front, and the bytes behind it.
fn plain_header(bytes: &[u8]) -> Option<(u64, &[u8])> {
    let mut number = 0;
    for at in 0..5 {
        number |= u64::from(plain_number(bytes, 8 * at, 7)?) << (7 * at);
        if plain_number(bytes, 8 * at + 7, 1)? == 0 {
            return Some((number, bytes.get(at + 1..)?));
        }
    }
    None
}

/// The value of a run, and the bytes behind it.
fn plain_run(width: usize, body: &[u8]) -> Option<(u32, &[u8])>
    requires { width ≤ 32 }
{
    let size = width.div_ceil(8);
    let value = plain_number(body, 0, 8 * size)?;
    if u64::from(value) >> width != 0 {
        return None;
    }
    Some((value, body.get(size..)?))
}

/// Puts so many values behind the others.
fn push_run(values: &mut Vec<u32>, value: u32, many: usize) -> Option<()> {
    let length = values.len().saturating_add(many);
    values.resize(length, value).ok()
}

/// Puts the first so many values of these bits behind the others; nothing where there are fewer.
fn push_packed(values: &mut Vec<u32>, width: usize, body: &[u8], many: usize) -> Option<()>
    requires width { width ≤ 32 }
    requires many { many ≤ 8000 }
{
    for place in 0..many {
        let value = plain_number(body, place * width, width)?;
        values.push(value).ok()?;
    }
    Some(())
}

/// Puts the values of the first run or of the first stretches behind the others, to a number of them, and gives the
/// bytes behind them; nothing for any fault.
fn take_first<'a>(
    width: usize,
    bytes: &'a [u8],
    count: usize,
    values: &mut Vec<u32>,
) -> Option<&'a [u8]>
    requires { width ≤ 32 }
{
    let (number, body) = plain_header(bytes)?;
    let many = (number / 2).min(1000) as usize;
    let wanted = count.saturating_sub(values.len());
    if number % 2 == 0 {
        let (value, behind) = plain_run(width, body)?;
        push_run(values, value, many.min(wanted))?;
        Some(behind)
    } else {
        let behind = body.get(many * width..)?;
        push_packed(values, width, body, (8 * many).min(wanted))?;
        Some(behind)
    }
}

/// The values of the hybrid, if the bytes hold so many; `None` for any fault. It reads bit by bit and one value at a time,
/// and is for few bytes and few values.
fn plain_hybrid(alloc: Global, width: usize, bytes: &[u8], count: usize) -> Option<Vec<u32>>
    requires { width ≤ 32 }
{
    let mut values = Vec::new(alloc);
    let mut rest = Some(bytes);
    for _ in 0..bytes.len() {
        if values.len() < count {
            rest = match rest {
                Some(rest) => take_first(width, rest, count, &mut values),
                None => None,
            };
        }
    }
    if rest.is_some() && values.len() == count {
        Some(values)
    } else {
        None
    }
}

/// Whether what was read is what the plain reader gives.
fn are_alike(read: &Result<Vec<u32>, PackFault>, plain: &Option<Vec<u32>>) -> bool {
    match (read, plain) {
        (Ok(values), Some(wanted)) => values.as_slice() == wanted.as_slice(),
        (Err(PackFault::NoMemory), _) => false,
        (Err(_), None) => true,
        _ => false,
    }
}

/// Whether `read_hybrid` gives what the plain reader gives.
fn reads_alike(alloc: Global, width: u8, bytes: &[u8], count: usize) -> bool {
    let plain = if width > 32 {
        None
    } else {
        plain_hybrid(alloc, usize::from(width), bytes, count)
    };
    let read = read_hybrid(alloc, width, bytes, count);
    are_alike(&read, &plain)
}

/// The same for each count to 20.
fn all_read_alike(alloc: Global, width: u8, bytes: &[u8]) -> bool {
    let mut all = true;
    for count in 0..=20 {
        all = reads_alike(alloc, width, bytes, count) && all;
    }
    all
}

#[test]
fn the_hybrid_is_read_as_the_plain_reader_reads_it(rt: HostRuntime) {
    for width in 0..=33 {
        for head in 0..=10 {
            let bytes = [head, 0x01, 0x03, 0xb6, 0x6d, 0x82, 0x00, head, 0x00];
            assert!(rt; all_read_alike(rt.alloc(), width, &bytes));
        }
    }
}
