//! Definition levels of a column that may be null (Parquet format, README.md, "Nulls"): 1 for a value that is there, and
//! 0 for null. In a data page they are a hybrid of width 1 behind its number of bytes.
ghost use Rattle.std.specs.Prelude.{◌≡◌, ◌≤◌, ◌++◌, length, if◌then◌else◌, IfOk, OnOk};
ghost use Rattle.bit_pack.specs.Bits.{most_values};
ghost use Rattle.parquet_pages.specs.Gives.{Gives};
ghost use Rattle.parquet_pages.specs.Levels as spec;
ghost use Rattle.parquet_pages.specs.Places.{is_null};
ghost use Rattle.parquet_pages.specs.Written as written;

use crate::fault::BodyFault;
use crate::hybrid::{hybrid, hybrid_text};
use crate::plain::{append_block, block};
use row_base::{Datum, NoMemory};
use std::alloc::Global;

/// So many levels at the front of a page's body, and what is behind them.
#[tactic(auto, unfolding(crate::specs::Levels::levels_in))]
pub(crate) fn levels(
    alloc: Global,
    count: usize,
    bytes: &[u8],
) -> Result<(Vec<u32>, &[u8]), BodyFault>
    ensures levels { Gives result (λ l. (l.0.items, l.1.now)) (spec.levels_in count bytes.now) }
    ensures all { IfOk result (λ l. length l.0.items ≡ count) }
{
    match block(bytes) {
        Some((block, rest)) => Ok((hybrid(alloc, 1, block, count)?, rest)),
        None => Err(BodyFault::Damaged),
    }
}

/// How many values are there.
pub(crate) fn there(levels: &[u32]) -> usize
    ensures count { result ≡ spec.there levels.now }
    ensures few { result ≤ length levels.now }
{
    let mut count = 0;
    for level in levels {
        if *level != 0 {
            count += 1;
        }
    }
    count
}

/// Whether null stands somewhere.
pub(crate) fn has_null(levels: &[u32]) -> bool
    ensures { result ≡ spec.has_null levels.now }
{
    levels.iter().any(|level| *level == 0)
}

/// The values that are there, each at its place, and null at the others.
pub(crate) fn spread(
    alloc: Global,
    levels: &[u32],
    values: Vec<Datum>,
) -> Result<Vec<Datum>, NoMemory>
    ensures { IfOk result (λ v. v.items ≡ spec.spread levels.now values.items) }
{
    let mut spread = Vec::with_capacity(alloc, levels.len())?;
    let mut rest = values.into_iter();
    for level in levels {
        if *level == 0 {
            spread.push(Datum::Null)?;
        } else {
            spread.push(rest.next().unwrap_or(Datum::Null))?;
        }
    }
    Ok(spread)
}

/// The levels of values.
fn levels_of(alloc: Global, values: &[Datum]) -> Result<Vec<u32>, NoMemory>
    ensures { IfOk result (λ levels. levels.items ≡ written.levels_of values.now) }
{
    let mut levels = Vec::with_capacity(alloc, values.len())?;
    for value in values {
        levels.push(level_of(value))?;
    }
    Ok(levels)
}

fn level_of(value: &Datum) -> u32
    ensures { result ≡ (if is_null value.now then 0 else 1) }
{
    match value {
        Datum::Null => 0,
        _ => 1,
    }
}

/// Appends the levels of values, where the column may be null.
#[tactic(auto, unfolding(crate::specs::Written::levels_text))]
pub(crate) fn append_levels(
    alloc: Global,
    optional: bool,
    values: &[Datum],
    out: &mut Vec<u8>,
) -> Result<(), NoMemory>
    requires { length values.now ≤ most_values }
    ensures { OnOk result (out.new.items ≡ out.old.items ++ written.levels_text optional values.now) }
{
    if optional {
        let levels = levels_of(alloc, values)?;
        let bytes = hybrid_text(alloc, 1, levels.as_slice())?;
        append_block(bytes.as_slice(), out)?;
    }
    Ok(())
}
