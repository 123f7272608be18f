//! Identifiers of statements, and names of data files.
ghost use Rattle.std.specs.Prelude.{◌≡◌, IfOk, string_bytes};
ghost use Rattle.table_rules.specs.Digits.{five_or_more};
ghost use Rattle.table_rules.specs.Names as spec;

use crate::digits::padded_digits;
use edge_api::{Name, Tag};
use row_base::{NoMemory, Text};
use std::alloc::Global;
use uuid::Uuid;

fn id_number(tag: Tag, start: u64) -> u128
    ensures { result ≡ spec.id_number start tag.actor tag.statement }
{
    let high = (start % (1 << 48)) as u128 * (1 << 80) + 8 * (1 << 76);
    high + 2 * (1 << 62) + tag.actor as u128 * (1 << 32) + tag.statement as u128
}

fn id_text(alloc: Global, number: u128) -> Result<Text, NoMemory>
    ensures { IfOk result (λ text. text ≡ spec.id_text number) }
{
    let id = Uuid::from_u128(number);
    let mut buffer = Uuid::encode_buffer();
    let text = id.hyphenated().encode_lower(&mut buffer);
    Text::make(alloc, text)
}

/// The identifier of a statement that began at `start` (in milliseconds since 1970): a lower-case UUID
/// of version 8 (RFC 9562, section 5.8). The error is want of memory.
pub fn statement_id(alloc: Global, tag: Tag, start: u64) -> Result<Text, NoMemory>
    ensures { IfOk result (λ id. id ≡ spec.statement_text tag start) }
{
    id_text(alloc, id_number(tag, start))
}

fn part_digits(alloc: Global, part: u32) -> Result<String, NoMemory>
    ensures { IfOk result (λ text. string_bytes text ≡ five_or_more part) }
{
    if part < 100_000 {
        let digits = padded_digits::<5>(part as u64);
        Ok(String::from_str(alloc, str::from_utf8(&digits).unwrap())?)
    } else {
        Ok(part.to_string(alloc)?)
    }
}

/// The name of a statement's data file: `part-`, the part in at least five digits, the statement's
/// identifier and `-c000.parquet`. The error is want of memory.
pub fn data_file_name(alloc: Global, tag: Tag, start: u64, part: u32) -> Result<Name, NoMemory>
    ensures { IfOk result (λ name. name ≡ spec.data_text tag start part) }
{
    let digits = part_digits(alloc, part)?;
    let id = statement_id(alloc, tag, start)?;
    let mut name = String::from_str(alloc, "part-")?;
    name.push_str(digits.as_str())?;
    name.push_str("-")?;
    name.push_str(id.as_str())?;
    name.push_str("-c000.parquet")?;
    Name::from_string(name)
}
