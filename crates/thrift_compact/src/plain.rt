//! A plain reader of numbers, slow and by the definition, to compare the cursor with.

ghost use Rattle.std.specs.Prelude.{◌≡◌, ℕ, List, ℤ, ◌++◌, ◌^◌, ◌<◌, ◌≤◌, ◌*◌, take, length, IfSome, IfNone};
ghost use Rattle.thrift_compact.specs.Varints.{varint, found_in};
ghost use Rattle.thrift_compact.specs.Spelled.{SpellsNumber};

use crate::parts::signed;

/// The signed number that the bytes begin with, and how many bytes it takes.
pub fn plain_number(bytes: &[u8]) -> Option<(i64, usize)>
    ensures within { IfSome result (λ read. read.1 ≤ length bytes.now) }
    ensures some { IfSome result (λ read. SpellsNumber (take read.1 bytes.now) read.0) }
    ensures none { IfNone result ((text rest : List ℕ) (number : ℤ) → SpellsNumber text number → bytes.now ≡ text ++ rest → ⊥) }
{
    let (number, count) = plain_varint(bytes, 10)?;
    if number >= 1 << 64 {
        return None;
    }
    Some((signed(number as u64), count))
}

/// The varint of at most so many bytes that the bytes begin with, and how many bytes it takes.
fn plain_varint(bytes: &[u8], most: usize) -> Option<(u128, usize)>
    requires { most ≤ 10 }
    ensures value { result ≡ found_in (varint most bytes.now) }
    ensures small { IfSome result (λ read. read.0 < 2 ^ (7 * most)) }
    ensures few { IfSome result (λ read. read.1 ≤ most) }
{
    if most == 0 {
        return None;
    }
    let [byte, rest @ ..] = bytes else {
        return None;
    };
    if *byte < 128 {
        return Some((u128::from(*byte), 1));
    }
    let (high, count) = plain_varint(rest, most - 1)?;
    Some((u128::from(*byte % 128) + 128 * high, count + 1))
}
