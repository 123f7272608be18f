//! Texts cut at 32 characters.
ghost use Rattle.std.specs.Prelude.{◌≡◌, ◌≤◌, take, length, option_map};
ghost use Rattle.std.specs.Str.{IsCharBoundary};
ghost use Rattle.std.specs.Fmt.{take_chars, is_char_start};
ghost use Rattle.file_stats.specs.Kept.{kept_text};

use crate::bound::Bound;
use row_base::Text;

/// How many characters of a text statistics keep. A character is a Unicode scalar value.
const MAX_CHARS: usize = 32;

/// Whether a byte is the first of a character.
fn is_start(byte: u8) -> bool
    ensures { result ≡ is_char_start byte }
{
    byte < 128 || 192 <= byte
}

/// The place behind so many characters, or the end.
#[tactic(auto, using(crate::proofs::Places::past_start, crate::proofs::Places::past_inner, crate::proofs::Places::stops, crate::proofs::Places::at_end))]
fn place_behind(bytes: &[u8], count: usize) -> usize
    ensures place { take result bytes.now ≡ take_chars count bytes.now }
    ensures within { result ≤ length bytes.now }
    ensures boundary { IsCharBoundary bytes.now result }
{
    let mut left = count;
    for i in 0..bytes.len() {
        if is_start(bytes[i]) {
            if left == 0 {
                return i;
            }
            left -= 1;
        }
    }
    bytes.len()
}

/// What is kept of a text as a bound: as a least value its first 32 characters, and as a greatest one nothing where it
/// has more.
pub(crate) fn kept_of(bound: Bound, text: &Text) -> Option<&str>
    ensures { option_map (λ t. t.now) result ≡ kept_text bound text.now }
{
    let text = text.as_str();
    let place = place_behind(text.as_bytes(), MAX_CHARS);
    match bound {
        Bound::Least => Some(&text[..place]),
        Bound::Greatest => { if place < text.len() { None } else { Some(text) } }
    }
}
