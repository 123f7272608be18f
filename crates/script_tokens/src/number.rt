//! Numbers.
ghost use Rattle.std.specs.Prelude.{◌≡◌, ◌≤◌, ◌<◌, ◌∷◌, ℕ, List, length, drop};
ghost use Rattle.std.specs.List.{prefix_len};
ghost use Rattle.script_tokens.specs.Words.{is_digit};
ghost use Rattle.script_tokens.specs.Gives.{Gives};
ghost use Rattle.script_tokens.specs.Reading.{number_at, negative_at};

use crate::word::is_boundary;
use crate::{ParseError, Token};
use row_base::numbers::read_long;

fn digit_run(bytes: &[u8]) -> usize
    ensures is { result ≡ prefix_len is_digit bytes.now }
    ensures within { result ≤ length bytes.now }
{
    bytes.iter().take_while(|b| b.is_ascii_digit()).count()
}

/// The number whose digits stand at the front.
#[tactic(auto, unfolding(crate::specs::Reading::number_at))]
pub fn number(bytes: &[u8]) -> Result<(Token<'_>, &[u8]), ParseError>
    requires { 0 < prefix_len is_digit bytes.now }
    ensures { Gives (λ x. (x.0, x.1.now)) result (number_at bytes.now) }
{
    let (digits, rest) = bytes.split_at(digit_run(bytes));
    if !is_boundary(rest) {
        return Err(ParseError::Form);
    }
    match read_long(digits) {
        Some(number) => Ok((Token::Number(number), rest)),
        None => Err(ParseError::Form),
    }
}

fn behind_sign(bytes: &[u8]) -> &[u8]
    requires { 0 < length bytes.now }
    ensures { result.now ≡ drop 1 bytes.now }
{
    let (_, behind) = bytes.split_at(1);
    behind
}

/// The number whose sign and digits stand at the front.
#[tactic(auto, unfolding(crate::specs::Reading::negative_at))]
pub fn negative(bytes: &[u8]) -> Result<(Token<'_>, &[u8]), ParseError>
    requires sign { (ds : List ℕ) × (bytes.now ≡ 45 ∷ ds) }
    requires some { 0 < prefix_len is_digit (drop 1 bytes.now) }
    ensures { Gives (λ x. (x.0, x.1.now)) result (negative_at (drop 1 bytes.now)) }
{
    let (text, rest) = bytes.split_at(1 + digit_run(behind_sign(bytes)));
    if !is_boundary(rest) {
        return Err(ParseError::Form);
    }
    match read_long(text) {
        Some(number) => Ok((Token::Number(number), rest)),
        None => Err(ParseError::Form),
    }
}
