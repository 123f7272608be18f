//! Texts in quotes.
ghost use Rattle.std.specs.Prelude.{◌≡◌, ◌<◌, ◌≤◌, ◌++◌, ◌∷◌, List, ℕ, Some, IfSome, length, false};
ghost use Rattle.std.specs.List.{prefix_len};
ghost use Rattle.script_tokens.specs.Gives.{Gives};
ghost use Rattle.script_tokens.specs.Quoted.{body, plain, hex, IsPiece, IsShorter, digit_of, high_of, is_plain, SpellsInside, begins_quote};
ghost use Rattle.script_tokens.specs.Text.{InsideOf};

use crate::ParseError;
use row_base::Items;
use std::alloc::Global;

/// What stands at the front of a text's inside.
#[derive(Clone, Copy, Debug)]
pub enum Piece<'a> {
    /// One byte of the text, and what follows.
    Byte(u8, &'a [u8]),
    /// The closing quote, and what follows.
    End(&'a [u8]),
    /// Nothing of a text.
    Bad,
}

fn digit(b: u8) -> Option<u8>
    ensures value { result ≡ digit_of b }
    ensures small { IfSome result (λ d. d < 16) }
{
    if b.is_ascii_digit() {
        Some(b - b'0')
    } else if b >= b'a' && b <= b'f' {
        Some(b - b'a' + 10)
    } else if b >= b'A' && b <= b'F' {
        Some(b - b'A' + 10)
    } else {
        None
    }
}

fn high(b: u8) -> Option<u8>
    ensures value { result ≡ high_of b }
    ensures small { IfSome result (λ d. d < 8) }
{
    if b >= b'0' && b <= b'7' {
        Some(b - b'0')
    } else {
        None
    }
}

/// What the two digits of a `\x` give.
#[tactic(auto, unfolding(crate::specs::Quoted::body))]
fn coded<'a>(bytes: &'a [u8]) -> Piece<'a>
    ensures ok { IsPiece (body hex bytes.now) result }
    ensures less { IsShorter (length bytes.now) result }
{
    match bytes {
        [first, second, rest @ ..] => match high(*first) {
            Some(high) => match digit(*second) {
                Some(low) => Piece::Byte(high * 16 + low, rest),
                None => Piece::Bad,
            },
            None => Piece::Bad,
        },
        _ => Piece::Bad,
    }
}

#[tactic(auto, unfolding(crate::specs::Quoted::body))]
fn next_piece<'a>(bytes: &'a [u8]) -> Piece<'a>
    ensures ok { IsPiece (body plain bytes.now) result }
    ensures less { IsShorter (length bytes.now) result }
{
    match bytes {
        [] => Piece::Bad,
        [first, rest @ ..] => {
            if *first == b'\'' {
                match rest {
                    [] => Piece::End(rest),
                    [second, more @ ..] => {
                        if *second == b'\'' {
                            Piece::Byte(b'\'', more)
                        } else {
                            Piece::End(rest)
                        }
                    }
                }
            } else if *first == b'\\' {
                match rest {
                    [] => Piece::Bad,
                    [second, more @ ..] => {
                        if *second == b'\\' {
                            Piece::Byte(b'\\', more)
                        } else if *second == b'x' {
                            coded(more)
                        } else {
                            Piece::Bad
                        }
                    }
                }
            } else {
                Piece::Byte(*first, rest)
            }
        }
    }
}

fn is_plain(b: u8) -> bool
    ensures { result ≡ is_plain b }
{
    !(b == b'\'' || b == b'\\')
}

/// How many bytes at the front stand for themselves.
fn plain_run(bytes: &[u8]) -> usize
    ensures is { result ≡ prefix_len is_plain bytes.now }
    ensures within { result ≤ length bytes.now }
{
    bytes.iter().take_while(|b| is_plain(**b)).count()
}

/// The text whose inside stands at the front, up to its closing quote, and what follows it.
#[tactic(auto, using(crate::proofs::Texts::regroup, crate::proofs::Texts::front_end, crate::proofs::Texts::run_taken, crate::proofs::Texts::run_shorter))]
pub fn text(alloc: Global, bytes: &[u8]) -> Result<(Items<u8>, &[u8]), ParseError>
    ensures { Gives (λ x. (x.0, x.1.now)) result (body plain bytes.now) }
{
    let mut text = Vec::new(alloc);
    let mut rest = bytes;
    loop {
        let (run, end) = rest.split_at(plain_run(rest));
        text.extend_from_slice(run)?;
        match next_piece(end) {
            Piece::Byte(b, after) => {
                text.push(b)?;
                rest = after;
            }
            Piece::End(after) => return Ok((Items::from_vec(text), after)),
            Piece::Bad => return Err(ParseError::Form),
        }
    }
}

/// A text is read exactly where it is spelled so, up to a quote behind which no quote follows.
pub fn inside_is_spelled()
    ensures found { (bs t rest : List ℕ) → body plain bs ≡ Some (t, rest) → InsideOf bs t rest }
    ensures only { (t inner rest : List ℕ) → SpellsInside t inner → begins_quote rest ≡ false → body plain (inner ++ 39 ∷ rest) ≡ Some (t, rest) }
{}
