//! What stands at the front of some tokens.
ghost use Rattle.std.specs.Prelude.{◌≡◌, option_map, List, [], Some};
ghost use Rattle.script_tokens.specs.Gives.{Gives};
ghost use Rattle.script_tokens.specs.declared.token.Token.{Token as AToken};
ghost use Rattle.script_grammar.specs.Shape.{Shape, Value, whole, Spells, word_at, name_at, number_at, literal_at, open_at, close_at, comma_at};

use crate::name::{is_name, text_of_name};
use row_base::{Datum, Text};
use script_tokens::{ParseError, Symbol, Token};
use std::alloc::Global;

/// The tokens behind the wanted word, if it stands at the front.
pub fn find_word<'a, 'b>(tokens: &'a [Token<'b>], wanted: &[u8]) -> Option<&'a [Token<'b>]>
    ensures { option_map (λ r. r.now) result ≡ word_at wanted.now tokens.now }
{
    match tokens {
        [first, rest @ ..] => match first {
            Token::Word(found) if found.as_slice() == wanted => Some(rest),
            _ => None,
        },
        [] => None,
    }
}

/// The tokens behind the wanted word. The error `Form` comes where it doesn't stand at the front.
pub fn take_word<'a, 'b>(
    tokens: &'a [Token<'b>],
    wanted: &[u8],
) -> Result<&'a [Token<'b>], ParseError>
    ensures { Gives (λ r. r.now) result (word_at wanted.now tokens.now) }
{
    match find_word(tokens, wanted) {
        Some(rest) => Ok(rest),
        None => Err(ParseError::Form),
    }
}

/// The tokens behind a `(`. The error `Form` comes where none stands at the front.
pub fn take_open<'a, 'b>(tokens: &'a [Token<'b>]) -> Result<&'a [Token<'b>], ParseError>
    ensures { Gives (λ r. r.now) result (open_at tokens.now) }
{
    match tokens {
        [Token::Symbol(Symbol::Open), rest @ ..] => Ok(rest),
        _ => Err(ParseError::Form),
    }
}

/// The tokens behind a `)`. The error `Form` comes where none stands at the front.
pub fn take_close<'a, 'b>(tokens: &'a [Token<'b>]) -> Result<&'a [Token<'b>], ParseError>
    ensures { Gives (λ r. r.now) result (close_at tokens.now) }
{
    match tokens {
        [Token::Symbol(Symbol::Close), rest @ ..] => Ok(rest),
        _ => Err(ParseError::Form),
    }
}

/// The tokens behind a comma, if one stands at the front.
pub fn find_comma<'a, 'b>(tokens: &'a [Token<'b>]) -> Option<&'a [Token<'b>]>
    ensures { option_map (λ r. r.now) result ≡ comma_at tokens.now }
{
    match tokens {
        [Token::Symbol(Symbol::Comma), rest @ ..] => Some(rest),
        _ => None,
    }
}

/// The number at the front, and what follows it.
pub fn take_number<'a, 'b>(tokens: &'a [Token<'b>]) -> Result<(i64, &'a [Token<'b>]), ParseError>
    ensures { Gives (λ x. (x.0, x.1.now)) result (number_at tokens.now) }
{
    match tokens {
        [first, rest @ ..] => match first {
            Token::Number(n) => Ok((*n, rest)),
            _ => Err(ParseError::Form),
        },
        [] => Err(ParseError::Form),
    }
}

/// The number at the front as a datum, and what follows it.
pub fn take_literal<'a, 'b>(tokens: &'a [Token<'b>]) -> Result<(Datum, &'a [Token<'b>]), ParseError>
    ensures { Gives (λ x. (x.0, x.1.now)) result (literal_at tokens.now) }
{
    match tokens {
        [first, rest @ ..] => match first {
            Token::Number(n) => Ok((Datum::Long(*n), rest)),
            _ => Err(ParseError::Form),
        },
        [] => Err(ParseError::Form),
    }
}

/// The name at the front, and what follows it.
pub fn take_name<'a, 'b>(
    alloc: Global,
    tokens: &'a [Token<'b>],
) -> Result<(Text, &'a [Token<'b>]), ParseError>
    ensures { Gives (λ x. (x.0, x.1.now)) result (name_at tokens.now) }
{
    match tokens {
        [first, rest @ ..] => match first {
            Token::Word(found) if is_name(found.as_slice()) => {
                Ok((text_of_name(alloc, found.as_slice())?, rest))
            }
            _ => Err(ParseError::Form),
        },
        [] => Err(ParseError::Form),
    }
}

/// Reading all of some tokens by a shape is the inverse of spelling a value of the shape.
pub fn shapes_are_spelled()
    ensures found { (s : Shape) (ts : List AToken) (v : Value s) → whole s ts ≡ Some v → Spells s ts v [] }
    ensures only { (s : Shape) (ts : List AToken) (v : Value s) → Spells s ts v [] → whole s ts ≡ Some v }
{}
