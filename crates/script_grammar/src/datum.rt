//! Texts and literals of any kind at the front of some tokens.
ghost use Rattle.std.specs.Prelude.{◌≡◌, option_map};
ghost use Rattle.std.specs.Str.{bytes_eq};
ghost use Rattle.script_tokens.specs.Gives.{Gives};
ghost use Rattle.script_grammar.specs.Shape.{utf8_text, text_at, day_at, named_datum, datum_at, equal_at};

use row_base::{Datum, Text, read_date};
use script_tokens::{ParseError, Symbol, Token};
use std::alloc::Global;

/// The tokens behind a `=`. The error `Form` comes where none stands at the front.
pub fn take_equal<'a, 'b>(tokens: &'a [Token<'b>]) -> Result<&'a [Token<'b>], ParseError>
    ensures { Gives (λ r. r.now) result (equal_at tokens.now) }
{
    match tokens {
        [Token::Symbol(Symbol::Equal), rest @ ..] => Ok(rest),
        _ => Err(ParseError::Form),
    }
}

fn utf8_text(bytes: &[u8]) -> Option<&str>
    ensures { option_map (λ t. t.now) result ≡ utf8_text bytes.now }
{
    match str::from_utf8(bytes) {
        Ok(text) => Some(text),
        Err(_) => None,
    }
}

fn text_of(alloc: Global, bytes: &[u8]) -> Result<Text, ParseError>
    ensures { Gives (λ t. t) result (utf8_text bytes.now) }
{
    match utf8_text(bytes) {
        Some(text) => Ok(Text::make(alloc, text)?),
        None => Err(ParseError::Form),
    }
}

/// The text at the front, and what follows it.
pub fn take_text<'a, 'b>(
    alloc: Global,
    tokens: &'a [Token<'b>],
) -> Result<(Text, &'a [Token<'b>]), ParseError>
    ensures { Gives (λ x. (x.0, x.1.now)) result (text_at tokens.now) }
{
    match tokens {
        [first, rest @ ..] => match first {
            Token::Text(found) => Ok((text_of(alloc, found.as_slice())?, rest)),
            _ => Err(ParseError::Form),
        },
        [] => Err(ParseError::Form),
    }
}

/// The day whose text stands at the front, and what follows it.
fn take_day<'a, 'b>(
    alloc: Global,
    tokens: &'a [Token<'b>],
) -> Result<(Datum, &'a [Token<'b>]), ParseError>
    ensures { Gives (λ x. (x.0, x.1.now)) result (day_at tokens.now) }
{
    let (text, rest) = take_text(alloc, tokens)?;
    match read_date(&text) {
        Some(day) => Ok((Datum::Date(day), rest)),
        None => Err(ParseError::Form),
    }
}

fn is_word(word: &[u8], wanted: &[u8]) -> bool
    ensures { result ≡ bytes_eq word.now wanted.now }
{
    word == wanted
}

/// The literal that begins with a word, and what follows it.
fn named_datum<'a, 'b>(
    alloc: Global,
    word: &[u8],
    behind: &'a [Token<'b>],
) -> Result<(Datum, &'a [Token<'b>]), ParseError>
    ensures { Gives (λ x. (x.0, x.1.now)) result (named_datum word.now behind.now) }
{
    if is_word(word, b"null") {
        Ok((Datum::Null, behind))
    } else if is_word(word, b"true") {
        Ok((Datum::Boolean(true), behind))
    } else if is_word(word, b"false") {
        Ok((Datum::Boolean(false), behind))
    } else if is_word(word, b"date") {
        take_day(alloc, behind)
    } else {
        Err(ParseError::Form)
    }
}

/// The literal at the front, and what follows it: a number, `true`, `false`, `null`, a text, or `date` and a text as
/// yyyy-MM-dd.
pub fn take_datum<'a, 'b>(
    alloc: Global,
    tokens: &'a [Token<'b>],
) -> Result<(Datum, &'a [Token<'b>]), ParseError>
    ensures { Gives (λ x. (x.0, x.1.now)) result (datum_at tokens.now) }
{
    match tokens {
        [first, rest @ ..] => match first {
            Token::Number(number) => Ok((Datum::Long(*number), rest)),
            Token::Text(found) => Ok((Datum::Text(text_of(alloc, found.as_slice())?), rest)),
            Token::Word(word) => named_datum(alloc, word.as_slice(), rest),
            Token::Symbol(_) => Err(ParseError::Form),
        },
        [] => Err(ParseError::Form),
    }
}
