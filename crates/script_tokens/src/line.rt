//! The tokens of a line.
ghost use Rattle.std.specs.Prelude.{◌≡◌, ◌<◌, ◌≤◌, List, ℕ, Some, None, IfOk, Err, Bool, length, option_map};
ghost use Rattle.std.specs.List.{prefix_len};
ghost use Rattle.script_tokens.specs.Words.{begins_digit, is_word_byte};
ghost use Rattle.script_tokens.specs.Tokens.{is_sign, SpellsLine};
ghost use Rattle.script_tokens.specs.Gives.{Gives};
ghost use Rattle.script_tokens.specs.Reading.{word_at, text_at, symbol_token_at, token_at, lex, line_tokens, put_some, value_after, starts_space};
ghost use Rattle.script_tokens.specs.declared.token.Token.{Token as AToken};

use crate::number::{negative, number};
use crate::symbol::symbol;
use crate::text::text;
use crate::token::ends_value;
use crate::word::{is_boundary, is_letter, word_run};
use crate::{ParseError, Token, Word};
use std::alloc::Global;

const WORD_LIMIT: usize = 64;

/// The word at the front.
#[tactic(auto, unfolding(crate::specs::Reading::word_at))]
fn word(bytes: &[u8]) -> Result<(Token<'_>, &[u8]), ParseError>
    ensures { Gives (λ x. (x.0, x.1.now)) result (word_at bytes.now) }
{
    let len = word_run(bytes);
    let (word, rest) = bytes.split_at(len);
    if len > WORD_LIMIT || !is_boundary(rest) {
        return Err(ParseError::Form);
    }
    Ok((Token::Word(Word::new(word)), rest))
}

/// The text behind an opening quote.
#[tactic(auto, unfolding(crate::specs::Reading::text_at))]
fn quoted(alloc: Global, bytes: &[u8]) -> Result<(Token<'_>, &[u8]), ParseError>
    ensures { Gives (λ x. (x.0, x.1.now)) result (text_at bytes.now) }
{
    let (text, rest) = text(alloc, bytes)?;
    if !is_boundary(rest) {
        return Err(ParseError::Form);
    }
    Ok((Token::Text(text), rest))
}

/// The symbol at the front as a token.
fn symbol_token(bytes: &[u8]) -> Result<(Token<'_>, &[u8]), ParseError>
    ensures { Gives (λ x. (x.0, x.1.now)) result (symbol_token_at bytes.now) }
{
    match symbol(bytes) {
        Some((symbol, rest)) => Ok((Token::Symbol(symbol), rest)),
        None => Err(ParseError::Form),
    }
}

fn is_sign(value: bool, behind: &[u8]) -> bool
    ensures { result ≡ is_sign value behind.now }
{
    match behind {
        [] => false,
        [b, ..] => !value && b.is_ascii_digit(),
    }
}

/// The token at the front, and what follows it. `value` says whether a value stands before it.
#[tactic(auto, unfolding(crate::specs::Reading::token_at))]
fn token(alloc: Global, value: bool, bytes: &[u8]) -> Result<(Token<'_>, &[u8]), ParseError>
    ensures { Gives (λ x. (x.0, x.1.now)) result (token_at value bytes.now) }
{
    match bytes {
        [] => Err(ParseError::Form),
        [first, rest @ ..] => {
            if is_letter(*first) {
                word(bytes)
            } else if first.is_ascii_digit() {
                number(bytes)
            } else if *first == b'\'' {
                quoted(alloc, rest)
            } else if *first == b'-' && is_sign(value, rest) {
                negative(bytes)
            } else {
                symbol_token(bytes)
            }
        }
    }
}

/// Whether a space stands at the front.
pub fn starts_space(bytes: &[u8]) -> bool
    ensures { result ≡ starts_space bytes.now }
{
    match bytes {
        [] => false,
        [b, ..] => *b == b' ',
    }
}

/// One step: a space, or a token.
fn next(alloc: Global, value: bool, bytes: &[u8]) -> Result<(Option<Token<'_>>, &[u8]), ParseError>
    requires { 0 < length bytes.now }
    ensures ok { IfOk result (λ x. lex value 0 bytes.now ≡ put_some x.0 (lex (value_after value x.0) 0 x.1.now)) }
    ensures less { IfOk result (λ x. length x.1.now < length bytes.now) }
    ensures err { result ≡ Err ParseError.Form → lex value 0 bytes.now ≡ None }
{
    if starts_space(bytes) {
        let (_, after) = bytes.split_at(1);
        return Ok((None, after));
    }
    match token(alloc, value, bytes) {
        Ok((token, after)) => Ok((Some(token), after)),
        Err(error) => Err(error),
    }
}

/// The tokens that the line spells. The error `Form` comes where it spells none.
pub fn tokens_of(alloc: Global, line: &[u8]) -> Result<Vec<Token<'_>>, ParseError>
    ensures { Gives (λ v. v.items) result (line_tokens line.now) }
{
    let mut all = Vec::new(alloc);
    let mut value = false;
    let mut rest = line;
    while !rest.is_empty() {
        let (found, after) = next(alloc, value, rest)?;
        if let Some(token) = found {
            value = ends_value(&token);
            all.push(token)?;
        }
        rest = after;
    }
    Ok(all)
}

/// Cutting a line into tokens is the inverse of spelling them.
pub fn tokens_are_spelled()
    ensures found { (line : List ℕ) (ts : List AToken) → line_tokens line ≡ Some ts → SpellsLine ts line }
    ensures only { (line : List ℕ) (ts : List AToken) → SpellsLine ts line → line_tokens line ≡ Some ts }
{}
