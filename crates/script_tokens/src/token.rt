//! Tokens.
ghost use Rattle.std.specs.Prelude.{◌≡◌};
ghost use Rattle.script_tokens.specs.Words.{ends_value};

use crate::word::{is_constant, is_reserved};
use row_base::Items;
use std::marker::Model;

/// The bytes of a word, where they stand in the line, seen as their list.
#[derive(Debug, Drop)]
pub struct Word<'a> {
    bytes: &'a [u8],
}

impl<'a> Model for Word<'a> {
    ghost use Rattle.std.specs.Prelude.{List, ℕ};

    ghost Value = { List ℕ };

    ghost view = { λ w. w.bytes.now };
}

impl<'a> Word<'a> {
    /// The word of these bytes.
    pub fn new(bytes: &'a [u8]) -> Word<'a>
        ensures { result ≡ bytes.now }
    {
        Word { bytes }
    }

    /// The bytes.
    pub fn as_slice(&self) -> &[u8]
        ensures { result.now ≡ self.now }
    {
        self.bytes
    }
}

/// A symbol of the grammar.
#[derive(Clone, Copy, Debug, Drop, PartialEq, Eq)]
pub enum Symbol {
    /// `(`
    Open,
    /// `)`
    Close,
    /// `,`
    Comma,
    /// `=`
    Equal,
    /// `<>`
    NotEqual,
    /// `<`
    Less,
    /// `<=`
    AtMost,
    /// `>`
    Greater,
    /// `>=`
    AtLeast,
    /// `+`
    Plus,
    /// `-`
    Minus,
    /// `*`
    Star,
    /// `.`
    Dot,
}

/// A token of a line.
#[derive(Debug, Drop)]
pub enum Token<'a> {
    /// A word of the grammar, or a name.
    Word(Word<'a>),
    /// A number with its sign.
    Number(i64),
    /// A text, with its escapes undone.
    Text(Items<u8>),
    /// A symbol.
    Symbol(Symbol),
}

/// Whether a `-` behind this token is the symbol, and never a number's sign.
pub fn ends_value(token: &Token<'_>) -> bool
    ensures { result ≡ ends_value token.now }
{
    match token {
        Token::Word(word) => is_constant(word.as_slice()) || !is_reserved(word.as_slice()),
        Token::Number(_) => true,
        Token::Text(_) => true,
        Token::Symbol(symbol) => matches!(symbol, Symbol::Close),
    }
}
