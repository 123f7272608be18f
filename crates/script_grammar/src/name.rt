//! Names.
ghost use Rattle.std.specs.Prelude.{◌≡◌, IfOk, IfErr, true};
ghost use Rattle.script_tokens.specs.Tokens.{begins_letter};
ghost use Rattle.script_grammar.specs.Names.{is_name};

use row_base::Text;
use script_tokens::{ParseError, is_letter, is_reserved, word_run};
use std::alloc::Global;

const NAME_LIMIT: usize = 64;

fn begins_letter(word: &[u8]) -> bool
    ensures { result ≡ begins_letter word.now }
{
    match word {
        [] => false,
        [b, ..] => is_letter(*b),
    }
}

/// Whether the bytes are a name: a letter or `_`, then letters, digits and `_`, at most 64 bytes, and no word of the
/// grammar.
pub fn is_name(word: &[u8]) -> bool
    ensures { result ≡ is_name word.now }
{
    begins_letter(word)
        && word_run(word) == word.len()
        && word.len() <= NAME_LIMIT
        && !is_reserved(word)
}

/// A name as a text. The error is want of memory.
pub fn text_of_name(alloc: Global, name: &[u8]) -> Result<Text, ParseError>
    requires { is_name name.now ≡ true }
    ensures ok { IfOk result (λ t. t ≡ name.now) }
    ensures err { IfErr result (λ e. e ≡ ParseError.NoMemory) }
{
    match str::from_utf8(name) {
        Ok(text) => Ok(Text::make(alloc, text)?),
        Err(_) => Err(ParseError::Form),
    }
}
