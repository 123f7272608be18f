//! Tokens of a script's line: words, numbers, texts in quotes and symbols.
#![tactic(auto)]

mod fault;
mod line;
mod number;
mod symbol;
mod text;
mod token;
mod word;

pub use fault::ParseError;
pub use line::{starts_space, tokens_are_spelled, tokens_of};
pub use text::inside_is_spelled;
pub use token::{Symbol, Token, Word};
pub use word::{is_constant, is_letter, is_reserved, is_word_byte, word_run};
