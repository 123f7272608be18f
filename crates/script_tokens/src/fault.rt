//! Why bytes could not be read.
ghost use Rattle.std.specs.Prelude.{◌≡◌};
ghost use Rattle.script_tokens.specs.declared.fault.ParseError.TheVariants as errors;

use row_base::OutOfMemory;

/// Why bytes or tokens could not be read.
#[derive(Clone, Copy, Debug, Drop, PartialEq, Eq)]
pub enum ParseError {
    /// Memory ran out.
    NoMemory,
    /// They have no form of the grammar.
    Form,
}

impl<E: OutOfMemory> From<E> for ParseError {
    ghost from_gives = { λ _ e. e ≡ errors.NoMemory };

    fn from(_refused: E) -> ParseError {
        ParseError::NoMemory
    }
}
