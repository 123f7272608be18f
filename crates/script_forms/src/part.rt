//! Things of one sort with commas between them.
ghost use Rattle.std.specs.Prelude.{map};
ghost use Rattle.script_tokens.specs.Gives.{Gives};
ghost use Rattle.script_grammar.specs.Shape.{Shape, Value, read, listed};

use row_base::Items;
use script_grammar::find_comma;
use script_tokens::{ParseError, Token};
use std::alloc::Global;

/// What can stand in a list, with commas between one and the next.
pub trait Part: Drop {
    ghost shape: { Shape };

    ghost value: { Self → Value shape };

    /// The one at the front of the tokens, and what follows it.
    fn take<'a, 'b>(
        alloc: Global,
        tokens: &'a [Token<'b>],
    ) -> Result<(Self, &'a [Token<'b>]), ParseError>
        ensures { Gives (λ x. (value x.0, x.1.now)) result (read shape tokens.now) };
}

/// One or more, with commas between them, and what follows the last.
pub fn take_parts<'a, 'b, P: Part>(
    alloc: Global,
    tokens: &'a [Token<'b>],
) -> Result<(Items<P>, &'a [Token<'b>]), ParseError>
    ensures { Gives (λ x. (map P.value x.0, x.1.now)) result (read (listed P.shape) tokens.now) }
{
    let (first, mut rest) = P::take(alloc, tokens)?;
    let mut all = Vec::new(alloc);
    all.push(first)?;
    while let Some(tail) = find_comma(rest) {
        let (next, after) = P::take(alloc, tail)?;
        all.push(next)?;
        rest = after;
    }
    Ok((Items::from_vec(all), rest))
}
