//! Symbols.
ghost use Rattle.std.specs.Prelude.{◌≡◌, option_map};
ghost use Rattle.script_tokens.specs.Reading.{less_at, greater_at, single, symbol_at};

use crate::Symbol;

/// The symbol that begins with `<`, and what follows it.
fn less(behind: &[u8]) -> (Symbol, &[u8])
    ensures { (result.0, result.1.now) ≡ less_at behind.now }
{
    match behind {
        [] => (Symbol::Less, behind),
        [second, more @ ..] => {
            if *second == b'=' {
                (Symbol::AtMost, more)
            } else if *second == b'>' {
                (Symbol::NotEqual, more)
            } else {
                (Symbol::Less, behind)
            }
        }
    }
}

/// The symbol that begins with `>`, and what follows it.
fn greater(behind: &[u8]) -> (Symbol, &[u8])
    ensures { (result.0, result.1.now) ≡ greater_at behind.now }
{
    match behind {
        [] => (Symbol::Greater, behind),
        [second, more @ ..] => {
            if *second == b'=' {
                (Symbol::AtLeast, more)
            } else {
                (Symbol::Greater, behind)
            }
        }
    }
}

/// The symbol of one byte.
fn single(b: u8) -> Option<Symbol>
    ensures { result ≡ single b }
{
    match b {
        b'(' => Some(Symbol::Open),
        b')' => Some(Symbol::Close),
        b',' => Some(Symbol::Comma),
        b'=' => Some(Symbol::Equal),
        b'+' => Some(Symbol::Plus),
        b'-' => Some(Symbol::Minus),
        b'*' => Some(Symbol::Star),
        b'.' => Some(Symbol::Dot),
        _ => None,
    }
}

/// The longest symbol at the front, and what follows it.
#[tactic(auto, unfolding(crate::specs::Reading::symbol_at))]
pub fn symbol(bytes: &[u8]) -> Option<(Symbol, &[u8])>
    ensures { option_map (λ x. (x.0, x.1.now)) result ≡ symbol_at bytes.now }
{
    match bytes {
        [] => None,
        [first, rest @ ..] => {
            if *first == b'<' {
                return Some(less(rest));
            }
            if *first == b'>' {
                return Some(greater(rest));
            }
            match single(*first) {
                Some(symbol) => Some((symbol, rest)),
                None => None,
            }
        }
    }
}
