//! Texts that are cut at a byte.
ghost use Rattle.std.specs.Prelude.{◌≡◌, ◌==◌, ◌+◌, ◌<◌, ◌∷◌, [], length, take, drop, position, IfSome, IfNone};
ghost use Rattle.line_texts.specs.Pieces.{pieces};

fn place_of(byte: u8, text: &[u8]) -> Option<usize>
    ensures { result ≡ position (λ b. b == byte) text.now }
{
    text.iter().position(|b| *b == byte)
}

fn around(text: &[u8], at: usize) -> (&[u8], &[u8])
    requires { at < length text.now }
    ensures front { result.0.now ≡ take at text.now }
    ensures back { result.1.now ≡ drop (at + 1) text.now }
{
    let (front, tail) = text.split_at(at);
    (front, &tail[1..])
}

/// The first piece of a text and what follows it, where the byte stands in the text.
pub fn cut(byte: u8, text: &[u8]) -> Option<(&[u8], &[u8])>
    ensures some { IfSome result (λ parts. pieces byte text.now ≡ parts.0.now ∷ pieces byte parts.1.now) }
    ensures shorter { IfSome result (λ parts. length parts.1.now < length text.now) }
    ensures none { IfNone result (pieces byte text.now ≡ text.now ∷ []) }
{
    match place_of(byte, text) {
        Some(at) => Some(around(text, at)),
        None => None,
    }
}
