//! Numbers in decimal.
ghost use Rattle.std.specs.Prelude.{◌≡◌};
ghost use Rattle.std.specs.List.{list_all};
ghost use Rattle.std.specs.Char.{is_ascii_digit};
ghost use Rattle.line_texts.specs.Numbers as spec;

fn are_digits(text: &[u8]) -> bool
    ensures { result ≡ list_all is_ascii_digit text.now }
{
    text.iter().all(|b| b.is_ascii_digit())
}

fn is_plain(digits: &[u8]) -> bool
    ensures { result ≡ spec.is_plain digits.now }
{
    digits.len() > 0 && are_digits(digits) && (digits[0] != b'0' || digits.len() == 1)
}

fn is_spelling(text: &[u8]) -> bool
    ensures { result ≡ spec.is_spelling text.now }
{
    if text.len() > 0 && text[0] == b'-' {
        is_plain(&text[1..]) && text[1] != b'0'
    } else {
        is_plain(text)
    }
}

/// The number of 64 bits that is spelled so.
pub fn long_of(text: &[u8]) -> Option<i64>
    ensures { result ≡ spec.long_of_text text.now }
{
    if is_spelling(text) {
        match str::from_utf8(text) {
            Ok(text) => text.parse::<i64>().ok(),
            Err(_) => None,
        }
    } else {
        None
    }
}
