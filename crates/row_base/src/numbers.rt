//! Numbers in decimal. Nothing here takes memory.
ghost use Rattle.std.specs.Prelude.{◌≡◌};
ghost use Rattle.std.specs.List.{list_all};
ghost use Rattle.std.specs.Char.{is_ascii_digit};
ghost use Rattle.row_base.specs.Numbers as spec;

/// Whether each byte is a decimal digit in ASCII.
pub fn are_digits(text: &[u8]) -> bool
    ensures { result ≡ list_all is_ascii_digit text.now }
{
    text.iter().all(|byte| byte.is_ascii_digit())
}

/// The number that digits and one more write, where it has at most 64 bits.
fn with_digit(number: u64, digit: u8) -> Option<u64>
    ensures { result ≡ spec.with_digit number digit }
{
    if digit.is_ascii_digit() {
        number.checked_mul(10)?.checked_add((digit - b'0') as u64)
    } else {
        None
    }
}

/// The number that digits write behind those of another, where it has at most 64 bits.
#[tactic(auto, unfolding(crate::specs::Numbers::with_digits))]
fn with_digits(front: u64, digits: &[u8]) -> Option<u64>
    ensures { result ≡ spec.with_digits front digits.now }
{
    let mut number = front;
    for digit in digits {
        number = with_digit(number, *digit)?;
    }
    Some(number)
}

/// The number of 64 bits that digits write, one digit at least. Leading zeros are taken.
pub fn read_natural(text: &[u8]) -> Option<u64>
    ensures { result ≡ spec.natural_in text.now }
{
    if text.is_empty() {
        None
    } else {
        with_digits(0, text)
    }
}

/// The number of 64 bits that a text writes in decimal, without a sign and without a leading zero.
pub fn read_decimal(text: &[u8]) -> Option<u64>
    ensures { result ≡ spec.decimal_in text.now }
{
    if is_decimal(text) {
        read_natural(text)
    } else {
        None
    }
}

/// The number of 64 bits that a text writes in decimal, with a minus where there is one. Leading zeros are taken.
pub fn read_long(text: &[u8]) -> Option<i64>
    ensures { result ≡ spec.long_in text.now }
{
    if is_number(text) {
        match str::from_utf8(text) {
            Ok(text) => text.parse::<i64>().ok(),
            Err(_) => None,
        }
    } else {
        None
    }
}

fn is_digits(text: &[u8]) -> bool
    ensures { result ≡ spec.is_digits text.now }
{
    text.len() > 0 && are_digits(text)
}

fn is_decimal(text: &[u8]) -> bool
    ensures { result ≡ spec.is_decimal text.now }
{
    is_digits(text) && (text[0] != b'0' || text.len() == 1)
}

fn is_number(text: &[u8]) -> bool
    ensures { result ≡ spec.is_number text.now }
{
    if text.len() > 0 && text[0] == b'-' {
        is_digits(&text[1..])
    } else {
        is_digits(text)
    }
}
