//! Numbers in a fixed number of digits.
ghost use Rattle.std.specs.Prelude.{◌≡◌};
ghost use Rattle.table_rules.specs.Digits.{padded, number_in};

use row_base::numbers::read_natural;

/// The last `N` digits of a number.
pub(crate) fn padded_digits<const N: usize>(number: u64) -> [u8; N]
    ensures { result ≡ padded N number }
{
    let mut digits = [b'0'; N];
    let mut rest = number;
    let mut place = N;
    while place > 0 {
        place -= 1;
        digits[place] = b'0' + (rest % 10) as u8;
        rest /= 10;
    }
    digits
}

/// The number that so many digits write, where it has at most 64 bits.
pub(crate) fn number_of(count: usize, text: &[u8]) -> Option<u64>
    ensures { result ≡ number_in count text.now }
{
    if text.len() == count {
        read_natural(text)
    } else {
        None
    }
}
