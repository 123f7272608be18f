//! Calendar dates as texts and as numbers of days.
ghost use Rattle.std.specs.Prelude.{◌≡◌, ◌<◌, ℤ, length, pos, if◌then◌else◌, List, ℕ, Some, None, IfOk, IfSome, IfNone};
ghost use Rattle.std.specs.Str.{IsAscii};
ghost use Rattle.jiff_core.specs.Calendar.{days_from_civil};
ghost use Rattle.jiff_core.specs.Date.{epoch_day};
ghost use Rattle.row_base.specs.Dates.{IsDayNumber, IsDateText, is_day, digit_of, two_digits, date_text, named_day, date_in, text_of_day};

use crate::{NoMemory, Text};
use jiff_core::civil::Date;
use std::alloc::Global;
use std::str;

/// The bytes of a date's text.
const DATE_LEN: usize = 10;

/// The number of days since 1970-01-01 of the day that a text names as yyyy-MM-dd (ISO 8601), from
/// 0001-01-01 to 9999-12-31; `None` for any other text. It takes no memory.
pub fn read_date(text: &Text) -> Option<i32>
    ensures value { result ≡ date_in text.now }
    ensures found { IfSome result (IsDateText text.now) }
    ensures none { IfNone result ((n : ℤ) → ¬ (IsDateText text.now n)) }
{
    let bytes = text.as_str().as_bytes();
    if bytes.len() != DATE_LEN {
        return None;
    }
    day_in(bytes)
}

/// The text yyyy-MM-dd of the day that has this number.
pub fn write_date(alloc: Global, day: i32) -> Result<Text, NoMemory>
    requires { IsDayNumber day }
    ensures text { IfOk result (λ t. t ≡ text_of_day day) }
    ensures date { IfOk result (λ t. IsDateText t day) }
    ensures back { IfOk result (λ t. date_in t ≡ Some day) }
{
    ascii_text(alloc, &day_bytes(day))
}

/// Each text that names a day is the text of the day's number, and each number of a day is read from its
/// text.
pub fn dates_give_back()
    ensures texts { (bytes : List ℕ) (n : ℤ) → date_in bytes ≡ Some n → text_of_day n ≡ bytes }
    ensures numbers { (n : ℤ) → IsDayNumber n → date_in (text_of_day n) ≡ Some n }
{}

/// The day that ten bytes name.
#[tactic(auto, unfolding(crate::specs::Dates::date_in))]
fn day_in(bytes: &[u8]) -> Option<i32>
    requires { length bytes.now ≡ 10 }
    ensures { result ≡ date_in bytes.now }
{
    let year = 100 * two_digit_number(bytes[0], bytes[1]) + two_digit_number(bytes[2], bytes[3]);
    let month = two_digit_number(bytes[5], bytes[6]);
    let day = two_digit_number(bytes[8], bytes[9]);
    day_named(bytes, year, month, day)
}

/// The number that two digits make.
fn two_digit_number(tens: u8, ones: u8) -> u32
    ensures value { result ≡ two_digits tens ones }
    ensures bound { result < 10000 }
{
    10 * u32::from(tens.saturating_sub(b'0')) + u32::from(ones.saturating_sub(b'0'))
}

/// The number of a day, where these bytes are its text.
#[tactic(auto, unfolding(crate::specs::Dates::named_day))]
fn day_named(bytes: &[u8], year: u32, month: u32, day: u32) -> Option<i32>
    ensures { result ≡ named_day bytes.now year month day }
{
    match day_number(year, month, day) {
        Some(number) if bytes == date_bytes(year, month, day).as_slice() => Some(number),
        _ => None,
    }
}

/// The number of a day, where the calendar has it.
fn day_number(year: u32, month: u32, day: u32) -> Option<i32>
    ensures { result ≡ (if is_day year month day then Some (days_from_civil (pos year) month day) else None) }
{
    if year == 0 || 9999 < year || 12 < month || 31 < day {
        return None;
    }
    match Date::new(year as i16, month as i8, day as i8) {
        Ok(date) => Some(date.to_unix_epoch_day()),
        Err(_) => None,
    }
}

/// The text of the day that has this number.
fn day_bytes(day: i32) -> [u8; 10]
    requires { IsDayNumber day }
    ensures value { result ≡ text_of_day day }
    ensures ascii { IsAscii result }
{
    let date = Date::from_unix_epoch_day(i64::from(day)).unwrap();
    civil_bytes(date)
}

/// The text of a date from 0001-01-01 on.
fn civil_bytes(date: Date) -> [u8; 10]
    requires { IsDayNumber (epoch_day date) }
    ensures value { result ≡ text_of_day (epoch_day date) }
    ensures ascii { IsAscii result }
{
    let year = u32::from(date.year.unsigned_abs());
    date_bytes(year, u32::from(date.month), u32::from(date.day))
}

/// The text of a day.
fn date_bytes(year: u32, month: u32, day: u32) -> [u8; 10]
    ensures { result ≡ date_text year month day }
{
    [
        digit(year / 1000),
        digit(year / 100),
        digit(year / 10),
        digit(year),
        b'-',
        digit(month / 10),
        digit(month),
        b'-',
        digit(day / 10),
        digit(day),
    ]
}

/// The last decimal digit of a number.
fn digit(number: u32) -> u8
    ensures { result ≡ digit_of number }
{
    b'0' + (number % 10) as u8
}

/// The text of these bytes.
fn ascii_text(alloc: Global, bytes: &[u8]) -> Result<Text, NoMemory>
    requires { IsAscii bytes.now }
    ensures { IfOk result (λ t. t ≡ bytes.now) }
{
    match str::from_utf8(bytes) {
        Ok(text) => Text::make(alloc, text),
        Err(_) => unreachable!(),
    }
}
