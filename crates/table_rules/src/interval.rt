//! Intervals of time.
ghost use Rattle.std.specs.Prelude.{◌≡◌, ◌==◌, ℕ, IfSome, IfNone};
ghost use Rattle.std.specs.List.{before_first, after_first};
ghost use Rattle.table_rules.specs.Intervals as spec;

use row_base::Text;
use row_base::limits::MAX_WAIT;
use row_base::numbers::read_decimal;

#[tactic(auto, unfolding(crate::specs::Intervals::unit_in))]
fn unit_in(name: &str) -> Option<u64>
    ensures { result ≡ spec.unit_in name.now }
{
    match name {
        "millisecond" | "milliseconds" => Some(1),
        "second" | "seconds" => Some(1000),
        "minute" | "minutes" => Some(60_000),
        "hour" | "hours" => Some(3_600_000),
        "day" | "days" => Some(86_400_000),
        "week" | "weeks" => Some(604_800_000),
        _ => None,
    }
}

fn scaled(number: u64, unit: u64) -> Option<u64>
    ensures { result ≡ spec.scaled number unit }
{
    match number.checked_mul(unit) {
        Some(interval) if interval <= MAX_WAIT => Some(interval),
        _ => None,
    }
}

fn around_space(text: &str) -> (&str, &str)
    ensures front { result.0.now ≡ before_first (λ b. b == 32) text.now }
    ensures back { result.1.now ≡ after_first (λ b. b == 32) text.now }
{
    match text.split_once(' ') {
        Some(parts) => parts,
        None => (text, ""),
    }
}

#[tactic(auto, unfolding(crate::specs::Intervals::amount_in))]
fn amount_in(text: &str) -> Option<u64>
    ensures { result ≡ spec.amount_in text.now }
{
    let (number, unit) = around_space(text);
    scaled(read_decimal(number.as_bytes())?, unit_in(unit)?)
}

#[tactic(auto, unfolding(crate::specs::Intervals::interval_in))]
fn interval_in(text: &str) -> Option<u64>
    ensures { result ≡ spec.interval_in text.now }
{
    let (word, amount) = around_space(text);
    if word == "interval" {
        amount_in(amount)
    } else {
        None
    }
}

/// The milliseconds of the interval that a text names: the word `interval`, a number in decimal without a sign and
/// without a leading zero, and `millisecond`, `second`, `minute`, `hour`, `day` or `week` with an `s` or without, with
/// one space between them, at most `MAX_WAIT`; `None` for any other text. Takes no memory.
pub fn read_interval(text: &Text) -> Option<u64>
    ensures value { result ≡ spec.interval_in text.now }
    ensures found { IfSome result (spec.IsInterval text.now) }
    ensures none { IfNone result ((n : ℕ) → ¬ (spec.IsInterval text.now n)) }
{
    interval_in(text.as_str())
}
