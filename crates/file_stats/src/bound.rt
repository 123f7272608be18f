//! The two bounds of a column.
ghost use Rattle.std.specs.Prelude.{◌≡◌, option_map};
ghost use Rattle.file_stats.specs.Columns as spec;

use row_base::Datum;
use std::cmp::Ordering;

/// A bound of the values of a column.
#[derive(Clone, Copy, Debug, Drop, PartialEq, Eq)]
pub(crate) enum Bound {
    Least,
    Greatest,
}

impl Bound {
    /// Whether a value that stands so to another is a bound of it.
    fn bounds(self, order: Ordering) -> bool
        ensures { result ≡ spec.bounds self order }
    {
        match self {
            Bound::Least => order.is_le(),
            Bound::Greatest => order.is_ge(),
        }
    }

    /// Of two values, where there are two, the one that is a bound of the other.
    pub(crate) fn outer<'a>(
        self,
        value: Option<&'a Datum>,
        other: Option<&'a Datum>,
    ) -> Option<&'a Datum>
        ensures { option_map (λ d. d.now) result
            ≡ spec.outer self (option_map (λ d. d.now) value.entry) (option_map (λ d. d.now) other.entry) }
    {
        match value {
            Some(value) => match other {
                Some(other) => {
                    if self.bounds(value.cmp(other)) {
                        Some(value)
                    } else {
                        Some(other)
                    }
                }
                None => Some(value),
            },
            None => other,
        }
    }
}
