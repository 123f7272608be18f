//! The stamps that a commit can stand behind.
ghost use Rattle.std.specs.Prelude.{◌≡◌, ◌<◌, ◌-◌, ◌^◌};
ghost use Rattle.commit_plans.specs.Plans as spec;

use std::marker::Model;

/// The stamp of a version, in milliseconds since 1970, with a greater one of 64 bits.
#[derive(Clone, Copy, Debug, Drop)]
pub struct Stamp {
    time: u64,
}

impl Model for Stamp {
    ghost use Rattle.std.specs.Prelude.{◌<◌, ◌-◌, ◌^◌, ℕ};

    ghost Value = { ℕ };

    ghost view = { λ s. s.time };

    ghost inverse = { λ n. record { time = n } };

    ghost invariant = { λ s. s.time < 2 ^ 64 - 1 };
}

/// A stamp that none of 64 bits follows.
#[derive(Clone, Copy, Debug, Drop, PartialEq, Eq)]
pub struct LastStamp;

impl Stamp {
    /// The stamp of this time.
    pub fn new(time: u64) -> Stamp
        requires { time < 2 ^ 64 - 1 }
        ensures { result ≡ time }
    {
        Stamp { time }
    }

    /// Its time.
    pub fn time(self) -> u64
        ensures value { result ≡ self }
        ensures small { result < 2 ^ 64 - 1 }
    {
        self.time
    }
}

/// The stamp of a commit, by that of the version before and the reading of the clock.
pub(crate) fn next_stamp(last: Option<Stamp>, now: u64) -> u64
    ensures { result ≡ spec.next_stamp last now }
{
    match last {
        None => now,
        Some(last) => now.max(last.time() + 1),
    }
}
