//! Sets of truths.
ghost use Rattle.std.specs.Prelude.{◌≡◌};
ghost use Rattle.predicates.specs.Kleene.{kleene_not, kleene_and, kleene_or};
ghost use Rattle.prune.specs.Sets.{images, pairs};

/// The truths that a predicate may have: one of the eight sets.
#[derive(Clone, Copy, Debug, Drop, PartialEq, Eq)]
pub(crate) struct Possible {
    pub(crate) yes: bool,
    pub(crate) no: bool,
    pub(crate) unknown: bool,
}

impl Possible {
    /// Yes alone.
    pub(crate) const YES: Possible = Possible {
        yes: true,
        no: false,
        unknown: false,
    };
    /// No alone.
    pub(crate) const NO: Possible = Possible {
        yes: false,
        no: true,
        unknown: false,
    };
    /// Unknown alone.
    pub(crate) const UNKNOWN: Possible = Possible {
        yes: false,
        no: false,
        unknown: true,
    };
    /// No truth: what a file of no rows has.
    const NONE: Possible = Possible {
        yes: false,
        no: false,
        unknown: false,
    };

    /// What `not` makes of each.
    pub(crate) fn negated(self) -> Possible
        ensures { result ≡ images kleene_not self }
    {
        Possible {
            yes: self.no,
            no: self.yes,
            unknown: self.unknown,
        }
    }

    /// Whether no truth is possible.
    fn is_empty(self) -> bool
        ensures { result ≡ Rattle.prune.specs.Sets.is_empty self }
    {
        !(self.yes || self.no || self.unknown)
    }

    /// What `and` makes of each pair.
    pub(crate) fn and(self, other: Possible) -> Possible
        ensures { result ≡ pairs kleene_and self other }
    {
        if self.is_empty() || other.is_empty() {
            return Possible::NONE;
        }
        Possible {
            yes: self.yes && other.yes,
            no: self.no || other.no,
            unknown: (self.unknown && (other.yes || other.unknown)) || (self.yes && other.unknown),
        }
    }

    /// What `or` makes of each pair.
    pub(crate) fn or(self, other: Possible) -> Possible
        ensures { result ≡ pairs kleene_or self other }
    {
        if self.is_empty() || other.is_empty() {
            return Possible::NONE;
        }
        Possible {
            yes: self.yes || other.yes,
            no: self.no && other.no,
            unknown: (self.unknown && (other.no || other.unknown)) || (self.no && other.unknown),
        }
    }
}
