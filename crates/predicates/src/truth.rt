//! Kleene's three truths, and what the connectives make of them.
ghost use Rattle.std.specs.Prelude.{◌≡◌};
ghost use Rattle.predicates.specs.Kleene.{kleene_not, kleene_and, kleene_or};

/// What a row makes of a predicate.
#[derive(Clone, Copy, Debug, Drop, PartialEq, Eq)]
pub enum Truth {
    Yes,
    No,
    /// Neither is known, since a value is null.
    Unknown,
}

impl Truth {
    /// What `not` makes of it.
    pub fn negated(self) -> Truth
        ensures { result ≡ kleene_not self }
    {
        match self {
            Truth::Yes => Truth::No,
            Truth::No => Truth::Yes,
            Truth::Unknown => Truth::Unknown,
        }
    }

    /// What `and` makes of two: `No` where one is, `Yes` where both are.
    pub fn and(self, other: Truth) -> Truth
        ensures { result ≡ kleene_and self other }
    {
        match self {
            Truth::No => Truth::No,
            Truth::Yes => other,
            Truth::Unknown => match other {
                Truth::No => Truth::No,
                Truth::Yes | Truth::Unknown => Truth::Unknown,
            },
        }
    }

    /// What `or` makes of two: `Yes` where one is, `No` where both are.
    pub fn or(self, other: Truth) -> Truth
        ensures { result ≡ kleene_or self other }
    {
        match self {
            Truth::Yes => Truth::Yes,
            Truth::No => other,
            Truth::Unknown => match other {
                Truth::Yes => Truth::Yes,
                Truth::No | Truth::Unknown => Truth::Unknown,
            },
        }
    }
}
