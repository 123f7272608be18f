//! What statistics may be relied on for.
ghost use Rattle.file_stats.specs.Laws.{StatsAreTrue, KeptStatsAreTrue, BoundsAreOfTheirKind};

/// The statistics of rows are true of them.
pub fn stats_are_true()
    ensures { StatsAreTrue }
{}

/// What is written of true statistics is true: a text that is cut is still at most each value, and none that is cut is
/// written as a greatest value.
pub fn kept_stats_are_true()
    ensures { KeptStatsAreTrue }
{}

/// A bound that is read is a value of its column's kind.
pub fn bounds_are_of_their_kind()
    ensures { BoundsAreOfTheirKind }
{}
