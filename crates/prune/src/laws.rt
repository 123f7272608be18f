//! What passing a file over may rest on.
ghost use Rattle.prune.specs.Laws.{EachTruthIsPossible, NoRowIsLost, FactsHold};

/// Where a file's facts hold of its rows, each row's truth is one of the possible ones; so where a file may not match, no
/// row of it is `Yes`.
pub fn no_row_is_lost()
    ensures possible { EachTruthIsPossible }
    ensures lost { NoRowIsLost }
{}

/// Where a file's statistics and partition values are true of its rows, its facts hold of each of them.
pub fn facts_hold()
    ensures { FactsHold }
{}
