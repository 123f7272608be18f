//! What holds of merges, over lists of rows.
ghost use Rattle.merge_op.specs.Operations.{BagsAreMerged, MergeIsOperated, ScopeIsMerged};

/// The rows of the files that are not removed, and those that come in the place of the removed ones, are what the merge
/// makes of the bag of all rows.
pub fn merge_is_operated()
    ensures { MergeIsOperated }
{}

/// A merge makes the same bag of the same bag, or refuses it with the same fault.
pub fn bags_are_merged()
    ensures { BagsAreMerged }
{}

/// What comes in the place of the scope's rows is decided by these rows alone.
pub fn scope_is_merged()
    ensures { ScopeIsMerged }
{}
