//! Deletes, updates, insert selects and merges as operations of the law of changes: what is made of files is what the
//! operation of the statement gives, and each of these operations is sound.
#![tactic(auto)]

ghost use Rattle.change_laws.specs.Laws.{EachChangeIsSound, EachMergeIsSound, EachChangeGives, EachMergeGives, EachTouchedFileIsTaken, EachMergedFileIsTaken, EachScopeIsNamed};

/// The operation of each delete, update and insert select is sound.
pub fn each_change_is_sound()
    ensures { EachChangeIsSound }
{}

/// The operation of each merge is sound.
pub fn each_merge_is_sound()
    ensures { EachMergeIsSound }
{}

/// What a delete, an update or an insert select makes of the rows of a file is what its operation makes of the bag of
/// them: those outside the scope, and what it gives for those of the scope. There is a fault exactly where it isn't
/// defined.
pub fn each_change_gives()
    ensures { EachChangeGives }
{}

/// What a merge makes of the rows of files is what its operation makes of the bag of them. There is a fault exactly where
/// it isn't defined.
pub fn each_merge_gives()
    ensures { EachMergeGives }
{}

/// Of the files that may have rows of the scope, a change takes out those that it touches.
pub fn each_touched_file_is_taken()
    ensures { EachTouchedFileIsTaken }
{}

/// Of the files that may have rows of the scope, a merge takes out those that it touches.
pub fn each_merged_file_is_taken()
    ensures { EachMergedFileIsTaken }
{}

/// The predicate of a merge's scope is `Yes` for the rows that a row of the source matches, and for those for which the
/// predicate of the others is.
pub fn each_scope_is_named()
    ensures { EachScopeIsNamed }
{}
