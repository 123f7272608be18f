//! What holds of deletes, updates and insert selects, over lists of rows.
ghost use Rattle.dml_ops.specs.Laws.{FilesAreOperated, BagsAreRespected, ScopeDecides, FilesAddUp, UntouchedRowsStay};

/// The rows of a file after a change, with those that are added, are what the operation makes of the bag of the file's
/// rows; a fault is that of the least row of which nothing comes.
pub fn files_are_operated()
    ensures { FilesAreOperated }
{}

/// An operation makes the same bag of the same bag, or refuses it with the same fault.
pub fn bags_are_respected()
    ensures { BagsAreRespected }
{}

/// What comes in the place of the scope's rows is decided by these rows alone.
pub fn scope_decides()
    ensures { ScopeDecides }
{}

/// What an operation makes of the rows of several files is what it makes of each; of faults that of the least row
/// counts.
pub fn files_add_up()
    ensures { FilesAddUp }
{}

/// A file that is not touched keeps its rows.
pub fn untouched_rows_stay()
    ensures { UntouchedRowsStay }
{}
