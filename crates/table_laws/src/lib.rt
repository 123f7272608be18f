//! What holds of every journal in which each statement's entries are answered.
#![tactic(auto)]

ghost use Rattle.table_laws.specs.Lawful.{EachRunIsLawful};
ghost use Rattle.table_laws.specs.Operations.{EachOperationIsSound};
ghost use Rattle.table_laws.specs.ViewsMean.{ViewsMean};

/// Every legal completion of a run's journal is lawful, whatever the schedule and whatever the store loses. Each version
/// is the one before with one statement's operation done; commits and files read, and a commit's files are put before it;
/// each commit's put wins, loses or fails at its own moment; replies say what was made, committed and read.
pub fn each_run_is_lawful()
    ensures { EachRunIsLawful }
{}

/// The operation of each statement is sound, whatever the table's schema is.
pub fn each_operation_is_sound()
    ensures { EachOperationIsSound }
{}

/// Of short journals, each law of what a statement sees, and that files come first, holds of one and is refuted by another.
pub fn views_mean()
    ensures { ViewsMean }
{}
