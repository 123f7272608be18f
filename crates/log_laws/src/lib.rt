//! What holds of tables that are replayed from a JSON log, and of commits that are written of plans: laws over the
//! definitions of the crates below. There is no code, so no edit could turn a body: wrong tables and plans would be clauses.
#![tactic(auto)]

ghost use Rattle.log_laws.specs.Example.{TableIsReplayed, InsertsAreMade};
ghost use Rattle.log_laws.specs.Replay.{ReplayAgrees, EachStepAgrees, EachCommitApplies, LiveAreOrdered, ListingAgrees};
ghost use Rattle.log_laws.specs.Versions.{VersionsAgree, StampsRise, EachPlanFits, SameTextIsOwn, EachVersionReads, InsertsRead};
ghost use Rattle.log_laws.specs.Written.{WrittenReads, MakingReads, InsertReads};

/// The table that commits leave says what they do: of each path the live file, the metadata, each application's number and
/// the stamp.
pub fn replay_agrees()
    ensures { ReplayAgrees }
{}

/// One more commit, and the table says what it does too.
pub fn each_step_agrees()
    ensures { EachStepAgrees }
{}

/// The same where commits are told by version: the table of the versions below one.
pub fn versions_agree()
    ensures { VersionsAgree }
{}

/// A table whose kept lists took in a commit line by line is what the whole commit makes of each thing.
pub fn each_commit_applies()
    ensures { EachCommitApplies }
{}

/// The live files of each version stand in byte order of path, each path once.
pub fn live_are_ordered()
    ensures { LiveAreOrdered }
{}

/// A table's live files, in byte order of path, are those of its version.
pub fn listing_agrees()
    ensures { ListingAgrees }
{}

/// The text that was written of a plan's whole actions reads as these, and so do those of a table's making and of an
/// insert, whose commits say the plan's files, protocol and metadata.
pub fn written_reads()
    ensures any { WrittenReads }
    ensures making { MakingReads }
    ensures insert { InsertReads }
{}

/// Where each version's commit has the stamp that the version before and a reading of the clock give, each stamp is above
/// all before it, and one for each version above the latest reading at most.
pub fn stamps_rise()
    ensures { StampsRise }
{}

/// A text that was written for a plan over versions that were planned reads as its actions, and its stamp is above all
/// before it, whether it came to stand or not.
pub fn each_plan_fits()
    ensures { EachPlanFits }
{}

/// Texts of two plans for one version that are the same are of one statement.
pub fn same_text_is_own()
    ensures { SameTextIsOwn }
{}

/// Each version's text reads as the actions of its plan, where each was planned over what the versions below say.
pub fn each_version_reads()
    ensures { EachVersionReads }
{}

/// The same where a table is made and rows are inserted from then on.
pub fn inserts_read()
    ensures { InsertsRead }
{}

/// An example of a table that is replayed.
pub fn table_is_replayed()
    ensures { TableIsReplayed }
{}

/// An example of texts that meet the premises: a table is made, and a file is appended.
pub fn inserts_are_made()
    ensures { InsertsAreMade }
{}
