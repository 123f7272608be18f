//! Laws over the names of a table.
ghost use Rattle.table_rules.specs.Told.{CommitsDiffer, CommitIsRead, CheckpointIsRead, OnlyCommitIsRead, OnlyCheckpointIsRead, CommitIsInLog, DataIsOutside, DataIsNoCommit, DataDiffer, DataIsGraphic, DataIsPath};

/// The name of a commit or a checkpoint tells its version, a data file's name is none of the log's, and it tells the
/// statement, the part and the start, modulo 2^48, of its data file. It has graphic characters of ASCII alone, and as a
/// path it is its own name.
pub fn names_are_told_apart()
    ensures commits_differ { CommitsDiffer }
    ensures commit_is_read { CommitIsRead }
    ensures checkpoint_is_read { CheckpointIsRead }
    ensures only_commit_is_read { OnlyCommitIsRead }
    ensures only_checkpoint_is_read { OnlyCheckpointIsRead }
    ensures commit_is_in_log { CommitIsInLog }
    ensures data_is_outside { DataIsOutside }
    ensures data_is_no_commit { DataIsNoCommit }
    ensures data_differ { DataDiffer }
    ensures data_is_graphic { DataIsGraphic }
    ensures data_is_path { DataIsPath }
{}
