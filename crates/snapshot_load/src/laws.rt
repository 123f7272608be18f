//! What holds of every load.
ghost use Rattle.snapshot_load.specs.Laws.{LoadsAreReplays};

/// A load that ends with a table gives that of the newest listed version: the table of all its commits from version 0
/// on. They are those whose bodies were got, in order of version, behind those that had made the kept table where the
/// load began with it. A kept table is that of some commits from version 0 on.
pub fn loads_are_replays()
    ensures { LoadsAreReplays }
{}
