//! Which files are live.
ghost use Rattle.snapshot_replay.specs.Newest.{NewestDecides};

/// A path is live exactly where the newest action that names it adds it, as the file of that action, and live files
/// stand once each in byte order of their paths (PROTOCOL.md, "Action Reconciliation").
pub fn newest_action_decides()
    ensures { NewestDecides }
{}
