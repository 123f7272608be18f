//! The stamps of commits.
ghost use Rattle.std.specs.Prelude.{◌≡◌, ◌<◌, ◌≤◌, ◌-◌, ◌^◌, IfSome, Some, option_copied};
ghost use Rattle.log_state.specs.Stamps as spec;

use log_actions::{Action, CommitInfo};

/// The greatest time that a commit can say of itself, in milliseconds since 1970.
pub const LAST_STAMP: u64 = 1 << 62;

/// What is said about a commit, where an action says it.
fn info_in(action: &Action) -> Option<&CommitInfo>
    ensures { option_copied result ≡ spec.info_in action.now }
{
    match action {
        Action::Info(info) => Some(info),
        _ => None,
    }
}

/// What the first such action says.
#[tactic(auto, unfolding(crate::specs::Stamps::first_info))]
fn first_info(actions: &[Action]) -> Option<&CommitInfo>
    ensures { option_copied result ≡ spec.first_info actions.now }
{
    for action in actions {
        if let Some(info) = info_in(action) {
            return Some(info);
        }
    }
    None
}

/// The time that a commit says of itself, in milliseconds since 1970, where it is at most `LAST_STAMP`: of several
/// actions that say something about the commit the first counts (PROTOCOL.md, "Commit Provenance Information").
#[tactic(auto, unfolding(crate::specs::Stamps::stamp_in))]
pub fn stamp_in(actions: &[Action]) -> Option<u64>
    ensures value { result ≡ spec.stamp_in actions.now }
    ensures small { IfSome result (λ s. s ≤ 2 ^ 62) }
{
    first_info(actions)?
        .timestamp
        .filter(|stamp| *stamp <= LAST_STAMP)
}

/// The stamp of a commit, by that of the version before and the time that it says of itself: this time, else one more
/// than the stamp before, or 0 where none is before.
pub fn stamp_after(last: Option<u64>, said: Option<u64>) -> u64
    requires { IfSome last (λ s. s < 2 ^ 64 - 1) }
    ensures { result ≡ spec.stamp_after last said }
{
    match (said, last) {
        (Some(stamp), _) => stamp,
        (None, None) => 0,
        (None, Some(last)) => last + 1,
    }
}
