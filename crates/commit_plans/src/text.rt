//! The texts of commits.
ghost use Rattle.std.specs.Prelude.{◌≡◌, MatchResult};
ghost use Rattle.commit_plans.specs.Texts.{Writes, HasNoText};

use edge_api::Body;
use log_actions::{Action, write_commit};
use row_base::limits::MAX_OBJECT_BYTES;
use std::alloc::Global;

/// Why there is no text of a commit.
#[derive(Clone, Copy, Debug, Drop, PartialEq, Eq)]
pub enum TextFault {
    /// It would have so many bytes, more than `MAX_OBJECT_BYTES`.
    TooLarge { bytes: u64 },
    /// Memory ran out.
    NoMemory,
}

/// The text of a commit with these actions.
pub(crate) fn text_of(alloc: Global, actions: &[Action]) -> Result<Body, TextFault>
    ensures { MatchResult result (λ text. Writes text actions.now) (λ f. HasNoText f actions.now) }
{
    let Ok(text) = write_commit(alloc, actions) else {
        return Err(TextFault::NoMemory);
    };
    if text.len() > MAX_OBJECT_BYTES {
        return Err(TextFault::TooLarge {
            bytes: text.len() as u64,
        });
    }
    Body::make(alloc, text).or(Err(TextFault::NoMemory))
}
