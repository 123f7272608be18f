//! What a statement is told.
ghost use Rattle.std.specs.Prelude.{◌<◌, ◌≤◌};
ghost use Rattle.row_base.specs.declared.limits.TheConstants.{MAX_ATTEMPTS};

use edge_api::Tag;
use std::alloc::Global;

/// Where memory comes from, the statement's tag, and how many attempts its commit may make.
#[derive(Clone, Copy, Drop)]
pub struct Plan {
    pub alloc: Global,
    pub tag: Tag,
    pub limit: u32,
    pub ghost some: { 0 < limit },
    pub ghost few: { limit ≤ MAX_ATTEMPTS },
}
