//! What a statement is told, and what it knows of numbers.
ghost use Rattle.std.specs.Prelude.{◌≡◌, ◌<◌, ◌≤◌, nat_lt, false, IfSome, None};
ghost use Rattle.row_base.specs.declared.limits.TheConstants.{MAX_ATTEMPTS};
ghost use Rattle.statement_calls.specs.Bounds.{version_limit};

use edge_api::Tag;
use row_base::limits::VERSION_LIMIT;
use std::alloc::Global;

/// Where memory comes from, the statement's tag, and how many attempts its commit may make.
#[derive(Clone, Copy, Drop)]
pub struct Plan {
    pub alloc: Global,
    pub tag: Tag,
    pub limit: u32,
    pub ghost some: { 0 < limit },
    pub ghost few: { limit ≤ MAX_ATTEMPTS },
}

/// A version that is supported.
#[derive(Clone, Copy, Drop)]
pub struct Supported {
    pub version: u64,
    pub ghost few: { version < version_limit },
}

impl Supported {
    /// A version, if it is supported.
    pub fn make(version: u64) -> Option<Supported>
        ensures some { IfSome result (λ read. read.version ≡ version) }
        ensures none { result ≡ None → nat_lt version version_limit ≡ false }
    {
        if version < VERSION_LIMIT {
            Some(Supported { version })
        } else {
            None
        }
    }
}
