//! Versions that are supported.
ghost use Rattle.std.specs.Prelude.{◌≡◌, ◌<◌, nat_lt, false, IfSome, None};
ghost use Rattle.row_base.specs.declared.limits.TheConstants.{VERSION_LIMIT};

use row_base::limits::VERSION_LIMIT;

/// A version that is supported.
#[derive(Clone, Copy, Drop)]
pub struct Supported {
    pub version: u64,
    pub ghost few: { version < VERSION_LIMIT },
}

impl Supported {
    /// A version, if it is supported.
    pub fn make(version: u64) -> Option<Supported>
        ensures some { IfSome result (λ v. v.version ≡ version) }
        ensures none { result ≡ None → nat_lt version VERSION_LIMIT ≡ false }
    {
        if version < VERSION_LIMIT {
            Some(Supported { version })
        } else {
            None
        }
    }
}
