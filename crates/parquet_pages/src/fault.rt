//! Why a page's body has no reading.
ghost use Rattle.std.specs.Prelude.{◌≡◌};
ghost use Rattle.parquet_pages.specs.declared.fault.BodyFault.TheVariants as body;
ghost use Rattle.parquet_pages.specs.Gives.{fault_at};

use parquet_meta::FileFault;
use row_base::OutOfMemory;

/// Why a page's body has no reading.
#[derive(Clone, Copy, Debug, Drop, PartialEq, Eq)]
pub(crate) enum BodyFault {
    /// The bytes aren't those of levels or values.
    Damaged,
    /// Memory ran out.
    NoMemory,
}

impl BodyFault {
    /// The fault of the page whose body stands at this place of the file.
    pub(crate) fn at(self, at: usize) -> FileFault
        ensures { result ≡ fault_at at self }
    {
        match self {
            BodyFault::Damaged => FileFault::Page { at },
            BodyFault::NoMemory => FileFault::NoMemory,
        }
    }
}

impl<E: OutOfMemory> From<E> for BodyFault {
    ghost from_gives = { λ _ e. e ≡ body.NoMemory };

    fn from(_refused: E) -> BodyFault {
        BodyFault::NoMemory
    }
}
