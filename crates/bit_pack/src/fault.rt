//! What can be wrong with packed bytes, or with values to be packed.

use std::alloc::{AllocError, AllocFailed};
use thiserror::Error;

/// What can be wrong with packed bytes, or with values to be packed.
#[derive(Clone, Copy, Debug, Drop, PartialEq, Eq, Error)]
pub enum PackFault {
    /// The bytes end too soon.
    #[error("the bytes end too soon")]
    Short,
    /// The width is above 32, or a value needs more bits than the width that was asked.
    #[error("a width of {width} bits does not do")]
    Width {
        /// The width that was asked.
        width: u8,
    },
    /// More values than are allowed, or a header of more than five bytes.
    #[error("too many values")]
    Count,
    /// Memory ran out.
    #[error("out of memory")]
    NoMemory,
}

impl From<AllocError> for PackFault {
    ghost use Rattle.std.specs.Prelude.{◌≡◌};
    ghost use Rattle.bit_pack.specs.declared.fault.PackFault.TheVariants.{NoMemory};

    ghost from_gives = { λ _ e. e ≡ NoMemory };

    fn from(_refused: AllocError) -> PackFault {
        PackFault::NoMemory
    }
}

impl<T: Drop> From<AllocFailed<T>> for PackFault {
    ghost use Rattle.std.specs.Prelude.{◌≡◌};
    ghost use Rattle.bit_pack.specs.declared.fault.PackFault.TheVariants.{NoMemory};

    ghost from_gives = { λ _ e. e ≡ NoMemory };

    fn from(_refused: AllocFailed<T>) -> PackFault {
        PackFault::NoMemory
    }
}
