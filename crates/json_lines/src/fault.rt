//! Why a value has no reading.
ghost use Rattle.std.specs.Prelude.{◌≡◌};
ghost use Rattle.json_lines.specs.declared.fault.ShapeFault.TheVariants as faults;

use row_base::OutOfMemory;

/// Why a JSON value could not be read as what is wanted.
#[derive(Clone, Copy, Debug, Drop, PartialEq, Eq)]
pub enum ShapeFault {
    /// It is of another kind, or isn't there.
    Shape,
    /// Memory ran out.
    NoMemory,
}

impl<E: OutOfMemory> From<E> for ShapeFault {
    ghost from_gives = { λ _ e. e ≡ faults.NoMemory };

    fn from(_refused: E) -> ShapeFault {
        ShapeFault::NoMemory
    }
}
