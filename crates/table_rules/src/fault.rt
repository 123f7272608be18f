//! What a table asks for and isn't supported.
ghost use Rattle.std.specs.Prelude.{◌≡◌};
ghost use Rattle.table_rules.specs.declared.fault.FeatureFault.TheVariants as faults;

use log_actions::Feature;
use row_base::NoMemory;

/// Why a table is not one that this engine reads and writes.
#[derive(Debug, Drop)]
pub enum FeatureFault {
    /// It asks for this.
    Unsupported(Feature),
    /// Memory ran out.
    NoMemory,
}

impl From<NoMemory> for FeatureFault {
    ghost from_gives = { λ _ e. e ≡ faults.NoMemory };

    fn from(_refused: NoMemory) -> FeatureFault {
        FeatureFault::NoMemory
    }
}
