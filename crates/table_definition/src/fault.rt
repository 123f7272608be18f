//! Why a table can't be used.
ghost use Rattle.std.specs.Prelude.{◌≡◌};

use log_actions::Feature;

/// Why a table can't be read and written.
#[derive(Debug, Drop)]
pub enum DefinitionFault {
    /// It has no protocol, no metadata, or no schema that a table can have.
    Table,
    /// It asks for this.
    Unsupported(Feature),
    /// Memory ran out.
    NoMemory,
}
