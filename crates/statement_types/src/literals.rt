//! Rows as a statement has them.
ghost use Rattle.std.specs.Prelude.{◌≡◌};
ghost use Rattle.statement_types.specs.Literals.{AreLiterals};

use row_base::Rows;
use std::marker::Model;

/// The literal rows of a statement, seen as the list of the rows: each number is of its kind's width, each text has at
/// most `MAX_TEXT_BYTES`, and each date is of the years 1 to 9999.
#[derive(Debug, Drop)]
pub struct LiteralRows {
    rows: Rows,
}

impl Model for LiteralRows {
    ghost use Rattle.std.specs.Prelude.{List};
    ghost use Rattle.row_base.specs.declared.row.Datum.{Datum};
    ghost use Rattle.statement_types.specs.Literals.{AreLiterals};

    ghost Value = { List (List Datum) };

    ghost view = { λ a. a.rows };

    ghost invariant = { λ a. AreLiterals a.rows };
}

impl LiteralRows {
    /// These rows.
    pub fn new(rows: Rows) -> LiteralRows
        requires { AreLiterals rows }
        ensures { result ≡ rows }
    {
        LiteralRows { rows }
    }

    /// The rows.
    pub fn rows(&self) -> &Rows
        ensures same { result.now ≡ self.now }
        ensures literals { AreLiterals result.now }
    {
        &self.rows
    }
}
