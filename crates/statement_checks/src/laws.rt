//! What holds of the values that statements set.
ghost use Rattle.statement_checks.specs.Properties.{ValuesAreRead};

/// A value that a statement may set is one that `rules_of` reads in a table, whatever other properties there are.
pub fn set_values_are_read()
    ensures { ValuesAreRead }
{}
