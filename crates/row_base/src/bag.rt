//! Bags of rows.
ghost use Rattle.std.specs.Prelude.{◌≡◌, ◌+◌, ◌-◌, ◌++◌, Bool, true, false, List};
ghost use Rattle.std.specs.List.{filter};
ghost use Rattle.row_base.specs.declared.row.Datum.{Datum};
ghost use Rattle.row_base.specs.Bags.{count_of, without};

/// How often a row stands in a bag: a sum of bags adds the counts, a difference subtracts them down to 0,
/// and a filter keeps the counts of the rows that pass and no others.
pub fn rows_are_counted()
    ensures sum { (r : List Datum) (a b : List (List Datum)) → count_of r (a ++ b) ≡ count_of r a + count_of r b }
    ensures difference { (r : List Datum) (a b : List (List Datum)) → count_of r (without a b) ≡ count_of r a - count_of r b }
    ensures kept { (test : List Datum → Bool) (r : List Datum) (a : List (List Datum)) → test r ≡ true → count_of r (filter test a) ≡ count_of r a }
    ensures dropped { (test : List Datum → Bool) (r : List Datum) (a : List (List Datum)) → test r ≡ false → count_of r (filter test a) ≡ 0 }
{}
