//! The order of rows.
ghost use Rattle.std.specs.Prelude.{◌≡◌, List};
ghost use Rattle.std.specs.Bool.{Decides};
ghost use Rattle.std.specs.Cmp.{IsTotalOrder};
ghost use Rattle.row_base.specs.declared.row.Datum.{Datum};
ghost use Rattle.row_base.specs.RowOrder.{row_cmp, row_eq, IsToldApart};

use crate::Datum;
use std::cmp::Ordering;

/// Compares two rows column by column from the left: null first, false before true, texts by their
/// bytes, and data of different kinds in the order of `Datum`'s variants. Of two rows of which one
/// begins the other, the shorter is less.
pub fn cmp_rows(a: &[Datum], b: &[Datum]) -> Ordering
    ensures { result ≡ row_cmp a.now b.now }
{
    a.cmp(b)
}

/// The order of rows is total, and it tells every two rows apart.
pub fn row_order_is_total()
    ensures total { IsTotalOrder row_cmp }
    ensures apart { IsToldApart row_cmp }
    ensures same { (a b : List Datum) → Decides (row_eq a b) (a ≡ b) }
{}
