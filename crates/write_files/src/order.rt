//! The order of new rows: by the values of their partition columns, and then by the rows.
ghost use Rattle.std.specs.Prelude.{◌≡◌, map};
ghost use Rattle.row_base.specs.RowOrder.{datum_cmp, row_cmp};
ghost use Rattle.write_files.specs.Order as spec;

use row_base::{Datum, Schema, cmp_rows, row_order_is_total};
use std::cmp::Ordering;

/// Compares two rows by the datum at a place, which is null where a row lacks it.
fn cmp_at(a: &[Datum], b: &[Datum], place: usize) -> Ordering
    ensures { result ≡ datum_cmp (spec.datum_at a.now place) (spec.datum_at b.now place) }
{
    let null = Datum::Null;
    let x = a.get(place).unwrap_or(&null);
    let y = b.get(place).unwrap_or(&null);
    x.cmp(y)
}

/// Compares two rows by the values of their partition columns, in the order in which the table is partitioned.
pub(crate) fn cmp_values(schema: &Schema, a: &[Datum], b: &[Datum]) -> Ordering
    ensures { result ≡ row_cmp (spec.values_of schema.now a.now) (spec.values_of schema.now b.now) }
{
    for place in schema.partition() {
        let order = cmp_at(a, b, *place as usize);
        if order.is_ne() {
            return order;
        }
    }
    Ordering::Equal
}

/// Compares two rows by the values of their partition columns, and then as rows.
fn cmp_grouped(schema: &Schema, a: &[Datum], b: &[Datum]) -> Ordering
    ensures { result ≡ spec.group_cmp schema.now a.now b.now }
{
    match cmp_values(schema, a, b) {
        Ordering::Equal => cmp_rows(a, b),
        order => order,
    }
}

/// Puts rows in order. Rows that are in order already are looked at once.
pub(crate) fn put_in_order(schema: &Schema, rows: &mut [&[Datum]])
    ensures { map (λ r. r.now) rows.new ≡ spec.in_order (spec.group_cmp schema.now) (map (λ r. r.now) rows.old) }
{
    row_order_is_total();
    rows.sort_unstable_by(|a, b| cmp_grouped(schema, a, b));
}
