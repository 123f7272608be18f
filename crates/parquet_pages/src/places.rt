//! Values by their places in a dictionary (Parquet format, Encodings.md, "Dictionary Encoding (PLAIN_DICTIONARY = 2 and
//! RLE_DICTIONARY = 8)").
ghost use Rattle.std.specs.Prelude.{◌≡◌, option_map, slice_get};
ghost use Rattle.parquet_pages.specs.Gives.{Gives};
ghost use Rattle.parquet_pages.specs.Places as spec;

use crate::fault::BodyFault;
use crate::hybrid::hybrid;
use row_base::Datum;
use std::alloc::Global;

fn value_at(dictionary: &[Datum], place: u32) -> Option<&Datum>
    ensures { option_map (λ v. v.now) result ≡ slice_get dictionary.now place }
{
    dictionary.get(place as usize)
}

/// The values at these places of a dictionary.
fn values_at(alloc: Global, dictionary: &[Datum], places: &[u32]) -> Result<Vec<Datum>, BodyFault>
    ensures { Gives result (λ v. v.items) (spec.values_at dictionary.now places.now) }
{
    let mut values = Vec::with_capacity(alloc, places.len())?;
    for place in places {
        match value_at(dictionary, *place) {
            Some(value) => values.push(value.copy()?)?,
            None => return Err(BodyFault::Damaged),
        }
    }
    Ok(values)
}

/// So many values by their places in a dictionary: a byte with the width of the places, and their hybrid.
#[tactic(auto, unfolding(crate::specs::Places::indexed_values))]
pub(crate) fn indexed_values(
    alloc: Global,
    dictionary: &[Datum],
    count: usize,
    bytes: &[u8],
) -> Result<Vec<Datum>, BodyFault>
    ensures { Gives result (λ v. v.items) (spec.indexed_values dictionary.now count bytes.now) }
{
    let Some((width, rest)) = bytes.split_first() else {
        return Err(BodyFault::Damaged);
    };
    let places = hybrid(alloc, *width, rest, count)?;
    values_at(alloc, dictionary, places.as_slice())
}
