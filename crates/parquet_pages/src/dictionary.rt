//! Dictionaries of chunks (Parquet format, Encodings.md, "Dictionary Encoding (PLAIN_DICTIONARY = 2 and RLE_DICTIONARY =
//! 8)").
ghost use Rattle.std.specs.Prelude.{false, ◌≡◌, ◌==◌, ◌^◌, ◌<◌, ◌≤◌, ◌+◌, ◌++◌, ◌∷◌, [], true, length, slice_index, EachIndex, if◌then◌else◌, nat_le, option_map, Some, None, Bool, IfSome, IfNone, IfOk, OnOk};
ghost use Rattle.std.specs.List.{All};
ghost use Rattle.bit_pack.specs.Bits.{most_values};
ghost use Rattle.bit_pack.specs.Hybrid.{hybrid_of};
ghost use Rattle.parquet_pages.specs.Places as spec;
ghost use Rattle.parquet_pages.specs.Written as written;

use crate::hybrid::hybrid_text;
use crate::levels::append_levels;
use crate::plain::{append, append_values, room_for};
use indexmap::IndexSet;
use row_base::{Datum, Kind, NoMemory};
use std::alloc::Global;
use std::marker::Model;

/// The distinct values of a chunk that aren't null, in order of first appearance. Contracts see it as the list of them.
#[derive(Debug, Drop)]
pub struct Dictionary {
    values: IndexSet<Datum>,
}

impl Model for Dictionary {
    ghost use Rattle.std.specs.Prelude.{List, ◌≤◌, length};
    ghost use Rattle.bit_pack.specs.Bits.{most_values};
    ghost use Rattle.row_base.specs.declared.row.Datum.{Datum};

    ghost Value = { List Datum };

    ghost view = { λ d. d.values.keys };

    ghost invariant = { λ d. length d.values.keys ≤ most_values };
}

/// The dictionary of a chunk, and the places in it of the chunk's values that aren't null.
#[derive(Debug, Drop)]
pub struct Indexed {
    pub dictionary: Dictionary,
    pub places: Vec<u32>,
}

fn is_null(value: &Datum) -> bool
    ensures { result ≡ spec.is_null value.now }
{
    matches!(value, Datum::Null)
}

/// How many values aren't null.
pub fn count_present(values: &[Datum]) -> usize
    ensures count { result ≡ spec.present values.now }
    ensures few { result ≤ length values.now }
{
    let mut count = 0;
    for value in values {
        if !is_null(value) {
            count += 1;
        }
    }
    count
}

/// The place of a value among these.
fn place_in(found: &IndexSet<Datum>, value: &Datum) -> Option<usize>
    ensures place { result ≡ spec.place_of found.now.keys value.now }
    ensures within { IfSome result (λ k. k < length found.now.keys) }
{
    found.get_index_of(value)
}

/// Puts a value that isn't among these behind them.
fn put(found: &mut IndexSet<Datum>, value: Datum) -> Result<(), NoMemory>
    requires { spec.place_of found.old.keys value ≡ None }
    ensures { OnOk result (found.new.keys ≡ found.old.keys ++ value ∷ []) }
{
    found.insert(value)?;
    Ok(())
}

/// The place of a value among these, behind which it is put where it is new. `None` where it is new and they are so many.
fn place_for(
    found: &mut IndexSet<Datum>,
    value: &Datum,
    most: usize,
) -> Result<Option<u32>, NoMemory>
    requires few { length found.old.keys ≤ most }
    requires most { most ≤ most_values }
    requires some { spec.is_null value.now ≡ false }
    ensures found { IfOk result (λ o. IfSome o (λ k. found.new.keys ≡ spec.with_value found.old.keys value.now)) }
    ensures place { IfOk result (λ o. IfSome o (λ k. spec.place_of found.new.keys value.now ≡ Some k)) }
    ensures few { IfOk result (λ o. IfSome o (λ k. length found.new.keys ≤ most)) }
    ensures new { IfOk result (λ o. IfNone o (spec.place_of found.old.keys value.now ≡ None)) }
    ensures full { IfOk result (λ o. IfNone o (length found.old.keys ≡ most)) }
{
    match place_in(found, value) {
        Some(place) => Ok(Some(place as u32)),
        None => {
            let place = found.len();
            if place == most {
                return Ok(None);
            }
            put(found, value.copy()?)?;
            Ok(Some(place as u32))
        }
    }
}

/// The distinct values that aren't null, and the places of all that aren't null, where there are at most so many of the
/// former. Each value is looked up once.
fn distinct(alloc: Global, values: &[Datum], most: usize) -> Result<Option<Indexed>, NoMemory>
    requires { most ≤ most_values }
    ensures dictionary { IfOk result (λ o. option_map (λ i. i.dictionary) o ≡ (if nat_le (length (spec.distinct_after [] values.now)) most
        then Some (spec.distinct_after [] values.now) else None)) }
    ensures places { IfOk result (λ o. IfSome o (λ i. i.places.items ≡ spec.places_of (spec.distinct_after [] values.now) values.now)) }
{
    let mut found = IndexSet::with_capacity(alloc, most)?;
    let mut places = Vec::with_capacity(alloc, values.len())?;
    for value in values {
        if is_null(value) {
            continue;
        }
        match place_for(&mut found, value, most)? {
            Some(place) => places.push(place)?,
            None => return Ok(None),
        }
    }
    Ok(Some(Indexed {
        dictionary: Dictionary { values: found },
        places,
    }))
}

/// The dictionary of a chunk's values, where it pays.
#[tactic(auto, unfolding(crate::specs::Places::dictionary_of))]
fn dictionary_of(alloc: Global, kind: Kind, values: &[Datum]) -> Result<Option<Indexed>, NoMemory>
    requires { length values.now ≤ most_values }
    ensures dictionary { IfOk result (λ o. option_map (λ i. i.dictionary) o ≡ spec.dictionary_of kind values.now) }
    ensures places { IfOk result (λ o. IfSome o (λ i. i.places.items ≡ spec.places_of i.dictionary values.now)) }
{
    if kind == Kind::Boolean {
        return Ok(None);
    }
    distinct(alloc, values, count_present(values) / 2)
}

/// The least width, from 1 on, that holds each place of so many values.
fn index_width(count: usize) -> u8
    requires { count ≤ most_values }
    ensures value { result ≡ spec.index_width count }
    ensures narrow { result ≤ 32 }
    ensures holds { count ≤ 2 ^ result }
{
    let mut width = 1;
    while count > 1 << width {
        width += 1;
    }
    width
}

/// Appends places in a dictionary of so many values: the width, and the hybrid.
fn append_places(
    alloc: Global,
    count: usize,
    places: &[u32],
    out: &mut Vec<u8>,
) -> Result<(), NoMemory>
    requires few_values { count ≤ most_values }
    requires few { length places.now ≤ most_values }
    requires within { EachIndex places.now (λ k. slice_index places.now k < count) }
    ensures { OnOk result (out.new.items ≡ out.old.items
        ++ spec.index_width count ∷ hybrid_of (spec.index_width count) places.now) }
{
    let width = index_width(count);
    out.push(width)?;
    let bytes = hybrid_text(alloc, width, places)?;
    append(bytes.as_slice(), out)
}

impl Dictionary {
    ghost use Rattle.parquet_pages.specs.Written.{dictionary_text, index_text};

    /// The dictionary of a chunk's values: the distinct ones that aren't null, in order of first appearance. `None`
    /// where the kind is `Boolean`, or twice the number of distinct values exceeds the number of values that aren't
    /// null.
    pub fn of(alloc: Global, kind: Kind, values: &[Datum]) -> Result<Option<Indexed>, NoMemory>
        requires few { length values.now ≤ most_values }
        requires stand { All (written.CanStand kind true) values.now }
        ensures dictionary { IfOk result (λ o. option_map (λ i. i.dictionary) o ≡ spec.dictionary_of kind values.now) }

        // What `page` and `indices` ask.
        ensures stand { IfOk result (λ o. IfSome o (λ i. All (written.CanStand kind false) i.dictionary)) }
        ensures placed { IfOk result (λ o. IfSome o (λ i. (optional : Bool) → All (written.CanStand kind optional) values.now
            → All (λ v. spec.can_place i.dictionary optional v ≡ true) values.now)) }
        ensures places { IfOk result (λ o. IfSome o (λ i. i.places.items ≡ spec.places_of i.dictionary values.now)) }
    {
        let found = dictionary_of(alloc, kind, values)?;
        Ok(found)
    }

    /// How many values it has, which the head of the dictionary page names.
    pub fn len(&self) -> usize
        ensures len { result ≡ length self.now }
        ensures few { result ≤ most_values }
    {
        self.values.len()
    }

    /// Whether it has no value, as that of a chunk of nulls.
    pub fn is_empty(&self) -> bool
        ensures { result ≡ (length self.now == 0) }
    {
        self.values.is_empty()
    }

    /// The body of the dictionary page: the values in the PLAIN encoding, which the page's head names as 0 (Parquet
    /// format, Encodings.md, "Dictionary Encoding").
    pub fn page(&self, alloc: Global, kind: Kind) -> Result<Vec<u8>, NoMemory>
        requires { All (written.CanStand kind false) self.now }
        ensures { IfOk result (λ v. v.items ≡ dictionary_text kind self.now) }
    {
        let mut out = Vec::with_capacity(alloc, room_for(kind, self.values.len()))?;
        append_values(alloc, kind, self.values.as_slice(), &mut out)?;
        Ok(out)
    }

    /// The body of a data page with the places of its values in the dictionary: where the column may be null, the
    /// definition levels behind their number of bytes; then a byte with the width of the places, and the hybrid of the
    /// places. The width is the least, from 1, that holds the dictionary's last place. The page's head has the encoding
    /// 8 (Parquet format, Encodings.md, "Dictionary Encoding").
    #[tactic(auto, unfolding(crate::specs::Written::index_text))]
    pub fn indices(
        &self,
        alloc: Global,
        optional: bool,
        values: &[Datum],
        places: &[u32],
    ) -> Result<Vec<u8>, NoMemory>
        requires few { length values.now ≤ most_values }
        requires placed { All (λ v. spec.can_place self.now optional v ≡ true) values.now }
        requires places { places.now ≡ spec.places_of self.now values.now }
        ensures { IfOk result (λ v. v.items ≡ index_text optional self.now values.now) }
    {
        let mut out = Vec::new(alloc);
        append_levels(alloc, optional, values, &mut out)?;
        append_places(alloc, self.values.len(), places, &mut out)?;
        Ok(out)
    }
}
