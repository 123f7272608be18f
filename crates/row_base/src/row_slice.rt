//! Rows that are borrowed.
ghost use Rattle.std.specs.Prelude.{◌≡◌, ◌≤◌, ◌-◌, ◌+◌, ◌<◌, ◌==◌, ◌^◌, length, slice_get, take, drop, option_map};
ghost use Rattle.row_base.specs.RowEnds.{rows_from, AreEnds, place_of_row};

use crate::Datum;
use std::marker::Model;

/// Rows one after another, borrowed. It is their iterator too. Contracts see it as the list of the rows that are left.
#[derive(Debug, Drop)]
pub struct RowSlice<'a> {
    at: usize,
    ends: &'a [usize],
    rest: &'a [Datum],
}

impl<'a> Model for RowSlice<'a> {
    ghost use Rattle.std.specs.Prelude.{List, length, ◌+◌};
    ghost use Rattle.row_base.specs.declared.row.Datum.{Datum};
    ghost use Rattle.row_base.specs.RowEnds.{rows_from, AreEnds};

    ghost Value = { List (List Datum) };

    ghost view = { λ a. rows_from a.at a.ends.now a.rest.now };

    ghost invariant = { λ a. AreEnds a.at a.ends.now (a.at + length a.rest.now) };
}

impl<'a> RowSlice<'a> {
    /// The rows of this data, cut at these ends.
    pub(crate) fn cut(ends: &'a [usize], rest: &'a [Datum]) -> RowSlice<'a>
        requires { AreEnds 0 ends.now (length rest.now) }
        ensures rows { result ≡ rows_from 0 ends.now rest.now }
        ensures few { length result < 2 ^ 64 }
    {
        let _count = ends.len();
        RowSlice { at: 0, ends, rest }
    }

    /// Whether no row is left.
    pub fn is_empty(&self) -> bool
        ensures { result ≡ (length self.now == 0) }
    {
        self.len() == 0
    }

    /// How many rows are left.
    pub fn len(&self) -> usize
        ensures { result ≡ length self.now }
    {
        self.ends.len()
    }

    /// A row.
    pub fn get(&self, i: usize) -> Option<&'a [Datum]>
        ensures { option_map (λ r. r.now) result ≡ slice_get self.now i }
    {
        row_in(self.at, self.ends, self.rest, i)
    }

    /// So many rows, and those behind them.
    pub fn split_at(&self, count: usize) -> (RowSlice<'a>, RowSlice<'a>)
        requires { count ≤ length self.now }
        ensures front { result.0 ≡ take count self.now }
        ensures back { result.1 ≡ drop count self.now }
    {
        let (at, whole, data) = (self.at, self.ends, self.rest);
        let place = place_in(at, whole, data, count);
        let (ends, later) = whole.split_at(count);
        let (rest, behind) = data.split_at(place - at);
        let front = RowSlice { at, ends, rest };
        let back = RowSlice {
            at: place,
            ends: later,
            rest: behind,
        };
        (front, back)
    }
}

/// The place where the rows from a number on begin.
fn place_in(at: usize, ends: &[usize], rest: &[Datum], count: usize) -> usize
    requires ends { AreEnds at ends.now (at + length rest.now) }
    requires count { count ≤ length ends.now }
    ensures place { result ≡ place_of_row at ends.now count }
    ensures from { at ≤ result }
    ensures to { result ≤ at + length rest.now }
{
    if count == 0 { at } else { ends[count - 1] }
}

/// A row of the data that begin at a place.
fn row_in<'a>(at: usize, ends: &'a [usize], rest: &'a [Datum], i: usize) -> Option<&'a [Datum]>
    requires { AreEnds at ends.now (at + length rest.now) }
    ensures { option_map (λ r. r.now) result ≡ slice_get (rows_from at ends.now rest.now) i }
{
    if i >= ends.len() {
        return None;
    }
    let place = place_in(at, ends, rest, i);
    let past = place_in(at, ends, rest, i + 1);
    let (_, behind) = rest.split_at(place - at);
    let (row, _) = behind.split_at(past - place);
    Some(row)
}

impl<'a> Iterator for RowSlice<'a> {
    type Item = &'a [Datum];

    ghost use Rattle.std.specs.Iterator.{YieldsFirstRef, item_count};

    ghost next_gives = { YieldsFirstRef (λ s. s) };

    ghost remaining = { item_count (λ s. s) };

    fn next(&mut self) -> Option<&'a [Datum]> {
        let (end, ends) = self.ends.split_first()?;
        let (row, rest) = self.rest.split_at(*end - self.at);
        self.at = *end;
        self.ends = ends;
        self.rest = rest;
        Some(row)
    }
}
