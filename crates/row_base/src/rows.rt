//! Rows, one after another in one list of data.
ghost use Rattle.std.specs.Prelude.{◌≡◌, ◌++◌, ◌∷◌, [], ◌<◌, length, IfOk, OnOk, OnErr, slice_get, option_map, take, drop, map, ◌+◌, ◌≤◌, ◌==◌, ◌^◌, vec_len, vec_capacity};
ghost use Rattle.std.specs.List.{All};
ghost use Rattle.row_base.specs.Columns.{head_or_null};

use crate::into_rows::IntoRows;
use crate::row_slice::RowSlice;
use crate::{Datum, NoMemory, Row};
use std::alloc::Global;
use std::collections::VecDeque;
use std::marker::Model;

/// Rows, one after another in one list of data. Contracts see it as the list of the rows.
#[derive(Debug, Drop)]
pub struct Rows {
    values: Vec<Datum>,
    ends: Vec<usize>,
}

impl Model for Rows {
    ghost use Rattle.std.specs.Prelude.{List, length};
    ghost use Rattle.row_base.specs.declared.row.Datum.{Datum};
    ghost use Rattle.row_base.specs.RowEnds.{rows_from, AreEnds};

    ghost Value = { List (List Datum) };

    ghost view = { λ a. rows_from 0 a.ends.items a.values.items };

    ghost invariant = { λ a. AreEnds 0 a.ends.items (length a.values.items) };
}

impl Rows {
    /// No rows.
    pub fn new(alloc: Global) -> Rows
        ensures { result ≡ [] }
    {
        Rows {
            values: Vec::new(alloc),
            ends: Vec::new(alloc),
        }
    }

    /// No rows, with room for so many rows and so many data in all of them.
    pub fn with_capacity(alloc: Global, rows: usize, data: usize) -> Result<Rows, NoMemory>
        ensures { IfOk result (λ r. r ≡ []) }
    {
        Ok(Rows {
            values: Vec::with_capacity(alloc, data)?,
            ends: Vec::with_capacity(alloc, rows)?,
        })
    }

    /// Whether there is no row.
    pub fn is_empty(&self) -> bool
        ensures { result ≡ (length self.now == 0) }
    {
        self.len() == 0
    }

    /// How many rows there are.
    pub fn len(&self) -> usize
        ensures { result ≡ length self.now }
    {
        self.ends.len()
    }

    /// Makes room for so many rows more, and so many data in all of them.
    pub fn reserve(&mut self, rows: usize, data: usize) -> Result<(), NoMemory>
        ensures { self.new ≡ self.old }
    {
        self.ends.reserve(rows)?;
        self.values.reserve(data)?;
        Ok(())
    }

    /// Puts a row of the next value of each column behind the others, with null where a column has no value left.
    pub fn push_next(&mut self, columns: &mut [VecDeque<Datum>]) -> Result<(), NoMemory>
        ensures ok { OnOk result (self.new ≡ self.old ++ map (λ c. head_or_null c.items) columns.old ∷ []) }
        ensures rest { OnOk result (map (λ c. c.items) columns.new ≡ map (λ c. drop 1 c.items) columns.old) }
        ensures err { OnErr result (self.new ≡ self.old) }
    {
        self.ends.reserve(1)?;
        self.values.reserve(columns.len())?;
        take_next(columns, &mut self.values);
        self.ends.push_reserved(self.values.len());
        Ok(())
    }

    /// Puts a row behind the others. The list of its data is left without any, with its room.
    pub fn push_from(&mut self, row: &mut Vec<Datum>) -> Result<(), NoMemory>
        ensures ok { OnOk result (self.new ≡ self.old ++ row.old.items ∷ []) }
        ensures err { OnErr result (self.new ≡ self.old) }
        ensures empty { OnOk result (row.new.items ≡ []) }
    {
        self.ends.reserve(1)?;
        self.values.append(row)?;
        self.ends.push_reserved(self.values.len());
        Ok(())
    }

    /// The rows, borrowed.
    pub fn iter(&self) -> RowSlice<'_>
        ensures rows { result ≡ self.now }
        ensures few { length result < 2 ^ 64 }
    {
        RowSlice::cut(&self.ends, &self.values)
    }

    /// The rows, to be handed out by move.
    pub fn into_rows(self) -> IntoRows
        ensures { result ≡ self }
    {
        IntoRows::cut(self.ends, self.values)
    }

    /// A row.
    pub fn get(&self, i: usize) -> Option<&[Datum]>
        ensures { option_map (λ r. r.now) result ≡ slice_get self.now i }
    {
        self.iter().get(i)
    }

    /// Puts a copy of a row behind the others. The bytes of its texts are shared.
    pub fn push_copy(&mut self, row: &[Datum]) -> Result<(), NoMemory>
        ensures ok { OnOk result (self.new ≡ self.old ++ row.now ∷ []) }
        ensures err { OnErr result (self.new ≡ self.old) }
    {
        self.ends.reserve(1)?;
        let count = self.values.len();
        match append_copies(&mut self.values, row) {
            Ok(()) => {
                self.ends.push_reserved(self.values.len());
                Ok(())
            }
            Err(refused) => {
                self.values.truncate(count);
                Err(refused)
            }
        }
    }

    /// Puts other rows behind these.
    pub fn append(&mut self, other: Rows) -> Result<(), NoMemory>
        ensures ok { OnOk result (self.new ≡ self.old ++ other) }
        ensures err { OnErr result (self.new ≡ self.old) }
    {
        let Rows { mut values, ends } = other;
        self.ends.reserve(ends.len())?;
        let count = self.values.len();
        self.values.append(&mut values)?;
        let _total = self.values.len();
        append_ends(&mut self.ends, ends.as_slice(), count);
        Ok(())
    }

    /// An equal list. The bytes of the texts are shared.
    pub fn copy(&self, alloc: Global) -> Result<Rows, NoMemory>
        ensures { IfOk result (λ r. r ≡ self.now) }
    {
        let mut values = Vec::with_capacity(alloc, self.values.len())?;
        append_copies(&mut values, &self.values)?;
        Ok(Rows {
            values,
            ends: Vec::from_slice(alloc, &self.ends)?,
        })
    }

    /// These rows, moved into one list.
    pub fn from_rows(alloc: Global, rows: Vec<Row>) -> Result<Rows, NoMemory>
        ensures { IfOk result (λ r. r ≡ rows.items) }
    {
        let mut flat = Rows::new(alloc);
        for row in rows {
            let mut data = row.into_vec();
            flat.push_from(&mut data)?;
        }
        Ok(flat)
    }

    /// The rows, each in memory of its own. The bytes of the texts are shared.
    pub fn to_rows(&self, alloc: Global) -> Result<Vec<Row>, NoMemory>
        ensures { IfOk result (λ r. r.items ≡ self.now) }
    {
        let mut rows = Vec::with_capacity(alloc, self.len())?;
        for row in self.iter() {
            let mut values = Vec::with_capacity(alloc, row.len())?;
            append_copies(&mut values, row)?;
            rows.push(Row::make(values))?;
        }
        Ok(rows)
    }
}

/// The first of these values, taken out, or null where there is none.
fn next_value(values: &mut VecDeque<Datum>) -> Datum
    ensures value { result ≡ head_or_null values.old.items }
    ensures rest { values.new.items ≡ drop 1 values.old.items }
{
    match values.pop_front() {
        Some(value) => value,
        None => Datum::Null,
    }
}

/// The first value of each column, taken out and put behind the others. There is room.
fn take_next(columns: &mut [VecDeque<Datum>], values: &mut Vec<Datum>)
    requires room { vec_len values.old + length columns.old ≤ vec_capacity values.old }
    ensures values { values.new.items ≡ values.old.items ++ map (λ c. head_or_null c.items) columns.old }
    ensures rest { map (λ c. c.items) columns.new ≡ map (λ c. drop 1 c.items) columns.old }
{
    for column in columns.iter_mut() {
        values.push_reserved(next_value(column));
    }
}

/// Puts a copy of these data behind the others. Where memory runs out, some may be there.
#[tactic(auto, using(std::proofs::lemmas::List::take_at))]
fn append_copies(values: &mut Vec<Datum>, more: &[Datum]) -> Result<(), NoMemory>
    ensures ok { OnOk result (values.new.items ≡ values.old.items ++ more.now) }
    ensures front { take (length values.old.items) values.new.items ≡ values.old.items }
{
    values.reserve(more.len())?;
    for datum in more {
        values.push(datum.copy()?)?;
    }
    Ok(())
}

/// Puts ends behind the others, each so much further on. There is room.
fn append_ends(ends: &mut Vec<usize>, more: &[usize], by: usize)
    requires room { vec_len ends.old + length more.now ≤ vec_capacity ends.old }
    requires fits { All (λ e. by + e < 2 ^ 64) more.now }
    ensures { ends.new.items ≡ ends.old.items ++ map (λ e. by + e) more.now }
{
    for end in more {
        ends.push_reserved(by + *end);
    }
}
