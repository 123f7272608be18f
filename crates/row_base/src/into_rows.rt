//! Rows that are handed out by move.
ghost use Rattle.std.specs.Prelude.{◌≡◌, ◌==◌, ◌∷◌, ◌++◌, ◌+◌, ◌≤◌, ◌<◌, [], length, take, drop, IfOk, OnErr, vec_len, vec_capacity};
ghost use Rattle.std.specs.Bool.{MatchBool};
ghost use Rattle.row_base.specs.RowEnds.{rows_from, AreEnds};

use crate::{Datum, NoMemory};
use std::collections::VecDeque;
use std::marker::Model;

/// Rows that are handed out by move, one after another. Contracts see it as the list of the rows that are left.
#[derive(Debug, Drop)]
pub struct IntoRows {
    at: usize,
    ends: VecDeque<usize>,
    rest: VecDeque<Datum>,
}

impl Model for IntoRows {
    ghost use Rattle.std.specs.Prelude.{List, length, ◌+◌};
    ghost use Rattle.row_base.specs.declared.row.Datum.{Datum};
    ghost use Rattle.row_base.specs.RowEnds.{rows_from, AreEnds};

    ghost Value = { List (List Datum) };

    ghost view = { λ a. rows_from a.at a.ends.items a.rest.items };

    ghost invariant = { λ a. AreEnds a.at a.ends.items (a.at + length a.rest.items) };
}

impl IntoRows {
    /// The rows of this data, cut at these ends.
    pub(crate) fn cut(ends: Vec<usize>, rest: Vec<Datum>) -> IntoRows
        requires { AreEnds 0 ends.items (length rest.items) }
        ensures { result ≡ rows_from 0 ends.items rest.items }
    {
        IntoRows {
            at: 0,
            ends: VecDeque::from(ends),
            rest: VecDeque::from(rest),
        }
    }

    /// Whether no row is left.
    pub fn is_empty(&self) -> bool
        ensures { result ≡ (length self.now == 0) }
    {
        self.len() == 0
    }

    /// How many rows are left.
    pub fn len(&self) -> usize
        ensures { result ≡ length self.now }
    {
        self.ends.len()
    }

    /// Moves the data of the next row into this list, in place of what it holds, and says whether there was a row. It
    /// takes memory only where the list has no room for the row; where memory runs out, the rows stay as they are.
    pub fn next_into(&mut self, row: &mut Vec<Datum>) -> Result<bool, NoMemory>
        ensures next { IfOk result (λ more. MatchBool more (self.old ≡ row.new.items ∷ self.new) ((self.old ≡ []) × (self.new ≡ []) × (row.new.items ≡ []))) }
        ensures err { OnErr result (self.new ≡ self.old) }
        ensures cleared { OnErr result (row.new.items ≡ []) }
    {
        row.clear();
        match self.ends.front() {
            Some(end) => {
                let end = *end;
                row.reserve(end - self.at)?;
                move_front(&mut self.rest, end - self.at, row);
                drop_first(&mut self.ends);
                self.at = end;
                Ok(true)
            }
            None => Ok(false),
        }
    }
}

/// Moves the first of these data behind the others, where there is one. There is room.
fn move_first(rest: &mut VecDeque<Datum>, row: &mut Vec<Datum>)
    requires room { vec_len row.old < vec_capacity row.old }
    ensures row { row.new.items ≡ row.old.items ++ take 1 rest.old.items }
    ensures rest { rest.new.items ≡ drop 1 rest.old.items }
    ensures len { vec_len row.new ≤ vec_len row.old + 1 }
    ensures capacity { vec_capacity row.new ≡ vec_capacity row.old }
{
    if let Some(datum) = rest.pop_front() {
        row.push_reserved(datum);
    }
}

/// Moves so many of these data behind the others, or all where they are fewer. There is room.
#[tactic(auto, using(crate::proofs::RowEndLemmas::moved_more, crate::proofs::RowEndLemmas::left_more))]
fn move_front(rest: &mut VecDeque<Datum>, count: usize, row: &mut Vec<Datum>)
    requires room { vec_len row.old + count ≤ vec_capacity row.old }
    ensures row { row.new.items ≡ row.old.items ++ take count rest.old.items }
    ensures rest { rest.new.items ≡ drop count rest.old.items }
{
    for _ in 0..count {
        move_first(rest, row);
    }
}

/// Takes away the first of these ends, where there is one.
fn drop_first(ends: &mut VecDeque<usize>)
    ensures { ends.new.items ≡ drop 1 ends.old.items }
{
    let _first = ends.pop_front();
}
