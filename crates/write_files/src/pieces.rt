//! Which rows go into which file.
ghost use Rattle.std.specs.Prelude.{◌≡◌, ◌≤◌, ◌<◌, ◌++◌, ◌∷◌, [], length, take, drop, map, IfOk, OnOk};
ghost use Rattle.write_files.specs.Pieces as spec;

use crate::limits::MAX_NEW_FILE_SIZE;
use crate::order::{cmp_values, put_in_order};
use crate::size::{room_after, room_behind};
use row_base::{Datum, NoMemory, Rows, Schema};
use std::alloc::Global;
use std::collections::VecDeque;

/// How many of these rows, from the first on, have the values of the first in the partition columns.
fn group_len(schema: &Schema, rows: &[&[Datum]]) -> usize
    requires { 0 < length rows.now }
    ensures some { 0 < result }
    ensures few { result ≤ length rows.now }
    ensures cut { spec.cut (spec.has_values schema.now) (spec.rows_now rows.now)
        ≡ spec.rows_now (take result rows.now) ∷ spec.cut (spec.has_values schema.now) (spec.rows_now (drop result rows.now)) }
{
    let mut count = 1;
    while count < rows.len() && cmp_values(schema, rows[0], rows[count]).is_eq() {
        count += 1;
    }
    count
}

/// How many of these rows, from the first on, go into one file.
fn file_len(rows: &[&[Datum]]) -> usize
    requires { 0 < length rows.now }
    ensures some { 0 < result }
    ensures few { result ≤ length rows.now }
    ensures cut { spec.cut spec.has_room (spec.rows_now rows.now)
        ≡ spec.rows_now (take result rows.now) ∷ spec.cut spec.has_room (spec.rows_now (drop result rows.now)) }
{
    let Some(mut room) = room_after(MAX_NEW_FILE_SIZE, rows[0]) else {
        return 1;
    };
    let mut count = 1;
    while count < rows.len() {
        let Some(left) = room_behind(count, room, rows[count]) else {
            return count;
        };
        room = left;
        count += 1;
    }
    count
}

/// The rows, one by one.
fn listed(alloc: Global, rows: &Rows) -> Result<Vec<&[Datum]>, NoMemory>
    ensures { IfOk result (λ v. spec.rows_now v.items ≡ rows.now) }
{
    let mut list = Vec::with_capacity(alloc, rows.len())?;
    for row in rows.iter() {
        list.push(row)?;
    }
    Ok(list)
}

/// The rows of a file, each of so many data. The bytes of the texts are shared.
fn file_rows(alloc: Global, width: usize, list: &[&[Datum]]) -> Result<Rows, NoMemory>
    ensures { IfOk result (λ r. r ≡ spec.rows_now list.now) }
{
    let data = list.len().saturating_mul(width);
    let mut rows = Rows::with_capacity(alloc, list.len(), data)?;
    for row in list {
        rows.push_copy(row)?;
    }
    Ok(rows)
}

/// Puts the rows of the files that the rows of a group make behind the others.
fn push_files(
    alloc: Global,
    width: usize,
    group: &[&[Datum]],
    pieces: &mut VecDeque<Rows>,
) -> Result<(), NoMemory>
    ensures { OnOk result (pieces.new.items ≡ pieces.old.items ++ spec.cut spec.has_room (spec.rows_now group.now)) }
{
    let mut at = 0;
    while at < group.len() {
        let (_, rest) = group.split_at(at);
        let count = file_len(rest);
        let (file, _) = rest.split_at(count);
        pieces.push_back(file_rows(alloc, width, file)?)?;
        at += count;
    }
    Ok(())
}

/// The rows of each file that rows in order make.
fn cut(alloc: Global, schema: &Schema, rows: &[&[Datum]]) -> Result<VecDeque<Rows>, NoMemory>
    ensures { IfOk result (λ p. p.items ≡ spec.pieces_in (spec.cut (spec.has_values schema.now) (spec.rows_now rows.now))) }
{
    let width = schema.columns().len();
    let mut pieces = VecDeque::new(alloc);
    let mut at = 0;
    while at < rows.len() {
        let (_, rest) = rows.split_at(at);
        let count = group_len(schema, rest);
        let (group, _) = rest.split_at(count);
        push_files(alloc, width, group, &mut pieces)?;
        at += count;
    }
    Ok(pieces)
}

/// The rows of each new data file: grouped by the values of the partition columns, groups in order of these values, rows
/// of a group in order, and each group cut into files of at most `MAX_NEW_FILE_ROWS` rows and `MAX_NEW_FILE_SIZE` bytes
/// by plain size. A row that would pass either begins the next file. The rows are let go once they are in their files,
/// and the bytes of their texts are shared meanwhile. The error is want of memory.
#[tactic(auto, unfolding(crate::specs::Pieces::pieces_of))]
pub fn pieces_of(alloc: Global, schema: &Schema, rows: Rows) -> Result<VecDeque<Rows>, NoMemory>
    ensures { IfOk result (λ p. p.items ≡ spec.pieces_of schema.now rows) }
{
    let mut list = listed(alloc, &rows)?;
    put_in_order(schema, &mut list);
    let pieces = cut(alloc, schema, &list)?;
    Ok(pieces)
}
