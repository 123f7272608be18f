//! Merges as they are described, each row of the source beside each of the table, and what `merge_files` makes of the
//! same rows.
use crate::pairs::{Answer, Case, Clauses, Matched, Other, Pair, Why, comes_to};
use row_base::{NoMemory, RowFault};
use std::alloc::Global;
use std::test::Fail;

/// What comes of a row.
#[derive(Clone, Copy, Drop)]
enum Image {
    Stays,
    Goes,
    Becomes(Pair),
    Fails(Why),
}

fn is_match(row: &Pair, source: &Pair) -> bool {
    row.0.is_some() && row.0 == source.0
}

/// How many rows match this one.
fn count(rows: &[Pair], row: &Pair) -> usize {
    rows.iter().filter(|other| is_match(row, other)).count()
}

/// A new row, where `v` is a number and may not be null.
fn becomes(id: Option<i64>, v: Option<i64>) -> Image {
    match v {
        Some(_) => Image::Becomes((id, v)),
        None => Image::Fails(Why::Row(RowFault::Null { column: 1 })),
    }
}

fn sum(left: Option<i64>, right: Option<i64>) -> Option<i64> {
    left?.checked_add(right?)
}

/// What comes of a row that this row of the source matches.
fn matched_image(matched: Matched, row: &Pair, source: &Pair) -> Image {
    match matched {
        Matched::Stays => Image::Stays,
        Matched::Goes => Image::Goes,
        Matched::Takes => becomes(row.0, source.1),
        Matched::Adds => match sum(row.1, source.1) {
            Some(v) => becomes(row.0, Some(v)),
            None => Image::Fails(Why::Overflow),
        },
    }
}

/// What comes of a row that the clause of the others changes.
fn other_image(other: Other, row: &Pair) -> Image {
    match other {
        Other::Stays => Image::Stays,
        Other::Goes => Image::Goes,
        Other::Falls => becomes(row.0, Some(0)),
        Other::Turns => match sum(row.1, Some(1)) {
            Some(id) => becomes(Some(id), row.0),
            None => Image::Fails(Why::Overflow),
        },
    }
}

/// What comes of a row.
fn image_of(case: &Case<'_>, row: &Pair) -> Image {
    for source in case.source {
        if is_match(row, source) {
            return matched_image(case.clauses.matched, row, source);
        }
    }
    if row.1 > Some(case.clauses.above) {
        other_image(case.clauses.other, row)
    } else {
        Image::Stays
    }
}

/// Whether a row of a file is changed.
fn is_touched(case: &Case<'_>, rows: &[Pair]) -> bool {
    rows.iter()
        .any(|row| !matches!(image_of(case, row), Image::Stays))
}

/// Puts what comes of the rows of a file, where one of them is changed.
fn put_file(case: &Case<'_>, rows: &[Pair], out: &mut Vec<Pair>) -> Result<(), NoMemory> {
    if is_touched(case, rows) {
        for row in rows {
            match image_of(case, row) {
                Image::Stays => out.push(*row)?,
                Image::Becomes(new) => out.push(new)?,
                Image::Goes | Image::Fails(_) => {}
            }
        }
    }
    Ok(())
}

/// Puts the rows of the source that match none.
fn put_added(case: &Case<'_>, out: &mut Vec<Pair>) -> Result<(), NoMemory> {
    for row in case.source {
        if count(case.first, row) == 0 && count(case.second, row) == 0 {
            out.push(*row)?;
        }
    }
    Ok(())
}

fn rows_that_come(alloc: Global, case: &Case<'_>) -> Result<Vec<Pair>, NoMemory> {
    let mut rows = Vec::new(alloc);
    put_file(case, case.first, &mut rows)?;
    put_file(case, case.second, &mut rows)?;
    if case.clauses.insert {
        put_added(case, &mut rows)?;
    }
    Ok(rows)
}

/// The paths of the files that are removed.
fn removed(case: &Case<'_>) -> &'static [&'static str] {
    match (is_touched(case, case.first), is_touched(case, case.second)) {
        (true, true) => &["a", "b"],
        (true, false) => &["a"],
        (false, true) => &["b"],
        (false, false) => &[],
    }
}

/// Whether a clause changes a row that two rows of the source match.
fn is_ambiguous(case: &Case<'_>, row: &Pair) -> bool {
    !matches!(case.clauses.matched, Matched::Stays) && count(case.source, row) > 1
}

/// Why nothing comes of a row: it is ambiguous, or has another fault.
fn fault_of(case: &Case<'_>, row: &Pair, ambiguous: bool) -> Option<Why> {
    if ambiguous {
        return is_ambiguous(case, row).then_some(Why::Ambiguous);
    }
    match image_of(case, row) {
        Image::Fails(why) => Some(why),
        _ => None,
    }
}

/// The least row with a fault of this sort, of these and the one before.
fn least_fault(
    case: &Case<'_>,
    rows: &[Pair],
    ambiguous: bool,
    first: Option<(Why, Pair)>,
) -> Option<(Why, Pair)> {
    let mut least = first;
    for row in rows {
        if let Some(why) = fault_of(case, row, ambiguous) {
            match least {
                Some((_, before)) if before <= *row => {}
                _ => least = Some((why, *row)),
            }
        }
    }
    least
}

/// The least row with a fault of this sort.
fn fault(case: &Case<'_>, ambiguous: bool) -> Option<(Why, Pair)> {
    let least = least_fault(case, case.first, ambiguous, None);
    least_fault(case, case.second, ambiguous, least)
}

/// Whether a merge comes to what is described.
fn agrees(alloc: Global, case: &Case<'_>) -> Result<bool, NoMemory> {
    match fault(case, true).or(fault(case, false)) {
        Some((why, row)) => Ok(comes_to(alloc, case, Answer::Fails(why, row))),
        None => {
            let rows = rows_that_come(alloc, case)?;
            Ok(comes_to(alloc, case, Answer::Rows(removed(case), rows.as_slice())))
        }
    }
}

const MATCHED: [Matched; 4] = [Matched::Stays, Matched::Goes, Matched::Takes, Matched::Adds];

const OTHER: [Other; 4] = [Other::Stays, Other::Goes, Other::Falls, Other::Turns];

/// Whether merges of these rows with any clauses come to what is described.
fn all_agree(
    alloc: Global,
    source: &[Pair],
    first: &[Pair],
    second: &[Pair],
) -> Result<bool, NoMemory> {
    for matched in MATCHED {
        for other in OTHER {
            for insert in [false, true] {
                let clauses = Clauses {
                    matched,
                    insert,
                    other,
                    above: 1,
                };
                let case = Case {
                    clauses,
                    source,
                    first,
                    second,
                    nulls: false,
                };
                if !agrees(alloc, &case)? {
                    return Ok(false);
                }
            }
        }
    }
    Ok(true)
}

const ROWS: [Pair; 8] = [
    (Some(1), Some(2)),
    (None, Some(2)),
    (Some(2), Some(1)),
    (Some(1), Some(i64::MAX)),
    (Some(1), Some(0)),
    (Some(2), Some(3)),
    (Some(3), Some(4)),
    (None, Some(0)),
];

/// Some of the rows.
fn rows(at: usize, count: usize) -> &'static [Pair] {
    ROWS.get(at..at.saturating_add(count)).unwrap_or(&[])
}

#[test]
fn merges_come_to_what_is_described(rt: HostRuntime) -> Result<(), Fail> {
    let alloc = rt.alloc();
    for at in 0..6usize {
        for count in 0..4usize {
            for first in 0..6usize {
                let (source, left, right) = (rows(at, count), rows(first, 2), rows(4, count));
                assert!(rt;
                    all_agree(alloc, source, left, right)?,
                    "at {at}, {count}, {first}"
                );
            }
        }
    }
    Ok(())
}
