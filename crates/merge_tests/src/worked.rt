//! Merges into rows of two longs whose outcomes are worked out by hand.
use crate::pairs::{Answer, Case, Clauses, Matched, Other, Pair, Why, comes_to};
use row_base::RowFault;
use std::alloc::Global;
use std::test::Fail;

/// The rows of the source, those of the two files, and what a merge comes to.
type Sample = (
    &'static [Pair],
    &'static [Pair],
    &'static [Pair],
    Answer<'static>,
);

/// Whether merges with these clauses come to what the samples say.
fn all_come(alloc: Global, clauses: Clauses, nulls: bool, samples: &[Sample]) -> bool {
    for (source, first, second, answer) in samples {
        let case = Case {
            clauses,
            source,
            first,
            second,
            nulls,
        };
        if !comes_to(alloc, &case, *answer) {
            return false;
        }
    }
    true
}

const MOST: i64 = i64::MAX;

/// `when matched then update set v = source.v`
const TAKES_ALONE: [Sample; 1] = [
    // two rows of the source match one
    (
        &[(Some(1), Some(20)), (Some(1), Some(30))],
        &[(Some(1), Some(10))],
        &[],
        Answer::Fails(Why::Ambiguous, (Some(1), Some(10))),
    ),
];

/// `when matched then update set v = source.v when not matched then insert`
const TAKES: [Sample; 3] = [
    // two that match none are both added
    (
        &[(Some(4), Some(1)), (Some(4), Some(1))],
        &[(Some(1), Some(1))],
        &[],
        Answer::Rows(&[], &[(Some(4), Some(1)), (Some(4), Some(1))]),
    ),
    // a row that stays as it was is replaced
    (
        &[(Some(1), Some(10))],
        &[(Some(1), Some(10))],
        &[(Some(2), Some(20))],
        Answer::Rows(&["a"], &[(Some(1), Some(10))]),
    ),
    (
        &[(Some(2), Some(8)), (Some(1), Some(9))],
        &[(Some(1), Some(1))],
        &[(Some(2), Some(2)), (Some(3), Some(3))],
        Answer::Rows(
            &["a", "b"],
            &[(Some(1), Some(9)), (Some(2), Some(8)), (Some(3), Some(3))],
        ),
    ),
];

/// `when not matched then insert`
const INSERTS: [Sample; 3] = [
    (
        &[(Some(5), Some(1))],
        &[],
        &[],
        Answer::Rows(&[], &[(Some(5), Some(1))]),
    ),
    // no clause changes the row that two match
    (
        &[(Some(1), Some(20)), (Some(1), Some(30))],
        &[(Some(1), Some(10))],
        &[],
        Answer::Rows(&[], &[]),
    ),
    (
        &[(Some(1), Some(20)), (None, Some(2)), (Some(3), Some(30))],
        &[(None, Some(2))],
        &[(Some(1), Some(10))],
        Answer::Rows(&[], &[(None, Some(2)), (Some(3), Some(30))]),
    ),
];

/// `when matched then delete when not matched then insert when not matched by source and v > 25 then update set v = 0`
const ALL: [Sample; 2] = [
    (
        &[(Some(2), Some(21)), (Some(4), Some(40))],
        &[
            (Some(1), Some(10)),
            (Some(2), Some(20)),
            (Some(3), Some(30)),
        ],
        &[],
        Answer::Rows(
            &["a"],
            &[(Some(1), Some(10)), (Some(3), Some(0)), (Some(4), Some(40))],
        ),
    ),
    // a null key matches nothing, and no null key of the source
    (
        &[(None, Some(2)), (None, Some(2))],
        &[(None, Some(26)), (Some(1), Some(1))],
        &[(None, Some(2))],
        Answer::Rows(
            &["a"],
            &[
                (None, Some(0)),
                (Some(1), Some(1)),
                (None, Some(2)),
                (None, Some(2)),
            ],
        ),
    ),
];

/// `when not matched by source and v > 5 then delete`; `v` may be null.
const OTHERS_GO: [Sample; 2] = [
    // a matched row is none of the others
    (
        &[(Some(2), Some(21))],
        &[(Some(1), Some(10)), (Some(2), Some(20))],
        &[(Some(2), Some(9))],
        Answer::Rows(&["a"], &[(Some(2), Some(20))]),
    ),
    // unknown is not yes
    (
        &[],
        &[(Some(1), None), (Some(2), Some(5)), (Some(3), Some(6))],
        &[(Some(4), None)],
        Answer::Rows(&["a"], &[(Some(1), None), (Some(2), Some(5))]),
    ),
];

/// `when matched then update set v = v + source.v`; `v` may be null.
const ADDS: [Sample; 4] = [
    (
        &[(Some(1), Some(5)), (Some(3), None)],
        &[(Some(1), Some(10)), (Some(2), Some(1)), (Some(3), Some(1))],
        &[],
        Answer::Rows(
            &["a"],
            &[(Some(1), Some(15)), (Some(2), Some(1)), (Some(3), None)],
        ),
    ),
    // the least row of all files is named
    (
        &[(Some(5), Some(1)), (Some(2), Some(1)), (Some(3), Some(1))],
        &[(Some(5), Some(MOST))],
        &[(Some(2), Some(MOST)), (Some(3), Some(1))],
        Answer::Fails(Why::Overflow, (Some(2), Some(MOST))),
    ),
    // an ambiguous row comes before a lesser one of which nothing comes
    (
        &[(Some(1), Some(1)), (Some(7), Some(1)), (Some(7), Some(2))],
        &[(Some(1), Some(MOST)), (Some(7), Some(8))],
        &[(Some(7), Some(6)), (Some(7), Some(7))],
        Answer::Fails(Why::Ambiguous, (Some(7), Some(6))),
    ),
    // also where it would overflow itself
    (
        &[(Some(7), Some(1)), (Some(7), Some(2))],
        &[(Some(7), Some(MOST))],
        &[],
        Answer::Fails(Why::Ambiguous, (Some(7), Some(MOST))),
    ),
];

const NULL: Why = Why::Row(RowFault::Null { column: 1 });

/// `when not matched by source and v > 0 then update set id = v + 1, v = id`; `v` may not be null.
const TURNS: [Sample; 5] = [
    // the expressions see the row as it was
    (
        &[],
        &[(Some(2), Some(3)), (Some(9), Some(0))],
        &[],
        Answer::Rows(&["a"], &[(Some(4), Some(2)), (Some(9), Some(0))]),
    ),
    (
        &[(Some(7), Some(7))],
        &[(None, Some(4)), (Some(2), Some(3))],
        &[(None, Some(3))],
        Answer::Fails(NULL, (None, Some(3))),
    ),
    // of one row an overflow comes first
    (
        &[],
        &[(None, Some(MOST))],
        &[],
        Answer::Fails(Why::Overflow, (None, Some(MOST))),
    ),
    // of several rows the least one does
    (
        &[],
        &[(None, Some(MOST)), (Some(1), Some(MOST))],
        &[(None, Some(7))],
        Answer::Fails(NULL, (None, Some(7))),
    ),
    // a row that the clause does not change has no fault
    (
        &[(Some(1), Some(1))],
        &[(Some(1), Some(MOST))],
        &[(None, Some(0))],
        Answer::Rows(&[], &[]),
    ),
];

/// The clauses of a merge, whether `v` may be null, and samples.
type Merge = (Matched, bool, Other, i64, bool, &'static [Sample]);

const MERGES: [Merge; 7] = [
    (Matched::Takes, false, Other::Stays, 0, false, &TAKES_ALONE),
    (Matched::Takes, true, Other::Stays, 0, false, &TAKES),
    (Matched::Stays, true, Other::Stays, 0, false, &INSERTS),
    (Matched::Goes, true, Other::Falls, 25, false, &ALL),
    (Matched::Stays, false, Other::Goes, 5, true, &OTHERS_GO),
    (Matched::Adds, false, Other::Stays, 0, true, &ADDS),
    (Matched::Stays, false, Other::Turns, 0, false, &TURNS),
];

#[test]
fn merges_come_to_what_was_worked_out(rt: HostRuntime) -> Result<(), Fail> {
    for (matched, insert, other, above, nulls, samples) in MERGES {
        let clauses = Clauses {
            matched,
            insert,
            other,
            above,
        };
        assert!(rt; all_come(rt.alloc(), clauses, nulls, samples));
    }
    Ok(())
}
