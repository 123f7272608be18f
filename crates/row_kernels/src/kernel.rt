//! What is timed.

/// A change of rows.
#[derive(Clone, Copy, Debug, Drop, PartialEq, Eq)]
pub enum RowChange {
    /// `delete where v > 5 and id <> 3`
    Delete,
    /// `update set v = id where v > 5 and id <> 3`
    Update,
}

/// What is timed: over rows of two longs, `id` and `v`, or over what is known of files.
#[derive(Clone, Copy, Debug, Drop, PartialEq, Eq)]
pub enum RowKernel {
    /// `rows-made`: the rows are made, as for the others.
    Made,
    /// `rows-truth`: the predicate `v > 5 and id <> 3` is asked of each row.
    Truth,
    /// `rows-plain`: the same comparisons are written out.
    Plain,
    /// `rows-delete` and `rows-update`: the rows are changed for which it is true.
    Change(RowChange),
    /// `rows-merge`: a tenth as many rows are merged into the rows.
    Merge,
    /// `files-asked`: 50,000 files are asked so many times whether they may match `id > 250000 and name <> 'n3'`.
    Asked,
    /// `files-known`: the same, where what is known of each file is made of its statistics each time.
    Known,
    /// `files-keys`: a hundred files are asked whether they may match one of so many keys.
    Keys,
}
