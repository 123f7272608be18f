//! What is timed.

/// How far a kernel goes with the rows of a table; each step does the ones before it too.
#[derive(Clone, Copy, Debug, Drop, PartialEq, Eq)]
pub enum Step {
    /// `rows`: they are made.
    Rows,
    /// `write`: their file is made.
    Write,
    /// `copy`: the bytes of the file are copied.
    Copy,
    /// `read`: the file is read.
    Read,
}

/// A table whose files are timed.
#[derive(Clone, Copy, Debug, Drop, PartialEq, Eq)]
pub enum Table {
    /// `longs`: two columns of longs.
    Longs,
    /// `words`: a column of a hundred texts.
    Words,
    /// `texts`: a column of texts without repeats.
    Texts,
    /// `booleans`: a column of booleans and nulls.
    Booleans,
}

/// What is timed.
#[derive(Clone, Copy, Debug, Drop, PartialEq, Eq)]
pub enum Kernel {
    /// `unpack-W`: the unpacking of values of so many bits.
    Unpack(u8),
    /// `pack-W`: their packing.
    Pack(u8),
    /// `log-write`: the writing of a commit.
    LogWrite,
    /// `log-read`: its writing and reading.
    LogRead,
    /// `parquet-STEP-TABLE`: the steps of a table's file.
    Parquet(Step, Table),
}
