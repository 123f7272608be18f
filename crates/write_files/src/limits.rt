//! The limits of new data files.

/// The most rows of a new data file.
pub const MAX_NEW_FILE_ROWS: usize = 65_536;

/// The most bytes of a new data file's rows by plain size, unless it has one row.
pub const MAX_NEW_FILE_SIZE: u64 = 33_554_432;
