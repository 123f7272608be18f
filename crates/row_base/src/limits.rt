//! The limits of tables, statements and scripts.

/// The most columns that a table has.
pub const MAX_COLUMNS: usize = 64;

/// The most bytes that a text has, in UTF-8.
pub const MAX_TEXT_BYTES: usize = 65_535;

/// The most rows that one statement lists.
pub const MAX_STATEMENT_ROWS: usize = 65_536;

/// The most statements that one session has.
pub const MAX_STATEMENTS: usize = 4_096;

/// The most sessions that a script has.
pub const MAX_SESSIONS: usize = 64;

/// The most items that a script's schedule has.
pub const MAX_SCHEDULE_ITEMS: usize = 1_048_576;

/// The most bytes that a script has.
pub const MAX_SCRIPT_BYTES: usize = 16_777_216;

/// The most attempts that a script allows to a commit.
pub const MAX_ATTEMPTS: u32 = 1_000_000;

/// The longest wait of a statement and the longest interval of a property, in milliseconds.
pub const MAX_WAIT: u64 = 1 << 40;

/// A table's newest version is below this number.
pub const VERSION_LIMIT: u64 = 1 << 20;

/// The most bytes of an object that is read, and of a commit or a checkpoint that is written.
pub const MAX_OBJECT_BYTES: usize = 67_108_864;

/// The most rows of a data file that is read.
pub const MAX_FILE_ROWS: usize = 16_777_216;

/// The greatest reading of a store's clock, in milliseconds.
pub const LAST_TIME: u64 = 1 << 61;
