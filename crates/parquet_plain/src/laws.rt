//! Facts about files alone, which no code computes.
ghost use Rattle.parquet_plain.specs.Grammar.{FilesAreRead, RowsAreBeside, RowsAreOne};
ghost use Rattle.parquet_plain.specs.ReadBack.{FilesReadBack};

/// What `read_file` reads as rows is exactly what the format says of a file of these rows, and a file holds one list of
/// rows at most. Columns are side by side where each row has of each column the value at the row's place.
pub fn files_are_read()
    ensures read { FilesAreRead }
    ensures one { RowsAreOne }
    ensures beside { RowsAreBeside }
{}

/// What `write_file` writes is read back as its rows, with null in the partition columns.
pub fn files_read_back()
    ensures { FilesReadBack }
{}
