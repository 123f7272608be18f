//! Facts about new files alone, which no code computes.
ghost use Rattle.write_files.specs.Laws.{GroupsAreOrdered, RowsAreKept, FilesAreWithin, ValuesAreOne, NamesDiffer, FilesAreRead};

use parquet_plain::files_read_back;
use table_rules::names_are_told_apart;

/// New rows are grouped by the values of the partition columns, groups in order of these values and rows in order. The
/// rows of all files together are the new rows. Each file has one row at least, and is within the limits; its rows
/// have the partition values of its add, and no two files have one name. A file is read back as its rows, with null in
/// the partition columns.
pub fn files_hold_the_rows()
    ensures groups { GroupsAreOrdered }
    ensures kept { RowsAreKept }
    ensures within { FilesAreWithin }
    ensures values { ValuesAreOne }
    ensures names { NamesDiffer }
    ensures read { FilesAreRead }
{
    names_are_told_apart();
    files_read_back();
}
