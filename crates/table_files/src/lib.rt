//! Data files as a table has them, and what a commit says, sorted out of the actions of the log. There is no code: the laws
//! over tables speak of these, and whoever keeps a table says in these words what it keeps.
#![tactic(auto)]

ghost use Rattle.table_files.specs.Commits.{EachPartIsSorted};

/// What some actions say, and then others, is what all of them say: the first about the commit itself, the newest protocol
/// and metadata, and the transactions and files of both.
pub fn each_part_is_sorted()
    ensures { EachPartIsSorted }
{}
