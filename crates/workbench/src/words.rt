//! The words of the command line.

ghost use Rattle.std.specs.Prelude.{◌≡◌, ◌≤◌, option_map, IfSome};
ghost use Rattle.std.specs.Option.{option_copied, option_and_then};
ghost use Rattle.std.specs.List.{list_all};
ghost use Rattle.std.specs.Char.{is_ascii_digit};
ghost use Rattle.workbench.specs.Words as spec;

use format_kernels::{Kernel, Step, Table};
use row_kernels::{RowChange, RowKernel};
use std::str;
use thiserror::Error;

/// The widest values, in bits.
const MOST_BITS: u32 = 32;

/// What a file is to be read as.
#[derive(Clone, Copy, Debug, Drop, PartialEq, Eq)]
pub enum Format {
    /// `hybrid`: one byte of width, four bytes of count, lowest first, and then the hybrid.
    Hybrid,
    /// `thrift`: a struct in the Thrift compact protocol.
    Thrift,
    /// `parquet`: a Parquet file.
    Parquet,
}

/// What is timed.
#[derive(Clone, Copy, Debug, Drop, PartialEq, Eq)]
pub enum Timed {
    /// A kernel of the formats.
    Format(Kernel),
    /// A kernel over rows in memory, or over what is known of files.
    Rows(RowKernel),
}

/// What the program is asked to do.
#[derive(Clone, Copy, Debug, Drop, PartialEq, Eq)]
pub enum Command {
    /// To run a kernel so many times, or over so many rows, keys or added files.
    Time(Timed, u32),
    /// To read a file.
    Read(Format),
}

/// Why the words aren't accepted.
#[derive(Clone, Copy, Debug, Drop, PartialEq, Eq, Error)]
pub enum WordsFault {
    /// There aren't three words, or they aren't text.
    #[error("usage: workbench time KERNEL N, or workbench read FORMAT FILE")]
    Count,
    /// The first word is unknown.
    #[error("unknown command: use time or read")]
    Command,
    /// No kernel has this name.
    #[error("unknown kernel: use unpack-W, pack-W, log-write, log-read, parquet-STEP-TABLE, rows-WORK or files-WORK")]
    Kernel,
    /// No number of runs, rows, keys or added files in decimal digits, or one of more than 32 bits.
    #[error("the last word is no number from 0 to 4294967295")]
    Runs,
    /// No format has this name.
    #[error("unknown format: use hybrid, thrift or parquet")]
    Format,
}

/// What three words ask for, or the first fault in them.
pub fn command_of(word: &str, name: &str, last: &str) -> Result<Command, WordsFault>
    ensures { result ≡ spec.command_of word.now name.now last.now }
{
    match word {
        "time" => time_command(timed_of(name), number_of(last.as_bytes())),
        "read" => match format_of(name) {
            Some(format) => Ok(Command::Read(format)),
            None => Err(WordsFault::Format),
        },
        _ => Err(WordsFault::Command),
    }
}

/// The command of a kernel and its runs.
fn time_command(timed: Option<Timed>, runs: Option<u32>) -> Result<Command, WordsFault>
    ensures { result ≡ spec.time_command timed runs }
{
    let timed = timed.ok_or(WordsFault::Kernel)?;
    let runs = runs.ok_or(WordsFault::Runs)?;
    Ok(Command::Time(timed, runs))
}

/// What a name has timed.
fn timed_of(name: &str) -> Option<Timed>
    ensures { result ≡ spec.timed_of name.now }
{
    match row_kernel_of(name) {
        Some(kernel) => Some(Timed::Rows(kernel)),
        None => format_timed(kernel_of(name)),
    }
}

/// What a kernel of the formats has timed.
fn format_timed(kernel: Option<Kernel>) -> Option<Timed>
    ensures { result ≡ spec.format_timed kernel }
{
    match kernel {
        Some(kernel) => Some(Timed::Format(kernel)),
        None => None,
    }
}

/// The kernel over rows or over what is known of files of a name.
fn row_kernel_of(name: &str) -> Option<RowKernel>
    ensures { result ≡ spec.row_kernel_of name.now }
{
    match name {
        "rows-made" => Some(RowKernel::Made),
        "rows-truth" => Some(RowKernel::Truth),
        "rows-plain" => Some(RowKernel::Plain),
        "rows-delete" => Some(RowKernel::Change(RowChange::Delete)),
        "rows-update" => Some(RowKernel::Change(RowChange::Update)),
        "rows-merge" => Some(RowKernel::Merge),
        _ => file_kernel_of(name),
    }
}

/// The kernel over what is known of files of a name.
fn file_kernel_of(name: &str) -> Option<RowKernel>
    ensures { result ≡ spec.file_kernel_of name.now }
{
    match name {
        "files-asked" => Some(RowKernel::Asked),
        "files-known" => Some(RowKernel::Known),
        "files-keys" => Some(RowKernel::Keys),
        _ => None,
    }
}

/// The kernel of the formats of a name.
fn kernel_of(name: &str) -> Option<Kernel>
    ensures { result ≡ spec.kernel_of name.now }
{
    match name {
        "log-write" => Some(Kernel::LogWrite),
        "log-read" => Some(Kernel::LogRead),
        _ => fronted_kernel(name.as_bytes()),
    }
}

/// The kernel of a name that has parts behind a front.
fn fronted_kernel(name: &[u8]) -> Option<Kernel>
    ensures { result ≡ spec.fronted_kernel name.now }
{
    if let Some(width) = width_after(b"unpack-", name) {
        return Some(Kernel::Unpack(width));
    }
    if let Some(width) = width_after(b"pack-", name) {
        return Some(Kernel::Pack(width));
    }
    match after(b"parquet-", name) {
        Some(name) => parquet_kernel(name),
        None => None,
    }
}

/// The kernel of a step and a table.
fn parquet_kernel(name: &[u8]) -> Option<Kernel>
    ensures { result ≡ spec.parquet_kernel name.now }
{
    if let Some(table) = table_after(b"rows-", name) {
        return Some(Kernel::Parquet(Step::Rows, table));
    }
    if let Some(table) = table_after(b"write-", name) {
        return Some(Kernel::Parquet(Step::Write, table));
    }
    if let Some(table) = table_after(b"copy-", name) {
        return Some(Kernel::Parquet(Step::Copy, table));
    }
    match table_after(b"read-", name) {
        Some(table) => Some(Kernel::Parquet(Step::Read, table)),
        None => None,
    }
}

/// The table that stands behind a front.
fn table_after(front: &[u8], name: &[u8]) -> Option<Table>
    ensures { result ≡ option_and_then spec.table_of (spec.after front.now name.now) }
{
    match after(front, name) {
        Some(name) => table_of(name),
        None => None,
    }
}

/// The table of a name.
fn table_of(name: &[u8]) -> Option<Table>
    ensures { result ≡ spec.table_of name.now }
{
    if name == b"longs".as_slice() {
        Some(Table::Longs)
    } else if name == b"words".as_slice() {
        Some(Table::Words)
    } else if name == b"texts".as_slice() {
        Some(Table::Texts)
    } else if name == b"booleans".as_slice() {
        Some(Table::Booleans)
    } else {
        None
    }
}

/// The format of a name.
fn format_of(name: &str) -> Option<Format>
    ensures { result ≡ spec.format_of name.now }
{
    match name {
        "hybrid" => Some(Format::Hybrid),
        "thrift" => Some(Format::Thrift),
        "parquet" => Some(Format::Parquet),
        _ => None,
    }
}

/// The width that stands behind a front.
fn width_after(front: &[u8], name: &[u8]) -> Option<u8>
    ensures { result ≡ option_and_then spec.width_of (spec.after front.now name.now) }
{
    match after(front, name) {
        Some(digits) => width_of(digits),
        None => None,
    }
}

/// What stands behind a front.
fn after<'a>(front: &[u8], name: &'a [u8]) -> Option<&'a [u8]>
    ensures { option_copied result ≡ spec.after front.now name.now }
{
    name.strip_prefix(front)
}

/// A width in decimal digits.
fn width_of(digits: &[u8]) -> Option<u8>
    ensures { result ≡ spec.width_of digits.now }
{
    match number_of(digits) {
        Some(width) => {
            if width <= MOST_BITS {
                Some(width as u8)
            } else {
                None
            }
        }
        None => None,
    }
}

/// A number of 32 bits in decimal digits.
fn number_of(digits: &[u8]) -> Option<u32>
    ensures { result ≡ spec.number_of digits.now }
{
    if !are_digits(digits) {
        return None;
    }
    match str::from_utf8(digits) {
        Ok(digits) => digits.parse::<u32>().ok(),
        Err(_) => None,
    }
}

/// Whether a word is one decimal digit or more.
fn are_digits(word: &[u8]) -> bool
    ensures { result ≡ spec.are_digits word.now }
{
    !word.is_empty() && has_digits_alone(word)
}

/// Whether each byte is a decimal digit.
fn has_digits_alone(word: &[u8]) -> bool
    ensures { result ≡ list_all is_ascii_digit word.now }
{
    word.iter().all(|byte| byte.is_ascii_digit())
}
