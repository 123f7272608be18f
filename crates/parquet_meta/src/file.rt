//! The footer of a file and the heads of its pages, read and written.
ghost use Rattle.std.specs.Prelude.{◌≡◌, ◌+◌, ◌≤◌, length, codes, IfOk, MatchResult};
ghost use Rattle.std.specs.Str.{bytes_eq};
ghost use Rattle.parquet_meta.specs.Faults.{Reads};
ghost use Rattle.parquet_meta.specs.Footer as spec;
ghost use Rattle.parquet_meta.specs.Heads.{page_head_at};
ghost use Rattle.parquet_meta.specs.Written.{footer_text, head_text};

use crate::fault::FileFault;
use crate::footer::read_file;
use crate::head::{PageAt, PageHead};
use crate::meta::FileMeta;
use crate::page::{page_head, read_numbers};
use crate::reader::Reader;
use crate::written::{write_file, write_head};
use row_base::NoMemory;
use row_base::limits::MAX_OBJECT_BYTES;
use std::alloc::Global;
use thrift_compact::Appender;

/// The fewest bytes of a file: the magic at both ends, and the footer's length.
const MIN_SIZE: usize = 12;

/// Four bytes of a file are the magic.
fn is_magic(bytes: &[u8]) -> bool
    ensures { result ≡ bytes_eq bytes.now (codes "PAR1") }
{
    bytes == b"PAR1".as_slice()
}

/// The length of a file's footer, which stands before the last magic.
fn footer_len(file: &[u8]) -> u32
    requires { 8 ≤ length file.now }
    ensures { result ≡ spec.footer_len file.now }
{
    match file[file.len() - 8..].first_chunk() {
        Some(bytes) => u32::from_le_bytes(*bytes),
        None => unreachable!(),
    }
}

/// A file's footer, and its place in the file.
#[tactic(auto, unfolding(crate::specs::Footer::footer_found))]
fn find_footer(file: &[u8]) -> Result<(&[u8], usize), FileFault>
    ensures { MatchResult result (λ f. (spec.footer_found file.now ≡ Ok (record { bytes = f.0.now; start = f.1 })) × (f.1 + length f.0.now ≤ length file.now)) (λ fault. spec.footer_found file.now ≡ Err fault) }
{
    let len = file.len();
    if len < MIN_SIZE || MAX_OBJECT_BYTES < len {
        return Err(FileFault::Short);
    }
    if !(is_magic(&file[..4]) && is_magic(&file[len - 4..])) {
        return Err(FileFault::Magic);
    }
    let footer = footer_len(file) as usize;
    if len < footer + 12 {
        return Err(FileFault::Footer);
    }
    let start = len - 8 - footer;
    Ok((&file[start..][..footer], start))
}

/// What the footer of a file says (Parquet format, "File format"). Its faults in their order are `Short`, `Magic`,
/// `Footer`, `Thrift` and `NoMemory` alone; any tree of elements and any number is read.
#[tactic(auto, unfolding(crate::specs::Footer::footer_of))]
pub fn read_footer(alloc: Global, file: &[u8]) -> Result<FileMeta, FileFault>
    ensures { Reads result (spec.footer_of file.now) }
{
    let (bytes, start) = find_footer(file)?;
    let mut reader = Reader::new(bytes, start);
    read_file(alloc, &mut reader)
}

/// The head of the page at a place of a file, and where its body begins. Its faults are `Thrift`, at its place in the
/// file, and `Page` at the head's first byte where a number of the head is below 0 or past 2^31 - 1, which is looked at
/// once all of the head is read. It takes no memory.
#[tactic(auto, unfolding(crate::specs::Heads::page_head_at))]
pub fn read_page_head(file: &[u8], at: usize) -> Result<PageAt, FileFault>
    ensures { Reads result (page_head_at file.now at) }
{
    if file.len() < at {
        return Err(FileFault::Thrift { at: file.len() });
    }
    let mut reader = Reader::new(&file[at..], at);
    let numbers = read_numbers(&mut reader)?;
    let head = page_head(at, numbers)?;
    Ok(PageAt {
        head,
        body: reader.place(),
    })
}

/// The text of a file's metadata alone, without its length and the magic behind it. `NoMemory` also comes for a list of
/// 2^32 elements or more, which has no text.
pub fn write_footer(alloc: Global, meta: &FileMeta) -> Result<Vec<u8>, NoMemory>
    ensures { IfOk result (λ v. v.items ≡ footer_text meta.now) }
{
    let mut out = Appender::new(alloc);
    write_file(&mut out, meta)?;
    Ok(out.into_bytes())
}

/// The text of a page's head.
pub fn write_page_head(alloc: Global, head: &PageHead) -> Result<Vec<u8>, NoMemory>
    ensures { IfOk result (λ v. v.items ≡ head_text head.now) }
{
    let mut out = Appender::new(alloc);
    write_head(&mut out, head)?;
    Ok(out.into_bytes())
}
