//! Whole pages: data pages, dictionary pages and the levels of data pages (Parquet format, README.md, "Data Pages";
//! parquet.thrift, `PageHeader`).
ghost use Rattle.std.specs.Prelude.{◌≡◌, ◌≤◌, length, Ok, IfOk, IfSome, option_map, MatchResult};
ghost use Rattle.std.specs.List.{All};
ghost use Rattle.bit_pack.specs.Bits.{most_values};
ghost use Rattle.parquet_meta.specs.Faults.{FaultOf, Reads};
ghost use Rattle.parquet_pages.specs.Gives.{Gives};
ghost use Rattle.parquet_pages.specs.Pages as spec;
ghost use Rattle.parquet_pages.specs.Written as written;

use crate::fault::BodyFault;
use crate::levels::{append_levels, has_null, levels, spread, there};
use crate::places::indexed_values;
use crate::plain::{append_values, plain_values, room_for};
use bit_pack::MOST_VALUES;
use parquet_meta::{DataPageHead, DictionaryPageHead, FileFault, PageAt};
use row_base::{Datum, Kind, NoMemory};
use std::alloc::Global;

/// The types of pages that are read (parquet.thrift, `PageType`).
const DATA_PAGE: i32 = 0;

const DICTIONARY_PAGE: i32 = 2;

/// The encodings that are read (parquet.thrift, `Encoding`).
const PLAIN: i32 = 0;

const PLAIN_DICTIONARY: i32 = 2;

const RLE: i32 = 3;

const RLE_DICTIONARY: i32 = 8;

fn is_plain(encoding: i32) -> bool
    ensures { result ≡ spec.is_plain encoding }
{
    encoding == PLAIN
}

fn is_dictionary(encoding: i32) -> bool
    ensures { result ≡ spec.is_dictionary encoding }
{
    encoding == PLAIN_DICTIONARY || encoding == RLE_DICTIONARY
}

fn is_hybrid(encoding: i32) -> bool
    ensures { result ≡ spec.is_hybrid encoding }
{
    encoding == RLE
}

/// That the encodings of a data page are read. Those of levels are looked at where the page has them.
fn check_head(optional: bool, head: &DataPageHead) -> Result<DataPageHead, FileFault>
    ensures { Reads result (spec.checked_head optional head.now) }
{
    if !(is_plain(head.encoding) || is_dictionary(head.encoding)) {
        return Err(FileFault::Encoding {
            encoding: head.encoding,
        });
    }
    if optional && !is_hybrid(head.definition_level_encoding) {
        return Err(FileFault::Encoding {
            encoding: head.definition_level_encoding,
        });
    }
    Ok(*head)
}

/// The head of a data page that is read.
#[tactic(auto, unfolding(crate::specs::Pages::data_head))]
fn data_head(optional: bool, page: &PageAt) -> Result<DataPageHead, FileFault>
    ensures { Reads result (spec.data_head optional page.now) }
{
    if page.head.page_type != DATA_PAGE {
        return Err(FileFault::PageKind {
            kind: page.head.page_type,
        });
    }
    match &page.head.data_page {
        Some(head) => check_head(optional, head),
        None => Err(FileFault::Page { at: page.body }),
    }
}

/// The head of a dictionary page that is read.
#[tactic(auto, unfolding(crate::specs::Pages::dictionary_head))]
fn dictionary_head(page: &PageAt) -> Result<DictionaryPageHead, FileFault>
    ensures { Reads result (spec.dictionary_head page.now) }
{
    if page.head.page_type != DICTIONARY_PAGE {
        return Err(FileFault::PageKind {
            kind: page.head.page_type,
        });
    }
    match page.head.dictionary_page {
        Some(head) => {
            if is_plain(head.encoding) || head.encoding == PLAIN_DICTIONARY {
                Ok(head)
            } else {
                Err(FileFault::Encoding {
                    encoding: head.encoding,
                })
            }
        }
        None => Err(FileFault::Page { at: page.body }),
    }
}

/// A number of values, where it is at least 0 and allowed.
fn count_of(values: i32) -> Option<usize>
    ensures value { result ≡ spec.count_of values }
    ensures few { IfSome result (λ count. count ≤ most_values) }
{
    match usize::try_from(values) {
        Ok(count) if count <= MOST_VALUES => Some(count),
        _ => None,
    }
}

/// The bytes of the body at this place, where they are so many and the file has them.
fn bytes_at(at: usize, size: i32, file: &[u8]) -> Option<&[u8]>
    ensures { option_map (λ b. b.now) result ≡ spec.bytes_at at size file.now }
{
    let Ok(size) = usize::try_from(size) else {
        return None;
    };
    if at > file.len() || size > file.len() - at {
        return None;
    }
    Some(&file[at..at + size])
}

/// The number of a page's values, and the bytes of its body.
#[tactic(auto, unfolding(crate::specs::Pages::body_of))]
fn body_of<'a>(page: &PageAt, values: i32, file: &'a [u8]) -> Option<(usize, &'a [u8])>
    ensures body { option_map (λ b. (b.0, b.1.now)) result ≡ spec.body_of page.now values file.now }
    ensures few { IfSome result (λ b. b.0 ≤ most_values) }
{
    let count = count_of(values)?;
    let bytes = bytes_at(page.body, page.head.compressed_page_size, file)?;
    Some((count, bytes))
}

/// So many values that are there, PLAIN or by their places in the dictionary that came before.
#[tactic(auto, unfolding(crate::specs::Pages::present_values))]
fn present_values(
    alloc: Global,
    kind: Kind,
    encoding: i32,
    dictionary: Option<&[Datum]>,
    count: usize,
    bytes: &[u8],
) -> Result<Vec<Datum>, BodyFault>
    requires { count ≤ most_values }
    ensures { Gives result (λ v. v.items) (spec.present_values kind encoding (option_map (λ d. d.now) dictionary.entry) count bytes.now) }
{
    if is_plain(encoding) {
        return plain_values(alloc, kind, count, bytes);
    }
    match dictionary {
        Some(dictionary) => indexed_values(alloc, dictionary, count, bytes),
        None => Err(BodyFault::Damaged),
    }
}

/// The values of a page's body, with null where the levels have it.
#[tactic(auto, unfolding(crate::specs::Pages::body_values))]
fn body_values(
    alloc: Global,
    kind: Kind,
    optional: bool,
    encoding: i32,
    dictionary: Option<&[Datum]>,
    count: usize,
    bytes: &[u8],
) -> Result<Vec<Datum>, BodyFault>
    requires { count ≤ most_values }
    ensures { Gives result (λ v. v.items) (spec.body_values kind optional encoding (option_map (λ d. d.now) dictionary.entry) count bytes.now) }
{
    if !optional {
        return present_values(alloc, kind, encoding, dictionary, count, bytes);
    }
    let (levels, rest) = levels(alloc, count, bytes)?;
    let there = there(levels.as_slice());
    let values = present_values(alloc, kind, encoding, dictionary, there, rest)?;
    Ok(spread(alloc, levels.as_slice(), values)?)
}

/// The values of a data page, with null where the column may be null and has none. Its faults come in this order:
///
/// - `PageKind` for a page of another type;
/// - `Encoding` for values in an encoding other than PLAIN (0), PLAIN_DICTIONARY (2) and RLE_DICTIONARY (8), or, where
///   the column may be null, for definition levels in another than RLE (3);
/// - `Page` with the place of the body, for a body that passes the file's end, a number of values that is negative or
///   above 2^26, levels or values that can't be read, a text that isn't UTF-8 or has more than `MAX_TEXT_BYTES`, a date
///   outside 0001-01-01 to 9999-12-31, values in a dictionary where none is given, and a place outside it.
///
/// The body has `compressed_page_size` bytes, of which any behind the values are ignored (Parquet format, README.md,
/// "Data Pages"; Encodings.md, "Plain", "Dictionary Encoding" and "Run Length Encoding / Bit-Packing Hybrid").
#[tactic(auto, unfolding(crate::specs::Pages::page_values))]
pub fn read_page(
    alloc: Global,
    kind: Kind,
    optional: bool,
    page: &PageAt,
    file: &[u8],
    dictionary: Option<&[Datum]>,
) -> Result<Vec<Datum>, FileFault>
    ensures { MatchResult result (λ v. spec.page_values kind optional page.now file.now (option_map (λ d. d.now) dictionary.entry) ≡ Ok v.items)
        (λ e. FaultOf e (spec.page_values kind optional page.now file.now (option_map (λ d. d.now) dictionary.entry))) }
{
    let head = data_head(optional, page)?;
    let Some((count, bytes)) = body_of(page, head.num_values, file) else {
        return Err(FileFault::Page { at: page.body });
    };
    match body_values(
        alloc,
        kind,
        optional,
        head.encoding,
        dictionary,
        count,
        bytes,
    ) {
        Ok(values) => Ok(values),
        Err(fault) => Err(fault.at(page.body)),
    }
}

/// Whether a body has a null, where its levels can be read.
fn body_has_null(
    alloc: Global,
    optional: bool,
    count: usize,
    bytes: &[u8],
) -> Result<bool, BodyFault>
    ensures { Gives result (λ x. x) (spec.body_has_null optional count bytes.now) }
{
    if !optional {
        return Ok(false);
    }
    let (levels, _rest) = levels(alloc, count, bytes)?;
    Ok(has_null(levels.as_slice()))
}

/// Whether a data page has a null. Only its head and its levels are looked at; the faults are those of `read_page` up to
/// there (Parquet format, README.md, "Nulls").
#[tactic(auto, unfolding(crate::specs::Pages::page_has_null))]
pub fn page_has_null(
    alloc: Global,
    optional: bool,
    page: &PageAt,
    file: &[u8],
) -> Result<bool, FileFault>
    ensures { Reads result (spec.page_has_null optional page.now file.now) }
{
    let head = data_head(optional, page)?;
    let Some((count, bytes)) = body_of(page, head.num_values, file) else {
        return Err(FileFault::Page { at: page.body });
    };
    match body_has_null(alloc, optional, count, bytes) {
        Ok(found) => Ok(found),
        Err(fault) => Err(fault.at(page.body)),
    }
}

/// The values of a dictionary page. Its faults come in this order: `PageKind` for a page of another type; `Encoding` for
/// values in an encoding other than PLAIN (0) and PLAIN_DICTIONARY (2); `Page` with the place of the body, as for a data
/// page (Parquet format, Encodings.md, "Dictionary Encoding").
#[tactic(auto, unfolding(crate::specs::Pages::dictionary_values))]
pub fn read_dictionary(
    alloc: Global,
    kind: Kind,
    page: &PageAt,
    file: &[u8],
) -> Result<Vec<Datum>, FileFault>
    ensures { MatchResult result (λ v. spec.dictionary_values kind page.now file.now ≡ Ok v.items)
        (λ e. FaultOf e (spec.dictionary_values kind page.now file.now)) }
{
    let head = dictionary_head(page)?;
    let Some((count, bytes)) = body_of(page, head.num_values, file) else {
        return Err(FileFault::Page { at: page.body });
    };
    match plain_values(alloc, kind, count, bytes) {
        Ok(values) => Ok(values),
        Err(fault) => Err(fault.at(page.body)),
    }
}

/// The body of a data page with PLAIN values: where the column may be null, the definition levels behind their number of
/// bytes, and then the values that aren't null (Parquet format, README.md, "Data Pages"). The page's head has the
/// encoding 0 and both level encodings 3.
#[tactic(auto, unfolding(crate::specs::Written::page_text))]
pub fn write_page(
    alloc: Global,
    kind: Kind,
    optional: bool,
    values: &[Datum],
) -> Result<Vec<u8>, NoMemory>
    requires few { length values.now ≤ most_values }
    requires stand { All (written.CanStand kind optional) values.now }
    ensures { IfOk result (λ v. v.items ≡ written.page_text kind optional values.now) }
{
    let mut out = Vec::with_capacity(alloc, room_for(kind, values.len()))?;
    append_levels(alloc, optional, values, &mut out)?;
    append_values(alloc, kind, values, &mut out)?;
    Ok(out)
}
