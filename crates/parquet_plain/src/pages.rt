//! The pages of a chunk (README.md, "Data Pages"; parquet.thrift, `PageHeader`).
ghost use Rattle.std.specs.Prelude.{◌≡◌, ◌+◌, ◌-◌, ◌≤◌, ◌<◌, ◌^◌, length, Ok, MatchResult, unsigned_abs, IfOk, nat_lt, ◌++◌};
ghost use Rattle.parquet_meta.specs.Faults.{Reads, FaultOf};
ghost use Rattle.parquet_pages.specs.Pages as pages;
ghost use Rattle.parquet_plain.specs.Reading as spec;

use crate::chunk::Span;
use crate::source::{Leaf, refuse_shape};
use parquet_meta::{DataPageHead, DictionaryPageHead, FileFault, PageAt, read_page_head};
use parquet_pages::{page_has_null, read_dictionary, read_page};
use row_base::{Datum, Items, NoMemory};
use std::alloc::Global;

/// How far the pages of a chunk are read.
#[derive(Debug, Drop)]
pub(crate) struct Walk {
    /// The place of the next page.
    pub(crate) at: usize,
    /// The values so far.
    pub(crate) values: Items<Datum>,
    /// The values of the chunk's dictionary page.
    pub(crate) dictionary: Option<Items<Datum>>,
}

/// Whether an encoding of values is PLAIN, PLAIN_DICTIONARY or RLE_DICTIONARY.
fn is_data_encoding(encoding: i32) -> bool
    ensures { result ≡ spec.is_data_encoding encoding }
{
    encoding == 0 || (encoding == 2 || encoding == 8)
}

/// How many values a data page has whose encodings are read.
fn check_encodings(optional: bool, head: &DataPageHead) -> Result<u32, FileFault>
    ensures { Reads result (spec.encodings_checked optional head.now) }
{
    if !is_data_encoding(head.encoding) {
        return Err(FileFault::Encoding {
            encoding: head.encoding,
        });
    }
    if optional && head.definition_level_encoding != 3 {
        return Err(FileFault::Encoding {
            encoding: head.definition_level_encoding,
        });
    }
    Ok(head.num_values.unsigned_abs())
}

/// How many values a data page has.
#[tactic(auto, unfolding(crate::specs::Reading::count_in))]
fn count_in(optional: bool, page: &PageAt) -> Result<u32, FileFault>
    ensures { Reads result (spec.count_in optional page.now) }
{
    if page.head.page_type != 0 {
        return Err(FileFault::PageKind {
            kind: page.head.page_type,
        });
    }
    match &page.head.data_page {
        Some(head) => check_encodings(optional, head),
        None => Err(FileFault::Page { at: page.body }),
    }
}

/// The encoding of a dictionary page is PLAIN or PLAIN_DICTIONARY.
fn check_dictionary(head: &Option<DictionaryPageHead>) -> Result<(), FileFault>
    ensures { Reads result (spec.dictionary_checked head.now) }
{
    match head {
        Some(head) if head.encoding != 0 && head.encoding != 2 => Err(FileFault::Encoding {
            encoding: head.encoding,
        }),
        _ => Ok(()),
    }
}

/// Whether a page passes the end of its chunk.
fn passes(page: &PageAt, ends: usize) -> bool
    ensures { result ≡ nat_lt ends (spec.page_end page.now) }
{
    ends < page.body || ends - page.body < page.head.compressed_page_size.unsigned_abs() as usize
}

/// Null stands in no column that has none.
#[tactic(auto, unfolding(crate::specs::Reading::nulls_checked))]
fn check_nulls(alloc: Global, leaf: &Leaf, page: &PageAt, file: &[u8]) -> Result<(), FileFault>
    ensures { Reads result (spec.nulls_checked leaf.now page.now file.now) }
{
    if leaf.optional && !leaf.nullable {
        if page_has_null(alloc, leaf.optional, page, file)? {
            return refuse_shape(&leaf.name);
        }
    }
    Ok(())
}

/// A dictionary page, which is the first of its chunk.
#[tactic(auto, unfolding(crate::specs::Reading::with_dictionary))]
fn with_dictionary(
    alloc: Global,
    leaf: &Leaf,
    span: Span,
    file: &[u8],
    page: &PageAt,
    walk: Walk,
) -> Result<Walk, FileFault>
    ensures { Reads result (spec.with_dictionary leaf.now span file.now page.now walk) }
{
    check_dictionary(&page.head.dictionary_page)?;
    if walk.at != span.begins {
        return Err(FileFault::PageKind { kind: 2 });
    }
    if passes(page, span.ends) {
        return Err(FileFault::Page { at: page.body });
    }
    let dictionary = read_dictionary(alloc, leaf.kind, page, file)?;
    Ok(Walk {
        at: page.body + page.head.compressed_page_size.unsigned_abs() as usize,
        values: walk.values,
        dictionary: Some(Items::from_vec(dictionary)),
    })
}

/// The values of a data page.
fn page_values(
    alloc: Global,
    leaf: &Leaf,
    file: &[u8],
    page: &PageAt,
    dictionary: &Option<Items<Datum>>,
) -> Result<Items<Datum>, FileFault>
    ensures { Reads result (pages.page_values leaf.now.kind leaf.now.optional page.now file.now dictionary.now) }
{
    let values = match dictionary {
        Some(dictionary) => {
            read_page(
                alloc,
                leaf.kind,
                leaf.optional,
                page,
                file,
                Some(dictionary.as_slice()),
            )?
        }
        None => read_page(alloc, leaf.kind, leaf.optional, page, file, None)?,
    };
    Ok(Items::from_vec(values))
}

/// These values, and behind them further ones.
fn joined(values: Items<Datum>, more: Items<Datum>) -> Result<Items<Datum>, NoMemory>
    ensures { IfOk result (λ v. v ≡ values ++ more) }
{
    let mut values = values.into_vec();
    let mut more = more.into_vec();
    values.append(&mut more)?;
    Ok(Items::from_vec(values))
}

/// The walk behind a data page that has its place in the chunk.
fn with_values(
    alloc: Global,
    leaf: &Leaf,
    span: Span,
    file: &[u8],
    page: &PageAt,
    walk: Walk,
) -> Result<Walk, FileFault>
    ensures { Reads result (spec.with_values leaf.now span file.now page.now walk) }
{
    if passes(page, span.ends) {
        return Err(FileFault::Page { at: page.body });
    }
    check_nulls(alloc, leaf, page, file)?;
    let more = page_values(alloc, leaf, file, page, &walk.dictionary)?;
    Ok(Walk {
        at: page.body + page.head.compressed_page_size.unsigned_abs() as usize,
        values: joined(walk.values, more)?,
        dictionary: walk.dictionary,
    })
}

/// A data page; its chunk has as many values as the group has rows.
#[tactic(auto, unfolding(crate::specs::Reading::with_data))]
fn with_data(
    alloc: Global,
    leaf: &Leaf,
    rows: usize,
    span: Span,
    file: &[u8],
    page: &PageAt,
    walk: Walk,
) -> Result<Walk, FileFault>
    ensures { Reads result (spec.with_data leaf.now rows span file.now page.now walk) }
{
    let count = count_in(leaf.optional, page)? as usize;
    let held = walk.values.as_slice().len();
    if rows < held || rows - held < count {
        return refuse_shape(&leaf.name);
    }
    with_values(alloc, leaf, span, file, page, walk)
}

/// The next page.
#[tactic(auto, unfolding(crate::specs::Reading::with_page))]
fn with_page(
    alloc: Global,
    leaf: &Leaf,
    rows: usize,
    span: Span,
    file: &[u8],
    walk: Walk,
) -> Result<Walk, FileFault>
    ensures { Reads result (spec.with_page leaf.now rows span file.now walk) }
{
    let page = read_page_head(file, walk.at)?;
    if page.head.page_type == 2 {
        with_dictionary(alloc, leaf, span, file, &page, walk)
    } else {
        with_data(alloc, leaf, rows, span, file, &page, walk)
    }
}

/// The pages of a chunk up to its end. Each takes a byte at least, so there are no more of them than bytes. Room is made
/// for no more values than bytes.
fn with_pages(
    alloc: Global,
    leaf: &Leaf,
    rows: usize,
    span: Span,
    file: &[u8],
) -> Result<Walk, FileFault>
    ensures { Reads result (spec.with_pages leaf.now rows span file.now (span.ends - span.begins) (spec.walk_from span.begins)) }
{
    let room = rows.min(span.ends.saturating_sub(span.begins));
    let mut walk = Walk {
        at: span.begins,
        values: Items::from_vec(Vec::with_capacity(alloc, room)?),
        dictionary: None,
    };
    for _byte in span.begins..span.ends {
        if span.ends <= walk.at {
            break;
        }
        walk = with_page(alloc, leaf, rows, span, file, walk)?;
    }
    Ok(walk)
}

/// The values of a walk, where it is at the chunk's end and has as many as the group has rows.
fn finished(leaf: &Leaf, rows: usize, span: Span, walk: Walk) -> Result<Items<Datum>, FileFault>
    ensures { Reads result (spec.finished leaf.now rows span walk) }
{
    if span.ends <= walk.at && walk.values.as_slice().len() == rows {
        Ok(walk.values)
    } else {
        refuse_shape(&leaf.name)
    }
}

/// The values of a leaf's chunk.
#[tactic(auto, unfolding(crate::specs::Reading::chunk_values))]
pub(crate) fn chunk_values(
    alloc: Global,
    leaf: &Leaf,
    rows: usize,
    span: Span,
    file: &[u8],
) -> Result<Items<Datum>, FileFault>
    ensures { Reads result (spec.chunk_values leaf.now rows span file.now) }
{
    let walk = with_pages(alloc, leaf, rows, span, file)?;
    finished(leaf, rows, span, walk)
}
