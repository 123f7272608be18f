//! Bodies of pages from outside: written by hand after the format, and damaged ones.

ghost use Rattle.std.specs.Prelude.{◌≤◌, length, true};
ghost use Rattle.std.specs.List.{All};
ghost use Rattle.bit_pack.specs.Bits.{most_values};
ghost use Rattle.parquet_pages.specs.Written.{CanStand};

use parquet_meta::{DataPageHead, DictionaryPageHead, FileFault, PageAt, PageHead};
use parquet_pages::{
    Dictionary, count_present, page_has_null, read_dictionary, read_page, write_page,
};
use row_base::{Datum, Kind, NoMemory, Text};
use std::alloc::Global;
use std::test::Fail;

fn head(page_type: i32, size: i32) -> PageHead {
    PageHead {
        page_type,
        uncompressed_page_size: None,
        compressed_page_size: size,
        data_page: None,
        dictionary_page: None,
        data_page_v2: false,
    }
}

/// A data page whose body is a file's first bytes, so many.
fn data_page(encoding: i32, num_values: i32, size: i32) -> PageAt {
    let mut head = head(0, size);
    head.data_page = Some(DataPageHead {
        num_values,
        encoding,
        definition_level_encoding: 3,
        repetition_level_encoding: 3,
    });
    PageAt { head, body: 0 }
}

/// A dictionary page whose body is a file's first bytes, so many.
fn dictionary_page(encoding: i32, num_values: i32, size: i32) -> PageAt {
    let mut head = head(2, size);
    head.dictionary_page = Some(DictionaryPageHead {
        num_values,
        encoding,
    });
    PageAt { head, body: 0 }
}

/// Whether the values that were read are these.
fn are_values(read: Result<Vec<Datum>, FileFault>, values: &[Datum]) -> bool {
    match read {
        Ok(read) => read.as_slice() == values,
        Err(_) => false,
    }
}

/// Whether a reading ended with this fault.
fn is_refused(read: Result<Vec<Datum>, FileFault>, fault: FileFault) -> bool {
    match read {
        Ok(_) => false,
        Err(found) => found == fault,
    }
}

/// Whether these bytes were written.
fn are_bytes(written: Result<Vec<u8>, NoMemory>, want: &[u8]) -> bool {
    match written {
        Ok(bytes) => bytes.as_slice() == want,
        Err(_) => false,
    }
}

/// One and null in a column of longs that may be null.
const ONE_AND_NULL: [u8; 14] = [2, 0, 0, 0, 3, 1, 1, 0, 0, 0, 0, 0, 0, 0];

#[test]
fn a_page_with_null(rt: HostRuntime) {
    let alloc = rt.alloc();
    let values = [Datum::Long(1), Datum::Null];
    assert!(rt; are_bytes(write_page(alloc, Kind::Long, true, &values), &ONE_AND_NULL));
    let page = data_page(0, 2, 14);
    let read = read_page(alloc, Kind::Long, true, &page, &ONE_AND_NULL, None);
    assert!(rt; are_values(read, &values));
    assert!(rt; matches!(page_has_null(alloc, true, &page, &ONE_AND_NULL), Ok(true)));
}

/// Whether a page of PLAIN values, whose body is these bytes, has these values, in a column that isn't null.
fn reads_plain(alloc: Global, kind: Kind, body: &[u8], values: &[Datum]) -> bool {
    let count = (values.len() % 1000) as i32;
    let page = data_page(0, count, (body.len() % 1000) as i32);
    are_values(read_page(alloc, kind, false, &page, body, None), values)
}

#[test]
fn pages_of_numbers(rt: HostRuntime) {
    let alloc = rt.alloc();
    assert!(rt; reads_plain(alloc, Kind::Integer, &[255; 4], &[Datum::Integer(-1)]));
    assert!(rt;
        reads_plain(
            alloc,
            Kind::Date,
            &[0x46, 0x4d, 0, 0],
            &[Datum::Date(19_782)]
        )
    );
}

#[test]
fn a_page_of_truth_values(rt: HostRuntime) {
    let flags = [
        Datum::Boolean(true),
        Datum::Boolean(false),
        Datum::Boolean(true),
    ];
    assert!(rt; reads_plain(rt.alloc(), Kind::Boolean, &[5], &flags));
}

/// Whether a page of PLAIN values has these two texts.
fn reads_texts(alloc: Global, body: &[u8], first: &str, second: &str) -> Result<bool, NoMemory> {
    let first = Text::make(alloc, first)?;
    let second = Text::make(alloc, second)?;
    let texts = [Datum::Text(first), Datum::Text(second)];
    Ok(reads_plain(alloc, Kind::String, body, &texts))
}

#[test]
fn a_page_of_texts(rt: HostRuntime) -> Result<(), Fail> {
    let body = [2, 0, 0, 0, b'a', b'b', 0, 0, 0, 0];
    assert!(rt; reads_texts(rt.alloc(), &body, "ab", "")?);
    Ok(())
}

/// The bodies of the dictionary page and of the data page of a chunk's values, where they have a dictionary.
fn bodies(
    alloc: Global,
    optional: bool,
    values: &[Datum],
) -> Result<Option<(Vec<u8>, Vec<u8>)>, NoMemory>
    requires few { length values.now ≤ most_values }
    requires stand { All (CanStand Kind.Long optional) values.now }
    requires with_null { All (CanStand Kind.Long true) values.now }
{
    let Some(found) = Dictionary::of(alloc, Kind::Long, values)? else {
        return Ok(None);
    };
    let page = found.dictionary.page(alloc, Kind::Long)?;
    let indices = found
        .dictionary
        .indices(alloc, optional, values, &found.places)?;
    Ok(Some((page, indices)))
}

/// The bodies of two pages, where there are any, or want of memory.
type Bodies = Result<Option<(Vec<u8>, Vec<u8>)>, NoMemory>;

/// Whether the bodies of two pages are these.
fn are(bodies: &Bodies, page: &[u8], indices: &[u8]) -> bool {
    match bodies {
        Ok(Some((first, second))) => first.as_slice() == page && second.as_slice() == indices,
        _ => false,
    }
}

#[test]
fn a_dictionary_of_one_value(rt: HostRuntime) {
    let alloc = rt.alloc();
    let twice = [Datum::Long(5), Datum::Long(5)];
    let body = [5, 0, 0, 0, 0, 0, 0, 0];
    let indices = [1, 4, 0];
    let written = bodies(alloc, false, &twice);
    assert!(rt; are(&written, &body, &indices));
    let known = [Datum::Long(5)];
    let read = read_dictionary(alloc, Kind::Long, &dictionary_page(0, 1, 8), &body);
    assert!(rt; are_values(read, &known));
    let page = data_page(8, 2, 3);
    let read = read_page(alloc, Kind::Long, false, &page, &indices, Some(&known));
    assert!(rt; are_values(read, &twice));
}

#[test]
fn a_dictionary_that_does_not_pay(rt: HostRuntime) {
    let apart = [Datum::Long(1), Datum::Long(2), Datum::Long(1)];
    let written = bodies(rt.alloc(), false, &apart);
    assert!(rt; matches!(written, Ok(None)));
}

#[test]
fn a_dictionary_beside_nulls(rt: HostRuntime) {
    let with_null = [Datum::Long(1), Datum::Long(1), Datum::Null];
    assert!(rt; count_present(&with_null) == 2);
    let body = [1, 0, 0, 0, 0, 0, 0, 0];
    let indices = [2, 0, 0, 0, 3, 3, 1, 4, 0];
    let written = bodies(rt.alloc(), true, &with_null);
    assert!(rt; are(&written, &body, &indices));
}

#[test]
fn a_dictionary_of_no_values(rt: HostRuntime) {
    let alloc = rt.alloc();
    let nulls = [Datum::Null, Datum::Null];
    let levels = [2, 0, 0, 0, 4, 0, 1];
    let written = bodies(alloc, true, &nulls);
    assert!(rt; are(&written, &[], &levels));
    let page = data_page(8, 2, 7);
    let read = read_page(alloc, Kind::Long, true, &page, &levels, Some(&[]));
    assert!(rt; are_values(read, &nulls));
}

/// Pages whose bodies can't be read: the kind, whether the column may be null, the encoding, the number of values and the
/// number of bytes.
const DAMAGED: [(Kind, bool, i32, i32, i32); 5] = [
    (Kind::Integer, false, 0, 1, 9),
    (Kind::Integer, false, 0, 3, 8),
    (Kind::Integer, true, 0, 1, 8),
    (Kind::Integer, false, 8, 1, 8),
    (Kind::Date, false, 0, 2, 8),
];

#[test]
fn damaged_bodies_are_refused(rt: HostRuntime) {
    let file = [0, 0, 0, 0, 255, 255, 255, 127];
    for (kind, optional, encoding, count, size) in DAMAGED {
        let page = data_page(encoding, count, size);
        let read = read_page(rt.alloc(), kind, optional, &page, &file, None);
        assert!(rt; is_refused(read, FileFault::Page { at: 0 }));
    }
}

#[test]
fn bytes_that_are_no_text_are_refused(rt: HostRuntime) {
    let body = [1, 0, 0, 0, 255];
    let page = data_page(0, 1, 5);
    let read = read_page(rt.alloc(), Kind::String, false, &page, &body, None);
    assert!(rt; is_refused(read, FileFault::Page { at: 0 }));
}

#[test]
fn places_past_the_dictionary_are_refused(rt: HostRuntime) {
    let known = [Datum::Long(5)];
    let page = data_page(8, 1, 3);
    let indices = [1, 2, 1];
    let read = read_page(rt.alloc(), Kind::Long, false, &page, &indices, Some(&known));
    assert!(rt; is_refused(read, FileFault::Page { at: 0 }));
}

#[test]
fn other_pages_are_refused(rt: HostRuntime) {
    let alloc = rt.alloc();
    let page = PageAt {
        head: head(3, 8),
        body: 0,
    };
    let read = read_page(alloc, Kind::Integer, false, &page, &[0; 8], None);
    assert!(rt; is_refused(read, FileFault::PageKind { kind: 3 }));
    let page = data_page(4, 1, 8);
    let read = read_page(alloc, Kind::Integer, false, &page, &[0; 8], None);
    assert!(rt; is_refused(read, FileFault::Encoding { encoding: 4 }));
}
