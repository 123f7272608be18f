//! A file of one row, its parts written and read again, and damaged ones.
use parquet_meta::{
    DataPageHead, FileFault, FileMeta, PageAt, PageHead, RowGroup, SchemaElement, read_footer,
    read_page_head, write_footer, write_page_head,
};
use std::alloc::Global;
use std::test::Fail;

/// A file with the column `id` of 64-bit numbers and one row, 1: the magic, a data page with its head, the footer, the
/// footer's length, and the magic.
pub(crate) const FILE: [u8; 99] = [
    0x50, 0x41, 0x52, 0x31, 0x15, 0x00, 0x15, 0x10, 0x15, 0x10, 0x2c, 0x15, 0x02, 0x15, 0x00, 0x15,
    0x06, 0x15, 0x06, 0x00, 0x00, 0x01, 0x00, 0x00, 0x00, 0x00, 0x00, 0x00, 0x00, 0x15, 0x02, 0x19,
    0x2c, 0x48, 0x06, 0x73, 0x63, 0x68, 0x65, 0x6d, 0x61, 0x15, 0x02, 0x00, 0x15, 0x04, 0x25, 0x00,
    0x18, 0x02, 0x69, 0x64, 0x00, 0x16, 0x02, 0x19, 0x1c, 0x19, 0x1c, 0x26, 0x00, 0x1c, 0x15, 0x04,
    0x19, 0x25, 0x00, 0x06, 0x19, 0x18, 0x02, 0x69, 0x64, 0x15, 0x00, 0x16, 0x02, 0x16, 0x32, 0x16,
    0x32, 0x26, 0x08, 0x00, 0x00, 0x16, 0x32, 0x16, 0x02, 0x00, 0x00, 0x3e, 0x00, 0x00, 0x00, 0x50,
    0x41, 0x52, 0x31,
];

/// Where the footer of the file is.
const FOOTER: usize = 29;

/// The metadata of the file with one byte changed.
fn changed(alloc: Global, place: usize, byte: u8) -> Result<FileMeta, FileFault> {
    let mut file = FILE;
    if place < 99 {
        file[place] = byte;
    }
    read_footer(alloc, &file)
}

/// The head at the file's fifth byte, with one byte changed.
fn changed_head(place: usize, byte: u8) -> Result<PageAt, FileFault> {
    let mut file = FILE;
    if place < 99 {
        file[place] = byte;
    }
    read_page_head(&file, 4)
}

/// Whether a reading was refused by this fault.
fn has_fault<T: Drop>(read: Result<T, FileFault>, want: FileFault) -> bool {
    match read {
        Ok(_) => false,
        Err(fault) => fault == want,
    }
}

/// Whether this is the head of the page's data.
fn is_data(data: Option<DataPageHead>) -> bool {
    match data {
        Some(data) => {
            data.num_values == 1
                && data.encoding == 0
                && data.definition_level_encoding == 3
                && data.repetition_level_encoding == 3
        }
        None => false,
    }
}

/// Whether this is the head of the file's page.
fn is_head(head: &PageHead) -> bool {
    head.page_type == 0
        && head.uncompressed_page_size == Some(8)
        && head.compressed_page_size == 8
        && is_data(head.data_page)
        && head.dictionary_page.is_none()
        && !head.data_page_v2
}

#[test]
fn page_head_is_read_and_written(rt: HostRuntime) -> Result<(), Fail> {
    let page = read_page_head(&FILE, 4)?;
    assert!(rt; page.body == 21);
    assert!(rt; is_head(&page.head));
    let text = write_page_head(rt.alloc(), &page.head)?;
    assert!(rt; text.as_slice() == &FILE[4..21]);
    Ok(())
}

#[test]
fn page_heads_that_are_cut_are_refused(rt: HostRuntime) {
    let head = &FILE[4..21];
    for (bytes, at, place) in [(&head[..16], 0, 16), (head, 17, 17), (head, 18, 17)] {
        assert!(rt; has_fault(read_page_head(bytes, at), FileFault::Thrift { at: place }));
    }
}

/// Changed bytes of the page's head that are read as other ones: a size that is a text, no size, and a dictionary page
/// without its header.
const HEADS: [(usize, u8, usize); 3] = [(8, 0x18, 8), (8, 0x25, 20), (5, 0x04, 20)];

#[test]
fn damaged_page_heads_are_refused(rt: HostRuntime) {
    // a size of -1, and a number of values of -1
    for place in [9, 12] {
        assert!(rt; has_fault(changed_head(place, 0x01), FileFault::Page { at: 4 }));
    }
    for (place, byte, at) in HEADS {
        assert!(rt; has_fault(changed_head(place, byte), FileFault::Thrift { at }));
    }
}

/// Whether these are the elements of the file's schema.
fn are_elements(schema: &[SchemaElement]) -> bool {
    match schema {
        [root, id] => {
            root.name.as_str() == "schema"
                && root.num_children == Some(1)
                && id.name.as_str() == "id"
                && id.physical_type == Some(2)
        }
        _ => false,
    }
}

/// Whether there is one group, with one column.
fn is_group(groups: &[RowGroup]) -> bool {
    match groups {
        [group] => group.columns.as_slice().len() == 1,
        _ => false,
    }
}

#[test]
fn footer_is_read_and_written(rt: HostRuntime) -> Result<(), Fail> {
    let meta = read_footer(rt.alloc(), &FILE)?;
    assert!(rt; meta.version == Some(1) && meta.num_rows == 1);
    assert!(rt; are_elements(meta.schema.as_slice()));
    assert!(rt; is_group(meta.row_groups.as_slice()));
    let text = write_footer(rt.alloc(), &meta)?;
    assert!(rt; text.as_slice() == &FILE[FOOTER..91]);
    Ok(())
}

#[test]
fn files_that_are_cut_are_refused(rt: HostRuntime) {
    for size in 0..12 {
        assert!(rt; has_fault(read_footer(rt.alloc(), &FILE[..size]), FileFault::Short));
    }
    for size in 12..99 {
        assert!(rt; has_fault(read_footer(rt.alloc(), &FILE[..size]), FileFault::Magic));
    }
}

/// Changed bytes of the footer: a number of rows that is a 32-bit number, no number of rows, a name that isn't UTF-8, a list
/// of texts in place of one of structs, and a footer that ends too soon.
const FOOTERS: [(usize, u8, usize); 5] = [
    (53, 0x15, 53),
    (53, 0x96, 90),
    (50, 0xff, 48),
    (32, 0x28, 31),
    (91, 0, 91),
];

#[test]
fn damaged_footers_are_refused(rt: HostRuntime) {
    let alloc = rt.alloc();
    assert!(rt; has_fault(changed(alloc, 0, 0x51), FileFault::Magic));
    // a length of 255, and one of 88, which is one more than the file has room for
    for length in [255, 88] {
        assert!(rt; has_fault(changed(alloc, 91, length), FileFault::Footer));
    }
    for (place, byte, at) in FOOTERS {
        assert!(rt; has_fault(changed(alloc, place, byte), FileFault::Thrift { at }));
    }
}
