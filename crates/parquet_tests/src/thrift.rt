//! Thrift values: the head of a page, values that are passed over, damaged ones, and a plain reader of numbers.
use row_base::NoMemory;
use std::alloc::{AllocError, Global};
use std::test::Fail;
use thrift_compact::{Appender, Cursor, Field, ListHead, ThriftFault, Wire, plain_number};

/// The head of a Parquet page: a data page of 8 bytes and 1 value.
const PAGE_HEAD: [u8; 17] = [
    0x15, 0x00, 0x15, 0x10, 0x15, 0x10, 0x2c, 0x15, 0x02, 0x15, 0x00, 0x15, 0x06, 0x15, 0x06, 0x00,
    0x00,
];

/// A struct of bytes, a list, a double, a boolean and a number behind a long id.
const ALL_KINDS: [u8; 23] = [
    0x18, 0x02, 0x61, 0x62, 0x19, 0x25, 0x02, 0x04, 0x17, 0x00, 0x00, 0x00, 0x00, 0x00, 0x00, 0xf0,
    0x3f, 0x11, 0x06, 0x28, 0x80, 0x01, 0x00,
];

/// Where a value that stands at the front ends.
fn end_of(wire: Wire, bytes: &[u8]) -> Result<usize, ThriftFault> {
    let mut cursor = Cursor::new(bytes);
    cursor.skip(wire)?;
    Ok(cursor.at())
}

/// Whether a field of this id and type stands next.
fn has_field(cursor: &mut Cursor<'_>, last: i16, id: i16, wire: Wire) -> bool {
    cursor.field(last) == Ok(Field::Next { id, wire })
}

/// Whether a field of a 32-bit number stands next, with this number.
fn has_number(cursor: &mut Cursor<'_>, last: i16, id: i16, number: i64) -> bool {
    has_field(cursor, last, id, Wire::I32) && cursor.number() == Ok(number)
}

#[test]
fn reads_a_page_head(rt: HostRuntime) -> Result<(), Fail> {
    let mut cursor = Cursor::new(&PAGE_HEAD);
    assert!(rt; has_number(&mut cursor, 0, 1, 0));
    assert!(rt; cursor.at() == 2);
    assert!(rt; has_number(&mut cursor, 1, 2, 8));
    assert!(rt; has_field(&mut cursor, 2, 3, Wire::I32));
    cursor.skip(Wire::I32)?;
    assert!(rt; has_field(&mut cursor, 3, 5, Wire::Struct));
    cursor.skip(Wire::Struct)?;
    assert!(rt; cursor.field(5) == Ok(Field::Stop));
    assert!(rt; cursor.at() == 17);
    Ok(())
}

/// Whether passing over a struct is refused at the end of the bytes, and the cursor stays.
fn is_cut(bytes: &[u8]) -> bool {
    let mut cursor = Cursor::new(bytes);
    cursor.skip(Wire::Struct) == Err(ThriftFault::Short { at: bytes.len() }) && cursor.at() == 0
}

#[test]
fn each_front_of_a_struct_ends_early(rt: HostRuntime) {
    for size in 0..17 {
        assert!(rt; is_cut(&PAGE_HEAD[..size]));
    }
    for size in 0..23 {
        assert!(rt; is_cut(&ALL_KINDS[..size]));
    }
    assert!(rt; end_of(Wire::Struct, &ALL_KINDS) == Ok(23));
}

/// Structs in one another, so many, with their ends.
fn structs(alloc: Global, levels: usize, length: usize) -> Result<Vec<u8>, AllocError> {
    let mut bytes = Vec::new(alloc);
    bytes.resize(levels, 0x1c)?;
    bytes.resize(length, 0)?;
    Ok(bytes)
}

#[test]
fn sixteen_levels(rt: HostRuntime) -> Result<(), Fail> {
    let bytes = structs(rt.alloc(), 15, 31)?;
    assert!(rt; end_of(Wire::Struct, bytes.as_slice()) == Ok(31));
    Ok(())
}

#[test]
fn seventeen_levels(rt: HostRuntime) -> Result<(), Fail> {
    let bytes = structs(rt.alloc(), 16, 33)?;
    assert!(rt; end_of(Wire::Struct, bytes.as_slice()) == Err(ThriftFault::Deep { at: 16 }));
    Ok(())
}

/// Numbers of nine, ten and eleven bytes, and one past 64 bits.
const NUMBERS: [(&[u8], Result<i64, ThriftFault>); 4] = [
    (
        &[0x80, 0x80, 0x80, 0x80, 0x80, 0x80, 0x80, 0x80, 0x01],
        Ok(1 << 55),
    ),
    (
        &[0xff, 0xff, 0xff, 0xff, 0xff, 0xff, 0xff, 0xff, 0xff, 0x01],
        Ok(-9223372036854775808),
    ),
    (
        &[0x80, 0x80, 0x80, 0x80, 0x80, 0x80, 0x80, 0x80, 0x80, 0x02],
        Err(ThriftFault::Long { at: 0 }),
    ),
    (
        &[
            0x80, 0x80, 0x80, 0x80, 0x80, 0x80, 0x80, 0x80, 0x80, 0x80, 0x01,
        ],
        Err(ThriftFault::Long { at: 0 }),
    ),
];

#[test]
fn long_varints(rt: HostRuntime) {
    for (bytes, wanted) in NUMBERS {
        assert!(rt; Cursor::new(bytes).number() == wanted);
    }
}

/// Values that others follow, and where they end.
const SKIPPED: [(Wire, &[u8], usize); 9] = [
    (Wire::True, &[], 0),
    (Wire::List, &[0x21, 1, 2, 7], 3),
    (Wire::Set, &[0x32, 1, 2, 1, 7], 4),
    (Wire::List, &[0x1a, 0x13, 5], 3),
    (Wire::List, &[0x1c, 0x11, 0x12, 0x00, 9], 4),
    (Wire::Set, &[0xf3, 0x01, 9], 3),
    (Wire::Map, &[0x00, 7], 1),
    (Wire::Map, &[0x01, 0x81, 0x01, 0x6b, 0x02, 7], 5),
    (Wire::Map, &[0x02, 0x15, 1, 0x80, 0x01, 2, 0x00, 7], 7),
];

#[test]
fn skips_elements(rt: HostRuntime) {
    for (wire, bytes, end) in SKIPPED {
        assert!(rt; end_of(wire, bytes) == Ok(end));
    }
}

/// Values of unknown types, and with sizes that are too long or are longer than the bytes.
const DAMAGED: [(Wire, &[u8], ThriftFault); 10] = [
    (Wire::List, &[0x1d, 0], ThriftFault::Wire { at: 0 }),
    (Wire::List, &[0x00], ThriftFault::Wire { at: 0 }),
    (Wire::Map, &[0x01, 0x0b], ThriftFault::Wire { at: 1 }),
    (Wire::Map, &[0x01, 0xbf], ThriftFault::Wire { at: 1 }),
    (
        Wire::Struct,
        &[0x15, 0x02, 0x1e, 0],
        ThriftFault::Wire { at: 2 },
    ),
    (Wire::Struct, &[0x10, 0], ThriftFault::Wire { at: 0 }),
    (
        Wire::Struct,
        &[0x05, 0xfe, 0xff, 0x03, 0x00, 0x15, 0x00, 0x00],
        ThriftFault::Long { at: 5 },
    ),
    (
        Wire::List,
        &[0xf3, 0xff, 0xff, 0xff, 0xff, 0x0f],
        ThriftFault::Short { at: 6 },
    ),
    (
        Wire::List,
        &[0xf3, 0x80, 0x80, 0x80, 0x80, 0x10],
        ThriftFault::Long { at: 1 },
    ),
    (
        Wire::Binary,
        &[0x80, 0x80, 0x80, 0x80, 0x10],
        ThriftFault::Long { at: 0 },
    ),
];

#[test]
fn unknown_types_and_long_sizes(rt: HostRuntime) {
    for (wire, bytes, fault) in DAMAGED {
        assert!(rt; end_of(wire, bytes) == Err(fault));
    }
}

/// Headers behind a field of an id, with the least and the greatest id, and with ids past 16 bits.
const IDS: [(i16, &[u8], Result<Field, ThriftFault>); 4] = [
    (
        7,
        &[0x05, 0xff, 0xff, 0x03],
        Ok(Field::Next {
            id: -32768,
            wire: Wire::I32,
        }),
    ),
    (
        32766,
        &[0x15],
        Ok(Field::Next {
            id: 32767,
            wire: Wire::I32,
        }),
    ),
    (32767, &[0x15], Err(ThriftFault::Long { at: 0 })),
    (
        0,
        &[0x05, 0x80, 0x80, 0x04],
        Err(ThriftFault::Long { at: 0 }),
    ),
];

#[test]
fn ids_have_sixteen_bits(rt: HostRuntime) {
    for (last, bytes, wanted) in IDS {
        assert!(rt; Cursor::new(bytes).field(last) == wanted);
    }
}

/// Writes fields of 32-bit numbers: for each the id before it, its id and its number.
fn put_numbers(head: &mut Appender, fields: &[(i16, i16, i64)]) -> Result<(), NoMemory> {
    for (last, id, number) in fields {
        head.field(*last, *id, Wire::I32)?;
        head.number(*number)?;
    }
    Ok(())
}

/// The head of a page, written.
fn page_head(alloc: Global) -> Result<Vec<u8>, NoMemory> {
    let mut head = Appender::new(alloc);
    put_numbers(&mut head, &[(0, 1, 0), (1, 2, 8), (2, 3, 8)])?;
    head.field(3, 5, Wire::Struct)?;
    put_numbers(&mut head, &[(0, 1, 1), (1, 2, 0), (2, 3, 3), (3, 4, 3)])?;
    head.stop()?;
    head.stop()?;
    Ok(head.into_bytes())
}

/// A field of a long id, a list of a long size, and a number.
const LONG_HEADERS: [u8; 8] = [0x08, 0x50, 0x02, b'i', b'd', 0xf8, 0x14, 0x03];

/// The same, written.
fn long_headers(alloc: Global) -> Result<Vec<u8>, NoMemory> {
    let mut out = Appender::new(alloc);
    out.field(5, 40, Wire::Binary)?;
    out.binary(b"id")?;
    out.list(Wire::Binary, 20)?;
    out.number(-2)?;
    Ok(out.into_bytes())
}

#[test]
fn writes_headers(rt: HostRuntime) -> Result<(), Fail> {
    let head = page_head(rt.alloc())?;
    assert!(rt; head.as_slice() == PAGE_HEAD.as_slice());
    let long = long_headers(rt.alloc())?;
    assert!(rt; long.as_slice() == LONG_HEADERS.as_slice());
    Ok(())
}

#[test]
fn reads_long_headers(rt: HostRuntime) {
    let mut cursor = Cursor::new(&LONG_HEADERS);
    assert!(rt; has_field(&mut cursor, 5, 40, Wire::Binary));
    assert!(rt; cursor.binary() == Ok(b"id".as_slice()));
    let names = ListHead {
        wire: Wire::Binary,
        count: 20,
    };
    assert!(rt; cursor.list() == Ok(names));
    assert!(rt; cursor.number() == Ok(-2));
}

/// Whether the cursor and the plain reader find the same number and the same end.
fn are_alike(bytes: &[u8]) -> bool {
    let mut cursor = Cursor::new(bytes);
    match (cursor.number(), plain_number(bytes)) {
        (Ok(found), Some((number, count))) => found == number && cursor.at() == count,
        (Err(_), None) => true,
        _ => false,
    }
}

#[test]
fn the_plain_reader_agrees(rt: HostRuntime) {
    let mut long = [0x80; 12];
    for first in 0..=255 {
        for second in 0..=255 {
            assert!(rt; are_alike(&[first, second]));
            assert!(rt; are_alike(&[0xff, first, second]));
        }
        for place in 0..12 {
            long[place] = first;
            assert!(rt; are_alike(&long));
            long[place] = 0x80;
        }
    }
}
