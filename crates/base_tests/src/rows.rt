//! Texts, rows, schemas, dates and numbers: each public function once with ample memory, and values from outside.
use row_base::numbers::{are_digits, read_decimal, read_long, read_natural};
use row_base::{
    Column, Datum, Items, Kind, NoMemory, Row, RowFault, RowSlice, Rows, ScannedFile, Schema,
    SchemaFault, Text, Unsettled, cmp_rows, copy_columns, copy_texts, dates_give_back, read_date,
    row_order_is_total, rows_are_counted, sorted, write_date,
};
use std::alloc::Global;
use std::cmp::Ordering;
use std::collections::{BTreeMap, VecDeque};
use std::test::Fail;

/// Passes for a type that may be shared between threads.
fn may_cross<T: Send + Sync>(_value: &T) {}

/// A column's name, its kind, and whether it may be null.
type Told = (&'static str, Kind, bool);

/// `k long not null, p string, n integer`.
const THREE: [Told; 3] = [
    ("k", Kind::Long, false),
    ("p", Kind::String, true),
    ("n", Kind::Integer, true),
];

/// The same, and `p date`.
const P_TWICE: [Told; 4] = [
    ("k", Kind::Long, false),
    ("p", Kind::String, true),
    ("n", Kind::Integer, true),
    ("p", Kind::Date, true),
];

fn column(alloc: Global, name: &str, kind: Kind, nullable: bool) -> Result<Column, NoMemory> {
    Ok(Column {
        name: Text::make(alloc, name)?,
        kind,
        nullable,
    })
}

fn columns_of(alloc: Global, told: &[Told]) -> Result<Vec<Column>, NoMemory> {
    let mut columns = Vec::new(alloc);
    for (name, kind, nullable) in told {
        columns.push(column(alloc, name, *kind, *nullable)?)?;
    }
    Ok(columns)
}

/// The schema of these columns, or the want of memory where they make none.
fn schema_with(columns: Vec<Column>, partition: Vec<u32>) -> Result<Schema, NoMemory> {
    Schema::make(columns, partition).map_err(|_| NoMemory)
}

/// The schema of the three columns, partitioned by these places.
fn schema_of(alloc: Global, partition: &[u32]) -> Result<Schema, NoMemory> {
    let columns = columns_of(alloc, &THREE)?;
    let partition = partition.to_vec(alloc)?;
    schema_with(columns, partition)
}

/// A datum to be made.
#[derive(Clone, Copy)]
enum Plain {
    Null,
    Boolean(bool),
    Integer(i32),
    Long(i64),
    Date(i32),
    Text(&'static str),
}

fn datum(alloc: Global, plain: Plain) -> Result<Datum, NoMemory> {
    match plain {
        Plain::Null => Ok(Datum::Null),
        Plain::Boolean(it) => Ok(Datum::Boolean(it)),
        Plain::Integer(n) => Ok(Datum::Integer(n)),
        Plain::Long(n) => Ok(Datum::Long(n)),
        Plain::Date(day) => Ok(Datum::Date(day)),
        Plain::Text(text) => Ok(Datum::Text(Text::make(alloc, text)?)),
    }
}

fn data(alloc: Global, plain: &[Plain]) -> Result<Vec<Datum>, NoMemory> {
    let mut values = Vec::new(alloc);
    for it in plain {
        values.push(datum(alloc, *it)?)?;
    }
    Ok(values)
}

fn row(alloc: Global, plain: &[Plain]) -> Result<Row, NoMemory> {
    Ok(Row::make(data(alloc, plain)?))
}

#[test]
fn texts_are_kept_and_ordered(rt: HostRuntime) -> Result<(), Fail> {
    let text = Text::from_string(String::from_str(rt.alloc(), "b")?)?;
    may_cross(&text);
    let copy = text.copy()?;
    assert!(rt; copy.as_str() == "b" && copy.as_bytes() == b"b".as_slice());
    assert!(rt; copy == text);
    assert!(rt; Text::make(rt.alloc(), "a")? < text);
    Ok(())
}

/// The number 7 under a text.
fn seven_under(alloc: Global, text: Text) -> Result<BTreeMap<Text, u64>, NoMemory> {
    let mut sizes = BTreeMap::new(alloc);
    sizes.insert(text, 7u64)?;
    Ok(sizes)
}

#[test]
fn texts_are_keys(rt: HostRuntime) -> Result<(), Fail> {
    let text = Text::make(rt.alloc(), "b")?;
    let sizes = seven_under(rt.alloc(), text.copy()?)?;
    assert!(rt; sizes.get(&text).copied() == Some(7));
    Ok(())
}

/// A copy of the list of this text alone.
fn copied_texts(alloc: Global, text: &str) -> Result<Items<Text>, NoMemory> {
    let texts = [Text::make(alloc, text)?];
    copy_texts(alloc, &texts)
}

#[test]
fn lists_of_texts_are_copied(rt: HostRuntime) -> Result<(), Fail> {
    let list = copied_texts(rt.alloc(), "b")?.into_vec();
    assert!(rt; list.len() == 1);
    assert!(rt; list.first().map(|text| text.as_str()) == Some("b"));
    Ok(())
}

/// Whether this is why columns and places make no schema.
fn has_fault(
    alloc: Global,
    told: &[Told],
    partition: &[u32],
    want: SchemaFault,
) -> Result<bool, NoMemory> {
    let columns = columns_of(alloc, told)?;
    let partition = partition.to_vec(alloc)?;
    Ok(Schema::make(columns, partition).err() == Some(want))
}

/// Columns and places that make no schema. The first three can't partition: past the columns, named before, and without
/// one that is left for data.
const FAULTY: [(&[Told], &[u32], SchemaFault); 5] = [
    (&THREE, &[1, 3], SchemaFault::Partition { place: 3 }),
    (&THREE, &[1, 1], SchemaFault::Partition { place: 1 }),
    (&THREE, &[2, 0, 1], SchemaFault::Partition { place: 1 }),
    (&[], &[], SchemaFault::Columns),
    (&P_TWICE, &[], SchemaFault::Twice { column: 3 }),
];

#[test]
fn schemas_name_their_first_fault(rt: HostRuntime) -> Result<(), Fail> {
    for (told, partition, want) in FAULTY {
        assert!(rt; has_fault(rt.alloc(), told, partition, want)?);
    }
    Ok(())
}

/// A copy of the schema of copied columns, partitioned by `p`.
fn copied_schema(alloc: Global) -> Result<Schema, NoMemory> {
    let columns = Items::from_vec(columns_of(alloc, &THREE)?);
    let columns = copy_columns(alloc, columns.as_slice())?.into_vec();
    let partition = [1].to_vec(alloc)?;
    schema_with(columns, partition)?.copy(alloc)
}

/// The place of the column of a name.
fn place_in(alloc: Global, schema: &Schema, name: &str) -> Option<u32> {
    let name = Text::make(alloc, name).ok()?;
    schema.place_of(&name)
}

/// Whether this is the schema of the three columns, partitioned by `p`.
fn is_three(alloc: Global, schema: &Schema) -> bool {
    schema.columns().len() == 3
        && schema.partition() == [1].as_slice()
        && schema.is_partition(1)
        && place_in(alloc, schema, "n") == Some(2)
}

#[test]
fn schemas_are_read_and_copied(rt: HostRuntime) -> Result<(), Fail> {
    let schema = copied_schema(rt.alloc())?;
    may_cross(&schema);
    assert!(rt; is_three(rt.alloc(), &schema));
    Ok(())
}

#[test]
fn schemas_are_taken_apart(rt: HostRuntime) -> Result<(), Fail> {
    let (columns, partition) = copied_schema(rt.alloc())?.into_parts();
    assert!(rt; columns.len() == 3 && partition.len() == 1);
    Ok(())
}

/// Rows beside the three columns, of which `p` partitions.
const FITTING: [(&[Plain], Result<(), RowFault>); 5] = [
    (&[], Err(RowFault::Count)),
    (&[Plain::Long(1), Plain::Null, Plain::Integer(2)], Ok(())),
    (
        &[Plain::Long(1), Plain::Date(0), Plain::Long(2)],
        Err(RowFault::Kind { column: 1 }),
    ),
    (
        &[Plain::Null, Plain::Date(0), Plain::Null],
        Err(RowFault::Null { column: 0 }),
    ),
    (
        &[Plain::Long(1), Plain::Text(""), Plain::Null],
        Err(RowFault::EmptyPartition { column: 1 }),
    ),
];

/// Whether this is how a row fits.
fn fits_so(alloc: Global, plain: &[Plain], want: Result<(), RowFault>) -> Result<bool, NoMemory> {
    let row = row(alloc, plain)?;
    let schema = schema_of(alloc, &[1])?;
    Ok(schema.fits(row.as_slice()) == want)
}

#[test]
fn rows_fit_or_the_first_wrong_column_is_named(rt: HostRuntime) -> Result<(), Fail> {
    for (plain, want) in FITTING {
        assert!(rt; fits_so(rt.alloc(), plain, want)?);
    }
    Ok(())
}

/// Whether the settled row is this one.
fn is_row(settled: Result<Row, Unsettled>, want: &Row) -> bool {
    match settled {
        Ok(row) => row == *want,
        Err(_) => false,
    }
}

/// Whether the row came back as it was, with this fault.
fn is_back(settled: Result<Row, Unsettled>, came: &Row, fault: RowFault) -> bool {
    match settled {
        Ok(_) => false,
        Err(unsettled) => unsettled.fault == fault && unsettled.row == *came,
    }
}

/// A row, settled beside the three columns.
fn settled(alloc: Global, row: Row) -> Result<Result<Row, Unsettled>, NoMemory> {
    let schema = schema_of(alloc, &[])?;
    Ok(schema.settle(row))
}

/// Whether a row settles to the other.
fn settles(alloc: Global, plain: &[Plain], want: &[Plain]) -> Result<bool, NoMemory> {
    let want = row(alloc, want)?;
    let settled = settled(alloc, row(alloc, plain)?)?;
    Ok(is_row(settled, &want))
}

/// Whether a row comes back with this fault.
fn comes_back(alloc: Global, plain: &[Plain], fault: RowFault) -> Result<bool, NoMemory> {
    let came = row(alloc, plain)?;
    let settled = settled(alloc, came.copy(alloc)?)?;
    Ok(is_back(settled, &came, fault))
}

#[test]
fn longs_settle_to_integers(rt: HostRuntime) -> Result<(), Fail> {
    let alloc = rt.alloc();
    let small = [Plain::Long(5), Plain::Null, Plain::Long(-2_147_483_648)];
    let want = [Plain::Long(5), Plain::Null, Plain::Integer(-2_147_483_648)];
    assert!(rt; settles(alloc, &small, &want)?);
    let large = [Plain::Long(5), Plain::Null, Plain::Long(2_147_483_648)];
    assert!(rt; comes_back(alloc, &large, RowFault::Kind { column: 2 })?);
    Ok(())
}

/// How the first row compares with the second.
const ORDERS: [(&[Plain], &[Plain], Ordering); 4] = [
    (
        &[Plain::Null, Plain::Boolean(false), Plain::Date(1)],
        &[Plain::Long(-1), Plain::Boolean(false), Plain::Date(1)],
        Ordering::Less,
    ),
    (
        &[Plain::Long(-1), Plain::Boolean(false), Plain::Date(1)],
        &[Plain::Long(-1), Plain::Boolean(true), Plain::Date(0)],
        Ordering::Less,
    ),
    (
        &[Plain::Long(-1), Plain::Boolean(true), Plain::Date(0)],
        &[Plain::Null, Plain::Boolean(false), Plain::Date(1)],
        Ordering::Greater,
    ),
    (
        &[],
        &[Plain::Null, Plain::Boolean(false), Plain::Date(1)],
        Ordering::Less,
    ),
];

/// Whether two rows compare so.
fn have_order(first: &Row, second: &Row, want: Ordering) -> bool {
    cmp_rows(first.as_slice(), second.as_slice()) == want && (first < second) == want.is_lt()
}

#[test]
fn rows_are_ordered(rt: HostRuntime) -> Result<(), Fail> {
    for (first, second, want) in ORDERS {
        let first = row(rt.alloc(), first)?;
        let second = row(rt.alloc(), second)?;
        assert!(rt; have_order(&first, &second, want));
    }
    Ok(())
}

#[test]
fn rows_are_lists(rt: HostRuntime) -> Result<(), Fail> {
    let row = row(rt.alloc(), &[Plain::Long(-1), Plain::Null, Plain::Date(0)])?;
    assert!(rt; row.as_slice().len() == 3);
    assert!(rt; row.into_vec().len() == 3);
    Ok(())
}

/// Puts a row of one long behind the rows.
fn push_long(alloc: Global, rows: &mut Rows, number: i64) -> Result<(), NoMemory> {
    let mut data = data(alloc, &[Plain::Long(number)])?;
    rows.push_from(&mut data)
}

/// Three rows of one long each.
fn three_rows(alloc: Global) -> Result<Rows, NoMemory> {
    let mut rows = Rows::with_capacity(alloc, 3, 3)?;
    push_long(alloc, &mut rows, 3)?;
    push_long(alloc, &mut rows, 1)?;
    push_long(alloc, &mut rows, 2)?;
    Ok(rows)
}

/// The first long of a row.
fn long_of(row: Option<&[Datum]>) -> Option<i64> {
    match row?.first()? {
        Datum::Long(n) => Some(*n),
        _ => None,
    }
}

/// Three rows and one more, and these four once more.
fn eight_rows(alloc: Global) -> Result<Rows, NoMemory> {
    let more = row(alloc, &[Plain::Long(9), Plain::Null, Plain::Null])?;
    let mut rows = three_rows(alloc)?;
    rows.push_copy(more.as_slice())?;
    let copy = rows.copy(alloc)?;
    rows.append(copy)?;
    Ok(rows)
}

/// Notes a number behind a space. Where memory is wanting it is left out, and the text isn't the one that is wanted.
fn note(text: &mut String, number: Option<i64>) {
    if let Some(n) = number {
        write!(text, " {n}").ok();
    }
}

/// The first longs of these rows, each behind a space.
fn longs_text(alloc: Global, rows: RowSlice<'_>) -> String {
    let mut text = String::new(alloc);
    for row in rows {
        note(&mut text, long_of(Some(row)));
    }
    text
}

/// Whether these are the first longs of the rows, each behind a space.
fn have_longs(alloc: Global, rows: RowSlice<'_>, want: &str) -> bool {
    longs_text(alloc, rows).as_str() == want
}

/// A column's data, to be taken from.
fn column_data(alloc: Global, plain: &[Plain]) -> Result<VecDeque<Datum>, NoMemory> {
    Ok(VecDeque::from_vec(data(alloc, plain)?))
}

/// Two columns, the second of which is the shorter.
const COLUMNS: [&[Plain]; 2] = [&[Plain::Long(4), Plain::Long(5)], &[Plain::Long(6)]];

fn two_columns(alloc: Global) -> Result<Vec<VecDeque<Datum>>, NoMemory> {
    let mut columns = Vec::new(alloc);
    for plain in COLUMNS {
        columns.push(column_data(alloc, plain)?)?;
    }
    Ok(columns)
}

/// The two rows of the two columns.
fn side_by_side(alloc: Global) -> Result<Rows, NoMemory> {
    let mut columns = two_columns(alloc)?;
    let mut rows = Rows::new(alloc);
    rows.reserve(2, 4)?;
    rows.push_next(columns.as_mut_slice())?;
    rows.push_next(columns.as_mut_slice())?;
    Ok(rows)
}

/// Whether a row has these longs, the second of which may be null.
fn is_pair(row: Option<&[Datum]>, first: i64, second: Option<i64>) -> bool {
    match row {
        Some([Datum::Long(a), Datum::Long(b)]) => *a == first && Some(*b) == second,
        Some([Datum::Long(a), Datum::Null]) => *a == first && second.is_none(),
        _ => false,
    }
}

/// Whether these are the two rows.
fn are_pairs(rows: &Rows) -> bool {
    rows.len() == 2 && is_pair(rows.get(0), 4, Some(6)) && is_pair(rows.get(1), 5, None)
}

#[test]
fn columns_become_rows(rt: HostRuntime) -> Result<(), Fail> {
    let rows = side_by_side(rt.alloc())?;
    assert!(rt; are_pairs(&rows));
    Ok(())
}

/// Whether these are the eight rows.
fn are_eight(alloc: Global, rows: &Rows) -> bool {
    !rows.is_empty()
        && rows.len() == 8
        && long_of(rows.get(3)) == Some(9)
        && long_of(rows.get(8)) == None
        && have_longs(alloc, rows.iter(), " 3 1 2 9 3 1 2 9")
}

#[test]
fn rows_are_kept_in_one_list(rt: HostRuntime) -> Result<(), Fail> {
    let rows = eight_rows(rt.alloc())?;
    may_cross(&rows);
    assert!(rt; are_eight(rt.alloc(), &rows));
    Ok(())
}

/// Whether the eight rows are cut behind the fifth.
fn are_cut(alloc: Global, all: RowSlice<'_>) -> bool {
    if all.len() < 5 {
        return false;
    }
    let (front, back) = all.split_at(5);
    front.len() == 5
        && !back.is_empty()
        && long_of(back.get(0)) == Some(1)
        && have_longs(alloc, back, " 1 2 9")
}

#[test]
fn rows_are_cut(rt: HostRuntime) -> Result<(), Fail> {
    let rows = eight_rows(rt.alloc())?;
    assert!(rt; are_cut(rt.alloc(), rows.iter()));
    Ok(())
}

/// The eight rows in order.
fn in_order(alloc: Global) -> Result<Rows, NoMemory> {
    let rows = eight_rows(alloc)?;
    sorted(alloc, &rows)
}

#[test]
fn rows_are_sorted(rt: HostRuntime) -> Result<(), Fail> {
    let ordered = in_order(rt.alloc())?;
    assert!(rt; have_longs(rt.alloc(), ordered.iter(), " 1 1 2 2 3 3 9 9"));
    Ok(())
}

/// The eight rows, each taken out and put back.
fn put_back(alloc: Global) -> Result<Rows, NoMemory> {
    let rows = eight_rows(alloc)?;
    let apart = rows.to_rows(alloc)?;
    Rows::from_rows(alloc, apart)
}

#[test]
fn rows_are_taken_apart(rt: HostRuntime) -> Result<(), Fail> {
    let again = put_back(rt.alloc())?;
    assert!(rt; again.len() == 8);
    Ok(())
}

/// A copy of a file of the three rows.
fn copied_file(alloc: Global) -> Result<ScannedFile, NoMemory> {
    let path = Text::make(alloc, "f")?;
    let rows = three_rows(alloc)?;
    let file = ScannedFile { path, rows };
    may_cross(&file);
    file.copy(alloc)
}

#[test]
fn files_are_copied(rt: HostRuntime) -> Result<(), Fail> {
    let copy = copied_file(rt.alloc())?;
    assert!(rt; copy.rows.len() == 3);
    Ok(())
}

const NATURALS: [(&[u8], Option<u64>); 4] = [
    (b"007", Some(7)),
    (b"18446744073709551615", Some(u64::MAX)),
    (b"18446744073709551616", None),
    (b"+7", None),
];

const DECIMALS: [(&[u8], Option<u64>); 2] = [(b"0", Some(0)), (b"07", None)];

const LONGS: [(&[u8], Option<i64>); 4] = [
    (b"-9223372036854775808", Some(i64::MIN)),
    (b"-007", Some(-7)),
    (b"9223372036854775808", None),
    (b"-", None),
];

#[test]
fn numbers_are_read(rt: HostRuntime) {
    assert!(rt; are_digits(b"0123456789") && !are_digits(b"1a"));
    for (text, want) in NATURALS {
        assert!(rt; read_natural(text) == want);
    }
    for (text, want) in DECIMALS {
        assert!(rt; read_decimal(text) == want);
    }
    for (text, want) in LONGS {
        assert!(rt; read_long(text) == want);
    }
}

const DATES: [(&str, Option<i32>); 10] = [
    ("2024-02-29", Some(19782)),
    ("2023-02-29", None),
    ("1970-01-01", Some(0)),
    ("0001-01-01", Some(-719162)),
    ("9999-12-31", Some(2932896)),
    ("0000-12-31", None),
    ("2024-2-29", None),
    ("2024-02-2:", None),
    ("2024/02/29", None),
    ("2024-13-01", None),
];

/// Whether a text is read as this date.
fn is_date(alloc: Global, text: &str, want: Option<i32>) -> Result<bool, NoMemory> {
    let text = Text::make(alloc, text)?;
    Ok(read_date(&text) == want)
}

#[test]
fn dates_are_read_and_written(rt: HostRuntime) -> Result<(), Fail> {
    for (text, want) in DATES {
        assert!(rt; is_date(rt.alloc(), text, want)?, "of {text}");
    }
    let text = write_date(rt.alloc(), 19782)?;
    assert!(rt; text.as_str() == "2024-02-29");
    Ok(())
}

#[test]
fn laws_hold() {
    row_order_is_total();
    rows_are_counted();
    dates_give_back();
}
