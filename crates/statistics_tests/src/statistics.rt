//! Statistics of rows as texts, and texts from outside: damaged ones, and such as other writers leave.
use file_stats::{Stats, read_stats, stats_of, write_stats};
use row_base::{Column, Datum, Kind, NoMemory, Rows, Schema, Text};
use std::alloc::Global;
use std::test::Fail;

fn column(alloc: Global, name: &str, kind: Kind) -> Result<Column, NoMemory> {
    Ok(Column {
        name: Text::make(alloc, name)?,
        kind,
        nullable: true,
    })
}

/// One column, whose name is `c`.
fn one_column(alloc: Global, kind: Kind) -> Result<Vec<Column>, NoMemory> {
    let mut columns = Vec::new(alloc);
    columns.push(column(alloc, "c", kind)?)?;
    Ok(columns)
}

/// The text of the statistics of rows.
fn written(alloc: Global, schema: &Schema, rows: &Rows) -> Result<Text, NoMemory> {
    let stats = stats_of(alloc, schema, rows)?;
    write_stats(alloc, schema, &stats)
}

/// The same of rows of one datum each.
fn written_of(
    alloc: Global,
    schema: &Schema,
    first: Datum,
    second: Option<Datum>,
) -> Result<Text, NoMemory> {
    let mut rows = Rows::new(alloc);
    rows.push_copy(&[first])?;
    if let Some(second) = second {
        rows.push_copy(&[second])?;
    }
    written(alloc, schema, &rows)
}

#[test]
fn a_null_has_no_bound(rt: HostRuntime) -> Result<(), Fail> {
    let alloc = rt.alloc();
    let schema = Schema::make(one_column(alloc, Kind::Long)?, Vec::new(alloc))?;
    let text = written_of(alloc, &schema, Datum::Long(1), Some(Datum::Null))?;
    assert!(rt;
        text.as_str()
            == r#"{"maxValues":{"c":1},"minValues":{"c":1},"nullCount":{"c":1},"numRecords":2}"#
    );
    let text = written_of(alloc, &schema, Datum::Long(-7), Some(Datum::Long(12)))?;
    assert!(rt;
        text.as_str()
            == r#"{"maxValues":{"c":12},"minValues":{"c":-7},"nullCount":{"c":0},"numRecords":2}"#
    );
    let text = written_of(alloc, &schema, Datum::Null, None)?;
    assert!(rt;
        text.as_str() == r#"{"maxValues":{},"minValues":{},"nullCount":{"c":1},"numRecords":1}"#
    );
    let text = written(alloc, &schema, &Rows::new(alloc))?;
    assert!(rt;
        text.as_str() == r#"{"maxValues":{},"minValues":{},"nullCount":{"c":0},"numRecords":0}"#
    );
    Ok(())
}

#[test]
fn dates_are_texts_and_truth_values_have_no_bounds(rt: HostRuntime) -> Result<(), Fail> {
    let alloc = rt.alloc();
    let dates = Schema::make(one_column(alloc, Kind::Date)?, Vec::new(alloc))?;
    let text = written_of(alloc, &dates, Datum::Date(19782), None)?;
    assert!(rt;
        text.as_str()
            == r#"{"maxValues":{"c":"2024-02-29"},"minValues":{"c":"2024-02-29"},"nullCount":{"c":0},"numRecords":1}"#
    );
    let flags = Schema::make(one_column(alloc, Kind::Boolean)?, Vec::new(alloc))?;
    let text = written_of(alloc, &flags, Datum::Boolean(true), None)?;
    assert!(rt;
        text.as_str() == r#"{"maxValues":{},"minValues":{},"nullCount":{"c":0},"numRecords":1}"#
    );
    Ok(())
}

/// The statistics of one text.
fn written_of_text(alloc: Global, schema: &Schema, text: &str) -> Result<Text, NoMemory> {
    let text = Text::make(alloc, text)?;
    written_of(alloc, schema, Datum::Text(text), None)
}

/// 32 characters, which are 32 and 64 bytes, and the same with one more.
const SHORT: &str = "aaaaaaaaaaaaaaaaaaaaaaaaaaaaaaaa";

const LONG: &str = "aaaaaaaaaaaaaaaaaaaaaaaaaaaaaaaab";

const WIDE: &str = "éééééééééééééééééééééééééééééééé";

const WIDER: &str = "éééééééééééééééééééééééééééééééééé";

#[test]
fn texts_are_cut_at_32_characters(rt: HostRuntime) -> Result<(), Fail> {
    let alloc = rt.alloc();
    let schema = Schema::make(one_column(alloc, Kind::String)?, Vec::new(alloc))?;
    let text = written_of_text(alloc, &schema, SHORT)?;
    assert!(rt;
        text.as_str()
            == r#"{"maxValues":{"c":"aaaaaaaaaaaaaaaaaaaaaaaaaaaaaaaa"},"minValues":{"c":"aaaaaaaaaaaaaaaaaaaaaaaaaaaaaaaa"},"nullCount":{"c":0},"numRecords":1}"#
    );
    let text = written_of_text(alloc, &schema, LONG)?;
    assert!(rt;
        text.as_str()
            == r#"{"maxValues":{},"minValues":{"c":"aaaaaaaaaaaaaaaaaaaaaaaaaaaaaaaa"},"nullCount":{"c":0},"numRecords":1}"#
    );
    let text = written_of_text(alloc, &schema, WIDE)?;
    assert!(rt;
        text.as_str()
            == r#"{"maxValues":{"c":"éééééééééééééééééééééééééééééééé"},"minValues":{"c":"éééééééééééééééééééééééééééééééé"},"nullCount":{"c":0},"numRecords":1}"#
    );
    let text = written_of_text(alloc, &schema, WIDER)?;
    assert!(rt;
        text.as_str()
            == r#"{"maxValues":{},"minValues":{"c":"éééééééééééééééééééééééééééééééé"},"nullCount":{"c":0},"numRecords":1}"#
    );
    Ok(())
}

#[test]
fn partition_columns_are_left_out(rt: HostRuntime) -> Result<(), Fail> {
    let alloc = rt.alloc();
    let mut columns = Vec::new(alloc);
    columns.push(column(alloc, "p", Kind::String)?)?;
    columns.push(column(alloc, "b", Kind::Long)?)?;
    columns.push(column(alloc, "a", Kind::Integer)?)?;
    let mut partition = Vec::new(alloc);
    partition.push(0)?;
    let schema = Schema::make(columns, partition)?;
    let mut rows = Rows::new(alloc);
    let value = Text::make(alloc, "x")?;
    rows.push_copy(&[Datum::Text(value), Datum::Long(2), Datum::Integer(1)])?;
    let text = written(alloc, &schema, &rows)?;
    assert!(rt;
        text.as_str()
            == r#"{"maxValues":{"a":1,"b":2},"minValues":{"a":1,"b":2},"nullCount":{"a":0,"b":0},"numRecords":1}"#
    );
    Ok(())
}

/// What is known of a bound.
#[derive(Clone, Copy, Debug, Drop, PartialEq, Eq)]
enum Seen {
    Absent,
    Number(i64),
    Integer(i32),
    Day(i32),
    /// Of so many bytes.
    Text(usize),
    Other,
}

fn what_is_seen(bound: &Option<Datum>) -> Seen {
    match bound {
        None => Seen::Absent,
        Some(Datum::Long(number)) => Seen::Number(*number),
        Some(Datum::Integer(number)) => Seen::Integer(*number),
        Some(Datum::Date(day)) => Seen::Day(*day),
        Some(Datum::Text(text)) => Seen::Text(text.as_str().len()),
        Some(_) => Seen::Other,
    }
}

/// What is known: how many rows and nulls there are, and the bounds. Nothing where the text is no JSON object.
#[derive(Clone, Copy, Debug, Drop, PartialEq, Eq)]
enum Known {
    Nothing,
    Stats(Option<u64>, Option<u64>, Seen, Seen),
    /// Of more columns than there are.
    Other,
}

fn what_is_known(stats: &Option<Stats>) -> Known {
    let Some(stats) = stats else {
        return Known::Nothing;
    };
    match stats.columns.as_slice() {
        [column] => Known::Stats(
            stats.count,
            column.nulls,
            what_is_seen(&column.least),
            what_is_seen(&column.greatest),
        ),
        _ => Known::Other,
    }
}

fn known_of(alloc: Global, schema: &Schema, text: &str) -> Result<Known, NoMemory> {
    let text = Text::make(alloc, text)?;
    Ok(what_is_known(&read_stats(alloc, schema, &text)?))
}

const UNKNOWN: Known = Known::Stats(None, None, Seen::Absent, Seen::Absent);

/// Texts of a column of longs.
const OF_LONGS: [(&str, Known); 15] = [
    ("", Known::Nothing),
    ("[]", Known::Nothing),
    ("7", Known::Nothing),
    (r#"{"numRecords":3"#, Known::Nothing),
    (r#"{"numRecords":1e400}"#, Known::Nothing),
    ("{}", UNKNOWN),
    (
        r#"{"numRecords":3,"nullCount":{"c":1},"minValues":{"c":-2},"maxValues":{"c":5}}"#,
        Known::Stats(Some(3), Some(1), Seen::Number(-2), Seen::Number(5)),
    ),
    (
        r#"{"numRecords":null,"nullCount":null,"minValues":{"c":null},"maxValues":[5]}"#,
        UNKNOWN,
    ),
    (
        r#"{"numRecords":"3","nullCount":{"c":"0"},"minValues":{"c":"1"},"maxValues":{"c":true}}"#,
        UNKNOWN,
    ),
    (
        r#"{"numRecords":-1,"nullCount":{"c":-1},"minValues":{"c":1.5},"maxValues":{"c":1e2}}"#,
        UNKNOWN,
    ),
    (
        r#"{"minValues":{"c":-9223372036854775808},"maxValues":{"c":9223372036854775807}}"#,
        Known::Stats(
            None,
            None,
            Seen::Number(-9223372036854775808),
            Seen::Number(9223372036854775807),
        ),
    ),
    (
        r#"{"minValues":{"c":-9223372036854775809},"maxValues":{"c":9223372036854775808}}"#,
        UNKNOWN,
    ),
    (r#"{"minValues":{"d":1},"maxValues":{"C":1}}"#, UNKNOWN),
    (
        r#"{"minValues":{"c":{"c":1}},"maxValues":5,"nullCount":0,"numRecords":{}}"#,
        UNKNOWN,
    ),
    (
        r#"{"minValues":{"c":1,"c":2},"tightBounds":true}"#,
        Known::Stats(None, None, Seen::Number(2), Seen::Absent),
    ),
];

#[test]
fn what_is_absent_or_of_a_wrong_kind_is_not_known(rt: HostRuntime) -> Result<(), Fail> {
    let alloc = rt.alloc();
    let schema = Schema::make(one_column(alloc, Kind::Long)?, Vec::new(alloc))?;
    for (text, wanted) in OF_LONGS {
        assert!(rt; known_of(alloc, &schema, text)? == wanted);
    }
    Ok(())
}

/// Bounds of columns of other kinds.
const OF_OTHERS: [(Kind, &str, Seen, Seen); 7] = [
    (
        Kind::Integer,
        r#"{"minValues":{"c":-2147483648},"maxValues":{"c":2147483647}}"#,
        Seen::Integer(-2147483648),
        Seen::Integer(2147483647),
    ),
    (
        Kind::Integer,
        r#"{"minValues":{"c":-2147483649},"maxValues":{"c":2147483648}}"#,
        Seen::Absent,
        Seen::Absent,
    ),
    (
        Kind::Boolean,
        r#"{"minValues":{"c":false},"maxValues":{"c":true}}"#,
        Seen::Absent,
        Seen::Absent,
    ),
    (
        Kind::String,
        r#"{"minValues":{"c":"\u00e9"},"maxValues":{"c":""}}"#,
        Seen::Text(2),
        Seen::Text(0),
    ),
    (
        Kind::String,
        r#"{"minValues":{"c":1},"maxValues":{"c":["x"]}}"#,
        Seen::Absent,
        Seen::Absent,
    ),
    (
        Kind::Date,
        r#"{"minValues":{"c":"2024-02-29"},"maxValues":{"c":"2023-02-29"}}"#,
        Seen::Day(19782),
        Seen::Absent,
    ),
    (
        Kind::Date,
        r#"{"minValues":{"c":19782},"maxValues":{"c":"2024-2-29"}}"#,
        Seen::Absent,
        Seen::Absent,
    ),
];

#[test]
fn bounds_are_of_their_columns_kind(rt: HostRuntime) -> Result<(), Fail> {
    let alloc = rt.alloc();
    for (kind, text, least, greatest) in OF_OTHERS {
        let schema = Schema::make(one_column(alloc, kind)?, Vec::new(alloc))?;
        let wanted = Known::Stats(None, None, least, greatest);
        assert!(rt; known_of(alloc, &schema, text)? == wanted);
    }
    Ok(())
}
