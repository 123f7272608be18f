//! Printed replies by hand.
use edge_api::{CallKind, Called, Name};
use log_actions::{Feature, LogFaultKind};
use predicates::BindFault;
use reply_texts::print_replies;
use row_base::{Datum, Items, NoMemory, Row, Rows, Text};
use statement_types::{CheckpointOutcome, Clash, ObjectFault, Refusal, Reply, RowWrong};
use std::alloc::Global;
use std::test::Fail;

/// The text of one session's replies, under the name `a`.
fn printed(alloc: Global, replies: Vec<Reply>) -> Result<Vec<u8>, NoMemory> {
    let mut made = Vec::new(alloc);
    made.push(Reply::Created)?;
    let mut all = Vec::new(alloc);
    all.push(Items::from_vec(made))?;
    all.push(Items::from_vec(replies))?;
    let mut names = Vec::new(alloc);
    names.push(Text::make(alloc, "a")?)?;
    print_replies(alloc, names.as_slice(), all.as_slice())
}

/// Whether this is the text of one session's replies.
fn is_printed(
    alloc: Global,
    replies: Result<Vec<Reply>, NoMemory>,
    wanted: &[u8],
) -> Result<bool, NoMemory> {
    let text = printed(alloc, replies?)?;
    Ok(text.as_slice() == wanted)
}

/// The reply with these two rows.
fn rows_of(alloc: Global, first: &[Datum], second: &[Datum]) -> Result<Reply, NoMemory> {
    let mut rows = Rows::new(alloc);
    rows.push_copy(first)?;
    rows.push_copy(second)?;
    Ok(Reply::Rows {
        version: 1,
        rows,
        files_read: 1,
        files_live: 1,
    })
}

/// A commit, and two rows.
fn commit_and_rows(alloc: Global) -> Result<Vec<Reply>, NoMemory> {
    let mut replies = Vec::new(alloc);
    replies.push(Reply::Committed {
        version: 1,
        read: 0,
        attempts: 1,
        checkpoint: CheckpointOutcome::NotDue,
    })?;
    let first = [Datum::Long(1), Datum::Text(Text::make(alloc, "x")?)];
    let second = [Datum::Long(2), Datum::Null];
    replies.push(rows_of(alloc, &first, &second)?)?;
    Ok(replies)
}

const COMMIT_AND_ROWS: &[u8] =
    b"table 1 created 0\na 1 committed 1 read 0 attempts 1\na 2 rows 2 version 1 files 1 of 1\n(1, 'x')\n(2, null)\n";

/// Rows of the other kinds of data, and of characters that are written otherwise.
fn literals(alloc: Global) -> Result<Vec<Reply>, NoMemory> {
    let first = [
        Datum::Text(Text::make(alloc, "it's \\ \n\u{7f}")?),
        Datum::Date(19782),
    ];
    let second = [Datum::Boolean(false), Datum::Integer(-2147483648)];
    let mut replies = Vec::new(alloc);
    replies.push(rows_of(alloc, &first, &second)?)?;
    Ok(replies)
}

const LITERALS: &[u8] =
    b"table 1 created 0\na 1 rows 2 version 1 files 1 of 1\n('it''s \\\\ \\x0a\\x7f', date '2024-02-29')\n(false, -2147483648)\n";

/// Refusals that tell numbers or nothing.
fn refusals_of_numbers(alloc: Global) -> Result<Vec<Reply>, NoMemory> {
    let mut replies = Vec::new(alloc);
    replies.push(Reply::Refused(Refusal::NoTable))?;
    replies.push(Reply::Refused(Refusal::Outlasted {
        start: 1_700_000_000_000,
        now: 1_700_000_005_001,
    }))?;
    replies.push(Reply::Refused(Refusal::TooManyAttempts { lost: 1 }))?;
    replies.push(Reply::Refused(Refusal::Unsupported {
        feature: Feature::Versions,
    }))?;
    replies.push(Reply::Killed)?;
    Ok(replies)
}

const REFUSALS_OF_NUMBERS: &[u8] =
    b"table 1 created 0\na 1 refused 1 no table\na 2 refused 9 outlasted 1700000000000 1700000005001\na 3 refused 8 attempts 1\na 4 refused 13 unsupported versions\na 5 killed\n";

/// Refusals that tell names.
fn refusals_with_names(alloc: Global) -> Result<Vec<Reply>, NoMemory> {
    let name = Name::make(alloc, "_delta_log/00000000000000000001.json")?;
    let mut replies = Vec::new(alloc);
    replies.push(Reply::Refused(Refusal::BadObject {
        name: name.copy()?,
        fault: ObjectFault::Line {
            line: 2,
            kind: LogFaultKind::Shape,
        },
    }))?;
    replies.push(Reply::Refused(Refusal::Fault {
        call: Called {
            kind: CallKind::PutNew,
            name,
        },
    }))?;
    Ok(replies)
}

const REFUSALS_WITH_NAMES: &[u8] =
    b"table 1 created 0\na 1 refused 12 bad object _delta_log/00000000000000000001.json line 2 shape\na 2 refused 14 fault put new _delta_log/00000000000000000001.json\n";

/// A reply for a feature that isn't supported.
fn unsupported(feature: Feature) -> Reply {
    Reply::Refused(Refusal::Unsupported { feature })
}

/// Refusals of features.
fn features(alloc: Global) -> Result<Vec<Reply>, NoMemory> {
    let mut replies = Vec::new(alloc);
    replies.push(unsupported(Feature::Protocol {
        reader: 3,
        writer: 8,
    }))?;
    replies.push(unsupported(Feature::Named {
        name: Text::make(alloc, "columnMapping")?,
    }))?;
    replies.push(unsupported(Feature::Codec { codec: -1 }))?;
    replies.push(Reply::Refused(Refusal::BadObject {
        name: Name::make(alloc, "x")?,
        fault: ObjectFault::Line {
            line: 1,
            kind: LogFaultKind::Unsupported(Feature::DeletionVector),
        },
    }))?;
    Ok(replies)
}

const FEATURES: &[u8] =
    b"table 1 created 0\na 1 refused 13 unsupported protocol 3 8\na 2 refused 13 unsupported feature columnMapping\na 3 refused 13 unsupported codec -1\na 4 refused 12 bad object x line 1 unsupported deletion vector\n";

/// A row of a text and a date, refused for this fault.
fn wrong_row(alloc: Global, fault: Result<RowWrong, NoMemory>) -> Result<Reply, NoMemory> {
    let fault = fault?;
    let mut row = Vec::new(alloc);
    row.push(Datum::Text(Text::make(alloc, "it's")?))?;
    row.push(Datum::Date(19782))?;
    Ok(Reply::Refused(Refusal::Row {
        row: Row::make(row),
        fault,
    }))
}

/// Refusals of rows, and a wait.
fn rows_refused(alloc: Global) -> Result<Vec<Reply>, NoMemory> {
    let name = Text::make(alloc, "v")?;
    let mut replies = Vec::new(alloc);
    replies.push(wrong_row(alloc, Ok(RowWrong::Count))?)?;
    replies.push(wrong_row(alloc, Ok(RowWrong::Kind { name: name.copy()? }))?)?;
    replies.push(wrong_row(alloc, Ok(RowWrong::Null { name: name.copy()? }))?)?;
    replies.push(wrong_row(alloc, Ok(RowWrong::EmptyPartition { name }))?)?;
    replies.push(Reply::Waited)?;
    Ok(replies)
}

const ROWS_REFUSED: &[u8] =
    b"table 1 created 0\na 1 refused 3 row ('it''s', date '2024-02-29') count\na 2 refused 3 row ('it''s', date '2024-02-29') kind v\na 3 refused 3 row ('it''s', date '2024-02-29') null v\na 4 refused 3 row ('it''s', date '2024-02-29') empty partition v\na 5 waited\n";

/// A statement refused for this fault.
fn wrong_statement(fault: BindFault) -> Reply {
    Reply::Refused(Refusal::BadStatement { fault })
}

/// Refusals of statements. A key stands as it is.
fn statements_refused(alloc: Global) -> Result<Vec<Reply>, NoMemory> {
    let name = Text::make(alloc, "v")?;
    let key = Text::make(alloc, "my 'key'")?;
    let mut replies = Vec::new(alloc);
    replies.push(wrong_statement(BindFault::Column { name: name.copy()? }))?;
    replies.push(wrong_statement(BindFault::Kind { name: name.copy()? }))?;
    replies.push(wrong_statement(BindFault::Twice { name }))?;
    replies.push(wrong_statement(BindFault::Count))?;
    replies.push(wrong_statement(BindFault::Property { key: key.copy()? }))?;
    replies.push(wrong_statement(BindFault::Fixed { key }))?;
    Ok(replies)
}

const STATEMENTS_REFUSED: &[u8] =
    b"table 1 created 0\na 1 refused 21 statement column v\na 2 refused 21 statement kind v\na 3 refused 21 statement twice v\na 4 refused 21 statement count\na 5 refused 21 statement property my 'key'\na 6 refused 21 statement fixed my 'key'\n";

/// An object without a reading.
fn bad_object(alloc: Global, fault: Result<ObjectFault, NoMemory>) -> Result<Reply, NoMemory> {
    let fault = fault?;
    Ok(Reply::Refused(Refusal::BadObject {
        name: Name::make(alloc, "x")?,
        fault,
    }))
}

/// Objects without a reading, by their bytes.
fn objects_refused(alloc: Global) -> Result<Vec<Reply>, NoMemory> {
    let mut replies = Vec::new(alloc);
    for fault in [
        ObjectFault::Table,
        ObjectFault::Short,
        ObjectFault::Magic,
        ObjectFault::Footer,
        ObjectFault::Thrift { at: 7 },
        ObjectFault::Page { at: 4 },
    ] {
        replies.push(bad_object(alloc, Ok(fault))?)?;
    }
    Ok(replies)
}

const OBJECTS_REFUSED: &[u8] =
    b"table 1 created 0\na 1 refused 12 bad object x table\na 2 refused 12 bad object x short\na 3 refused 12 bad object x magic\na 4 refused 12 bad object x footer\na 5 refused 12 bad object x thrift 7\na 6 refused 12 bad object x page 4\n";

/// Objects whose columns or values have no reading, and other refusals.
fn columns_refused(alloc: Global) -> Result<Vec<Reply>, NoMemory> {
    let name = Text::make(alloc, "v")?;
    let mut replies = Vec::new(alloc);
    replies.push(bad_object(alloc, Ok(ObjectFault::Shape { name: name.copy()? }))?)?;
    replies.push(bad_object(alloc, Ok(ObjectFault::Value { name }))?)?;
    replies.push(Reply::Refused(Refusal::TableThere))?;
    replies.push(Reply::Refused(Refusal::OutcomeUnknown { version: 3 }))?;
    replies.push(Reply::Refused(Refusal::NoMemory))?;
    replies.push(Reply::Refused(Refusal::TooLarge { bytes: 67_108_865 }))?;
    Ok(replies)
}

const COLUMNS_REFUSED: &[u8] =
    b"table 1 created 0\na 1 refused 12 bad object x shape v\na 2 refused 12 bad object x value v\na 3 refused 2 table there\na 4 refused 15 outcome unknown 3\na 5 refused 16 no memory\na 6 refused 22 too large 67108865\n";

/// Refusals that tell the name of an object, and a clash.
fn objects_named(alloc: Global) -> Result<Vec<Reply>, NoMemory> {
    let name = Name::make(alloc, "x")?;
    let mut replies = Vec::new(alloc);
    replies.push(Reply::Refused(Refusal::FileGone { name: name.copy()? }))?;
    replies.push(Reply::Refused(Refusal::NameTaken { name: name.copy()? }))?;
    replies.push(Reply::Refused(Refusal::LogGone { name }))?;
    replies.push(Reply::Refused(Refusal::Conflict {
        winner: 2,
        clash: Clash::Protocol,
    }))?;
    replies.push(Reply::Refused(Refusal::Fault {
        call: Called {
            kind: CallKind::List,
            name: Name::make(alloc, "")?,
        },
    }))?;
    Ok(replies)
}

const OBJECTS_NAMED: &[u8] =
    b"table 1 created 0\na 1 refused 10 file gone x\na 2 refused 11 name taken x\na 3 refused 18 log gone x\na 4 refused 7 conflict 2 protocol\na 5 refused 14 fault list \n";

#[test]
fn replies_are_printed(rt: HostRuntime) -> Result<(), Fail> {
    let alloc = rt.alloc();
    assert!(rt; is_printed(alloc, commit_and_rows(alloc), COMMIT_AND_ROWS)?);
    assert!(rt; is_printed(alloc, literals(alloc), LITERALS)?);
    assert!(rt; is_printed(alloc, refusals_of_numbers(alloc), REFUSALS_OF_NUMBERS)?);
    assert!(rt; is_printed(alloc, refusals_with_names(alloc), REFUSALS_WITH_NAMES)?);
    assert!(rt; is_printed(alloc, features(alloc), FEATURES)?);
    Ok(())
}

#[test]
fn refusals_are_printed(rt: HostRuntime) -> Result<(), Fail> {
    let alloc = rt.alloc();
    assert!(rt; is_printed(alloc, rows_refused(alloc), ROWS_REFUSED)?);
    assert!(rt; is_printed(alloc, statements_refused(alloc), STATEMENTS_REFUSED)?);
    assert!(rt; is_printed(alloc, objects_refused(alloc), OBJECTS_REFUSED)?);
    assert!(rt; is_printed(alloc, columns_refused(alloc), COLUMNS_REFUSED)?);
    assert!(rt; is_printed(alloc, objects_named(alloc), OBJECTS_NAMED)?);
    Ok(())
}
