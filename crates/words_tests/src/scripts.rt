//! Scripts and faults by hand.
use actor_core::ItemForm;
use row_base::Datum;
use row_base::limits::MAX_SCRIPT_BYTES;
use script_forms::ScriptFaultKind::{Form, Header, Limit, Session, Utf8};
use script_forms::{Script, ScriptFault, ScriptFaultKind, parse_script};
use statement_types::Statement;
use std::alloc::{AllocError, Global};
use std::test::Fail;

fn read(alloc: Global, bytes: &[u8]) -> Result<Script, ScriptFault> {
    if bytes.len() > MAX_SCRIPT_BYTES {
        return Err(ScriptFault {
            line: 0,
            kind: ScriptFaultKind::NoMemory,
        });
    }
    parse_script(alloc, bytes)
}

/// The least bad line of the script and its kind, or nothing where it is read.
fn fault(alloc: Global, bytes: &[u8]) -> Option<(u32, ScriptFaultKind)> {
    match read(alloc, bytes) {
        Ok(_) => None,
        Err(fault) => Some((fault.line, fault.kind)),
    }
}

fn is_read(alloc: Global, bytes: &[u8]) -> bool {
    fault(alloc, bytes).is_none()
}

fn is_refused(alloc: Global, bytes: &[u8], line: u32, kind: ScriptFaultKind) -> bool {
    fault(alloc, bytes) == Some((line, kind))
}

/// The fault of the lines behind a header of one column and a session `a`.
fn fault_behind(alloc: Global, lines: &[u8]) -> Result<Option<(u32, ScriptFaultKind)>, AllocError> {
    let mut bytes = Vec::from_slice(alloc, b"table (k long not null)\nsession a\n")?;
    bytes.extend_from_slice(lines)?;
    Ok(fault(alloc, &bytes))
}

fn is_read_behind(alloc: Global, lines: &[u8]) -> bool {
    matches!(fault_behind(alloc, lines), Ok(None))
}

fn is_refused_behind(alloc: Global, lines: &[u8], line: u32, kind: ScriptFaultKind) -> bool {
    matches!(fault_behind(alloc, lines), Ok(Some(at)) if at == (line, kind))
}

fn row_is(row: Option<&[Datum]>, first: i64, second: i64) -> bool {
    matches!(row, Some([Datum::Long(a), Datum::Long(b)]) if *a == first && *b == second)
}

/// Whether the statements are an insert of two rows, and a select.
fn are_statements(statements: &[Statement]) -> bool {
    match statements {
        [
            Statement::Insert { rows },
            Statement::Select,
            Statement::Wait(30),
        ] => {
            let rows = rows.rows();
            rows.len() == 2
                && row_is(rows.get(0), 1, -2)
                && row_is(rows.get(1), 7, 9_223_372_036_854_775_807)
        }
        _ => false,
    }
}

#[test]
fn reads_a_script(rt: HostRuntime) {
    let text =
        b"attempts 5\n table (k long not null,v long not null) \n\n  # note\nsession a\ninsert (1, -2),(007,9223372036854775807)\nselect\nwait 30\nsession b2\nschedule\na b2!\n a@  b2";
    let script = match read(rt.alloc(), text) {
        Ok(script) => script,
        Err(_) => {
            assert!(rt; false);
            return;
        }
    };
    assert_eq!(rt; script.attempts, 5);
    let sessions = script.sessions.as_slice();
    assert_eq!(rt; sessions.len(), 2);
    assert_eq!(rt; sessions[0].name.as_str(), "a");
    assert_eq!(rt; sessions[1].name.as_str(), "b2");
    assert_eq!(rt; sessions[1].statements.as_slice().len(), 0);
    assert!(rt; are_statements(sessions[0].statements.as_slice()));
    let items = script.items.as_slice();
    assert_eq!(rt; items.len(), 4);
    assert!(rt; items[0].actor == 1 && items[0].form == ItemForm::One);
    assert!(rt; items[1].actor == 2 && items[1].form == ItemForm::Statement);
    assert!(rt; items[2].actor == 1 && items[2].form == ItemForm::Attempt);
    assert!(rt; items[3].actor == 2 && items[3].form == ItemForm::One);
}

#[test]
fn names_faults_at_the_header(rt: HostRuntime) {
    let alloc = rt.alloc();
    for (text, line, kind) in [
        ("", 1, Header),
        ("# note\n\n", 3, Header),
        ("attempts 5", 2, Header),
        ("attempts 0\n", 1, Limit),
        ("attempts -1\n", 1, Limit),
        ("\nattempts 1000001", 2, Limit),
        ("attempts 2\nattempts 2\n", 2, Header),
        ("select\n", 1, Header),
        ("table (k long, k) \n", 1, Header),
        ("table ()\n", 1, Header),
        ("table (k double)\n", 1, Header),
        ("table (k long null)\n", 1, Header),
        ("table (k long) with ('a' = 'b', 'a' = 'c')\n", 1, Header),
        ("table (k long) with ('a' = 1)\n", 1, Header),
        ("table (k long) with () \n", 1, Header),
        ("table (k long) partitioned (k)\n", 1, Header),
        (
            "table (k long) with ('a' = 'b') partitioned by (k)\n",
            1,
            Header,
        ),
        ("open table\n", 1, Header),
        ("open\nopen\n", 2, Form),
        ("table (key long not null)\n", 1, Header),
        ("table\t(k long not null)\n", 1, Header),
        ("table (k long not null)\nselect\n", 2, Form),
    ] {
        assert!(rt; is_refused(alloc, text.as_bytes(), line, kind), "{text}");
    }
    assert!(rt; is_refused(alloc, b"# \xff\n", 1, Utf8));
    assert!(rt; is_read(alloc, b"attempts 1000000\ntable (k long not null)"));
    assert!(rt; is_read(alloc, b"open"));
    assert!(rt; is_read(alloc, b"table (k long not null, k string)\n"));
    assert!(rt; is_read(alloc, b"table (k long not null)\nschedule\n"));
}

/// Lines behind a header and a session `a`, and the first that is bad: of statements and sessions, and of items.
const BEHIND: [(&str, u32, ScriptFaultKind); 31] = [
    ("delete\n", 3, Form),
    ("kill a 1\n", 3, Form),
    ("open\n", 3, Form),
    ("table (v)\n", 3, Form),
    ("table (v long) with ('a' = '', 'a' = '')\n", 3, Form),
    ("insert (1, 2), ()\n", 3, Form),
    ("insert (date '2023-02-29')\n", 3, Form),
    ("insert (date'2023-02-28')\n", 3, Form),
    ("insert (date '2023-2-28')\n", 3, Form),
    ("insert (date)\n", 3, Form),
    ("insert (True)\n", 3, Form),
    ("insert ('a' 'b')\n", 3, Form),
    ("insert ('\\x80')\n", 3, Form),
    ("wait -1\n", 3, Form),
    ("wait 1099511627777\n", 3, Limit),
    ("insert (- 1)\n", 3, Form),
    ("insert (5a)\n", 3, Form),
    ("insert\t(1)\n", 3, Form),
    ("insert (9223372036854775808)", 3, Form),
    ("insert (-9223372036854775808),(-0)\nselect 1", 4, Form),
    ("\n# note\nselect where v > 'it''s'\n", 5, Form),
    ("session a\n", 3, Session),
    ("session select\n", 3, Form),
    (
        "session abcdefghijklmnop\nsession abcdefghijklmnopq\n",
        4,
        Form,
    ),
    ("session B\n", 3, Form),
    ("schedule\na c\n", 4, Session),
    ("schedule\nA\n", 4, Session),
    ("schedule\nc a !\n", 4, Form),
    ("schedule\na!a\n", 4, Form),
    ("schedule\na! select\n", 4, Form),
    ("schedule\nschedule\n", 4, Form),
];

#[test]
fn names_faults_behind_a_session(rt: HostRuntime) {
    let alloc = rt.alloc();
    for (lines, line, kind) in BEHIND {
        assert!(rt;
            is_refused_behind(alloc, lines.as_bytes(), line, kind),
            "{lines}"
        );
    }
    assert!(rt; is_refused_behind(alloc, b"select\n # \xc3(\n", 4, Utf8));
}

#[test]
fn reads_items(rt: HostRuntime) {
    for lines in ["schedule", "schedule\n\n# note\n", "schedule\na! a@ a\n"] {
        assert!(rt; is_read_behind(rt.alloc(), lines.as_bytes()), "{lines}");
    }
}

/// The first bytes, then as many copies of the text as asked, then the last bytes.
fn repeated(
    alloc: Global,
    first: &str,
    text: &str,
    count: u32,
    last: &str,
) -> Result<Vec<u8>, AllocError> {
    let mut bytes = Vec::from_slice(alloc, first.as_bytes())?;
    for _ in 0..count {
        bytes.extend_from_slice(text.as_bytes())?;
    }
    bytes.extend_from_slice(last.as_bytes())?;
    Ok(bytes)
}

#[test]
fn names_the_line_past_a_limit(rt: HostRuntime) -> Result<(), Fail> {
    let alloc = rt.alloc();
    for (first, text, count, last, wanted) in [
        ("", "select\n", 4_096, "", None),
        ("", "select\n", 4_097, "", Some((4_099, Limit))),
        ("schedule\n", "a ", 1_048_576, "\n", None),
        ("schedule\n", "a ", 1_048_576, "\na\n", Some((5, Limit))),
    ] {
        let lines = repeated(alloc, first, text, count, last)?;
        assert!(rt; fault_behind(alloc, &lines)? == wanted, "{text}");
    }
    Ok(())
}

/// A header, and as many sessions as asked, each of another name of two letters; then the end.
fn sessions(alloc: Global, count: u8, end: &str) -> Result<Vec<u8>, AllocError> {
    let mut bytes = Vec::from_slice(alloc, b"table (k long not null)\n")?;
    for i in 0..count {
        bytes.extend_from_slice(b"session ")?;
        bytes.push(b'a' + i / 8)?;
        bytes.push(b'a' + i % 8)?;
        bytes.push(b'\n')?;
    }
    bytes.extend_from_slice(end.as_bytes())?;
    Ok(bytes)
}

#[test]
fn names_the_session_past_the_limit(rt: HostRuntime) -> Result<(), Fail> {
    let alloc = rt.alloc();
    for (count, end, wanted) in [
        (64, "select\n", None),
        (65, "", Some((66, Limit))),
        (64, "session aa\n", Some((66, Session))),
    ] {
        let bytes = sessions(alloc, count, end)?;
        assert!(rt; fault(alloc, &bytes) == wanted, "{end}");
    }
    Ok(())
}
