//! Copies of replies.
use edge_api::{CallKind, Called, Name};
use row_base::{Datum, Rows};
use statement_types::{Refusal, Reply};
use std::alloc::Global;
use std::test::Fail;

/// The name in a refusal, or the number of rows, as text.
fn told(alloc: Global, reply: &Reply) -> Result<String, Fail> {
    let text = match reply {
        Reply::Rows { rows, .. } => format!(in alloc; "{} rows", rows.len())?,
        Reply::Refused(Refusal::Fault { call }) => {
            format!(in alloc; "fault {}", call.name.as_str())?
        }
        _ => String::from_str(alloc, "another")?,
    };
    Ok(text)
}

#[test]
fn replies_are_copied(rt: HostRuntime) -> Result<(), Fail> {
    let alloc = rt.alloc();
    let call = Called {
        kind: CallKind::Get,
        name: Name::make(alloc, "data")?,
    };
    let refusal = Refusal::Fault { call };
    let refused = Reply::Refused(refusal.copy(alloc)?);
    assert_eq!(rt; told(alloc, &refused.copy(alloc)?)?.as_str(), "fault data");
    let mut rows = Rows::new(alloc);
    rows.push_copy(&[Datum::Long(7)])?;
    let selected = Reply::Rows {
        version: 1,
        rows,
        files_read: 1,
        files_live: 1,
    };
    assert_eq!(rt; told(alloc, &selected.copy(alloc)?)?.as_str(), "1 rows");
    Ok(())
}
