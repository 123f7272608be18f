//! Refusals.
ghost use Rattle.std.specs.Prelude.{◌≡◌, ◌++◌, OnOk, codes};
ghost use Rattle.std.specs.Fmt.{signed_decimal};
ghost use Rattle.reply_texts.specs.Replies.{counted};
ghost use Rattle.reply_texts.specs.Replies as spec;

use crate::literal::push_row_text;
use crate::printer::Printer;
use edge_api::{CallKind, Called, Name};
use log_actions::{Feature, LogFaultKind};
use predicates::BindFault;
use row_base::{NoMemory, Row, Text};
use statement_types::{Clash, ObjectFault, Refusal, RowWrong};

fn push_kind(out: &mut Printer, kind: CallKind) -> Result<(), NoMemory>
    ensures { OnOk result (out.new ≡ out.old ++ spec.kind_text kind) }
{
    match kind {
        CallKind::Get => out.push(b"get "),
        CallKind::PutNew => out.push(b"put new "),
        CallKind::Put => out.push(b"put "),
        CallKind::List => out.push(b"list "),
        CallKind::Delete => out.push(b"delete "),
        CallKind::Now => out.push(b"now"),
        CallKind::Wait => out.push(b"wait"),
    }
}

fn push_call(out: &mut Printer, call: &Called) -> Result<(), NoMemory>
    ensures { OnOk result (out.new ≡ out.old ++ spec.call_text call.now) }
{
    push_kind(out, call.kind)?;
    out.push(call.name.as_bytes())?;
    Ok(())
}

fn push_clash(out: &mut Printer, clash: Clash) -> Result<(), NoMemory>
    ensures { OnOk result (out.new ≡ out.old ++ spec.clash_text clash) }
{
    match clash {
        Clash::Protocol => out.push(b" protocol"),
    }
}

fn push_two_numbers(out: &mut Printer, word: &[u8], first: u64, second: u64) -> Result<(), NoMemory>
    ensures { OnOk result (out.new ≡ out.old ++ (counted word.now first ++ counted (codes " ") second)) }
{
    out.push_counted(word, first)?;
    out.push_counted(b" ", second)?;
    Ok(())
}

fn push_behind_word(out: &mut Printer, word: &[u8], text: &Text) -> Result<(), NoMemory>
    ensures { OnOk result (out.new ≡ out.old ++ (word.now ++ text.now)) }
{
    out.push(word)?;
    out.push(text.as_bytes())?;
    Ok(())
}

fn push_code(out: &mut Printer, word: &[u8], code: i32) -> Result<(), NoMemory>
    ensures { OnOk result (out.new ≡ out.old ++ (word.now ++ signed_decimal code)) }
{
    out.push(word)?;
    out.push_signed(code as i64)?;
    Ok(())
}

fn push_feature(out: &mut Printer, feature: &Feature) -> Result<(), NoMemory>
    ensures { OnOk result (out.new ≡ out.old ++ spec.feature_text feature.now) }
{
    match feature {
        Feature::Protocol { reader, writer } => {
            push_two_numbers(out, b"protocol ", *reader, *writer)
        }
        Feature::Named { name } => push_behind_word(out, b"feature ", name),
        Feature::Property { key } => push_behind_word(out, b"property ", key),
        Feature::AbsolutePath => out.push(b"absolute path"),
        Feature::DeletionVector => out.push(b"deletion vector"),
        Feature::Codec { codec } => push_code(out, b"codec ", *codec),
        Feature::Encoding { encoding } => push_code(out, b"encoding ", *encoding),
        Feature::PageKind { kind } => push_code(out, b"page type ", *kind),
        Feature::ColumnType { name } => push_behind_word(out, b"column type ", name),
        Feature::CheckpointForm => out.push(b"checkpoint form"),
        Feature::Sidecar => out.push(b"sidecar"),
        Feature::NestedColumns => out.push(b"nested columns"),
        Feature::Timestamp => out.push(b"timestamp"),
        Feature::Versions => out.push(b"versions"),
    }
}

fn push_word_and_feature(out: &mut Printer, word: &[u8], feature: &Feature) -> Result<(), NoMemory>
    ensures { OnOk result (out.new ≡ out.old ++ (word.now ++ spec.feature_text feature.now)) }
{
    out.push(word)?;
    push_feature(out, feature)?;
    Ok(())
}

fn push_line_fault(out: &mut Printer, kind: &LogFaultKind) -> Result<(), NoMemory>
    ensures { OnOk result (out.new ≡ out.old ++ spec.line_fault_text kind.now) }
{
    match kind {
        LogFaultKind::Json => out.push(b" json"),
        LogFaultKind::Shape => out.push(b" shape"),
        LogFaultKind::Twice => out.push(b" twice"),
        LogFaultKind::Unsupported(feature) => push_word_and_feature(out, b" unsupported ", feature),
        LogFaultKind::NoMemory => out.push(b" no memory"),
    }
}

fn push_line(out: &mut Printer, line: u32, kind: &LogFaultKind) -> Result<(), NoMemory>
    ensures { OnOk result (out.new ≡ out.old ++ spec.fault_text (ObjectFault.Line line kind.now)) }
{
    out.push_counted(b" line ", line as u64)?;
    push_line_fault(out, kind)?;
    Ok(())
}

fn push_fault(out: &mut Printer, fault: &ObjectFault) -> Result<(), NoMemory>
    ensures { OnOk result (out.new ≡ out.old ++ spec.fault_text fault.now) }
{
    match fault {
        ObjectFault::Line { line, kind } => push_line(out, *line, kind),
        ObjectFault::Table => out.push(b" table"),
        ObjectFault::Short => out.push(b" short"),
        ObjectFault::Magic => out.push(b" magic"),
        ObjectFault::Footer => out.push(b" footer"),
        ObjectFault::Thrift { at } => out.push_counted(b" thrift ", *at as u64),
        ObjectFault::Shape { name } => push_behind_word(out, b" shape ", name),
        ObjectFault::Page { at } => out.push_counted(b" page ", *at as u64),
        ObjectFault::Value { name } => push_behind_word(out, b" value ", name),
    }
}

fn push_row_fault(out: &mut Printer, fault: &RowWrong) -> Result<(), NoMemory>
    ensures { OnOk result (out.new ≡ out.old ++ spec.row_fault_text fault.now) }
{
    match fault {
        RowWrong::Count => out.push(b" count"),
        RowWrong::Kind { name } => push_behind_word(out, b" kind ", name),
        RowWrong::Null { name } => push_behind_word(out, b" null ", name),
        RowWrong::EmptyPartition { name } => push_behind_word(out, b" empty partition ", name),
    }
}

fn push_wrong_row(out: &mut Printer, row: &Row, fault: &RowWrong) -> Result<(), NoMemory>
    ensures { OnOk result (out.new ≡ out.old ++ spec.refusal_text (Refusal.Row row.now fault.now)) }
{
    out.push(b"3 row ")?;
    push_row_text(out, row.as_slice())?;
    push_row_fault(out, fault)?;
    Ok(())
}

fn push_statement_fault(out: &mut Printer, fault: &BindFault) -> Result<(), NoMemory>
    ensures { OnOk result (out.new ≡ out.old ++ spec.statement_fault_text fault.now) }
{
    match fault {
        BindFault::Column { name } => push_behind_word(out, b"column ", name),
        BindFault::Kind { name } => push_behind_word(out, b"kind ", name),
        BindFault::Twice { name } => push_behind_word(out, b"twice ", name),
        BindFault::Count => out.push(b"count"),
        BindFault::Property { key } => push_behind_word(out, b"property ", key),
        BindFault::Fixed { key } => push_behind_word(out, b"fixed ", key),
        BindFault::NoMemory => out.push(b"no memory"),
    }
}

fn push_word_and_statement_fault(
    out: &mut Printer,
    word: &[u8],
    fault: &BindFault,
) -> Result<(), NoMemory>
    ensures { OnOk result (out.new ≡ out.old ++ (word.now ++ spec.statement_fault_text fault.now)) }
{
    out.push(word)?;
    push_statement_fault(out, fault)?;
    Ok(())
}

fn push_named(out: &mut Printer, word: &[u8], name: &Name) -> Result<(), NoMemory>
    ensures { OnOk result (out.new ≡ out.old ++ (word.now ++ name.now)) }
{
    out.push(word)?;
    out.push(name.as_bytes())?;
    Ok(())
}

fn push_conflict(out: &mut Printer, winner: u64, clash: Clash) -> Result<(), NoMemory>
    ensures { OnOk result (out.new ≡ out.old ++ spec.refusal_text (Refusal.Conflict winner clash)) }
{
    out.push_counted(b"7 conflict ", winner)?;
    push_clash(out, clash)?;
    Ok(())
}

fn push_named_fault(
    out: &mut Printer,
    word: &[u8],
    name: &Name,
    fault: &ObjectFault,
) -> Result<(), NoMemory>
    ensures { OnOk result (out.new ≡ out.old ++ (word.now ++ (name.now ++ spec.fault_text fault.now))) }
{
    push_named(out, word, name)?;
    push_fault(out, fault)?;
    Ok(())
}

fn push_failed(out: &mut Printer, call: &Called) -> Result<(), NoMemory>
    ensures { OnOk result (out.new ≡ out.old ++ spec.refusal_text (Refusal.Fault call.now)) }
{
    out.push(b"14 fault ")?;
    push_call(out, call)?;
    Ok(())
}

/// The text of a refusal.
pub fn push_refusal(out: &mut Printer, refusal: &Refusal) -> Result<(), NoMemory>
    ensures { OnOk result (out.new ≡ out.old ++ spec.refusal_text refusal.now) }
{
    match refusal {
        Refusal::NoTable => out.push(b"1 no table"),
        Refusal::TableThere => out.push(b"2 table there"),
        Refusal::Row { row, fault } => push_wrong_row(out, row, fault),
        Refusal::Conflict { winner, clash } => push_conflict(out, *winner, *clash),
        Refusal::TooManyAttempts { lost } => out.push_counted(b"8 attempts ", *lost as u64),
        Refusal::Outlasted { start, now } => push_two_numbers(out, b"9 outlasted ", *start, *now),
        Refusal::FileGone { name } => push_named(out, b"10 file gone ", name),
        Refusal::NameTaken { name } => push_named(out, b"11 name taken ", name),
        Refusal::BadObject { name, fault } => push_named_fault(out, b"12 bad object ", name, fault),
        Refusal::Unsupported { feature } => push_word_and_feature(out, b"13 unsupported ", feature),
        Refusal::Fault { call } => push_failed(out, call),
        Refusal::OutcomeUnknown { version } => {
            out.push_counted(b"15 outcome unknown ", *version)
        }
        Refusal::NoMemory => out.push(b"16 no memory"),
        Refusal::LogGone { name } => push_named(out, b"18 log gone ", name),
        Refusal::BadStatement { fault } => {
            push_word_and_statement_fault(out, b"21 statement ", fault)
        }
        Refusal::TooLarge { bytes } => out.push_counted(b"22 too large ", *bytes),
    }
}
