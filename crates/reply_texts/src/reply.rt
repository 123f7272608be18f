//! Replies.
ghost use Rattle.std.specs.Prelude.{◌≡◌, ◌++◌, IfOk, OnOk};
ghost use Rattle.std.specs.List.{flat_map};
ghost use Rattle.reply_texts.specs.Literals.{row_line};
ghost use Rattle.reply_texts.specs.Replies as spec;

use crate::literal::push_row;
use crate::printer::Printer;
use crate::refusal::push_refusal;
use row_base::{NoMemory, Rows, Text};
use statement_types::{CheckpointOutcome, Refusal, Reply, SessionReplies};
use std::alloc::Global;

fn push_outcome(out: &mut Printer, outcome: CheckpointOutcome) -> Result<(), NoMemory>
    ensures { OnOk result (out.new ≡ out.old ++ spec.outcome_text outcome) }
{
    match outcome {
        CheckpointOutcome::NotDue => Ok(()),
        CheckpointOutcome::Written => out.push(b" checkpoint written"),
        CheckpointOutcome::Fault => out.push(b" checkpoint fault"),
        CheckpointOutcome::Taken => out.push(b" checkpoint taken"),
        CheckpointOutcome::TooLarge => out.push(b" checkpoint too large"),
        CheckpointOutcome::NoMemory => out.push(b" checkpoint no memory"),
    }
}

fn push_committed(
    out: &mut Printer,
    version: u64,
    read: u64,
    attempts: u32,
    checkpoint: CheckpointOutcome,
) -> Result<(), NoMemory>
    ensures { OnOk result (out.new ≡ out.old ++ spec.reply_text (Reply.Committed version read attempts checkpoint)) }
{
    out.push_counted(b"committed ", version)?;
    out.push_counted(b" read ", read)?;
    out.push_counted(b" attempts ", attempts as u64)?;
    push_outcome(out, checkpoint)?;
    out.push(b"\n")?;
    Ok(())
}

fn push_each_row(out: &mut Printer, rows: &Rows) -> Result<(), NoMemory>
    ensures { OnOk result (out.new ≡ out.old ++ flat_map row_line rows.now) }
{
    for row in rows.iter() {
        push_row(out, row)?;
    }
    Ok(())
}

fn push_rows(
    out: &mut Printer,
    version: u64,
    rows: &Rows,
    files_read: u64,
    files_live: u64,
) -> Result<(), NoMemory>
    ensures { OnOk result (out.new ≡ out.old ++ spec.reply_text (Reply.Rows version rows.now files_read files_live)) }
{
    out.push_counted(b"rows ", rows.len() as u64)?;
    out.push_counted(b" version ", version)?;
    out.push_counted(b" files ", files_read)?;
    out.push_counted(b" of ", files_live)?;
    out.push(b"\n")?;
    push_each_row(out, rows)?;
    Ok(())
}

fn push_refused(out: &mut Printer, refusal: &Refusal) -> Result<(), NoMemory>
    ensures { OnOk result (out.new ≡ out.old ++ spec.reply_text (Reply.Refused refusal.now)) }
{
    out.push(b"refused ")?;
    push_refusal(out, refusal)?;
    out.push(b"\n")?;
    Ok(())
}

fn push_reply(out: &mut Printer, reply: &Reply) -> Result<(), NoMemory>
    ensures { OnOk result (out.new ≡ out.old ++ spec.reply_text reply.now) }
{
    match reply {
        Reply::Created => out.push(b"created 0\n"),
        Reply::Committed {
            version,
            read,
            attempts,
            checkpoint,
        } => push_committed(out, *version, *read, *attempts, *checkpoint),
        Reply::Rows {
            version,
            rows,
            files_read,
            files_live,
        } => push_rows(out, *version, rows, *files_read, *files_live),
        Reply::Waited => out.push(b"waited\n"),
        Reply::Killed => out.push(b"killed\n"),
        Reply::Refused(refusal) => push_refused(out, refusal),
    }
}

fn push_statement(
    out: &mut Printer,
    name: &[u8],
    number: u64,
    reply: &Reply,
) -> Result<(), NoMemory>
    ensures { OnOk result (out.new ≡ out.old ++ spec.statement_text name.now number reply.now) }
{
    out.push(name)?;
    out.push_counted(b" ", number)?;
    out.push(b" ")?;
    push_reply(out, reply)?;
    Ok(())
}

fn push_session(out: &mut Printer, name: &[u8], replies: &[Reply]) -> Result<(), NoMemory>
    ensures { OnOk result (out.new ≡ out.old ++ spec.session_text name.now 1 replies.now) }
{
    for (i, reply) in replies.iter().enumerate() {
        push_statement(out, name, i as u64 + 1, reply)?;
    }
    Ok(())
}

fn push_sessions(
    out: &mut Printer,
    names: &[Text],
    replies: &[SessionReplies],
) -> Result<(), NoMemory>
    ensures { OnOk result (out.new ≡ out.old ++ spec.sessions_text names.now replies.now) }
{
    let mut rest = replies;
    for name in names {
        match rest.split_first() {
            Some((first, others)) => {
                push_session(out, name.as_bytes(), first.as_slice())?;
                rest = others;
            }
            None => return Ok(()),
        }
    }
    Ok(())
}

/// The text of all replies. The first replies are those of the statement that makes the table, under the name
/// `table`; the others are those of the sessions of these names, in the order of these. Each line ends with a line end.
pub fn print_replies(
    alloc: Global,
    names: &[Text],
    replies: &[SessionReplies],
) -> Result<Vec<u8>, NoMemory>
    ensures { IfOk result (λ text. text.items ≡ spec.printed names.now replies.now) }
{
    let mut out = Printer::new(alloc);
    if let Some((first, others)) = replies.split_first() {
        push_session(&mut out, b"table", first.as_slice())?;
        push_sessions(&mut out, names, others)?;
    }
    Ok(out.into_bytes())
}
