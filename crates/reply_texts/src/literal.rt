//! Data and rows.
ghost use Rattle.std.specs.Prelude.{◌≡◌, ◌<◌, ◌++◌, OnOk, codes};
ghost use Rattle.std.specs.List.{flat_map};
ghost use Rattle.reply_texts.specs.Literals as spec;

use crate::printer::Printer;
use row_base::{Datum, NoMemory};

fn hex_digit(d: u8) -> u8
    requires { d < 16 }
    ensures { result ≡ spec.hex_digit d }
{
    if d < 10 { b'0' + d } else { b'a' + (d - 10) }
}

fn push_escaped(out: &mut Printer, b: u8) -> Result<(), NoMemory>
    ensures { OnOk result (out.new ≡ out.old ++ spec.escaped b) }
{
    if b == b'\'' {
        out.push(b"''")
    } else if b == b'\\' {
        out.push(b"\\\\")
    } else if b < 32 || b == 127 {
        out.push(&[b'\\', b'x', hex_digit(b / 16), hex_digit(b % 16)])
    } else {
        out.push(&[b])
    }
}

fn push_each_escaped(out: &mut Printer, text: &[u8]) -> Result<(), NoMemory>
    ensures { OnOk result (out.new ≡ out.old ++ flat_map spec.escaped text.now) }
{
    for b in text {
        push_escaped(out, *b)?;
    }
    Ok(())
}

/// Writes a text in quotes at the end of a text. After an error the text may have a part of it.
pub fn push_quoted(out: &mut Printer, text: &[u8]) -> Result<(), NoMemory>
    ensures { OnOk result (out.new ≡ out.old ++ spec.quoted text.now) }
{
    out.push(b"'")?;
    push_each_escaped(out, text)?;
    out.push(b"'")?;
    Ok(())
}

fn push_date(out: &mut Printer, day: i32) -> Result<(), NoMemory>
    ensures { OnOk result (out.new ≡ out.old ++ (codes "date '" ++ spec.day_text day ++ codes "'")) }
{
    out.push(b"date '")?;
    out.push_day(day)?;
    out.push(b"'")?;
    Ok(())
}

fn push_boolean(out: &mut Printer, b: bool) -> Result<(), NoMemory>
    ensures { OnOk result (out.new ≡ out.old ++ spec.boolean_text b) }
{
    if b {
        out.push(b"true")
    } else {
        out.push(b"false")
    }
}

fn push_datum(out: &mut Printer, datum: &Datum) -> Result<(), NoMemory>
    ensures { OnOk result (out.new ≡ out.old ++ spec.literal datum.now) }
{
    match datum {
        Datum::Null => out.push(b"null"),
        Datum::Long(n) => out.push_signed(*n),
        Datum::Integer(n) => out.push_signed(*n as i64),
        Datum::Boolean(b) => push_boolean(out, *b),
        Datum::Text(text) => push_quoted(out, text.as_bytes()),
        Datum::Date(day) => push_date(out, *day),
    }
}

fn push_behind_comma(out: &mut Printer, datum: &Datum) -> Result<(), NoMemory>
    ensures { OnOk result (out.new ≡ out.old ++ spec.behind_comma datum.now) }
{
    out.push(b", ")?;
    push_datum(out, datum)?;
    Ok(())
}

fn push_others(out: &mut Printer, others: &[Datum]) -> Result<(), NoMemory>
    ensures { OnOk result (out.new ≡ out.old ++ flat_map spec.behind_comma others.now) }
{
    for datum in others {
        push_behind_comma(out, datum)?;
    }
    Ok(())
}

fn push_data(out: &mut Printer, row: &[Datum]) -> Result<(), NoMemory>
    ensures { OnOk result (out.new ≡ out.old ++ spec.data_text row.now) }
{
    match row.split_first() {
        Some((first, others)) => {
            push_datum(out, first)?;
            push_others(out, others)?;
            Ok(())
        }
        None => Ok(()),
    }
}

/// Writes a row at the end of a text. After an error the text may have a part of it.
pub fn push_row_text(out: &mut Printer, row: &[Datum]) -> Result<(), NoMemory>
    ensures { OnOk result (out.new ≡ out.old ++ spec.row_text row.now) }
{
    out.push(b"(")?;
    push_data(out, row)?;
    out.push(b")")?;
    Ok(())
}

/// Writes a row and its line end at the end of a text. After an error the text may have a part of it.
pub fn push_row(out: &mut Printer, row: &[Datum]) -> Result<(), NoMemory>
    ensures { OnOk result (out.new ≡ out.old ++ spec.row_line row.now) }
{
    push_row_text(out, row)?;
    out.push(b"\n")?;
    Ok(())
}
