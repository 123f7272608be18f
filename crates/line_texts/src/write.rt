//! Writers of texts.
ghost use Rattle.std.specs.Prelude.{◌≡◌, ◌∷◌, ◌++◌, IfOk, OnOk};
ghost use Rattle.std.specs.List.{list_all, flat_map};
ghost use Rattle.line_texts.specs.Texts as spec;

use edge_api::Name;
use row_base::{Datum, NoMemory, Rows, Text};
use std::alloc::Global;

fn push_names(text: &mut Vec<u8>, names: &[Text]) -> Result<(), NoMemory>
    ensures { OnOk result (text.new.items ≡ text.old.items ++ flat_map (λ name. 32 ∷ name) names.now) }
{
    for name in names {
        text.push(b' ')?;
        text.extend_from_slice(name.as_str().as_bytes())?;
    }
    Ok(())
}

/// The text of a commit that makes a table with columns of these names.
pub fn write_columns(alloc: Global, names: &[Text]) -> Result<Vec<u8>, NoMemory>
    ensures { IfOk result (λ text. text.items ≡ spec.text_of_columns names.now) }
{
    let mut text = Vec::from_slice(alloc, b"columns")?;
    push_names(&mut text, names)?;
    text.push(b'\n')?;
    Ok(text)
}

/// The text of a commit that appends a file.
pub fn write_add(alloc: Global, path: &Name) -> Result<Vec<u8>, NoMemory>
    ensures { IfOk result (λ text. text.items ≡ spec.text_of_add path.now) }
{
    let mut text = Vec::from_slice(alloc, b"add ")?;
    text.extend_from_slice(path.as_bytes())?;
    text.push(b'\n')?;
    Ok(text)
}

fn push_datum(alloc: Global, text: &mut Vec<u8>, datum: &Datum) -> Result<(), NoMemory>
    ensures { OnOk result (text.new.items ≡ text.old.items ++ spec.text_of_datum datum.now) }
{
    match datum {
        Datum::Long(n) => {
            let digits = n.to_string(alloc)?;
            text.extend_from_slice(digits.as_bytes())?;
            Ok(())
        }
        Datum::Null | Datum::Integer(_) | Datum::Boolean(_) | Datum::Text(_) | Datum::Date(_) => Ok(
            (),
        ),
    }
}

fn push_others(alloc: Global, text: &mut Vec<u8>, others: &[Datum]) -> Result<(), NoMemory>
    ensures { OnOk result (text.new.items ≡ text.old.items ++ flat_map (λ datum. 44 ∷ spec.text_of_datum datum) others.now) }
{
    for datum in others {
        text.push(b',')?;
        push_datum(alloc, text, datum)?;
    }
    Ok(())
}

fn push_row(alloc: Global, text: &mut Vec<u8>, row: &[Datum]) -> Result<(), NoMemory>
    ensures { OnOk result (text.new.items ≡ text.old.items ++ spec.text_of_row row.now) }
{
    match row.split_first() {
        Some((first, others)) => {
            push_datum(alloc, text, first)?;
            push_others(alloc, text, others)?;
            Ok(())
        }
        None => Ok(()),
    }
}

/// The text of a data file with these rows. Only numbers of 64 bits have a text.
pub fn write_rows(alloc: Global, rows: &Rows) -> Result<Vec<u8>, NoMemory>
    ensures { IfOk result (λ text. text.items ≡ spec.text_of_rows rows.now) }
{
    let mut text = Vec::new(alloc);
    for row in rows.iter() {
        push_row(alloc, &mut text, row)?;
        text.push(b'\n')?;
    }
    Ok(text)
}

fn is_long(datum: &Datum) -> bool
    ensures { result ≡ spec.is_long datum.now }
{
    match datum {
        Datum::Long(n) => {
            let _number = *n;
            true
        }
        Datum::Null | Datum::Integer(_) | Datum::Boolean(_) | Datum::Text(_) | Datum::Date(_) =>
            false,
    }
}

fn are_longs(row: &[Datum]) -> bool
    ensures { result ≡ list_all spec.is_long row.now }
{
    row.iter().all(|datum| is_long(datum))
}

fn is_long_row(row: &[Datum]) -> bool
    ensures { result ≡ spec.is_long_row row.now }
{
    row.len() > 0 && are_longs(row)
}

/// Whether each row has one number of 64 bits or more, and nothing else.
pub fn are_long_rows(rows: &Rows) -> bool
    ensures { result ≡ list_all spec.is_long_row rows.now }
{
    rows.iter().all(|row| is_long_row(row))
}
