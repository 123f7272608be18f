//! Readers of texts.
ghost use Rattle.std.specs.Prelude.{◌≡◌, IfOk, option_copied};
ghost use Rattle.line_texts.specs.Pieces.{pieces, each};
ghost use Rattle.line_texts.specs.Texts as spec;
ghost use Rattle.line_texts.specs.Answers.{Gives};

use crate::TextFault;
use crate::numbers::long_of;
use crate::pieces::cut;
use edge_api::Name;
use row_base::{Datum, Items, NoMemory, Row, Rows, Text};
use std::alloc::Global;

fn datum_of(text: &[u8]) -> Option<Datum>
    ensures { result ≡ spec.datum_of_text text.now }
{
    match long_of(text) {
        Some(n) => Some(Datum::Long(n)),
        None => None,
    }
}

fn row_of(alloc: Global, line: &[u8]) -> Result<Option<Row>, NoMemory>
    ensures { IfOk result (λ row. row ≡ spec.row_of_line line.now) }
{
    let mut data = Vec::new(alloc);
    let mut rest = line;
    'numbers: while let Some((front, back)) = cut(b',', rest) {
        match datum_of(front) {
            Some(datum) => data.push(datum)?,
            None => return Ok(None),
        }
        rest = back;
    }
    match datum_of(rest) {
        Some(datum) => {
            data.push(datum)?;
            Ok(Some(Row::make(data)))
        }
        None => Ok(None),
    }
}

/// The rows of a data file, or the first line that is no row or has no end.
pub fn read_rows(alloc: Global, text: &[u8]) -> Result<Rows, TextFault>
    ensures { Gives (λ r. r) (spec.rows_of_text text.now) (spec.bad_line_of_rows text.now) result }
{
    let mut rows = Rows::new(alloc);
    let mut rest = text;
    let mut line = 1u32;
    'lines: while let Some((front, back)) = cut(b'\n', rest) {
        match row_of(alloc, front)? {
            Some(row) => rows.push_from(&mut row.into_vec())?,
            None => return Err(TextFault::Line(line)),
        }
        rest = back;
        line = line.saturating_add(1);
    }
    if rest.is_empty() {
        Ok(rows)
    } else {
        Err(TextFault::Line(line))
    }
}

fn utf8_of(piece: &[u8]) -> Option<&str>
    ensures { option_copied result ≡ spec.text_of_utf8 piece.now }
{
    match str::from_utf8(piece) {
        Ok(text) => Some(text),
        Err(_) => None,
    }
}

fn text_of(alloc: Global, piece: &[u8]) -> Result<Option<Text>, NoMemory>
    ensures { IfOk result (λ text. text ≡ spec.text_of_utf8 piece.now) }
{
    match utf8_of(piece) {
        Some(text) => Ok(Some(Text::make(alloc, text)?)),
        None => Ok(None),
    }
}

fn texts_of(alloc: Global, line: &[u8]) -> Result<Option<Items<Text>>, NoMemory>
    ensures { IfOk result (λ names. names ≡ each spec.text_of_utf8 (pieces 32 line.now)) }
{
    let mut names = Vec::new(alloc);
    let mut rest = line;
    'words: while let Some((front, back)) = cut(b' ', rest) {
        match text_of(alloc, front)? {
            Some(name) => names.push(name)?,
            None => return Ok(None),
        }
        rest = back;
    }
    match text_of(alloc, rest)? {
        Some(name) => {
            names.push(name)?;
            Ok(Some(Items::from_vec(names)))
        }
        None => Ok(None),
    }
}

fn names_of(alloc: Global, line: &[u8]) -> Result<Option<Items<Text>>, NoMemory>
    ensures { IfOk result (λ names. names ≡ spec.names_of_line line.now) }
{
    match cut(b' ', line) {
        Some((front, back)) => {
            if front == b"columns".as_slice() {
                texts_of(alloc, back)
            } else {
                Ok(None)
            }
        }
        None => {
            if line == b"columns".as_slice() {
                Ok(Some(Items::from_vec(Vec::new(alloc))))
            } else {
                Ok(None)
            }
        }
    }
}

/// The names of the columns that a commit's text has, or the line that is bad.
pub fn read_columns(alloc: Global, text: &[u8]) -> Result<Items<Text>, TextFault>
    ensures { Gives (λ n. n) (spec.columns_of_text text.now) (spec.bad_line_of_columns text.now) result }
{
    match cut(b'\n', text) {
        Some((line, back)) => match names_of(alloc, line)? {
            Some(names) => {
                if back.is_empty() {
                    Ok(names)
                } else {
                    Err(TextFault::Line(2))
                }
            }
            None => Err(TextFault::Line(1)),
        },
        None => Err(TextFault::Line(1)),
    }
}

fn path_of(alloc: Global, line: &[u8]) -> Result<Option<Name>, NoMemory>
    ensures { IfOk result (λ path. path ≡ spec.path_of_line line.now) }
{
    if !line.starts_with(b"add ") {
        return Ok(None);
    }
    match utf8_of(&line[4..]) {
        Some(path) => Ok(Some(Name::make(alloc, path)?)),
        None => Ok(None),
    }
}

/// The path that a commit's text adds, or the line that is bad.
pub fn read_add(alloc: Global, text: &[u8]) -> Result<Name, TextFault>
    ensures { Gives (λ n. n) (spec.path_of_text text.now) (spec.bad_line_of_path text.now) result }
{
    match cut(b'\n', text) {
        Some((line, back)) => match path_of(alloc, line)? {
            Some(path) => {
                if back.is_empty() {
                    Ok(path)
                } else {
                    Err(TextFault::Line(2))
                }
            }
            None => Err(TextFault::Line(1)),
        },
        None => Err(TextFault::Line(1)),
    }
}
