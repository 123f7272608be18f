//! What a line says.
ghost use Rattle.std.specs.Prelude.{◌≡◌, []};
ghost use Rattle.script_tokens.specs.Gives.{Gives};
ghost use Rattle.script_grammar.specs.Shape.{read, listed, a_datum, whole};
ghost use Rattle.script_forms.specs.Lines.{row, line_shape, line_value, reading};

use crate::table::{TableForm, take_table};
use row_base::{Datum, Rows, Text};
use script_grammar::{
    find_comma, find_word, take_close, take_datum, take_name, take_number, take_open, take_word,
};
use script_tokens::{ParseError, Token, tokens_of};
use std::alloc::Global;

/// What a line says, wherever it stands.
#[derive(Drop)]
pub enum Line {
    Attempts(i64),
    Open,
    Table(TableForm),
    Session(Text),
    Insert(Rows),
    Select,
    Wait(i64),
    Schedule,
}

/// Literals with commas between them. They go into the list, which has none.
fn literals<'a, 'b>(
    alloc: Global,
    values: Vec<Datum>,
    tokens: &'a [Token<'b>],
) -> Result<(Vec<Datum>, &'a [Token<'b>]), ParseError>
    requires { values.items ≡ [] }
    ensures { Gives (λ x. (x.0.items, x.1.now)) result (read (listed a_datum) tokens.now) }
{
    let (first, mut rest) = take_datum(alloc, tokens)?;
    let mut all = values;
    all.push(first)?;
    while let Some(tail) = find_comma(rest) {
        let (next, after) = take_datum(alloc, tail)?;
        all.push(next)?;
        rest = after;
    }
    Ok((all, rest))
}

/// `(LITERAL, ..)`. The literals go into the list, which has none.
fn row_at_front<'a, 'b>(
    alloc: Global,
    values: Vec<Datum>,
    tokens: &'a [Token<'b>],
) -> Result<(Vec<Datum>, &'a [Token<'b>]), ParseError>
    requires { values.items ≡ [] }
    ensures { Gives (λ x. (x.0.items, x.1.now)) result (read row tokens.now) }
{
    let rest = take_open(tokens)?;
    let (values, rest) = literals(alloc, values, rest)?;
    let rest = take_close(rest)?;
    Ok((values, rest))
}

/// Rows with commas between them. One list takes the data of each in turn.
fn rows<'a, 'b>(
    alloc: Global,
    tokens: &'a [Token<'b>],
) -> Result<(Rows, &'a [Token<'b>]), ParseError>
    ensures { Gives (λ x. (x.0, x.1.now)) result (read (listed row) tokens.now) }
{
    let (mut data, mut rest) = row_at_front(alloc, Vec::new(alloc), tokens)?;
    let mut all = Rows::new(alloc);
    all.push_from(&mut data)?;
    while let Some(tail) = find_comma(rest) {
        let (next, after) = row_at_front(alloc, data, tail)?;
        data = next;
        all.push_from(&mut data)?;
        rest = after;
    }
    Ok((all, rest))
}

/// What stands at the front of the tokens, by its first word.
fn read_line<'a, 'b>(
    alloc: Global,
    tokens: &'a [Token<'b>],
) -> Result<(Line, &'a [Token<'b>]), ParseError>
    ensures { Gives (λ x. (line_value x.0, x.1.now)) result (read line_shape tokens.now) }
{
    if let Some(rest) = find_word(tokens, b"attempts") {
        let (number, rest) = take_number(rest)?;
        return Ok((Line::Attempts(number), rest));
    }
    if let Some(rest) = find_word(tokens, b"open") {
        return Ok((Line::Open, rest));
    }
    if let Some(rest) = find_word(tokens, b"table") {
        let (form, rest) = take_table(alloc, rest)?;
        return Ok((Line::Table(form), rest));
    }
    if let Some(rest) = find_word(tokens, b"session") {
        let (name, rest) = take_name(alloc, rest)?;
        return Ok((Line::Session(name), rest));
    }
    if let Some(rest) = find_word(tokens, b"insert") {
        let (rows, rest) = rows(alloc, rest)?;
        return Ok((Line::Insert(rows), rest));
    }
    if let Some(rest) = find_word(tokens, b"select") {
        return Ok((Line::Select, rest));
    }
    if let Some(rest) = find_word(tokens, b"wait") {
        let (time, rest) = take_number(rest)?;
        return Ok((Line::Wait(time), rest));
    }
    let rest = take_word(tokens, b"schedule")?;
    Ok((Line::Schedule, rest))
}

#[tactic(auto, unfolding(script_grammar::specs::Shape::whole))]
fn whole_line(alloc: Global, tokens: &[Token<'_>]) -> Result<Line, ParseError>
    ensures { Gives line_value result (whole line_shape tokens.now) }
{
    let (line, rest) = read_line(alloc, tokens)?;
    if rest.is_empty() {
        Ok(line)
    } else {
        Err(ParseError::Form)
    }
}

/// What the line says. The error `Form` comes where it says nothing.
#[tactic(auto, unfolding(crate::specs::Lines::reading), using(crate::proofs::Lines::line_again))]
pub fn read_one(alloc: Global, line: &[u8]) -> Result<Line, ParseError>
    ensures { Gives (λ x. x) result (reading line.now) }
{
    let tokens = tokens_of(alloc, line)?;
    whole_line(alloc, &tokens)
}
