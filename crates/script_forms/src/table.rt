//! The form of a table that is to be made.
ghost use Rattle.std.specs.Prelude.{option_map, map};
ghost use Rattle.script_tokens.specs.Gives.{Gives};
ghost use Rattle.script_grammar.specs.Shape.{a_name, parens, listed, read};
ghost use Rattle.script_forms.specs.Tables.{kind, kind_value, nullable, nullable_value, column, column_value, property, property_value, partition, properties, table, table_value};

use crate::part::{Part, take_parts};
use op_types::Property;
use row_base::{Column, Items, Kind, Text};
use script_grammar::{
    find_word, take_close, take_equal, take_name, take_open, take_text, take_word,
};
use script_tokens::{ParseError, Token};
use std::alloc::Global;

/// A table as its line gives it: what is left out isn't there.
#[derive(Drop)]
pub struct TableForm {
    pub columns: Items<Column>,
    pub partition: Option<Items<Text>>,
    pub properties: Option<Items<Property>>,
}

/// `long`, `integer`, `boolean`, `string` or `date`
fn take_kind<'a, 'b>(tokens: &'a [Token<'b>]) -> Result<(Kind, &'a [Token<'b>]), ParseError>
    ensures { Gives (λ x. (kind_value x.0, x.1.now)) result (read kind tokens.now) }
{
    if let Some(rest) = find_word(tokens, b"long") {
        return Ok((Kind::Long, rest));
    }
    if let Some(rest) = find_word(tokens, b"integer") {
        return Ok((Kind::Integer, rest));
    }
    if let Some(rest) = find_word(tokens, b"boolean") {
        return Ok((Kind::Boolean, rest));
    }
    if let Some(rest) = find_word(tokens, b"string") {
        return Ok((Kind::String, rest));
    }
    let rest = take_word(tokens, b"date")?;
    Ok((Kind::Date, rest))
}

/// Whether a datum may be null: `not null`, or nothing.
fn take_nullable<'a, 'b>(tokens: &'a [Token<'b>]) -> Result<(bool, &'a [Token<'b>]), ParseError>
    ensures { Gives (λ x. (nullable_value x.0, x.1.now)) result (read nullable tokens.now) }
{
    if let Some(rest) = find_word(tokens, b"not") {
        let rest = take_word(rest, b"null")?;
        return Ok((false, rest));
    }
    Ok((true, tokens))
}

/// `NAME KIND [not null]`
impl Part for Column {
    ghost shape = { column };

    ghost value = { column_value };

    fn take<'a, 'b>(
        alloc: Global,
        tokens: &'a [Token<'b>],
    ) -> Result<(Column, &'a [Token<'b>]), ParseError> {
        let (name, rest) = take_name(alloc, tokens)?;
        let (kind, rest) = take_kind(rest)?;
        let (nullable, rest) = take_nullable(rest)?;
        let column = Column {
            name,
            kind,
            nullable,
        };
        Ok((column, rest))
    }
}

/// `NAME`
impl Part for Text {
    ghost shape = { a_name };

    ghost value = { λ t. t };

    fn take<'a, 'b>(
        alloc: Global,
        tokens: &'a [Token<'b>],
    ) -> Result<(Text, &'a [Token<'b>]), ParseError> {
        take_name(alloc, tokens)
    }
}

/// `'KEY' = 'VALUE'`
impl Part for Property {
    ghost shape = { property };

    ghost value = { property_value };

    fn take<'a, 'b>(
        alloc: Global,
        tokens: &'a [Token<'b>],
    ) -> Result<(Property, &'a [Token<'b>]), ParseError> {
        let (key, rest) = take_text(alloc, tokens)?;
        let rest = take_equal(rest)?;
        let (value, rest) = take_text(alloc, rest)?;
        Ok((Property { key, value }, rest))
    }
}

/// `(PART, ..)`
fn take_listed<'a, 'b, P: Part>(
    alloc: Global,
    tokens: &'a [Token<'b>],
) -> Result<(Items<P>, &'a [Token<'b>]), ParseError>
    ensures { Gives (λ x. (map P.value x.0, x.1.now)) result (read (parens (listed P.shape)) tokens.now) }
{
    let rest = take_open(tokens)?;
    let (all, rest) = take_parts(alloc, rest)?;
    let rest = take_close(rest)?;
    Ok((all, rest))
}

/// `partitioned by (NAME, ..)`, or nothing
fn take_partition<'a, 'b>(
    alloc: Global,
    tokens: &'a [Token<'b>],
) -> Result<(Option<Items<Text>>, &'a [Token<'b>]), ParseError>
    ensures { Gives (λ x. (x.0, x.1.now)) result (read partition tokens.now) }
{
    if let Some(rest) = find_word(tokens, b"partitioned") {
        let rest = take_word(rest, b"by")?;
        let (names, rest) = take_listed(alloc, rest)?;
        return Ok((Some(names), rest));
    }
    Ok((None, tokens))
}

/// `with ('KEY' = 'VALUE', ..)`, or nothing
fn take_properties<'a, 'b>(
    alloc: Global,
    tokens: &'a [Token<'b>],
) -> Result<(Option<Items<Property>>, &'a [Token<'b>]), ParseError>
    ensures { Gives (λ x. (option_map (map property_value) x.0, x.1.now)) result (read properties tokens.now) }
{
    if let Some(rest) = find_word(tokens, b"with") {
        let (all, rest) = take_listed(alloc, rest)?;
        return Ok((Some(all), rest));
    }
    Ok((None, tokens))
}

/// `(COLUMN, ..) [partitioned by (NAME, ..)] [with ('KEY' = 'VALUE', ..)]`
pub fn take_table<'a, 'b>(
    alloc: Global,
    tokens: &'a [Token<'b>],
) -> Result<(TableForm, &'a [Token<'b>]), ParseError>
    ensures { Gives (λ x. (table_value x.0, x.1.now)) result (read table tokens.now) }
{
    let (columns, rest) = take_listed(alloc, tokens)?;
    let (partition, rest) = take_partition(alloc, rest)?;
    let (properties, rest) = take_properties(alloc, rest)?;
    let form = TableForm {
        columns,
        partition,
        properties,
    };
    Ok((form, rest))
}
