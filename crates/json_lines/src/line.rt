//! The lines of a text.
ghost use Rattle.std.specs.Prelude.{◌≡◌, ◌==◌, ◌+◌, ◌<◌, ◌∷◌, [], length, take, drop, position, IfSome, IfNone};
ghost use Rattle.serde_json.specs.View.{view};
ghost use Rattle.json_lines.specs.Lines.{lines, is_blank as blank, value_of_line, object_of_line};
ghost use Rattle.json_lines.specs.Gives.{is_memory};
ghost use Rattle.row_base.specs.Readings.{Gives};

use crate::fault::ShapeFault;
use serde_json::Value;
use std::alloc::Global;

fn line_end(text: &[u8]) -> Option<usize>
    ensures { result ≡ position (λ b. b == 10) text.now }
{
    text.iter().position(|b| *b == b'\n')
}

fn around(text: &[u8], at: usize) -> (&[u8], &[u8])
    requires { at < length text.now }
    ensures front { result.0.now ≡ take at text.now }
    ensures back { result.1.now ≡ drop (at + 1) text.now }
{
    let (front, tail) = text.split_at(at);
    (front, &tail[1..])
}

/// The first line of a text and what follows its end, where a line end stands in the text.
pub fn first_line(text: &[u8]) -> Option<(&[u8], &[u8])>
    ensures some { IfSome result (λ parts. lines text.now ≡ parts.0.now ∷ lines parts.1.now) }
    ensures shorter { IfSome result (λ parts. length parts.1.now < length text.now) }
    ensures none { IfNone result (lines text.now ≡ text.now ∷ []) }
{
    match line_end(text) {
        Some(at) => Some(around(text, at)),
        None => None,
    }
}

/// Whether a line has nothing but spaces, tabs and carriage returns.
pub fn is_blank(line: &[u8]) -> bool
    ensures { result ≡ blank line.now }
{
    line.iter()
        .all(|b| *b == b' ' || *b == b'\t' || *b == b'\r')
}

fn value_of(alloc: Global, line: &[u8]) -> Result<Value, ShapeFault>
    ensures { Gives is_memory view result (value_of_line line.now) }
{
    match Value::from_slice(alloc, line) {
        Ok(value) => Ok(value),
        Err(e) => {
            if e.is_memory() {
                Err(ShapeFault::NoMemory)
            } else {
                Err(ShapeFault::Shape)
            }
        }
    }
}

/// The object that a line is, whose members nest to 127 levels at most. The fault of its shape says that it is no JSON text of an object.
#[tactic(auto, unfolding(crate::specs::Lines::object_of_line))]
pub fn read_object(alloc: Global, line: &[u8]) -> Result<Value, ShapeFault>
    ensures { Gives is_memory view result (object_of_line line.now) }
{
    let value = value_of(alloc, line)?;
    if value.is_object() {
        Ok(value)
    } else {
        Err(ShapeFault::Shape)
    }
}
