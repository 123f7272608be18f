//! The grammar of a script's lines as data: shapes, what they stand for, which tokens spell it, and readers of the
//! smallest ones.
#![tactic(auto)]

mod datum;
mod front;
mod name;

pub use datum::{take_datum, take_equal, take_text};
pub use front::{
    find_comma, find_word, shapes_are_spelled, take_close, take_literal, take_name, take_number,
    take_open, take_word,
};
pub use name::{is_name, text_of_name};
