//! Texts whose lines are JSON objects: their lines, what the members of an object stand for, and how values are
//! written as lines.
#![tactic(auto)]

mod copy;
mod fault;
mod line;
mod map;
mod member;
mod object;
mod value;
mod write;

pub use copy::TryCopy;
pub use fault::ShapeFault;
pub use line::{first_line, is_blank, read_object};
pub use map::{Entry, NullableMap, TextMap};
pub use member::{
    Member, needed, needed_integer, optional, optional_integer, present, put_member, put_optional,
};
pub use object::single_member;
pub use write::{compact_text_is_a_line, push_line, single_value};
