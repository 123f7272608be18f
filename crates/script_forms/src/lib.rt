//! Scripts: a header, sessions of statements and a schedule, read from a text or refused at the least bad line.
#![tactic(auto)]

mod entry;
mod items;
mod limits;
mod line;
mod parse;
mod part;
mod place;
mod script;
mod table;

pub use parse::parse_script;
pub use script::{Header, Script, ScriptFault, ScriptFaultKind, SessionScript};
