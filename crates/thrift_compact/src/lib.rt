//! The Thrift compact protocol: a cursor that reads and skips values, and an appender that writes them.
#![tactic(auto)]

mod appender;
mod cursor;
mod fault;
mod laws;
mod parts;
mod plain;
mod skip;
mod wire;

pub use appender::Appender;
pub use cursor::Cursor;
pub use fault::ThriftFault;
pub use laws::{reading_is_exact, written_is_read};
pub use plain::plain_number;
pub use wire::{Field, ListHead, Wire};
