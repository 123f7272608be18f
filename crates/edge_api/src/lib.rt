//! The outside of the engine: an object store with put-if-absent, seen by the journal of its calls,
//! streams of bytes, and the actors that make the calls.
#![tactic(auto)]

mod actor;
mod bytes;
mod call;
mod flaky;
mod memory;
mod memory_streams;
mod replay;
mod std_streams;
mod stream;
mod world;

pub use actor::{Actor, Fed, Stage, Step};
pub use bytes::{Body, Name};
pub use call::{Answer, Back, Call, CallKind, Called, JournalEntry, Listed, Listing, Object, Tag};
pub use flaky::{FlakyWorld, How, Trouble};
pub use memory::MemWorld;
pub use memory_streams::{MemSink, MemSource};
pub use replay::replay_journal;
pub use std_streams::{StdSink, StdSource};
pub use stream::{Failed, ReadError, Sink, Source, read_all, write_all};
pub use world::{Gate, World};
