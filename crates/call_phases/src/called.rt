//! Calls that are made.
ghost use Rattle.std.specs.Prelude.{◌≡◌, ◌<◌, Some, IfOk};
ghost use Rattle.call_phases.specs.Called.{called_now, called_wait};

use crate::Reader;
use edge_api::{CallKind, Called, Name};
use row_base::NoMemory;
use std::alloc::Global;

/// A reading of the clock.
#[derive(Drop)]
pub struct Reading {
    pub called: Called,
    pub ghost is: { called ≡ called_now },
}

/// A wait of so many milliseconds.
#[derive(Drop)]
pub struct Waiting {
    pub time: u64,
    pub called: Called,
    pub ghost is: { called ≡ called_wait },
}

/// An object that is got for a reader.
#[derive(Drop)]
pub struct Wanted<R: Reader> {
    pub reader: R,
    pub name: Name,
    pub ghost is: { R.wants reader ≡ Some name },
    pub ghost some: { 0 < R.left reader },
}

impl Reading {
    /// A reading of the clock. The error is want of memory.
    pub fn make(alloc: Global) -> Result<Reading, NoMemory> {
        let name = Name::make(alloc, "")?;
        let kind = CallKind::Now;
        let called = Called { kind, name };
        Ok(Reading { called })
    }
}

impl Waiting {
    /// A wait of so many milliseconds. The error is want of memory.
    pub fn make(alloc: Global, time: u64) -> Result<Waiting, NoMemory>
        ensures { IfOk result (λ w. w.time ≡ time) }
    {
        let name = Name::make(alloc, "")?;
        let kind = CallKind::Wait;
        let called = Called { kind, name };
        Ok(Waiting { time, called })
    }
}
