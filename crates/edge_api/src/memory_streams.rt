//! A source and a sink in memory, with calls that fail by their numbers.
ghost use Rattle.std.specs.Prelude.{◌≡◌, ◌≤◌, ◌<◌, ◌+◌, ◌-◌, ◌^◌, ◌↔◌, [], Some, length, take, min, true, false, IsTrue, IsErr, IfOk, OnOk, OnErr};
ghost use Rattle.std.specs.Io.{ReadsAtMost, WritesAtMost};
ghost use Rattle.std.specs.Io.KnownBytes.{ReadConsumes, WriteAppends};
ghost use Rattle.edge_api.specs.World.{Rose};
ghost use Rattle.edge_api.specs.Streams.{is_failing, after_read, after_failed_read, after_write, after_failed_write, one_more};

use crate::{Failed, Sink, Source};
use std::alloc::Global;
use std::marker::Model;

/// Whether the call after so many calls is among the failing ones.
fn is_next_failing(failing: &[u32], calls: u64) -> bool
    ensures { result ≡ is_failing failing.now calls }
{
    let number = calls.saturating_add(1);
    failing.iter().any(|n| u64::from(*n) == number)
}

/// Copies as many bytes as there are and as there is room for, and answers how many.
fn copy_front(from: &[u8], into: &mut [u8]) -> usize
    ensures count { result ≡ min (length into.old) (length from.now) }
    ensures bytes { take result into.new ≡ take result from.now }
{
    let count = into.len().min(from.len());
    into[..count].copy_from_slice(&from[..count]);
    count
}

/// A source that gives bytes of memory. Exactly the calls whose numbers, from 1 on, are among the failing ones fail.
#[derive(Drop)]
pub struct MemSource {
    bytes: Vec<u8>,
    at: usize,
    failing: Vec<u32>,
    calls: u64,
    faults: u64,
}

impl Model for MemSource {
    ghost use Rattle.std.specs.Prelude.{drop, length, ◌≤◌};
    ghost use Rattle.edge_api.specs.Streams.{SourceState};

    ghost Value = { SourceState };

    ghost view = { λ s. record { left = drop s.at s.bytes.items; failing = s.failing.items; calls = s.calls; faults = s.faults } };

    ghost invariant = { λ s. s.at ≤ length s.bytes.items };
}

impl MemSource {
    /// A source that gives these bytes.
    pub fn new(bytes: Vec<u8>, failing: Vec<u32>) -> MemSource
        ensures { result ≡ record { left = bytes.items; failing = failing.items; calls = 0; faults = 0 } }
    {
        MemSource {
            bytes,
            at: 0,
            failing,
            calls: 0,
            faults: 0,
        }
    }
}

impl Source for MemSource {
    ghost left = { λ s. Some s.left };

    ghost faults = { λ s. s.faults };

    fn read_some(&mut self, into: &mut [u8]) -> Result<usize, Failed>
        ensures bound { ReadsAtMost result into.new }
        ensures bytes { ReadConsumes (Some self.old.left) (Some self.new.left) result into.new }
        ensures later { self.old.faults ≤ self.new.faults }
        ensures cause { OnErr result (Rose self.old.faults self.new.faults) }
        ensures fails { IsErr result ↔ IsTrue (is_failing self.old.failing self.old.calls) }
        ensures count { IfOk result (λ n. n ≡ min (length into.old) (length self.old.left)) }
        ensures ok { OnOk result (self.new ≡ after_read self.old (length into.old)) }
        ensures err { OnErr result (self.new ≡ after_failed_read self.old) }
    {
        let is_failing = is_next_failing(&self.failing, self.calls);
        self.calls = self.calls.saturating_add(1);
        if is_failing {
            self.faults = self.faults.saturating_add(1);
            return Err(Failed);
        }
        let count = copy_front(&self.bytes[self.at..], into);
        self.at += count;
        Ok(count)
    }
}

/// A sink that keeps the bytes in memory. Exactly the calls whose numbers, from 1 on, are among the failing ones fail,
/// besides a call that finds no memory.
#[derive(Drop)]
pub struct MemSink {
    bytes: Vec<u8>,
    failing: Vec<u32>,
    calls: u64,
    faults: u64,
}

impl Model for MemSink {
    ghost use Rattle.edge_api.specs.Streams.{SinkState};

    ghost Value = { SinkState };

    ghost view = { λ s. record { written = s.bytes.items; failing = s.failing.items; calls = s.calls; faults = s.faults } };
}

impl MemSink {
    /// A sink with nothing written.
    pub fn new(alloc: Global, failing: Vec<u32>) -> MemSink
        ensures { result ≡ record { written = []; failing = failing.items; calls = 0; faults = 0 } }
    {
        MemSink {
            bytes: Vec::new(alloc),
            failing,
            calls: 0,
            faults: 0,
        }
    }

    /// The bytes that were written.
    pub fn bytes(&self) -> &[u8]
        ensures { result.now ≡ self.now.written }
    {
        &self.bytes
    }
}

impl Sink for MemSink {
    ghost written = { λ s. Some s.written };

    ghost faults = { λ s. s.faults };

    fn write_some(&mut self, piece: &[u8]) -> Result<usize, Failed>
        ensures bound { WritesAtMost result piece.now }
        ensures some { IfOk result (λ n. 0 < length piece.now → 0 < n) }
        ensures bytes { WriteAppends (Some self.old.written) (Some self.new.written) result piece.now }
        ensures later { self.old.faults ≤ self.new.faults }
        ensures cause { OnErr result (Rose self.old.faults self.new.faults) }
        ensures fails { IsTrue (is_failing self.old.failing self.old.calls) → IsErr result }
        ensures count { IfOk result (λ n. n ≡ length piece.now) }
        ensures ok { OnOk result (self.new ≡ after_write self.old piece.now) }
        ensures err { OnErr result (self.new ≡ after_failed_write self.old) }
    {
        let is_failing = is_next_failing(&self.failing, self.calls);
        self.calls = self.calls.saturating_add(1);
        if is_failing || self.bytes.extend_from_slice(piece).is_err() {
            self.faults = self.faults.saturating_add(1);
            return Err(Failed);
        }
        Ok(piece.len())
    }
}
