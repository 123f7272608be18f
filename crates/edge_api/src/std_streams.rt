//! Adapters over a reader and a writer of std, which count the errors.
ghost use Rattle.std.specs.Prelude.{◌≡◌, ◌≤◌, ◌<◌, length, is_err, if◌then◌else◌, IfOk, OnErr};
ghost use Rattle.std.specs.Io.{ReadsAtMost, WritesAtMost};
ghost use Rattle.std.specs.Io.KnownBytes.{ReadConsumes, WriteAppends};
ghost use Rattle.edge_api.specs.Adapters.{source_reader, source_errors, sink_writer, sink_errors};
ghost use Rattle.edge_api.specs.Streams.{one_more};
ghost use Rattle.edge_api.specs.World.{Rose};

use crate::{Failed, Sink, Source};
use std::io::{Read, Write};

/// A source over a reader. Each error of the reader is counted, an interrupted read too.
#[derive(Drop)]
pub struct StdSource<T> {
    reader: T,
    faults: u64,
}

impl<T> StdSource<T> {
    /// A source over this reader, with the count 0.
    pub fn new(reader: T) -> StdSource<T>
        ensures reader { source_reader result ≡ reader }
        ensures errors { source_errors result ≡ 0 }
    {
        StdSource { reader, faults: 0 }
    }
}

impl<T: Read> Source for StdSource<T> {
    ghost left = { λ s. T.remaining s.reader };

    ghost faults = { λ s. s.faults };

    fn read_some(&mut self, into: &mut [u8]) -> Result<usize, Failed>
        ensures bound { ReadsAtMost result into.new }
        ensures bytes { ReadConsumes (T.remaining (source_reader self.old)) (T.remaining (source_reader self.new)) result into.new }
        ensures later { source_errors self.old ≤ source_errors self.new }
        ensures cause { OnErr result (Rose (source_errors self.old) (source_errors self.new)) }
        ensures counted { source_errors self.new ≡ (if is_err result then one_more (source_errors self.old) else source_errors self.old) }
    {
        match self.reader.read(into) {
            Ok(count) => Ok(count),
            Err(_) => {
                self.faults = self.faults.saturating_add(1);
                Err(Failed)
            }
        }
    }
}

/// A sink over a writer. Each error of the writer is counted, and so is a write that takes nothing
/// of a piece that isn't empty.
#[derive(Drop)]
pub struct StdSink<T> {
    writer: T,
    faults: u64,
}

impl<T> StdSink<T> {
    /// A sink over this writer, with the count 0.
    pub fn new(writer: T) -> StdSink<T>
        ensures writer { sink_writer result ≡ writer }
        ensures errors { sink_errors result ≡ 0 }
    {
        StdSink { writer, faults: 0 }
    }
}

impl<T: Write> Sink for StdSink<T> {
    ghost written = { λ s. T.contents s.writer };

    ghost faults = { λ s. s.faults };

    fn write_some(&mut self, piece: &[u8]) -> Result<usize, Failed>
        ensures bound { WritesAtMost result piece.now }
        ensures some { IfOk result (λ n. 0 < length piece.now → 0 < n) }
        ensures bytes { WriteAppends (T.contents (sink_writer self.old)) (T.contents (sink_writer self.new)) result piece.now }
        ensures later { sink_errors self.old ≤ sink_errors self.new }
        ensures cause { OnErr result (Rose (sink_errors self.old) (sink_errors self.new)) }
        ensures counted { sink_errors self.new ≡ (if is_err result then one_more (sink_errors self.old) else sink_errors self.old) }
    {
        match self.writer.write(piece) {
            Ok(count) if count > 0 || piece.is_empty() => Ok(count),
            _ => {
                self.faults = self.faults.saturating_add(1);
                Err(Failed)
            }
        }
    }
}
