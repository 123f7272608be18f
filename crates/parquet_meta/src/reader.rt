//! Reading Thrift values from a piece of a file.
ghost use Rattle.std.specs.Prelude.{◌≡◌, ◌+◌, ◌^◌, ◌<◌, length, IfOk, IfErr};
ghost use Rattle.parquet_meta.specs.Faults.{place_of, located};
ghost use Rattle.parquet_meta.specs.Pieces.{Moves, MovesBy};
ghost use Rattle.parquet_meta.specs.Values.{field_in, number_in, binary_in, head_in, skipped_in, text_in};

use crate::fault::FileFault;
use row_base::Text;
use std::alloc::Global;
use std::marker::Model;
use thrift_compact::{Cursor, Field, ListHead, ThriftFault, Wire};

/// A place in a piece of a file that holds Thrift values. Its faults name places in the file.
#[derive(Drop)]
pub(crate) struct Reader<'a> {
    cursor: Cursor<'a>,
    start: usize,
}

impl<'a> Model for Reader<'a> {
    ghost use Rattle.std.specs.Prelude.{◌+◌, ◌^◌, ◌<◌, ◌≤◌, length};
    ghost use Rattle.parquet_meta.specs.Pieces.{Reading};

    ghost Value = { Reading };

    ghost view = { λ r. record { piece = record { bytes = r.cursor.bytes; start = r.start }; at = r.cursor.at } };

    ghost invariant = { λ r. (r.cursor.at ≤ length r.cursor.bytes) × (r.start + length r.cursor.bytes < 2 ^ 64) };
}

/// The header of a field: its id, the wire type of its value, and the place in the file of its first byte.
#[derive(Clone, Copy)]
pub(crate) struct Header {
    pub(crate) id: i16,
    pub(crate) wire: Wire,
    pub(crate) place: usize,
}

/// The place in a piece that a fault names.
fn place_of(fault: ThriftFault) -> usize
    ensures { result ≡ place_of fault }
{
    match fault {
        ThriftFault::Short { at } => at,
        ThriftFault::Wire { at } => at,
        ThriftFault::Long { at } => at,
        ThriftFault::Deep { at } => at,
    }
}

/// What was read of a piece that begins at a place in the file.
fn locate<T>(start: usize, read: Result<T, ThriftFault>) -> Result<T, FileFault>
    requires { IfErr read (λ fault. start + place_of fault < 2 ^ 64) }
    ensures { result ≡ located start read }
{
    match read {
        Ok(value) => Ok(value),
        Err(fault) => Err(FileFault::Thrift {
            at: start + place_of(fault),
        }),
    }
}

impl<'a> Reader<'a> {
    /// At the first of the bytes, which has a place in the file.
    pub(crate) fn new(bytes: &'a [u8], start: usize) -> Reader<'a>
        requires { start + length bytes.now < 2 ^ 64 }
        ensures { result ≡ record { piece = record { bytes = bytes.now; start = start }; at = 0 } }
    {
        Reader {
            cursor: Cursor::new(bytes),
            start,
        }
    }

    /// The place in the file of the next byte.
    pub(crate) fn place(&self) -> usize
        ensures { result ≡ self.now.piece.start + self.now.at }
    {
        self.start + self.cursor.at()
    }

    /// The header of a field behind one of the id `last`.
    pub(crate) fn field(&mut self, last: i16) -> Result<Field, FileFault>
        ensures moves { Moves self.old self.new result (field_in self.old.piece last self.old.at) }
        ensures advances { IfOk result (λ _. self.old.at < self.new.at) }
    {
        let read = self.cursor.field(last);
        locate(self.start, read)
    }

    /// A number.
    pub(crate) fn number(&mut self) -> Result<i64, FileFault>
        ensures { Moves self.old self.new result (number_in self.old.piece self.old.at) }
    {
        let read = self.cursor.number();
        locate(self.start, read)
    }

    /// Bytes behind their length.
    fn binary(&mut self) -> Result<&'a [u8], FileFault>
        ensures { MovesBy (λ bytes. bytes.now) self.old self.new result (binary_in self.old.piece self.old.at) }
    {
        let read = self.cursor.binary();
        locate(self.start, read)
    }

    /// The header of a list.
    pub(crate) fn head(&mut self) -> Result<ListHead, FileFault>
        ensures { Moves self.old self.new result (head_in self.old.piece self.old.at) }
    {
        let read = self.cursor.list();
        locate(self.start, read)
    }

    /// Passes over a value.
    pub(crate) fn skip(&mut self, wire: Wire) -> Result<(), FileFault>
        ensures { Moves self.old self.new result (skipped_in self.old.piece wire self.old.at) }
    {
        let read = self.cursor.skip(wire);
        locate(self.start, read)
    }

    /// A text; one that isn't UTF-8 is a fault at the first byte of its field.
    #[tactic(auto, unfolding(crate::specs::Values::text_in), using(crate::proofs::Texts::not_utf8))]
    pub(crate) fn text(&mut self, alloc: Global, place: usize) -> Result<Text, FileFault>
        ensures { Moves self.old self.new result (text_in self.old.piece place self.old.at) }
    {
        let bytes = self.binary()?;
        match str::from_utf8(bytes) {
            Ok(text) => Ok(Text::make(alloc, text)?),
            Err(_) => Err(FileFault::Thrift { at: place }),
        }
    }
}
