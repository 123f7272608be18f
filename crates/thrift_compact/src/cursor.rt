//! A cursor over the bytes of Thrift values.

ghost use Rattle.std.specs.Prelude.{◌≡◌, List, ℕ};
ghost use Rattle.thrift_compact.specs.Places.{Moves};
ghost use Rattle.thrift_compact.specs.Skipped.{skipped_at};
ghost use Rattle.thrift_compact.specs.Values.{number_at, field_at, list_at, binary_at};

use crate::fault::ThriftFault;
use crate::parts::{read_binary, read_field, read_list, read_number};
use crate::skip::find_end;
use crate::wire::{Field, ListHead, Wire};
use std::marker::Model;

/// A place in bytes that hold Thrift values. Each call reads what stands there and moves behind it; after a fault the
/// place is as before. No call takes memory.
#[derive(Drop)]
pub struct Cursor<'a> {
    bytes: &'a [u8],
    at: usize,
}

impl<'a> Model for Cursor<'a> {
    ghost use Rattle.std.specs.Prelude.{◌≤◌, length};
    ghost use Rattle.thrift_compact.specs.Places.{Place};

    ghost Value = { Place };

    ghost view = { λ c. record { bytes = c.bytes.now; at = c.at } };

    ghost invariant = { λ c. c.at ≤ length c.bytes.now };
}

impl<'a> Cursor<'a> {
    /// A cursor at the first byte.
    pub fn new(bytes: &'a [u8]) -> Cursor<'a>
        ensures bytes { result.bytes ≡ bytes.now }
        ensures at { result.at ≡ 0 }
    {
        Cursor { bytes, at: 0 }
    }

    /// The place of the next byte, from 0.
    pub fn at(&self) -> usize
        ensures { result ≡ self.now.at }
    {
        self.at
    }

    /// The header of a field; `last` is the id of the field before it in the struct, or 0.
    pub fn field(&mut self, last: i16) -> Result<Field, ThriftFault>
        ensures { Moves (λ field. field) self.old self.new result (field_at self.old.bytes last self.old.at) }
    {
        let (field, at) = read_field(self.bytes, last, self.at)?;
        self.at = at;
        Ok(field)
    }

    /// A number of 16, 32 or 64 bits, a zigzag varint.
    pub fn number(&mut self) -> Result<i64, ThriftFault>
        ensures { Moves (λ number. number) self.old self.new result (number_at self.old.bytes self.old.at) }
    {
        let (number, at) = read_number(self.bytes, self.at)?;
        self.at = at;
        Ok(number)
    }

    /// Bytes or a text: a length, and so many bytes.
    pub fn binary(&mut self) -> Result<&'a [u8], ThriftFault>
        ensures { Moves (λ bytes. bytes.now) self.old self.new result (binary_at self.old.bytes self.old.at) }
    {
        let (bytes, at) = read_binary(self.bytes, self.at)?;
        self.at = at;
        Ok(bytes)
    }

    /// The header of a list or set.
    pub fn list(&mut self) -> Result<ListHead, ThriftFault>
        ensures { Moves (λ head. head) self.old self.new result (list_at self.old.bytes self.old.at) }
    {
        let (head, at) = read_list(self.bytes, self.at)?;
        self.at = at;
        Ok(head)
    }

    /// Passes over a value. A boolean is in its field's header and takes no byte. More than sixteen containers inside
    /// one another, counted from this value, are refused.
    pub fn skip(&mut self, wire: Wire) -> Result<(), ThriftFault>
        ensures { Moves (λ nothing. nothing) self.old self.new result (skipped_at self.old.bytes wire self.old.at) }
    {
        let at = find_end(self.bytes, self.at, wire, false, MOST_LEVELS)?;
        self.at = at;
        Ok(())
    }
}

/// How many containers may be open at once in a value that is skipped.
const MOST_LEVELS: usize = 16;
