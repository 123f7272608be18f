//! A source and a sink of bytes.
ghost use Rattle.std.specs.Prelude.{◌≡◌, ◌≢◌, ◌≤◌, ◌<◌, ℕ, List, length, vec_len, true, false, Option, IfOk, OnOk, IfErr, OnErr};
ghost use Rattle.std.specs.Io.{ReadsAtMost, WritesAtMost};
ghost use Rattle.std.specs.Io.KnownBytes.{ReadConsumes, WriteAppends, Consumes, Keeps, IsAtEnd, Appends};
ghost use Rattle.edge_api.specs.World.{Rose};
ghost use Rattle.edge_api.specs.Streams.{ReadsAll, GivesMore, GivesAtMost, AppendsPrefix};

use row_base::OutOfMemory;
use std::alloc::{AllocError, Global};

/// How many bytes `read_all` asks for at a time.
const PIECE: usize = 1 << 16;

/// A call of a source or a sink that failed.
#[derive(Clone, Copy, Debug, Drop, PartialEq, Eq)]
pub struct Failed;

/// What gives bytes.
pub trait Source {
    /// The bytes that are left, where it tells them.
    ghost left: { Self → Option (List ℕ) };

    /// How often it has failed.
    ghost faults: { Self → ℕ };

    /// Puts the next bytes into the room and answers how many. It answers 0 for room that isn't empty
    /// exactly at the end. It fails only where the count of faults rose, and then it has given nothing.
    fn read_some(&mut self, into: &mut [u8]) -> Result<usize, Failed>
        ensures bound { ReadsAtMost result into.new }
        ensures bytes { ReadConsumes (left self.old) (left self.new) result into.new }
        ensures later { faults self.old ≤ faults self.new }
        ensures cause { OnErr result (Rose (faults self.old) (faults self.new)) };
}

/// What takes bytes.
pub trait Sink {
    /// The bytes that were written, where it tells them.
    ghost written: { Self → Option (List ℕ) };

    /// How often it has failed.
    ghost faults: { Self → ℕ };

    /// Takes the first bytes of the piece, at least one of a piece that isn't empty, and answers how many.
    /// It fails only where the count of faults rose, and then it has taken nothing.
    fn write_some(&mut self, piece: &[u8]) -> Result<usize, Failed>
        ensures bound { WritesAtMost result piece.now }
        ensures some { IfOk result (λ n. 0 < length piece.now → 0 < n) }
        ensures bytes { WriteAppends (written self.old) (written self.new) result piece.now }
        ensures later { faults self.old ≤ faults self.new }
        ensures cause { OnErr result (Rose (faults self.old) (faults self.new)) };
}

/// Why a source wasn't read to its end.
#[derive(Clone, Copy, Debug, Drop, PartialEq, Eq)]
pub enum ReadError {
    /// A read failed.
    Failed,
    /// More bytes came than the limit.
    TooLong,
    /// Memory ran out.
    NoMemory,
}

impl<E: OutOfMemory> From<E> for ReadError {
    ghost use Rattle.std.specs.Prelude.{◌≡◌};
    ghost use Rattle.edge_api.specs.declared.stream.ReadError.TheVariants.{NoMemory};

    ghost from_gives = { λ _ e. e ≡ NoMemory };

    fn from(_refused: E) -> ReadError {
        ReadError::NoMemory
    }
}

impl From<Failed> for ReadError {
    ghost use Rattle.std.specs.Prelude.{◌≡◌};
    ghost use Rattle.edge_api.specs.declared.stream.ReadError.TheVariants as read_error;

    ghost from_gives = { λ _ e. e ≡ read_error.Failed };

    fn from(_failed: Failed) -> ReadError {
        ReadError::Failed
    }
}

fn zeros(alloc: Global, count: usize) -> Result<Vec<u8>, AllocError>
    ensures { IfOk result (λ v. vec_len v ≡ count) }
{
    vec![in alloc; 0u8; count]
}

/// Reads once and appends what came. It answers whether anything came.
fn read_more<S: Source>(
    source: &mut S,
    room: &mut [u8],
    bytes: &mut Vec<u8>,
) -> Result<bool, ReadError>
    requires { 0 < length room.old }
    ensures bytes { OnOk result
        ((start : Option (List ℕ)) → Consumes start (S.left source.old) bytes.old.items → Consumes start (S.left source.new) bytes.new.items) }
    ensures more { IfOk result (λ came. came ≡ true → vec_len bytes.old < vec_len bytes.new) }
    ensures end { IfOk result (λ came. came ≡ false → IsAtEnd (S.left source.new)) }
    ensures within { IfOk result (λ came. came ≡ false → vec_len bytes.new ≡ vec_len bytes.old) }
    ensures later { S.faults source.old ≤ S.faults source.new }
    ensures failed { IfErr result (λ e. e ≡ ReadError.Failed → Rose (S.faults source.old) (S.faults source.new)) }
    ensures kept { IfErr result (λ e. e ≡ ReadError.Failed → Keeps (S.left source.old) (S.left source.new)) }
    ensures short { IfErr result (λ e. e ≢ ReadError.TooLong) }
{
    let count = source.read_some(room)?;
    bytes.extend_from_slice(&room[..count])?;
    Ok(count > 0)
}

/// Reads a source to its end. It is `TooLong` where more than `limit` bytes come before a read fails.
/// After an error the bytes that came are lost.
pub fn read_all<S: Source>(
    alloc: Global,
    source: &mut S,
    limit: usize,
) -> Result<Vec<u8>, ReadError>
    ensures ok { IfOk result (λ v. ReadsAll (S.left source.old) (S.left source.new) v.items) }
    ensures bound { IfOk result (λ v. length v.items ≤ limit) }
    ensures later { S.faults source.old ≤ S.faults source.new }
    ensures failed { IfErr result (λ e. e ≡ ReadError.Failed → Rose (S.faults source.old) (S.faults source.new)) }
    ensures within { IfErr result (λ e. e ≡ ReadError.Failed → GivesAtMost (S.left source.old) (S.left source.new) limit) }
    ensures long { IfErr result (λ e. e ≡ ReadError.TooLong → GivesMore (S.left source.old) (S.left source.new) limit) }
{
    let mut bytes = Vec::new(alloc);
    let mut room = zeros(alloc, PIECE)?;
    while bytes.len() <= limit {
        if !read_more(source, &mut room, &mut bytes)? {
            return Ok(bytes);
        }
    }
    Err(ReadError::TooLong)
}

/// Writes all of the bytes. After a failure a first part of them is written.
pub fn write_all<K: Sink>(sink: &mut K, bytes: &[u8]) -> Result<(), Failed>
    ensures ok { OnOk result (Appends (K.written sink.old) (K.written sink.new) bytes.now) }
    ensures err { OnErr result (AppendsPrefix (K.written sink.old) (K.written sink.new) bytes.now) }
    ensures later { K.faults sink.old ≤ K.faults sink.new }
    ensures cause { OnErr result (Rose (K.faults sink.old) (K.faults sink.new)) }
{
    let mut at = 0;
    while at < bytes.len() {
        at += sink.write_some(&bytes[at..])?;
    }
    Ok(())
}
