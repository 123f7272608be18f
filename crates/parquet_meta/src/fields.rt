//! Structs read field by field, and lists read element by element.
ghost use Rattle.std.specs.Prelude.{◌≡◌, ◌≤◌, ◌++◌, ℕ, ℤ, List, length, Result, Ok, OnOk};
ghost use Rattle.thrift_compact.specs.declared.wire.Wire.{Wire};
ghost use Rattle.parquet_meta.specs.declared.fault.FileFault.{FileFault};
ghost use Rattle.parquet_meta.specs.Pieces.{Piece, Moves, MovesBy, Puts};
ghost use Rattle.parquet_meta.specs.Values.{typed, elements_from, list_in, number_in, text_in};
ghost use Rattle.parquet_meta.specs.Structs.{fields_of, needed};

use crate::fault::FileFault;
use crate::reader::{Header, Reader};
use row_base::{Items, NoMemory, Text};
use std::alloc::Global;
use thrift_compact::{Appender, Field, Wire};

/// Keeps the value that is read as that of a field.
macro_rules! keep {
    ($field:expr, $read:expr) => {{
        $field = Some($read?);
        Ok(())
    }};
}

pub(crate) use keep;

/// What is known of a struct while its fields are read. Memory is taken from an `M`: `Global`, or `()` where none is.
pub(crate) trait Fields<M>: Drop {
    ghost step: { Piece → ℤ → Wire → ℕ → ℕ → Self → Result (Self × ℕ) FileFault };

    /// Reads the value behind a field's header; a field that isn't used is passed over.
    fn put(&mut self, memory: M, reader: &mut Reader<'_>, header: Header) -> Result<(), FileFault>
        ensures { Puts reader.old reader.new self.new result (step reader.old.piece header.id header.wire header.place reader.old.at self.old) };
}

/// What can be an element of a list, or the value of a field.
pub(crate) trait Element: Drop {
    ghost kind: { Wire };

    ghost text: { Self → List ℕ };

    ghost element: { Piece → ℕ → ℕ → Result (Self × ℕ) FileFault };

    /// The wire type of an element.
    fn wire() -> Wire
        ensures { result ≡ kind };

    /// Appends the text of an element.
    fn write(&self, out: &mut Appender) -> Result<(), NoMemory>
        ensures { OnOk result (out.new ≡ out.old ++ text self.now) };

    /// An element of the list that is the value of the field at a place.
    fn read(alloc: Global, reader: &mut Reader<'_>, place: usize) -> Result<Self, FileFault>
        ensures { Moves reader.old reader.new result (element reader.old.piece place reader.old.at) };
}

impl Header {
    /// The value has this wire type.
    pub(crate) fn expect(&self, wanted: Wire) -> Result<(), FileFault>
        ensures { result ≡ typed wanted self.now.wire self.now.place (Ok tt) }
    {
        if self.wire == wanted {
            Ok(())
        } else {
            Err(FileFault::Thrift { at: self.place })
        }
    }
}

/// The value of a needed field; where it didn't come, the fault is at the struct's stop.
pub(crate) fn needed<T>(stop: usize, value: Option<T>) -> Result<T, FileFault>
    ensures { result ≡ needed stop value }
{
    match value {
        Some(value) => Ok(value),
        None => Err(FileFault::Thrift { at: stop }),
    }
}

/// All fields of a struct, and the place in the file of its stop.
#[tactic(auto, unfolding(crate::specs::Structs::fields_from))]
pub(crate) fn read_fields<M: Copy, F: Fields<M>>(
    memory: M,
    reader: &mut Reader<'_>,
    none: F,
) -> Result<(F, usize), FileFault>
    ensures { Moves reader.old reader.new result (fields_of F.step none reader.old.piece reader.old.at) }
{
    let mut known = none;
    let mut last = 0;
    loop {
        let place = reader.place();
        match reader.field(last)? {
            Field::Stop => return Ok((known, place)),
            Field::Next { id, wire } => {
                known.put(memory, reader, Header { id, wire, place })?;
                last = id;
            }
        }
    }
}

/// The elements of a list, one behind another, of which there are so many.
#[tactic(auto, unfolding(crate::specs::Values::elements_from))]
fn read_elements<E: Element>(
    alloc: Global,
    reader: &mut Reader<'_>,
    place: usize,
    count: u32,
) -> Result<Vec<E>, FileFault>
    requires { reader.old.at ≤ length reader.old.piece.bytes }
    ensures { MovesBy (λ v. v.items) reader.old reader.new result (elements_from (E.element reader.old.piece place) count reader.old.at) }
{
    let mut elements = Vec::new(alloc);
    for _ in 0..count {
        elements.push(E::read(alloc, reader, place)?)?;
    }
    Ok(elements)
}

/// The value of a field that is a list.
#[tactic(auto, unfolding(crate::specs::Values::list_in))]
pub(crate) fn read_list<E: Element>(
    alloc: Global,
    reader: &mut Reader<'_>,
    header: Header,
) -> Result<Items<E>, FileFault>
    ensures { Moves reader.old reader.new result (typed Wire.List header.wire header.place (list_in E.kind E.element reader.old.piece header.place reader.old.at)) }
{
    header.expect(Wire::List)?;
    let head = reader.head()?;
    if head.wire != E::wire() {
        return Err(FileFault::Thrift { at: header.place });
    }
    let elements = read_elements(alloc, reader, header.place, head.count)?;
    Ok(Items::from_vec(elements))
}

/// The value of a field that is a number.
pub(crate) fn read_number(
    reader: &mut Reader<'_>,
    header: Header,
    wanted: Wire,
) -> Result<i64, FileFault>
    ensures { Moves reader.old reader.new result (typed wanted header.wire header.place (number_in reader.old.piece reader.old.at)) }
{
    header.expect(wanted)?;
    reader.number()
}

/// The value of a field that is a text.
pub(crate) fn read_text(
    alloc: Global,
    reader: &mut Reader<'_>,
    header: Header,
) -> Result<Text, FileFault>
    ensures { Moves reader.old reader.new result (typed Wire.Binary header.wire header.place (text_in reader.old.piece header.place reader.old.at)) }
{
    header.expect(Wire::Binary)?;
    reader.text(alloc, header.place)
}
