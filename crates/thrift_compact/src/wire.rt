//! Wire types, and the headers of fields and lists.

/// A wire type.
#[derive(Clone, Copy, Debug, PartialEq, Eq)]
pub enum Wire {
    /// A boolean field that is true; as an element's type, a boolean of one byte.
    True,
    /// A boolean field that is false; as an element's type, a boolean of one byte.
    False,
    /// One raw byte.
    Byte,
    /// A zigzag varint of 16 bits.
    I16,
    /// A zigzag varint of 32 bits.
    I32,
    /// A zigzag varint of 64 bits.
    I64,
    /// Eight bytes.
    Double,
    /// A length and so many bytes.
    Binary,
    /// A list.
    List,
    /// A set, written as a list.
    Set,
    /// A map.
    Map,
    /// A struct.
    Struct,
}

/// What stands at the place of a field.
#[derive(Clone, Copy, Debug, PartialEq, Eq)]
pub enum Field {
    /// The end of the struct.
    Stop,
    /// A field, whose value follows.
    Next {
        /// The field's id.
        id: i16,
        /// The wire type of its value.
        wire: Wire,
    },
}

/// The header of a list or set.
#[derive(Clone, Copy, Debug, PartialEq, Eq)]
pub struct ListHead {
    /// The wire type of each element.
    pub wire: Wire,
    /// How many elements follow.
    pub count: u32,
}
