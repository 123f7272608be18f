//! Bit packing with the lowest bit first, and the hybrid of runs and bit-packed stretches, as the Parquet format has
//! them (Encodings.md, "Run Length Encoding / Bit-Packing Hybrid", RLE = 3).
#![tactic(auto)]

mod fault;
mod hybrid;
mod laws;
mod packing;
mod room;
mod unpacking;
mod width;

pub use fault::PackFault;
pub use hybrid::{read_hybrid, write_hybrid};
pub use laws::{one_fault, one_reading, one_unpacking};
pub use packing::{pack, pack8};
pub use unpacking::{MOST_VALUES, plain_value, unpack, unpack8};
