//! Rows as Parquet files, both ways (Parquet format, README.md).
#![tactic(auto)]

mod chunk;
mod chunk_writer;
mod element_writer;
mod group_writer;
mod groups;
mod laws;
mod page_writer;
mod pages;
mod reading;
mod rows;
mod source;
mod tree;
mod writing;

pub use laws::{files_are_read, files_read_back};
pub use reading::read_file;
pub use writing::write_file;
