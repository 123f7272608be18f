//! The metadata of Parquet files: the footer and the heads of pages, read and written (Parquet format, "Metadata";
//! Thrift compact protocol).
#![tactic(auto)]

mod fault;
mod fields;
mod file;
mod footer;
mod head;
mod known;
mod laws;
mod meta;
mod page;
mod reader;
mod written;

pub use fault::FileFault;
pub use file::{read_footer, read_page_head, write_footer, write_page_head};
pub use head::{DataPageHead, DictionaryPageHead, PageAt, PageHead};
pub use laws::{reading_is_exact, written_is_read};
pub use meta::{ColumnChunk, ColumnMetaData, FileMeta, RowGroup, SchemaElement};
