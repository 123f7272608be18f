//! What the footer of a file says (Parquet format, "Metadata"). Fields that aren't used are not kept. An absent field is
//! `None`; numbers are as they stand, in range or not.
use row_base::{Items, Text};

/// The metadata of a file (`FileMetaData`).
#[derive(Debug, Drop)]
pub struct FileMeta {
    /// The version of the format.
    pub version: Option<i64>,
    /// The tree of the schema, an element before its children; the first is the root.
    pub schema: Items<SchemaElement>,
    /// How many rows the file has.
    pub num_rows: i64,
    /// The groups of rows, in order.
    pub row_groups: Items<RowGroup>,
}

/// An element of the schema (`SchemaElement`).
#[derive(Debug, Drop)]
pub struct SchemaElement {
    /// The number of its physical type; a group has none.
    pub physical_type: Option<i64>,
    /// 0 required, 1 optional, 2 repeated.
    pub repetition_type: Option<i64>,
    /// Its name.
    pub name: Text,
    /// How many of the elements that follow are its children.
    pub num_children: Option<i64>,
    /// The number of its converted type.
    pub converted_type: Option<i64>,
}

/// A group of rows (`RowGroup`).
#[derive(Debug, Drop)]
pub struct RowGroup {
    /// The chunks of the columns.
    pub columns: Items<ColumnChunk>,
    /// The bytes of all chunks before compression.
    pub total_byte_size: Option<i64>,
    /// How many rows the group has.
    pub num_rows: i64,
}

/// The part of a column that is in a row group (`ColumnChunk`).
#[derive(Debug, Drop)]
pub struct ColumnChunk {
    /// The file that has the bytes, where it is another one.
    pub file_path: Option<Text>,
    /// The place of a copy of the metadata in the file.
    pub file_offset: Option<i64>,
    /// What the chunk has.
    pub meta_data: ColumnMetaData,
}

/// What a chunk has (`ColumnMetaData`).
#[derive(Debug, Drop)]
pub struct ColumnMetaData {
    /// The number of its physical type.
    pub physical_type: i64,
    /// The numbers of the encodings of its pages and levels.
    pub encodings: Option<Items<i64>>,
    /// The names of the column and of the groups that it is in, from the root down.
    pub path_in_schema: Items<Text>,
    /// The number of its codec.
    pub codec: i64,
    /// How many values it has, nulls too.
    pub num_values: i64,
    /// The bytes of its pages before compression, with their heads.
    pub total_uncompressed_size: Option<i64>,
    /// The bytes of its pages in the file, with their heads.
    pub total_compressed_size: i64,
    /// The place of its first data page in the file.
    pub data_page_offset: i64,
    /// The place of its dictionary page in the file.
    pub dictionary_page_offset: Option<i64>,
}
