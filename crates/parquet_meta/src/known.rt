//! What is known of a struct while its fields are read: the value of each used field that has come, and of one that came
//! twice the last.
use crate::meta::{ColumnChunk, ColumnMetaData, RowGroup, SchemaElement};
use row_base::{Items, Text};

/// What is known of the metadata of a file.
#[derive(Drop)]
pub(crate) struct FileKnown {
    pub(crate) version: Option<i64>,
    pub(crate) schema: Option<Items<SchemaElement>>,
    pub(crate) num_rows: Option<i64>,
    pub(crate) row_groups: Option<Items<RowGroup>>,
}

/// What is known of an element of the schema.
#[derive(Drop)]
pub(crate) struct ElementKnown {
    pub(crate) physical_type: Option<i64>,
    pub(crate) repetition_type: Option<i64>,
    pub(crate) name: Option<Text>,
    pub(crate) num_children: Option<i64>,
    pub(crate) converted_type: Option<i64>,
}

/// What is known of a row group.
#[derive(Drop)]
pub(crate) struct GroupKnown {
    pub(crate) columns: Option<Items<ColumnChunk>>,
    pub(crate) total_byte_size: Option<i64>,
    pub(crate) num_rows: Option<i64>,
}

/// What is known of a chunk.
#[derive(Drop)]
pub(crate) struct ChunkKnown {
    pub(crate) file_path: Option<Text>,
    pub(crate) file_offset: Option<i64>,
    pub(crate) meta_data: Option<ColumnMetaData>,
}

/// What is known of the metadata of a chunk.
#[derive(Drop)]
pub(crate) struct ColumnKnown {
    pub(crate) physical_type: Option<i64>,
    pub(crate) encodings: Option<Items<i64>>,
    pub(crate) path_in_schema: Option<Items<Text>>,
    pub(crate) codec: Option<i64>,
    pub(crate) num_values: Option<i64>,
    pub(crate) total_uncompressed_size: Option<i64>,
    pub(crate) total_compressed_size: Option<i64>,
    pub(crate) data_page_offset: Option<i64>,
    pub(crate) dictionary_page_offset: Option<i64>,
}

/// What is known of the head of a page.
#[derive(Drop)]
pub(crate) struct HeadKnown {
    pub(crate) page_type: Option<i64>,
    pub(crate) uncompressed_page_size: Option<i64>,
    pub(crate) compressed_page_size: Option<i64>,
    pub(crate) data_page: Option<DataNumbers>,
    pub(crate) dictionary_page: Option<DictionaryNumbers>,
    pub(crate) data_page_v2: bool,
}

/// What is known of the header of a data page.
#[derive(Drop)]
pub(crate) struct DataKnown {
    pub(crate) num_values: Option<i64>,
    pub(crate) encoding: Option<i64>,
    pub(crate) definition_level_encoding: Option<i64>,
    pub(crate) repetition_level_encoding: Option<i64>,
}

/// What is known of the header of a dictionary page.
#[derive(Drop)]
pub(crate) struct DictionaryKnown {
    pub(crate) num_values: Option<i64>,
    pub(crate) encoding: Option<i64>,
}

/// The head of a page as it stands, its numbers in range or not.
#[derive(Clone, Copy)]
pub(crate) struct HeadNumbers {
    pub(crate) page_type: i64,
    pub(crate) uncompressed_page_size: Option<i64>,
    pub(crate) compressed_page_size: i64,
    pub(crate) data_page: Option<DataNumbers>,
    pub(crate) dictionary_page: Option<DictionaryNumbers>,
    pub(crate) data_page_v2: bool,
}

/// The header of a data page as it stands.
#[derive(Clone, Copy)]
pub(crate) struct DataNumbers {
    pub(crate) num_values: i64,
    pub(crate) encoding: i64,
    pub(crate) definition_level_encoding: i64,
    pub(crate) repetition_level_encoding: i64,
}

/// The header of a dictionary page as it stands.
#[derive(Clone, Copy)]
pub(crate) struct DictionaryNumbers {
    pub(crate) num_values: i64,
    pub(crate) encoding: i64,
}
