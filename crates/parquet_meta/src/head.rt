//! The heads of pages (Parquet format, `PageHeader`). Fields that aren't used are not kept.

/// The head of a page (`PageHeader`).
#[derive(Clone, Copy, Debug, PartialEq, Eq)]
pub struct PageHead {
    /// 0 a data page, 1 an index page, 2 a dictionary page, 3 a data page of the second version.
    pub page_type: i32,
    /// The bytes of the page before compression, without its head.
    pub uncompressed_page_size: Option<i32>,
    /// The bytes of the page in the file, without its head.
    pub compressed_page_size: i32,
    /// What a data page has.
    pub data_page: Option<DataPageHead>,
    /// What a dictionary page has.
    pub dictionary_page: Option<DictionaryPageHead>,
    /// Whether it has the header of a data page of the second version.
    pub data_page_v2: bool,
}

/// What a data page has (`DataPageHeader`).
#[derive(Clone, Copy, Debug, PartialEq, Eq)]
pub struct DataPageHead {
    /// How many values it has, nulls too.
    pub num_values: i32,
    /// The number of the values' encoding.
    pub encoding: i32,
    /// The number of the definition levels' encoding.
    pub definition_level_encoding: i32,
    /// The number of the repetition levels' encoding.
    pub repetition_level_encoding: i32,
}

/// What a dictionary page has (`DictionaryPageHeader`).
#[derive(Clone, Copy, Debug, PartialEq, Eq)]
pub struct DictionaryPageHead {
    /// How many values it has.
    pub num_values: i32,
    /// The number of the values' encoding.
    pub encoding: i32,
}

/// The head of a page, and where its body begins.
#[derive(Clone, Copy, Debug, PartialEq, Eq)]
pub struct PageAt {
    /// The head.
    pub head: PageHead,
    /// The place of the page's body in the file, in bytes.
    pub body: usize,
}
