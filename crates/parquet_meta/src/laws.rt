//! Laws of reading and writing.
ghost use Rattle.parquet_meta.specs.Laws.{FootersReadExactly, HeadsReadExactly, FootersReadBack, HeadsReadBack};

/// Footers and heads of pages are read exactly where their texts stand (Parquet format; Thrift compact protocol).
pub fn reading_is_exact()
    ensures footers { FootersReadExactly }
    ensures heads { HeadsReadExactly }
{}

/// What is written reads back: metadata at the end of a file, whatever stands before it and behind its text in the footer,
/// and a page's head anywhere.
pub fn written_is_read()
    ensures footers { FootersReadBack }
    ensures heads { HeadsReadBack }
{}
