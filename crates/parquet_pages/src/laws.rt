//! Facts about pages alone, which no code computes.
ghost use Rattle.parquet_pages.specs.Grammar.{PagesAreRead, DictionariesAreRead, DictionariesPay, OthersDoNotPay, DictionariesFit, NullsAreFound};
ghost use Rattle.parquet_pages.specs.ReadBack.{PagesReadBack, IndicesReadBack, DictionariesReadBack};

/// What `read_page` and `read_dictionary` read as values is exactly what the format says of a page of these values.
pub fn pages_are_read()
    ensures data { PagesAreRead }
    ensures dictionaries { DictionariesAreRead }
{}

/// Pages that are written give their values back, wherever they stand in a file behind a head that fits them: values
/// that some bytes read as, in columns that may hold them.
pub fn pages_read_back()
    ensures plain { PagesReadBack }
    ensures indices { IndicesReadBack }
    ensures dictionaries { DictionariesReadBack }
{}

/// The dictionary of a chunk has each value that isn't null once, in order of first appearance, and no other; a chunk has
/// one where it isn't boolean and the dictionary is at most half as long as its values that aren't null. Its values have
/// places there.
pub fn dictionaries_pay()
    ensures some { DictionariesPay }
    ensures none { OthersDoNotPay }
    ensures fit { DictionariesFit }
{}

/// Where `read_page` reads values, `page_has_null` tells whether null is among them.
pub fn nulls_are_found()
    ensures { NullsAreFound }
{}
