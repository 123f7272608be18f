//! Letters, and the words of the grammar.
ghost use Rattle.std.specs.Prelude.{◌≡◌, ◌≤◌, length};
ghost use Rattle.std.specs.List.{list_any, prefix_len};
ghost use Rattle.std.specs.Str.{bytes_eq};
ghost use Rattle.script_tokens.specs.Words.{is_letter, is_word_byte, is_boundary, is_constant, is_reserved};

/// Whether a name may begin with the byte: an ASCII letter or `_`.
pub fn is_letter(b: u8) -> bool
    ensures { result ≡ is_letter b }
{
    b.is_ascii_alphabetic() || b == b'_'
}

/// Whether a name may have the byte behind its first one.
pub fn is_word_byte(b: u8) -> bool
    ensures { result ≡ is_word_byte b }
{
    is_letter(b) || b.is_ascii_digit()
}

/// How many bytes of a word stand at the front.
pub fn word_run(bytes: &[u8]) -> usize
    ensures is { result ≡ prefix_len is_word_byte bytes.now }
    ensures within { result ≤ length bytes.now }
{
    bytes.iter().take_while(|b| is_word_byte(**b)).count()
}

/// Whether a word, a number or a text may end before these bytes.
pub fn is_boundary(bytes: &[u8]) -> bool
    ensures { result ≡ is_boundary bytes.now }
{
    match bytes {
        [] => true,
        [b, ..] => !(is_word_byte(*b) || *b == b'\''),
    }
}

/// The words of the grammar: those that begin a line, then those of statements, of kinds, of literals, of predicates and
/// of clauses.
const RESERVED: [&[u8]; 45] = [
    b"attempts",
    b"open",
    b"table",
    b"session",
    b"kill",
    b"schedule",
    b"wait",
    b"insert",
    b"delete",
    b"update",
    b"merge",
    b"optimize",
    b"vacuum",
    b"alter",
    b"select",
    b"long",
    b"integer",
    b"boolean",
    b"string",
    b"date",
    b"true",
    b"false",
    b"null",
    b"and",
    b"or",
    b"not",
    b"is",
    b"partitioned",
    b"by",
    b"with",
    b"txn",
    b"where",
    b"set",
    b"key",
    b"using",
    b"source",
    b"when",
    b"matched",
    b"then",
    b"target",
    b"retain",
    b"dry",
    b"run",
    b"version",
    b"timestamp",
];

/// The words that are a literal by themselves.
const CONSTANTS: [&[u8]; 3] = [b"true", b"false", b"null"];

fn is_among(word: &[u8], words: &[&[u8]]) -> bool
    ensures { result ≡ list_any (λ w. bytes_eq word.now w.now) words.now }
{
    words.iter().any(|other| word == *other)
}

/// Whether the word is a literal by itself.
pub fn is_constant(word: &[u8]) -> bool
    ensures { result ≡ is_constant word.now }
{
    is_among(word, &CONSTANTS)
}

/// Whether the word is one of the grammar's own, and so no name.
#[tactic(auto, unfolding(crate::specs::Words::is_reserved))]
pub fn is_reserved(word: &[u8]) -> bool
    ensures { result ≡ is_reserved word.now }
{
    is_among(word, &RESERVED)
}
