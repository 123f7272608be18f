//! Tokens by hand.
use script_tokens::{Symbol, Token, tokens_of};
use std::alloc::Global;

/// Whether the line spells one token, a text with these bytes.
fn is_text(alloc: Global, line: &[u8], bytes: &[u8]) -> bool {
    match tokens_of(alloc, line) {
        Ok(tokens) => match tokens.as_slice() {
            [token] => matches!(token, Token::Text(text) if text.as_slice() == bytes),
            _ => false,
        },
        Err(_) => false,
    }
}

/// Whether the line spells one token, this number.
fn is_number(alloc: Global, line: &[u8], number: i64) -> bool {
    match tokens_of(alloc, line) {
        Ok(tokens) => match tokens.as_slice() {
            [token] => matches!(token, Token::Number(found) if *found == number),
            _ => false,
        },
        Err(_) => false,
    }
}

/// How many tokens the line spells.
fn count(alloc: Global, line: &[u8]) -> Option<usize> {
    match tokens_of(alloc, line) {
        Ok(tokens) => Some(tokens.len()),
        Err(_) => None,
    }
}

#[test]
fn reads_numbers(rt: HostRuntime) {
    let alloc = rt.alloc();
    assert!(rt; is_number(alloc, b" 007 ", 7));
    assert!(rt; is_number(alloc, b"-0", 0));
    assert!(rt; is_number(alloc, b"9223372036854775807", 9_223_372_036_854_775_807));
    assert!(rt; is_number(alloc, b"-9223372036854775808", -9_223_372_036_854_775_808));
    assert_eq!(rt; count(alloc, b"9223372036854775808"), None);
    assert_eq!(rt; count(alloc, b"-9223372036854775809"), None);
    assert_eq!(rt; count(alloc, b"5a"), None);
}

#[test]
fn tells_a_sign_from_the_symbol(rt: HostRuntime) {
    let alloc = rt.alloc();
    assert_eq!(rt; count(alloc, b"v -1"), Some(3));
    assert_eq!(rt; count(alloc, b"v = -1"), Some(3));
    assert_eq!(rt; count(alloc, b"(1)-1"), Some(5));
    assert_eq!(rt; count(alloc, b"null -1"), Some(3));
    assert_eq!(rt; count(alloc, b"set -1"), Some(2));
    assert_eq!(rt; count(alloc, b"- 1"), Some(2));
    assert_eq!(rt; count(alloc, b"<>=<==>="), Some(5));
}

#[test]
fn reads_texts(rt: HostRuntime) {
    let alloc = rt.alloc();
    assert!(rt; is_text(alloc, b"''", b""));
    assert!(rt; is_text(alloc, b"'it''s'", b"it's"));
    assert!(rt; is_text(alloc, b"'a\\\\b\\x0A\\x7f\tc'", b"a\\b\n\x7f\tc"));
    assert_eq!(rt; count(alloc, b"'a' 'b'"), Some(2));
    assert_eq!(rt; count(alloc, b"'a"), None);
    assert_eq!(rt; count(alloc, b"'\\x80'"), None);
    assert_eq!(rt; count(alloc, b"'\\n'"), None);
    assert_eq!(rt; count(alloc, b"'x'y"), None);
    assert_eq!(rt; count(alloc, b"v'x'"), None);
    assert_eq!(rt; count(alloc, b"a\tb"), None);
}

#[test]
fn reads_symbols(rt: HostRuntime) {
    match tokens_of(rt.alloc(), b"a<>1") {
        Ok(tokens) => {
            assert!(rt;
                matches!(
                    tokens.as_slice(),
                    [
                        Token::Word(_),
                        Token::Symbol(Symbol::NotEqual),
                        Token::Number(1)
                    ]
                )
            );
        }
        Err(_) => assert!(rt; false),
    }
}
