//! Paths of data files.
ghost use Rattle.std.specs.Prelude.{◌≡◌, IfOk};
ghost use Rattle.percent_encoding.specs.Percent.{percent_decode};
ghost use Rattle.row_base.specs.Readings.{Gives};
ghost use Rattle.json_lines.specs.Gives.{is_memory};
ghost use Rattle.log_actions.specs.Paths as spec;

use json_lines::ShapeFault;
use percent_encoding::percent_decode;
use row_base::{NoMemory, Text};
use std::alloc::Global;

fn decoded(alloc: Global, path: &Text) -> Result<Vec<u8>, NoMemory>
    ensures { IfOk result (λ v. v.items ≡ percent_decode path.now) }
{
    let mut bytes = Vec::new(alloc);
    percent_decode(path.as_str().as_bytes()).append_to(&mut bytes)?;
    Ok(bytes)
}

fn if_utf8(bytes: Vec<u8>) -> Result<Text, ShapeFault>
    ensures { Gives is_memory (λ x. x) result (spec.if_utf8 bytes.items) }
{
    match String::from_utf8(bytes) {
        Ok(text) => {
            let text = Text::from_string(text)?;
            let _utf8 = text.as_str();
            Ok(text)
        }
        Err(_) => Err(ShapeFault::Shape),
    }
}

/// The path with its percent escapes undone. The fault of its shape says that this is no UTF-8.
#[tactic(auto, unfolding(crate::specs::Paths::name_of_path))]
pub(crate) fn name_of_path(alloc: Global, path: &Text) -> Result<Text, ShapeFault>
    ensures { Gives is_memory (λ x. x) result (spec.name_of_path path.now) }
{
    if_utf8(decoded(alloc, path)?)
}

fn is_scheme_byte(byte: u8) -> bool
    ensures { result ≡ spec.is_scheme_byte byte }
{
    byte.is_ascii_alphanumeric() || byte == b'+' || byte == b'-' || byte == b'.'
}

fn ends_scheme(bytes: &[u8]) -> bool
    ensures { result ≡ spec.ends_scheme bytes.now }
{
    for byte in bytes {
        if *byte == b':' {
            return true;
        }
        if !is_scheme_byte(*byte) {
            return false;
        }
    }
    false
}

/// Whether a path has a scheme (RFC 3986, section 3.1) or a leading slash.
#[tactic(auto, unfolding(crate::specs::Paths::is_absolute))]
pub fn is_absolute(path: &str) -> bool
    ensures { result ≡ spec.is_absolute path.now }
{
    match path.as_bytes() {
        [] => false,
        [first, rest @ ..] => *first == b'/' || (first.is_ascii_alphabetic() && ends_scheme(rest)),
    }
}
