//! The items of a schedule's line.
ghost use Rattle.std.specs.Prelude.{◌≡◌, ◌<◌, ◌≤◌, option_map, length, IfSome, IfNone, None};
ghost use Rattle.std.specs.List.{position};
ghost use Rattle.std.specs.Str.{bytes_eq};
ghost use Rattle.row_base.specs.declared.limits.TheConstants.{MAX_SESSIONS};
ghost use Rattle.script_tokens.specs.Gives.{Gives};
ghost use Rattle.script_forms.specs.Items.{ends_item, form_at, item_at};
ghost use Rattle.script_forms.specs.Places.{place_named, placed_from, put_placed};

use crate::place::Placed;
use crate::script::SessionScript;
use actor_core::ItemForm;
use row_base::{Items, Text};
use script_grammar::is_name;
use script_tokens::{ParseError, starts_space, word_run};
use std::alloc::Global;

/// Whether the text has these bytes.
pub fn has_bytes(text: &Text, bytes: &[u8]) -> bool
    ensures { result ≡ bytes_eq text.now bytes.now }
{
    text.as_bytes() == bytes
}

fn ends_item(bytes: &[u8]) -> bool
    ensures { result ≡ ends_item bytes.now }
{
    match bytes {
        [] => true,
        [b, ..] => *b == b' ',
    }
}

/// How far the session goes, by the byte directly behind its name.
fn form_at(behind: &[u8]) -> (ItemForm, &[u8])
    ensures { (result.0, result.1.now) ≡ form_at behind.now }
{
    match behind {
        [] => (ItemForm::One, behind),
        [b, rest @ ..] => {
            if *b == b'!' {
                (ItemForm::Statement, rest)
            } else if *b == b'@' {
                (ItemForm::Attempt, rest)
            } else {
                (ItemForm::One, behind)
            }
        }
    }
}

/// The item at the front: its name, its form, and what follows it.
#[tactic(auto, unfolding(crate::specs::Items::item_at))]
fn item(bytes: &[u8]) -> Option<(&[u8], ItemForm, &[u8])>
    ensures { option_map (λ x. ((x.0.now, x.1), x.2.now)) result ≡ item_at bytes.now }
{
    let (name, behind) = bytes.split_at(word_run(bytes));
    let (form, rest) = form_at(behind);
    if is_name(name) && ends_item(rest) {
        Some((name, form, rest))
    } else {
        None
    }
}

fn find_named(sessions: &[SessionScript], name: &[u8]) -> Option<usize>
    ensures is { result ≡ position (λ s. bytes_eq s.name name.now) sessions.now }
    ensures within { IfSome result (λ i. i < length sessions.now) }
{
    sessions
        .iter()
        .position(|session| has_bytes(&session.name, name))
}

/// The place of the session of this name, counted from 1.
fn place_named(sessions: &[SessionScript], name: &[u8]) -> Option<u16>
    requires { length sessions.now ≤ MAX_SESSIONS }
    ensures { result ≡ place_named sessions.now name.now }
{
    match find_named(sessions, name) {
        Some(place) => Some(place as u16 + 1),
        None => None,
    }
}

/// One step: a space, or an item.
fn next<'a>(sessions: &[SessionScript], bytes: &'a [u8]) -> Option<(Option<Placed>, &'a [u8])>
    requires room { length sessions.now ≤ MAX_SESSIONS }
    requires some { 0 < length bytes.now }
    ensures ok { IfSome result (λ x. placed_from sessions.now bytes.now ≡ put_placed x.0 (placed_from sessions.now x.1.now)) }
    ensures less { IfSome result (λ x. length x.1.now < length bytes.now) }
    ensures none { IfNone result (placed_from sessions.now bytes.now ≡ None) }
{
    if starts_space(bytes) {
        let (_, after) = bytes.split_at(1);
        return Some((None, after));
    }
    match item(bytes) {
        Some((name, form, after)) => {
            let session = place_named(sessions, name);
            Some((Some(Placed { session, form }), after))
        }
        None => None,
    }
}

/// The items of a line, each with the place of its session if there is one of its name.
pub fn placed_items(
    alloc: Global,
    sessions: &[SessionScript],
    line: &[u8],
) -> Result<Items<Placed>, ParseError>
    requires { length sessions.now ≤ MAX_SESSIONS }
    ensures { Gives (λ x. x) result (placed_from sessions.now line.now) }
{
    let mut all = Vec::new(alloc);
    let mut rest = line;
    while !rest.is_empty() {
        match next(sessions, rest) {
            Some((found, after)) => {
                if let Some(item) = found {
                    all.push(item)?;
                }
                rest = after;
            }
            None => return Err(ParseError::Form),
        }
    }
    Ok(Items::from_vec(all))
}
