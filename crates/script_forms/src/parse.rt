//! Lines of a script, one after another.
ghost use Rattle.std.specs.Prelude.{◌≡◌, ◌<◌, ◌≤◌, ◌^◌, ◌+◌, ◌∷◌, ◌⊎◌, List, ℕ, length, drop, true, IfOk, IfErr, MatchResult, Ok, None};
ghost use Rattle.std.specs.List.{prefix_len};
ghost use Rattle.std.specs.Str.{is_utf8};
ghost use Rattle.row_base.specs.declared.limits.TheConstants.{MAX_SCRIPT_BYTES, MAX_SESSIONS};
ghost use Rattle.script_forms.specs.Scripts.{pieces, is_passed, is_inside, judge, judged, lacking, finished, script_from, session_count, FaultIs, GivesScript, SpellsScript, FailsScript, Judges};
ghost use Rattle.script_forms.specs.Fit.{IsFit};
ghost use Rattle.script_forms.specs.Places.{is_within, IsSound};
ghost use Rattle.script_forms.specs.declared.place.Place.TheVariants as places;
ghost use Rattle.script_forms.specs.declared.script.Script.{Script as AScript};
ghost use Rattle.script_forms.specs.declared.script.ScriptFaultKind.{ScriptFaultKind as AKind};

use crate::entry::{after, entry, is_known, is_within, with_session};
use crate::place::{Entry, Place};
use crate::{Script, ScriptFault, ScriptFaultKind};
use script_tokens::ParseError;
use std::alloc::Global;

fn line_len(bytes: &[u8]) -> usize
    ensures is { result ≡ prefix_len is_inside bytes.now }
    ensures within { result ≤ length bytes.now }
{
    bytes.iter().take_while(|b| **b != b'\n').count()
}

fn behind(end: &[u8]) -> &[u8]
    ensures { result.now ≡ drop 1 end.now }
{
    match end {
        [] => end,
        [_, rest @ ..] => rest,
    }
}

/// The first line, and the bytes behind its end.
fn first_line(bytes: &[u8]) -> (&[u8], &[u8])
    requires { 0 < length bytes.now }
    ensures line { pieces bytes.now ≡ result.0.now ∷ pieces result.1.now }
    ensures less { length result.1.now < length bytes.now }
{
    let (line, end) = bytes.split_at(line_len(bytes));
    (line, behind(end))
}

/// Whether the line is passed over: nothing but spaces, or a comment.
fn is_passed(line: &[u8]) -> bool
    ensures { result ≡ is_passed line.now }
{
    let mut rest = line;
    while let [b, tail @ ..] = rest {
        if *b != b' ' {
            return *b == b'#';
        }
        rest = tail;
    }
    true
}

fn is_utf8(line: &[u8]) -> bool
    ensures { result ≡ is_utf8 line.now }
{
    match str::from_utf8(line) {
        Ok(_) => true,
        Err(_) => false,
    }
}

/// What a line that has no form at the place is called.
fn lacking(place: &Place) -> ScriptFaultKind
    ensures { result ≡ lacking place.now }
{
    match place {
        Place::Start(_) => ScriptFaultKind::Header,
        _ => ScriptFaultKind::Form,
    }
}

/// The place behind the entry, or the kind of its fault.
fn judge_entry(alloc: Global, place: Place, entry: Entry) -> Result<Place, ScriptFaultKind>
    requires count { session_count place ≤ MAX_SESSIONS }
    requires sound { is_within place entry ≡ true → IsSound entry }
    ensures gives { Judges result (judged place entry) }
    ensures room { IfOk result (λ p. session_count p ≤ MAX_SESSIONS) }
{
    if !is_known(&place, &entry) {
        return Err(ScriptFaultKind::Session);
    }
    if !is_within(&place, &entry) {
        return Err(ScriptFaultKind::Limit);
    }
    match after(alloc, place, entry) {
        Ok(place) => Ok(place),
        Err(_) => Err(ScriptFaultKind::NoMemory),
    }
}

/// The place behind the line, or the kind of its fault.
#[tactic(auto, unfolding(crate::specs::Scripts::judge))]
fn judge_line(alloc: Global, place: Place, line: &[u8]) -> Result<Place, ScriptFaultKind>
    requires { session_count place ≤ MAX_SESSIONS }
    ensures gives { Judges result (judge place line.now) }
    ensures room { IfOk result (λ p. session_count p ≤ MAX_SESSIONS) }
{
    if !is_utf8(line) {
        return Err(ScriptFaultKind::Utf8);
    }
    if is_passed(line) {
        return Ok(place);
    }
    match entry(alloc, &place, line) {
        Ok(entry) => judge_entry(alloc, place, entry),
        Err(ParseError::Form) => Err(lacking(&place)),
        Err(ParseError::NoMemory) => Err(ScriptFaultKind::NoMemory),
    }
}

/// The script that ends at the place, behind the line before this number.
fn finish(number: u32, place: Place) -> Result<Script, ScriptFault>
    ensures { GivesScript result (finished number place) }
{
    match place {
        Place::Start(_) => Err(ScriptFault {
            line: number,
            kind: ScriptFaultKind::Header,
        }),
        Place::Headed(script) => Ok(script),
        Place::Session(script, current) => match with_session(script, current) {
            Ok(script) => Ok(script),
            Err(_) => Err(ScriptFault {
                line: number,
                kind: ScriptFaultKind::NoMemory,
            }),
        },
        Place::Items(script) => Ok(script),
    }
}

/// Reads the line of this number.
fn step(alloc: Global, place: Place, number: u32, line: &[u8]) -> Result<Place, ScriptFault>
    requires { session_count place ≤ MAX_SESSIONS }
    ensures ok { IfOk result (λ q. (ls : List (List ℕ)) → script_from number place (line.now ∷ ls) ≡ script_from (number + 1) q ls) }
    ensures room { IfOk result (λ q. session_count q ≤ MAX_SESSIONS) }
    ensures err { IfErr result (λ f. (ls : List (List ℕ)) → FaultIs f f.kind (script_from number place (line.now ∷ ls))) }
{
    match judge_line(alloc, place, line) {
        Ok(next) => Ok(next),
        Err(kind) => Err(ScriptFault { line: number, kind }),
    }
}

fn read_script(alloc: Global, bytes: &[u8]) -> Result<Script, ScriptFault>
    requires { length bytes.now ≤ MAX_SCRIPT_BYTES }
    ensures { GivesScript result (script_from 1 (places.Start None) (pieces bytes.now)) }
{
    let mut place = Place::Start(None);
    let mut number: u32 = 1;
    let mut rest = bytes;
    while !rest.is_empty() {
        let (line, after) = first_line(rest);
        place = step(alloc, place, number, line)?;
        number += 1;
        rest = after;
    }
    finish(number, place)
}

/// Reads a script of at most `MAX_SCRIPT_BYTES`. The error names the least bad line and the first kind of fault that it
/// has in the order `Utf8`, `Header`, `Form`, `Session`, `Limit`, or the line at which memory ran out.
pub fn parse_script(alloc: Global, bytes: &[u8]) -> Result<Script, ScriptFault>
    requires { length bytes.now ≤ MAX_SCRIPT_BYTES }
    // What is read is what the bytes spell.
    ensures found { IfOk result (SpellsScript bytes.now) }
    // It keeps all limits, and each datum of its rows has a text.
    ensures fit { IfOk result IsFit }
    // What the bytes spell is read, unless memory runs out.
    ensures only { (s : AScript) → SpellsScript bytes.now s → MatchResult result (λ r. r ≡ s) (λ f. f.kind ≡ ScriptFaultKind.NoMemory) }
    // The fault that is named is that of the least bad line.
    ensures fault { IfErr result (λ f. (f.kind ≡ ScriptFaultKind.NoMemory) ⊎ FailsScript bytes.now f.line f.kind) }
    // The least bad line is named, unless memory runs out before it.
    ensures least { (n : ℕ) (k : AKind) → FailsScript bytes.now n k → MatchResult result (λ _. ⊥) (λ f. (f.kind ≡ ScriptFaultKind.NoMemory) ⊎ ((f.line ≡ n) × (f.kind ≡ k))) }
    // Which it is.
    ensures exact { GivesScript result (script_from 1 (places.Start None) (pieces bytes.now)) }
{
    read_script(alloc, bytes)
}
