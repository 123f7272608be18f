//! What is kept, as lists in byte order.
ghost use Rattle.std.specs.Prelude.{◌≡◌, ℕ, List, Option, IfOk, map};
ghost use Rattle.std.specs.Cmp.Lexicographic.{slice_cmp};
ghost use Rattle.std.specs.List.{filter_map};
ghost use Rattle.std.specs.List.Sorted.{IsPermutation, IsSortedByKey};
ghost use Rattle.std.specs.Ordering.{nat_cmp};
ghost use Rattle.log_state.specs.Listed.{Lists, IsUnderItsOwn, part_at, values_in};

use indexmap::IndexMap;
use log_actions::{Action, AddFile, RemoveFile, Txn};
use row_base::{NoMemory, Text};
use std::alloc::Global;
use std::cmp::Ordering;

/// A part of what is kept under a text. It has that text itself.
pub(crate) trait Part: Drop {
    type Kept: Drop;

    ghost use Rattle.std.specs.Prelude.{◌≡◌, ℕ, List, Option, option_copied};

    ghost part_of: { Self.Kept → Option Self };

    ghost text_of: { Self → List ℕ };

    /// The part, where there is one.
    fn part(kept: &Self::Kept) -> Option<&Self>
        ensures { option_copied result ≡ part_of kept.now };

    /// The text that it is kept under.
    fn text(&self) -> &Text
        ensures { result.now ≡ text_of self.now };
}

impl Part for AddFile {
    type Kept = Action;

    ghost use Rattle.log_state.specs.Newest.{added_by};

    ghost part_of = { added_by };

    ghost text_of = { λ f. f.path };

    fn part(kept: &Action) -> Option<&AddFile> {
        match kept {
            Action::Add(add) => Some(add),
            _ => None,
        }
    }

    fn text(&self) -> &Text {
        &self.path
    }
}

impl Part for RemoveFile {
    type Kept = Action;

    ghost use Rattle.log_state.specs.Newest.{removed_by};

    ghost part_of = { removed_by };

    ghost text_of = { λ f. f.path };

    fn part(kept: &Action) -> Option<&RemoveFile> {
        match kept {
            Action::Remove(remove) => Some(remove),
            _ => None,
        }
    }

    fn text(&self) -> &Text {
        &self.path
    }
}

impl Part for Txn {
    type Kept = Txn;

    ghost use Rattle.std.specs.Prelude.{Some};

    ghost part_of = { λ t. Some t };

    ghost text_of = { λ t. t.app_id };

    fn part(kept: &Txn) -> Option<&Txn> {
        Some(kept)
    }

    fn text(&self) -> &Text {
        &self.app_id
    }
}

/// The parts in the order in which they are kept.
fn parts_in<P: Part>(alloc: Global, kept: &IndexMap<Text, P::Kept>) -> Result<Vec<&P>, NoMemory>
    ensures { IfOk result (λ v. map (λ p. p.now) v.items ≡ filter_map P.part_of (values_in kept.now.entries)) }
{
    let mut parts = Vec::new(alloc);
    for value in kept.values() {
        if let Some(part) = P::part(value) {
            parts.push(part)?;
        }
    }
    Ok(parts)
}

/// The order of parts by their texts.
fn by_text<P: Part>(a: &P, b: &P) -> Ordering
    ensures { result ≡ slice_cmp nat_cmp (P.text_of a.now) (P.text_of b.now) }
{
    a.text().cmp(b.text())
}

/// Parts in byte order of their texts.
fn in_order<P: Part>(mut parts: Vec<&P>) -> Vec<&P>
    ensures same { IsPermutation (map (λ p. p.now) parts.entry.items) (map (λ p. p.now) result.items) }
    ensures order { IsSortedByKey P.text_of (slice_cmp nat_cmp) (map (λ p. p.now) result.items) }
{
    parts.sort_unstable_by(|a, b| by_text::<P>(a, b));
    parts
}

/// The parts of what is kept, once each in byte order of their texts. The error is want of memory.
pub(crate) fn listed<P: Part>(
    alloc: Global,
    kept: &IndexMap<Text, P::Kept>,
) -> Result<Vec<&P>, NoMemory>
    requires { IsUnderItsOwn P.text_of P.part_of kept.now.entries }
    ensures { IfOk result (λ v. Lists P.text_of (part_at P.part_of kept.now.entries) (map (λ p. p.now) v.items)) }
{
    let _count = kept.len();
    let parts = parts_in(alloc, kept)?;
    Ok(in_order(parts))
}
