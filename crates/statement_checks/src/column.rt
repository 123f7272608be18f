//! The columns that a statement names.
ghost use Rattle.std.specs.Prelude.{◌≡◌, ◌==◌, ◌<◌, [], true, length, nat_lt, IfOk, IfSome};
ghost use Rattle.std.specs.List.{list_all, list_any};
ghost use Rattle.row_base.specs.Faults.{Reads};
ghost use Rattle.predicates.specs.Binding.{is_memory, place_in, found_in};
ghost use Rattle.statement_checks.specs.Names.{new_place_in, places_once};

use predicates::BindFault;
use row_base::{Column, Items, Kind, Text};
use std::alloc::Global;

/// Where the column of a name stands.
fn place(columns: &[Column], name: &Text) -> Option<usize>
    ensures at { result ≡ place_in columns.now name.now }
    ensures within { IfSome result (λ p. p < length columns.now) }
{
    columns.iter().position(|c| c.name == *name)
}

/// The place and the kind of the column of a name.
pub(crate) fn found(columns: &[Column], name: &Text) -> Result<(u32, Kind), BindFault>
    requires { length columns.now < 65 }
    ensures read { Reads is_memory result (found_in columns.now name.now) }
    ensures within { IfOk result (λ p. p.0 < length columns.now) }
{
    match place(columns, name) {
        Some(place) => Ok((place as u32, columns[place].kind)),
        None => Err(BindFault::Column { name: name.copy()? }),
    }
}

/// That a name may stand once.
pub(crate) fn once(stood: bool, name: &Text) -> Result<(), BindFault>
    ensures { Reads is_memory result (Rattle.statement_checks.specs.Names.once stood name.now) }
{
    if stood {
        Err(BindFault::Twice { name: name.copy()? })
    } else {
        Ok(())
    }
}

/// Whether a place is among these.
fn is_among(places: &[u32], place: u32) -> bool
    ensures { result ≡ list_any (λ b. b == place) places.now }
{
    places.contains(&place)
}

/// The place of the column of a name, which stands at none of the places before.
pub(crate) fn new_place(columns: &[Column], before: &[u32], name: &Text) -> Result<u32, BindFault>
    requires { length columns.now < 65 }
    ensures read { Reads is_memory result (new_place_in columns.now before.now name.now) }
    ensures within { IfOk result (λ p. p < length columns.now) }
{
    let (place, _) = found(columns, name)?;
    once(is_among(before, place), name)?;
    Ok(place)
}

/// The places of columns that are named once each.
#[tactic(auto, unfolding(crate::specs::Names::places_once))]
pub(crate) fn places(
    alloc: Global,
    columns: &[Column],
    names: &[Text],
) -> Result<Items<u32>, BindFault>
    requires { length columns.now < 65 }
    ensures read { Reads is_memory result (places_once columns.now [] names.now) }
    ensures within { IfOk result (λ ps. list_all (λ p. nat_lt p (length columns.now)) ps ≡ true) }
{
    let mut places = Vec::with_capacity(alloc, names.len())?;
    for name in names {
        let place = new_place(columns, places.as_slice(), name)?;
        places.push(place)?;
    }
    Ok(Items::from_vec(places))
}
