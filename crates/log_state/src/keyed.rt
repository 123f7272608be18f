//! Actions with the texts under which they are kept.
ghost use Rattle.std.specs.Prelude.{◌≡◌, map, length, IfOk};
ghost use Rattle.log_state.specs.Keys as spec;

use log_actions::Action;
use row_base::{NoMemory, Text};
use std::alloc::Global;

/// An action, and the path or the application that it is kept under. All texts are there before the first action is
/// kept, since keeping one can't fail.
#[derive(Debug, Drop)]
pub struct Keyed {
    pub key: Option<Text>,
    pub action: Action,
}

fn key_of(action: &Action) -> Result<Option<Text>, NoMemory>
    ensures { IfOk result (λ key. key ≡ spec.key_of action.now) }
{
    match action {
        Action::Add(add) => Ok(Some(add.path.copy()?)),
        Action::Remove(remove) => Ok(Some(remove.path.copy()?)),
        Action::Txn(txn) => Ok(Some(txn.app_id.copy()?)),
        _ => Ok(None),
    }
}

fn with_key(action: Action) -> Result<Keyed, NoMemory>
    ensures { IfOk result (λ k. k ≡ spec.with_key action) }
{
    let key = key_of(&action)?;
    Ok(Keyed { key, action })
}

/// The actions with their keys, in order.
pub(crate) fn with_keys(alloc: Global, actions: Vec<Action>) -> Result<Vec<Keyed>, NoMemory>
    ensures { IfOk result (λ v. v.items ≡ map spec.with_key actions.items) }
{
    let mut keyed = Vec::with_capacity(alloc, actions.len())?;
    for action in actions {
        keyed.push(with_key(action)?)?;
    }
    Ok(keyed)
}
