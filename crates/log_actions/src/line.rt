//! What a line of a commit says.
ghost use Rattle.std.specs.Prelude.{◌≡◌, ◌++◌, ◌∷◌, [], List, IfOk, OnOk, IfErr, MatchResult, Ok};
ghost use Rattle.serde_json.specs.View.{view};
ghost use Rattle.log_actions.specs.declared.action.Action.{Action as ActionValue};
ghost use Rattle.log_actions.specs.Actions as spec;
ghost use Rattle.log_actions.specs.Named.{Holds};
ghost use Rattle.log_actions.specs.Commit.{judged, judged_member, admitted, KindOf};

use crate::action::Action;
use crate::fault::{Feature, LogFaultKind};
use crate::named::{Named, note_action};
use crate::path::is_absolute;
use crate::read::read_action;
use json_lines::{ShapeFault, present, read_object, single_member};
use row_base::Text;
use serde_json::Value;
use std::alloc::Global;

fn file_feature(body: &Value, path: &Text) -> Option<Feature>
    ensures { result ≡ spec.file_feature (view body.now) path.now }
{
    if is_absolute(path.as_str()) {
        Some(Feature::AbsolutePath)
    } else if present(body, "deletionVector").is_some() {
        Some(Feature::DeletionVector)
    } else {
        None
    }
}

fn path_feature(path: &Text) -> Option<Feature>
    ensures { result ≡ spec.path_feature path.now }
{
    if is_absolute(path.as_str()) {
        Some(Feature::AbsolutePath)
    } else {
        None
    }
}

#[tactic(auto, unfolding(crate::specs::Actions::feature_in))]
fn feature_in(body: &Value, action: &Action) -> Option<Feature>
    ensures { result ≡ spec.feature_in (view body.now) action.now }
{
    match action {
        Action::Add(add) => file_feature(body, &add.path),
        Action::Remove(remove) => file_feature(body, &remove.path),
        Action::Sidecar(sidecar) => path_feature(&sidecar.path),
        _ => None,
    }
}

/// Notes an action behind the others, where it may stand there.
#[tactic(auto, using(crate::proofs::Judging::twice_is, crate::proofs::Names::holds_on))]
fn admit(named: &mut Named, body: &Value, action: &Action) -> Result<(), LogFaultKind>
    ensures ok { OnOk result ((earlier : List ActionValue) → Holds named.old earlier
        → admitted earlier (view body.now) action.now ≡ Ok action.now) }
    ensures fault { IfErr result (λ k. (earlier : List ActionValue) → Holds named.old earlier
        → KindOf k (admitted earlier (view body.now) action.now)) }
    ensures holds { OnOk result ((earlier : List ActionValue) → Holds named.old earlier
        → Holds named.new (earlier ++ action.now ∷ [])) }
{
    if !note_action(named, action)? {
        return Err(LogFaultKind::Twice);
    }
    match feature_in(body, action) {
        Some(feature) => Err(LogFaultKind::Unsupported(feature)),
        None => Ok(()),
    }
}

fn judge_member(
    alloc: Global,
    named: &mut Named,
    name: &str,
    body: &Value,
) -> Result<Action, LogFaultKind>
    ensures judged { (earlier : List ActionValue) → Holds named.old earlier
        → MatchResult result (λ a. judged_member earlier name.now (view body.now) ≡ Ok a)
        (λ k. KindOf k (judged_member earlier name.now (view body.now))) }
    ensures holds { IfOk result (λ a. (earlier : List ActionValue) → Holds named.old earlier
        → Holds named.new (earlier ++ a ∷ [])) }
{
    let action = match read_action(alloc, name, body) {
        Ok(action) => action,
        Err(ShapeFault::Shape) => return Err(LogFaultKind::Shape),
        Err(ShapeFault::NoMemory) => return Err(LogFaultKind::NoMemory),
    };
    match admit(named, body, &action) {
        Ok(()) => Ok(action),
        Err(kind) => {
            drop(action);
            Err(kind)
        }
    }
}

#[tactic(auto, unfolding(crate::specs::Commit::judged))]
pub(crate) fn judge_line(
    alloc: Global,
    named: &mut Named,
    line: &[u8],
) -> Result<Action, LogFaultKind>
    ensures judged { (earlier : List ActionValue) → Holds named.old earlier
        → MatchResult result (λ a. judged earlier line.now ≡ Ok a) (λ k. KindOf k (judged earlier line.now)) }
    ensures holds { IfOk result (λ a. (earlier : List ActionValue) → Holds named.old earlier
        → Holds named.new (earlier ++ a ∷ [])) }
{
    let object = match read_object(alloc, line) {
        Ok(object) => object,
        Err(ShapeFault::Shape) => return Err(LogFaultKind::Json),
        Err(ShapeFault::NoMemory) => return Err(LogFaultKind::NoMemory),
    };
    match single_member(&object) {
        Some((name, body)) => judge_member(alloc, named, name, body),
        None => Err(LogFaultKind::Shape),
    }
}
