//! The text of a commit.
ghost use Rattle.std.specs.Prelude.{◌≡◌, ◌+◌, ◌-◌, ◌<◌, ◌^◌, ◌∷◌, [], length, List, ℕ, IfOk, IfErr, OnOk, MatchResult, Ok};
ghost use Rattle.json_lines.specs.Lines.{lines};
ghost use Rattle.log_actions.specs.Named.{Holds};
ghost use Rattle.log_actions.specs.Commit.{actions_from, actions_of, FaultOf, IsKind};
ghost use Rattle.log_actions.specs.Grammar.{Commit, FirstWrong};
ghost use Rattle.log_actions.specs.Whole.{AreWhole, AreWritten};
ghost use Rattle.log_actions.specs.declared.action.Action.{Action as ActionValue};

use crate::action::Action;
use crate::fault::{LogFault, LogFaultKind};
use crate::line::judge_line;
use crate::named::{Named, nothing_named};
use json_lines::{first_line, is_blank};
use row_base::limits::MAX_OBJECT_BYTES;
use std::alloc::Global;

/// Puts a line's action behind the others.
#[tactic(auto, unfolding(crate::specs::Commit::actions_from))]
fn take_line(
    alloc: Global,
    actions: &mut Vec<Action>,
    named: &mut Named,
    number: u32,
    line: &[u8],
) -> Result<(), LogFault>
    requires { Holds named.old actions.old.items }
    ensures holds { OnOk result (Holds named.new actions.new.items) }
    ensures goes_on { OnOk result ((ls : List (List ℕ))
        → actions_from number actions.old.items (line.now ∷ ls) ≡ actions_from (number + 1) actions.new.items ls) }
    ensures fault { IfErr result (λ f. (ls : List (List ℕ))
        → FaultOf f (actions_from number actions.old.items (line.now ∷ ls))) }
{
    if is_blank(line) {
        return Ok(());
    }
    match judge_line(alloc, named, line) {
        Ok(action) => match actions.push(action) {
            Ok(()) => Ok(()),
            Err(refused) => {
                drop(refused);
                Err(LogFault {
                    line: number,
                    kind: LogFaultKind::NoMemory,
                })
            }
        },
        Err(kind) => Err(LogFault { line: number, kind }),
    }
}

fn take_lines(alloc: Global, bytes: &[u8]) -> Result<Vec<Action>, LogFault>
    requires { length bytes.now < 2 ^ 32 - 1 }
    ensures { MatchResult result (λ v. actions_from 1 [] (lines bytes.now) ≡ Ok v.items)
        (λ f. FaultOf f (actions_from 1 [] (lines bytes.now))) }
{
    let mut actions = Vec::new(alloc);
    let mut named = nothing_named(alloc);
    let mut rest = bytes;
    let mut number = 1u32;
    'lines: while let Some((line, back)) = first_line(rest) {
        take_line(alloc, &mut actions, &mut named, number, line)?;
        rest = back;
        number += 1;
    }
    take_line(alloc, &mut actions, &mut named, number, rest)?;
    Ok(actions)
}

#[tactic(auto, unfolding(crate::specs::Commit::actions_of))]
fn read_exactly(alloc: Global, bytes: &[u8]) -> Result<Vec<Action>, LogFault>
    ensures { MatchResult result (λ v. actions_of bytes.now ≡ Ok v.items) (λ f. FaultOf f (actions_of bytes.now)) }
{
    if bytes.len() > MAX_OBJECT_BYTES {
        return Err(LogFault {
            line: 1,
            kind: LogFaultKind::Shape,
        });
    }
    take_lines(alloc, bytes)
}

/// The actions that the text of a commit says, in order, or its first wrong line. A text of more than 64 MiB is wrong
/// at line 1, and none of it is read. The last line may lack its end, and blank lines are passed over.
pub fn read_commit(alloc: Global, bytes: &[u8]) -> Result<Vec<Action>, LogFault>
    ensures exact { MatchResult result (λ v. actions_of bytes.now ≡ Ok v.items)
        (λ f. FaultOf f (actions_of bytes.now)) }
    ensures says { IfOk result (λ v. Commit bytes.now v.items) }
    ensures only { (actions : List ActionValue) → Commit bytes.now actions
        → MatchResult result (λ v. v.items ≡ actions) (λ f. f.kind ≡ LogFaultKind.NoMemory) }
    ensures wrong { IfErr result (λ f. IsKind f.kind (FirstWrong bytes.now f)) }
{
    read_exactly(alloc, bytes)
}

/// What a text says is whole, but for what isn't written: so what is written of it says it again.
pub fn commits_are_whole()
    ensures { (bytes : List ℕ) (actions : List ActionValue) → Commit bytes actions → AreWritten actions
        → AreWhole [] actions }
{}
