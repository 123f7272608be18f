//! A script is run and its replies are printed.
ghost use Rattle.std.specs.Prelude.{IfOk, OnErr};
ghost use Rattle.actor_core.specs.Faults.{FaultsAreCounted};
ghost use Rattle.script_text.specs.Fit.{IsFit};
ghost use Rattle.script_runs.specs.Running.{program_of};
ghost use Rattle.delta_run.specs.Play.{Plays, MayRun};

use edge_api::World;
use report::print_replies;
use row_base::NoMemory;
use script_runs::{ScriptReplies, run_script};
use script_text::Script;
use std::alloc::Global;

/// Runs the script's sessions over the store, and gives the text of the replies. The error is want of memory.
pub fn play<W: World>(alloc: Global, script: Script, world: &mut W) -> Result<Vec<u8>, NoMemory>
    requires { IsFit script }
    ensures ok { IfOk result (λ text. Plays script (W.journal world.old) (W.journal world.new) text.items) }
    ensures err { OnErr result (MayRun (program_of script) (W.journal world.old) (W.journal world.new)) }
    ensures counted { FaultsAreCounted (W.journal world.old) (W.journal world.new) (W.faults world.old) (W.faults world.new) }
{
    let ScriptReplies { names, replies } = run_script(alloc, script, world)?;
    print_replies(alloc, &names, &replies)
}
