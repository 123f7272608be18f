//! A script's sessions run over a store.
ghost use Rattle.std.specs.Prelude.{◌≡◌, [], map, IfOk, OnErr};
ghost use Rattle.actor_core.specs.Faults.{FaultsAreCounted};
ghost use Rattle.script_text.specs.Fit.{IsFit};
ghost use Rattle.script_runs.specs.Running.{Ran, names_in, program_of, start};

use edge_api::{MemWorld, World};
use op_types::{SessionReplies, Statement};
use row_base::{NoMemory, Text};
use script_text::{Header, Script, SessionScript};
use session_runs::run_program;
use std::alloc::Global;

/// The clock of a store in memory as a run begins, in milliseconds since 1970.
const START: u64 = 1_700_000_000_000;

/// A store in memory with no objects, as a run begins.
pub fn new_store(alloc: Global) -> MemWorld
    ensures { result ≡ record { journal = []; objects = []; clock = start } }
{
    MemWorld::new(alloc, START)
}

/// The replies of a run: first those of the statement that makes the table, then those of each session, and the names of
/// the sessions in the same order.
#[derive(Drop)]
pub struct ScriptReplies {
    pub names: Vec<Text>,
    pub replies: Vec<SessionReplies>,
}

/// The names and the statements of sessions.
struct Parts {
    names: Vec<Text>,
    statements: Vec<Vec<Statement>>,
}

/// The names of sessions and their statements, each in order. The error is want of memory.
fn split(alloc: Global, sessions: Vec<SessionScript>) -> Result<Parts, NoMemory>
    ensures names { IfOk result (λ p. p.names.items ≡ map (λ s. s.name) sessions.items) }
    ensures statements { IfOk result (λ p. map (λ s. s.items) p.statements.items ≡ map (λ s. s.statements) sessions.items) }
{
    let mut names = Vec::new(alloc);
    let mut statements = Vec::new(alloc);
    for session in sessions {
        names.push(session.name)?;
        statements.push(session.statements.into_vec())?;
    }
    Ok(Parts { names, statements })
}

/// Runs the script's sessions over the store, by its schedule. The error is want of memory before the first call.
pub fn run_script<W: World>(
    alloc: Global,
    script: Script,
    world: &mut W,
) -> Result<ScriptReplies, NoMemory>
    requires { IsFit script }
    ensures names { IfOk result (λ r. r.names.items ≡ names_in script) }
    ensures ran { IfOk result (λ r. Ran (program_of script) (W.journal world.old) (W.journal world.new) r.replies.items) }
    ensures none { OnErr result (W.journal world.new ≡ W.journal world.old) }
    ensures counted { FaultsAreCounted (W.journal world.old) (W.journal world.new) (W.faults world.old) (W.faults world.new) }
{
    let Script {
        attempts,
        header,
        sessions,
        items,
    } = script;
    let Header::Table(table) = header;
    let Parts { names, statements } = split(alloc, sessions.into_vec())?;
    let replies = run_program(alloc, table, statements, attempts, items.as_slice(), world)?;
    Ok(ScriptReplies { names, replies })
}
