//! Sessions of statements over one table, run in the order of a schedule.
#![tactic(auto)]

ghost use Rattle.std.specs.Prelude.{◌≡◌, ◌≤◌, ◌<◌, ◌+◌, ◌++◌, [], ◌∷◌, length, All, map, IfOk, OnErr, vec_capacity};
ghost use Rattle.row_base.specs.declared.limits.TheConstants.{MAX_ATTEMPTS, MAX_SESSIONS, MAX_STATEMENTS};
ghost use Rattle.edge_api.specs.Actor.{Moves};
ghost use Rattle.actor_core.specs.Schedule.{FollowsSchedule, TakesTurns};
ghost use Rattle.actor_core.specs.Faults.{FaultsAreCounted};
ghost use Rattle.statement_sessions.specs.Session.{IsLimit, IsReady, left, Goes, place_now};
ghost use Rattle.statement_runs.specs.Run.{first_statements, Runs, RunsInOrder, Begins, AllBegin};
ghost use Rattle.statement_runs.specs.Order.{FollowsItems};

use actor_core::{Item, Till, run_piece, run_schedule};
use edge_api::World;
use row_base::{Items, NoMemory};
use statement_sessions::Session;
use statement_types::{SessionReplies, Statement, TableSpec};
use std::alloc::Global;

/// The session of an actor, which is never killed.
fn begin_session(
    alloc: Global,
    actor: u16,
    statements: Vec<Statement>,
    limit: u32,
) -> Result<Session, NoMemory>
    requires limit { IsLimit limit }
    requires few { length statements.items ≤ MAX_STATEMENTS }
    ensures { IfOk result (Begins actor limit statements.items) }
{
    let session = Session::new(alloc, actor, statements, limit, None)?;
    Ok(session)
}

/// The only statement of actor 0, which makes the table, if it is to be made.
fn table_statements(alloc: Global, table: Option<TableSpec>) -> Result<Vec<Statement>, NoMemory>
    ensures { IfOk result (λ statements. statements.items ≡ first_statements table) }
{
    let mut statements = Vec::new(alloc);
    if let Some(spec) = table {
        statements.push(Statement::Table(spec))?;
    }
    Ok(statements)
}

/// The session of actor 0, which makes the table, if it is to be made.
#[tactic(auto, using(crate::proofs::Replies::few_first))]
fn table_session(alloc: Global, table: Option<TableSpec>, limit: u32) -> Result<Session, NoMemory>
    requires { IsLimit limit }
    ensures { IfOk result (Begins 0 limit (first_statements table)) }
{
    let statements = table_statements(alloc, table)?;
    begin_session(alloc, 0, statements, limit)
}

/// A session for each list of statements, with the numbers from 1 on.
fn make_sessions(
    alloc: Global,
    scripts: Vec<Vec<Statement>>,
    limit: u32,
) -> Result<Vec<Session>, NoMemory>
    requires limit { IsLimit limit }
    requires sessions { length scripts.items ≤ MAX_SESSIONS }
    requires statements { All (λ s. length s.items ≤ MAX_STATEMENTS) scripts.items }
    ensures { IfOk result (λ sessions. AllBegin limit 1 (map (λ s. s.items) scripts.items) sessions.items) }
{
    let mut sessions = Vec::with_capacity(alloc, scripts.len())?;
    let mut actor = 1;
    for statements in scripts {
        let session = begin_session(alloc, actor, statements, limit)?;
        sessions.push(session)?;
        actor += 1;
    }
    Ok(sessions)
}

/// Makes the calls of the items, then runs each unfinished session to its end.
fn run_others<W: World>(sessions: &mut Vec<Session>, world: &mut W, items: &[Item])
    requires items { All (λ i. (0 < i.actor) × (i.actor ≤ length sessions.old.items)) items.now }
    requires ready { All IsReady sessions.old.items }
    ensures long { length sessions.new.items ≡ length sessions.old.items }
    ensures ready { All IsReady sessions.new.items }
    ensures done { All (λ s. left s ≡ 0) sessions.new.items }
    ensures follows { FollowsSchedule (Moves Goes (λ s. s.actor)) (λ s. place_now s.current) items.now (W.journal world.old) (W.journal world.new) sessions.old.items sessions.new.items }
    ensures turns { TakesTurns (Moves Goes (λ s. s.actor)) (W.journal world.old) (W.journal world.new) sessions.old.items sessions.new.items }
    ensures counted { FaultsAreCounted (W.journal world.old) (W.journal world.new) (W.faults world.old) (W.faults world.new) }
{
    run_schedule(sessions, world, items);
}

/// Runs the first session to its end, and then the others in the order of the items.
#[tactic(auto, using(actor_core::proofs::Faults::counted_more))]
fn run_all<W: World>(first: &mut Session, others: &mut Vec<Session>, world: &mut W, items: &[Item])
    requires items { All (λ i. (0 < i.actor) × (i.actor ≤ length others.old.items)) items.now }
    requires first { IsReady first.old }
    requires others { All IsReady others.old.items }
    ensures long { length others.new.items ≡ length others.old.items }
    ensures first { IsReady first.new }
    ensures others { All IsReady others.new.items }
    ensures first_done { left first.new ≡ 0 }
    ensures others_done { All (λ s. left s ≡ 0) others.new.items }
    ensures order { RunsInOrder items.now (W.journal world.old) (W.journal world.new) first.old first.new others.old.items others.new.items }
    ensures counted { FaultsAreCounted (W.journal world.old) (W.journal world.new) (W.faults world.old) (W.faults world.new) }
{
    run_piece(first, world, Till::End);
    run_others(others, world, items);
}

/// Adds the replies of each session. It takes no memory.
fn give_replies(replies: &mut Vec<SessionReplies>, sessions: Vec<Session>)
    requires room { length replies.old.items + length sessions.items ≤ vec_capacity replies.old }
    ensures { replies.new.items ≡ replies.old.items ++ map (λ s. s.replies.items) sessions.items }
{
    for session in sessions {
        replies
            .push(Items::from_vec(session.into_replies()))
            .unwrap();
    }
}

/// Runs actor 0, which makes the table unless it is there already, to its end. Then makes the calls of the items, where actor k has the
/// statements of the k-th session, counted from 1, and runs each unfinished session to its end in order. The
/// replies are those of actor 0, then those of each session. The error is want of memory before the first call.
pub fn run_program<W: World>(
    alloc: Global,
    table: Option<TableSpec>,
    sessions: Vec<Vec<Statement>>,
    limit: u32,
    items: &[Item],
    world: &mut W,
) -> Result<Vec<SessionReplies>, NoMemory>
    requires some { 0 < limit }
    requires few { limit ≤ MAX_ATTEMPTS }
    requires sessions { length sessions.items ≤ MAX_SESSIONS }
    requires statements { All (λ s. length s.items ≤ MAX_STATEMENTS) sessions.items }
    requires items { All (λ i. (0 < i.actor) × (i.actor ≤ length sessions.items)) items.now }
    ensures runs { IfOk result (λ replies. Runs (record { table = table; sessions = map (λ s. s.items) sessions.items; limit = limit; items = items.now }) (W.journal world.old) (W.journal world.new) replies.items) }
    ensures follows { IfOk result (λ replies. FollowsItems (record { table = table; sessions = map (λ s. s.items) sessions.items; limit = limit; items = items.now }) (W.journal world.old) (W.journal world.new) replies.items) }
    ensures none { OnErr result (W.journal world.new ≡ W.journal world.old) }
    ensures counted { FaultsAreCounted (W.journal world.old) (W.journal world.new) (W.faults world.old) (W.faults world.new) }
{
    let mut replies = Vec::with_capacity(alloc, sessions.len() + 1)?;
    let mut others = make_sessions(alloc, sessions, limit)?;
    let mut first = table_session(alloc, table, limit)?;
    run_all(&mut first, &mut others, world, items);
    replies.push(Items::from_vec(first.into_replies())).unwrap();
    give_replies(&mut replies, others);
    Ok(replies)
}
