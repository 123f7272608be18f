//! Sessions over a store without a table, where each select makes two calls: it reads the clock and lists the log.
ghost use Rattle.std.specs.Prelude.{IfOk};
ghost use Rattle.sessions.specs.Session.{IsReady};

use actor_core::{Till, run_piece};
use edge_api::MemWorld;
use op_types::{Refusal, Reply, Statement};
use row_base::NoMemory;
use sessions::Session;
use std::alloc::{AllocError, Global};
use std::test::Fail;

/// A session of two selects, to be killed after so many answers.
fn two_selects(alloc: Global, kill: Option<u64>) -> Result<Session, NoMemory>
    ensures { IfOk result IsReady }
{
    let mut statements = Vec::with_capacity(alloc, 2)?;
    statements.push(Statement::Select)?;
    statements.push(Statement::Select)?;
    Session::new(alloc, 1, statements, 10, kill)
}

fn word(reply: &Reply) -> &str {
    match reply {
        Reply::Refused(Refusal::NoTable) => "no table; ",
        Reply::Killed => "killed; ",
        _ => "another; ",
    }
}

fn words(alloc: Global, replies: &[Reply]) -> Result<String, AllocError> {
    let mut text = String::new(alloc);
    for reply in replies {
        text.push_str(word(reply))?;
    }
    Ok(text)
}

/// A word for each reply of the session.
fn replies(alloc: Global, kill: Option<u64>) -> Result<String, Fail> {
    let mut world = MemWorld::new(alloc, 1_700_000_000_000);
    let mut session = two_selects(alloc, kill)?;
    run_piece(&mut session, &mut world, Till::End);
    let told = words(alloc, session.replies());
    drop(session);
    Ok(told?)
}

#[test]
fn each_statement_has_its_reply(rt: HostRuntime) -> Result<(), Fail> {
    assert_eq!(rt; replies(rt.alloc(), None)?.as_str(), "no table; no table; ");
    assert_eq!(rt;
        replies(rt.alloc(), Some(4))?.as_str(),
        "no table; no table; "
    );
    Ok(())
}

#[test]
fn a_killed_session_ends_at_once(rt: HostRuntime) -> Result<(), Fail> {
    assert_eq!(rt; replies(rt.alloc(), Some(0))?.as_str(), "killed; ");
    assert_eq!(rt; replies(rt.alloc(), Some(1))?.as_str(), "killed; ");
    assert_eq!(rt;
        replies(rt.alloc(), Some(2))?.as_str(),
        "no table; killed; "
    );
    assert_eq!(rt;
        replies(rt.alloc(), Some(3))?.as_str(),
        "no table; killed; "
    );
    Ok(())
}
