//! Statements one after another, as an actor.
ghost use Rattle.std.specs.Prelude.{◌≡◌, ◌<◌, ◌≤◌, ◌+◌, ◌*◌, ◌++◌, ◌∷◌, ℕ, length, List, [], Option, Some, None, Bool, true, if◌then◌else◌, IfOk, IfSome, IsSome, IsTrue, IsFalse, vec_capacity};
ghost use Rattle.row_base.specs.declared.limits.TheConstants.{MAX_STATEMENTS};
ghost use Rattle.call_phases.specs.Phases.{Entries};
ghost use Rattle.statement_types.specs.declared.reply.Reply.{Reply as AReply};
ghost use Rattle.statement_steps.specs.Bounds.{most_calls};
ghost use Rattle.statement_machine.specs.Machine.{left_of};
ghost use Rattle.statement_machine.specs.Place.{place_of};
ghost use Rattle.statement_machine.specs.Txn as txn_specs;
ghost use Rattle.edge_api.specs.declared.actor.Stage.TheVariants as place;
ghost use Rattle.statement_sessions.specs.Session.{plans_from, later_plans, AnsweredTo, RestBy, Stops, Remains, RemainsAfter, progress_of, HasCalls, count_of, Goes, IsLimit, IsDone, IsIdle, IsAlive, Started, count_now, IsSettled, IsReady, Asks, left_now, left, place_now, Begins, IsCounted, IsNew, GoesOn, StaysOrEnds};
ghost use Rattle.statement_sessions.specs.Under.{IsBetween};

use edge_api::{Actor, Fed, Stage as Place, Step, Tag};
use row_base::NoMemory;
use statement_machine::Txn;
use statement_types::{Reply, Statement};
use std::alloc::Global;
use std::collections::VecDeque;

/// Statements one after another under one actor's number. It is an actor itself, and keeps the reply of each statement.
#[derive(Drop)]
pub struct Session {
    alloc: Global,
    actor: u16,
    limit: u32,
    /// The number of the first of the later statements.
    next: u32,
    later: VecDeque<Statement>,
    current: Option<Txn>,
    replies: Vec<Reply>,
    /// After how many more answers it is killed.
    kill: Option<u64>,
}

/// Takes the first of the later statements, under its tag, if there is one.
fn take_first(
    actor: u16,
    next: &mut u32,
    later: &mut VecDeque<Statement>,
) -> Option<(Tag, Statement)>
    requires numbers { next.old + length later.old.items ≤ 1 + MAX_STATEMENTS }
    ensures first { IfSome result (λ first. (limit : ℕ) → plans_from actor limit next.old later.old.items ≡ record { tag = first.0; statement = first.1; limit = limit } ∷ plans_from actor limit next.new later.new.items) }
    ensures tag { IfSome result (λ first. first.0 ≡ record { actor = actor; statement = next.old }) }
    ensures next { IfSome result (λ first. next.new ≡ next.old + 1) }
    ensures fewer { IfSome result (λ first. 1 + length later.new.items ≡ length later.old.items) }
    ensures none { result ≡ None → (later.old.items ≡ []) × (later.new.items ≡ []) × (next.new ≡ next.old) }
{
    let statement = later.pop_front()?;
    let tag = Tag {
        actor,
        statement: *next,
    };
    *next += 1;
    Some((tag, statement))
}

/// A statement that is still to make its first call. It begins with no kept table, so it gets every commit of its version.
fn begin_statement(alloc: Global, tag: Tag, statement: Statement, limit: u32) -> Txn
    requires { IsLimit limit }
    ensures started { Started (record { tag = tag; statement = statement; limit = limit }) result }
    ensures first { IfSome result.pending (λ call. place_of result.stage ≡ place.Between) }
{
    Txn::new(alloc, tag, statement, limit, None)
}

/// Begins the first of the later statements, if there is one.
fn begin(
    alloc: Global,
    actor: u16,
    limit: u32,
    next: &mut u32,
    later: &mut VecDeque<Statement>,
) -> Option<Txn>
    requires limit { IsLimit limit }
    requires numbers { next.old + length later.old.items ≤ 1 + MAX_STATEMENTS }
    ensures begins { Begins (plans_from actor limit next.old later.old.items) (plans_from actor limit next.new later.new.items) result }
    ensures fewer { count_now result + length later.new.items ≡ length later.old.items }
    ensures numbers { next.new + length later.new.items ≤ 1 + MAX_STATEMENTS }
    ensures ready { IfSome result txn_specs.IsReady }
    ensures actor { IfSome result (λ t. t.tag.actor ≡ actor) }
    ensures last { result ≡ None → later.new.items ≡ [] }
    ensures fresh { IfSome result (IsNew next.old next.new) }
    ensures left { left_now result ≤ count_now result * (1 + most_calls) }
{
    let (tag, statement) = take_first(actor, next, later)?;
    Some(begin_statement(alloc, tag, statement, limit))
}

/// Adds the reply of a statement that is done.
fn add_reply(replies: &mut Vec<Reply>, done: Txn)
    requires ready { txn_specs.IsReady done }
    requires done { done.pending ≡ None }
    requires room { length replies.old.items < vec_capacity replies.old }
    ensures replied { IsDone done replies.old.items replies.new.items }
    ensures long { length replies.new.items ≡ length replies.old.items + 1 }
    ensures room { vec_capacity replies.old ≤ vec_capacity replies.new }
{
    replies.push(done.finish().reply).unwrap();
}

/// After how many more answers a session is killed, once it has one more.
fn after_answer(kill: Option<u64>) -> Option<u64>
    requires { HasCalls kill }
    ensures { (n : ℕ) (killed : Bool) → Stops result n killed → Stops kill (1 + n) killed }
{
    Some(kill? - 1)
}

impl Session {
    /// A session of so many statements, at most 4,096, numbered from 1 on, with room for the reply of each. The limit
    /// is that of a statement's attempts. It is killed after so many answers, if it is to be. The error is want of memory.
    pub fn new(
        alloc: Global,
        actor: u16,
        statements: Vec<Statement>,
        limit: u32,
        kill: Option<u64>,
    ) -> Result<Session, NoMemory>
        requires limit { IsLimit limit }
        requires few { length statements.items ≤ MAX_STATEMENTS }
        ensures ready { IfOk result IsReady }
        ensures actor { IfOk result (λ s. s.actor ≡ actor) }
        ensures fresh { IfOk result (λ s. IsBetween actor (progress_of s)) }
        ensures starts { IfOk result (λ s. (es : Entries) (all : List AReply) → Remains s es all → AnsweredTo kill (plans_from actor limit 1 statements.items) es all) }
    {
        let replies = Vec::with_capacity(alloc, statements.len())?;
        let mut session = Session {
            alloc,
            actor,
            limit,
            next: 1,
            later: VecDeque::from_vec(statements),
            current: None,
            replies,
            kill,
        };
        session.start();
        Ok(session)
    }

    /// Sets out with the first statement, if there is one.
    fn start(&mut self)
        requires { IsIdle self.old }
        ensures ready { IsReady self.new }
        ensures actor { self.new.actor ≡ self.old.actor }
        ensures fresh { IsBetween self.old.actor (progress_of self.new) }
        ensures starts { (es : Entries) (all : List AReply) → Remains self.new es all → AnsweredTo self.old.kill (later_plans self.old) es all }
    {
        let first = begin(
            self.alloc,
            self.actor,
            self.limit,
            &mut self.next,
            &mut self.later,
        );
        if let Some(txn) = first {
            self.settle(txn);
            self.check();
        }
    }

    /// The replies so far, one for each statement in order.
    pub fn replies(&self) -> &[Reply]
        ensures { result.now ≡ self.now.replies.items }
    {
        self.replies.as_slice()
    }

    /// The replies, one for each statement in order.
    pub fn into_replies(self) -> Vec<Reply>
        ensures { result.items ≡ self.replies.items }
    {
        let Session {
            current,
            replies,
            ..
        } = self;
        drop(current);
        replies
    }

    /// Whether a statement is under way whose calls may not be answered any more.
    fn is_over(&self) -> bool
        ensures over { IsTrue result → Stops self.now.kill 0 true × IsSome self.now.current }
        ensures alive { IsFalse result → IsAlive self.now.kill self.now.current }
    {
        matches!(self.kill, Some(0)) && self.current.is_some()
    }

    /// Ends the session within the statement that is under way.
    fn end(&mut self)
        requires settled { IsSettled self.old }
        requires some { IsSome self.old.current }
        ensures ready { IsReady self.new }
        ensures actor { self.new.actor ≡ self.old.actor }
        ensures kill { self.new.kill ≡ self.old.kill }
        ensures current { self.new.current ≡ None }
        ensures later { self.new.later.items ≡ [] }
        ensures replies { self.new.replies.items ≡ self.old.replies.items ++ Reply.Killed ∷ [] }
    {
        drop(self.current.take());
        self.replies.push(Reply::Killed).unwrap();
        self.later.clear();
    }

    /// Ends the session where no more calls may be answered.
    fn check(&mut self)
        requires { IsSettled self.old }
        ensures ready { IsReady self.new }
        ensures actor { self.new.actor ≡ self.old.actor }
        ensures now { StaysOrEnds self.old.current self.old.replies.items self.new.current self.new.replies.items }
        ensures remains { (es : Entries) (all : List AReply) → Remains self.new es all → Remains self.old es all }
        ensures falls { left self.new ≤ left self.old }
    {
        if self.is_over() {
            self.end();
        }
    }

    /// Counts an answer.
    fn count(&mut self, heard: bool)
        requires settled { IsSettled self.old }
        requires calls { HasCalls self.old.kill }
        ensures ready { IsReady self.new }
        ensures actor { self.new.actor ≡ self.old.actor }
        ensures now { StaysOrEnds self.old.current self.old.replies.items self.new.current self.new.replies.items }
        ensures remains { (es : Entries) (all : List AReply) → Remains self.new es all → RemainsAfter (if heard then 1 else 0) self.old es all }
        ensures kept { IsFalse heard → (self.new.current ≡ self.old.current) × (self.new.replies.items ≡ self.old.replies.items) }
        ensures falls { left self.new ≤ left self.old }
    {
        if heard {
            self.kill = after_answer(self.kill);
            self.check();
        }
    }

    /// Keeps the reply of a statement that is done, and begins the next.
    fn turn(&mut self, done: Txn) -> Option<Txn>
        requires ready { txn_specs.IsReady done }
        requires done { done.pending ≡ None }
        requires limit { IsLimit self.old.limit }
        requires room { length self.old.replies.items + 1 + length self.old.later.items ≤ vec_capacity self.old.replies }
        requires numbers { self.old.next + length self.old.later.items ≤ 1 + MAX_STATEMENTS }
        ensures ready { IfSome result txn_specs.IsReady }
        ensures tag { IfSome result (λ t. t.tag.actor ≡ self.old.actor) }
        ensures actor { self.new.actor ≡ self.old.actor }
        ensures limit { self.new.limit ≡ self.old.limit }
        ensures kill { self.new.kill ≡ self.old.kill }
        ensures current { self.new.current ≡ self.old.current }
        ensures room { length self.new.replies.items + count_now result + length self.new.later.items ≤ vec_capacity self.new.replies }
        ensures numbers { self.new.next + length self.new.later.items ≤ 1 + MAX_STATEMENTS }
        ensures fewer { count_now result + length self.new.later.items ≡ length self.old.later.items }
        ensures last { result ≡ None → self.new.later.items ≡ [] }
        ensures replied { IsDone done self.old.replies.items self.new.replies.items }
        ensures fresh { IfSome result (IsNew self.old.next self.new.next) }
        ensures left { left_now result ≤ count_now result * (1 + most_calls) }
        ensures turns { (killed : Bool) (es : Entries) (all : List AReply) → RestBy killed self.new.replies.items result (later_plans self.new) es all → RestBy killed self.old.replies.items (Some done) (later_plans self.old) es all }
    {
        add_reply(&mut self.replies, done);
        begin(
            self.alloc,
            self.actor,
            self.limit,
            &mut self.next,
            &mut self.later,
        )
    }

    /// Goes on with a statement, or where it has its reply with the next.
    fn settle(&mut self, txn: Txn)
        requires ready { txn_specs.IsReady txn }
        requires actor { txn.tag.actor ≡ self.old.actor }
        requires limit { IsLimit self.old.limit }
        requires none { self.old.current ≡ None }
        requires room { length self.old.replies.items + 1 + length self.old.later.items ≤ vec_capacity self.old.replies }
        requires numbers { self.old.next + length self.old.later.items ≤ 1 + MAX_STATEMENTS }
        requires counted { IsCounted (Some txn) (length self.old.replies.items) self.old.next }
        ensures settled { IsSettled self.new }
        ensures goes_on { GoesOn txn self.old.replies.items self.new.current self.new.replies.items }
        ensures actor { self.new.actor ≡ self.old.actor }
        ensures kill { self.new.kill ≡ self.old.kill }
        ensures settles { (killed : Bool) (es : Entries) (all : List AReply) → RestBy killed self.new.replies.items self.new.current (later_plans self.new) es all → RestBy killed self.old.replies.items (Some txn) (later_plans self.old) es all }
        ensures falls { left self.new ≤ length self.old.later.items * (1 + most_calls) + left_of txn.stage }
    {
        let mut txn = txn;
        'turns: while txn.pending.is_none() {
            match self.turn(txn) {
                Some(next) => txn = next,
                None => return,
            }
        }
        drop(self.current.replace(txn));
    }
}

fn is_answer(fed: &Fed) -> bool
    ensures { (if result then 1 else 0) ≡ count_of fed.now }
{
    match fed {
        Fed::Answer(_) => true,
        Fed::NoMemory => false,
    }
}

impl Actor for Session {
    ghost ready = { IsReady };

    ghost left = { left };

    ghost number = { λ s. s.actor };

    ghost stands = { λ s. place_now s.current };

    ghost goes = { Goes };

    ghost asks = { Asks };

    fn stage(&self) -> Place {
        match &self.current {
            Some(txn) => txn.stage(),
            None => Place::Done,
        }
    }

    fn next(&mut self) -> Step {
        match &mut self.current {
            Some(txn) => txn.next(),
            None => Step::Done,
        }
    }

    fn feed(&mut self, answer: Fed) {
        if let Some(mut txn) = self.current.take() {
            let heard = is_answer(&answer);
            txn.feed(answer);
            self.settle(txn);
            self.count(heard);
        }
    }
}
