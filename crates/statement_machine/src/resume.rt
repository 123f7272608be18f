//! A stage that goes on in its place.
ghost use Rattle.std.specs.Prelude.{◌≡◌, ◌<◌, ◌≤◌, true, None, IsSome, IsSomeAnd, IfSome};
ghost use Rattle.edge_api.specs.Actor.{IsFit};
ghost use Rattle.call_phases.specs.Machine.{Covers, Goes, Leads, LeftBy, Stops};

use call_phases::{Phase, Ready, Stages};
use edge_api::{Answer, Call, Fed};
use std::mem;

/// Where a statement stands, which goes on with what it is fed.
pub trait Resumes: Stages {
    /// Its phase waits for no answer.
    ghost rests: { Self → Type 0 };

    /// A stage that stands in while another one ends.
    fn idle() -> Self;

    /// The phase goes on with the answer to its call, in its place. The next call, or none where the phase has ended.
    fn go_on(&mut self, answer: Answer) -> Option<Call>
        requires { IsSomeAnd (Self.call_of self.old) (λ call. IsFit call (Fed.Answer answer)) }
        ensures call { result ≡ Self.call_of self.new }
        ensures rests { result ≡ None → Self.rests self.new }
        ensures settled { IsSome result → Self.is_settled self.new ≡ true }
        ensures leads { IfSome (Self.call_of self.old) (λ call. Leads Self.may self.old call answer self.new) }
        ensures falls { Self.left_of self.new < Self.left_of self.old }
        ensures some { IsSome result → 0 < Self.left_of self.new };

    /// What comes after the phase, which has ended.
    fn ended(self) -> Ready<Self>
        requires { Self.rests self }
        ensures ready { result.call ≡ Self.call_of result.stage }
        ensures settled { Self.is_settled result.stage ≡ true }
        ensures covers { Covers Self.may self result.stage }
        ensures left { Self.left_of result.stage ≤ Self.left_of self }
        ensures some { LeftBy (Self.left_of result.stage) result.call };

    /// Memory was wanting for the call of the phase.
    fn out_of_memory(self) -> Ready<Self>
        requires { IsSome (Self.call_of self) }
        ensures ready { result.call ≡ Self.call_of result.stage }
        ensures settled { Self.is_settled result.stage ≡ true }
        ensures stops { Stops Self.may self result.stage }
        ensures ended { result.call ≡ None }
        ensures falls { Self.left_of result.stage < Self.left_of self }
        ensures some { LeftBy (Self.left_of result.stage) result.call };
}

/// A phase goes on with the answer to its call. The next call, or none where it has ended.
pub fn advance<P: Phase>(part: &mut P, answer: Answer) -> Option<Call>
    requires { IsSomeAnd (P.call part.old) (λ call. IsFit call (Fed.Answer answer)) }
    ensures call { result ≡ P.call part.new }
    ensures ready { result ≡ None → P.ready part.new }
    ensures leads { IfSome (P.call part.old) (λ call. Leads P.rest part.old call answer part.new) }
    ensures falls { P.left part.new < P.left part.old }
    ensures some { LeftBy (P.left part.new) result }
{
    part.feed(Fed::Answer(answer));
    part.next()
}

/// The stage goes on with an answer. Its next call.
fn answered<S: Resumes>(stage: &mut S, answer: Answer) -> Option<Call>
    requires { IsSomeAnd (S.call_of stage.old) (λ call. IsFit call (Fed.Answer answer)) }
    ensures ready { result ≡ S.call_of stage.new }
    ensures settled { S.is_settled stage.new ≡ true }
    ensures leads { IfSome (S.call_of stage.old) (λ call. Leads S.may stage.old call answer stage.new) }
    ensures falls { S.left_of stage.new < S.left_of stage.old }
    ensures some { LeftBy (S.left_of stage.new) result }
{
    if let Some(call) = stage.go_on(answer) {
        return Some(call);
    }
    let ready = mem::replace(stage, S::idle()).ended();
    *stage = ready.stage;
    ready.call
}

/// Memory was wanting for the call of the stage: nothing is called any more.
fn unanswered<S: Resumes>(stage: &mut S)
    requires { IsSome (S.call_of stage.old) }
    ensures ended { S.call_of stage.new ≡ None }
    ensures settled { S.is_settled stage.new ≡ true }
    ensures stops { Stops S.may stage.old stage.new }
    ensures falls { S.left_of stage.new < S.left_of stage.old }
    ensures some { LeftBy (S.left_of stage.new) None }
{
    let ready = mem::replace(stage, S::idle()).out_of_memory();
    *stage = ready.stage;
}

/// The stage goes on, and its next call is made ready.
pub fn resume<S: Resumes>(stage: &mut S, pending: &mut Option<Call>, input: Fed)
    requires { IsSomeAnd (S.call_of stage.old) (λ call. IsFit call input) }
    ensures ready { pending.new ≡ S.call_of stage.new }
    ensures settled { S.is_settled stage.new ≡ true }
    ensures goes { IfSome (S.call_of stage.old) (λ call. Goes S.may stage.old call input stage.new) }
    ensures memory { input ≡ Fed.NoMemory → S.call_of stage.new ≡ None }
    ensures falls { S.left_of stage.new < S.left_of stage.old }
    ensures some { LeftBy (S.left_of stage.new) pending.new }
{
    match input {
        Fed::Answer(answer) => *pending = answered(stage, answer),
        Fed::NoMemory => {
            unanswered(stage);
            *pending = None;
        }
    }
}
