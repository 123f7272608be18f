//! The steps of the attempts: what comes after each answer.
ghost use Rattle.std.specs.Prelude.{◌≡◌, ◌+◌, ◌*◌, ◌<◌, ◌≤◌, IsSomeAnd, IfSome, Option};
ghost use Rattle.row_base.specs.declared.limits.TheConstants.{LAST_TIME};
ghost use Rattle.edge_api.specs.Journal.{IsOfKind};
ghost use Rattle.call_phases.specs.Phases.{Entries};
ghost use Rattle.call_phases.specs.Ending.{Ending};
ghost use Rattle.commit_attempts.specs.declared.fault.Lost.{Lost};
ghost use Rattle.commit_attempts.specs.declared.fault.Won.{Won};
ghost use Rattle.commit_attempts.specs.Machine.{call_at, left_at, EndAfter, RestBy, Leads};
ghost use Rattle.commit_attempts.specs.Steps.{ClockBy, InTimeBy, PutBy, JudgedBy, JudgeSaysBy};

use crate::progress::Commit;
use crate::stage::{Put, Stage};
use crate::{AttemptFault, Attempts, BodyFault, Judge, Verdict};
use call_phases::{Reading, Ready};
use edge_api::{Answer, Body, Call, CallKind};
use log_actions::{Action, read_commit};
use row_base::Items;

impl<J: Judge> Attempts<J> {
    ghost use Rattle.edge_api.specs.declared.call.Call.TheVariants as call;

    /// The clock is read for an attempt.
    pub(crate) fn at_clock(&self) -> Ready<Stage<J::Clash>>
        ensures ready { result.call ≡ call_at result.stage }
        ensures falls { left_at self.now.progress result.stage ≤ 3 * self.now.progress.left + 3 }
        ensures leads { (es : Entries) (o : Ending (Lost J J.Clash) (Won J)) → RestBy J.bodies J.judges self.now result.stage es o → ClockBy J.bodies J.judges self.now es o }
    {
        match Reading::make(self.alloc) {
            Ok(reading) => Ready {
                stage: Stage::Clock(reading),
                call: Some(Call::Now),
            },
            Err(_) => Stage::failed(AttemptFault::NoMemory),
        }
    }

    /// The commit is put with this text.
    fn at_put_of(&self, now: u64, text: Body) -> Ready<Stage<J::Clash>>
        ensures ready { result.call ≡ call_at result.stage }
        ensures falls { left_at self.now.progress result.stage ≤ 3 * self.now.progress.left + 2 }
        ensures leads { (es : Entries) (o : Ending (Lost J J.Clash) (Won J)) → RestBy J.bodies J.judges self.now result.stage es o → PutBy J.bodies J.judges self.now now text es o }
    {
        match Put::make(self.alloc, self.progress.version(), text, now) {
            Ok((put, call)) => Ready {
                stage: Stage::Put(put),
                call: Some(call),
            },
            Err(_) => Stage::failed(AttemptFault::NoMemory),
        }
    }

    /// The attempt that is made was lost to this winner: the next one may come.
    fn lost_to(&mut self, winner: Items<Action>) -> Ready<Stage<J::Clash>>
        ensures ready { result.call ≡ call_at result.stage }
        ensures falls { left_at self.new.progress result.stage < 3 * self.old.progress.left + 1 }
        ensures leads { (es : Entries) (o : Ending (Lost J J.Clash) (Won J)) → RestBy J.bodies J.judges self.new result.stage es o
            → EndAfter J.bodies J.judges self.old.progress self.old.winners.items o winner self.old.judge es }
    {
        if self.progress.left == 0 {
            let lost = self.progress.lost + 1;
            return Stage::failed(AttemptFault::TooManyAttempts { lost });
        }
        self.progress.left -= 1;
        self.progress.lost += 1;
        let Ok(()) = self.winners.push(winner) else {
            return Stage::failed(AttemptFault::NoMemory);
        };
        self.at_clock()
    }

    /// After a reading of the clock the commit is put, unless it comes too late.
    fn attempt_at(&mut self, now: u64) -> Ready<Stage<J::Clash>>
        requires { now ≤ LAST_TIME }
        ensures ready { result.call ≡ call_at result.stage }
        ensures falls { left_at self.new.progress result.stage < 3 * self.old.progress.left + 3 }
        ensures leads { (es : Entries) (o : Ending (Lost J J.Clash) (Won J)) → RestBy J.bodies J.judges self.new result.stage es o → InTimeBy J.bodies J.judges self.old now es o }
    {
        if self.progress.outlasts(now) {
            let start = self.progress.start;
            return Stage::failed(AttemptFault::Outlasted { start, now });
        }
        match self.judge.body(now) {
            Ok(text) => self.at_put_of(now, text),
            Err(BodyFault::NoMemory) => Stage::failed(AttemptFault::NoMemory),
            Err(BodyFault::TooLarge { bytes }) => Stage::failed(AttemptFault::TooLarge { bytes }),
        }
    }

    /// The commit that won is judged by its actions.
    fn judged_by(&mut self, commit: Commit, actions: Items<Action>) -> Ready<Stage<J::Clash>>
        ensures ready { result.call ≡ call_at result.stage }
        ensures falls { left_at self.new.progress result.stage < 3 * self.old.progress.left + 1 }
        ensures leads { (es : Entries) (o : Ending (Lost J J.Clash) (Won J)) → RestBy J.bodies J.judges self.new result.stage es o
            → JudgeSaysBy J.bodies J.judges self.old commit.version actions es o }
    {
        let winner = commit.version;
        match self.judge.judge(actions) {
            Ok(Verdict::Clear(actions)) => self.lost_to(actions),
            Ok(Verdict::Clash(clash)) => Stage::failed(AttemptFault::Conflict { winner, clash }),
            Err(fault) => Stage::failed(AttemptFault::of_judge(commit.name, fault)),
        }
    }

    /// The commit that won is read and judged.
    fn judged(&mut self, commit: Commit, body: Body) -> Ready<Stage<J::Clash>>
        ensures ready { result.call ≡ call_at result.stage }
        ensures falls { left_at self.new.progress result.stage < 3 * self.old.progress.left + 1 }
        ensures leads { (es : Entries) (o : Ending (Lost J J.Clash) (Won J)) → RestBy J.bodies J.judges self.new result.stage es o
            → JudgedBy J.bodies J.judges self.old commit.version body es o }
    {
        match read_commit(self.alloc, body.as_bytes()) {
            Ok(actions) => self.judged_by(commit, Items::from_vec(actions)),
            Err(fault) => Stage::failed(AttemptFault::of_commit(commit.name, fault)),
        }
    }

    /// What comes after a reading of the clock.
    fn after_clock(&mut self, reading: Reading, answer: Answer) -> Ready<Stage<J::Clash>>
        requires { IsOfKind call.Now answer }
        ensures ready { result.call ≡ call_at result.stage }
        ensures falls { left_at self.new.progress result.stage < 3 * self.old.progress.left + 3 }
        ensures leads { Leads J.bodies J.judges self.old (Stage.Clock reading) call.Now answer self.new result.stage }
    {
        match answer {
            Answer::Time(now) => self.attempt_at(now),
            _ => Stage::failed(AttemptFault::Fault {
                call: reading.called,
            }),
        }
    }

    /// What comes after a put of the commit.
    fn after_put(&mut self, put: Put, answer: Answer) -> Ready<Stage<J::Clash>>
        requires { IsOfKind (call.PutNew put.commit.name put.text) answer }
        ensures ready { result.call ≡ call_at result.stage }
        ensures falls { left_at self.new.progress result.stage < 3 * self.old.progress.left + 2 }
        ensures leads { Leads J.bodies J.judges self.old (Stage.Put put) (call.PutNew put.commit.name put.text) answer self.new result.stage }
    {
        match answer {
            Answer::Stored => Stage::landed(put),
            Answer::Taken => Stage::or_no_memory(Stage::winner(put.commit)),
            _ => Stage::or_no_memory(Stage::read_back(put)),
        }
    }

    /// What comes after the commit is read back.
    fn after_read_back(&mut self, put: Put, answer: Answer) -> Ready<Stage<J::Clash>>
        requires { IsOfKind (call.Get put.commit.name) answer }
        ensures ready { result.call ≡ call_at result.stage }
        ensures falls { left_at self.new.progress result.stage < 3 * self.old.progress.left + 1 }
        ensures leads { Leads J.bodies J.judges self.old (Stage.ReadBack put) (call.Get put.commit.name) answer self.new result.stage }
    {
        match answer {
            Answer::Body(found) => {
                if found.as_bytes() == put.text.as_bytes() {
                    Stage::landed(put)
                } else {
                    self.judged(put.commit, found)
                }
            }
            Answer::Missing => Stage::failed(put.commit.faulted(CallKind::PutNew)),
            _ => Stage::failed(AttemptFault::OutcomeUnknown {
                version: put.commit.version,
            }),
        }
    }

    /// What comes after the commit that won is got.
    fn after_winner(&mut self, commit: Commit, answer: Answer) -> Ready<Stage<J::Clash>>
        requires { IsOfKind (call.Get commit.name) answer }
        ensures ready { result.call ≡ call_at result.stage }
        ensures falls { left_at self.new.progress result.stage < 3 * self.old.progress.left + 1 }
        ensures leads { Leads J.bodies J.judges self.old (Stage.Winner commit) (call.Get commit.name) answer self.new result.stage }
    {
        match answer {
            Answer::Body(winner) => self.judged(commit, winner),
            Answer::Missing => Stage::failed(AttemptFault::LogGone { name: commit.name }),
            _ => Stage::failed(commit.faulted(CallKind::Get)),
        }
    }

    /// What comes after the call of a stage.
    pub(crate) fn after(&mut self, stage: Stage<J::Clash>, answer: Answer) -> Ready<Stage<J::Clash>>
        requires { IsSomeAnd (call_at stage) (λ call. IsOfKind call answer) }
        ensures ready { result.call ≡ call_at result.stage }
        ensures falls { left_at self.new.progress result.stage < left_at self.old.progress stage }
        ensures leads { IfSome (call_at stage) (λ call. Leads J.bodies J.judges self.old stage call answer self.new result.stage) }
    {
        match stage {
            Stage::Clock(reading) => self.after_clock(reading, answer),
            Stage::Put(put) => self.after_put(put, answer),
            Stage::ReadBack(put) => self.after_read_back(put, answer),
            Stage::Winner(commit) => self.after_winner(commit, answer),
            Stage::Landed { .. } | Stage::Failed(_) => unreachable!(),
        }
    }
}
