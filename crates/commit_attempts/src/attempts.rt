//! The attempts of a commit, one call of the store after another.
ghost use Rattle.std.specs.Prelude.{◌≡◌, ◌+◌, ◌*◌, ◌<◌, ◌≤◌, [], IsSomeAnd, IfSome, Option};
ghost use Rattle.row_base.specs.declared.limits.TheConstants.{MAX_ATTEMPTS, VERSION_LIMIT};
ghost use Rattle.call_phases.specs.Phases.{Entries};
ghost use Rattle.call_phases.specs.Ending.{Ending};
ghost use Rattle.commit_attempts.specs.Attempts.{Terms, AttemptsEnd};
ghost use Rattle.commit_attempts.specs.declared.fault.Lost.{Lost as ALost};
ghost use Rattle.commit_attempts.specs.declared.fault.Won.{Won as AWon};
ghost use Rattle.commit_attempts.specs.Machine.{first_after, call_of, left_of, IsReady, is_put, RestOf};

use crate::progress::Progress;
use crate::stage::{Stage, ended};
use crate::{AttemptFault, Judge, Lost, Won};
use call_phases::Phase;
use edge_api::{Call, Fed};
use log_actions::Action;
use row_base::Items;
use std::alloc::Global;
use std::mem;

/// The attempts of a commit.
#[derive(Drop)]
pub struct Attempts<J: Judge> {
    pub(crate) alloc: Global,
    pub(crate) judge: J,
    pub(crate) progress: Progress,
    pub(crate) winners: Vec<Items<Action>>,
    stage: Stage<J::Clash>,
    call: Option<Call>,
}

/// The version of the first attempt.
fn first_after(read: Option<u64>) -> u64
    requires { IfSome read (λ version. version < VERSION_LIMIT) }
    ensures { result ≡ first_after read }
{
    match read {
        Some(version) => version + 1,
        None => 0,
    }
}

impl<J: Judge> Attempts<J> {
    /// The attempts of a commit, by a judge, the statement's start and the table's retention in milliseconds, the
    /// read version and the greatest number of attempts. The first one is at the version after the read one, or at 0
    /// where none was read.
    pub fn new(
        alloc: Global,
        judge: J,
        start: u64,
        retention: u64,
        read: Option<u64>,
        limit: u32,
    ) -> Attempts<J>
        requires some { 0 < limit }
        requires most { limit ≤ MAX_ATTEMPTS }
        requires read { IfSome read (λ version. version < VERSION_LIMIT) }
        ensures leads { (es : Entries) (o : Ending (ALost J J.Clash) (AWon J)) → RestOf J.bodies J.judges result es o
            → AttemptsEnd J.bodies J.judges (record { start = start; retention = retention; first = first_after read }) limit 0 [] judge es o }
        ensures ready { IsReady result }
        ensures left { left_of result ≤ 3 * limit }
    {
        let first = first_after(read);
        let progress = Progress {
            start,
            retention,
            first,
            lost: 0,
            left: limit - 1,
        };
        let winners = Vec::new(alloc);
        let stage = Stage::Failed(AttemptFault::NoMemory);
        let mut attempts = Attempts {
            alloc,
            judge,
            progress,
            winners,
            stage,
            call: None,
        };
        let ahead = attempts.at_clock();
        attempts.stage = ahead.stage;
        attempts.call = ahead.call;
        attempts
    }

    /// Whether the next call is the put of a commit.
    pub fn at_put(&self) -> bool
        ensures { result ≡ is_put (call_of self.now) }
    {
        matches!(self.stage, Stage::Put(_))
    }
}

impl<J: Judge> Phase for Attempts<J> {
    type Done = Won<J>;

    type Fault = Lost<J, J::Clash>;

    ghost use Rattle.commit_attempts.specs.Machine.{IsReady, call_of, left_of, RestOf};

    ghost ready = { IsReady };

    ghost call = { call_of };

    ghost left = { left_of };

    ghost rest = { RestOf J.bodies J.judges };

    fn next(&mut self) -> Option<Call> {
        self.call.take()
    }

    fn feed(&mut self, input: Fed) {
        let stage = mem::replace(&mut self.stage, Stage::Failed(AttemptFault::NoMemory));
        self.call = None;
        if let Fed::Answer(answer) = input {
            let ahead = self.after(stage, answer);
            self.stage = ahead.stage;
            self.call = ahead.call;
        }
    }

    fn finish(self) -> Result<Won<J>, Lost<J, J::Clash>> {
        let Attempts {
            judge,
            progress,
            winners,
            stage,
            ..
        } = self;
        match ended(stage, progress.lost + 1, winners) {
            Ok(landed) => Ok(Won { judge, landed }),
            Err(fault) => Err(Lost { judge, fault }),
        }
    }
}
