//! Attempts against answers that are given one after another, with the calls worked out by hand.
ghost use Rattle.std.specs.Prelude.{◌≡◌, ◌<◌, ◌≤◌, ◌^◌, IsTrue, IfSome};
ghost use Rattle.edge_api.specs.Actor.{IsFit};
ghost use Rattle.committer.specs.Machine.{IsReady};

use call_phases::Phase;
use committer::{AttemptFault, Attempts, BodyFault, Judge, Landed, Verdict};
use edge_api::{Answer, Body, Call, Fed, Name};
use row_base::NoMemory;
use std::alloc::{AllocError, Global};
use std::test::Fail;
use table_rules::{LogName, read_log_name};

/// A judge that passes so many winners, and writes no text after so many milliseconds.
#[derive(Drop)]
struct Passing {
    alloc: Global,
    passes: u64,
    until: u64,
}

fn body_of(alloc: Global, text: &str) -> Result<Body, NoMemory> {
    Body::make(alloc, text.as_bytes().to_vec(alloc)?)
}

fn text_at(alloc: Global, now: u64) -> Result<Body, NoMemory> {
    let text = format!(in alloc; "at {now}")?;
    body_of(alloc, text.as_str())
}

impl Judge for Passing {
    ghost use Rattle.std.specs.Prelude.{◌≡◌, ◌+◌, ◌<◌, ◌≤◌};
    ghost use Rattle.committer.specs.Attempts.{OnBody, OnVerdict};

    type Clash = u64;

    ghost bodies = { λ old now made new. OnBody made (now ≤ old.until) (λ bytes. old.until < now) (λ text. now ≤ old.until) };

    ghost judges = { λ old winner v new. OnVerdict v (old.passes ≡ new.passes + 1) (λ c. old.passes ≡ 0) };

    fn body(&mut self, now: u64) -> Result<Body, BodyFault> {
        if self.until < now {
            return Err(BodyFault::TooLarge { bytes: now });
        }
        match text_at(self.alloc, now) {
            Ok(text) => Ok(text),
            Err(_) => Err(BodyFault::NoMemory),
        }
    }

    fn judge(&mut self, winner: Body) -> Verdict<u64> {
        if self.passes == 0 {
            return Verdict::Clash(7);
        }
        self.passes -= 1;
        Verdict::Clear(winner)
    }
}

/// An answer, or want of memory.
#[derive(Clone, Copy)]
enum Say {
    Fault,
    Time(u64),
    Stored,
    Taken,
    Missing,
    Got(&'static str),
    NoMemory,
}

fn fed(alloc: Global, say: Say) -> Result<Fed, NoMemory> {
    match say {
        Say::Fault => Ok(Fed::Answer(Answer::Fault)),
        Say::Time(time) => Ok(Fed::Answer(Answer::Time(time))),
        Say::Stored => Ok(Fed::Answer(Answer::Stored)),
        Say::Taken => Ok(Fed::Answer(Answer::Taken)),
        Say::Missing => Ok(Fed::Answer(Answer::Missing)),
        Say::Got(text) => Ok(Fed::Answer(Answer::Body(body_of(alloc, text)?))),
        Say::NoMemory => Ok(Fed::NoMemory),
    }
}

fn fits(call: &Call, input: &Fed) -> bool
    ensures { IsTrue result → IsFit call.now input.now }
{
    match (call, input) {
        (_, Fed::NoMemory) => true,
        (_, Fed::Answer(Answer::Fault)) => true,
        (Call::Now, Fed::Answer(Answer::Time(time))) => *time <= 1 << 61,
        (Call::Get(_), Fed::Answer(Answer::Body(_))) => true,
        (Call::Get(_), Fed::Answer(Answer::Missing)) => true,
        (Call::PutNew(_, _), Fed::Answer(Answer::Stored)) => true,
        (Call::PutNew(_, _), Fed::Answer(Answer::Taken)) => true,
        _ => false,
    }
}

fn version_of(name: &Name) -> u64 {
    match read_log_name(name) {
        LogName::Commit(version) => version,
        _ => u64::MAX,
    }
}

fn str_of(body: &Body) -> &str {
    str::from_utf8(body.as_bytes()).unwrap_or("?")
}

/// Notes a call, a commit put with a mark. Where memory is wanting it is left out, and the text isn't the one that is
/// wanted.
fn note(text: &mut String, at_put: bool, call: &Call) {
    if at_put {
        text.push_str("!").ok();
    }
    match call {
        Call::Now => text.push_str("now; ").ok(),
        Call::Get(name) => write!(text, "get {}; ", version_of(name)).ok(),
        Call::PutNew(name, body) => {
            write!(text, "put {} {}; ", version_of(name), str_of(body)).ok()
        }
        _ => text.push_str("another; ").ok(),
    };
}

/// The answer to a call, where it fits.
fn answer_to(alloc: Global, call: &Call, say: Say) -> Fed
    ensures { IsFit call.now result }
{
    match fed(alloc, say) {
        Ok(input) => {
            if fits(call, &input) {
                input
            } else {
                Fed::NoMemory
            }
        }
        Err(_) => Fed::NoMemory,
    }
}

fn turn(alloc: Global, attempts: &mut Attempts<Passing>, say: Say, text: &mut String)
    requires { IsReady attempts.old }
    ensures { IsReady attempts.new }
{
    let at_put = attempts.at_put();
    let Some(call) = attempts.next() else {
        return;
    };
    note(text, at_put, &call);
    attempts.feed(answer_to(alloc, &call, say));
}

/// Makes the calls, with these answers.
fn turns(alloc: Global, attempts: &mut Attempts<Passing>, says: &[Say], text: &mut String)
    requires { IsReady attempts.old }
    ensures { IsReady attempts.new }
{
    for say in says {
        turn(alloc, attempts, *say, text);
    }
}

fn fault_text(alloc: Global, fault: AttemptFault<u64>) -> Result<String, AllocError> {
    match fault {
        AttemptFault::Conflict { winner, clash } => {
            format!(in alloc; "conflict {winner} {clash}")
        }
        AttemptFault::TooManyAttempts { lost } => format!(in alloc; "attempts {lost}"),
        AttemptFault::Outlasted { start, now } => format!(in alloc; "outlasted {start} {now}"),
        AttemptFault::Fault { call } => {
            format!(in alloc; "fault {:?} {}", call.kind, call.name.as_str())
        }
        AttemptFault::OutcomeUnknown { version } => format!(in alloc; "unknown {version}"),
        AttemptFault::NoMemory => String::from_str(alloc, "no memory"),
        AttemptFault::LogGone { name } => format!(in alloc; "log gone {}", version_of(&name)),
        AttemptFault::TooLarge { bytes } => format!(in alloc; "too large {bytes}"),
    }
}

fn landed_text(alloc: Global, landed: Landed) -> Result<String, AllocError> {
    let version = landed.version;
    let attempts = landed.attempts;
    let now = landed.now;
    let mut text = format!(in alloc; "landed {version} attempts {attempts} now {now}")?;
    for winner in landed.winners.as_slice() {
        write!(text, " {}", str_of(winner))?;
    }
    Ok(text)
}

/// What the attempts are told, the answers that are given, and what is wanted.
#[derive(Clone, Copy)]
struct Row {
    read: Option<u64>,
    retention: u64,
    limit: u32,
    passes: u64,
    says: &'static [Say],
    wanted: &'static str,
}

fn is_right(row: Row) -> bool
    ensures some { IsTrue result → 0 < row.limit }
    ensures most { IsTrue result → row.limit ≤ 1000000 }
    ensures read { IsTrue result → IfSome row.read (λ version. version < 2 ^ 20) }
{
    let low = match row.read {
        Some(version) => version < 1 << 20,
        None => true,
    };
    low && 0 < row.limit && row.limit <= 1_000_000
}

/// How the attempts ended, or that they are open.
fn end_of(alloc: Global, mut attempts: Attempts<Passing>) -> Result<String, AllocError>
    requires { IsReady attempts }
{
    if attempts.next().is_some() {
        drop(attempts);
        return String::from_str(alloc, "open");
    }
    match attempts.finish() {
        Ok(won) => landed_text(alloc, won.landed),
        Err(lost) => fault_text(alloc, lost.fault),
    }
}

/// The calls, and how the attempts ended. They start at 1000, and no text is written after 2000.
fn run(alloc: Global, row: Row) -> Result<String, NoMemory> {
    let mut text = String::new(alloc);
    if !is_right(row) {
        return Ok(text);
    }
    let judge = Passing {
        alloc,
        passes: row.passes,
        until: 2000,
    };
    let mut attempts = Attempts::new(alloc, judge, 1000, row.retention, row.read, row.limit);
    turns(alloc, &mut attempts, row.says, &mut text);
    let ended = end_of(alloc, attempts)?;
    text.push_str(ended.as_str())?;
    Ok(text)
}

/// Read version 0, a retention of a week, 1000 attempts, and nine winners that pass.
fn usual(says: &'static [Say], wanted: &'static str) -> Row {
    Row {
        read: Some(0),
        retention: 604_800_000,
        limit: 1000,
        passes: 9,
        says,
        wanted,
    }
}

/// What was told in place of what is wanted, row by row.
fn wrong(alloc: Global, rows: &[Row]) -> Result<String, NoMemory> {
    let mut text = String::new(alloc);
    for row in rows {
        let told = run(alloc, *row)?;
        if told.as_str() != row.wanted {
            text.push_str(told.as_str())?;
        }
    }
    Ok(text)
}

#[test]
fn commits_land(rt: HostRuntime) -> Result<(), Fail> {
    use Say::*;
    let at_once = usual(
        &[Time(1000), Stored],
        "now; !put 1 at 1000; landed 1 attempts 1 now 1000",
    );
    let unread = Row {
        read: None,
        wanted: "now; !put 0 at 1000; landed 0 attempts 1 now 1000",
        ..at_once
    };
    let lost_once = usual(
        &[Time(1000), Taken, Got("one"), Time(1001), Stored],
        "now; !put 1 at 1000; get 1; now; !put 2 at 1001; landed 2 attempts 2 now 1001 one",
    );
    let limited = Row {
        limit: 2,
        ..lost_once
    };
    let rows = [at_once, unread, lost_once, limited];
    assert_eq!(rt; wrong(rt.alloc(), &rows)?.as_str(), "");
    Ok(())
}

#[test]
fn lost_replies_are_read_back(rt: HostRuntime) -> Result<(), Fail> {
    use Say::*;
    let rows = [
        usual(
            &[Time(1000), Fault, Got("at 1000")],
            "now; !put 1 at 1000; get 1; landed 1 attempts 1 now 1000",
        ),
        usual(
            &[Time(1000), Fault, Got("one"), Time(1001), Stored],
            "now; !put 1 at 1000; get 1; now; !put 2 at 1001; landed 2 attempts 2 now 1001 one",
        ),
        usual(
            &[Time(1000), Fault, Missing],
            "now; !put 1 at 1000; get 1; fault PutNew _delta_log/00000000000000000001.json",
        ),
        usual(
            &[Time(1000), Fault, Fault],
            "now; !put 1 at 1000; get 1; unknown 1",
        ),
    ];
    assert_eq!(rt; wrong(rt.alloc(), &rows)?.as_str(), "");
    Ok(())
}

#[test]
fn lost_attempts_are_counted_and_judged(rt: HostRuntime) -> Result<(), Fail> {
    use Say::*;
    let one = usual(
        &[Time(1000), Taken, Got("one")],
        "now; !put 1 at 1000; get 1; attempts 1",
    );
    let two = usual(
        &[Time(1000), Fault, Got("one"), Time(1001), Taken, Got("two")],
        "now; !put 1 at 1000; get 1; now; !put 2 at 1001; get 2; attempts 2",
    );
    let second = Row {
        passes: 1,
        wanted: "now; !put 1 at 1000; get 1; now; !put 2 at 1001; get 2; conflict 2 7",
        ..two
    };
    let first = Row {
        passes: 0,
        wanted: "now; !put 1 at 1000; get 1; conflict 1 7",
        ..two
    };
    let rows = [
        Row { limit: 1, ..one },
        Row { limit: 2, ..two },
        second,
        first,
    ];
    assert_eq!(rt; wrong(rt.alloc(), &rows)?.as_str(), "");
    Ok(())
}

#[test]
fn late_attempts_are_not_made(rt: HostRuntime) -> Result<(), Fail> {
    use Say::*;
    let in_time = usual(
        &[Time(1005), Taken, Got("one"), Time(1006)],
        "now; !put 1 at 1005; get 1; now; outlasted 1000 1006",
    );
    let even = Row {
        retention: 10,
        ..in_time
    };
    let odd = Row {
        retention: 11,
        ..in_time
    };
    let later = Row {
        retention: 12,
        says: &[Time(1006), Stored],
        wanted: "now; !put 1 at 1006; landed 1 attempts 1 now 1006",
        ..in_time
    };
    let rows = [even, odd, later];
    assert_eq!(rt; wrong(rt.alloc(), &rows)?.as_str(), "");
    Ok(())
}

#[test]
fn faults_end_the_attempts(rt: HostRuntime) -> Result<(), Fail> {
    use Say::*;
    let rows = [
        usual(&[Fault], "now; fault Now "),
        usual(
            &[Time(1000), Taken, Fault],
            "now; !put 1 at 1000; get 1; fault Get _delta_log/00000000000000000001.json",
        ),
        usual(
            &[Time(1000), Taken, Missing],
            "now; !put 1 at 1000; get 1; log gone 1",
        ),
        usual(&[Time(2001)], "now; too large 2001"),
        usual(&[Time(1000), NoMemory], "now; !put 1 at 1000; no memory"),
    ];
    assert_eq!(rt; wrong(rt.alloc(), &rows)?.as_str(), "");
    Ok(())
}
