//! Statements driven call by call over a store in memory, with the calls and the replies worked out by hand.
ghost use Rattle.std.specs.Prelude.{◌≡◌};
ghost use Rattle.edge_api.specs.Actor.{IsFit};
ghost use Rattle.txn_machine.specs.Txn.{IsReady};

use edge_api::{Actor, Body, Call, Fed, MemWorld, Name, Stage as Place, Step, Tag, World};
use op_types::{Refusal, Reply, Statement, TableSpec};
use row_base::{Column, Datum, Items, Kind, NoMemory, Rows, Text};
use statement_calls::{Finish, Kept};
use std::alloc::Global;
use std::test::Fail;
use table_rules::{LogName, read_log_name};
use txn_machine::{DataFile, Txn, replay};

/// Adds a word to the text. Where memory is wanting it is left out, and the text isn't the one that is wanted.
fn say(text: &mut String, word: &str) {
    text.push_str(word).ok();
}

/// Notes a name: a commit by its version.
fn note_name(text: &mut String, word: &str, name: &Name) {
    match read_log_name(name) {
        LogName::Commit(version) => write!(text, "{word} {version}; ").ok(),
        LogName::Outside => write!(text, "{word} data; ").ok(),
        _ => text.push_str("another; ").ok(),
    };
}

/// Notes a call, with a mark where the statement stands before a commit put, or between two statements.
fn note(text: &mut String, place: Place, call: &Call) {
    match place {
        Place::Between => say(text, "|"),
        Place::Attempt => say(text, "!"),
        Place::Running => {}
        Place::Done => say(text, "done"),
    }
    match call {
        Call::Now => say(text, "now; "),
        Call::List(_) => say(text, "list; "),
        Call::Get(name) => note_name(text, "get", name),
        Call::PutNew(name, _) => note_name(text, "put", name),
        _ => say(text, "another; "),
    }
}

/// Makes a call of the store.
fn made(world: &mut MemWorld, tag: Tag, call: Call) -> Fed
    ensures { IsFit call result }
{
    match world.call(tag, call) {
        Ok(answer) => Fed::Answer(answer),
        Err(_) => Fed::NoMemory,
    }
}

/// Makes the next call, if there is one.
fn turn(world: &mut MemWorld, txn: &mut Txn, text: &mut String)
    requires { IsReady txn.old }
    ensures { IsReady txn.new }
{
    let place = txn.stage();
    let Step::Call(tag, call) = txn.next() else {
        return;
    };
    note(text, place, &call);
    let input = made(world, tag, call);
    txn.feed(input);
}

/// Notes rows of numbers.
fn note_rows(text: &mut String, rows: &Rows) {
    for row in rows.iter() {
        for datum in row {
            match datum {
                Datum::Long(n) => write!(text, " {n}").ok(),
                _ => text.push_str(" another").ok(),
            };
        }
    }
}

fn note_reply(text: &mut String, reply: &Reply) {
    match reply {
        Reply::Created => say(text, "created"),
        Reply::Committed {
            version,
            read,
            attempts,
            ..
        } => {
            write!(text, "committed {version} from {read} by {attempts}").ok();
        }
        Reply::Rows {
            version,
            rows,
            files_read,
            files_live,
        } => {
            write!(text, "rows of {version} in {files_read} of {files_live}:").ok();
            note_rows(text, rows);
        }
        Reply::Refused(Refusal::NoTable) => say(text, "no table"),
        _ => say(text, "another"),
    }
}

/// Makes the calls of a statement, of which there are twelve at most.
fn turns(world: &mut MemWorld, txn: &mut Txn, text: &mut String)
    requires { IsReady txn.old }
    ensures { IsReady txn.new }
{
    'turns: for _ in 0..12 {
        turn(world, txn, text);
    }
}

/// Notes the reply of a statement, or that it is open. What it keeps.
fn note_end(text: &mut String, txn: Txn) -> Option<Kept>
    requires { IsReady txn }
{
    if txn.pending.is_some() {
        drop(txn);
        say(text, "open");
        return None;
    }
    let Finish { reply, kept } = txn.finish();
    note_reply(text, &reply);
    drop(reply);
    kept
}

/// Puts a value into a place.
fn set<T: Drop>(place: &mut T, value: T) {
    *place = value;
}

/// The statement of a number, which is to make its first call.
fn begun(alloc: Global, number: u32, what: Statement, kept: Option<Kept>) -> Txn
    ensures { IsReady result }
{
    let tag = Tag {
        actor: 1,
        statement: number,
    };
    Txn::new(alloc, tag, what, 10, kept)
}

/// The calls of a statement and its reply. It begins with what is kept, and leaves what it keeps itself.
fn run(
    alloc: Global,
    world: &mut MemWorld,
    number: u32,
    what: Statement,
    kept: &mut Option<Kept>,
) -> String {
    let mut text = String::new(alloc);
    let mut txn = begun(alloc, number, what, kept.take());
    turns(world, &mut txn, &mut text);
    set(kept, note_end(&mut text, txn));
    text
}

/// Makes a table of one column of numbers.
fn table(alloc: Global) -> Result<Statement, NoMemory> {
    let mut columns = Vec::new(alloc);
    columns.push(Column {
        name: Text::make(alloc, "id")?,
        kind: Kind::Long,
        nullable: false,
    })?;
    let columns = Items::from_vec(columns);
    Ok(Statement::Table(TableSpec { columns }))
}

/// Inserts a row for each number.
fn insert(alloc: Global, numbers: &[i64]) -> Result<Statement, NoMemory> {
    let mut rows = Rows::new(alloc);
    let mut row = Vec::new(alloc);
    for n in numbers {
        row.push(Datum::Long(*n))?;
        rows.push_from(&mut row)?;
    }
    Ok(Statement::Insert { rows })
}

/// The rows of a version by what was put, as text.
fn replayed(alloc: Global, world: &MemWorld, version: usize) -> Result<String, NoMemory> {
    let mut commits: Vec<Body> = Vec::new(alloc);
    let mut files: Vec<DataFile> = Vec::new(alloc);
    for entry in world.journal() {
        if let Call::PutNew(name, body) = &entry.call {
            match read_log_name(name) {
                LogName::Commit(_) => commits.push(body.copy()?)?,
                _ => files.push(DataFile {
                    path: name.copy()?,
                    text: body.copy()?,
                })?,
            }
        }
    }
    let mut text = String::new(alloc);
    let rows = replay(alloc, commits.as_slice(), files.as_slice(), version)?;
    note_rows(&mut text, &rows);
    Ok(text)
}

/// A statement to be made.
#[derive(Clone, Copy)]
enum What {
    Table,
    Insert(&'static [i64]),
    Select,
}

fn statement(alloc: Global, what: What) -> Result<Statement, NoMemory> {
    match what {
        What::Table => table(alloc),
        What::Insert(numbers) => insert(alloc, numbers),
        What::Select => Ok(Statement::Select),
    }
}

/// Whether the calls and the reply of a statement are these.
fn is_answered(
    alloc: Global,
    world: &mut MemWorld,
    number: u32,
    what: What,
    kept: &mut Option<Kept>,
    want: &str,
) -> bool {
    match statement(alloc, what) {
        Ok(statement) => run(alloc, world, number, statement, kept).as_str() == want,
        Err(_) => false,
    }
}

/// Whether the rows of a version are these by what was put.
fn is_replayed(
    alloc: Global,
    world: &MemWorld,
    version: usize,
    want: &str,
) -> Result<bool, NoMemory> {
    let rows = replayed(alloc, world, version)?;
    Ok(rows.as_str() == want)
}

/// Statements one after another, each with its number, its calls and its reply.
const STATEMENTS: [(u32, What, &str); 5] = [
    (1, What::Select, "|now; list; no table"),
    (2, What::Table, "|now; list; now; !put 0; created"),
    (
        3,
        What::Insert(&[3, 1]),
        "|now; list; get 0; put data; now; !put 1; committed 1 from 0 by 1",
    ),
    (
        4,
        What::Insert(&[2, 1]),
        "|now; list; get 0; get 1; put data; now; !put 2; committed 2 from 1 by 1",
    ),
    (
        5,
        What::Select,
        "|now; list; get 0; get 1; get 2; get data; get data; rows of 2 in 2 of 2: 1 1 2 3",
    ),
];

/// Makes the statements, each with nothing kept. Whether each has its calls and its reply.
fn are_answered(alloc: Global, world: &mut MemWorld) -> bool {
    let mut all = true;
    for (number, what, want) in STATEMENTS {
        all = is_answered(alloc, world, number, what, &mut None, want) && all;
    }
    all
}

/// Statements that each begin with what the one before has kept: the table that it loaded, so that its own commit is
/// got by the next one.
const FROM_KEPT: [(u32, What, &str); 3] = [
    (
        6,
        What::Select,
        "|now; list; get 0; get 1; get 2; get data; get data; rows of 2 in 2 of 2: 1 1 2 3",
    ),
    (
        7,
        What::Insert(&[7]),
        "|now; list; put data; now; !put 3; committed 3 from 2 by 1",
    ),
    (
        8,
        What::Select,
        "|now; list; get 3; get data; get data; get data; rows of 3 in 3 of 3: 1 1 2 3 7",
    ),
];

/// Makes these statements, where each begins with what the one before has kept.
fn are_answered_from_kept(alloc: Global, world: &mut MemWorld) -> bool {
    let mut all = true;
    let mut kept = None;
    for (number, what, want) in FROM_KEPT {
        all = is_answered(alloc, world, number, what, &mut kept, want) && all;
    }
    drop(kept);
    all
}

#[test]
fn a_kept_table_saves_its_gets(rt: HostRuntime) -> Result<(), Fail> {
    let alloc = rt.alloc();
    let mut world = MemWorld::new(alloc, 1000);
    assert!(rt; are_answered(alloc, &mut world));
    assert!(rt; are_answered_from_kept(alloc, &mut world));
    Ok(())
}

#[test]
fn rows_are_inserted_and_selected(rt: HostRuntime) -> Result<(), Fail> {
    let alloc = rt.alloc();
    let mut world = MemWorld::new(alloc, 1000);
    assert!(rt; are_answered(alloc, &mut world));
    for (version, want) in [(0, ""), (1, " 1 3"), (2, " 1 1 2 3")] {
        assert!(rt; is_replayed(alloc, &world, version, want)?, "of {want}");
    }
    Ok(())
}
