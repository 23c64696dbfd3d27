//! Stores that fail from some call on and are opened again: what was answered is kept, and what was in progress is kept
//! wholly or not at all.
ghost use Rattle.std.specs.Prelude.{IsTrue, IfOk};
ghost use Rattle.sqlite_disk.specs.Memory.{memory_is_usable};

use crate::tests::helping::{ANN, Asking, PLAN, begin, book_over, counts, holds, opened, told};
use commands::{Command, Fault, Reply};
use desk_sql::read_meta;
use memory_files::{ClosedFile, Session, disk_of, leave_failing};
use saga_core::Book;
use sqlite::{Alter, Connection, Files};
use sqlite_disk::{Crash, Disk, Fuse, Memory};
use std::alloc::Global;
use std::io;
use std::process::Abort;
use std::test::Fail;
use tables::{TableBook, open_from};

/// The begin of a journey, by its number: by the house, or by an agent under a key.
type Turn = (u64, Option<Asking<'static>>);

#[rattlefmt::skip]
static TURNS: [Turn; 4] = [
    (1, None),
    (2, Some(ANN)),
    (3, Some(("ann", "k2", "begin"))),
    (4, Some(("bob", "k1", "begin"))),
];

// how many rows represent so many journeys: of journeys, of steps, and of kept replies
const JOURNEYS: &str = "SELECT count(*) FROM journey";

const STEPS: &str = "SELECT count(*) FROM step";

const REPLIES: &str = "SELECT count(*) FROM answer";

#[rattlefmt::skip]
static ROWS: [[(&str, i64); 3]; 5] = [
    [(JOURNEYS, 0), (STEPS, 0),  (REPLIES, 0)],
    [(JOURNEYS, 1), (STEPS, 3),  (REPLIES, 0)],
    [(JOURNEYS, 2), (STEPS, 6),  (REPLIES, 1)],
    [(JOURNEYS, 3), (STEPS, 9),  (REPLIES, 2)],
    [(JOURNEYS, 4), (STEPS, 12), (REPLIES, 3)],
];

// more calls than any run here makes of one disk
const MOST_CALLS: u64 = 1_000;

/// A disk after the program has ended: it has all that was written, or after a crash of the machine only what was
/// synced.
fn left_of(alloc: Global, mut disk: Fuse<Memory>, crashes: bool) -> io::Result<Memory>
    ensures { IfOk result (λ m. IsTrue (memory_is_usable m)) }
{
    if crashes {
        disk.crash();
    }
    disk_of(alloc, disk.inner().bytes())
}

fn has_blown<D: Disk>(disk: &mut D) -> bool {
    !disk.may_be_used() || disk.len().is_err()
}

/// The reply to the house, or to an agent.
fn answered<S: Alter>(
    alloc: Global,
    book: &mut TableBook<S>,
    command: &Command,
    asking: Option<Asking<'_>>,
) -> Result<Reply, Fault> {
    match asking {
        Some(asking) => told(alloc, book, command, asking),
        None => book.act(command, None),
    }
}

/// Begins journeys, and returns the last one that was answered. After the store has failed, nothing more is answered.
fn begin_in<S: Alter>(
    rt: &impl Abort,
    alloc: Global,
    book: &mut TableBook<S>,
    command: &Command,
    turns: &[Turn],
) -> Option<u64> {
    let mut last = None;
    let mut failed = false;
    for &(id, asking) in turns {
        match answered(alloc, book, command, asking) {
            Ok(reply) => {
                holds(rt, "no answer after a fault", !failed);
                holds(rt, "the next journey", reply == Reply::Begun { id });
                last = Some(id);
            }
            Err(fault) => {
                holds(rt, "a fault of the store", fault == Fault::Store);
                failed = true;
            }
        }
    }
    last
}

/// Begins journeys until the store fails, and records the last one that was answered.
#[derive(Drop)]
struct Beginning<'a> {
    command: &'a Command,
    turns: &'a [Turn],
    last: Option<u64>,
}

impl<R: Abort> Session<R> for Beginning<'_> {
    fn run<S: Alter + Drop>(
        &mut self,
        rt: &R,
        alloc: Global,
        conn: Connection<S>,
    ) -> Result<Connection<S>, Fail> {
        let opened = match open_from(conn) {
            Ok(opened) => opened,
            Err((conn, _)) => return Ok(conn),
        };
        let mut book = match opened.into_book(alloc) {
            Ok(book) => book,
            Err(_) => return Err(Fail::from("no book is made")),
        };
        self.last = begin_in(rt, alloc, &mut book, self.command, self.turns);
        Ok(book.into_store())
    }
}

/// The call from which a disk fails, and whether the machine or the program ends then.
#[derive(Drop)]
struct Stop {
    log_calls: u64,
    db_calls: u64,
    crashes: bool,
}

/// Checks that the rows of so many journeys are stored, and no others.
fn check_rows<S: Alter>(
    rt: &impl Abort,
    conn: &mut Connection<S>,
    journeys: u64,
) -> Result<(), Fail> {
    let rows = ROWS.get(journeys as usize).ok_or("rows")?;
    counts(rt, conn, rows)
}

/// Checks that a retry gets the kept reply, and that the other requests begin the journeys that are missing.
fn check_replies<S: Alter>(
    rt: &impl Abort,
    alloc: Global,
    book: &mut TableBook<S>,
    command: &Command,
    journeys: u64,
) -> Result<(), Fail> {
    for &(id, asking) in &TURNS {
        if asking.is_some() || id > journeys {
            let reply = answered(alloc, book, command, asking)?;
            holds(rt, "the journey of this turn", reply == Reply::Begun { id });
        }
    }
    Ok(())
}

/// Checks that the rows of the answered journeys are stored, and perhaps of one more, which was in progress. Returns
/// how many.
fn check_meta<S: Alter>(
    rt: &impl Abort,
    conn: &mut Connection<S>,
    answered: u64,
) -> Result<u64, Fail> {
    let found = read_meta(conn)?;
    holds(
        rt,
        "an event a journey",
        found.version == 2 && found.events == found.journeys,
    );
    let more = found.journeys.checked_sub(answered);
    holds(rt, "what stands", matches!(more, Some(0 | 1)));
    check_rows(rt, conn, found.journeys)?;
    Ok(found.journeys)
}

/// The check after a crash: the answered journeys are stored, and perhaps one more, which was in progress.
#[derive(Drop)]
struct Standing<'a> {
    command: &'a Command,
    answered: u64,
}

impl<R: Abort> Session<R> for Standing<'_> {
    fn run<S: Alter + Drop>(
        &mut self,
        rt: &R,
        alloc: Global,
        conn: Connection<S>,
    ) -> Result<Connection<S>, Fail> {
        let mut conn = opened(alloc, conn)?;
        let journeys = check_meta(rt, &mut conn, self.answered)?;
        conn.set_step_limit(None);
        holds(rt, "no transaction", conn.is_autocommit());
        let mut book = book_over(alloc, conn)?;
        check_replies(rt, alloc, &mut book, self.command, journeys)?;
        let mut conn = book.into_store();
        check_rows(rt, &mut conn, 4)?;
        Ok(conn)
    }
}

/// One run over disks with this database, which is cut off and opened again. Returns whether a call failed.
fn stop_once(
    rt: &impl Abort,
    alloc: Global,
    bytes: &[u8],
    begun: u64,
    command: &Command,
    stop: &Stop,
) -> Result<bool, Fail> {
    let log = Fuse::new(Memory::new(alloc), stop.log_calls);
    let db = Fuse::new(disk_of(alloc, bytes)?, stop.db_calls);
    let turns = TURNS.get(begun as usize..).ok_or("turns")?;
    let mut beginning = Beginning {
        command,
        turns,
        last: None,
    };
    let files = leave_failing(rt, alloc, Files { log, db }, &mut beginning)?;
    let last = beginning.last;
    let Files { mut log, mut db } = files;
    let met = has_blown(&mut log) || has_blown(&mut db);
    holds(
        rt,
        "all is answered, or a call failed",
        met || last == Some(4),
    );
    let log = left_of(alloc, log, stop.crashes)?;
    let db = left_of(alloc, db, stop.crashes)?;
    let answered = last.unwrap_or(begun);
    ClosedFile::left(log, db).open_for(rt, alloc, &mut Standing { command, answered })?;
    Ok(met)
}

/// Lets each call of one disk fail in turn, until a run ends without meeting the fault.
fn stop_at_each_call_of(
    rt: &impl Abort,
    alloc: Global,
    bytes: &[u8],
    begun: u64,
    in_log: bool,
    crashes: bool,
) -> Result<(), Fail> {
    let command = begin(alloc, PLAN)?;
    let mut met = true;
    for calls in 0..MOST_CALLS {
        let stop = Stop {
            log_calls: if in_log { calls } else { u64::MAX },
            db_calls: if in_log { u64::MAX } else { calls },
            crashes,
        };
        met = stop_once(rt, alloc, bytes, begun, &command, &stop)?;
        if !met {
            break;
        }
    }
    holds(rt, "a run without a fault", !met);
    Ok(())
}

/// Does the same for each disk, where the program ends and where the machine crashes.
fn stop_at_each_call(rt: &impl Abort, alloc: Global, bytes: &[u8], begun: u64) -> Result<(), Fail> {
    for &(in_log, crashes) in &[(false, false), (false, true), (true, false), (true, true)] {
        stop_at_each_call_of(rt, alloc, bytes, begun, in_log, crashes)?;
    }
    Ok(())
}

/// Begins the first two journeys.
#[derive(Drop)]
struct FirstTwo<'a> {
    command: &'a Command,
}

impl<R: Abort> Session<R> for FirstTwo<'_> {
    fn run<S: Alter + Drop>(
        &mut self,
        rt: &R,
        alloc: Global,
        conn: Connection<S>,
    ) -> Result<Connection<S>, Fail> {
        let mut book = book_over(alloc, conn)?;
        for &(id, asking) in TURNS.iter().take(2) {
            let reply = answered(alloc, &mut book, self.command, asking)?;
            holds(rt, "one of two", reply == Reply::Begun { id });
        }
        Ok(book.into_store())
    }
}

/// A store with the first two journeys, closed in an orderly way.
fn of_two_journeys(rt: &impl Abort, alloc: Global) -> Result<ClosedFile, Fail> {
    let command = &begin(alloc, PLAN)?;
    ClosedFile::new(alloc).open_for(rt, alloc, &mut FirstTwo { command })
}

#[test]
fn a_new_store_may_fail_at_any_call(rt: HostRuntime) -> Result<(), Fail> {
    stop_at_each_call(&rt, rt.alloc(), &[], 0)
}

#[test]
fn a_store_that_is_opened_again_may_fail_at_any_call(rt: HostRuntime) -> Result<(), Fail> {
    let begun = of_two_journeys(&rt, rt.alloc())?;
    stop_at_each_call(&rt, rt.alloc(), begun.bytes(), 2)
}
