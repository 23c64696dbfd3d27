//! Commands that are out of memory: nothing has changed, and the same command then has its reply and its event once.
//!
//! Memory is refused from outside: these tests are run once for each of their allocations, which is refused. Where it is
//! refused to the test itself or to the store, the test begins again.

use crate::tests::commands_stopped::found_in;
use crate::tests::helping::{ask_of, book_over, command_of, holds, shown};
use crate::tests::places::check_places;
use crate::tests::recovery_rows::{RecoveryRow, saved, two_journeys};
use crate::tests::spoiling::Body;
use crate::tests::stories::{Line, key_of};
use commands::{Ask, Command, Fault, Reply};
use memory_book::MemBook;
use recovery::recover;
use saga_core::Book;
use sqlite::Connection;
use std::alloc::Global;
use std::io::Eprint;
use std::process::{Abort, Termination};
use std::test::Fail;

/// Commands, and how many events there are after all, and how many kept replies.
#[derive(Clone, Copy)]
struct Commands {
    lines: &'static [Line],
    events: u64,
    kept: u64,
    body: Body,
}

// every second command comes under a key
#[rattlefmt::skip]
static MOVES: [Line; 12] = [
    ("load a F/AL/A1/2030-06-01 2",                         "loaded a 1"),
    ("begin F/AL/A1/2030-06-01/1/1;T/BUS/X/2030-06-01/1/1!1", "journey 1 begun"),
    ("step 1",    "journey 1 T1.1 run 1"),
    ("save 1",    "journey 1 S1 run 1"),
    ("step 1",    "journey 1 B1r run 1"),
    ("step 1",    "journey 1 B0r back 1 to 0"),
    ("step 1",    "journey 1 C1.1 undone 0"),
    ("begin F/AL/A1/2030-06-01/1/1;F/AL/A1/2030-06-01/1/1!0", "journey 2 begun"),
    ("step 2",    "journey 2 T1.1 run 1"),
    ("abort 2 0", "journey 2 B0a back 1 to 0"),
    ("begin F/AL/A1/2030-06-01/1/1!0",                      "journey 3 begun"),
    ("stop 3",    "journey 3 B0s undone 0"),
];

#[rattlefmt::skip]
static LOADS: [Line; 6] = [
    ("load a F/AL/A1/2030-06-01 2, F/AL/A2/2030-06-01 2, F/AL/A3/2030-06-01 2, F/AL/A4/2030-06-01 2", "loaded a 4"),
    ("load b F/AL/A1/2030-06-01 9, F/AL/A2/2030-06-01 8, F/AL/A3/2030-06-01 7, F/AL/A4/2030-06-01 6", "loaded b 4"),
    ("load a F/AL/A1/2030-06-01 2",     "refused 13 BatchDiffers"),
    ("begin F/AL/A2/2030-06-01/1/2!0",  "journey 1 begun"),
    ("step 1",                          "journey 1 T1.1 ended 1"),
    ("load c F/AL/A1/2030-06-01 1, F/AL/A2/2030-06-01 1", "refused 12 BelowHeld 2"),
];

/// What the desk in memory shows after these lines.
fn shown_after(alloc: Global, lines: &[Line]) -> Result<String, Fail> {
    let mut plain = MemBook::new(alloc);
    for (line, _) in lines {
        plain.act(&command_of(alloc, line)?, None)?;
    }
    shown(alloc, &mut plain)
}

/// The reply to a command. If the book is out of memory, it is still as after the lines before, and the command is sent
/// again.
fn reply_to<B: Book>(
    rt: &impl Abort,
    alloc: Global,
    book: &mut B,
    before: &[Line],
    command: &Command,
    ask: Option<&Ask>,
    body: Body,
) -> Result<Reply, Fail> {
    match body.answers(alloc, book.act(command, ask)) {
        Ok(reply) => Ok(reply),
        Err(Fault::Memory) => {
            let is_same = shown(alloc, book)? == shown_after(alloc, before)?;
            holds(rt, "out of memory changes nothing", is_same);
            Ok(book.act(command, ask)?)
        }
        Err(Fault::Store) => {
            let next = book.act(command, ask);
            holds(rt, "no answer after a fault", next == Err(Fault::Store));
            Err(Fail::from("the store failed"))
        }
    }
}

/// Executes a command with its worked reply.
fn executes<B: Book>(
    rt: &impl Abort,
    alloc: Global,
    book: &mut B,
    lines: &[Line],
    at: usize,
    body: Body,
) -> Result<(), Fail> {
    let (line, expected) = *lines.get(at).ok_or("no line")?;
    let before = lines.get(..at).ok_or("no lines")?;
    let command = command_of(alloc, line)?;
    let ask = ask_of(alloc, key_of(at, lines.len()), line)?;
    let reply = reply_to(rt, alloc, book, before, &command, ask.as_ref(), body)?;
    let found = reply.line(alloc)?;
    assert_eq!(rt; found.as_str(), expected);
    Ok(())
}

/// Executes commands over a new store.
fn are_executed(rt: &impl Abort, alloc: Global, commands: Commands) -> Result<(), Fail> {
    let mut book = book_over(alloc, Connection::open_in_memory(alloc)?)?;
    for at in 0..commands.lines.len() {
        executes(rt, alloc, &mut book, commands.lines, at, commands.body)?;
    }
    check_places(rt, &mut book)?;
    let found = found_in(String::new(alloc), &mut book.into_store())?;
    holds(rt, "each event once", found.events == commands.events);
    holds(rt, "each reply kept once", found.kept == commands.kept);
    Ok(())
}

/// How many moves of a recovery were made, if a book shows what is left after them.
fn moves_made<B: Book>(
    alloc: Global,
    book: &mut B,
    row: RecoveryRow,
) -> Result<Option<usize>, Fail> {
    let text = shown(alloc, book)?;
    for done in row.begun..row.lines.len().saturating_add(1) {
        if text == shown_after(alloc, row.lines.get(..done).ok_or("no lines")?)? {
            return Ok(Some(done));
        }
    }
    Ok(None)
}

/// What the desk in memory shows after these lines and a recovery.
fn shown_recovered(alloc: Global, lines: &[Line]) -> Result<String, Fail> {
    let mut plain = MemBook::new(alloc);
    for (line, _) in lines {
        plain.act(&command_of(alloc, line)?, None)?;
    }
    match recover(plain) {
        Ok((mut ready, _)) => shown(alloc, &mut ready),
        Err((_, fault)) => Err(fault.into()),
    }
}

/// Checks that a recovered book shows what the desk in memory shows that was recovered after so many lines.
fn is_recovered<B: Book>(
    rt: &impl Abort,
    alloc: Global,
    book: &mut B,
    row: RecoveryRow,
    done: usize,
) -> Result<(), Fail> {
    let lines = row.lines.get(..done).ok_or("no lines")?;
    let is_same = shown(alloc, book)? == shown_recovered(alloc, lines)?;
    holds(rt, "the recovered desk", is_same);
    check_places(rt, book)
}

/// Recovers a book. If it is out of memory, it has made a prefix of the moves, and it is recovered once more.
fn recovers<B: Book + Drop>(
    rt: &impl Abort,
    alloc: Global,
    book: B,
    row: RecoveryRow,
) -> Result<(), Fail> {
    match recover(book) {
        Ok((mut ready, _)) => is_recovered(rt, alloc, &mut ready, row, row.begun),
        Err((mut book, Fault::Memory)) => {
            let done = moves_made(alloc, &mut book, row)?;
            holds(rt, "a prefix of recovery's events", done.is_some());
            match recover(book) {
                Ok((mut ready, _)) => {
                    is_recovered(rt, alloc, &mut ready, row, done.unwrap_or(0))
                }
                Err((_, fault)) => Err(fault.into()),
            }
        }
        Err((mut book, Fault::Store)) => {
            let next = book.first_unfinished(0);
            holds(rt, "no answer after a fault", next.is_err());
            Err(Fail::from("the store failed"))
        }
    }
}

/// Recovers a desk over a new store.
fn is_recovered_over_tables(rt: &impl Abort, alloc: Global, row: RecoveryRow) -> Result<(), Fail> {
    let mut book = book_over(alloc, Connection::open_in_memory(alloc)?)?;
    let begun = row.lines.get(..row.begun).ok_or("no lines")?;
    for at in 0..begun.len() {
        executes(rt, alloc, &mut book, begun, at, Body::Sound)?;
    }
    recovers(rt, alloc, book, row)
}

/// Prints why the first try ended.
fn ended(rt: &impl Eprint, why: Fail) {
    let first: Result<(), Fail> = Err(why);
    let _status = first.report(rt);
}

/// Executes commands, and begins again if the test or the store was out of memory.
fn all_are_executed<R: Abort + Eprint>(
    rt: &R,
    alloc: Global,
    commands: Commands,
) -> Result<(), Fail> {
    match are_executed(rt, alloc, commands) {
        Ok(()) => Ok(()),
        Err(why) => {
            ended(rt, why);
            are_executed(rt, alloc, commands)
        }
    }
}

/// Recovers a desk, and begins again if the test or the store was out of memory.
fn all_is_recovered<R: Abort + Eprint>(
    rt: &R,
    alloc: Global,
    row: RecoveryRow,
) -> Result<(), Fail> {
    match is_recovered_over_tables(rt, alloc, row) {
        Ok(()) => Ok(()),
        Err(why) => {
            ended(rt, why);
            is_recovered_over_tables(rt, alloc, row)
        }
    }
}

#[test]
fn a_move_that_is_out_of_memory_changes_nothing(rt: HostRuntime) -> Result<(), Fail> {
    let commands = Commands {
        lines: &MOVES,
        events: 12,
        kept: 6,
        body: Body::named(&rt),
    };
    all_are_executed(&rt, rt.alloc(), commands)
}

#[test]
fn a_load_that_is_out_of_memory_changes_nothing(rt: HostRuntime) -> Result<(), Fail> {
    let commands = Commands {
        lines: &LOADS,
        events: 4,
        kept: 2,
        body: Body::named(&rt),
    };
    all_are_executed(&rt, rt.alloc(), commands)
}

#[test]
fn a_recovery_that_is_out_of_memory_leaves_a_prefix(rt: HostRuntime) -> Result<(), Fail> {
    all_is_recovered(&rt, rt.alloc(), two_journeys())
}

#[test]
fn a_recovery_past_a_save_point_that_is_out_of_memory_leaves_a_prefix(
    rt: HostRuntime,
) -> Result<(), Fail> {
    all_is_recovered(&rt, rt.alloc(), saved())
}
