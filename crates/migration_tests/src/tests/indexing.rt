//! The index on the agents of the journeys, added to a migrated file, also where the store fails at any call: the file that is found
//! after the crash has the index or not, and in both cases what it had.
use crate::tests::failing::{LeftFiles, MOST_CALLS, Stop, migrated, stop_once};
use crate::tests::helping::{book_over, holds, open_for};
use crate::tests::old_desks::IN_A_ROUND;
use crate::tests::old_files::old_file;
use crate::tests::rows::{Held, Schema, held_in};
use crate::tests::using::keeps_all;
use memory_files::Session;
use sqlite::{Alter, Connection};
use std::alloc::Global;
use std::process::Abort;
use std::test::Fail;
use tables::{Indexed, MigrateFault, index};

/// Adds the index to the store of a connection that is in no transaction.
fn index_over<S: Alter>(
    rt: &impl Abort,
    conn: &mut Connection<S>,
) -> Result<Indexed, MigrateFault> {
    conn.set_step_limit(None);
    holds(rt, "no transaction", conn.is_autocommit());
    index(conn)
}

/// Adds the index to a file, and records the result.
#[derive(Drop)]
struct Indexing {
    answer: Option<Result<Indexed, MigrateFault>>,
}

impl<R: Abort> Session<R> for Indexing {
    fn run<S: Alter + Drop>(
        &mut self,
        rt: &R,
        _alloc: Global,
        mut conn: Connection<S>,
    ) -> Result<Connection<S>, Fail> {
        self.answer = Some(index_over(rt, &mut conn));
        Ok(conn)
    }
}

/// Checks a file with these contents after a crash, adds the index where there is none, and records whether there was one.
#[derive(Drop)]
struct Completion<'a> {
    held: &'a Held<'a>,
    had: Option<bool>,
}

impl<R: Abort> Session<R> for Completion<'_> {
    fn run<S: Alter + Drop>(
        &mut self,
        rt: &R,
        alloc: Global,
        mut conn: Connection<S>,
    ) -> Result<Connection<S>, Fail> {
        let found = self.held.is_found(rt, alloc, &mut conn)?;
        holds(rt, "of the newest schema", found == Schema::New);
        let first = index_over(rt, &mut conn)?;
        self.had = Some(!first.is_new);
        holds(rt, "the journeys", first.journeys == IN_A_ROUND);
        let again = index_over(rt, &mut conn)?;
        holds(rt, "once", !again.is_new && again.journeys == IN_A_ROUND);
        let after = self.held.is_found(rt, alloc, &mut conn)?;
        holds(rt, "the rows", after == Schema::New);
        let mut book = book_over(rt, alloc, conn)?;
        keeps_all(rt, alloc, &mut book, 1)?;
        Ok(book.into_store())
    }
}

/// Whether a file had the index after a crash, which is checked against the result before it.
fn had_index(
    rt: &impl Abort,
    alloc: Global,
    held: &Held<'_>,
    left: &LeftFiles,
    answer: Option<Result<Indexed, MigrateFault>>,
) -> Result<bool, Fail> {
    let mut completion = Completion { held, had: None };
    left.open_for(rt, alloc, &mut completion)?;
    let had = completion.had.ok_or("nothing is found")?;
    match answer {
        None => holds(rt, "what was not opened stays", left.met && !had),
        Some(Err(fault)) => holds(rt, "a fault", left.met && fault == MigrateFault::Store),
        Some(Ok(done)) => holds(
            rt,
            "indexed",
            had && done.is_new && done.journeys == IN_A_ROUND,
        ),
    }
    Ok(had)
}

/// Lets each call of one disk fail in turn, until a run ends without meeting the fault. Returns how often a fault left the file
/// without the index, and how often with it.
fn stop_at_each_call_of(
    rt: &impl Abort,
    alloc: Global,
    bytes: &[u8],
    held: &Held<'_>,
    in_log: bool,
    crashes: bool,
) -> Result<(u32, u32), Fail> {
    let (mut without, mut with) = (0u32, 0u32);
    for calls in 0..MOST_CALLS {
        let stop = Stop {
            in_log,
            crashes,
            calls,
        };
        let mut indexing = Indexing { answer: None };
        let left = stop_once(rt, alloc, bytes, stop, &mut indexing)?;
        let had = had_index(rt, alloc, held, &left, indexing.answer)?;
        if !left.met {
            return Ok((without, with));
        }
        let count = if had { &mut with } else { &mut without };
        *count = count.saturating_add(1);
    }
    Err(Fail::from("no run without a fault"))
}

#[test]
fn an_index_may_fail_at_any_call(rt: HostRuntime) -> Result<(), Fail> {
    let alloc = rt.alloc();
    let file = old_file(&rt, alloc, 1)?;
    let held = held_in(&rt, alloc, &file)?;
    let db = migrated(&rt, alloc, &file)?;
    for (in_log, crashes) in [(false, false), (false, true), (true, false), (true, true)] {
        let (without, with) = stop_at_each_call_of(&rt, alloc, db.bytes(), &held, in_log, crashes)?;
        assert!(rt; without > 0, "{without} without, {with} with");
    }
    Ok(())
}

#[test]
fn an_old_file_gets_no_index(rt: HostRuntime) -> Result<(), Fail> {
    let alloc = rt.alloc();
    let file = old_file(&rt, alloc, 1)?;
    let mut indexing = Indexing { answer: None };
    let db = open_for(&rt, alloc, &[], file.bytes(), &mut indexing)?;
    holds(
        &rt,
        "refused",
        indexing.answer == Some(Err(MigrateFault::UnknownSchema(1))),
    );
    holds(&rt, "nothing is written", db.bytes() == file.bytes());
    Ok(())
}
