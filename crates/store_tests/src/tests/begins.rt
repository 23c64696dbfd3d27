//! Values from outside: journeys that begin are shown, found and counted, also once the desk is opened again.
use crate::tests::helping::{ANN, PLAN, begin, book_over, holds, opened, run, told};
use allotment::{Kind, Want};
use commands::{Command, Phase, Reply};
use memory_files::{ClosedFile, Session};
use saga_core::{Book, Brief, Record};
use sqlite::{Alter, Connection, MemStore};
use std::alloc::Global;
use std::process::Abort;
use std::test::Fail;
use tables::TableBook;

/// Begins a journey for the house, and then one for ann, on a new desk.
fn begin_two<S: Alter>(
    rt: &impl Abort,
    alloc: Global,
    book: &mut TableBook<S>,
    command: &Command,
) -> Result<(), Fail> {
    let first = book.act(command, None)?;
    let second = told(alloc, book, command, ANN)?;
    holds(rt, "the house begins", first == Reply::Begun { id: 1 });
    holds(rt, "ann begins", second == Reply::Begun { id: 2 });
    Ok(())
}

/// The desk over a store in memory, with those two journeys.
fn two_begun(rt: &impl Abort, alloc: Global) -> Result<TableBook<MemStore>, Fail> {
    let command = begin(alloc, PLAN)?;
    let mut book = book_over(alloc, Connection::open_in_memory(alloc)?)?;
    begin_two(rt, alloc, &mut book, &command)?;
    Ok(book)
}

/// Whether a journey is shown as it began.
fn is_new(alloc: Global, shown: &Record, agent: &str) -> Result<bool, Fail> {
    let line = shown.plan.line(alloc)?;
    Ok(
        shown.agent.as_str() == agent
            && line.as_str() == PLAN
            && shown.cursor.pos == 0
            && shown.cursor.phase == Phase::Run
            && shown.cursor.used == 0
            && !shown.marks.has(1),
    )
}

#[test]
fn a_journey_is_shown_as_it_began(rt: HostRuntime) -> Result<(), Fail> {
    let alloc = rt.alloc();
    let mut book = two_begun(&rt, alloc)?;
    for &(id, agent) in &[(1, "desk"), (2, "ann")] {
        let shown = book.journey(id)?.ok_or("no journey")?;
        holds(&rt, agent, is_new(alloc, &shown, agent)?);
        holds(&rt, "no items", book.history(id)?.is_empty());
        let trace = book.trace(id)?.ok_or("no trace")?;
        holds(&rt, agent, is_at_the_start(&trace.brief, id, agent));
        holds(&rt, "no items in the trace", trace.items.is_empty());
    }
    for &id in &[0, 3, u64::MAX] {
        holds(&rt, "no trace", book.trace(id)?.is_none());
        holds(&rt, "no journey", book.journey(id)?.is_none());
        holds(&rt, "no items", book.history(id)?.is_empty());
    }
    Ok(())
}

/// Whether the unfinished journey has this number and agent, and is at its start.
fn is_at_the_start(found: &Brief, id: u64, agent: &str) -> bool {
    found.id == id
        && found.agent.as_str() == agent
        && found.cursor.pos == 0
        && found.cursor.phase == Phase::Run
        && found.cursor.used == 0
}

#[test]
fn unfinished_journeys_are_found_in_order(rt: HostRuntime) -> Result<(), Fail> {
    let alloc = rt.alloc();
    let command = begin(alloc, PLAN)?;
    let mut book = book_over(alloc, Connection::open_in_memory(alloc)?)?;
    holds(&rt, "a new desk", book.first_unfinished(0)?.is_none());
    holds(&rt, "a new desk's list", book.unfinished()?.is_empty());
    begin_two(&rt, alloc, &mut book, &command)?;
    for &(after, id, agent) in &[(0, 1, "desk"), (1, 2, "ann")] {
        let found = book.first_unfinished(after)?.ok_or("no journey")?;
        holds(&rt, agent, is_at_the_start(&found, id, agent));
    }
    for &after in &[2, u64::MAX] {
        holds(&rt, "past all", book.first_unfinished(after)?.is_none());
    }
    let all = book.unfinished()?;
    holds(&rt, "both are listed", all.len() == 2);
    for (found, &(id, agent)) in all.iter().zip(&[(1, "desk"), (2, "ann")]) {
        holds(&rt, agent, is_at_the_start(found, id, agent));
    }
    Ok(())
}

// a flight, and two nights of a room that are not consecutive
const STOCK: &str =
    "INSERT INTO stock VALUES (1, 'INN', 'A', 22068, 5, 4); INSERT INTO stock VALUES (1, 'INN', 'A', 22066, 6, 6); INSERT INTO stock VALUES (0, 'AL', 'A1', 22066, 9, 0)";

#[test]
fn places_are_shown_by_cell(rt: HostRuntime) -> Result<(), Fail> {
    let alloc = rt.alloc();
    let want = Want::new(Kind::Room, "INN", "A", "2030-06-01", 2, 3)?;
    let mut conn = opened(alloc, Connection::open_in_memory(alloc)?)?;
    run(&mut conn, STOCK)?;
    let mut book = book_over(alloc, conn)?;
    let mut seen = Vec::new(alloc);
    for (cell, places) in &book.stock()? {
        let night = cell.night().day();
        seen.push((cell.kind().number(), night, places.allot, places.free))?;
    }
    let expected = [(0, 22066, 9, 0), (1, 22066, 6, 6), (1, 22068, 5, 4)];
    holds(&rt, "the cells", seen.as_slice() == expected.as_slice());
    let mut nights = Vec::new(alloc);
    for (night, places) in &book.cells(&want)? {
        nights.push((night.day(), places.allot, places.free))?;
    }
    let expected = [(22066, 6, 6)];
    holds(&rt, "the nights", nights.as_slice() == expected.as_slice());
    Ok(())
}

/// Begins the journeys of the house and of ann.
#[derive(Drop)]
struct Begun<'a> {
    command: &'a Command,
}

impl<R: Abort> Session<R> for Begun<'_> {
    fn run<S: Alter + Drop>(
        &mut self,
        rt: &R,
        alloc: Global,
        conn: Connection<S>,
    ) -> Result<Connection<S>, Fail> {
        let mut book = book_over(alloc, conn)?;
        begin_two(rt, alloc, &mut book, self.command)?;
        Ok(book.into_store())
    }
}

/// Ann retries under her key, and the house begins the next journey.
#[derive(Drop)]
struct Again<'a> {
    command: &'a Command,
}

impl<R: Abort> Session<R> for Again<'_> {
    fn run<S: Alter + Drop>(
        &mut self,
        rt: &R,
        alloc: Global,
        conn: Connection<S>,
    ) -> Result<Connection<S>, Fail> {
        let mut book = book_over(alloc, conn)?;
        let again = told(alloc, &mut book, self.command, ANN)?;
        let next = book.act(self.command, None)?;
        holds(rt, "ann asks again", again == Reply::Begun { id: 2 });
        holds(rt, "the house begins", next == Reply::Begun { id: 3 });
        Ok(book.into_store())
    }
}

#[test]
fn a_desk_that_is_opened_again_counts_on(rt: HostRuntime) -> Result<(), Fail> {
    let alloc = rt.alloc();
    let command = &begin(alloc, PLAN)?;
    let closed = ClosedFile::new(alloc).open_for(&rt, alloc, &mut Begun { command })?;
    closed.open_for(&rt, alloc, &mut Again { command })?;
    Ok(())
}
