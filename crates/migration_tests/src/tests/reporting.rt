//! What is shown of an old file is what was written into it, and the same after the file was migrated. No desk is
//! opened over an old file.
use crate::tests::helping::{bring_over, holds, open, open_for};
use crate::tests::old_desks::{IN_A_ROUND, OldJourney, cells, is_unfinished, journeys};
use crate::tests::old_files::old_file;
use allotment::{Cell, Held};
use memory_files::Session;
use report_writers::{FoundRows, Progress, start_items, start_stock, start_unfinished};
use saga_core::{Brief, RowSource};
use sqlite::{Alter, Connection};
use std::alloc::{AllocError, Global};
use std::process::Abort;
use std::test::Fail;
use tables::{OpenFault, Opened, TableBook};

// more rows of any kind than a file here has
const MOST_ROWS: u32 = 100_000;

/// The report of the places of each cell.
pub fn stock_of<S: Alter>(alloc: Global, conn: &mut Connection<S>) -> Result<String, Fail> {
    let mut rows = start_stock(conn)?;
    let progress = Progress::new();
    cells_in(
        alloc,
        &mut FoundRows {
            rows: &mut rows,
            progress,
        },
    )
}

/// The report of the cells that remain.
fn cells_in<R: RowSource<(Cell, Held)>>(alloc: Global, rows: &mut R) -> Result<String, Fail> {
    let mut text = String::new(alloc);
    for _ in 0..MOST_ROWS {
        let Some((cell, held)) = rows.next_row()? else {
            break;
        };
        write!(text, "{cell} {} {}\n", held.allot, held.free)?;
    }
    Ok(text)
}

/// The report of the unfinished journeys.
pub fn unfinished_of<S: Alter>(alloc: Global, conn: &mut Connection<S>) -> Result<String, Fail> {
    let mut rows = start_unfinished(conn)?;
    let progress = Progress::new();
    briefs_in(
        alloc,
        &mut FoundRows {
            rows: &mut rows,
            progress,
        },
    )
}

/// The report of the journeys that remain.
fn briefs_in<R: RowSource<Brief>>(alloc: Global, rows: &mut R) -> Result<String, Fail> {
    let mut text = String::new(alloc);
    for _ in 0..MOST_ROWS {
        let Some(brief) = rows.next_row()? else {
            break;
        };
        let state = brief.cursor.state(alloc)?;
        write!(text, "{} {} {state}\n", brief.id, brief.agent.as_str())?;
    }
    Ok(text)
}

/// The items of a journey.
fn items_of<S: Alter>(alloc: Global, opened: &mut Opened<S>, id: u64) -> Result<String, Fail> {
    let mut text = String::new(alloc);
    let version = opened.version();
    let mut rows = start_items(opened.connection(), version, id)?;
    for _ in 0..MOST_ROWS {
        let Some(item) = rows.next_row()? else {
            break;
        };
        if !text.is_empty() {
            text.push(' ')?;
        }
        text.push_str(item.text(alloc)?.as_str())?;
    }
    Ok(text)
}

/// The report of a journey. It is empty if there is no such journey.
pub fn journey_of<S: Alter>(
    alloc: Global,
    opened: &mut Opened<S>,
    id: u64,
) -> Result<String, Fail> {
    let items = items_of(alloc, opened, id)?;
    let Some(record) = opened.journey_of(alloc, id)? else {
        return Ok(items);
    };
    let line = record.plan.line(alloc)?;
    let state = record.cursor.state(alloc)?;
    Ok(format!(in alloc;
        "{} {line} {items} {state} {}",
        record.agent.as_str(),
        record.cursor.used
    )?)
}

/// The report of a journey as it was written.
fn expected_journey(alloc: Global, journey: &OldJourney) -> Result<String, AllocError> {
    let OldJourney {
        agent,
        plan,
        numbers,
        told,
        state,
        ..
    } = journey;
    let [.., used] = numbers;
    format!(in alloc; "{agent} {plan} {told} {state} {used}")
}

/// The stock after so many rounds.
fn expected_stock(alloc: Global, rounds: u64) -> Result<String, AllocError> {
    let mut text = String::new(alloc);
    if rounds > 0 {
        let rounds = i64::try_from(rounds).unwrap_or(i64::MAX);
        for (cell, .., places, held) in cells() {
            let free = places.saturating_sub(held.saturating_mul(rounds));
            write!(text, "{cell} {places} {free}\n")?;
        }
    }
    Ok(text)
}

/// The unfinished journeys after so many rounds.
fn expected_unfinished(alloc: Global, rounds: u64) -> Result<String, AllocError> {
    let mut text = String::new(alloc);
    let mut id = 0u64;
    for _ in 0..rounds {
        for journey in journeys() {
            id = id.saturating_add(1);
            if is_unfinished(journey) {
                write!(text, "{id} {} {}\n", journey.agent, journey.state)?;
            }
        }
    }
    Ok(text)
}

/// Checks that the journeys of one round, counted from 0, are shown as they were written.
fn shows_round<S: Alter>(
    rt: &impl Abort,
    alloc: Global,
    opened: &mut Opened<S>,
    round: u64,
) -> Result<(), Fail> {
    let mut id = round.saturating_mul(IN_A_ROUND);
    for journey in journeys() {
        id = id.saturating_add(1);
        let shown = journey_of(alloc, opened, id)?;
        let expected = expected_journey(alloc, journey)?;
        assert_eq!(rt; shown.as_str(), expected.as_str());
    }
    Ok(())
}

/// Checks that a file of so many rounds is shown as it was written: of the journeys those of the first and the last
/// round, and numbers without a journey.
pub fn shows_all<S: Alter>(
    rt: &impl Abort,
    alloc: Global,
    opened: &mut Opened<S>,
    rounds: u64,
) -> Result<(), Fail> {
    let stock = stock_of(alloc, opened.connection())?;
    let expected = expected_stock(alloc, rounds)?;
    holds(rt, "stock", stock.as_str() == expected.as_str());
    let unfinished = unfinished_of(alloc, opened.connection())?;
    let expected = expected_unfinished(alloc, rounds)?;
    holds(rt, "unfinished", unfinished.as_str() == expected.as_str());
    if rounds > 0 {
        shows_round(rt, alloc, opened, 0)?;
        shows_round(rt, alloc, opened, rounds.saturating_sub(1))?;
    }
    let last = rounds.saturating_mul(IN_A_ROUND);
    for absent in [0, last.saturating_add(1), u64::MAX] {
        let shown = journey_of(alloc, opened, absent)?;
        holds(rt, "no journey", shown.is_empty());
    }
    Ok(())
}

/// The contents of a store, all of which were checked.
pub fn shown<S: Alter + Drop>(
    rt: &impl Abort,
    alloc: Global,
    conn: Connection<S>,
    rounds: u64,
) -> Result<Opened<S>, Fail> {
    let mut opened = open(rt, conn)?;
    shows_all(rt, alloc, &mut opened, rounds)?;
    Ok(opened)
}

/// Checks that no desk is opened over this store, and returns it.
pub fn handed_back<S: Alter + Drop>(
    rt: &impl Abort,
    alloc: Global,
    opened: Opened<S>,
) -> Result<Opened<S>, Fail> {
    match opened.into_book(alloc) {
        Ok(_) => Err(Fail::from("a desk over an old file")),
        Err((opened, fault)) => {
            holds(rt, "the old schema", fault == OpenFault::UnknownSchema(1));
            Ok(opened)
        }
    }
}

/// The desk over this store.
pub fn desk_over<S: Alter + Drop>(alloc: Global, opened: Opened<S>) -> Result<TableBook<S>, Fail> {
    match opened.into_book(alloc) {
        Ok(book) => Ok(book),
        Err(_) => Err(Fail::from("no desk over the new file")),
    }
}

/// Shows an old file before and after a refused opening of its desk, and after its migration.
#[derive(Drop)]
struct ShownAlike {
    rounds: u64,
}

impl<R: Abort> Session<R> for ShownAlike {
    fn run<S: Alter + Drop>(
        &mut self,
        rt: &R,
        alloc: Global,
        conn: Connection<S>,
    ) -> Result<Connection<S>, Fail> {
        let opened = shown(rt, alloc, conn, self.rounds)?;
        let mut opened = handed_back(rt, alloc, opened)?;
        shows_all(rt, alloc, &mut opened, self.rounds)?;
        let mut conn = opened.into_store();
        bring_over(rt, &mut conn)?;
        let opened = shown(rt, alloc, conn, self.rounds)?;
        Ok(desk_over(alloc, opened)?.into_store())
    }
}

#[test]
fn an_old_file_is_shown_as_it_was_written(rt: HostRuntime) -> Result<(), Fail> {
    let alloc = rt.alloc();
    for rounds in [0u32, 1, 20] {
        let file = old_file(&rt, alloc, rounds)?;
        let mut alike = ShownAlike {
            rounds: u64::from(rounds),
        };
        open_for(&rt, alloc, &[], file.bytes(), &mut alike)?;
    }
    Ok(())
}
