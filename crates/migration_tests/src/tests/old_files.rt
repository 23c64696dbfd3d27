//! Files of schema 1, written by its own statements.
use crate::tests::helping::{holds, open_for};
use crate::tests::old_desks::{
    ItemRow, MOST_ITEMS, OldJourney, OptionRow, cells, journeys, last_item,
};
use memory_files::{ClosedFile, Session};
use sqlite::{Alter, Connection, Transaction, params};
use std::alloc::{AllocError, Global};
use std::process::Abort;
use std::test::Fail;

/// The tables of schema 1. No table refers to a later one.
#[rattlefmt::skip]
static OLD_TABLES: [&str; 7] = [
    "CREATE TABLE meta(one INTEGER PRIMARY KEY CHECK(one = 1), version INTEGER NOT NULL, events INTEGER NOT NULL, journeys INTEGER NOT NULL) STRICT",
    "CREATE TABLE stock(kind INTEGER NOT NULL CHECK(kind BETWEEN 0 AND 3), supplier TEXT NOT NULL, product TEXT NOT NULL, night INTEGER NOT NULL, allot INTEGER NOT NULL, free INTEGER NOT NULL CHECK(free >= 0 AND free <= allot), PRIMARY KEY(kind, supplier, product, night)) STRICT",
    "CREATE TABLE batch(name TEXT NOT NULL PRIMARY KEY, num INTEGER NOT NULL UNIQUE, content BLOB NOT NULL) STRICT",
    "CREATE TABLE journey(id INTEGER PRIMARY KEY, num INTEGER NOT NULL UNIQUE, agent TEXT NOT NULL, steps INTEGER NOT NULL, tries INTEGER NOT NULL, pos INTEGER NOT NULL, phase INTEGER NOT NULL CHECK(phase BETWEEN 0 AND 3), target INTEGER NOT NULL, used INTEGER NOT NULL) STRICT",
    "CREATE TABLE step(journey INTEGER NOT NULL REFERENCES journey(id), place INTEGER NOT NULL, opt INTEGER NOT NULL, save INTEGER NOT NULL CHECK(save IN (0, 1)), taken INTEGER NOT NULL CHECK(taken IN (0, 1)), kind INTEGER NOT NULL, supplier TEXT NOT NULL, product TEXT NOT NULL, night INTEGER NOT NULL, nights INTEGER NOT NULL, places INTEGER NOT NULL, PRIMARY KEY(journey, place, opt)) STRICT",
    "CREATE TABLE entry(num INTEGER PRIMARY KEY, journey INTEGER NOT NULL REFERENCES journey(id), item INTEGER NOT NULL CHECK(item BETWEEN 0 AND 2), a INTEGER NOT NULL, b INTEGER NOT NULL) STRICT",
    "CREATE TABLE answer(agent TEXT NOT NULL, mark TEXT NOT NULL, ask BLOB NOT NULL, reply TEXT NOT NULL, PRIMARY KEY(agent, mark)) STRICT",
];

/// What was written to a file: the number of events and of journeys, and the items, a line each.
#[derive(Drop)]
pub struct Written {
    pub events: i64,
    pub journeys: i64,
    pub items: String,
}

impl Written {
    /// Counts one more event, and returns its number.
    fn next_event(&mut self) -> i64 {
        self.events = self.events.saturating_add(1);
        self.events
    }
}

/// A closed file of schema 1, and what was written to it.
#[derive(Drop)]
pub struct OldFile {
    db: ClosedFile,
    pub written: Written,
}

impl OldFile {
    /// The bytes of the file.
    pub fn bytes(&self) -> &[u8] {
        self.db.bytes()
    }
}

/// A file of schema 1 in which so many rounds of journeys have begun. Without a round it has no event.
pub fn old_file(rt: &impl Abort, alloc: Global, rounds: u32) -> Result<OldFile, Fail> {
    let mut writing = Writing {
        rounds,
        written: None,
    };
    let db = open_for(rt, alloc, &[], &[], &mut writing)?;
    let written = writing.written.ok_or("nothing is written")?;
    Ok(OldFile { db, written })
}

/// Writes the desk of so many rounds, and records what was written.
#[derive(Drop)]
struct Writing {
    rounds: u32,
    written: Option<Written>,
}

impl<R: Abort> Session<R> for Writing {
    fn run<S: Alter + Drop>(
        &mut self,
        rt: &R,
        alloc: Global,
        mut conn: Connection<S>,
    ) -> Result<Connection<S>, Fail> {
        let written = write_desk(rt, alloc, &mut conn, self.rounds)?;
        self.written = Some(written);
        Ok(conn)
    }
}

/// Writes the tables and all rows, in one transaction.
fn write_desk<S: Alter>(
    rt: &impl Abort,
    alloc: Global,
    conn: &mut Connection<S>,
    rounds: u32,
) -> Result<Written, Fail> {
    holds(rt, "no transaction", conn.is_autocommit());
    let mut tx = conn.transaction();
    let written = write_all(&mut tx, alloc, rounds)?;
    tx.commit()?;
    Ok(written)
}

fn write_all<S: Alter>(
    tx: &mut Transaction<'_, S>,
    alloc: Global,
    rounds: u32,
) -> Result<Written, Fail> {
    let mut written = Written {
        events: 0,
        journeys: 0,
        items: String::new(alloc),
    };
    for text in &OLD_TABLES {
        tx.execute(text, &[])?;
    }
    if rounds > 0 {
        write_loads(tx, alloc, &mut written, i64::from(rounds))?;
    }
    for _ in 0..rounds {
        write_round(tx, alloc, &mut written)?;
    }
    write_meta(tx, &written)?;
    Ok(written)
}

fn write_meta<S: Alter>(tx: &mut Transaction<'_, S>, written: &Written) -> Result<(), Fail> {
    tx.execute(
        "INSERT INTO meta VALUES (1, 1, ?1, ?2)",
        params![written.events, written.journeys],
    )?;
    Ok(())
}

/// The texts of the rows of a batch with all cells.
fn content(alloc: Global) -> Result<String, AllocError> {
    let mut text = String::new(alloc);
    for (cell, .., places, _) in cells() {
        write!(text, "{cell}/{places}\n")?;
    }
    Ok(text)
}

/// Writes two batches, of which the second has only the first cell, and the stock after so many rounds. Ann loaded the
/// first batch.
fn write_loads<S: Alter>(
    tx: &mut Transaction<'_, S>,
    alloc: Global,
    written: &mut Written,
    rounds: i64,
) -> Result<(), Fail> {
    let all = content(alloc)?;
    let num = written.next_event();
    write_batch(tx, "all", num, all.as_bytes())?;
    write_answer(tx, "ann", "load", "loaded all 17")?;
    let num = written.next_event();
    write_batch(tx, "one", num, b"F/AL/A1/2030-06-01/100000\n")?;
    for (_, kind, supplier, product, night, places, held) in cells() {
        let free = places.saturating_sub(held.saturating_mul(rounds));
        tx.execute(
            "INSERT INTO stock VALUES (?1, ?2, ?3, ?4, ?5, ?6)",
            params![*kind, *supplier, *product, *night, *places, free],
        )?;
    }
    Ok(())
}

fn write_batch<S: Alter>(
    tx: &mut Transaction<'_, S>,
    name: &str,
    num: i64,
    content: &[u8],
) -> Result<(), Fail> {
    tx.execute(
        "INSERT INTO batch VALUES (?1, ?2, ?3)",
        params![name, num, content],
    )?;
    Ok(())
}

/// Keeps a reply of this agent under this key. The text of the request is that of the key.
fn write_answer<S: Alter>(
    tx: &mut Transaction<'_, S>,
    agent: &str,
    key: &str,
    reply: &str,
) -> Result<(), Fail> {
    tx.execute(
        "INSERT INTO answer VALUES (?1, ?2, ?3, ?4)",
        params![agent, key, key.as_bytes(), reply],
    )?;
    Ok(())
}

/// Writes one round: its journeys begin one after another, and then make their items by turns.
fn write_round<S: Alter>(
    tx: &mut Transaction<'_, S>,
    alloc: Global,
    written: &mut Written,
) -> Result<(), Fail> {
    let first = written.journeys.saturating_add(1);
    for journey in journeys() {
        write_journey(tx, alloc, written, journey)?;
    }
    for turn in 0..MOST_ITEMS {
        let mut id = first;
        for journey in journeys() {
            if let Some(item) = journey.items.get(turn) {
                write_item(tx, written, id, *item)?;
            }
            id = id.saturating_add(1);
        }
    }
    Ok(())
}

/// Writes the rows of a journey except its items, and the replies to its agent, if that is not the house.
fn write_journey<S: Alter>(
    tx: &mut Transaction<'_, S>,
    alloc: Global,
    written: &mut Written,
    journey: &OldJourney,
) -> Result<(), Fail> {
    written.journeys = written.journeys.saturating_add(1);
    let id = written.journeys;
    let num = written.next_event();
    let [steps, tries, position, phase, target, used] = journey.numbers;
    tx.execute(
        "INSERT INTO journey VALUES (?1, ?2, ?3, ?4, ?5, ?6, ?7, ?8, ?9)",
        params![
            id,
            num,
            journey.agent,
            steps,
            tries,
            position,
            phase,
            target,
            used
        ],
    )?;
    for option in journey.options {
        write_option(tx, id, *option)?;
    }
    if journey.agent != "desk" {
        write_answers(tx, alloc, id, journey)?;
    }
    Ok(())
}

/// Writes the replies to the begin of a journey, and to its last move.
fn write_answers<S: Alter>(
    tx: &mut Transaction<'_, S>,
    alloc: Global,
    id: i64,
    journey: &OldJourney,
) -> Result<(), Fail> {
    let key = format!(in alloc; "begin-{id}")?;
    let reply = format!(in alloc; "journey {id} begun")?;
    write_answer(tx, journey.agent, key.as_str(), reply.as_str())?;
    if let Some(item) = last_item(journey) {
        let key = format!(in alloc; "move-{id}")?;
        let reply = format!(in alloc; "journey {id} {item} {}", journey.state)?;
        write_answer(tx, journey.agent, key.as_str(), reply.as_str())?;
    }
    Ok(())
}

fn write_option<S: Alter>(
    tx: &mut Transaction<'_, S>,
    id: i64,
    option: OptionRow,
) -> Result<(), Fail> {
    let (place, opt, save, taken, kind, supplier, product, night, nights, places) = option;
    tx.execute(
        "INSERT INTO step VALUES (?1, ?2, ?3, ?4, ?5, ?6, ?7, ?8, ?9, ?10, ?11)",
        params![
            id, place, opt, save, taken, kind, supplier, product, night, nights, places
        ],
    )?;
    Ok(())
}

fn write_item<S: Alter>(
    tx: &mut Transaction<'_, S>,
    written: &mut Written,
    id: i64,
    item: ItemRow,
) -> Result<(), Fail> {
    let num = written.next_event();
    let (item, a, b) = item;
    tx.execute(
        "INSERT INTO entry VALUES (?1, ?2, ?3, ?4, ?5)",
        params![num, id, item, a, b],
    )?;
    write!(written.items, "{num}|{id}|{item}|{a}|{b}\n")?;
    Ok(())
}
