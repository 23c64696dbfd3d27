//! A file that was migrated is used: its keys give their replies, recovery brings every journey to its end, and a
//! journey takes a save-point while it runs.
use crate::tests::helping::{book_over, bring_over, holds, open_for, run};
use crate::tests::old_desks::{journeys, last_item};
use crate::tests::old_files::old_file;
use crate::tests::reporting::shown;
use crate::tests::rows::rows;
use allotment::{Cell, Row};
use commands::{Agent, Ask, Batch, Command, Key, Name, Reply};
use memory_files::Session;
use plan::Plan;
use recovery::recover;
use saga_core::Book;
use sqlite::{Alter, Connection};
use std::alloc::Global;
use std::process::Abort;
use std::test::Fail;
use tables::TableBook;

/// Opens an old file of so many rounds for a session.
fn open_old<R: Abort, T: Session<R>>(
    rt: &R,
    alloc: Global,
    rounds: u32,
    session: &mut T,
) -> Result<(), Fail> {
    let file = old_file(rt, alloc, rounds)?;
    open_for(rt, alloc, &[], file.bytes(), session)?;
    Ok(())
}

/// Migrates a store, and returns the desk over it.
fn brought_over<S: Alter + Drop>(
    rt: &impl Abort,
    alloc: Global,
    mut conn: Connection<S>,
) -> Result<TableBook<S>, Fail> {
    bring_over(rt, &mut conn)?;
    book_over(rt, alloc, conn)
}

/// Stops the test if another line was answered.
fn says(rt: &impl Abort, alloc: Global, reply: &Reply, expected: &str) -> Result<(), Fail> {
    let line = reply.line(alloc)?;
    assert_eq!(rt; line.as_str(), expected);
    Ok(())
}

/// A request of an agent under a key, with this text.
fn ask(alloc: Global, agent: &str, key: &str, text: &str) -> Result<Ask, Fail> {
    let agent = Agent::parse(agent).ok_or("no agent")?;
    let key = Key::parse(key).ok_or("no key")?;
    Ok(Ask::new(agent, key, Vec::from_slice(alloc, text.as_bytes())?))
}

/// Checks that a used key gives its agent this reply, and a refusal for another text, whatever the command.
fn is_kept<B: Book>(
    rt: &impl Abort,
    alloc: Global,
    book: &mut B,
    agent: &str,
    key: &str,
    expected: &str,
) -> Result<(), Fail> {
    let again = ask(alloc, agent, key, key)?;
    let reply = book.act(&Command::Step(1), Some(&again))?;
    says(rt, alloc, &reply, expected)?;
    let other = ask(alloc, agent, key, "other")?;
    let reply = book.act(&Command::Step(1), Some(&other))?;
    says(rt, alloc, &reply, "refused 14 KeyReused")
}

/// Checks that each kept key of a file of so many rounds gives its reply.
pub fn keeps_all<B: Book>(
    rt: &impl Abort,
    alloc: Global,
    book: &mut B,
    rounds: u32,
) -> Result<(), Fail> {
    is_kept(rt, alloc, book, "ann", "load", "loaded all 17")?;
    let mut id = 0u64;
    for _ in 0..rounds {
        for journey in journeys() {
            id = id.saturating_add(1);
            if journey.agent == "desk" {
                continue;
            }
            let key = format!(in alloc; "begin-{id}")?;
            let reply = format!(in alloc; "journey {id} begun")?;
            is_kept(rt, alloc, book, journey.agent, key.as_str(), reply.as_str())?;
            if let Some(item) = last_item(journey) {
                let key = format!(in alloc; "move-{id}")?;
                let reply = format!(in alloc; "journey {id} {item} {}", journey.state)?;
                is_kept(rt, alloc, book, journey.agent, key.as_str(), reply.as_str())?;
            }
        }
    }
    Ok(())
}

/// Checks the kept keys of three rounds.
#[derive(Drop)]
struct KeptKeys;

impl<R: Abort> Session<R> for KeptKeys {
    fn run<S: Alter + Drop>(
        &mut self,
        rt: &R,
        alloc: Global,
        conn: Connection<S>,
    ) -> Result<Connection<S>, Fail> {
        let mut book = brought_over(rt, alloc, conn)?;
        keeps_all(rt, alloc, &mut book, 3)?;
        let mut conn = book.into_store();
        let events = rows(alloc, &mut conn, "SELECT events FROM meta")?;
        assert_eq!(rt; events.as_str(), "107\n");
        Ok(conn)
    }
}

#[test]
fn each_kept_key_gives_its_reply(rt: HostRuntime) -> Result<(), Fail> {
    open_old(&rt, rt.alloc(), 3, &mut KeptKeys)
}

/// The items of a journey, and its state.
fn history<B: Book>(alloc: Global, book: &mut B, id: u64) -> Result<String, Fail> {
    let mut line = String::new(alloc);
    for item in &book.history(id)? {
        line.push_str(item.text(alloc)?.as_str())?;
        line.push(' ')?;
    }
    let record = book.journey(id)?.ok_or("no journey")?;
    line.push_str(record.cursor.state(alloc)?.as_str())?;
    Ok(line)
}

// the journeys of a round after recovery
#[rattlefmt::skip]
static RECOVERED: [&str; 8] = [
    "T1.1 T2.1 ended 2",
    "T1.1 B0a C1.1 undone 0",
    "T1.1 T2.1 T3.1 B1a C3.1 C2.1 T2.1 T3.1 T4.1 ended 4",
    "T1.1 B1r B1r T2.3 ended 2",
    "T1.1 T2.1 B1s C2.1 B1s T2.1 T3.1 ended 3",
    "B0r undone 0",
    "B0s undone 0",
    "T1.1 T2.1 T3.1 T4.1 T5.1 B4a B2a C5.1 C4.1 C3.1 T3.1 T4.1 T5.1 T6.1 ended 6",
];

// how many events recovery makes in a round: 4, 3, 1 and 6
const RECOVERED_EVENTS: u64 = 14;

/// Checks that recovery brings each journey of so many rounds to its end, and that the kept keys still give their
/// replies.
fn is_recovered<B: Book + Drop>(
    rt: &impl Abort,
    alloc: Global,
    book: B,
    rounds: u8,
) -> Result<B, Fail> {
    let Ok((mut ready, made)) = recover(book) else {
        return Err(Fail::from("recovery failed"));
    };
    let expected = RECOVERED_EVENTS.saturating_mul(u64::from(rounds));
    assert_eq!(rt; made, expected);
    let unfinished = ready.first_unfinished(0)?;
    holds(rt, "none is unfinished", unfinished.is_none());
    have_ended(rt, alloc, &mut ready, rounds)?;
    keeps_all(rt, alloc, &mut ready, u32::from(rounds))?;
    Ok(ready.into_inner())
}

/// Checks that the journeys of so many rounds have ended as recovery ends them.
fn have_ended<B: Book>(
    rt: &impl Abort,
    alloc: Global,
    book: &mut B,
    rounds: u8,
) -> Result<(), Fail> {
    let mut id = 0u64;
    for _ in 0..rounds {
        for expected in &RECOVERED {
            id = id.saturating_add(1);
            let found = history(alloc, book, id)?;
            assert_eq!(rt; found.as_str(), *expected);
        }
    }
    Ok(())
}

/// Migrates a file, and recovers its desk.
#[derive(Drop)]
struct Recovered {
    rounds: u8,
}

impl<R: Abort> Session<R> for Recovered {
    fn run<S: Alter + Drop>(
        &mut self,
        rt: &R,
        alloc: Global,
        conn: Connection<S>,
    ) -> Result<Connection<S>, Fail> {
        let book = brought_over(rt, alloc, conn)?;
        Ok(is_recovered(rt, alloc, book, self.rounds)?.into_store())
    }
}

#[test]
fn recovery_brings_every_journey_to_its_end(rt: HostRuntime) -> Result<(), Fail> {
    for rounds in [1u8, 5] {
        open_old(
            &rt,
            rt.alloc(),
            u32::from(rounds),
            &mut Recovered { rounds },
        )?;
    }
    Ok(())
}

/// Migrates a file of one round, and deletes its old items.
#[derive(Drop)]
struct WithoutOld;

impl<R: Abort> Session<R> for WithoutOld {
    fn run<S: Alter + Drop>(
        &mut self,
        rt: &R,
        alloc: Global,
        mut conn: Connection<S>,
    ) -> Result<Connection<S>, Fail> {
        bring_over(rt, &mut conn)?;
        run(rt, &mut conn, &["DELETE FROM entry"])?;
        let conn = shown(rt, alloc, conn, 1)?.into_store();
        let book = book_over(rt, alloc, conn)?;
        Ok(is_recovered(rt, alloc, book, 1)?.into_store())
    }
}

#[test]
fn the_old_items_are_not_read(rt: HostRuntime) -> Result<(), Fail> {
    open_old(&rt, rt.alloc(), 1, &mut WithoutOld)
}

/// A request to the desk over a file of one round: the ninth journey begins, is moved, or has a save-point taken.
#[derive(Clone, Copy)]
enum Asked {
    Begin(&'static str),
    Step,
    Save,
    Abort(usize),
}

#[rattlefmt::skip]
static NEW_JOURNEY: [(Asked, &str); 13] = [
    (Asked::Begin("F/AL/A5/2030-06-01/1/1;T/BUS/X/2030-06-01/1/1;F/AL/A6/2030-06-01/1/1!0"), "journey 9 begun"),
    (Asked::Save,     "refused 28 NoSave"),
    (Asked::Step,     "journey 9 T1.1 run 1"),
    (Asked::Save,     "journey 9 S1 run 1"),
    (Asked::Save,     "refused 28 NoSave"),
    (Asked::Step,     "journey 9 T2.1 run 2"),
    (Asked::Save,     "journey 9 S2 run 2"),
    (Asked::Abort(1), "journey 9 B1a back 2 to 1"),
    (Asked::Step,     "journey 9 C2.1 run 1"),
    (Asked::Abort(2), "refused 11 NoSavePoint"),
    (Asked::Step,     "journey 9 T2.1 run 2"),
    (Asked::Abort(1), "journey 9 B1a back 2 to 1"),
    (Asked::Step,     "journey 9 C2.1 run 1"),
];

// what is stored then: the 37 events before, and ten more
#[rattlefmt::skip]
static AFTER_IT: [(&str, &str); 5] = [
    ("SELECT version, events, journeys FROM meta", "2|47|9\n"),
    ("SELECT num, item, a, b FROM entry2 WHERE journey = 9 ORDER BY num",
        "39|0|1|1\n40|3|1|0\n41|0|2|1\n42|3|2|0\n43|2|1|2\n44|1|2|1\n45|0|2|1\n46|2|1|2\n47|1|2|1\n"),
    ("SELECT journey, pos FROM mark", "9|1\n"),
    ("SELECT count(*), max(num) FROM entry", "27|37\n"),
    ("SELECT allot, free FROM stock WHERE product = 'A5' OR product = 'X' ORDER BY kind", "60000|59999\n20000|20000\n"),
];

fn command_of(alloc: Global, asked: Asked) -> Result<Command, Fail> {
    Ok(match asked {
        Asked::Begin(line) => Command::Begin(Plan::from_line(alloc, line)?),
        Asked::Step => Command::Step(9),
        Asked::Save => Command::Save(9),
        Asked::Abort(position) => Command::Abort(9, position),
    })
}

/// Checks the answers to the ninth journey.
fn is_answered<B: Book>(rt: &impl Abort, alloc: Global, book: &mut B) -> Result<(), Fail> {
    for &(asked, expected) in &NEW_JOURNEY {
        let reply = book.act(&command_of(alloc, asked)?, None)?;
        says(rt, alloc, &reply, expected)?;
    }
    Ok(())
}

/// Checks the rows that are stored then.
fn has_rows<S: Alter>(
    rt: &impl Abort,
    alloc: Global,
    conn: &mut Connection<S>,
) -> Result<(), Fail> {
    for &(statement, expected) in &AFTER_IT {
        assert_eq!(rt; rows(alloc, conn, statement)?.as_str(), expected);
    }
    Ok(())
}

/// Makes the ninth journey, in a migrated file of one round.
#[derive(Drop)]
struct NewJourney;

impl<R: Abort> Session<R> for NewJourney {
    fn run<S: Alter + Drop>(
        &mut self,
        rt: &R,
        alloc: Global,
        conn: Connection<S>,
    ) -> Result<Connection<S>, Fail> {
        let mut book = brought_over(rt, alloc, conn)?;
        is_answered(rt, alloc, &mut book)?;
        let mut conn = book.into_store();
        has_rows(rt, alloc, &mut conn)?;
        Ok(conn)
    }
}

#[test]
fn a_new_journey_takes_a_save_point(rt: HostRuntime) -> Result<(), Fail> {
    open_old(&rt, rt.alloc(), 1, &mut NewJourney)
}

/// A batch of these cells with their places.
fn batch(alloc: Global, name: &str, cells: &[(&str, u32)]) -> Result<Command, Fail> {
    let mut rows = Vec::new(alloc);
    for &(cell, places) in cells {
        let cell = Cell::parse(cell).ok_or("no cell")?;
        rows.push(Row::new(cell, places.min(100_000)))?;
    }
    let name = Name::parse(name).ok_or("no name")?;
    Ok(Command::Load(Batch::new(alloc, name, rows)?))
}

// a batch, its cells, and the answer: a batch of the old file, with the same row and with another, and one below what
// is held
#[rattlefmt::skip]
static BATCHES: [(&str, &[(&str, u32)], &str); 4] = [
    ("one", &[("F/AL/A1/2030-06-01", 100_000)], "loaded one 1"),
    ("one", &[("F/AL/A1/2030-06-01", 99_999)],  "refused 13 BatchDiffers"),
    ("two", &[("F/AL/A6/2030-06-01", 0), ("F/AL/A1/2030-06-01", 4)], "refused 12 BelowHeld 2"),
    ("two", &[("F/AL/A6/2030-06-01", 0), ("F/AL/A1/2030-06-01", 5)], "loaded two 2"),
];

/// Checks the answers to the batches.
fn are_loaded<B: Book>(rt: &impl Abort, alloc: Global, book: &mut B) -> Result<(), Fail> {
    for &(name, cells, expected) in &BATCHES {
        let reply = book.act(&batch(alloc, name, cells)?, None)?;
        says(rt, alloc, &reply, expected)?;
    }
    Ok(())
}

/// Loads the batches into a migrated file of one round.
#[derive(Drop)]
struct Loads;

impl<R: Abort> Session<R> for Loads {
    fn run<S: Alter + Drop>(
        &mut self,
        rt: &R,
        alloc: Global,
        conn: Connection<S>,
    ) -> Result<Connection<S>, Fail> {
        let mut book = brought_over(rt, alloc, conn)?;
        are_loaded(rt, alloc, &mut book)?;
        let mut conn = book.into_store();
        let meta = rows(alloc, &mut conn, "SELECT events FROM meta")?;
        assert_eq!(rt; meta.as_str(), "38\n");
        Ok(conn)
    }
}

#[test]
fn batches_are_known_and_places_are_held(rt: HostRuntime) -> Result<(), Fail> {
    open_old(&rt, rt.alloc(), 1, &mut Loads)
}
