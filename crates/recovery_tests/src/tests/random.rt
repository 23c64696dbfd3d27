//! The desk in memory and the desk over tables beside the plain program, on random commands from fixed seeds.
use crate::tests::plain::{Plain, net, phase, used};
use allotment::{Cell, Row};
use commands::{Agent, Ask, Batch, Cause, Command, Item, Key, Name, Refusal, Reply};
use memory_book::MemBook;
use memory_files::{ClosedFile, Session};
use plan::Plan;
use saga_core::Book;
use sqlite::{Alter, Connection};
use std::alloc::Global;
use std::process::Abort;
use std::test::Fail;
use tables::open_from;

/// Pseudo-random numbers, the same in each run.
#[derive(Drop)]
struct Dice {
    state: u64,
}

impl Dice {
    /// A number less than `below`.
    fn roll(&mut self, below: u64) -> u64 {
        self.state = self
            .state
            .wrapping_mul(6_364_136_223_846_793_005)
            .wrapping_add(1_442_695_040_888_963_407);
        if below == 0 {
            0
        } else {
            (self.state >> 33) % below
        }
    }

    /// One of these texts.
    fn pick<'a>(&mut self, texts: &[&'a str]) -> &'a str {
        let i = self.roll(texts.len() as u64);
        texts.get(i as usize).copied().unwrap_or("")
    }
}

// the plans of the journeys that begin
#[rattlefmt::skip]
const PLANS: [&str; 7] = [
    "F/AL/A1/2030-06-01/1/1*;T/BUS/X/2030-06-01/1/1;R/INN/DBL/2030-06-01/1/1!2",
    "R/INN/A/2030-06-01/1/1|R/INN/B/2030-06-01/1/1|R/INN/C/2030-06-01/1/1*;F/AL/A1/2030-06-01/1/2;\
        F/AL/A2/2030-06-01/1/1!1",
    "R/INN/DBL/2030-06-01/2/1!0",
    "R/INN/X/2030-06-01/1/1;T/BUS/Y/2030-06-01/1/1!0",
    "F/AL/A1/2030-06-01/1/1*;F/AL/A2/2030-06-01/1/1*;F/AL/A3/2030-06-01/1/1*;T/BUS/X/2030-06-01/1/3!9",
    "R/INN/DBL/2030-06-02/1/2|R/INN/DBL/2030-06-01/1/1!0",
    "F/AL/A3/2030-06-01/1/1;F/AL/A4/2030-06-01/1/1;F/AL/A5/2030-06-01/1/1*;F/AL/A6/2030-06-01/1/1;\
        R/INN/X/2030-06-01/1/1!3",
];

// the cells; a load has some consecutive ones of this list
const CELLS: [&str; 14] = [
    "F/AL/A1/2030-06-01",
    "T/BUS/X/2030-06-01",
    "R/INN/DBL/2030-06-01",
    "R/INN/DBL/2030-06-02",
    "F/AL/A2/2030-06-01",
    "R/INN/A/2030-06-01",
    "F/AL/A3/2030-06-01",
    "R/INN/B/2030-06-01",
    "R/INN/X/2030-06-01",
    "R/INN/C/2030-06-01",
    "T/BUS/Y/2030-06-01",
    "F/AL/A4/2030-06-01",
    "F/AL/A5/2030-06-01",
    "F/AL/A6/2030-06-01",
];

/// A load of some consecutive cells of `CELLS`.
fn load(alloc: Global, dice: &mut Dice) -> Result<Command, Fail> {
    let number = dice.roll(30);
    let name = format!(in alloc; "b{number}")?;
    let name = Name::parse(name.as_str()).ok_or("no name")?;
    let first = dice.roll(CELLS.len() as u64) as usize;
    let count = dice.roll(6).saturating_add(1) as usize;
    let mut rows = Vec::new(alloc);
    for cell in CELLS.iter().skip(first).take(count) {
        let cell = Cell::parse(cell).ok_or("no cell")?;
        let places = dice.roll(9).min(100_000) as u32;
        rows.push(Row::new(cell, places))?;
    }
    Ok(Command::Load(Batch::new(alloc, name, rows)?))
}

/// The number of one of the last journeys, or of one that does not exist yet.
fn some_journey(dice: &mut Dice, journeys: u64) -> u64 {
    journeys.saturating_add(1).saturating_sub(dice.roll(6))
}

/// A command, where so many journeys have begun.
fn command(alloc: Global, dice: &mut Dice, journeys: u64) -> Result<Command, Fail> {
    let id = some_journey(dice, journeys);
    let position = dice.roll(5) as usize;
    Ok(match dice.roll(24) {
        0 | 1 => load(alloc, dice)?,
        2 | 3 => Command::Begin(Plan::from_line(alloc, dice.pick(&PLANS))?),
        4 | 5 => Command::Abort(id, position),
        6 | 7 => Command::Stop(id),
        8..=10 => Command::Save(id),
        _ => Command::Step(id),
    })
}

/// The asker, if it is not the house.
fn ask(alloc: Global, dice: &mut Dice) -> Result<Option<Ask>, Fail> {
    let agent = dice.pick(&["ann", "bob", "", "", ""]);
    let number = dice.roll(200);
    let key = format!(in alloc; "k{number}")?;
    let text = dice.pick(&["one", "two"]);
    let text = Vec::from_slice(alloc, text.as_bytes())?;
    match (Agent::parse(agent), Key::parse(key.as_str())) {
        (Some(agent), Some(key)) => Ok(Some(Ask::new(agent, key, text))),
        _ => Ok(None),
    }
}

/// Checks that a book shows the same of a journey as the plain program.
fn same_journey<B: Book>(
    rt: &impl Abort,
    alloc: Global,
    book: &mut B,
    plain: &Plain,
    id: u64,
) -> Result<(), Fail> {
    let items = plain.history(id)?;
    assert!(rt;
        book.history(id)?.as_slice() == items.as_slice(),
        "items of {id}"
    );
    let trace = book.trace(id)?;
    match (book.journey(id)?, plain.begun(id)) {
        (Some(record), Some((agent, plan))) => {
            let trace = trace.ok_or("no trace")?;
            assert!(rt; trace.brief.id == id, "number of {id}");
            assert!(rt; trace.brief.agent == *agent, "agent of the trace of {id}");
            assert!(rt;
                trace.brief.cursor == record.cursor,
                "cursor of the trace of {id}"
            );
            assert!(rt;
                trace.items.as_slice() == items.as_slice(),
                "items of the trace of {id}"
            );
            let pos = net(alloc, &items)?.len();
            assert!(rt; record.agent == *agent, "agent of {id}");
            assert_eq!(rt;
                record.plan.line(alloc)?.as_str(),
                plan.line(alloc)?.as_str()
            );
            assert_eq!(rt; record.cursor.pos, pos, "position of {id}");
            assert_eq!(rt; record.cursor.used, used(&items), "refusals of {id}");
            assert_eq!(rt;
                record.cursor.phase,
                phase(plan, &items, pos),
                "phase of {id}"
            );
        }
        (None, None) => assert!(rt; trace.is_none(), "trace of {id}"),
        _ => assert!(rt; false, "journey {id}"),
    }
    Ok(())
}

/// Checks that a book shows the places that the plain program counts.
fn same_stock<B: Book>(rt: &impl Abort, book: &mut B, plain: &Plain) -> Result<(), Fail> {
    for (cell, held) in &book.stock()? {
        let places = plain.allotment(cell);
        assert_eq!(rt; places, Some(u64::from(held.allot)), "{cell}");
        let left = u64::from(held.allot).checked_sub(plain.held(cell)?);
        assert_eq!(rt; left, Some(u64::from(held.free)), "{cell}");
    }
    Ok(())
}

/// Checks that a book lists the unfinished journeys that it finds one after another.
fn same_unfinished<B: Book>(rt: &impl Abort, book: &mut B) -> Result<(), Fail> {
    let mut after = 0;
    for brief in &book.unfinished()? {
        let found = book.first_unfinished(after)?.ok_or("no journey")?;
        assert!(rt;
            (found.id, found.agent, found.cursor) == (brief.id, brief.agent, brief.cursor),
            "the unfinished journey {after}"
        );
        after = brief.id;
    }
    assert!(rt;
        book.first_unfinished(after)?.is_none(),
        "no unfinished journey above {after}"
    );
    Ok(())
}

/// Checks that two books show the same places of all cells, and the same unfinished journey above this number.
fn same_shown<A: Book, B: Book>(
    rt: &impl Abort,
    one: &mut A,
    other: &mut B,
    after: u64,
) -> Result<(), Fail> {
    assert!(rt;
        one.stock()?.as_slice() == other.stock()?.as_slice(),
        "the stock"
    );
    same_unfinished(rt, one)?;
    same_unfinished(rt, other)?;
    let shown = one
        .first_unfinished(after)?
        .map(|brief| (brief.id, brief.cursor));
    let other = other
        .first_unfinished(after)?
        .map(|brief| (brief.id, brief.cursor));
    assert!(rt;
        shown == other,
        "the first unfinished journey above {after}"
    );
    Ok(())
}

const KINDS: usize = 15;

/// The kind of this reply. The kinds are those that a command may get while there is room for events.
fn kind(reply: &Reply) -> usize {
    match reply {
        Reply::Loaded { .. } => 0,
        Reply::Begun { .. } => 1,
        Reply::Moved { item, .. } => match item {
            Item::Transaction { .. } => 2,
            Item::Compensation { .. } => 3,
            Item::Turn { cause, .. } => match cause {
                Cause::Stop => 4,
                Cause::Refused => 5,
                Cause::Asked => 6,
            },
            Item::Save { .. } => 7,
        },
        Reply::Refused(refusal) => match refusal {
            Refusal::NoJourney => 8,
            Refusal::Finished => 9,
            Refusal::NoSavePoint => 10,
            Refusal::BelowHeld { .. } => 11,
            Refusal::BatchDiffers => 12,
            Refusal::KeyReused => 13,
            Refusal::NoSave => 14,
            _ => KINDS,
        },
    }
}

/// Stops the test if a desk gave another answer than the plain program.
fn same_reply(rt: &impl Abort, desk: &str, seed: u64, turn: u64, found: &Reply, expected: &Reply) {
    assert_eq!(rt; found, expected, "seed {seed}, turn {turn}, {desk}");
}

/// The desk in memory and the plain program, and how many commands of a seed they have answered.
#[derive(Drop)]
struct Desks {
    seed: u64,
    dice: Dice,
    plain: Plain,
    book: MemBook,
    /// How many commands were answered.
    turn: u64,
    /// How many commands are to be answered.
    commands: u64,
    /// How many replies of each kind were given.
    counts: [u32; KINDS],
}

impl Desks {
    /// Sends one more random command to each desk, and compares the replies and what is shown.
    fn answer<B: Book>(
        &mut self,
        rt: &impl Abort,
        alloc: Global,
        tables: &mut B,
    ) -> Result<(), Fail> {
        let journeys = self.plain.count();
        let command = command(alloc, &mut self.dice, journeys)?;
        let ask = ask(alloc, &mut self.dice)?;
        let reply = self.plain.act(&command, ask.as_ref())?;
        let (seed, turn) = (self.seed, self.turn);
        let in_memory = self.book.act(&command, ask.as_ref())?;
        same_reply(rt, "in memory", seed, turn, &in_memory, &reply);
        let over_tables = tables.act(&command, ask.as_ref())?;
        same_reply(rt, "over tables", seed, turn, &over_tables, &reply);
        if let Some(count) = self.counts.get_mut(kind(&reply)) {
            *count = count.saturating_add(1);
        }
        let id = some_journey(&mut self.dice, journeys);
        self.compare(rt, alloc, tables, id)
    }

    /// Compares what is shown of a journey each time, and of everything now and then.
    fn compare<B: Book>(
        &mut self,
        rt: &impl Abort,
        alloc: Global,
        tables: &mut B,
        id: u64,
    ) -> Result<(), Fail> {
        same_journey(rt, alloc, &mut self.book, &self.plain, id)?;
        same_journey(rt, alloc, tables, &self.plain, id)?;
        if self.turn % 20 == 0 {
            same_stock(rt, &mut self.book, &self.plain)?;
            same_shown(rt, &mut self.book, tables, id)?;
        }
        Ok(())
    }
}

impl Desks {
    /// Goes on until the tables are to be closed, or all commands are answered.
    fn go_on<B: Book, R: Abort>(
        &mut self,
        rt: &R,
        alloc: Global,
        tables: &mut B,
    ) -> Result<(), Fail> {
        for turn in self.turn..self.commands {
            self.turn = turn;
            self.answer(rt, alloc, tables)?;
            self.turn = turn.saturating_add(1);
            if self.dice.roll(25) == 0 {
                break;
            }
        }
        Ok(())
    }
}

impl<R: Abort> Session<R> for Desks {
    fn run<S: Alter + Drop>(
        &mut self,
        rt: &R,
        alloc: Global,
        conn: Connection<S>,
    ) -> Result<Connection<S>, Fail> {
        let opened = match open_from(conn) {
            Ok(opened) => opened,
            Err(_) => return Err(Fail::from("the desk is not opened")),
        };
        let mut book = match opened.into_book(alloc) {
            Ok(book) => book,
            Err(_) => return Err(Fail::from("no book is made")),
        };
        self.go_on(rt, alloc, &mut book)?;
        Ok(book.into_store())
    }
}

/// Answers random commands by each desk, the one over tables being closed and opened again now and then, and compares
/// the replies and what is shown. Returns how many replies of each kind there were.
fn alike(
    rt: &impl Abort,
    alloc: Global,
    seed: u64,
    commands: u64,
    counts: [u32; KINDS],
) -> Result<[u32; KINDS], Fail> {
    let mut desks = Desks {
        seed,
        dice: Dice { state: seed },
        plain: Plain::new(alloc),
        book: MemBook::new(alloc),
        turn: 0,
        commands,
        counts,
    };
    let mut tables = ClosedFile::new(alloc);
    for _ in 0..commands {
        if desks.turn == commands {
            break;
        }
        tables = tables.open_for(rt, alloc, &mut desks)?;
    }
    Ok(desks.counts)
}

#[test]
fn random_commands_are_answered_as_by_the_plain_program(rt: HostRuntime) -> Result<(), Fail> {
    let mut counts = [0u32; KINDS];
    for seed in 0..50 {
        counts = alike(&rt, rt.alloc(), seed, 200, counts)?;
    }
    for (kind, count) in counts.iter().enumerate() {
        assert!(rt; *count >= 20, "kind {kind} of {counts:?}");
    }
    Ok(())
}
