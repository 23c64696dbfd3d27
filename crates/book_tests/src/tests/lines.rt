//! Commands as lines, and the answers of a book, for tests in tables.
//!
//! `load NAME CELL PLACES` loads a batch, whose rows are separated by commas; `begin PLAN`, `step ID`, `abort ID P`,
//! `stop ID` and `save ID` are the other commands. `items ID` asks for a journey's items, `unfinished ID` for the first
//! unfinished journey above this number, `owned AGENT ID MOST` for the journeys of this agent above it, at most so many,
//! `count all` for how many events, journeys and unfinished journeys there are, `free CELL` for the free places of a cell,
//! `cells WANT` for those of a want's nights, and `stock` for all cells. `@` and a letter or digit represents the cell, or the first five parts of a want,
//! that `NAMES` has.
use allotment::{Cell, Row};
use memory_book::MemBook;
use plan::Plan;
use saga_core::{Agent, Ask, Batch, Book, Brief, Command, Counts, Fault, Name, Reply};
use std::alloc::Global;
use std::process::Abort;
use std::test::Fail;

// letters and digits, and the cells that they represent
const NAMES: [(char, &str); 14] = [
    ('1', "F/AL/A1/2030-06-01"),
    ('2', "F/AL/A2/2030-06-01"),
    ('3', "F/AL/A3/2030-06-01"),
    ('4', "F/AL/A4/2030-06-01"),
    ('5', "F/AL/A5/2030-06-01"),
    ('6', "F/AL/A6/2030-06-01"),
    ('X', "T/BUS/X/2030-06-01"),
    ('Y', "T/BUS/Y/2030-06-01"),
    ('D', "R/INN/DBL/2030-06-01"),
    ('E', "R/INN/DBL/2030-06-02"),
    ('A', "R/INN/A/2030-06-01"),
    ('B', "R/INN/B/2030-06-01"),
    ('C', "R/INN/C/2030-06-01"),
    ('Z', "R/INN/X/2030-06-01"),
];

/// The cell that the first character of the text represents, and the text after it.
fn named(text: &str) -> Option<(&'static str, &str)> {
    for &(letter, cell) in &NAMES {
        if let Some(rest) = text.strip_prefix(letter) {
            return Some((cell, rest));
        }
    }
    None
}

/// The line with its names replaced by what they represent.
fn written_out(alloc: Global, line: &str) -> Result<String, Fail> {
    let mut written = String::new(alloc);
    for (i, part) in line.split('@').enumerate() {
        if i == 0 {
            written.push_str(part)?;
        } else {
            let (cell, rest) = named(part).ok_or("no such name")?;
            written.push_str(cell)?;
            written.push_str(rest)?;
        }
    }
    Ok(written)
}

/// A cell and its places.
fn row_of(text: &str) -> Option<Row> {
    let (cell, places) = text.split_once(' ')?;
    let cell = Cell::parse(cell)?;
    let places = places.parse::<u32>().ok()?;
    if places <= 100_000 {
        Some(Row::new(cell, places))
    } else {
        None
    }
}

/// The rows in a text, separated by commas, each a cell and its places.
fn rows_of(alloc: Global, text: &str) -> Result<Vec<Row>, Fail> {
    let mut rows = Vec::new(alloc);
    for part in text.split(", ") {
        rows.push(row_of(part).ok_or("no row")?)?;
    }
    Ok(rows)
}

/// The batch of a name and its rows.
fn batch_of(alloc: Global, text: &str) -> Result<Batch, Fail> {
    let (name, rows) = text.split_once(' ').ok_or("no rows")?;
    let name = Name::parse(name).ok_or("no name")?;
    Ok(Batch::new(alloc, name, rows_of(alloc, rows)?)?)
}

/// The move of a journey with this word.
fn move_of(word: &str, text: &str) -> Option<Command> {
    let (id, position) = text.split_once(' ').unwrap_or((text, "0"));
    let id = id.parse().ok()?;
    let position = position.parse().ok()?;
    match word {
        "step" => Some(Command::Step(id)),
        "abort" => Some(Command::Abort(id, position)),
        "stop" => Some(Command::Stop(id)),
        "save" => Some(Command::Save(id)),
        _ => None,
    }
}

/// The command of a line without names.
fn written_command(alloc: Global, line: &str) -> Result<Command, Fail> {
    let (word, rest) = line.split_once(' ').ok_or("no command")?;
    match word {
        "load" => Ok(Command::Load(batch_of(alloc, rest)?)),
        "begin" => Ok(Command::Begin(Plan::from_line(alloc, rest)?)),
        _ => Ok(move_of(word, rest).ok_or("no command")?),
    }
}

/// The command of a line.
pub fn command_of(alloc: Global, line: &str) -> Result<Command, Fail> {
    written_command(alloc, written_out(alloc, line)?.as_str())
}

/// The items of a journey, with a blank between them.
fn items(alloc: Global, book: &mut MemBook, id: u64) -> Result<String, Fail> {
    let mut line = String::new(alloc);
    for item in &book.history(id)? {
        if !line.is_empty() {
            line.push(' ')?;
        }
        line.push_str(item.text(alloc)?.as_str())?;
    }
    Ok(line)
}

/// The journeys of an agent above a number, at most so many, each with its agent and its state.
fn owned(alloc: Global, book: &mut MemBook, text: &str) -> Result<String, Fail> {
    let (agent, numbers) = text.split_once(' ').ok_or("no number")?;
    let (after, most) = numbers.split_once(' ').ok_or("no second number")?;
    let agent = Agent::parse(agent).ok_or("no agent")?;
    let mut line = String::new(alloc);
    for brief in &book.owned(&agent, after.parse()?, most.parse()?)? {
        if !line.is_empty() {
            line.push_str(", ")?;
        }
        line.push_str(summary(alloc, brief)?.as_str())?;
    }
    Ok(line)
}

/// The first unfinished journey above a number, with its agent and its state, or `none`.
fn unfinished(alloc: Global, book: &mut MemBook, after: u64) -> Result<String, Fail> {
    match book.first_unfinished(after)? {
        Some(brief) => summary(alloc, &brief),
        None => Ok(String::from_str(alloc, "none")?),
    }
}

/// How many events, journeys and unfinished journeys there are.
fn counts(alloc: Global, book: &mut MemBook) -> Result<String, Fail> {
    let Counts {
        events,
        journeys,
        unfinished,
    } = book.counts()?;
    Ok(format!(in alloc; "{events} {journeys} {unfinished}")?)
}

/// A journey's number, agent and state.
fn summary(alloc: Global, brief: &Brief) -> Result<String, Fail> {
    let id = brief.id;
    let mut line = format!(in alloc; "{id} ")?;
    line.push_str(brief.agent.as_str())?;
    line.push(' ')?;
    line.push_str(brief.cursor.state(alloc)?.as_str())?;
    Ok(line)
}

/// The nights of a want, each with its allotment and its free places.
fn cells(alloc: Global, book: &mut MemBook, want: &str) -> Result<String, Fail> {
    let plan = Plan::from_line(alloc, format!(in alloc; "{want}!0")?.as_str())?;
    let mut line = String::new(alloc);
    if plan.steps() < 1 || plan.options(1) < 1 {
        return Err("no want".into());
    }
    for (night, held) in &book.cells(&plan.want(1, 1))? {
        if !line.is_empty() {
            line.push_str(", ")?;
        }
        let allot = held.allot;
        let free = held.free;
        write!(line, "{night} {allot} {free}")?;
    }
    Ok(line)
}

/// All cells, each with its allotment and its free places.
fn stock(alloc: Global, book: &mut MemBook) -> Result<String, Fail> {
    let mut line = String::new(alloc);
    for (cell, held) in &book.stock()? {
        if !line.is_empty() {
            line.push_str(", ")?;
        }
        let allot = held.allot;
        let free = held.free;
        write!(line, "{cell} {allot} {free}")?;
    }
    Ok(line)
}

/// The free places of a cell, or `none`.
fn free(alloc: Global, book: &mut MemBook, text: &str) -> Result<String, Fail> {
    let cell = Cell::parse(text).ok_or("no cell")?;
    for (other, held) in &book.stock()? {
        if *other == cell {
            let free = held.free;
            return Ok(format!(in alloc; "{free}")?);
        }
    }
    Ok(String::from_str(alloc, "none")?)
}

/// The answer of a book to a command of this asker. Out of memory changes nothing, so the command is then sent once
/// more and gets the answer that it would have had.
pub fn reply(book: &mut MemBook, command: &Command, ask: Option<&Ask>) -> Result<Reply, Fault> {
    match book.act(command, ask) {
        Err(Fault::Memory) => book.act(command, ask),
        answered => answered,
    }
}

/// The answer of a book to a line of the house.
fn answer(alloc: Global, book: &mut MemBook, line: &str) -> Result<String, Fail> {
    let written = written_out(alloc, line)?;
    match written.as_str().split_once(' ') {
        None => stock(alloc, book),
        Some(("items", id)) => items(alloc, book, id.parse()?),
        Some(("unfinished", after)) => unfinished(alloc, book, after.parse()?),
        Some(("owned", agent)) => owned(alloc, book, agent),
        Some(("count", _)) => counts(alloc, book),
        Some(("free", cell)) => free(alloc, book, cell),
        Some(("cells", want)) => cells(alloc, book, want),
        Some(_) => Ok(reply(book, &written_command(alloc, &written)?, None)?.line(alloc)?),
    }
}

/// Stops the test if another text was answered to this line.
pub fn reads(rt: &impl Abort, line: &str, answered: &str, expected: &str) {
    assert!(rt; answered == expected, "{line}: {answered}");
}

/// Checks a table of lines and answers.
pub fn goes_on(
    rt: &impl Abort,
    alloc: Global,
    book: &mut MemBook,
    rows: &[(&str, &str)],
) -> Result<(), Fail> {
    for &(line, expected) in rows {
        let answered = answer(alloc, book, line)?;
        reads(rt, line, &answered, expected);
    }
    Ok(())
}

/// Checks a table of lines and answers, on a new desk.
pub fn answers(rt: &impl Abort, alloc: Global, rows: &[(&str, &str)]) -> Result<(), Fail> {
    goes_on(rt, alloc, &mut MemBook::new(alloc), rows)
}
