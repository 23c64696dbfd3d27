//! What the tests share: checks, commands from lines, and what a book shows.
ghost use Rattle.std.specs.Prelude.{false, None, IsTrue, IfOk};
ghost use Rattle.desk_sql.specs.Calls.{Idle};

use allotment::{Cell, Row};
use commands::{Agent, Ask, Batch, Command, Item, Key, Name};
use plan::Plan;
use saga_core::{Book, Record};
use sqlite::{Alter, Connection};
use std::alloc::Global;
use std::process::Abort;
use std::test::Fail;
use tables::{OpenFault, TableBook, open_from};

/// More journeys than any desk here has.
pub const MOST_JOURNEYS: u64 = 9;

/// Stops the test if this is false.
pub fn holds(rt: &impl Abort, case: &str, is_so: bool)
    ensures { IsTrue is_so }
{
    assert!(rt; is_so, "{case}");
}

/// The rows in a text, separated by commas, each a cell and its places.
fn rows_of(alloc: Global, text: &str) -> Result<Vec<Row>, Fail> {
    let mut rows = Vec::new(alloc);
    for part in text.split(", ") {
        let (cell, places) = part.split_once(' ').ok_or("no places")?;
        let cell = Cell::parse(cell).ok_or("no cell")?;
        rows.push(Row::new(cell, places.parse::<u32>()?.min(100_000)))?;
    }
    Ok(rows)
}

/// The batch in a text: its name, and its rows.
fn batch_of(alloc: Global, text: &str) -> Result<Batch, Fail> {
    let (name, rows) = text.split_once(' ').ok_or("no rows")?;
    let name = Name::parse(name).ok_or("no name")?;
    Ok(Batch::new(alloc, name, rows_of(alloc, rows)?)?)
}

/// The command of a line.
pub fn command_of(alloc: Global, line: &str) -> Result<Command, Fail> {
    let (word, rest) = line.split_once(' ').ok_or("no command")?;
    Ok(match word {
        "load" => Command::Load(batch_of(alloc, rest)?),
        "begin" => Command::Begin(Plan::from_line(alloc, rest)?),
        "abort" => {
            let (id, position) = rest.split_once(' ').ok_or("no position")?;
            Command::Abort(id.parse()?, position.parse()?)
        }
        "stop" => Command::Stop(rest.parse()?),
        "save" => Command::Save(rest.parse()?),
        _ => Command::Step(rest.parse()?),
    })
}

/// The ask of the house's agent under the key of this number, with a line as its text.
pub fn ask_of(alloc: Global, key: Option<usize>, line: &str) -> Result<Option<Ask>, Fail> {
    let Some(number) = key else {
        return Ok(None);
    };
    let key = format!(in alloc; "k{number}")?;
    let key = Key::parse(key.as_str()).ok_or("no key")?;
    let text = Vec::from_slice(alloc, line.as_bytes())?;
    Ok(Some(Ask::new(Agent::house(), key, text)))
}

/// A journey in one line: its number, agent, state and items, and its plan.
fn journey_text(alloc: Global, id: u64, record: &Record, items: &[Item]) -> Result<String, Fail> {
    let state = record.cursor.state(alloc)?;
    let mut text = format!(in alloc; "{id} {} {state}", record.agent.as_str())?;
    for item in items {
        text.push(' ')?;
        text.push_str(item.text(alloc)?.as_str())?;
    }
    text.push(';')?;
    text.push_str(record.plan.line(alloc)?.as_str())?;
    Ok(text)
}

/// All that a book shows: a line for each cell with its allotted and free places, and one for each journey.
pub fn shown<B: Book>(alloc: Global, book: &mut B) -> Result<String, Fail> {
    let mut text = String::new(alloc);
    for (cell, held) in &book.stock()? {
        let line = format!(in alloc; "{cell} {} {};", held.allot, held.free)?;
        text.push_str(line.as_str())?;
    }
    for id in 1..MOST_JOURNEYS {
        let Some(record) = book.journey(id)? else {
            break;
        };
        let items = book.history(id)?;
        text.push_str(journey_text(alloc, id, &record, &items)?.as_str())?;
        text.push(';')?;
    }
    Ok(text)
}

/// The desk over the store of a connection.
pub fn book_over<S: Alter + Drop>(
    alloc: Global,
    conn: Connection<S>,
) -> Result<TableBook<S>, OpenFault>
    requires idle { Idle conn }

    ensures idle { IfOk result (λ b. Idle b.conn) }
{
    match open_from(conn) {
        Ok(opened) => match opened.into_book(alloc) {
            Ok(book) => Ok(book),
            Err((_, fault)) => Err(fault),
        },
        Err((_, fault)) => Err(fault),
    }
}
