// What no clause says: each call succeeds given enough memory. The expected values are computed by hand from the rules.
ghost use Rattle.std.specs.Prelude.{IsTrue};

use memory_book::MemBook;
use plan::Plan;
use saga_core::{Agent, Ask, Book, Command, Cursor, Fault, Key, Phase, Refusal, Reply, run};
use std::alloc::Global;
use std::process::Abort;
use std::test::Fail;

const FLIGHT: &str = "F/AL/A1/2030-06-01/1/1!0";

const AT_START: Cursor = Cursor {
    pos: 0,
    phase: Phase::Run,
    used: 0,
};

const REUSED: Reply = Reply::Refused(Refusal::KeyReused);

/// Stops the test if this does not hold.
pub fn holds(rt: &impl Abort, case: &str, is_so: bool)
    ensures { IsTrue is_so }
{
    assert!(rt; is_so, "{case}");
}

/// The command that begins the journey of one flight.
fn begin(alloc: Global) -> Result<Command, Fail> {
    Ok(Command::Begin(Plan::from_line(alloc, FLIGHT)?))
}

/// A request of this agent, under this key and with this text.
pub fn ask(alloc: Global, agent: &str, key: &str, text: &str) -> Result<Ask, Fail> {
    let agent = Agent::parse(agent).ok_or("no agent")?;
    let key = Key::parse(key).ok_or("no key")?;
    Ok(Ask::new(agent, key, text.as_bytes().to_vec(alloc)?))
}

/// Stops the test if the book gives another answer to this command.
fn replies(
    rt: &impl Abort,
    case: &str,
    book: &mut MemBook,
    command: &Command,
    ask: Option<&Ask>,
    expected: Reply,
) -> Result<(), Fault> {
    let reply = book.act(command, ask)?;
    holds(rt, case, reply == expected);
    Ok(())
}

#[test]
fn journeys_are_numbered_from_1(rt: HostRuntime) -> Result<(), Fail> {
    let alloc = rt.alloc();
    let mut book = MemBook::new(alloc);
    let commands = vec![in alloc; (begin(alloc)?, None), (begin(alloc)?, None)]?;
    match run(alloc, &mut book, &commands) {
        Ok(replies) => {
            let begun = [Reply::Begun { id: 1 }, Reply::Begun { id: 2 }];
            holds(&rt, "two are begun", replies.as_slice() == begun.as_slice());
            Ok(())
        }
        Err((_replies, fault)) => Err(fault.into()),
    }
}

/// Whether the book has a journey with this number.
fn has_journey(book: &mut MemBook, id: u64) -> Result<bool, Fault> {
    let record = book.journey(id)?;
    Ok(record.is_some())
}

/// What the book keeps for this agent under this key.
fn kept(book: &mut MemBook, agent: &str, key: &str) -> Result<Option<Reply>, Fail> {
    let agent = Agent::parse(agent).ok_or("no agent")?;
    let key = Key::parse(key).ok_or("no key")?;
    Ok(book.kept(&agent, &key)?)
}

// agent, key and text of a request, and the expected answer
#[rattlefmt::skip]
const ASKS: [(&str, &str, &str, &str, Reply); 6] = [
    ("a new key",                "anna", "k1", "one", Reply::Begun { id: 1 }),
    ("the same again",           "anna", "k1", "one", Reply::Begun { id: 1 }),
    ("with another text",        "anna", "k1", "two", REUSED),
    ("another agent's same key", "otto", "k1", "two", Reply::Begun { id: 2 }),
    ("another key",              "anna", "k2", "two", Reply::Begun { id: 3 }),
    ("the first key once more",  "anna", "k1", "one", Reply::Begun { id: 1 }),
];

#[test]
fn a_key_acts_once(rt: HostRuntime) -> Result<(), Fail> {
    let alloc = rt.alloc();
    let mut book = MemBook::new(alloc);
    let command = begin(alloc)?;
    for &(case, agent, key, text, reply) in &ASKS {
        let ask = ask(alloc, agent, key, text)?;
        replies(&rt, case, &mut book, &command, Some(&ask), reply)?;
    }
    let found = kept(&mut book, "otto", "k1")?;
    holds(
        &rt,
        "its reply is kept",
        found == Some(Reply::Begun { id: 2 }),
    );
    let other = kept(&mut book, "otto", "k2")?;
    holds(&rt, "and no other one", other.is_none());
    holds(&rt, "there are three", has_journey(&mut book, 3)?);
    holds(&rt, "and no fourth", !has_journey(&mut book, 4)?);
    Ok(())
}

/// Stops the test if this journey is not at its start, or belongs to another agent.
fn is_shown(
    rt: &impl Abort,
    alloc: Global,
    book: &mut MemBook,
    id: u64,
    agent: &str,
) -> Result<(), Fail> {
    let record = book.journey(id)?.ok_or("no journey")?;
    let line = record.plan.line(alloc)?;
    holds(rt, agent, record.agent.as_str() == agent);
    holds(rt, agent, line.as_str() == FLIGHT);
    holds(rt, agent, record.cursor == AT_START);
    holds(rt, agent, !record.marks.has(1));
    holds(rt, agent, book.history(id)?.is_empty());
    Ok(())
}

#[test]
fn a_journey_is_shown_as_it_was_begun(rt: HostRuntime) -> Result<(), Fail> {
    let alloc = rt.alloc();
    let mut book = MemBook::new(alloc);
    let command = begin(alloc)?;
    let ask = ask(alloc, "anna", "k1", "one")?;
    let one = Reply::Begun { id: 1 };
    replies(&rt, "anna's", &mut book, &command, Some(&ask), one)?;
    let two = Reply::Begun { id: 2 };
    replies(&rt, "the house's", &mut book, &command, None, two)?;
    is_shown(&rt, alloc, &mut book, 1, "anna")?;
    is_shown(&rt, alloc, &mut book, 2, "desk")?;
    holds(&rt, "they count from 1", !has_journey(&mut book, 0)?);
    Ok(())
}
