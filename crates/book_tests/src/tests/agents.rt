//! Worked rows of two agents and their keys, on one desk.
use crate::tests::calls::ask;
use crate::tests::lines::{command_of, goes_on, reads, reply};
use memory_book::MemBook;
use std::alloc::Global;
use std::test::Fail;

// agent and key of a request, the request, and the expected answer
#[rattlefmt::skip]
const AGENTS: [(&str, &str, &str, &str); 15] = [
    ("ann", "k1", "begin @1/1/1!0", "journey 1 begun"),
    ("bob", "k1", "step 1",         "refused 9 NoJourney"),
    ("bob", "k1", "abort 1 0",      "refused 9 NoJourney"),
    ("ann", "k2", "step 1",         "journey 1 T1.1 ended 1"),
    ("ann", "k2", "step 1",         "journey 1 T1.1 ended 1"),
    ("ann", "k2", "abort 1 0",      "refused 14 KeyReused"),
    ("ann", "k3", "abort 1 0",      "refused 10 Finished"),
    ("bob", "k2", "step 1",         "refused 9 NoJourney"),
    ("ann", "k3", "begin @1/1/2!0", "journey 2 begun"),
    ("bob", "k1", "begin @1/1/3!0", "journey 3 begun"),
    ("ann", "k4", "load a @1 10",   "loaded a 1"),
    ("ann", "k4", "load b @2 5",    "loaded b 1"),
    ("ann", "k4", "load b @2 5",    "loaded b 1"),
    ("bob", "k4", "load b @2 6",    "refused 13 BatchDiffers"),
    ("ann", "k4", "step 9",         "refused 14 KeyReused"),
];

#[rattlefmt::skip]
const AFTERWARDS: [(&str, &str); 3] = [
    ("items 1", "T1.1"),
    ("step 3",  "journey 3 T1.1 ended 1"),
    ("free @1", "6"),
];

/// The answer of a book to a line of an agent, under this key.
fn answer_to(
    alloc: Global,
    book: &mut MemBook,
    agent: &str,
    key: &str,
    line: &str,
) -> Result<String, Fail> {
    let ask = ask(alloc, agent, key, line)?;
    let command = command_of(alloc, line)?;
    Ok(reply(book, &command, Some(&ask))?.line(alloc)?)
}

#[test]
fn agents_move_their_own_journeys(rt: HostRuntime) -> Result<(), Fail> {
    let alloc = rt.alloc();
    let mut book = MemBook::new(alloc);
    goes_on(&rt, alloc, &mut book, &[("load a @1 10", "loaded a 1")])?;
    for &(agent, key, line, expected) in &AGENTS {
        let answered = answer_to(alloc, &mut book, agent, key, line)?;
        reads(&rt, line, &answered, expected);
    }
    goes_on(&rt, alloc, &mut book, &AFTERWARDS)
}
