//! Values from outside: moves of agents under their keys.
use crate::tests::asking::{Asked, command_of};
use crate::tests::helping::{book_over, counts, opened, run, says, told};
use commands::{Agent, Key};
use saga_core::Book;
use sqlite::{Alter, Connection};
use std::alloc::Global;
use std::process::Abort;
use std::test::Fail;
use tables::TableBook;

// agent, key and text, the request, and the line of the answer
#[rattlefmt::skip]
static AGENTS: [(&str, &str, &str, Asked, &str); 16] = [
    ("ann", "k1", "begin",  Asked::Begin("F/AL/A1/2030-06-01/1/1!0"), "journey 1 begun"),
    ("ann", "k1", "begin",  Asked::Begin("F/AL/A1/2030-06-01/1/1!0"), "journey 1 begun"),
    ("ann", "k1", "begun",  Asked::Begin("F/AL/A1/2030-06-01/1/1!0"), "refused 14 KeyReused"),
    ("ann", "k1", "begin ", Asked::Begin("F/AL/A1/2030-06-01/1/1!0"), "refused 14 KeyReused"),
    ("bob", "k1", "step 1", Asked::Step(1),  "refused 9 NoJourney"),
    ("bob", "k1", "abort",  Asked::Abort(1, 0), "refused 9 NoJourney"),
    ("ann", "k2", "step 1", Asked::Step(1),  "journey 1 T1.1 ended 1"),
    ("ann", "k2", "step 1", Asked::Step(1),  "journey 1 T1.1 ended 1"),
    ("ann", "k2", "abort",  Asked::Abort(1, 0), "refused 14 KeyReused"),
    ("ann", "k3", "abort",  Asked::Abort(1, 0), "refused 10 Finished"),
    ("ann", "k3", "begin",  Asked::Begin("F/AL/A1/2030-06-01/1/2!0"), "journey 2 begun"),
    ("bob", "k1", "begin",  Asked::Begin("F/AL/A1/2030-06-01/1/3!0"), "journey 3 begun"),
    ("ann", "K1", "begin",  Asked::Begin("F/AL/A1/2030-06-01/1/2!0"), "journey 4 begun"),
    ("ann", "k4", "step 3", Asked::Step(3),  "refused 9 NoJourney"),
    ("bob", "k2", "step 3", Asked::Step(3),  "journey 3 T1.1 ended 1"),
    ("ann", "k1", "begin",  Asked::Begin("F/AL/A1/2030-06-01/1/1!0"), "journey 1 begun"),
];

const TEN_SEATS: &str = "INSERT INTO stock VALUES (0, 'AL', 'A1', 22066, 10, 10)";

#[rattlefmt::skip]
static LEFT: [(&str, i64); 7] = [
    ("SELECT count(*) FROM meta WHERE events = 6 AND journeys = 4", 1),
    ("SELECT count(*) FROM stock WHERE allot = 10 AND free = 6", 1),
    ("SELECT count(*) FROM journey WHERE agent = 'ann'", 3),
    ("SELECT count(*) FROM answer WHERE agent = 'ann' AND mark = 'k1' AND ask = x'626567696e' AND reply = 'journey 1 begun'", 1),
    ("SELECT count(*) FROM answer WHERE agent = 'ann' AND mark = 'k2' AND ask = x'737465702031' AND reply = 'journey 1 T1.1 ended 1'", 1),
    ("SELECT count(*) FROM answer WHERE agent = 'bob'", 2),
    ("SELECT count(*) FROM answer", 6),
];

/// Sends the agents' requests in order.
fn agents_ask<S: Alter>(
    rt: &impl Abort,
    alloc: Global,
    book: &mut TableBook<S>,
) -> Result<(), Fail> {
    for &(agent, key, text, asked, expected) in &AGENTS {
        let command = command_of(alloc, asked)?;
        let reply = told(alloc, book, &command, (agent, key, text))?;
        says(rt, alloc, &reply, expected)?;
    }
    Ok(())
}

// agent and key, and the line of the reply that is kept; none for what was refused, and for what was not asked
#[rattlefmt::skip]
static KEPT: [(&str, &str, Option<&str>); 8] = [
    ("ann", "k1", Some("journey 1 begun")),
    ("ann", "K1", Some("journey 4 begun")),
    ("bob", "k1", Some("journey 3 begun")),
    ("ann", "k2", Some("journey 1 T1.1 ended 1")),
    ("ann", "k3", Some("journey 2 begun")),
    ("ann", "k4", None),
    ("bob", "k3", None),
    ("eve", "k1", None),
];

/// Stops the test where another reply is kept than a row says.
fn each_is_kept<S: Alter>(
    rt: &impl Abort,
    alloc: Global,
    book: &mut TableBook<S>,
) -> Result<(), Fail> {
    for &(agent, key, expected) in &KEPT {
        let agent = Agent::parse(agent).ok_or("no agent")?;
        let key = Key::parse(key).ok_or("no key")?;
        let found = book.kept(&agent, &key)?;
        let Some(line) = expected else {
            assert!(rt; found.is_none(), "{key:?}");
            continue;
        };
        says(rt, alloc, &found.ok_or("no reply")?, line)?;
    }
    Ok(())
}

#[test]
fn agents_move_their_own_journeys(rt: HostRuntime) -> Result<(), Fail> {
    let alloc = rt.alloc();
    let mut conn = opened(alloc, Connection::open_in_memory(alloc)?)?;
    run(&mut conn, TEN_SEATS)?;
    let mut book = book_over(alloc, conn)?;
    agents_ask(&rt, alloc, &mut book)?;
    each_is_kept(&rt, alloc, &mut book)?;
    counts(&rt, &mut book.into_store(), &LEFT)
}
