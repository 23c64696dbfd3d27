//! Stories: commands with their worked replies, and what the desk in memory shows after each of them.
use crate::tests::helping::{ask_of, command_of, shown};
use commands::{Ask, Command, Reply};
use memory_book::MemBook;
use saga_core::Book;
use std::alloc::Global;
use std::process::Abort;
use std::test::Fail;

/// A command's line, and the line of its reply.
pub type Line = (&'static str, &'static str);

/// A command with its ask and its reply, and whether it makes an event.
#[derive(Drop)]
pub struct Turn {
    pub command: Command,
    pub ask: Option<Ask>,
    pub reply: Reply,
    pub is_event: bool,
}

/// What a desk shows, how many events it has had, and how many replies it keeps.
#[derive(Drop, PartialEq, Eq)]
pub struct State {
    pub shown: String,
    pub events: u64,
    pub kept: u64,
}

/// The commands, and the states before the first and after each of them.
#[derive(Drop)]
pub struct Story {
    pub turns: Vec<Turn>,
    pub states: Vec<State>,
}

/// The number of the key under which this command comes, if it comes under one.
pub fn key_of(at: usize, asked: usize) -> Option<usize> {
    if at < asked && at % 2 == 1 {
        Some(at)
    } else {
        None
    }
}

/// Executes the command of a line on the desk in memory, and checks its reply.
fn turn_of<B: Book>(
    rt: &impl Abort,
    alloc: Global,
    book: &mut B,
    key: Option<usize>,
    line: Line,
) -> Result<Turn, Fail> {
    let (line, expected) = line;
    let command = command_of(alloc, line)?;
    let ask = ask_of(alloc, key, line)?;
    let reply = book.act(&command, ask.as_ref())?;
    let found = reply.line(alloc)?;
    assert_eq!(rt; found.as_str(), expected);
    Ok(Turn {
        command,
        ask,
        reply,
        is_event: false,
    })
}

/// The state after a turn: each event changes what the desk shows, and nothing else does.
fn state_after(before: &State, shown: String, turn: &mut Turn) -> State {
    turn.is_event = shown != before.shown;
    let makes = u64::from(turn.is_event);
    let keeps = u64::from(turn.is_event && turn.ask.is_some());
    State {
        shown,
        events: before.events.saturating_add(makes),
        kept: before.kept.saturating_add(keeps),
    }
}

impl Story {
    /// The story of these lines, from a new desk on; of the first ones, so many, every second comes under a key. Stops
    /// the test if a reply is another one, or if the desk does not show these texts in the end.
    pub fn new(
        rt: &impl Abort,
        alloc: Global,
        lines: &[Line],
        asked: usize,
        left: &[&str],
    ) -> Result<Story, Fail> {
        let mut book = MemBook::new(alloc);
        let mut turns = Vec::new(alloc);
        let mut states = Vec::new(alloc);
        let mut state = State {
            shown: shown(alloc, &mut book)?,
            events: 0,
            kept: 0,
        };
        for (at, line) in lines.iter().enumerate() {
            let mut turn = turn_of(rt, alloc, &mut book, key_of(at, asked), *line)?;
            let next = state_after(&state, shown(alloc, &mut book)?, &mut turn);
            turns.push(turn)?;
            states.push(state)?;
            state = next;
        }
        for text in left {
            assert!(rt;
                state.shown.as_str().contains(*text),
                "{text} in {}",
                state.shown.as_str()
            );
        }
        states.push(state)?;
        Ok(Story { turns, states })
    }

    /// The state after so many turns.
    pub fn state(&self, turns: usize) -> Result<&State, Fail> {
        Ok(self.states.get(turns).ok_or("no state")?)
    }

    /// The turns from this one up to that one.
    pub fn turns_between(&self, from: usize, to: usize) -> Result<&[Turn], Fail> {
        Ok(self.turns.get(from..to).ok_or("no turns")?)
    }
}
