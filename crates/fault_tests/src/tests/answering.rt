//! Commands of a story to a book whose store may fail.
use crate::tests::helping::holds;
use crate::tests::places::want_of;
use crate::tests::spoiling::Body;
use crate::tests::stories::Story;
use commands::{Command, Fault};
use saga_core::Book;
use std::process::Abort;
use std::test::Fail;

/// Stops the test if a call did not report that the store failed.
pub fn fails<T: Drop>(rt: &impl Abort, call: &str, answer: Result<T, Fault>) {
    let has_failed = match answer {
        Err(fault) => fault == Fault::Store,
        Ok(_) => false,
    };
    holds(rt, call, has_failed);
}

/// Checks that commands of every kind report that the store failed.
fn refuses_commands<B: Book>(rt: &impl Abort, book: &mut B, story: &Story) {
    for turn in &story.turns {
        let answer = book.act(&turn.command, turn.ask.as_ref());
        fails(rt, "a command of the story", answer);
    }
    for command in &[
        Command::Step(1),
        Command::Abort(1, 0),
        Command::Stop(1),
        Command::Save(1),
    ] {
        fails(rt, "a move", book.act(command, None));
    }
}

/// Checks that every call of a book reports that the store failed.
pub fn has_failed<B: Book>(rt: &impl Abort, book: &mut B, story: &Story) {
    refuses_commands(rt, book, story);
    fails(rt, "journey", book.journey(1));
    fails(rt, "history", book.history(1));
    fails(rt, "first_unfinished", book.first_unfinished(0));
    fails(rt, "stock", book.stock());
    fails(rt, "trace", book.trace(1));
    fails(rt, "unfinished", book.unfinished());
    for turn in &story.turns {
        if let Command::Begin(plan) = &turn.command {
            if let Some(want) = want_of(plan, 1, 1) {
                fails(rt, "cells", book.cells(&want));
            }
        }
    }
}

/// Executes the turns from this one up to that one, each with its worked reply. Returns the first one that the store did
/// not answer, after which it answers nothing more, or else that one. A body that hides failures hides the first one.
pub fn answered<B: Book>(
    rt: &impl Abort,
    book: &mut B,
    story: &Story,
    from: usize,
    to: usize,
    body: Body,
) -> Result<usize, Fail> {
    let mut at = from;
    let mut hides = body.hides_failures();
    for turn in story.turns_between(from, to)? {
        match book.act(&turn.command, turn.ask.as_ref()) {
            Ok(reply) => holds(rt, "the worked reply", reply == turn.reply),
            Err(_) if hides => hides = false,
            Err(fault) => {
                holds(rt, "the command under way", fault == Fault::Store);
                has_failed(rt, book, story);
                return Ok(at);
            }
        }
        at = at.saturating_add(1);
    }
    Ok(at)
}

/// Goes on after a reopening where so many turns were found done: the others are executed, and those that were done under
/// a key are sent again. Each has its worked reply.
pub fn goes_on<B: Book>(
    rt: &impl Abort,
    book: &mut B,
    story: &Story,
    found: usize,
) -> Result<(), Fail> {
    for (at, turn) in story.turns.iter().enumerate() {
        let is_kept = turn.is_event && turn.ask.is_some();
        if at >= found || is_kept {
            let reply = book.act(&turn.command, turn.ask.as_ref())?;
            holds(rt, "the worked reply, once more", reply == turn.reply);
        }
    }
    Ok(())
}
