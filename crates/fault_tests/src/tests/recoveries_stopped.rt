//! Recovery over a store that fails from some call on: what is left is a prefix of recovery's events, and the next
//! recovery completes.
use crate::tests::answering::has_failed;
use crate::tests::commands_stopped::{after_turns, found_in};
use crate::tests::failing::{End, Left, Stop, Trial, stop_at_each_call};
use crate::tests::helping::{book_over, command_of, holds, shown};
use crate::tests::places::check_places;
use crate::tests::recovery_rows::{
    RecoveryRow, back_to_the_start, kept_target, saved, six_steps, two_journeys,
};
use crate::tests::stories::{Line, State, Story};
use commands::Fault;
use memory_book::MemBook;
use memory_files::Session;
use recovery::recover;
use saga_core::Book;
use sqlite::{Alter, Connection};
use std::alloc::Global;
use std::io::Print;
use std::process::Abort;
use std::test::Fail;
use tables::{OpenFault, open_from};

/// What recovery makes of a desk: how many events, and what the desk shows then.
#[derive(Drop, PartialEq, Eq)]
struct Outcome {
    made: u64,
    shown: String,
}

/// A desk to recover: its story, with the moves that recovery makes in it; how many turns come before these; and what
/// recovery makes of the desk after each of its own events.
#[derive(Drop)]
struct Desk {
    story: Story,
    begun: usize,
    recovered: Vec<Outcome>,
}

/// Recovers a book, and checks that no journey is unfinished then.
fn recovered<B: Book + Drop>(
    rt: &impl Abort,
    alloc: Global,
    book: B,
) -> Result<(B, Outcome), Fail> {
    match recover(book) {
        Ok((mut ready, made)) => {
            let first = ready.first_unfinished(0)?;
            holds(rt, "none is unfinished", first.is_none());
            check_places(rt, &mut ready)?;
            let shown = shown(alloc, &mut ready)?;
            Ok((ready.into_inner(), Outcome { made, shown }))
        }
        Err((_, fault)) => Err(fault.into()),
    }
}

/// What recovery makes of the desk in memory after the first turns of a story.
fn recovered_after(rt: &impl Abort, alloc: Global, lines: &[Line]) -> Result<Outcome, Fail> {
    let mut book = MemBook::new(alloc);
    for (line, _) in lines {
        book.act(&command_of(alloc, line)?, None)?;
    }
    let (_, recovered) = recovered(rt, alloc, book)?;
    Ok(recovered)
}

impl Desk {
    /// The desk of a worked row. Stops the test if recovery of the desk in memory makes other events.
    fn new(rt: &impl Abort, alloc: Global, row: RecoveryRow) -> Result<Desk, Fail> {
        let begun = row.begun;
        let story = Story::new(rt, alloc, row.lines, begun, row.left)?;
        let mut recoveries = Vec::new(alloc);
        for done in begun..row.lines.len().saturating_add(1) {
            let lines = row.lines.get(..done).ok_or("lines")?;
            recoveries.push(recovered_after(rt, alloc, lines)?)?;
        }
        let first = recoveries.first().ok_or("no recovery")?;
        let last = story.state(story.turns.len())?;
        holds(rt, "the worked recovery", first.shown == last.shown);
        let moves = row.lines.len().saturating_sub(begun);
        holds(rt, "the worked number", first.made == moves as u64);
        if let Some((done, made, text)) = row.again {
            let again = recoveries.get(done).ok_or("no second recovery")?;
            holds(rt, "the number of the second", again.made == made);
            holds(rt, text, again.shown.as_str().contains(text));
        }
        Ok(Desk {
            story,
            begun,
            recovered: recoveries,
        })
    }
}

/// A recovery, and whether it succeeded.
#[derive(Drop)]
struct Recovering<'a> {
    desk: &'a Desk,
    has_succeeded: bool,
}

impl<R: Abort> Session<R> for Recovering<'_> {
    fn run<S: Alter + Drop>(
        &mut self,
        rt: &R,
        alloc: Global,
        conn: Connection<S>,
    ) -> Result<Connection<S>, Fail> {
        let opened = match open_from(conn) {
            Ok(opened) => opened,
            Err((conn, fault)) => {
                holds(rt, "a fault of the opening", fault == OpenFault::Store);
                return Ok(conn);
            }
        };
        let Ok(book) = opened.into_book(alloc) else {
            return Err(Fail::from("no book is made"));
        };
        match recover(book) {
            Ok((ready, made)) => {
                let first = self.desk.recovered.first().ok_or("no recovery")?;
                holds(rt, "the worked number", first.made == made);
                self.has_succeeded = true;
                Ok(ready.into_inner().into_store())
            }
            Err((mut book, fault)) => {
                holds(rt, "a fault of the store", fault == Fault::Store);
                has_failed(rt, &mut book, &self.desk.story);
                Ok(book.into_store())
            }
        }
    }
}

/// The next recovery, and after how many of the first one's events it began.
#[derive(Drop)]
struct NextRecovery<'a> {
    desk: &'a Desk,
    done: usize,
}

impl NextRecovery<'_> {
    /// After how many events of recovery this is what a store has.
    fn events_done(&self, rt: &impl Abort, left: &State) -> Result<usize, Fail> {
        let before = self.desk.story.state(self.desk.begun)?;
        let done = left.events.saturating_sub(before.events) as usize;
        let expected = self.desk.story.state(self.desk.begun.saturating_add(done))?;
        holds(rt, "a prefix of recovery's events", *left == *expected);
        Ok(done)
    }
}

impl<R: Abort> Session<R> for NextRecovery<'_> {
    fn run<S: Alter + Drop>(
        &mut self,
        rt: &R,
        alloc: Global,
        conn: Connection<S>,
    ) -> Result<Connection<S>, Fail> {
        let mut book = book_over(alloc, conn)?;
        check_places(rt, &mut book)?;
        let text = shown(alloc, &mut book)?;
        let mut conn = book.into_store();
        let left = found_in(text, &mut conn)?;
        self.done = self.events_done(rt, &left)?;
        conn.set_step_limit(None);
        holds(rt, "no transaction", conn.is_autocommit());
        let (book, next) = recovered(rt, alloc, book_over(alloc, conn)?)?;
        let expected = self.desk.recovered.get(self.done).ok_or("no recovery")?;
        holds(rt, "the next recovery", next == *expected);
        let mut conn = book.into_store();
        let last = found_in(next.shown, &mut conn)?;
        let events = left.events.saturating_add(next.made);
        holds(rt, "its events", last.events == events);
        holds(rt, "the kept replies", last.kept == left.kept);
        Ok(conn)
    }
}

/// Recovery over files that fail, and how often a run left how many of its events.
#[derive(Drop)]
struct Stopped<'a> {
    desk: &'a Desk,
    begun: &'a Left,
    left_after: Vec<u32>,
}

impl<R: Abort> Trial<R> for Stopped<'_> {
    fn stop_once(&mut self, rt: &R, alloc: Global, stop: Stop) -> Result<bool, Fail> {
        let mut recovering = Recovering {
            desk: self.desk,
            has_succeeded: false,
        };
        let left = self.begun.open_failing(rt, alloc, stop, &mut recovering)?;
        let mut next = NextRecovery {
            desk: self.desk,
            done: 0,
        };
        left.open_for(rt, alloc, &mut next)?;
        if let Some(count) = self.left_after.get_mut(next.done) {
            *count = count.saturating_add(1);
        }
        let all = self.desk.recovered.len();
        if recovering.has_succeeded {
            holds(rt, "all its events", next.done.saturating_add(1) == all);
        } else {
            holds(rt, "a call failed", left.met);
        }
        Ok(left.met)
    }
}

/// Which file fails; how the files were left before recovery; and how the run ends.
type Case = (bool, End, End);

#[rattlefmt::skip]
static LOG_FAILS: [Case; 3] = [
    (true, End::Closed, End::Closed),
    (true, End::Closed, End::Crashed),
    (true, End::Killed, End::Killed),
];

// the log is empty when recovery begins, and has what was written when it ends
#[rattlefmt::skip]
static LOG_FAILS_IN_A_KILLED_RUN: [Case; 1] = [
    (true, End::Closed, End::Killed),
];

#[rattlefmt::skip]
static DATABASE_FAILS: [Case; 3] = [
    (false, End::Closed, End::Closed),
    (false, End::Closed, End::Crashed),
    (false, End::Killed, End::Killed),
];

/// Lets each call of one file fail in turn while a desk is recovered. Returns how often a run left how many of recovery's
/// events.
fn stops_in(rt: &impl Abort, alloc: Global, desk: &Desk, case: Case) -> Result<Vec<u32>, Fail> {
    let (in_log, left, end) = case;
    let begun = after_turns(rt, alloc, &desk.story, desk.begun, left)?;
    let mut left_after = Vec::new(alloc);
    for _ in &desk.recovered {
        left_after.push(0)?;
    }
    let mut trial = Stopped {
        desk,
        begun: &begun,
        left_after,
    };
    stop_at_each_call(rt, alloc, &mut trial, in_log, end)?;
    Ok(trial.left_after)
}

/// Lets each call of one file fail in turn in these cases, and prints how often a run left how many events.
fn stops<R: Abort + Print>(
    rt: &R,
    alloc: Global,
    row: RecoveryRow,
    cases: &[Case],
) -> Result<(), Fail> {
    let desk = Desk::new(rt, alloc, row)?;
    for case in cases {
        let (in_log, _, _) = *case;
        let left_after = stops_in(rt, alloc, &desk, *case)?;
        println!(rt; "{:?}", left_after.as_slice())?;
        for count in &left_after {
            holds(rt, "each prefix is met", *count > 0 || !in_log);
        }
    }
    Ok(())
}

#[test]
fn back_to_the_start_while_the_log_fails(rt: HostRuntime) -> Result<(), Fail> {
    stops(&rt, rt.alloc(), back_to_the_start(), &LOG_FAILS)
}

#[test]
fn back_to_the_start_while_the_database_fails(rt: HostRuntime) -> Result<(), Fail> {
    stops(&rt, rt.alloc(), back_to_the_start(), &DATABASE_FAILS)
}

#[test]
fn two_of_six_steps_while_the_log_fails(rt: HostRuntime) -> Result<(), Fail> {
    stops(&rt, rt.alloc(), six_steps(), &LOG_FAILS)
}

#[test]
fn two_of_six_steps_while_the_log_fails_in_a_killed_run(rt: HostRuntime) -> Result<(), Fail> {
    stops(&rt, rt.alloc(), six_steps(), &LOG_FAILS_IN_A_KILLED_RUN)
}

#[test]
fn two_of_six_steps_while_the_database_fails(rt: HostRuntime) -> Result<(), Fail> {
    stops(&rt, rt.alloc(), six_steps(), &DATABASE_FAILS)
}

#[test]
fn a_kept_target_while_the_log_fails(rt: HostRuntime) -> Result<(), Fail> {
    stops(&rt, rt.alloc(), kept_target(), &LOG_FAILS)
}

#[test]
fn two_journeys_while_the_log_fails(rt: HostRuntime) -> Result<(), Fail> {
    stops(&rt, rt.alloc(), two_journeys(), &LOG_FAILS)
}

#[test]
fn two_journeys_while_the_database_fails(rt: HostRuntime) -> Result<(), Fail> {
    stops(&rt, rt.alloc(), two_journeys(), &DATABASE_FAILS)
}

#[test]
fn a_taken_save_point_while_the_log_fails(rt: HostRuntime) -> Result<(), Fail> {
    stops(&rt, rt.alloc(), saved(), &LOG_FAILS)
}
