//! The worked rows over a store that fails from some call on, and is opened again: each answered command is there, and
//! the one under way is there whole, with its kept reply, or not at all.
use crate::tests::answering::{answered, goes_on};
use crate::tests::failing::{End, Left, Stop, Trial, stop_at_each_call};
use crate::tests::helping::{book_over, holds, shown};
use crate::tests::places::check_places;
use crate::tests::rows::{Row, batches, last_room, one_room, saves, six_steps};
use crate::tests::spoiling::Body;
use crate::tests::stories::{State, Story};
use desk_sql::read_meta;
use memory_files::Session;
use saga_core::Book;
use sqlite::{Alter, Connection};
use std::alloc::Global;
use std::io::Print;
use std::process::Abort;
use std::test::Fail;
use tables::{OpenFault, open_from};

/// What a store has: what its desk shows, how many events it has had, and how many replies it keeps.
pub fn found_in<S: Alter>(shown: String, conn: &mut Connection<S>) -> Result<State, Fail> {
    let meta = read_meta(conn)?;
    let kept: i64 = conn.query_row("SELECT count(*) FROM answer", &[])?.get(0)?;
    Ok(State {
        shown,
        events: meta.events,
        kept: kept.unsigned_abs(),
    })
}

/// The turns of a story from one of them up to another one, and the first one that was not answered.
#[derive(Drop)]
pub struct Turns<'a> {
    pub story: &'a Story,
    pub from: usize,
    pub to: usize,
    pub answered: usize,
    pub is_opened: bool,
    pub body: Body,
}

impl<R: Abort> Session<R> for Turns<'_> {
    fn run<S: Alter + Drop>(
        &mut self,
        rt: &R,
        alloc: Global,
        conn: Connection<S>,
    ) -> Result<Connection<S>, Fail> {
        let opened = match open_from(conn) {
            Ok(opened) => opened,
            Err((conn, fault)) => {
                holds(rt, "a fault of the opening", fault == OpenFault::Store);
                return Ok(conn);
            }
        };
        let Ok(mut book) = opened.into_book(alloc) else {
            return Err(Fail::from("no book is made"));
        };
        self.is_opened = true;
        self.answered = answered(rt, &mut book, self.story, self.from, self.to, self.body)?;
        Ok(book.into_store())
    }
}

/// The check of what is left after so many answered turns. Records how many turns were found done.
#[derive(Drop)]
struct Found<'a> {
    story: &'a Story,
    answered: usize,
    found: usize,
}

impl Found<'_> {
    /// How many turns were done, if this is what a store has: those that were answered, or one more.
    fn turns_done(&self, rt: &impl Abort, left: &State) -> Result<usize, Fail> {
        if *left == *self.story.state(self.answered)? {
            return Ok(self.answered);
        }
        let more = self.answered.saturating_add(1);
        holds(
            rt,
            "the old state, or that with the whole event",
            *left == *self.story.state(more)?,
        );
        Ok(more)
    }
}

impl<R: Abort> Session<R> for Found<'_> {
    fn run<S: Alter + Drop>(
        &mut self,
        rt: &R,
        alloc: Global,
        conn: Connection<S>,
    ) -> Result<Connection<S>, Fail> {
        let mut book = book_over(alloc, conn)?;
        check_places(rt, &mut book)?;
        let text = shown(alloc, &mut book)?;
        let mut conn = book.into_store();
        let left = found_in(text, &mut conn)?;
        self.found = self.turns_done(rt, &left)?;
        conn.set_step_limit(None);
        holds(rt, "no transaction", conn.is_autocommit());
        let mut book = book_over(alloc, conn)?;
        goes_on(rt, &mut book, self.story, self.found)?;
        check_places(rt, &mut book)?;
        let text = shown(alloc, &mut book)?;
        let mut conn = book.into_store();
        let last = found_in(text, &mut conn)?;
        holds(
            rt,
            "each event once",
            last == *self.story.state(self.story.turns.len())?,
        );
        Ok(conn)
    }
}

/// How many runs there were, and how often the file was not opened, and a fault left the old state and the new one.
#[derive(Clone, Copy, Debug, PartialEq, Eq)]
struct Met {
    runs: u32,
    unopened: u32,
    old: u32,
    new: u32,
}

impl Met {
    fn none() -> Met {
        Met {
            runs: 0,
            unopened: 0,
            old: 0,
            new: 0,
        }
    }

    /// Counts a run: whether the file was opened, whether a call failed, and whether one turn more than was answered was
    /// found done.
    fn count(&mut self, is_opened: bool, has_failed: bool, is_new: bool) {
        self.runs = self.runs.saturating_add(1);
        if !is_opened {
            self.unopened = self.unopened.saturating_add(1);
        } else if is_new {
            self.new = self.new.saturating_add(1);
        } else if has_failed {
            self.old = self.old.saturating_add(1);
        }
    }
}

/// A story over files that fail.
#[derive(Drop)]
struct Stopped<'a> {
    story: &'a Story,
    begun: &'a Left,
    from: usize,
    body: Body,
    met: Met,
}

impl<R: Abort> Trial<R> for Stopped<'_> {
    fn stop_once(&mut self, rt: &R, alloc: Global, stop: Stop) -> Result<bool, Fail> {
        let mut turns = Turns {
            story: self.story,
            from: self.from,
            to: self.story.turns.len(),
            answered: self.from,
            is_opened: false,
            body: self.body,
        };
        let left = self.begun.open_failing(rt, alloc, stop, &mut turns)?;
        let mut found = Found {
            story: self.story,
            answered: turns.answered,
            found: 0,
        };
        left.open_for(rt, alloc, &mut found)?;
        self.met
            .count(turns.is_opened, left.met, found.found > turns.answered);
        if !left.met {
            holds(
                rt,
                "all is answered",
                turns.answered == self.story.turns.len(),
            );
        }
        Ok(left.met)
    }
}

/// The files after the first turns of a story, up to this one, without a fault.
pub fn after_turns(
    rt: &impl Abort,
    alloc: Global,
    story: &Story,
    to: usize,
    end: End,
) -> Result<Left, Fail> {
    let mut turns = Turns {
        story,
        from: 0,
        to,
        answered: 0,
        is_opened: false,
        body: Body::Sound,
    };
    let left = Left::new(alloc).open_failing(rt, alloc, Stop::none(end), &mut turns)?;
    holds(rt, "the first turns", turns.answered == to);
    Ok(left)
}

/// Which file fails; how the files were left before, if it is not a new desk; and how the run ends.
type Case = (bool, Option<End>, End);

#[rattlefmt::skip]
static LOG_FAILS: [Case; 3] = [
    (true, None,              End::Killed),
    (true, None,              End::Crashed),
    (true, Some(End::Closed), End::Closed),
];

#[rattlefmt::skip]
static DATABASE_FAILS: [Case; 4] = [
    (false, None,              End::Closed),
    (false, Some(End::Closed), End::Closed),
    (false, Some(End::Closed), End::Crashed),
    (false, Some(End::Killed), End::Killed),
];

/// Lets each call of one file fail in turn in a case.
fn stops_in(
    rt: &impl Abort,
    alloc: Global,
    story: &Story,
    row: Row,
    case: Case,
    body: Body,
) -> Result<Met, Fail> {
    let (in_log, left, end) = case;
    let (begun, from) = match left {
        None => (Left::new(alloc), 0),
        Some(left) => (after_turns(rt, alloc, story, row.begun, left)?, row.begun),
    };
    let mut trial = Stopped {
        story,
        begun: &begun,
        from,
        body,
        met: Met::none(),
    };
    stop_at_each_call(rt, alloc, &mut trial, in_log, end)?;
    Ok(trial.met)
}

/// Lets each call of one file fail in turn in these cases, and prints what was met.
fn stops<R: Abort + Print>(
    rt: &R,
    alloc: Global,
    body: Body,
    row: Row,
    cases: &[Case],
) -> Result<(), Fail> {
    let story = Story::new(rt, alloc, row.lines, row.lines.len(), row.left)?;
    for case in cases {
        let met = stops_in(rt, alloc, &story, row, *case, body)?;
        let (in_log, _, end) = *case;
        println!(rt; "{met:?}")?;
        holds(rt, "both are met", met.unopened > 0 && met.old > 0);
        let is_new = met.new > 0 || !in_log || matches!(end, End::Crashed);
        holds(rt, "a whole event is met", is_new);
    }
    Ok(())
}

#[test]
fn the_last_room_while_the_log_fails(rt: HostRuntime) -> Result<(), Fail> {
    stops(&rt, rt.alloc(), Body::named(&rt), last_room(), &LOG_FAILS)
}

#[test]
fn the_last_room_while_the_database_fails(rt: HostRuntime) -> Result<(), Fail> {
    stops(
        &rt,
        rt.alloc(),
        Body::named(&rt),
        last_room(),
        &DATABASE_FAILS,
    )
}

#[test]
fn batches_while_the_log_fails(rt: HostRuntime) -> Result<(), Fail> {
    stops(&rt, rt.alloc(), Body::named(&rt), batches(), &LOG_FAILS)
}

#[test]
fn batches_while_the_database_fails(rt: HostRuntime) -> Result<(), Fail> {
    stops(
        &rt,
        rt.alloc(),
        Body::named(&rt),
        batches(),
        &DATABASE_FAILS,
    )
}

#[test]
fn save_points_while_the_log_fails(rt: HostRuntime) -> Result<(), Fail> {
    stops(&rt, rt.alloc(), Body::named(&rt), saves(), &LOG_FAILS)
}

#[test]
fn save_points_while_the_database_fails(rt: HostRuntime) -> Result<(), Fail> {
    stops(&rt, rt.alloc(), Body::named(&rt), saves(), &DATABASE_FAILS)
}

#[test]
fn six_steps_while_the_log_fails(rt: HostRuntime) -> Result<(), Fail> {
    stops(&rt, rt.alloc(), Body::named(&rt), six_steps(), &LOG_FAILS)
}

#[test]
fn six_steps_while_the_database_fails(rt: HostRuntime) -> Result<(), Fail> {
    stops(
        &rt,
        rt.alloc(),
        Body::named(&rt),
        six_steps(),
        &DATABASE_FAILS,
    )
}

#[test]
fn two_journeys_while_the_log_fails(rt: HostRuntime) -> Result<(), Fail> {
    stops(&rt, rt.alloc(), Body::named(&rt), one_room(), &LOG_FAILS)
}

#[test]
fn two_journeys_while_the_database_fails(rt: HostRuntime) -> Result<(), Fail> {
    stops(
        &rt,
        rt.alloc(),
        Body::named(&rt),
        one_room(),
        &DATABASE_FAILS,
    )
}
