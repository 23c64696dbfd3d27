//! Reads and writes that fail: a prefix of the pages was written, and executed commands stay in effect.
use crate::tests::desks::{has_journeys, holds, new_desk, reads};
use crate::tests::fakes::{Telling, Waiting};
use crate::tests::orders::{FLIGHT, GET, JOURNEY_1, JOURNEY_2, begin};
use crate::tests::talks::{ALL, ROOM, STEPS, Talk, does_nothing_when_cut, goes_on};
use desk_http::ServeFault;
use failing_streams::{Pieces, Sink};
use http_conversations::{Served, serve};
use std::alloc::Global;
use std::cell::Cell;
use std::process::Abort;

/// A talk that begins a journey.
fn begun(rt: &impl Abort, alloc: Global) -> Talk {
    let mut talk = Talk::new(alloc);
    begin(rt, alloc, &mut talk, "ann", "k2", &[FLIGHT], JOURNEY_1);
    talk
}

/// Stops the test if serving ended with another result.
fn ends(
    rt: &impl Abort,
    case: &str,
    found: Result<Served, ServeFault>,
    expected: Result<Served, ServeFault>,
) {
    assert!(rt; found == expected, "{case}: {found:?}");
}

/// If a read fails after so many bytes, the pages of the whole requests before are written, and nothing more is
/// executed.
fn breaks_off(rt: &impl Abort, alloc: Global, talk: &Talk, read: usize, step: usize, begun: u64) {
    let mut desk = new_desk(rt, alloc);
    let mut sink = Sink::new(alloc, step, ROOM).expect(rt, "memory");
    let sent = talk.sent.get(..read).expect(rt, "a front");
    let ended = serve(alloc, &mut Pieces::cut(sent, step), &mut sink, &mut desk);
    ends(rt, "a failed read", ended, Err(ServeFault::Read));
    reads(rt, "a failed read", sink.taken(), talk.told_by(rt, read));
    has_journeys(rt, "a failed read", &mut desk, begun);
}

#[test]
fn a_failed_read_leaves_the_pages_before_it(rt: HostRuntime) {
    let alloc = rt.alloc();
    let mut talk = begun(&rt, alloc);
    let first = talk.sent.len();
    talk.send(&rt, GET);
    for &step in &STEPS {
        breaks_off(&rt, alloc, &talk, first.saturating_sub(1), step, 0);
        breaks_off(&rt, alloc, &talk, first, step, 1);
        breaks_off(&rt, alloc, &talk, first.saturating_add(1), step, 1);
    }
}

#[test]
fn a_read_that_fails_anywhere_leaves_the_pages_before_it(rt: HostRuntime) {
    let talk = begun(&rt, rt.alloc());
    for read in 0..talk.sent.len() {
        breaks_off(&rt, rt.alloc(), &talk, read, ALL, 0);
    }
}

#[test]
fn a_request_that_is_cut_anywhere_does_nothing(rt: HostRuntime) {
    let talk = begun(&rt, rt.alloc());
    does_nothing_when_cut(&rt, rt.alloc(), "begun", &talk);
}

/// If there is room for only so many bytes, a prefix of the page is written. The journey stays begun, and a retry of
/// the same bytes gets the whole page.
fn fills_up(rt: &impl Abort, alloc: Global, talk: &Talk, room: usize, step: usize) {
    let mut desk = new_desk(rt, alloc);
    let mut sink = Sink::new(alloc, step, room).expect(rt, "memory");
    let ended = serve(
        alloc,
        &mut Pieces::of(&talk.sent, step),
        &mut sink,
        &mut desk,
    );
    ends(rt, "a failed write", ended, Err(ServeFault::Write));
    let front = talk.told.get(..room).expect(rt, "a front");
    reads(rt, "a failed write", sink.taken(), front);
    has_journeys(rt, "a failed write", &mut desk, 1);
    goes_on(rt, alloc, "the same bytes", talk, &mut desk);
    has_journeys(rt, "the same bytes", &mut desk, 1);
}

#[test]
fn a_failed_write_leaves_a_beginning_of_the_page(rt: HostRuntime) {
    let talk = begun(&rt, rt.alloc());
    for &step in &STEPS {
        fills_up(&rt, rt.alloc(), &talk, 20, step);
    }
    let front = talk.told.get(..20).expect(&rt, "a front");
    holds(&rt, "Con", front.ends_with(b"Con"));
}

#[test]
fn a_write_that_fails_anywhere_leaves_a_beginning_of_the_page(rt: HostRuntime) {
    let talk = begun(&rt, rt.alloc());
    for room in 0..talk.told.len() {
        fills_up(&rt, rt.alloc(), &talk, room, ALL);
    }
}

/// Checks that the first page is flushed before the second request is read.
fn waits(rt: &impl Abort, alloc: Global, step: usize) {
    let mut talk = begun(rt, alloc);
    let (asked, page) = (talk.sent.len(), talk.told.len());
    begin(rt, alloc, &mut talk, "ann", "k3", &[FLIGHT], JOURNEY_2);
    let (first, second) = talk.sent.split_at(asked.min(talk.sent.len()));
    let flushed = Cell::new(0);
    let (first, second) = (Pieces::of(first, step), Pieces::of(second, step));
    let mut reader = Waiting::new(first, second, &flushed, page);
    let mut writer = Telling::new(alloc, ROOM, &flushed).expect(rt, "memory");
    let mut desk = new_desk(rt, alloc);
    let ended = serve(alloc, &mut reader, &mut writer, &mut desk);
    ends(rt, "two requests", ended, Ok(Served { pages: 2 }));
    reads(rt, "two requests", writer.taken(), &talk.told);
}

#[test]
fn a_page_goes_out_before_the_next_request_is_read(rt: HostRuntime) {
    for &step in &STEPS {
        waits(&rt, rt.alloc(), step);
    }
}
