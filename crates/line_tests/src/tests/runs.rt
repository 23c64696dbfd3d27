//! Answers to lines over a new book in memory, whatever pieces the lines arrive in, and what was written after a fault.
use crate::tests::desks::{holds, new_desk, reads};
use crate::tests::fakes::Stuck;
use failing_streams::{Pieces, Sink};
use recovery::{ServeFault, run_lines};
use saga_core::Book;
use std::alloc::{AllocError, Global};
use std::process::Abort;
use std::test::Fail;

/// More bytes than any test writes.
const ROOM: usize = 1000;

/// More bytes than any test reads.
const ALL: usize = 100_000;

// what the row shows, the input, the answers, and how many lines the input has
#[rattlefmt::skip]
const LINES: [(&str, &[u8], &str, u64); 15] = [
    ("no line",             b"",   "", 0),
    ("two journeys",        b"begin F/AL/A1/2030-06-01/1/1!0\nbegin F/AL/A1/2030-06-01/1/1!0\n",
        "journey 1 begun\njourney 2 begun\n", 2),
    ("no last line feed",   b"begin F/AL/A1/2030-06-01/1/1!0\nbegin F/AL/A1/2030-06-01/1/1!0",
        "journey 1 begun\njourney 2 begun\n", 2),
    ("one, no line feed",   b"begin F/AL/A1/2030-06-01/1/1!0", "journey 1 begun\n", 1),
    ("past the last night", b"begin R/INN/DBL/2099-12-31/2/1!0\n", "refused 5 BadPlan 1 nights\n", 1),
    ("a save-point last",   b"begin F/AL/A1/2030-06-01/1/1*!0\n",  "refused 5 BadPlan 1 save\n",   1),
    ("no such night",       b"begin C/CO/P/2030-02-29/1/1!0\n",    "refused 5 BadPlan 1 night\n",  1),
    ("a leading zero",      b"step 01\n",  "refused 4 BadBody\n", 1),
    ("an empty line",       b"\n",         "refused 4 BadBody\n", 1),
    ("a carriage return",   b"step 1\r\n", "refused 4 BadBody\n", 1),
    ("the word alone",      b"begin\n",    "refused 4 BadBody\n", 1),
    ("no plan",             b"begin \n",   "refused 5 BadPlan 0 tries\n", 1),
    ("one return more",     b"begin F/AL/A1/2030-06-01/1/1!0\r\n", "refused 5 BadPlan 0 tries\n",  1),
    ("bytes of no text",    b"begin F/AL/A1/2030-06-01/1/1!0\xff\n", "refused 4 BadBody\n", 1),
    ("good among bad",      b"\nbegin F/AL/A1/2030-06-01/1/1!0\n\xff\nbegin F/AL/A1/2030-06-01/1/1!0\n\n",
        "refused 4 BadBody\njourney 1 begun\nrefused 4 BadBody\njourney 2 begun\nrefused 4 BadBody\n", 5),
];

// in one piece, and a few bytes at a time
const STEPS: [usize; 4] = [ALL, 1, 2, 31];

/// Checks the answers of a new desk to an input, read and written so many bytes at a time, and the number of lines.
fn answers(
    rt: &impl Abort,
    alloc: Global,
    input: &[u8],
    step: usize,
    expected: &str,
    lines: u64,
) -> Result<(), Fail> {
    let mut book = new_desk(alloc)?;
    let mut sink = Sink::of_flushed_lines(alloc, step, ROOM)?;
    let count = run_lines(alloc, &mut Pieces::of(input, step), &mut sink, &mut book)?;
    reads(rt, expected, sink.taken(), expected);
    holds(rt, expected, count == lines);
    Ok(())
}

#[test]
fn lines_are_answered_one_by_one(rt: HostRuntime) -> Result<(), Fail> {
    for &(_, input, expected, lines) in &LINES {
        for &step in &STEPS {
            answers(&rt, rt.alloc(), input, step, expected, lines)?;
        }
    }
    Ok(())
}

/// A line of this many bytes that begins a journey without a plan, and then the line of one more journey.
fn long_lines(alloc: Global, length: usize) -> Result<Vec<u8>, AllocError> {
    let mut text = b"begin ".to_vec(alloc)?;
    for _ in 6..length {
        text.push(b'x')?;
    }
    text.extend_from_slice(b"\nbegin F/AL/A1/2030-06-01/1/1!0\n")?;
    Ok(text)
}

// the length of the first line, and the answers
#[rattlefmt::skip]
const LENGTHS: [(usize, &str); 4] = [
    (8191,   "refused 5 BadPlan 0 tries\njourney 1 begun\n"),
    (8192,   "refused 5 BadPlan 0 tries\njourney 1 begun\n"),
    (8193,   "refused 4 BadBody\njourney 1 begun\n"),
    (20_000, "refused 4 BadBody\njourney 1 begun\n"),
];

#[test]
fn a_line_has_8192_bytes_at_most(rt: HostRuntime) -> Result<(), Fail> {
    for &(length, expected) in &LENGTHS {
        let input = long_lines(rt.alloc(), length)?;
        for &step in &[ALL, 1, 4096, 8191] {
            answers(&rt, rt.alloc(), input.as_slice(), step, expected, 2)?;
        }
    }
    Ok(())
}

/// Three lines, and a part of a fourth. The line feeds are at 30, 61 and 67.
const CUT: &[u8] =
    b"begin F/AL/A1/2030-06-01/1/1!0\nbegin F/AL/A1/2030-06-01/1/1!0\nhello\nbegin F";

/// The answers to the three lines.
const ANSWERS: &str = "journey 1 begun\njourney 2 begun\nrefused 4 BadBody\n";

/// The answers to the lines that end within so many bytes.
fn answers_before(read: usize) -> &'static str {
    match read {
        0..=30 => "",
        31..=61 => "journey 1 begun\n",
        62..=67 => "journey 1 begun\njourney 2 begun\n",
        _ => ANSWERS,
    }
}

/// By which fault the run of lines ended. One that is out of memory ends the test by that fault.
fn fault_of(ended: Result<u64, ServeFault>) -> Result<Option<ServeFault>, Fail> {
    match ended {
        Ok(_) => Ok(None),
        Err(ServeFault::Memory) => Err(Fail::from(ServeFault::Memory)),
        Err(fault) => Ok(Some(fault)),
    }
}

/// If the input breaks off after so many bytes, the lines before that are answered.
fn breaks_off(rt: &impl Abort, alloc: Global, read: usize, step: usize) -> Result<(), Fail> {
    let mut book = new_desk(alloc)?;
    let mut sink = Sink::of_flushed_lines(alloc, ALL, ROOM)?;
    let mut reader = Pieces::cut(CUT.get(..read).ok_or("a cut")?, step);
    let fault = fault_of(run_lines(alloc, &mut reader, &mut sink, &mut book))?;
    let expected = answers_before(read);
    holds(rt, expected, fault == Some(ServeFault::Read));
    reads(rt, expected, sink.taken(), expected);
    Ok(())
}

#[test]
fn a_failed_read_leaves_the_lines_before_it_answered(rt: HostRuntime) -> Result<(), Fail> {
    for read in 0..=CUT.len() {
        breaks_off(&rt, rt.alloc(), read, ALL)?;
        breaks_off(&rt, rt.alloc(), read, 1)?;
    }
    Ok(())
}

/// If there is room for only so many bytes, the written bytes are a prefix of the answers. The line whose answer could
/// not be written was executed, and no later line was.
fn fills_up(rt: &impl Abort, alloc: Global, room: usize, step: usize) -> Result<(), Fail> {
    let mut book = new_desk(alloc)?;
    let mut sink = Sink::of_flushed_lines(alloc, step, room)?;
    let ended = run_lines(alloc, &mut Pieces::of(CUT, step), &mut sink, &mut book);
    let fault = fault_of(ended)?;
    let front = ANSWERS.get(..room).ok_or("a front")?;
    holds(rt, front, fault == Some(ServeFault::Write));
    reads(rt, front, sink.taken(), front);
    holds(rt, front, book.journey(1)?.is_some());
    holds(rt, front, book.journey(2)?.is_some() == (room >= 16));
    Ok(())
}

#[test]
fn a_failed_write_leaves_a_beginning_of_the_answers(rt: HostRuntime) -> Result<(), Fail> {
    for room in 0..ANSWERS.len() {
        fills_up(&rt, rt.alloc(), room, ALL)?;
        fills_up(&rt, rt.alloc(), room, 1)?;
    }
    Ok(())
}

/// If an answer cannot be flushed, it is not given, and the next line is not read.
#[test]
fn a_failed_flush_ends_the_run(rt: HostRuntime) -> Result<(), Fail> {
    let alloc = rt.alloc();
    let mut book = new_desk(alloc)?;
    let mut stuck = Stuck::new(alloc, ROOM)?;
    let ended = run_lines(alloc, &mut Pieces::of(CUT, ALL), &mut stuck, &mut book);
    holds(&rt, "a fault", fault_of(ended)? == Some(ServeFault::Write));
    reads(&rt, "the answer", stuck.taken(), "journey 1 begun\n");
    holds(&rt, "no journey", book.journey(2)?.is_none());
    Ok(())
}
