//! Which messages are read from streams, however they arrive.
mod asks;
mod hosts;
mod interruptions;
mod texts;
mod wide;

use failing_streams::Pieces;
use std::alloc::{AllocError, Global};
use std::process::Abort;
use texts::told;

/// Stops the test where other messages are read from these bytes, after what is buffered.
fn goes_on(
    rt: &impl Abort,
    alloc: Global,
    waiting: &mut Vec<u8>,
    mut pieces: Pieces<'_>,
    expected: &str,
    case: &str,
) {
    let (length, step) = (pieces.len(), pieces.step());
    let text = told(alloc, waiting, &mut pieces).expect(rt, "memory");
    assert!(rt;
        text.as_str() == expected,
        "{case}, {length} bytes, {step} at a time: {text}"
    );
}

/// Stops the test where other messages are read from these bytes alone.
fn is_told(rt: &impl Abort, alloc: Global, pieces: Pieces<'_>, expected: &str, case: &str) {
    let mut waiting = Vec::new(alloc);
    goes_on(rt, alloc, &mut waiting, pieces, expected, case);
}

/// Stops the test where other messages are read from the input of a row, so many bytes at a time.
fn are_told(rt: &impl Abort, alloc: Global, rows: &[(&str, &[u8], &str)], steps: &[usize]) {
    for &(case, input, expected) in rows {
        for &step in steps {
            is_told(rt, alloc, Pieces::of(input, step), expected, case);
        }
    }
}

/// More than all that a test reads.
const ALL: usize = 100_000;

// in one piece, and a few bytes at a time
const STEPS: [usize; 3] = [ALL, 1, 7];

/// A request as it is sent, whole.
const GET: &[u8] = b"GET /unfinished HTTP/1.1\r\nHost: d\r\nDesk-Agent: ann\r\n\r\n";

// the input, and its messages
#[rattlefmt::skip]
const STREAMS: [(&str, &[u8], &str); 10] = [
    ("nothing",                   b"", ""),
    ("twice the same",
        b"GET /unfinished HTTP/1.1\r\nHost: d\r\nDesk-Agent: ann\r\n\r\nGET /unfinished HTTP/1.1\r\nHost: d\r\nDesk-Agent: ann\r\n\r\n",
        "GET /unfinished ann -  open;GET /unfinished ann -  open;"),
    ("a body, and then another",
        b"POST /journeys HTTP/1.1\r\nHost: d\r\nDesk-Agent: ann\r\nDesk-Key: k1\r\nContent-Length: 4\r\n\r\nabcdGET / HTTP/1.1\r\nHost: d\r\n\r\n",
        "POST /journeys ann k1 abcd open;GET / - -  open;"),
    ("a body without its last byte", b"POST / HTTP/1.1\r\nHost: d\r\nContent-Length: 4\r\n\r\nabc", ""),
    ("one byte in a line",        b"A\r\n\r\n", "none;"),
    ("no head, and then a good one", b"A\r\n\r\nGET / HTTP/1.1\r\nHost: d\r\n\r\n", "none;GET / - -  open;"),
    ("empty lines before it",     b"\r\n\r\n\nGET / HTTP/1.1\r\nHost: d\r\n\r\n", "GET / - -  open;"),
    ("nothing but empty lines",   b"\r\n\r\n\r\n", ""),
    ("line feeds alone",          b"GET / HTTP/1.1\nHost: d\n\n", "GET / - -  open;"),
    ("a target that is no text",  b"GET /\xff HTTP/1.1\r\nHost: d\r\n\r\n", "none;"),
];

#[test]
fn messages_are_told_one_by_one(rt: HostRuntime) {
    are_told(&rt, rt.alloc(), &STREAMS, &STEPS);
}

// the lines of a head after `HTTP/1.1`, or all of it, with the method and the messages
#[rattlefmt::skip]
const HEADS: [(&str, &[u8], &str); 34] = [
    ("two hosts",            b"GET / HTTP/1.1\r\nHost: d\r\nhost: d\r\n\r\n",                         "GET / - -  open 1;"),
    ("an empty host",        b"GET / HTTP/1.1\r\nHost:\r\n\r\n",                                      "GET / - -  open;"),
    ("no host",              b"GET / HTTP/1.1\r\n\r\n",                                               "GET / - -  open 1;"),
    ("version 1.0",          b"GET / HTTP/1.0\r\nHost: d\r\n\r\n",                                    "GET / - -  open 1;"),
    ("an encoding",          b"GET / HTTP/1.1\r\nHost: d\r\nTransfer-Encoding: chunked\r\n\r\n",      "GET / - -  open 1;"),
    ("an empty encoding",    b"GET / HTTP/1.1\r\nHost: d\r\nTransfer-Encoding:\r\n\r\n",              "GET / - -  open 1;"),
    ("two lengths",          b"GET / HTTP/1.1\r\nHost: d\r\nContent-Length: 0\r\nContent-Length: 0\r\n\r\n", "GET / - -  open 1;"),
    ("nine digits",          b"PUT / HTTP/1.1\r\nHost: d\r\nContent-Length: 000000002\r\n\r\nab",     "PUT / - - ab open;"),
    ("ten digits",           b"PUT / HTTP/1.1\r\nHost: d\r\nContent-Length: 0000000002\r\n\r\n",      "PUT / - -  open 1;"),
    ("a sign",               b"PUT / HTTP/1.1\r\nHost: d\r\nContent-Length: +2\r\n\r\n",              "PUT / - -  open 1;"),
    ("no digit",             b"PUT / HTTP/1.1\r\nHost: d\r\nContent-Length:\r\n\r\n",                 "PUT / - -  open 1;"),
    ("too large",            b"POST / HTTP/1.1\r\nHost: d\r\nContent-Length: 262145\r\n\r\n",         "POST / - -  open 15;"),
    ("too large on a GET",   b"GET / HTTP/1.1\r\nHost: d\r\nContent-Length: 262145\r\n\r\n",          "GET / - -  open 15;"),
    ("two hosts, too large", b"GET / HTTP/1.1\r\nHost: d\r\nHost: d\r\nContent-Length: 262145\r\n\r\n", "GET / - -  open 1;"),
    ("no length on a POST",  b"POST /journeys HTTP/1.1\r\nHost: d\r\n\r\n",                           "POST /journeys - -  open 19;"),
    ("another method",       b"post / HTTP/1.1\r\nHost: d\r\n\r\n",                                   "post / - -  open;"),
    ("HEAD",                 b"HEAD / HTTP/1.1\r\nHost: d\r\n\r\n",                                   "HEAD / - -  open head;"),
    ("close",                b"GET / HTTP/1.1\r\nHost: d\r\nConnection: close\r\n\r\n",               "GET / - -  close;"),
    ("close, in capitals",   b"GET / HTTP/1.1\r\nHost: d\r\nCONNECTION:CLOSE\r\n\r\n",                "GET / - -  close;"),
    ("close among others",   b"GET / HTTP/1.1\r\nHost: d\r\nConnection: close, x\r\n\r\n",            "GET / - -  open;"),
    ("the second says close", b"GET / HTTP/1.1\r\nHost: d\r\nConnection: x\r\nConnection: close\r\n\r\n", "GET / - -  close;"),
    ("an agent with blanks", b"GET / HTTP/1.1\r\nHost: d\r\nDesk-Agent: \t ann \t\r\n\r\n",           "GET / ann -  open;"),
    ("a bad agent",          b"GET / HTTP/1.1\r\nHost: d\r\nDesk-Agent: Ann\r\n\r\n",                 "GET / - -  open;"),
    ("a long agent",         b"GET / HTTP/1.1\r\nHost: d\r\nDesk-Agent: abcdefghijklmnopq\r\n\r\n",   "GET / - -  open;"),
    ("two agents",           b"GET / HTTP/1.1\r\nHost: d\r\nDesk-Agent: ann\r\nDesk-Agent: Bob\r\n\r\n", "GET / - -  open;"),
    ("an agent of no text",  b"GET / HTTP/1.1\r\nHost: d\r\nDesk-Agent: a\xff\r\n\r\n",               "GET / - -  open;"),
    ("meant for who asks",   b"GET / HTTP/1.1\r\nHost: d\r\nDesk-Agent: ann\r\nDESK-FOR: ann\r\n\r\n",   "GET / ann -  open;"),
    ("meant for another",    b"GET / HTTP/1.1\r\nHost: d\r\nDesk-Agent: ann\r\nDesk-For: bob\r\n\r\n",   "GET / - -  open;"),
    ("meant for a longer name", b"GET / HTTP/1.1\r\nHost: d\r\nDesk-Agent: ann\r\nDesk-For: anna\r\n\r\n", "GET / - -  open;"),
    ("meant for no text",    b"GET / HTTP/1.1\r\nHost: d\r\nDesk-Agent: ann\r\nDesk-For: an\xff\r\n\r\n", "GET / - -  open;"),
    ("meant twice",          b"GET / HTTP/1.1\r\nHost: d\r\nDesk-Agent: ann\r\nDesk-For: ann\r\nDesk-For: ann\r\n\r\n", "GET / - -  open;"),
    ("meant, and nobody asks", b"GET / HTTP/1.1\r\nHost: d\r\nDesk-For: ann\r\n\r\n",                   "GET / - -  open;"),
    ("a key",                b"GET / HTTP/1.1\r\nHost: d\r\nDESK-KEY: K-9\r\n\r\n",                   "GET / - K-9  open;"),
    ("a space before a colon", b"GET / HTTP/1.1\r\nHost : d\r\n\r\n",                                 "none;"),
];

#[test]
fn a_head_is_refused_for_its_first_fault(rt: HostRuntime) {
    are_told(&rt, rt.alloc(), &HEADS, &[5]);
}

#[test]
fn what_is_cut_off_is_no_message(rt: HostRuntime) {
    for read in 0..GET.len() {
        are_told(&rt, rt.alloc(), &[("cut off", &GET[..read], "")], &STEPS);
    }
}

/// So many times these bytes between two texts.
fn filled(
    alloc: Global,
    front: &[u8],
    bytes: &[u8],
    count: usize,
    rest: &[u8],
) -> Result<Vec<u8>, AllocError> {
    let mut text = front.to_vec(alloc)?;
    for _ in 0..count {
        text.extend_from_slice(bytes)?;
    }
    text.extend_from_slice(rest)?;
    Ok(text)
}

/// Stops the test where other messages are read from so many times these bytes between two texts.
fn each_is_told(
    rt: &impl Abort,
    alloc: Global,
    rows: &[(usize, &str)],
    front: &[u8],
    bytes: &[u8],
    rest: &[u8],
    steps: &[usize],
) {
    for &(count, expected) in rows {
        let input = filled(alloc, front, bytes, count, rest).expect(rt, "memory");
        are_told(rt, alloc, &[("filled", &input, expected)], steps);
    }
}

// how many bytes `A`, and the messages
const LONG: [(usize, &str); 4] = [
    (8191, ""),
    (8192, "none;"),
    (8193, "none;"),
    (16_384, "none;none;"),
];

#[test]
fn a_front_is_told_at_8192_bytes(rt: HostRuntime) {
    each_is_told(&rt, rt.alloc(), &LONG, b"", b"A", b"", &[ALL, 64]);
}

// how many bytes a value has, and the messages of its head, of 41 more bytes, and of three more
const VALUES: [(usize, &str); 2] = [(8151, "GET / ann -  open;none;"), (8152, "none;none;")];

#[test]
fn a_head_has_8192_bytes_at_most(rt: HostRuntime) {
    let front = b"GET / HTTP/1.1\r\nHost:";
    let rest = b"\r\nDesk-Agent:ann\r\n\r\nA\n\n";
    each_is_told(&rt, rt.alloc(), &VALUES, front, b"d", rest, &[4096]);
}

// how many fields stand after the host, and the messages
const FIELDS: [(usize, &str); 2] = [(31, "GET / - -  open;"), (32, "none;")];

#[test]
fn a_head_has_32_fields_at_most(rt: HostRuntime) {
    let front = b"GET / HTTP/1.1\r\nHost: d\r\n";
    each_is_told(&rt, rt.alloc(), &FIELDS, front, b"A: b\r\n", b"\r\n", &[64]);
}

#[test]
fn a_body_has_262144_bytes_at_most(rt: HostRuntime) {
    let alloc = rt.alloc();
    let front = b"POST / HTTP/1.1\r\nHost: d\r\nContent-Length: 262144\r\n\r\n";
    let input = filled(alloc, front, b"x", 262_144, b"A\n\n").expect(&rt, "memory");
    let all = filled(alloc, b"POST / - - ", b"x", 262_144, b" open;none;").expect(&rt, "memory");
    let expected = str::from_utf8(&all).expect(&rt, "text");
    is_told(&rt, alloc, Pieces::of(&input, ALL), expected, "a body");
}

// A reader that fails if it is asked once more shows that it is not asked.
#[test]
fn a_message_is_given_before_the_next_read(rt: HostRuntime) {
    let expected = "GET /unfinished ann -  open;Read";
    for &step in &STEPS {
        is_told(&rt, rt.alloc(), Pieces::cut(GET, step), expected, "GET");
    }
}

/// Stops the test where a failed read between these two parts of a request is not reported, or the retry does not
/// resume.
fn is_resumed(rt: &impl Abort, alloc: Global, front: &[u8], rest: &[u8], expected: &str) {
    let mut waiting = Vec::new(alloc);
    goes_on(
        rt,
        alloc,
        &mut waiting,
        Pieces::cut(front, 3),
        "Read",
        "front",
    );
    goes_on(
        rt,
        alloc,
        &mut waiting,
        Pieces::of(rest, 3),
        expected,
        "rest",
    );
}

#[test]
fn after_a_failed_read_the_message_goes_on(rt: HostRuntime) {
    let expected = "GET /unfinished ann -  open;";
    for read in 0..GET.len() {
        is_resumed(&rt, rt.alloc(), &GET[..read], &GET[read..], expected);
    }
}
