//! Pages after which the connection is closed: later bytes are not read.
use crate::tests::desks::{is_as_new, new_desk};
use crate::tests::orders::{
    FLIGHT, GET, NO_LENGTH, NOTHING_UNFINISHED, TOO_LARGE, ask_for, head_of,
};
use crate::tests::talks::{Page, STEPS, Talk, does_nothing_when_cut, is_answered, is_served};
use std::alloc::Global;
use std::process::Abort;

/// The head gets this page. A chunk and a good request for a journey follow it, and get no page.
fn closed_with(rt: &impl Abort, alloc: Global, head: &[u8], page: Page) -> Talk {
    let mut talk = Talk::new(alloc);
    talk.send(rt, head);
    talk.page(rt, alloc, page);
    talk.send(rt, b"5\r\nhello\r\n0\r\n\r\n");
    ask_for(rt, alloc, &mut talk, "ann", "k1", &[FLIGHT]);
    talk
}

/// Checks that a desk closes a connection with this page, in one piece and byte by byte, and changes nothing.
pub fn closes_with(rt: &impl Abort, alloc: Global, case: &str, head: &[u8], page: Page) {
    let talk = closed_with(rt, alloc, head, page);
    for &step in &STEPS {
        let mut desk = new_desk(rt, alloc);
        is_served(rt, alloc, case, &talk, &mut desk, talk.sent.len(), step);
        is_as_new(rt, case, &mut desk);
    }
}

/// Checks each proper prefix of the bytes: there is no page before the head is whole, and nothing changes.
pub fn closes_when_cut(rt: &impl Abort, alloc: Global, case: &str, head: &[u8], page: Page) {
    let talk = closed_with(rt, alloc, head, page);
    does_nothing_when_cut(rt, alloc, case, &talk);
}

const SHOWN: Page = (
    "200 OK",
    "Connection: close\r\n",
    17,
    r#"{"unfinished":[]}"#,
);

const NOT_PUT: Page = (
    "405 Method Not Allowed",
    "Allow: GET\r\nConnection: close\r\n",
    34,
    r#"{"name":"WrongMethod","refused":8}"#,
);

const BAD_HEAD_TO_HEAD: Page = ("400 Bad Request", "Connection: close\r\n", 30, "");

const TOO_LARGE_TO_HEAD: Page = ("413 Content Too Large", "Connection: close\r\n", 32, "");

// the request, further fields, and the page
#[rattlefmt::skip]
static CLOSED: [(&str, &str, Page); 8] = [
    ("GET /unfinished",  "Connection: close\r\n",         SHOWN),
    ("GET /unfinished",  "CONNECTION:CLOSE\t\r\n",        SHOWN),
    ("PUT /stock",       "Connection: close\r\n",         NOT_PUT),
    ("POST /journeys",   "Content-Length: 262145\r\n",    TOO_LARGE),
    ("GET /nowhere",     "Content-Length: 999999999\r\n", TOO_LARGE),
    ("POST /journeys",   "",                              NO_LENGTH),
    ("HEAD /unfinished", "Host: d\r\n",                   BAD_HEAD_TO_HEAD),
    ("HEAD /unfinished", "Content-Length: 262145\r\n",    TOO_LARGE_TO_HEAD),
];

#[test]
fn nothing_is_read_behind_a_closing_page(rt: HostRuntime) {
    for &(asked, fields, page) in &CLOSED {
        let head = head_of(&rt, rt.alloc(), asked, fields);
        closes_with(&rt, rt.alloc(), asked, &head, page);
    }
}

#[test]
fn a_closing_request_that_is_cut_gets_no_page(rt: HostRuntime) {
    for &(asked, fields, page) in &CLOSED {
        let head = head_of(&rt, rt.alloc(), asked, fields);
        closes_when_cut(&rt, rt.alloc(), asked, &head, page);
    }
}

#[rattlefmt::skip]
static LEFT_OPEN: [(&str, &[u8]); 3] = [
    ("another word",      b"GET /unfinished HTTP/1.1\r\nHost: d\r\nDesk-Agent: ann\r\nConnection: keep-alive\r\n\r\n"),
    ("close among words", b"GET /unfinished HTTP/1.1\r\nHost: d\r\nDesk-Agent: ann\r\nConnection: close, x\r\n\r\n"),
    ("a body of a GET",   b"GET /unfinished HTTP/1.1\r\nHost: d\r\nDesk-Agent: ann\r\nContent-Length: 000000005\r\n\r\nhello"),
];

#[test]
fn other_connections_stay_open(rt: HostRuntime) {
    for &(case, sent) in &LEFT_OPEN {
        let mut talk = Talk::new(rt.alloc());
        talk.send(&rt, sent);
        talk.page(&rt, rt.alloc(), NOTHING_UNFINISHED);
        talk.send(&rt, GET);
        talk.page(&rt, rt.alloc(), NOTHING_UNFINISHED);
        is_answered(&rt, rt.alloc(), case, &talk);
    }
}
