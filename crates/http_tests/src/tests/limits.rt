//! Sizes on both sides of each limit: heads, fields, bodies, agents and keys.
use crate::tests::closing::closes_with;
use crate::tests::orders::{
    BAD_BODY, BAD_HEAD, FLIGHT, GET, JOURNEY_1, NO_AGENT, NO_KEY, NOTHING_UNFINISHED, TOO_LARGE,
    begin,
};
use crate::tests::talks::{Asked, Page, Talk, is_answered, put};
use std::alloc::Global;
use std::process::Abort;

/// A text, repeated so many times, between two others.
fn filled(
    rt: &impl Abort,
    alloc: Global,
    front: &str,
    text: &str,
    count: usize,
    rest: &str,
) -> Vec<u8> {
    let mut bytes = Vec::new(alloc);
    put(rt, &mut bytes, &[front]);
    for _ in 0..count {
        put(rt, &mut bytes, &[text]);
    }
    put(rt, &mut bytes, &[rest]);
    bytes
}

/// Checks that a request gets this page, and that a good request after it gets its own.
fn is_followed(rt: &impl Abort, alloc: Global, case: &str, sent: &[u8], page: Page) {
    let mut talk = Talk::new(alloc);
    talk.send(rt, sent);
    talk.page(rt, alloc, page);
    talk.send(rt, GET);
    talk.page(rt, alloc, NOTHING_UNFINISHED);
    is_answered(rt, alloc, case, &talk);
}

#[test]
fn bytes_without_a_head_are_refused_at_8192(rt: HostRuntime) {
    let alloc = rt.alloc();
    let mut talk = Talk::new(alloc);
    talk.send(&rt, &filled(&rt, alloc, "", "A", 8191, ""));
    is_answered(&rt, alloc, "8,191 bytes", &talk);
    talk.send(&rt, b"A");
    talk.page(&rt, alloc, BAD_HEAD);
    is_answered(&rt, alloc, "8,192 bytes", &talk);
    talk.send(&rt, b"A");
    is_answered(&rt, alloc, "8,193 bytes", &talk);
}

/// A head of so many bytes.
fn long_head(rt: &impl Abort, alloc: Global, method: &str, length: usize) -> Vec<u8> {
    let mut front = Vec::new(alloc);
    put(
        rt,
        &mut front,
        &[
            method,
            " /unfinished HTTP/1.1\r\nHost: d\r\nDesk-Agent: ann\r\nA: ",
        ],
    );
    let count = length.saturating_sub(front.len()).saturating_sub(4);
    for _ in 0..count {
        put(rt, &mut front, &["a"]);
    }
    put(rt, &mut front, &["\r\n\r\n"]);
    assert!(rt; front.len() == length);
    front
}

#[test]
fn a_head_has_8192_bytes_at_most(rt: HostRuntime) {
    let alloc = rt.alloc();
    for &length in &[8191, 8192] {
        let head = long_head(&rt, alloc, "GET", length);
        is_followed(&rt, alloc, "a long head", &head, NOTHING_UNFINISHED);
    }
}

/// A longer head is not parsed, so its page has a body for every method.
#[test]
fn a_longer_head_is_refused(rt: HostRuntime) {
    let alloc = rt.alloc();
    for &method in &["GET", "HEAD"] {
        let mut head = long_head(&rt, alloc, method, 8193);
        let mut talk = Talk::new(alloc);
        let last = head.pop();
        talk.send(&rt, &head);
        talk.page(&rt, alloc, BAD_HEAD);
        talk.send(&rt, &[last.unwrap_or(0)]);
        talk.send(&rt, GET);
        is_answered(&rt, alloc, method, &talk);
    }
}

#[test]
fn a_head_has_32_fields_at_most(rt: HostRuntime) {
    let alloc = rt.alloc();
    let front = "GET /unfinished HTTP/1.1\r\nHost: d\r\nDesk-Agent: ann\r\n";
    let head = filled(&rt, alloc, front, "A: b\r\n", 30, "\r\n");
    is_followed(&rt, alloc, "32 fields", &head, NOTHING_UNFINISHED);
    let head = filled(&rt, alloc, front, "A: b\r\n", 31, "\r\n");
    closes_with(&rt, alloc, "33 fields", &head, BAD_HEAD);
    let front = "HEAD /unfinished HTTP/1.1\r\nHost: d\r\nDesk-Agent: ann\r\n";
    let head = filled(&rt, alloc, front, "A: b\r\n", 31, "\r\n");
    closes_with(&rt, alloc, "33 fields of HEAD", &head, BAD_HEAD);
}

const PLAN: &str =
    "POST /journeys HTTP/1.1\r\nHost: d\r\nDesk-Agent: ann\r\nDesk-Key: k1\r\nContent-Length: ";

const BATCH: &str =
    "POST /batches/b1 HTTP/1.1\r\nHost: d\r\nDesk-Agent: ann\r\nDesk-Key: k1\r\nContent-Length: ";

const BAD_HEADER: Page = (
    "400 Bad Request",
    "",
    54,
    r#"{"cause":"header","name":"BadCsv","refused":6,"row":0}"#,
);

/// A request with so many bytes of body.
fn sent(rt: &impl Abort, alloc: Global, front: &str, length: &str, count: usize) -> Vec<u8> {
    let mut bytes = Vec::new(alloc);
    put(rt, &mut bytes, &[front, length, "\r\n\r\n"]);
    let body = filled(rt, alloc, "", "x", count, "");
    bytes.extend_from_slice(&body).expect(rt, "memory");
    bytes
}

#[test]
fn a_body_has_262144_bytes_at_most(rt: HostRuntime) {
    let alloc = rt.alloc();
    let request = sent(&rt, alloc, PLAN, "262144", 262_144);
    is_followed(&rt, alloc, "a plan", &request, BAD_BODY);
    let request = sent(&rt, alloc, BATCH, "262144", 262_144);
    is_followed(&rt, alloc, "a batch", &request, BAD_HEADER);
}

#[test]
fn a_larger_body_is_not_read(rt: HostRuntime) {
    let alloc = rt.alloc();
    for &front in &[PLAN, BATCH] {
        let mut talk = Talk::new(alloc);
        talk.send(&rt, &sent(&rt, alloc, front, "262145", 0));
        talk.page(&rt, alloc, TOO_LARGE);
        talk.send(&rt, &filled(&rt, alloc, "", "x", 262_145, ""));
        is_answered(&rt, alloc, front, &talk);
    }
}

/// An agent of 16 characters, and a key of 32.
const LONG_AGENT: &str = "abcdefghijklmnop";

const LONG_KEY: &str = "abcdefghijklmnopqrstuvwxyzABC-09";

// agents and keys that are not valid
#[rattlefmt::skip]
static TOO_LONG: [Asked; 6] = [
    ("GET /unfinished", "abcdefghijklmnopq", "", "", NO_AGENT),
    ("GET /unfinished", "Ann",               "", "", NO_AGENT),
    ("GET /unfinished", "ann\r\nDesk-Agent: ann", "", "", NO_AGENT),
    ("POST /journeys",  "ann", "abcdefghijklmnopqrstuvwxyzABC-09x", "", NO_KEY),
    ("POST /journeys",  "ann", "k_1",                               "", NO_KEY),
    ("POST /journeys",  "ann", "k1\r\ndesk-key: k1",                "", NO_KEY),
];

#[test]
fn an_agent_has_16_characters_and_a_key_32(rt: HostRuntime) {
    let alloc = rt.alloc();
    let mut talk = Talk::new(alloc);
    talk.go_on(&rt, alloc, &TOO_LONG);
    begin(
        &rt,
        alloc,
        &mut talk,
        LONG_AGENT,
        LONG_KEY,
        &[FLIGHT],
        JOURNEY_1,
    );
    is_answered(&rt, alloc, "agents and keys", &talk);
}
