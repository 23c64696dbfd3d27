//! Heads that are refused. The connection is closed, and nothing changes.
use crate::tests::closing::{closes_when_cut, closes_with};
use crate::tests::orders::BAD_HEAD;
use crate::tests::talks::{Talk, is_answered};
use std::alloc::{AllocError, Global};

// what the row shows, and the fields of a head
#[rattlefmt::skip]
static FIELDS: [(&str, &[u8]); 13] = [
    ("no host",                  b""),
    ("two hosts",                b"Host: d\r\nhost: d\r\n"),
    ("two hosts, and too large", b"Host: d\r\nHost: d\r\nContent-Length: 262145\r\n"),
    ("chunked",                  b"Host: d\r\nTransfer-Encoding: chunked\r\n"),
    ("chunked and a length",     b"Host: d\r\nContent-Length: 15\r\nTransfer-Encoding: chunked\r\n"),
    ("two lengths",              b"Host: d\r\nContent-Length: 0\r\nContent-Length: 0\r\n"),
    ("a length of ten digits",   b"Host: d\r\nContent-Length: 0000000000\r\n"),
    ("a length with a sign",     b"Host: d\r\nContent-Length: +0\r\n"),
    ("an empty length",          b"Host: d\r\nContent-Length: \r\n"),
    ("a folded line",            b"Host: d\r\n e\r\n"),
    ("CR without LF",            b"Host: d\rContent-Length: 0\r\n"),
    ("NUL in a value",           b"Host: d\0\r\n"),
    ("a blank before the colon", b"Host : d\r\n"),
];

/// A GET or a POST with these fields.
fn with_fields(alloc: Global, method: &[u8], fields: &[u8]) -> Result<Vec<u8>, AllocError> {
    let mut head = method.to_vec(alloc)?;
    head.extend_from_slice(b" /journeys HTTP/1.1\r\nDesk-Agent: ann\r\nDesk-Key: k1\r\n")?;
    head.extend_from_slice(fields)?;
    head.extend_from_slice(b"\r\n")?;
    Ok(head)
}

#[test]
fn bad_fields_are_refused(rt: HostRuntime) {
    for &(case, fields) in &FIELDS {
        for &method in &[b"GET".as_slice(), b"POST"] {
            let head = with_fields(rt.alloc(), method, fields).expect(&rt, "memory");
            closes_with(&rt, rt.alloc(), case, &head, BAD_HEAD);
        }
    }
}

#[test]
fn bad_fields_that_are_cut_are_not_looked_at(rt: HostRuntime) {
    for &(case, fields) in &FIELDS {
        let head = with_fields(rt.alloc(), b"POST", fields).expect(&rt, "memory");
        closes_when_cut(&rt, rt.alloc(), case, &head, BAD_HEAD);
    }
}

// what the row shows, and a whole head
#[rattlefmt::skip]
static HEADS: [(&str, &[u8]); 9] = [
    ("one byte in a line",       b"A\r\n\r\n"),
    ("version 1.0",              b"GET /unfinished HTTP/1.0\r\nHost: d\r\n\r\n"),
    ("version 2.0",              b"GET /unfinished HTTP/2.0\r\nHost: d\r\n\r\n"),
    ("no version",               b"GET /unfinished\r\nHost: d\r\n\r\n"),
    ("no target",                b"GET  HTTP/1.1\r\nHost: d\r\n\r\n"),
    ("NUL in the target",        b"GET /\0 HTTP/1.1\r\nHost: d\r\n\r\n"),
    ("a target that is no text", b"GET /\xff HTTP/1.1\r\nHost: d\r\n\r\n"),
    ("CR without LF",            b"GET /unfinished HTTP/1.1\rHost: d\r\n\r\n"),
    ("LF alone",                 b"A\n\n"),
];

#[test]
fn what_is_no_head_is_refused(rt: HostRuntime) {
    for &(case, head) in &HEADS {
        closes_with(&rt, rt.alloc(), case, head, BAD_HEAD);
    }
}

#[test]
fn what_is_no_head_and_is_cut_gets_no_page(rt: HostRuntime) {
    for &(case, head) in &HEADS {
        closes_when_cut(&rt, rt.alloc(), case, head, BAD_HEAD);
    }
}

/// Bytes without an empty line are no message.
#[test]
fn bytes_without_an_empty_line_get_no_page(rt: HostRuntime) {
    for &sent in &[
        b"".as_slice(),
        b"\r\n\r\n\r\n",
        b"GET / HTTP/1.1\rHost: d\r\r",
        b"\0\0\r\n",
    ] {
        let mut talk = Talk::new(rt.alloc());
        talk.send(&rt, sent);
        is_answered(&rt, rt.alloc(), "no empty line", &talk);
    }
}
