//! What a desk that is asked for a report is sent, and what is read of what it answers.
use failing_streams::{Pieces, Sink};
use http_pages::{Answer, Unanswered, ask, is_target};
use std::alloc::{AllocError, Global};
use std::test::Fail;

/// The request for the stock.
const REQUEST: &[u8] = b"GET /reports/stock HTTP/1.1\r\nHost: desk\r\nConnection: close\r\n\r\n";

/// The page of a report, as the desk writes it.
const PAGE: &[u8] =
    b"HTTP/1.1 200 OK\r\nContent-Length: 8\r\nContent-Type: text/plain\r\nConnection: close\r\n\r\ncells 0\n";

/// What is read of an answer, as a text in a table.
fn told(alloc: Global, reader: &mut Pieces<'_>) -> Result<String, AllocError> {
    asked(alloc, reader, &mut Sink::new(alloc, 7, REQUEST.len())?)
}

/// What is read of an answer where the request goes into this sink.
fn asked(alloc: Global, reader: &mut Pieces<'_>, sink: &mut Sink) -> Result<String, AllocError> {
    match ask(alloc, "/reports/stock", reader, sink) {
        Ok(Answer::Report(text)) => String::from_utf8(text).map_err(|_| AllocError),
        Ok(Answer::NoJourney) => String::from_str(alloc, "no journey"),
        Err(Unanswered::Memory) => Err(AllocError),
        Err(Unanswered::Lost) => String::from_str(alloc, "lost"),
        Err(Unanswered::Unread) => String::from_str(alloc, "unread"),
    }
}

// what the row shows, the bytes that come, and what is read of them
#[rattlefmt::skip]
const ANSWERS: [(&str, &str, &str); 22] = [
    ("a report",                  "HTTP/1.1 200 OK\r\nContent-Length: 8\r\nContent-Type: text/plain\r\nConnection: close\r\n\r\ncells 0\n", "cells 0\n"),
    ("an empty report",           "HTTP/1.1 200 OK\r\nContent-Length: 0\r\nContent-Type: text/plain\r\nConnection: close\r\n\r\n", ""),
    ("with the lines for caches", "HTTP/1.1 200 OK\r\nCache-Control: no-store\r\nVary: Desk-Agent\r\nDate: Sun, 06 Nov 1994 08:49:37 GMT\r\nContent-Length: 8\r\nContent-Type: text/plain\r\nConnection: close\r\n\r\ncells 0\n", "cells 0\n"),
    ("a field in small letters",  "HTTP/1.1 200 OK\r\ncontent-length:8\r\n\r\ncells 0\n", "cells 0\n"),
    ("no such journey",           "HTTP/1.1 404 Not Found\r\nContent-Length: 32\r\nContent-Type: application/json\r\nConnection: close\r\n\r\n{\"name\":\"NoJourney\",\"refused\":9}", "no journey"),
    ("an older desk",             "HTTP/1.1 404 Not Found\r\nContent-Length: 34\r\nContent-Type: application/json\r\nConnection: close\r\n\r\n{\"name\":\"UnknownPath\",\"refused\":7}", "unread"),
    ("words that it does not know", "HTTP/1.1 400 Bad Request\r\nContent-Length: 30\r\nContent-Type: application/json\r\nConnection: close\r\n\r\n{\"name\":\"BadBody\",\"refused\":4}", "unread"),
    ("the refusal with another status", "HTTP/1.1 400 Bad Request\r\nContent-Length: 32\r\n\r\n{\"name\":\"NoJourney\",\"refused\":9}", "unread"),
    ("the refusal as a report",   "HTTP/1.1 200 OK\r\nContent-Length: 32\r\n\r\n{\"name\":\"NoJourney\",\"refused\":9}", "{\"name\":\"NoJourney\",\"refused\":9}"),
    ("another success",           "HTTP/1.1 206 Partial Content\r\nContent-Length: 8\r\n\r\ncells 0\n", "unread"),
    ("a length too great",        "HTTP/1.1 200 OK\r\nContent-Length: 9\r\n\r\ncells 0\n", "unread"),
    ("a length too small",        "HTTP/1.1 200 OK\r\nContent-Length: 7\r\n\r\ncells 0\n", "unread"),
    ("a second page",             "HTTP/1.1 200 OK\r\nContent-Length: 8\r\n\r\ncells 0\nHTTP/1.1 200 OK\r\nContent-Length: 0\r\n\r\n", "unread"),
    ("no length",                 "HTTP/1.1 200 OK\r\nConnection: close\r\n\r\ncells 0\n", "unread"),
    ("two lengths",               "HTTP/1.1 200 OK\r\nContent-Length: 8\r\nContent-Length: 9\r\n\r\ncells 0\n", "unread"),
    ("a length with a sign",      "HTTP/1.1 200 OK\r\nContent-Length: +8\r\n\r\ncells 0\n", "unread"),
    ("in chunks",                 "HTTP/1.1 200 OK\r\nTransfer-Encoding: chunked\r\n\r\n8\r\ncells 0\n\r\n0\r\n\r\n", "unread"),
    ("a length and chunks",       "HTTP/1.1 200 OK\r\nContent-Length: 8\r\nTransfer-Encoding: chunked\r\n\r\ncells 0\n", "unread"),
    ("no head",                   "cells 0\n", "unread"),
    ("another protocol",          "SSH-2.0-OpenSSH_9.2\r\n", "unread"),
    ("100 Continue before it",    "HTTP/1.1 100 Continue\r\n\r\nHTTP/1.1 200 OK\r\nContent-Length: 8\r\n\r\ncells 0\n", "unread"),
    ("nothing",                   "", "unread"),
];

#[test]
fn only_a_whole_page_of_an_answer_is_read(rt: HostRuntime) -> Result<(), Fail> {
    for &(case, bytes, expected) in &ANSWERS {
        for step in [1, 3, bytes.len()] {
            let text = told(rt.alloc(), &mut Pieces::of(bytes.as_bytes(), step.max(1)))?;
            assert!(rt;
                text.as_str() == expected,
                "{case}, {step} at a time: {text}"
            );
        }
    }
    Ok(())
}

#[test]
fn a_page_that_is_cut_short_is_no_answer(rt: HostRuntime) -> Result<(), Fail> {
    for end in 0..PAGE.len() {
        let ended = told(rt.alloc(), &mut Pieces::of(&PAGE[..end], 5))?;
        assert!(rt; ended.as_str() == "unread", "it ends after {end}: {ended}");
        let failed = told(rt.alloc(), &mut Pieces::cut(&PAGE[..end], 5))?;
        assert!(rt; failed.as_str() == "lost", "it fails after {end}: {failed}");
    }
    Ok(())
}

#[test]
fn one_request_is_sent(rt: HostRuntime) -> Result<(), Fail> {
    let mut sink = Sink::new(rt.alloc(), 2, REQUEST.len())?;
    let whole = asked(rt.alloc(), &mut Pieces::of(PAGE, 9), &mut sink)?;
    assert!(rt; whole.as_str() == "cells 0\n", "{whole}");
    assert!(rt; sink.taken() == REQUEST);
    for room in 0..REQUEST.len() {
        let mut sink = Sink::new(rt.alloc(), 2, room)?;
        let cut = asked(rt.alloc(), &mut Pieces::of(PAGE, 9), &mut sink)?;
        assert!(rt; cut.as_str() == "lost", "room for {room}: {cut}");
        assert!(rt; sink.taken() == &REQUEST[..room]);
    }
    Ok(())
}

// a text, and whether it may be sent as a target
#[rattlefmt::skip]
const TARGETS: [(&str, bool); 8] = [
    ("/reports/stock",                                            true),
    ("/reports/holders?R/INN/DBL/2030-06-01&--format=json",       true),
    ("!~",                                                        true),
    ("/reports/history?a b",                                      false),
    ("/reports/history?1\r\nHost: other",                         false),
    ("/reports/history?\u{7f}",                                   false),
    ("/reports/history?\u{e9}",                                   false),
    ("/reports/history?\t",                                       false),
];

#[test]
fn a_target_has_visible_characters_alone(rt: HostRuntime) {
    for (text, expected) in TARGETS {
        assert!(rt; is_target(text) == expected, "{text}");
    }
}
