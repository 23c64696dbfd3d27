//! Who asks, and for whom a request is meant: nothing is done or shown in another name.
use crate::tests::doors::{ONLY_GET, is_answered_at};
use crate::tests::orders::{BUS, JOURNEY_1, NO_AGENT, NOTHING_UNFINISHED, UNKNOWN_PATH, plan_of};
use crate::tests::talks::{Page, Talk, put};
use desk_http::Door;
use std::alloc::Global;
use std::process::Abort;

const OF_ANN: Page = ("200 OK", "", 15, r#"{"agent":"ann"}"#);

const OF_DESK: Page = ("200 OK", "", 16, r#"{"agent":"desk"}"#);

const NOTHING: Page = (
    "200 OK",
    "",
    40,
    r#"{"events":0,"journeys":0,"unfinished":0}"#,
);

/// Sends a request with these fields. A POST gives the length of its body.
fn ask_with(
    rt: &impl Abort,
    alloc: Global,
    talk: &mut Talk,
    asked: &str,
    fields: &str,
    body: &[u8],
) {
    put(
        rt,
        &mut talk.sent,
        &[asked, " HTTP/1.1\r\nHost: d\r\n", fields],
    );
    if asked.starts_with("POST") {
        let length = body.len().to_string(alloc).expect(rt, "memory");
        put(rt, &mut talk.sent, &["Content-Length: ", &length, "\r\n"]);
    }
    put(rt, &mut talk.sent, &["\r\n"]);
    talk.send(rt, body);
}

/// Sends requests with these fields and without a body, and expects their pages.
fn go_on_with(rt: &impl Abort, alloc: Global, talk: &mut Talk, rows: &[(&str, &str, Page)]) {
    for &(asked, fields, page) in rows {
        ask_with(rt, alloc, talk, asked, fields, b"");
        talk.page(rt, alloc, page);
    }
}

// a request, its fields, and its page at each door
#[rattlefmt::skip]
const AT_EACH_DOOR: [(&str, &str, Page); 17] = [
    ("GET /agent",       "Desk-Agent: ann\r\n",                                       OF_ANN),
    ("GET /agent",       "Desk-Agent: Ann\r\n",                                       NO_AGENT),
    ("GET /agent",       "Desk-Agent: ann\r\nDesk-Agent: ann\r\n",                    NO_AGENT),
    ("POST /agent",      "Desk-Agent: ann\r\n",                                       ONLY_GET),
    ("GET /agent/",      "Desk-Agent: ann\r\n",                                       UNKNOWN_PATH),
    ("GET /agent",       "Desk-Agent: ann\r\ndesk-for:\t ann \r\n",                   OF_ANN),
    ("GET /agent",       "Desk-For: ann\r\nDesk-Agent: ann\r\n",                      OF_ANN),
    ("GET /agent",       "Desk-Agent: ann\r\nDesk-For: bob\r\n",                      NO_AGENT),
    ("GET /agent",       "Desk-Agent: ann\r\nDesk-For: an\r\n",                       NO_AGENT),
    ("GET /agent",       "Desk-Agent: ann\r\nDesk-For: Ann\r\n",                      NO_AGENT),
    ("GET /agent",       "Desk-Agent: ann\r\nDesk-For:\r\n",                          NO_AGENT),
    ("GET /agent",       "Desk-Agent: ann\r\nDesk-For: ann\r\nDesk-For: ann\r\n",     NO_AGENT),
    ("GET /unfinished",  "Desk-Agent: ann\r\nDesk-For: ann\r\n",                      NOTHING_UNFINISHED),
    ("GET /unfinished",  "Desk-Agent: ann\r\nDesk-For: bob\r\n",                      NO_AGENT),
    ("GET /health",      "Desk-Agent: ann\r\nDesk-For: bob\r\n",                      NOTHING),
    ("POST /unfinished", "Desk-Agent: ann\r\nDesk-For: bob\r\n",                      ONLY_GET),
    ("POST /journeys/x/step", "Desk-Agent: ann\r\nDesk-For: bob\r\n",                 NO_AGENT),
];

#[test]
fn a_request_is_answered_to_whom_it_is_meant_for(rt: HostRuntime) {
    let alloc = rt.alloc();
    for door in [Door::Port, Door::House] {
        let mut talk = Talk::new(alloc);
        go_on_with(&rt, alloc, &mut talk, &AT_EACH_DOOR);
        is_answered_at(&rt, alloc, door, &talk, 0);
    }
}

const OF_NOBODY: [(&str, &str, Page); 2] = [
    ("GET /agent", "", NO_AGENT),
    ("GET /agent", "Desk-For: ann\r\n", NO_AGENT),
];

// at the administrator's socket what names nobody is the house's, and what is meant for somebody is not
#[rattlefmt::skip]
const OF_THE_HOUSE: [(&str, &str, Page); 4] = [
    ("GET /agent",      "",                  OF_DESK),
    ("GET /agent",      "Desk-For: desk\r\n", NO_AGENT),
    ("GET /unfinished", "Desk-For: ann\r\n", NO_AGENT),
    ("POST /stop",      "Desk-For: ann\r\n", UNKNOWN_PATH),
];

#[test]
fn what_names_nobody_is_the_houses_at_its_door_alone(rt: HostRuntime) {
    let alloc = rt.alloc();
    for (door, rows) in [
        (Door::Port, OF_NOBODY.as_slice()),
        (Door::House, OF_THE_HOUSE.as_slice()),
    ] {
        let mut talk = Talk::new(alloc);
        go_on_with(&rt, alloc, &mut talk, rows);
        is_answered_at(&rt, alloc, door, &talk, 0);
    }
}

const NONE: Page = ("200 OK", "", 11, r#"{"mine":[]}"#);

const ONE: Page = (
    "200 OK",
    "",
    46,
    r#"{"mine":[{"journey":1,"pos":0,"state":"run"}]}"#,
);

// what ann pressed comes in the name of bob, and then in hers, twice; the page, and the own journeys of bob and ann then
#[rattlefmt::skip]
const PRESSED_ONCE: [(&str, Page, Page, Page); 4] = [
    ("Desk-Agent: bob\r\nDesk-For: ann\r\nDesk-Key: k1\r\n", NO_AGENT,  NONE, NONE),
    ("Desk-Agent: ann\r\nDesk-For: ann\r\nDesk-Key: k1\r\n", JOURNEY_1, NONE, ONE),
    ("Desk-Agent: bob\r\nDesk-For: ann\r\nDesk-Key: k1\r\n", NO_AGENT,  NONE, ONE),
    ("Desk-Agent: ann\r\nDesk-For: ann\r\nDesk-Key: k1\r\n", JOURNEY_1, NONE, ONE),
];

#[test]
fn what_one_agent_pressed_is_not_done_for_another(rt: HostRuntime) {
    let alloc = rt.alloc();
    let plan = plan_of(&rt, alloc, &[BUS]);
    let mut talk = Talk::new(alloc);
    for &(fields, page, of_bob, of_ann) in &PRESSED_ONCE {
        ask_with(&rt, alloc, &mut talk, "POST /journeys", fields, &plan);
        talk.page(&rt, alloc, page);
        talk.ask(&rt, alloc, "GET /mine", "bob", "", b"");
        talk.page(&rt, alloc, of_bob);
        talk.ask(&rt, alloc, "GET /mine", "ann", "", b"");
        talk.page(&rt, alloc, of_ann);
    }
    is_answered_at(&rt, alloc, Door::Port, &talk, 0);
}
