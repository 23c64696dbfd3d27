//! Own journeys, ended ones too, and how much the desk has, which anybody may ask.
use crate::tests::doors::{ONLY_GET, go_on_unnamed, is_answered_at};
use crate::tests::orders::{
    BAD_BODY, BUS, FLIGHT, JOURNEY_1, JOURNEY_2, NO_AGENT, UNKNOWN_PATH, ask_for, begin, begun,
};
use crate::tests::talks::{Asked, Page, Talk, is_answered};
use desk_http::Door;
use std::alloc::Global;
use std::process::Abort;

const JOURNEY_3: Page = ("200 OK", "", 13, r#"{"journey":3}"#);

const NONE: Page = ("200 OK", "", 11, r#"{"mine":[]}"#);

const BOTH: Page = (
    "200 OK",
    "",
    84,
    r#"{"mine":[{"journey":1,"pos":1,"state":"ended"},{"journey":3,"pos":0,"state":"run"}]}"#,
);

const LAST: Page = (
    "200 OK",
    "",
    46,
    r#"{"mine":[{"journey":3,"pos":0,"state":"run"}]}"#,
);

const OF_BOB: Page = (
    "200 OK",
    "",
    46,
    r#"{"mine":[{"journey":2,"pos":0,"state":"run"}]}"#,
);

// ann has ended journey 1 and begun journey 3, and bob has begun journey 2
#[rattlefmt::skip]
static OWN: [Asked; 13] = [
    ("POST /journeys/1/step", "ann", "k9", "", ("200 OK", "", 51, r#"{"item":"T1.1","journey":1,"pos":1,"state":"ended"}"#)),
    ("GET /mine",             "ann", "",   "", BOTH),
    ("GET /mine/0",           "ann", "",   "", BOTH),
    ("GET /mine/1",           "ann", "",   "", LAST),
    ("GET /mine/2",           "ann", "",   "", LAST),
    ("GET /mine/3",           "ann", "",   "", NONE),
    ("GET /mine",             "bob", "",   "", OF_BOB),
    ("GET /mine/2",           "bob", "",   "", NONE),
    ("GET /mine",             "eve", "",   "", NONE),
    ("GET /mine",             "",    "",   "", NO_AGENT),
    ("GET /mine/01",          "ann", "",   "", BAD_BODY),
    ("GET /mine/",            "ann", "",   "", UNKNOWN_PATH),
    ("POST /mine/x",          "",    "",   "", ONLY_GET),
];

/// A talk in which these journeys are begun.
fn three_begun(rt: &impl Abort, alloc: Global) -> Talk {
    let mut talk = begun(rt, alloc, "k1", &[FLIGHT]);
    begin(rt, alloc, &mut talk, "bob", "k3", &[BUS], JOURNEY_2);
    begin(rt, alloc, &mut talk, "ann", "k4", &[BUS], JOURNEY_3);
    talk
}

#[test]
fn an_agent_sees_its_own_journeys_ended_ones_too(rt: HostRuntime) {
    let mut talk = three_begun(&rt, rt.alloc());
    talk.go_on(&rt, rt.alloc(), &OWN);
    is_answered(&rt, rt.alloc(), "own journeys", &talk);
}

// the house's own are those of the agent `desk`
#[rattlefmt::skip]
static OF_THE_HOUSE: [(&str, Page); 3] = [
    ("GET /mine",   ("200 OK", "", 61, r#"{"mine":[{"agent":"desk","journey":2,"pos":0,"state":"run"}]}"#)),
    ("GET /mine/1", ("200 OK", "", 61, r#"{"mine":[{"agent":"desk","journey":2,"pos":0,"state":"run"}]}"#)),
    ("GET /mine/2", NONE),
];

#[test]
fn the_houses_own_journeys_are_those_of_desk(rt: HostRuntime) {
    let alloc = rt.alloc();
    let mut talk = Talk::new(alloc);
    begin(&rt, alloc, &mut talk, "ann", "k1", &[BUS], JOURNEY_1);
    begin(&rt, alloc, &mut talk, "desk", "k1", &[BUS], JOURNEY_2);
    go_on_unnamed(&rt, alloc, &mut talk, &OF_THE_HOUSE);
    is_answered_at(&rt, alloc, Door::House, &talk, 0);
}

/// Sends the requests for so many journeys, and expects their pages.
fn begin_many(rt: &impl Abort, alloc: Global, talk: &mut Talk, count: u32) {
    for id in 1..count.saturating_add(1) {
        let key = id.to_string(alloc).expect(rt, "memory");
        let body = format!(in alloc; "{{\"journey\":{id}}}").expect(rt, "memory");
        let length = body.len().to_string(alloc).expect(rt, "memory");
        ask_for(rt, alloc, talk, "ann", &key, &[BUS]);
        talk.tell(rt, &[JSON, &length, TYPE, &body]);
    }
}

const JSON: &str = "HTTP/1.1 200 OK\r\nContent-Length: ";

const TYPE: &str = "\r\nContent-Type: application/json\r\n\r\n";

/// Expects the page with the own journeys of these numbers.
fn shows(rt: &impl Abort, alloc: Global, talk: &mut Talk, from: u32, to: u32) {
    let mut body = String::from_str(alloc, "{\"mine\":[").expect(rt, "memory");
    for id in from..to.saturating_add(1) {
        let comma = if id == from { "" } else { "," };
        let one = format!(in alloc; "{comma}{{\"journey\":{id},\"pos\":0,\"state\":\"run\"}}");
        body.push_str(&one.expect(rt, "memory"))
            .expect(rt, "memory");
    }
    body.push_str("]}").expect(rt, "memory");
    let length = body.len().to_string(alloc).expect(rt, "memory");
    talk.tell(rt, &[JSON, &length, TYPE, &body]);
}

#[test]
fn a_page_has_a_hundred_own_journeys_at_most(rt: HostRuntime) {
    let alloc = rt.alloc();
    let mut talk = Talk::new(alloc);
    begin_many(&rt, alloc, &mut talk, 102);
    for (asked, from, to) in [
        ("GET /mine", 1, 100),
        ("GET /mine/1", 2, 101),
        ("GET /mine/100", 101, 102),
    ] {
        talk.ask(&rt, alloc, asked, "ann", "", b"");
        shows(&rt, alloc, &mut talk, from, to);
    }
    is_answered_at(&rt, alloc, Door::Port, &talk, 0);
}

const NOTHING: Page = (
    "200 OK",
    "",
    40,
    r#"{"events":0,"journeys":0,"unfinished":0}"#,
);

const SOME: Page = (
    "200 OK",
    "",
    40,
    r#"{"events":5,"journeys":3,"unfinished":2}"#,
);

// an agent asks, one whose name is malformed, and nobody
#[rattlefmt::skip]
static BY_ANYBODY: [Asked; 3] = [
    ("GET /health",  "ann", "", "", SOME),
    ("GET /health",  "Ann", "", "", SOME),
    ("POST /health", "Ann", "", "", ONLY_GET),
];

/// A new desk has nothing. After a load, three begins and a step, one of the journeys has ended.
fn healthy(rt: &impl Abort, alloc: Global, door: Door) {
    let mut talk = Talk::new(alloc);
    go_on_unnamed(rt, alloc, &mut talk, &[("GET /health", NOTHING)]);
    is_answered_at(rt, alloc, door, &talk, 0);
    let mut talk = three_begun(rt, alloc);
    talk.go_on(rt, alloc, OWN.get(..1).expect(rt, "a row"));
    talk.go_on(rt, alloc, &BY_ANYBODY);
    go_on_unnamed(
        rt,
        alloc,
        &mut talk,
        &[("GET /health", SOME), ("GET /health/", UNKNOWN_PATH)],
    );
    is_answered_at(rt, alloc, door, &talk, 0);
}

#[test]
fn anybody_sees_how_much_the_desk_has(rt: HostRuntime) {
    for door in [Door::Port, Door::House] {
        healthy(&rt, rt.alloc(), door);
    }
}
