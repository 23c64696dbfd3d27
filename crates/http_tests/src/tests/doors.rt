//! The same requests at both doors: at the house's, those that name no agent are the house's.
use crate::tests::desks::{new_desk, reads};
use crate::tests::orders::{
    BAD_BODY, BUS, FLIGHT, JOURNEY_1, JOURNEY_2, KEY_REUSED, LOADED, NO_AGENT, NO_JOURNEY, NO_KEY,
    SEATS_AND_ROOMS, UNKNOWN_PATH, begin, plan_of,
};
use crate::tests::talks::{Asked, Page, Talk, put};
use desk_http::{Door, answer_to};
use http_log::Metrics;
use http_messages::first_message;
use http_pages::Paths;
use std::alloc::Global;
use std::process::Abort;

/// Sends a request that names no agent. A POST gives the length of its body.
fn ask_unnamed(rt: &impl Abort, alloc: Global, talk: &mut Talk, asked: &str, body: &[u8]) {
    put(rt, &mut talk.sent, &[asked, " HTTP/1.1\r\nHost: d\r\n"]);
    if asked.starts_with("POST") {
        let length = body.len().to_string(alloc).expect(rt, "memory");
        put(rt, &mut talk.sent, &["Content-Length: ", &length, "\r\n"]);
    }
    put(rt, &mut talk.sent, &["\r\n"]);
    talk.send(rt, body);
}

/// Sends requests that name no agent and have no body, and expects their pages.
pub fn go_on_unnamed(
    rt: &impl Abort,
    alloc: Global,
    talk: &mut Talk,
    rows: &[(&'static str, Page)],
) {
    for &(asked, page) in rows {
        ask_unnamed(rt, alloc, talk, asked, b"");
        talk.page(rt, alloc, page);
    }
}

/// Sends a talk to a new desk at this door, and checks its answers and how many of them stop the desk. Nothing behind a
/// closing page is answered.
pub fn is_answered_at(rt: &impl Abort, alloc: Global, door: Door, talk: &Talk, stops: usize) {
    let mut desk = new_desk(rt, alloc);
    let paths = Paths::new(alloc).expect(rt, "memory");
    let mut left = talk.sent.as_slice();
    let mut told = Vec::new(alloc);
    let mut stopped = 0usize;
    for _ in 0..talk.sent.len() {
        let Some((message, count)) = first_message(alloc, left).expect(rt, "memory") else {
            break;
        };
        left = left.get(count..).unwrap_or(b"");
        let answer = answer_to(alloc, &paths, door, &message, &Metrics::new(), &mut desk);
        let answer = answer.expect(rt, "memory");
        told.extend_from_slice(&answer.bytes).expect(rt, "memory");
        if answer.stops {
            stopped = stopped.saturating_add(1);
        }
        if answer.closes {
            break;
        }
    }
    reads(rt, "at a door", &told, &talk.told);
    assert!(rt; stopped == stops, "{stopped} pages stop the desk");
}

const STOPPING: Page = ("200 OK", "", 20, r#"{"state":"stopping"}"#);

pub const ONLY_GET: Page = (
    "405 Method Not Allowed",
    "Allow: GET\r\n",
    34,
    r#"{"name":"WrongMethod","refused":8}"#,
);

// the plan of journey 1
const PLAN: Page = (
    "200 OK",
    "",
    259,
    r#"{"steps":[{"options":[{"count":1,"first":"2030-06-01","kind":"flight","nights":1,"product":"A1","supplier":"AL"}],"save":false},{"options":[{"count":1,"first":"2030-06-01","kind":"transfer","nights":1,"product":"X","supplier":"BUS"}],"save":false}],"tries":0}"#,
);

// what the house asks at its own door, after ann began journey 1 and the house journey 2
#[rattlefmt::skip]
static OF_THE_HOUSE: [(&str, Page); 19] = [
    ("GET /unfinished",         ("200 OK", "", 117, r#"{"unfinished":[{"agent":"ann","journey":1,"pos":0,"state":"run"},{"agent":"desk","journey":2,"pos":0,"state":"run"}]}"#)),
    ("POST /journeys/1/step",   ("200 OK", "", 49,  r#"{"item":"T1.1","journey":1,"pos":1,"state":"run"}"#)),
    ("POST /journeys/1/save",   ("200 OK", "", 47,  r#"{"item":"S1","journey":1,"pos":1,"state":"run"}"#)),
    ("GET /journeys/1",         ("200 OK", "", 59,  r#"{"history":["T1.1","S1"],"journey":1,"pos":1,"state":"run"}"#)),
    ("GET /journeys/1/plan",    PLAN),
    ("GET /journeys/3",         NO_JOURNEY),
    ("POST /journeys/x/step",   BAD_BODY),
    ("POST /unfinished",        ONLY_GET),
    ("GET /nowhere",            UNKNOWN_PATH),
    ("GET /stop",               UNKNOWN_PATH),
    ("POST /metrics",           UNKNOWN_PATH),
    ("GET /metrics/",           UNKNOWN_PATH),
    ("POST /reports/stock",     ONLY_GET),
    ("GET /reports/nowhere",    BAD_BODY),
    ("GET /reports/",           BAD_BODY),
    ("GET /reports/history",    BAD_BODY),
    ("GET /reports/history?x",  BAD_BODY),
    ("GET /reports/stock?a?b",  BAD_BODY),
    ("GET /reports",            UNKNOWN_PATH),
];

// what agents ask there: as at the port
#[rattlefmt::skip]
static OF_AGENTS: [Asked; 12] = [
    ("GET /unfinished",         "ann", "",   "", ("200 OK", "", 52, r#"{"unfinished":[{"journey":1,"pos":1,"state":"run"}]}"#)),
    ("GET /unfinished",         "bob", "",   "", ("200 OK", "", 17, r#"{"unfinished":[]}"#)),
    ("GET /journeys/1",         "bob", "",   "", NO_JOURNEY),
    ("GET /journeys/1/plan",    "ann", "",   "", PLAN),
    ("GET /journeys/1/plan",    "bob", "",   "", NO_JOURNEY),
    ("POST /journeys/2/step",   "ann", "k3", "", NO_JOURNEY),
    ("POST /journeys/1/step",   "ann", "",   "", NO_KEY),
    ("POST /journeys/1/step",   "",    "k4", "", NO_AGENT),
    ("POST /journeys/1/save",   "ann", "k1", "", KEY_REUSED),
    ("POST /stop",              "ann", "k5", "", UNKNOWN_PATH),
    ("GET /metrics",            "ann", "",   "", UNKNOWN_PATH),
    ("GET /reports/stock",      "ann", "",   "", UNKNOWN_PATH),
];

#[test]
fn at_its_own_door_the_house_sees_and_moves_every_journey(rt: HostRuntime) {
    let alloc = rt.alloc();
    let mut talk = Talk::new(alloc);
    ask_unnamed(
        &rt,
        alloc,
        &mut talk,
        "POST /batches/b1",
        SEATS_AND_ROOMS.as_bytes(),
    );
    talk.page(&rt, alloc, LOADED);
    begin(
        &rt,
        alloc,
        &mut talk,
        "ann",
        "k1",
        &[FLIGHT, BUS],
        JOURNEY_1,
    );
    let plan = plan_of(&rt, alloc, &[FLIGHT]);
    ask_unnamed(&rt, alloc, &mut talk, "POST /journeys", &plan);
    talk.page(&rt, alloc, JOURNEY_2);
    go_on_unnamed(&rt, alloc, &mut talk, &OF_THE_HOUSE);
    talk.go_on(&rt, alloc, &OF_AGENTS);
    go_on_unnamed(&rt, alloc, &mut talk, &[("POST /stop", STOPPING)]);
    is_answered_at(&rt, alloc, Door::House, &talk, 1);
}

// the same without an agent is refused at the port, where nobody stops the desk
#[rattlefmt::skip]
static AT_THE_PORT: [(&str, Page); 10] = [
    ("GET /unfinished",         NO_AGENT),
    ("GET /stock",              NO_AGENT),
    ("GET /journeys/1",         NO_AGENT),
    ("POST /journeys/1/step",   NO_AGENT),
    ("POST /unfinished",        ONLY_GET),
    ("POST /stop",              UNKNOWN_PATH),
    ("GET /stop",               UNKNOWN_PATH),
    ("GET /metrics",            UNKNOWN_PATH),
    ("GET /reports/stock",      UNKNOWN_PATH),
    ("POST /reports/stock",     UNKNOWN_PATH),
];

#[test]
fn at_the_port_nobody_is_the_house(rt: HostRuntime) {
    let alloc = rt.alloc();
    let mut talk = Talk::new(alloc);
    begin(&rt, alloc, &mut talk, "ann", "k1", &[BUS], JOURNEY_1);
    go_on_unnamed(&rt, alloc, &mut talk, &AT_THE_PORT);
    is_answered_at(&rt, alloc, Door::Port, &talk, 0);
}

#[test]
fn at_its_own_door_a_monitor_reads_what_was_counted(rt: HostRuntime) {
    let alloc = rt.alloc();
    let mut desk = new_desk(&rt, alloc);
    let paths = Paths::new(alloc).expect(&rt, "memory");
    let asked = b"GET /metrics HTTP/1.1\r\nHost: d\r\n\r\n";
    let found = first_message(alloc, asked).expect(&rt, "memory");
    let (message, _) = found.expect(&rt, "a message");
    let mut metrics = Metrics::new();
    metrics.comes();
    let answer = answer_to(alloc, &paths, Door::House, &message, &metrics, &mut desk);
    let page = answer.expect(&rt, "memory").bytes;
    let text = str::from_utf8(&page).expect(&rt, "text");
    assert!(rt;
        text.starts_with("HTTP/1.1 200 OK\r\nContent-Length: "),
        "{text}"
    );
    let (head, body) = text.split_once("\r\n\r\n").expect(&rt, "a body");
    assert!(rt;
        head.ends_with("\r\nContent-Type: text/plain; version=0.0.4"),
        "{head}"
    );
    for line in [
        "desk_events_total 0",
        "desk_journeys_total 0",
        "desk_connections_open 1",
    ] {
        assert!(rt; body.lines().any(|it| it == line), "{line}");
    }
}

// a report at its own door, and whether the book is asked for it; that in memory makes none
#[rattlefmt::skip]
static REPORTS: [(&[u8], bool); 4] = [
    (b"GET /reports/stock HTTP/1.1\r\nHost: d\r\n\r\n",                      true),
    (b"GET /reports/history?1&--format=json HTTP/1.1\r\nHost: d\r\n\r\n",   true),
    (b"GET /reports/history?one HTTP/1.1\r\nHost: d\r\n\r\n",               false),
    (b"GET /reports/stock HTTP/1.1\r\nHost: d\r\nDesk-Agent: ann\r\n\r\n",  false),
];

#[test]
fn at_its_own_door_the_house_asks_the_book_for_reports(rt: HostRuntime) {
    let alloc = rt.alloc();
    let mut desk = new_desk(&rt, alloc);
    let paths = Paths::new(alloc).expect(&rt, "memory");
    for &(asked, is_asked) in &REPORTS {
        let found = first_message(alloc, asked).expect(&rt, "memory");
        let (message, _) = found.expect(&rt, "a message");
        let answer = answer_to(
            alloc,
            &paths,
            Door::House,
            &message,
            &Metrics::new(),
            &mut desk,
        );
        if is_asked {
            assert!(rt; answer.is_err());
        } else {
            let _ = answer.expect(&rt, "memory");
        }
    }
}

// nothing is kept for the house: what it sends again is carried out again
#[rattlefmt::skip]
static SENT_AGAIN: [(&str, Page); 2] = [
    ("POST /journeys", JOURNEY_1),
    ("POST /journeys", JOURNEY_2),
];

#[test]
fn nothing_is_kept_for_the_house(rt: HostRuntime) {
    let alloc = rt.alloc();
    let mut talk = Talk::new(alloc);
    let plan = plan_of(&rt, alloc, &[BUS]);
    for &(asked, page) in &SENT_AGAIN {
        ask_unnamed(&rt, alloc, &mut talk, asked, &plan);
        talk.page(&rt, alloc, page);
    }
    is_answered_at(&rt, alloc, Door::House, &talk, 0);
}
