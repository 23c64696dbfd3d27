//! Why a journey goes on or does not, in each phase, to its agent and to the house.
use crate::tests::doors::{ONLY_GET, go_on_unnamed, is_answered_at};
use crate::tests::orders::{
    BAD_BODY, FLIGHT, JOURNEY_1, JOURNEY_2, NO_AGENT, NO_JOURNEY, UNKNOWN_PATH, begin, load,
};
use crate::tests::talks::{Asked, Page, Talk, is_answered};
use desk_http::Door;
use std::alloc::Global;
use std::process::Abort;

// a flight, and then a room for two nights, of which the second is not allotted
const PLAN: &str =
    r#"{"steps":[{"options":[{"count":1,"first":"2030-06-01","kind":"flight","nights":1,"product":"A1","supplier":"AL"}],"save":false},{"options":[{"count":1,"first":"2030-06-01","kind":"room","nights":2,"product":"DBL","supplier":"INN"}],"save":false}],"tries":0}"#;

const UNTRIED: Page = (
    "200 OK",
    "",
    153,
    r#"{"agent":"ann","journey":1,"next":"T1.1","nights":[{"free":10,"night":"2030-06-01"}],"pos":0,"state":"run","step":"T1.1","want":"F/AL/A1/2030-06-01/1/1"}"#,
);

const NO_ROOM: Page = (
    "200 OK",
    "",
    176,
    r#"{"agent":"ann","journey":1,"next":"T2.1","nights":[{"free":4,"night":"2030-06-01"},{"night":"2030-06-02"}],"pos":1,"state":"run","step":"B0r","want":"R/INN/DBL/2030-06-01/2/1"}"#,
);

const GOES_BACK: Page = (
    "200 OK",
    "",
    164,
    r#"{"agent":"ann","journey":1,"next":"C1.1","nights":[{"free":9,"night":"2030-06-01"}],"pos":1,"state":"back","step":"C1.1","target":0,"want":"F/AL/A1/2030-06-01/1/1"}"#,
);

const UNDONE: Page = (
    "200 OK",
    "",
    78,
    r#"{"agent":"ann","journey":1,"nights":[],"pos":0,"state":"undone","step":"none"}"#,
);

const ENDED: Page = (
    "200 OK",
    "",
    77,
    r#"{"agent":"bob","journey":2,"nights":[],"pos":1,"state":"ended","step":"none"}"#,
);

// ann began journey 1 by that plan, and bob journey 2, a flight
#[rattlefmt::skip]
static IN_EACH_PHASE: [Asked; 9] = [
    ("GET /journeys/1/why",   "ann", "",   "", UNTRIED),
    ("POST /journeys/1/step", "ann", "k1", "", ("200 OK", "", 49, r#"{"item":"T1.1","journey":1,"pos":1,"state":"run"}"#)),
    ("GET /journeys/1/why",   "ann", "",   "", NO_ROOM),
    ("POST /journeys/1/step", "ann", "k2", "", ("200 OK", "", 60, r#"{"item":"B0r","journey":1,"pos":1,"state":"back","target":0}"#)),
    ("GET /journeys/1/why",   "ann", "",   "", GOES_BACK),
    ("POST /journeys/1/step", "ann", "k3", "", ("200 OK", "", 52, r#"{"item":"C1.1","journey":1,"pos":0,"state":"undone"}"#)),
    ("GET /journeys/1/why",   "ann", "",   "", UNDONE),
    ("POST /journeys/2/step", "bob", "k1", "", ("200 OK", "", 51, r#"{"item":"T1.1","journey":2,"pos":1,"state":"ended"}"#)),
    ("GET /journeys/2/why",   "bob", "",   "", ENDED),
];

// another agent's journey, none, nobody, no number, another method, another path
#[rattlefmt::skip]
static REFUSED: [Asked; 8] = [
    ("GET /journeys/2/why",  "ann", "",   "", NO_JOURNEY),
    ("GET /journeys/1/why",  "bob", "",   "", NO_JOURNEY),
    ("GET /journeys/3/why",  "ann", "",   "", NO_JOURNEY),
    ("GET /journeys/1/why",  "", "",   "", NO_AGENT),
    ("GET /journeys/x/why",  "ann", "",   "", BAD_BODY),
    ("GET /journeys/0/why",  "ann", "",   "", BAD_BODY),
    ("POST /journeys/1/why", "ann", "",   "", ONLY_GET),
    ("GET /journeys/1/why/", "ann", "",   "", UNKNOWN_PATH),
];

/// A talk in which ann begins journey 1 by that plan, and bob journey 2.
fn two_begun(rt: &impl Abort, alloc: Global) -> Talk {
    let mut talk = Talk::new(alloc);
    load(rt, alloc, &mut talk, "b1");
    talk.ask(rt, alloc, "POST /journeys", "ann", "j1", PLAN.as_bytes());
    talk.page(rt, alloc, JOURNEY_1);
    begin(rt, alloc, &mut talk, "bob", "j2", &[FLIGHT], JOURNEY_2);
    talk
}

#[test]
fn an_agent_sees_why_its_journey_goes_on_or_does_not(rt: HostRuntime) {
    let mut talk = two_begun(&rt, rt.alloc());
    talk.go_on(&rt, rt.alloc(), &IN_EACH_PHASE);
    talk.go_on(&rt, rt.alloc(), &REFUSED);
    is_answered(&rt, rt.alloc(), "why", &talk);
}

// the house sees that of every journey
#[rattlefmt::skip]
static OF_THE_HOUSE: [(&str, Page); 4] = [
    ("GET /journeys/1/why", UNDONE),
    ("GET /journeys/2/why", ENDED),
    ("GET /journeys/3/why", NO_JOURNEY),
    ("GET /journeys/x/why", BAD_BODY),
];

#[test]
fn the_house_sees_why_of_every_journey(rt: HostRuntime) {
    let alloc = rt.alloc();
    let mut talk = two_begun(&rt, alloc);
    talk.go_on(&rt, alloc, &IN_EACH_PHASE);
    go_on_unnamed(&rt, alloc, &mut talk, &OF_THE_HOUSE);
    talk.go_on(&rt, alloc, &REFUSED);
    is_answered_at(&rt, alloc, Door::House, &talk, 0);
}
