//! Journeys by the keys under which they were begun, in each phase, to their agents and to the house.
use crate::tests::doors::{ONLY_GET, go_on_unnamed, is_answered_at};
use crate::tests::orders::{
    BAD_BODY, BUS, FLIGHT, JOURNEY_1, JOURNEY_2, NO_AGENT, NO_JOURNEY, UNKNOWN_PATH, begin, load,
};
use crate::tests::talks::{Asked, Page, Talk, is_answered};
use desk_http::Door;
use std::alloc::Global;
use std::process::Abort;

const UNDONE: Page = (
    "200 OK",
    "",
    38,
    r#"{"journey":1,"pos":0,"state":"undone"}"#,
);

// ann began journey 1 under k1, a flight and a bus that is not allotted, and bob journey 2, a flight, under the same key
#[rattlefmt::skip]
static IN_EACH_PHASE: [Asked; 9] = [
    ("GET /journeys/by-key/k1", "ann",  "",   "", ("200 OK", "", 35, r#"{"journey":1,"pos":0,"state":"run"}"#)),
    ("GET /journeys/by-key/k1", "bob",  "",   "", ("200 OK", "", 35, r#"{"journey":2,"pos":0,"state":"run"}"#)),
    ("POST /journeys/1/step",   "ann",  "k2", "", ("200 OK", "", 49, r#"{"item":"T1.1","journey":1,"pos":1,"state":"run"}"#)),
    ("POST /journeys/1/step",   "ann",  "k3", "", ("200 OK", "", 60, r#"{"item":"B0r","journey":1,"pos":1,"state":"back","target":0}"#)),
    ("GET /journeys/by-key/k1", "ann",  "",   "", ("200 OK", "", 47, r#"{"journey":1,"pos":1,"state":"back","target":0}"#)),
    ("POST /journeys/1/step",   "ann",  "k4", "", ("200 OK", "", 52, r#"{"item":"C1.1","journey":1,"pos":0,"state":"undone"}"#)),
    ("GET /journeys/by-key/k1", "ann",  "",   "", UNDONE),
    ("POST /journeys/2/step",   "bob",  "k2", "", ("200 OK", "", 51, r#"{"item":"T1.1","journey":2,"pos":1,"state":"ended"}"#)),
    ("GET /journeys/by-key/k1", "bob",  "",   "", ("200 OK", "", 37, r#"{"journey":2,"pos":1,"state":"ended"}"#)),
];

// another agent, another key, the keys of a load, of a step, of what was refused; nobody, no key, other methods and paths
#[rattlefmt::skip]
static NOT_FOUND: [Asked; 13] = [
    ("GET /journeys/by-key/k1",  "eve",  "",   "", NO_JOURNEY),
    ("GET /journeys/by-key/K1",  "ann",  "",   "", NO_JOURNEY),
    ("GET /journeys/by-key/b1",  "ann",  "",   "", NO_JOURNEY),
    ("GET /journeys/by-key/k2",  "ann",  "",   "", NO_JOURNEY),
    ("POST /journeys/1/step",    "ann",  "k5", "", ("409 Conflict", "", 32, r#"{"name":"Finished","refused":10}"#)),
    ("GET /journeys/by-key/k5",  "ann",  "",   "", NO_JOURNEY),
    ("POST /journeys",           "ann",  "k6", r#"{"steps":[]}"#, ("400 Bad Request", "", 55, r#"{"cause":"shape","name":"BadPlan","refused":5,"step":0}"#)),
    ("GET /journeys/by-key/k6",  "ann",  "",   "", NO_JOURNEY),
    ("GET /journeys/by-key/k1",  "",     "",   "", NO_AGENT),
    ("GET /journeys/by-key/a_b", "ann",  "",   "", BAD_BODY),
    ("GET /journeys/by-key",     "ann",  "",   "", BAD_BODY),
    ("POST /journeys/by-key/k1", "ann",  "k7", "", ONLY_GET),
    ("GET /journeys/by-key/",    "ann",  "",   "", UNKNOWN_PATH),
];

/// A talk in which these journeys are begun, after a load under b1.
fn two_begun(rt: &impl Abort, alloc: Global) -> Talk {
    let mut talk = Talk::new(alloc);
    load(rt, alloc, &mut talk, "b1");
    let both = [FLIGHT, BUS];
    begin(rt, alloc, &mut talk, "ann", "k1", &both, JOURNEY_1);
    begin(rt, alloc, &mut talk, "bob", "k1", &[FLIGHT], JOURNEY_2);
    talk
}

#[test]
fn a_journey_is_found_by_the_key_of_its_begin(rt: HostRuntime) {
    let mut talk = two_begun(&rt, rt.alloc());
    talk.go_on(&rt, rt.alloc(), &IN_EACH_PHASE);
    talk.go_on(&rt, rt.alloc(), &NOT_FOUND);
    is_answered(&rt, rt.alloc(), "by key", &talk);
}

const OF_DESK: Page = (
    "200 OK",
    "",
    50,
    r#"{"agent":"desk","journey":3,"pos":0,"state":"run"}"#,
);

// the house's own are those of the agent `desk`; what it begins itself has no key
#[rattlefmt::skip]
static OF_THE_HOUSE: [(&str, Page); 3] = [
    ("GET /journeys/by-key/k8",  OF_DESK),
    ("GET /journeys/by-key/k1",  NO_JOURNEY),
    ("GET /journeys/by-key/a_b", BAD_BODY),
];

#[test]
fn the_house_finds_the_journeys_of_desk(rt: HostRuntime) {
    let alloc = rt.alloc();
    let mut talk = two_begun(&rt, alloc);
    let journey_3 = ("200 OK", "", 13, r#"{"journey":3}"#);
    begin(&rt, alloc, &mut talk, "desk", "k8", &[BUS], journey_3);
    go_on_unnamed(&rt, alloc, &mut talk, &OF_THE_HOUSE);
    talk.go_on(&rt, alloc, &IN_EACH_PHASE);
    talk.go_on(&rt, alloc, &NOT_FOUND);
    is_answered_at(&rt, alloc, Door::House, &talk, 0);
}
