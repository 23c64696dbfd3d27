//! Keys: requests that are retried under one, by whom, and what leaves a key free.
use crate::tests::desks::{has_journeys, holds, new_desk, recovered};
use crate::tests::orders::{
    BUS, FLIGHT, JOURNEY_1, JOURNEY_2, KEY_REUSED, LOADED, NO_JOURNEY, SEATS_AND_ROOMS, Step,
    begin, begun, load,
};
use crate::tests::talks::{ALL, Asked, Page, Talk, goes_on, is_answered};
use desk_http::ServeFault;
use failing_streams::{Pieces, Sink};
use http_conversations::serve;
use memory_book::MemBook;
use recovery::Ready;
use std::alloc::Global;
use std::process::Abort;

#[rattlefmt::skip]
static OF_BOTH: [Asked; 2] = [
    ("GET /unfinished", "ann", "", "", ("200 OK", "", 52, r#"{"unfinished":[{"journey":1,"pos":0,"state":"run"}]}"#)),
    ("GET /unfinished", "bob", "", "", ("200 OK", "", 52, r#"{"unfinished":[{"journey":2,"pos":0,"state":"run"}]}"#)),
];

// an agent, who uses one key, the steps of the plan, and the page
#[rattlefmt::skip]
static AGAIN: [(&str, &[Step], Page); 5] = [
    ("ann", &[FLIGHT],      JOURNEY_1),
    ("ann", &[FLIGHT],      JOURNEY_1),
    ("ann", &[FLIGHT, BUS], KEY_REUSED),
    ("bob", &[FLIGHT],      JOURNEY_2),
    ("ann", &[FLIGHT],      JOURNEY_1),
];

#[test]
fn a_request_that_is_sent_again_acts_once(rt: HostRuntime) {
    let mut talk = Talk::new(rt.alloc());
    for &(agent, steps, page) in &AGAIN {
        begin(&rt, rt.alloc(), &mut talk, agent, "k1", steps, page);
    }
    talk.go_on(&rt, rt.alloc(), &OF_BOTH);
    is_answered(&rt, rt.alloc(), "again", &talk);
}

const ELEVEN: &str =
    "kind,supplier,product,night,places\nflight,AL,A1,2030-06-01,11\nroom,INN,DBL,2030-06-01,4\n";

const NO_SEAT: &str =
    "kind,supplier,product,night,places\nroom,INN,DBL,2030-06-01,9\nflight,AL,A1,2030-06-01,0\n";

#[rattlefmt::skip]
static FREE_KEYS: [Asked; 5] = [
    ("POST /batches/b1",      "ann", "k2", SEATS_AND_ROOMS, LOADED),
    ("POST /batches/b1",      "ann", "k2", ELEVEN,          ("409 Conflict", "", 36, r#"{"name":"BatchDiffers","refused":13}"#)),
    ("POST /journeys/1/step", "ann", "k2", "",              NO_JOURNEY),
    ("POST /batches/b1",      "ann", "k1", SEATS_AND_ROOMS, LOADED),
    ("POST /batches/b1",      "ann", "k1", ELEVEN,          KEY_REUSED),
];

#[rattlefmt::skip]
static BELOW: [Asked; 3] = [
    ("POST /journeys/1/step", "ann", "k3", "",      ("200 OK", "", 51, r#"{"item":"T1.1","journey":1,"pos":1,"state":"ended"}"#)),
    ("POST /batches/b2",      "ann", "k4", NO_SEAT, ("409 Conflict", "", 41, r#"{"name":"BelowHeld","refused":12,"row":2}"#)),
    ("POST /journeys/1/step", "ann", "k4", "",      ("409 Conflict", "", 32, r#"{"name":"Finished","refused":10}"#)),
];

#[test]
fn a_refusal_and_a_known_batch_leave_the_key_free(rt: HostRuntime) {
    let alloc = rt.alloc();
    let mut talk = Talk::new(alloc);
    load(&rt, alloc, &mut talk, "k1");
    talk.go_on(&rt, alloc, &FREE_KEYS);
    begin(&rt, alloc, &mut talk, "ann", "k2", &[FLIGHT], JOURNEY_1);
    talk.go_on(&rt, alloc, &BELOW);
    is_answered(&rt, alloc, "free keys", &talk);
}

#[rattlefmt::skip]
static STEPPED: [Asked; 1] = [
    ("POST /journeys/1/step", "ann", "k1", "", ("200 OK", "", 51, r#"{"item":"T1.1","journey":1,"pos":1,"state":"ended"}"#)),
];

#[rattlefmt::skip]
static STEPPED_ONCE: [Asked; 3] = [
    ("POST /journeys/1/step",    "ann", "k1", "", ("200 OK", "", 51, r#"{"item":"T1.1","journey":1,"pos":1,"state":"ended"}"#)),
    ("POST /journeys/1/abort/0", "ann", "k1", "", KEY_REUSED),
    ("GET /journeys/1",          "ann", "",   "", ("200 OK", "", 56, r#"{"history":["T1.1"],"journey":1,"pos":1,"state":"ended"}"#)),
];

/// A desk on which a journey was begun and made a step, whose page could not be written.
fn page_is_lost(rt: &impl Abort, alloc: Global) -> Ready<MemBook> {
    let mut desk = new_desk(rt, alloc);
    goes_on(
        rt,
        alloc,
        "begun",
        &begun(rt, alloc, "k8", &[FLIGHT]),
        &mut desk,
    );
    let mut talk = Talk::new(alloc);
    talk.go_on(rt, alloc, &STEPPED);
    let mut sink = Sink::new(alloc, ALL, 0).expect(rt, "memory");
    let ended = serve(
        alloc,
        &mut Pieces::of(&talk.sent, ALL),
        &mut sink,
        &mut desk,
    );
    assert!(rt; ended == Err(ServeFault::Write), "{ended:?}");
    holds(rt, "nothing is written", sink.taken().is_empty());
    desk
}

/// A page that could not be written is sent when the agent retries, also after a recovery.
#[test]
fn a_lost_page_is_given_again(rt: HostRuntime) {
    let lost = page_is_lost(&rt, rt.alloc());
    let mut desk = recovered(&rt, lost.into_inner());
    let mut talk = Talk::new(rt.alloc());
    talk.go_on(&rt, rt.alloc(), &STEPPED_ONCE);
    goes_on(&rt, rt.alloc(), "again", &talk, &mut desk);
    has_journeys(&rt, "one journey", &mut desk, 1);
}
