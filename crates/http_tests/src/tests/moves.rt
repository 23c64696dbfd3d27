//! Journeys that agents sell over a connection: the answer to each request, and the views between them.
use crate::tests::desks::new_desk;
use crate::tests::orders::{
    BUS, FLIGHT, GET, JOURNEY_1, NO_JOURNEY, NO_KEY, NOTHING_UNFINISHED, ROOM_FOR_TWO, Step, begin,
    begun,
};
use crate::tests::talks::{Asked, Page, Talk, goes_on, is_answered, is_answered_when_cut};
use std::alloc::Global;
use std::process::Abort;
use std::slice;

// the request, its agent, key and body, and its page
#[rattlefmt::skip]
static TURNED: [Asked; 6] = [
    ("POST /journeys/1/step",    "ann", "k3", "", ("200 OK", "", 49, r#"{"item":"T1.1","journey":1,"pos":1,"state":"run"}"#)),
    ("POST /journeys/1/abort/0", "ann", "k4", "", ("200 OK", "", 60, r#"{"item":"B0a","journey":1,"pos":1,"state":"back","target":0}"#)),
    ("GET /journeys/1",          "ann", "",   "", ("200 OK", "", 72, r#"{"history":["T1.1","B0a"],"journey":1,"pos":1,"state":"back","target":0}"#)),
    ("GET /unfinished",          "ann", "",   "", ("200 OK", "", 64, r#"{"unfinished":[{"journey":1,"pos":1,"state":"back","target":0}]}"#)),
    ("DELETE /unfinished",       "ann", "",   "", ("405 Method Not Allowed", "Allow: GET\r\n", 34, r#"{"name":"WrongMethod","refused":8}"#)),
    ("POST /journeys/1/step",    "ann", "",   "", NO_KEY),
];

const BAD_NIGHT: Page = (
    "400 Bad Request",
    "",
    55,
    r#"{"cause":"night","name":"BadPlan","refused":5,"step":1}"#,
);

/// A journey of two steps makes one and goes back.
fn turned(rt: &impl Abort, alloc: Global) -> Talk {
    let mut talk = begun(rt, alloc, "k1", &[FLIGHT, BUS]);
    talk.go_on(rt, alloc, &TURNED);
    let no_such_night = ("flight", "AL", "A1", "2030-02-29", "false");
    begin(
        rt,
        alloc,
        &mut talk,
        "ann",
        "k5",
        &[no_such_night],
        BAD_NIGHT,
    );
    talk
}

#[test]
fn a_journey_goes_on_and_back(rt: HostRuntime) {
    let talk = turned(&rt, rt.alloc());
    is_answered(&rt, rt.alloc(), "turned", &talk);
}

#[test]
fn a_cut_connection_gets_the_pages_of_what_was_whole(rt: HostRuntime) {
    let talk = turned(&rt, rt.alloc());
    is_answered_when_cut(&rt, rt.alloc(), "turned", &talk);
}

/// A new desk reports twice that no journey is unfinished.
fn twice(rt: &impl Abort, alloc: Global) -> Talk {
    let mut talk = Talk::new(alloc);
    for _ in 0..2u8 {
        talk.send(rt, GET);
        talk.page(rt, alloc, NOTHING_UNFINISHED);
    }
    talk
}

#[test]
fn two_requests_get_two_pages(rt: HostRuntime) {
    let talk = twice(&rt, rt.alloc());
    is_answered(&rt, rt.alloc(), "twice", &talk);
}

#[test]
fn a_request_that_is_cut_gets_no_page(rt: HostRuntime) {
    let talk = twice(&rt, rt.alloc());
    is_answered_when_cut(&rt, rt.alloc(), "twice", &talk);
}

const SIX_FLIGHTS: &str = "kind,supplier,product,night,places\n\
    flight,AL,A1,2030-06-01,10\nflight,AL,A2,2030-06-01,10\nflight,AL,A3,2030-06-01,10\n\
    flight,AL,A4,2030-06-01,10\nflight,AL,A5,2030-06-01,10\nflight,AL,A6,2030-06-01,10\n";

const SIX_LOADED: Page = ("200 OK", "", 23, r#"{"batch":"b1","rows":6}"#);

#[rattlefmt::skip]
static SIX_STEPS: [Step; 6] = [
    ("flight", "AL", "A1", "2030-06-01", "false"),
    ("flight", "AL", "A2", "2030-06-01", "true"),
    ("flight", "AL", "A3", "2030-06-01", "false"),
    ("flight", "AL", "A4", "2030-06-01", "true"),
    ("flight", "AL", "A5", "2030-06-01", "false"),
    ("flight", "AL", "A6", "2030-06-01", "false"),
];

#[rattlefmt::skip]
static AT_TWO: [Asked; 6] = [
    ("POST /journeys/1/step",    "ann", "k3", "", ("200 OK", "", 49, r#"{"item":"T1.1","journey":1,"pos":1,"state":"run"}"#)),
    ("POST /journeys/1/step",    "ann", "k4", "", ("200 OK", "", 49, r#"{"item":"T2.1","journey":1,"pos":2,"state":"run"}"#)),
    ("POST /journeys/1/abort/1", "ann", "k5", "", ("409 Conflict", "", 35, r#"{"name":"NoSavePoint","refused":11}"#)),
    ("GET /journeys/1",          "ann", "",   "", ("200 OK", "", 61, r#"{"history":["T1.1","T2.1"],"journey":1,"pos":2,"state":"run"}"#)),
    ("POST /journeys/1/abort/2", "ann", "k6", "", ("200 OK", "", 48, r#"{"item":"B2a","journey":1,"pos":2,"state":"run"}"#)),
    ("POST /journeys/1/step",    "ann", "k7", "", ("200 OK", "", 49, r#"{"item":"T3.1","journey":1,"pos":3,"state":"run"}"#)),
];

/// A journey is turned to a save-point at its position, and goes on.
fn at_two(rt: &impl Abort, alloc: Global) -> Talk {
    let mut talk = Talk::new(alloc);
    let loaded = ("POST /batches/b1", "ann", "k1", SIX_FLIGHTS, SIX_LOADED);
    talk.go_on(rt, alloc, &[loaded]);
    begin(rt, alloc, &mut talk, "ann", "k2", &SIX_STEPS, JOURNEY_1);
    talk.go_on(rt, alloc, &AT_TWO);
    talk
}

#[test]
fn a_turn_asks_for_a_save_point(rt: HostRuntime) {
    let talk = at_two(&rt, rt.alloc());
    is_answered(&rt, rt.alloc(), "at two", &talk);
}

#[test]
fn a_turn_that_is_cut_is_not_made(rt: HostRuntime) {
    let talk = at_two(&rt, rt.alloc());
    is_answered_when_cut(&rt, rt.alloc(), "at two", &talk);
}

#[rattlefmt::skip]
static OF_ANN: [Asked; 9] = [
    ("POST /journeys/1/step",    "bob", "k1", "", NO_JOURNEY),
    ("POST /journeys/1/abort/0", "bob", "k1", "", NO_JOURNEY),
    ("POST /journeys/1/save",    "bob", "k1", "", NO_JOURNEY),
    ("GET /journeys/1",          "bob", "",   "", NO_JOURNEY),
    ("GET /unfinished",          "bob", "",   "", NOTHING_UNFINISHED),
    ("GET /journeys/1",          "ann", "",   "", ("200 OK", "", 48, r#"{"history":[],"journey":1,"pos":0,"state":"run"}"#)),
    ("POST /journeys/1/step",    "ann", "k3", "", ("200 OK", "", 51, r#"{"item":"T1.1","journey":1,"pos":1,"state":"ended"}"#)),
    ("POST /journeys/1/abort/0", "ann", "k4", "", ("409 Conflict", "", 32, r#"{"name":"Finished","refused":10}"#)),
    ("GET /unfinished",          "ann", "",   "", NOTHING_UNFINISHED),
];

/// An agent requests another agent's journey, and then the other agent requests it.
fn of_ann(rt: &impl Abort, alloc: Global) -> Talk {
    let mut talk = begun(rt, alloc, "k1", &[FLIGHT]);
    talk.go_on(rt, alloc, &OF_ANN);
    talk
}

#[test]
fn another_agents_journey_is_absent(rt: HostRuntime) {
    let talk = of_ann(&rt, rt.alloc());
    is_answered(&rt, rt.alloc(), "of ann", &talk);
}

#[test]
fn another_agents_request_that_is_cut_gets_no_page(rt: HostRuntime) {
    let talk = of_ann(&rt, rt.alloc());
    is_answered_when_cut(&rt, rt.alloc(), "of ann", &talk);
}

const NO_SAVE: Page = ("409 Conflict", "", 30, r#"{"name":"NoSave","refused":28}"#);

#[rattlefmt::skip]
static SAVED: [Asked; 4] = [
    ("POST /journeys/1/save", "ann", "k3", "", NO_SAVE),
    ("POST /journeys/1/step", "ann", "k4", "", ("200 OK", "", 49, r#"{"item":"T1.1","journey":1,"pos":1,"state":"run"}"#)),
    ("POST /journeys/1/save", "ann", "k5", "", ("200 OK", "", 47, r#"{"item":"S1","journey":1,"pos":1,"state":"run"}"#)),
    ("POST /journeys/1/save", "ann", "k6", "", NO_SAVE),
];

/// A save-point is taken, and requested once more under another key.
fn saved(rt: &impl Abort, alloc: Global) -> Talk {
    let mut talk = begun(rt, alloc, "k1", &[FLIGHT, BUS, ROOM_FOR_TWO]);
    talk.go_on(rt, alloc, &SAVED);
    talk
}

#[test]
fn a_save_point_is_taken_once(rt: HostRuntime) {
    let talk = saved(&rt, rt.alloc());
    is_answered(&rt, rt.alloc(), "saved", &talk);
}

#[test]
fn a_save_point_that_is_cut_is_not_taken(rt: HostRuntime) {
    let talk = saved(&rt, rt.alloc());
    is_answered_when_cut(&rt, rt.alloc(), "saved", &talk);
}

const NO_STOCK: &str = "HTTP/1.1 200 OK\r\nContent-Length: 67\r\nContent-Type: text/plain\r\n\r\n\
    kind     supplier product  night       allot   held   free\ncells 0\n";

const ONE_SEAT: &str = "HTTP/1.1 200 OK\r\nContent-Length: 126\r\nContent-Type: text/plain\r\n\r\n\
    kind     supplier product  night       allot   held   free\n\
    flight   AL       A1       2030-06-01     10      1      9\ncells 1\n";

#[rattlefmt::skip]
static ONE_TAKEN: [Asked; 1] = [
    ("POST /journeys/1/step", "ann", "k3", "", ("200 OK", "", 51, r#"{"item":"T1.1","journey":1,"pos":1,"state":"ended"}"#)),
];

const TEN_SEATS: &str = "kind,supplier,product,night,places\nflight,AL,A1,2030-06-01,10\n";

const SEATS_LOADED: Page = ("200 OK", "", 23, r#"{"batch":"b1","rows":1}"#);

#[test]
fn the_stock_is_shown_as_text(rt: HostRuntime) {
    let alloc = rt.alloc();
    let mut talk = Talk::new(alloc);
    talk.ask(&rt, alloc, "GET /stock", "ann", "", b"");
    talk.tell(&rt, &[NO_STOCK]);
    let loaded = ("POST /batches/b1", "ann", "k1", TEN_SEATS, SEATS_LOADED);
    talk.go_on(&rt, alloc, &[loaded]);
    begin(&rt, alloc, &mut talk, "ann", "k2", &[FLIGHT], JOURNEY_1);
    talk.go_on(&rt, alloc, &ONE_TAKEN);
    talk.ask(&rt, alloc, "GET /stock", "bob", "", b"");
    talk.tell(&rt, &[ONE_SEAT]);
    is_answered(&rt, alloc, "stock", &talk);
}

/// Each request comes over its own connection.
#[test]
fn a_desk_serves_one_connection_after_another(rt: HostRuntime) {
    let alloc = rt.alloc();
    let mut desk = new_desk(&rt, alloc);
    let talk = begun(&rt, alloc, "k1", &[FLIGHT, BUS]);
    goes_on(&rt, alloc, "begun", &talk, &mut desk);
    for row in &TURNED {
        let mut talk = Talk::new(alloc);
        talk.go_on(&rt, alloc, slice::from_ref(row));
        goes_on(&rt, alloc, row.0, &talk, &mut desk);
    }
}
