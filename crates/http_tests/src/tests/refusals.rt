//! Requests with a good head that are refused. Each leaves its key free and changes nothing.
use crate::tests::orders::{
    BAD_BODY, FLIGHT, JOURNEY_1, NO_AGENT, NO_JOURNEY, NO_KEY, NOTHING_UNFINISHED, UNKNOWN_PATH,
    begin,
};
use crate::tests::talks::{Asked, Page, Talk, is_answered, is_answered_when_cut};
use std::alloc::Global;
use std::process::Abort;

const ONLY_GET: Page = (
    "405 Method Not Allowed",
    "Allow: GET\r\n",
    34,
    r#"{"name":"WrongMethod","refused":8}"#,
);

const ONLY_POST: Page = (
    "405 Method Not Allowed",
    "Allow: POST\r\n",
    34,
    r#"{"name":"WrongMethod","refused":8}"#,
);

#[rattlefmt::skip]
static LED_ASTRAY: [Asked; 10] = [
    ("GET /nowhere",               "",    "",   "",  UNKNOWN_PATH),
    ("POST /stock/",               "ann", "k1", "x", UNKNOWN_PATH),
    ("GET /stock?a",               "ann", "",   "",  UNKNOWN_PATH),
    ("GET /\u{e9}",                "ann", "",   "",  UNKNOWN_PATH),
    ("GET /journeys",              "",    "",   "",  ONLY_POST),
    ("DELETE /journeys/x/step",    "ann", "k1", "",  ONLY_POST),
    ("POST /unfinished",           "",    "",   "",  ONLY_GET),
    ("post /stock",                "ann", "k1", "",  ONLY_GET),
    ("POST /journeys",             "",    "",   "",  NO_AGENT),
    ("POST /journeys/x/step",      "ann", "",   "",  NO_KEY),
];

#[rattlefmt::skip]
static BADLY_SAID: [Asked; 10] = [
    ("POST /journeys/01/step",     "ann", "k1", "",  BAD_BODY),
    ("POST /journeys/1/abort/100", "ann", "k1", "",  BAD_BODY),
    ("POST /journeys/\u{e9}/save", "ann", "k1", "",  BAD_BODY),
    ("GET /journeys/x",            "ann", "",   "",  BAD_BODY),
    ("POST /batches/B1",           "ann", "k1", "",  BAD_BODY),
    ("POST /journeys/1/step",      "ann", "k1", "x", BAD_BODY),
    ("POST /journeys/1/abort/0",   "ann", "k1", "x", BAD_BODY),
    ("POST /journeys",             "ann", "k1", "",  BAD_BODY),
    ("POST /journeys/1/step",      "ann", "k1", "",  NO_JOURNEY),
    ("GET /journeys/1",            "ann", "",   "",  NO_JOURNEY),
];

#[rattlefmt::skip]
static BAD_ORDERS: [Asked; 4] = [
    ("POST /journeys",   "ann", "k1", r#"{"steps":[]}"#,            ("400 Bad Request", "", 55, r#"{"cause":"shape","name":"BadPlan","refused":5,"step":0}"#)),
    ("POST /journeys",   "ann", "k1", r#"{"steps":[],"tries":10}"#, ("400 Bad Request", "", 55, r#"{"cause":"tries","name":"BadPlan","refused":5,"step":0}"#)),
    ("POST /journeys",   "ann", "k1", r#"{"steps":[],"tries":0}"#,  ("400 Bad Request", "", 55, r#"{"cause":"steps","name":"BadPlan","refused":5,"step":0}"#)),
    ("POST /batches/b1", "ann", "k1", "",                           ("400 Bad Request", "", 54, r#"{"cause":"header","name":"BadCsv","refused":6,"row":0}"#)),
];

/// A talk in which these requests are refused, and then the key begins the first journey.
fn refused(rt: &impl Abort, alloc: Global, rows: &[Asked]) -> Talk {
    let mut talk = Talk::new(alloc);
    talk.go_on(rt, alloc, rows);
    talk.ask(rt, alloc, "POST /journeys", "ann", "k1", b"\xff");
    talk.page(rt, alloc, BAD_BODY);
    begin(rt, alloc, &mut talk, "ann", "k1", &[FLIGHT], JOURNEY_1);
    talk
}

/// Stops the test if these requests get other answers.
fn are_refused(rt: &impl Abort, alloc: Global, rows: &[Asked]) {
    let talk = refused(rt, alloc, rows);
    is_answered(rt, alloc, "refused", &talk);
}

#[test]
fn path_method_agent_and_key_are_looked_at_in_this_order(rt: HostRuntime) {
    are_refused(&rt, rt.alloc(), &LED_ASTRAY);
}

#[test]
fn parts_of_a_path_and_bodies_have_their_forms(rt: HostRuntime) {
    are_refused(&rt, rt.alloc(), &BADLY_SAID);
}

#[test]
fn a_plan_and_a_batch_are_refused_with_a_cause(rt: HostRuntime) {
    are_refused(&rt, rt.alloc(), &BAD_ORDERS);
}

#[test]
fn a_refused_request_that_is_cut_gets_no_page(rt: HostRuntime) {
    let talk = refused(&rt, rt.alloc(), &BAD_ORDERS);
    is_answered_when_cut(&rt, rt.alloc(), "refused", &talk);
}

// pages for HEAD requests are sent without their bodies
#[rattlefmt::skip]
static HEADS: [Asked; 4] = [
    ("HEAD /unfinished", "ann", "", "", ("405 Method Not Allowed", "Allow: GET\r\n",  34, "")),
    ("HEAD /journeys",   "ann", "", "", ("405 Method Not Allowed", "Allow: POST\r\n", 34, "")),
    ("HEAD /nowhere",    "ann", "", "", ("404 Not Found",          "",                34, "")),
    ("GET /unfinished",  "ann", "", "", NOTHING_UNFINISHED),
];

#[test]
fn a_page_to_head_goes_out_without_its_body(rt: HostRuntime) {
    let mut talk = Talk::new(rt.alloc());
    talk.go_on(&rt, rt.alloc(), &HEADS);
    is_answered(&rt, rt.alloc(), "HEAD", &talk);
}
