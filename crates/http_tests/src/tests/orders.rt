//! Requests of agents and their pages, for tests in tables.
use crate::tests::talks::{Page, Talk, put};
use std::alloc::Global;
use std::process::Abort;

/// A step of one option, on one night for one: kind, supplier, product, night, and whether it is marked.
pub type Step = (
    &'static str,
    &'static str,
    &'static str,
    &'static str,
    &'static str,
);

pub const FLIGHT: Step = ("flight", "AL", "A1", "2030-06-01", "false");

pub const BUS: Step = ("transfer", "BUS", "X", "2030-06-01", "false");

pub const ROOM_FOR_TWO: Step = ("room", "INN", "DBL", "2030-06-01", "false");

/// Ten seats and four rooms.
pub const SEATS_AND_ROOMS: &str =
    "kind,supplier,product,night,places\nflight,AL,A1,2030-06-01,10\nroom,INN,DBL,2030-06-01,4\n";

pub const LOADED: Page = ("200 OK", "", 23, r#"{"batch":"b1","rows":2}"#);

pub const JOURNEY_1: Page = ("200 OK", "", 13, r#"{"journey":1}"#);

pub const JOURNEY_2: Page = ("200 OK", "", 13, r#"{"journey":2}"#);

pub const NOTHING_UNFINISHED: Page = ("200 OK", "", 17, r#"{"unfinished":[]}"#);

pub const BAD_BODY: Page = (
    "400 Bad Request",
    "",
    30,
    r#"{"name":"BadBody","refused":4}"#,
);

pub const NO_AGENT: Page = (
    "400 Bad Request",
    "",
    30,
    r#"{"name":"NoAgent","refused":2}"#,
);

pub const NO_KEY: Page = ("400 Bad Request", "", 28, r#"{"name":"NoKey","refused":3}"#);

pub const UNKNOWN_PATH: Page = (
    "404 Not Found",
    "",
    34,
    r#"{"name":"UnknownPath","refused":7}"#,
);

pub const NO_JOURNEY: Page = (
    "404 Not Found",
    "",
    32,
    r#"{"name":"NoJourney","refused":9}"#,
);

pub const KEY_REUSED: Page = (
    "409 Conflict",
    "",
    33,
    r#"{"name":"KeyReused","refused":14}"#,
);

pub const BAD_HEAD: Page = (
    "400 Bad Request",
    "Connection: close\r\n",
    30,
    r#"{"name":"BadHead","refused":1}"#,
);

pub const TOO_LARGE: Page = (
    "413 Content Too Large",
    "Connection: close\r\n",
    32,
    r#"{"name":"TooLarge","refused":15}"#,
);

pub const NO_LENGTH: Page = (
    "411 Length Required",
    "Connection: close\r\n",
    32,
    r#"{"name":"NoLength","refused":19}"#,
);

/// A whole request.
pub const GET: &[u8] = b"GET /unfinished HTTP/1.1\r\nHost: d\r\nDesk-Agent: ann\r\n\r\n";

/// The plan of these steps, in JSON.
pub fn plan_of(rt: &impl Abort, alloc: Global, steps: &[Step]) -> Vec<u8> {
    let mut text = Vec::new(alloc);
    let mut front = "{\"steps\":[";
    for &(kind, supplier, product, night, save) in steps {
        put(
            rt,
            &mut text,
            &[front, "{\"options\":[{\"count\":1,\"first\":\"", night],
        );
        put(
            rt,
            &mut text,
            &["\",\"kind\":\"", kind, "\",\"nights\":1,\"product\":\""],
        );
        put(
            rt,
            &mut text,
            &[product, "\",\"supplier\":\"", supplier, "\"}],\"save\":"],
        );
        put(rt, &mut text, &[save, "}"]);
        front = ",";
    }
    put(rt, &mut text, &["],\"tries\":0}"]);
    text
}

/// Sends an agent's request for a journey of these steps.
pub fn ask_for(
    rt: &impl Abort,
    alloc: Global,
    talk: &mut Talk,
    agent: &str,
    key: &str,
    steps: &[Step],
) {
    let plan = plan_of(rt, alloc, steps);
    talk.ask(rt, alloc, "POST /journeys", agent, key, &plan);
}

/// Sends an agent's request for a journey of these steps, and expects this page.
pub fn begin(
    rt: &impl Abort,
    alloc: Global,
    talk: &mut Talk,
    agent: &str,
    key: &str,
    steps: &[Step],
    page: Page,
) {
    ask_for(rt, alloc, talk, agent, key, steps);
    talk.page(rt, alloc, page);
}

/// Sends a load of seats and rooms, and expects its page.
pub fn load(rt: &impl Abort, alloc: Global, talk: &mut Talk, key: &str) {
    talk.ask(
        rt,
        alloc,
        "POST /batches/b1",
        "ann",
        key,
        SEATS_AND_ROOMS.as_bytes(),
    );
    talk.page(rt, alloc, LOADED);
}

/// A talk that loads seats and rooms under a key, and begins the first journey under another.
pub fn begun(rt: &impl Abort, alloc: Global, key: &str, steps: &[Step]) -> Talk {
    let mut talk = Talk::new(alloc);
    load(rt, alloc, &mut talk, key);
    begin(rt, alloc, &mut talk, "ann", "k2", steps, JOURNEY_1);
    talk
}

/// A head with an agent, a key and these fields.
pub fn head_of(rt: &impl Abort, alloc: Global, asked: &str, fields: &str) -> Vec<u8> {
    let mut head = Vec::new(alloc);
    put(
        rt,
        &mut head,
        &[
            asked,
            " HTTP/1.1\r\nHost: d\r\nDesk-Agent: ann\r\nDesk-Key: k1\r\n",
        ],
    );
    put(rt, &mut head, &[fields, "\r\n"]);
    head
}
