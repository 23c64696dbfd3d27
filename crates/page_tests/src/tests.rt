// Values from outside: the tables of routes and codes, and bodies and pages as the formats give them.
mod log_lines;
mod metrics;
mod shown;
mod terminals;

use commands::{Agent, Cause, CsvCause, Cursor, Item, Key, Name, Phase, Refusal, Reply};
use http_pages::{
    Body, Denied, Owners, Page, Paths, Route, Status, Unrouted, Verb, admit, brief_body,
    denied_page, journey_body, page_bytes, plan_body, refusal_body, refused_page, reply_body,
    reply_page, shown_page, stopping_body, unfinished_body,
};
use plan::{BadPlan, Plan, PlanCause};
use saga_core::Brief;
use std::alloc::{AllocError, Global};
use std::process::Abort;

/// Stops the test where this is false.
fn holds(rt: &impl Abort, case: &str, is_so: bool) {
    assert!(rt; is_so, "{case}");
}

/// What a method and a target ask for.
type Found = Result<Route, Unrouted>;

/// The paths of the desk.
fn paths(rt: &impl Abort, alloc: Global) -> Paths {
    Paths::new(alloc).expect(rt, "memory")
}

/// Stops the test where a method and a target ask for something else.
fn asks(rt: &impl Abort, paths: &Paths, method: &str, target: &[u8], expected: Found, case: &str) {
    holds(rt, case, paths.route(method.as_bytes(), target) == expected);
}

// the method, the target, what they ask for
#[rattlefmt::skip]
const ROUTES: [(&str, &str, Route); 17] = [
    ("POST", "/journeys",                   Route::Begin),
    ("POST", "/journeys/1/step",            Route::Step(1)),
    ("POST", "/journeys/999999999999/step", Route::Step(999_999_999_999)),
    ("POST", "/journeys/1/abort/0",         Route::Abort(1, 0)),
    ("POST", "/journeys/12/abort/99",       Route::Abort(12, 99)),
    ("POST", "/journeys/1/save",            Route::Save(1)),
    ("GET",  "/journeys/1",                 Route::ShowJourney(1)),
    ("GET",  "/journeys/1/plan",            Route::ShowPlan(1)),
    ("GET",  "/journeys/1/why",             Route::ShowWhy(1)),
    ("GET",  "/unfinished",                 Route::ShowUnfinished),
    ("GET",  "/stock",                      Route::ShowStock),
    ("GET",  "/mine",                       Route::ShowMine(0)),
    ("GET",  "/mine/0",                     Route::ShowMine(0)),
    ("GET",  "/mine/17",                    Route::ShowMine(17)),
    ("GET",  "/mine/999999999999",          Route::ShowMine(999_999_999_999)),
    ("GET",  "/health",                     Route::ShowHealth),
    ("GET",  "/agent",                      Route::ShowAgent),
];

/// Stops the test where the method and the target of a row ask for something else than its last column says.
fn each_asks(rt: &impl Abort, paths: &Paths, rows: &[(&str, &str, Route)]) {
    for &(method, target, route) in rows {
        asks(rt, paths, method, target.as_bytes(), Ok(route), target);
    }
}

#[test]
fn a_method_and_a_target_ask_for_one_thing(rt: HostRuntime) {
    let paths = paths(&rt, rt.alloc());
    each_asks(&rt, &paths, &ROUTES);
}

// the method and the target
#[rattlefmt::skip]
const BAD_PARTS: [(&str, &str); 24] = [
    ("POST", "/journeys/01/step"),
    ("POST", "/journeys/0/step"),
    ("POST", "/journeys/1000000000000/step"),
    ("POST", "/journeys/+1/step"),
    ("POST", "/journeys/x/save"),
    ("POST", "/journeys/1/abort/00"),
    ("POST", "/journeys/1/abort/100"),
    ("POST", "/journeys/x/abort/0"),
    ("GET",  "/journeys/x"),
    ("GET",  "/journeys/step"),
    ("GET",  "/journeys/1?a"),
    ("GET",  "/journeys/é"),
    ("GET",  "/journeys/01/why"),
    ("GET",  "/journeys/by-key"),
    ("GET",  "/journeys/by-key/a_b"),
    ("GET",  "/journeys/by-key/k1?"),
    ("GET",  "/journeys/by-key/ABCDEFGHIJKLMNOPQRSTUVWXYZabcdefg"),
    ("GET",  "/journeys/by-key/7d444840-9dc0-11d1-b245-5ffdce74fad2"),
    ("POST", "/batches/B1"),
    ("POST", "/batches/abcdefghijklmnopqrstuvwxy"),
    ("GET",  "/mine/01"),
    ("GET",  "/mine/-1"),
    ("GET",  "/mine/x"),
    ("GET",  "/mine/1000000000000"),
];

/// The key of this text.
fn key(rt: &impl Abort, text: &str) -> Key {
    Key::parse(text).expect(rt, "a key")
}

// keys in targets, the last of 32 characters: two of them are pieces of other paths
#[rattlefmt::skip]
const KEYS: [&str; 5] = ["k1", "step", "by-key", "-", "ABCDEFGHIJKLMNOPQRSTUVWXYZabcdef"];

#[test]
fn a_key_is_that_of_its_path(rt: HostRuntime) {
    let alloc = rt.alloc();
    let paths = paths(&rt, alloc);
    for &text in &KEYS {
        let target = format!(in alloc; "/journeys/by-key/{text}").expect(&rt, "memory");
        let expected = Ok(Route::ShowBegun(key(&rt, text)));
        asks(&rt, &paths, "GET", target.as_bytes(), expected, text);
    }
}

#[test]
fn a_part_of_another_form_is_bad(rt: HostRuntime) {
    let paths = paths(&rt, rt.alloc());
    for &(method, target) in &BAD_PARTS {
        asks(&rt, &paths, method, target.as_bytes(), BAD, target);
    }
}

#[rattlefmt::skip]
const NOWHERE_AT_ALL: [&str; 20] = [
    "", "/", "*", "unfinished", "/nowhere", "//stock", "/stock/", "/stock?a", "/journeys/",
    "/journeys/1/", "/journeys//step", "/journeys/1/step/", "/journeys/1/stop", "/batches/a/b",
    "/mine/", "/mine/1/", "/mine?after=1", "/health/", "/journeys/by-key/", "/journeys/by-key/a/b",
];

#[test]
fn a_target_that_is_no_path_is_unknown(rt: HostRuntime) {
    let paths = paths(&rt, rt.alloc());
    for &target in &NOWHERE_AT_ALL {
        asks(&rt, &paths, "POST", target.as_bytes(), NOWHERE, target);
    }
    asks(&rt, &paths, "GET", &[b'/', b's', 0xff], NOWHERE, "no text");
}

// the method, the target, the method that its path has
#[rattlefmt::skip]
const WRONG_METHODS: [(&str, &str, Verb); 10] = [
    ("DELETE", "/unfinished",      Verb::Get),
    ("HEAD",   "/stock",           Verb::Get),
    ("get",    "/stock",           Verb::Get),
    ("POST",   "/journeys/x",      Verb::Get),
    ("GET",    "/journeys",        Verb::Post),
    ("DELETE", "/journeys/1/step", Verb::Post),
    ("GET",    "/batches/B1",      Verb::Post),
    ("POST",   "/journeys/by-key/step", Verb::Get),
    ("POST",   "/mine/x",          Verb::Get),
    ("POST",   "/health",          Verb::Get),
];

#[test]
fn a_path_has_one_method(rt: HostRuntime) {
    let paths = paths(&rt, rt.alloc());
    for &(method, target, verb) in &WRONG_METHODS {
        let expected = Err(Unrouted::WrongMethod(verb));
        asks(&rt, &paths, method, target.as_bytes(), expected, target);
    }
}

/// The name of a batch.
fn batch(rt: &impl Abort) -> Name {
    Name::parse("b1").expect(rt, "a name")
}

#[test]
fn a_batch_is_loaded_under_its_name(rt: HostRuntime) {
    let paths = paths(&rt, rt.alloc());
    let expected = Ok(Route::LoadBatch(batch(&rt)));
    asks(&rt, &paths, "POST", b"/batches/b1", expected, "/batches/b1");
}

const STEP: Found = Ok(Route::Step(1));

const HEALTH: Found = Ok(Route::ShowHealth);

const BAD: Found = Err(Unrouted::BadPart);

const OTHER: Found = Err(Unrouted::WrongMethod(Verb::Post));

const NOWHERE: Found = Err(Unrouted::UnknownPath);

// what was found; whether there are an agent and a key, and the method is POST; what is wrong
#[rattlefmt::skip]
const ORDER: [(Found, bool, bool, bool, Option<Refusal>); 12] = [
    (STEP,    true,  true,  true,  None),
    (STEP,    true,  false, false, None),
    (NOWHERE, false, false, true,  Some(Refusal::UnknownPath)),
    (OTHER,   false, false, false, Some(Refusal::WrongMethod)),
    (BAD,     false, false, true,  Some(Refusal::NoAgent)),
    (STEP,    false, true,  true,  Some(Refusal::NoAgent)),
    (BAD,     true,  false, true,  Some(Refusal::NoKey)),
    (STEP,    true,  false, true,  Some(Refusal::NoKey)),
    (BAD,     true,  true,  true,  Some(Refusal::BadBody)),
    (BAD,     true,  false, false, Some(Refusal::BadBody)),
    (HEALTH,  false, false, false, None),
    (HEALTH,  true,  false, false, None),
];

/// What is wrong, if something is.
fn wrong(found: Found, agent: bool, key: bool, post: bool) -> Option<Refusal> {
    match admit(found, agent, key, post) {
        Ok(_) => None,
        Err(denied) => Some(denied.refusal),
    }
}

/// Stops the test where something else is wrong with the request of a row.
fn each_is_admitted(rt: &impl Abort, rows: &[(Found, bool, bool, bool, Option<Refusal>)]) {
    for &(found, agent, key, post, refusal) in rows {
        assert_eq!(rt; wrong(found, agent, key, post), refusal);
    }
}

#[test]
fn the_first_thing_that_is_wrong_is_told(rt: HostRuntime) {
    each_is_admitted(&rt, &ORDER);
}

const BAD_NIGHT: BadPlan = BadPlan {
    step: 1,
    cause: PlanCause::Night,
};

const MANY_ROWS: Refusal = Refusal::BadCsv {
    row: 2001,
    cause: CsvCause::Many,
};

// the refusal, the status of its page, its body, the body's length
#[rattlefmt::skip]
const REFUSALS: [(Refusal, Status, &str, usize); 18] = [
    (Refusal::BadHead,              Status::BadRequest,     r#"{"name":"BadHead","refused":1}"#,                          30),
    (Refusal::NoAgent,              Status::BadRequest,     r#"{"name":"NoAgent","refused":2}"#,                          30),
    (Refusal::NoKey,                Status::BadRequest,     r#"{"name":"NoKey","refused":3}"#,                            28),
    (Refusal::BadBody,              Status::BadRequest,     r#"{"name":"BadBody","refused":4}"#,                          30),
    (Refusal::BadPlan(BAD_NIGHT),   Status::BadRequest,     r#"{"cause":"night","name":"BadPlan","refused":5,"step":1}"#, 55),
    (MANY_ROWS,                     Status::BadRequest,     r#"{"cause":"many","name":"BadCsv","refused":6,"row":2001}"#, 55),
    (Refusal::UnknownPath,          Status::NotFound,       r#"{"name":"UnknownPath","refused":7}"#,                      34),
    (Refusal::WrongMethod,          Status::NotAllowed,     r#"{"name":"WrongMethod","refused":8}"#,                      34),
    (Refusal::NoJourney,            Status::NotFound,       r#"{"name":"NoJourney","refused":9}"#,                        32),
    (Refusal::Finished,             Status::Conflict,       r#"{"name":"Finished","refused":10}"#,                        32),
    (Refusal::NoSavePoint,          Status::Conflict,       r#"{"name":"NoSavePoint","refused":11}"#,                     35),
    (Refusal::BelowHeld { row: 2 }, Status::Conflict,       r#"{"name":"BelowHeld","refused":12,"row":2}"#,               41),
    (Refusal::BatchDiffers,         Status::Conflict,       r#"{"name":"BatchDiffers","refused":13}"#,                    36),
    (Refusal::KeyReused,            Status::Conflict,       r#"{"name":"KeyReused","refused":14}"#,                       33),
    (Refusal::TooLarge,             Status::TooLarge,       r#"{"name":"TooLarge","refused":15}"#,                        32),
    (Refusal::Limit,                Status::Conflict,       r#"{"name":"Limit","refused":16}"#,                           29),
    (Refusal::NoLength,             Status::LengthRequired, r#"{"name":"NoLength","refused":19}"#,                        32),
    (Refusal::NoSave,               Status::Conflict,       r#"{"name":"NoSave","refused":28}"#,                          30),
];

/// Stops the test where a body is another text than this one, of so many bytes.
fn reads(rt: &impl Abort, body: Result<String, AllocError>, expected: &str, length: usize) {
    let body = body.expect(rt, "memory");
    assert_eq!(rt; body.as_str(), expected);
    holds(rt, expected, body.len() == length);
}

/// Stops the test where a refusal has another status, or another body than this one, of so many bytes.
fn is_refused(
    rt: &impl Abort,
    alloc: Global,
    refusal: &Refusal,
    status: Status,
    expected: &str,
    length: usize,
) {
    let page = refused_page(alloc, refusal).expect(rt, "memory");
    holds(rt, expected, page.status == status);
    reads(rt, refusal_body(alloc, refusal), expected, length);
}

#[test]
fn a_refusal_has_a_status_and_a_body(rt: HostRuntime) {
    let alloc = rt.alloc();
    for &(refusal, status, expected, length) in &REFUSALS {
        is_refused(&rt, alloc, &refusal, status, expected, length);
    }
}

const FIRST_STEP: Item = Item::Transaction { step: 1, option: 1 };

const UNDONE: Item = Item::Compensation { step: 1, option: 1 };

const SAVED: Item = Item::Save { position: 1 };

const ASKED_BACK: Item = Item::Turn {
    target: 0,
    cause: Cause::Asked,
};

// the item, the position and the phase of journey 1, the body that answers it, the body's length
#[rattlefmt::skip]
const MOVES: [(Item, usize, Phase, &str, usize); 5] = [
    (FIRST_STEP, 1, Phase::Run,     r#"{"item":"T1.1","journey":1,"pos":1,"state":"run"}"#,            49),
    (FIRST_STEP, 1, Phase::Ended,   r#"{"item":"T1.1","journey":1,"pos":1,"state":"ended"}"#,          51),
    (ASKED_BACK, 1, Phase::Back(0), r#"{"item":"B0a","journey":1,"pos":1,"state":"back","target":0}"#, 60),
    (SAVED,      1, Phase::Run,     r#"{"item":"S1","journey":1,"pos":1,"state":"run"}"#,              47),
    (UNDONE,     0, Phase::Undone,  r#"{"item":"C1.1","journey":1,"pos":0,"state":"undone"}"#,         52),
];

#[test]
fn a_move_is_told_with_its_target_in_back_alone(rt: HostRuntime) {
    let id = 1;
    for &(item, pos, phase, expected, length) in &MOVES {
        let reply = Reply::Moved {
            id,
            item,
            pos,
            phase,
        };
        reads(&rt, reply_body(rt.alloc(), &reply), expected, length);
    }
}

#[test]
fn other_replies_are_told(rt: HostRuntime) {
    let alloc = rt.alloc();
    let (name, rows) = (batch(&rt), 2);
    let body = reply_body(alloc, &Reply::Loaded { name, rows });
    reads(&rt, body, r#"{"batch":"b1","rows":2}"#, 23);
    let body = reply_body(alloc, &Reply::Begun { id: 1 });
    reads(&rt, body, r#"{"journey":1}"#, 13);
    let body = reply_body(alloc, &Reply::Refused(Refusal::NoSave));
    reads(&rt, body, r#"{"name":"NoSave","refused":28}"#, 30)
}

const AT_ONE: Cursor = Cursor {
    pos: 1,
    phase: Phase::Back(0),
    used: 0,
};

const AT_THE_END: Cursor = Cursor {
    pos: 1,
    phase: Phase::Ended,
    used: 0,
};

#[test]
fn a_journey_is_shown_with_its_history(rt: HostRuntime) {
    let alloc = rt.alloc();
    let body = journey_body(alloc, 1, AT_THE_END, &[FIRST_STEP]);
    let expected = r#"{"history":["T1.1"],"journey":1,"pos":1,"state":"ended"}"#;
    reads(&rt, body, expected, 56);
    let body = journey_body(alloc, 2, AT_ONE, &[FIRST_STEP, ASKED_BACK]);
    let expected = r#"{"history":["T1.1","B0a"],"journey":2,"pos":1,"state":"back","target":0}"#;
    reads(&rt, body, expected, 72);
}

#[test]
fn a_plan_is_shown_as_it_is_sent(rt: HostRuntime) {
    let alloc = rt.alloc();
    let line = "F/AL/A1/2030-06-01/1/2*;R/INN/SEA/2030-06-01/3/1|R/INN/YARD/2030-06-02/2/1!1";
    let plan = match Plan::from_line(alloc, line) {
        Ok(plan) => plan,
        Err(fault) => panic!(rt; "a plan: {fault:?}"),
    };
    let expected =
        r#"{"steps":[{"options":[{"count":2,"first":"2030-06-01","kind":"flight","nights":1,"product":"A1","supplier":"AL"}],"save":true},{"options":[{"count":1,"first":"2030-06-01","kind":"room","nights":3,"product":"SEA","supplier":"INN"},{"count":1,"first":"2030-06-02","kind":"room","nights":2,"product":"YARD","supplier":"INN"}],"save":false}],"tries":1}"#;
    reads(&rt, plan_body(alloc, &plan), expected, 348);
}

#[test]
fn journeys_that_are_not_finished_are_shown(rt: HostRuntime) {
    let alloc = rt.alloc();
    let body = unfinished_body(alloc, Owners::Hidden, &[]);
    reads(&rt, body, r#"{"unfinished":[]}"#, 17);
    let brief = Brief {
        id: 7,
        agent: Agent::house(),
        cursor: AT_ONE,
    };
    let body = unfinished_body(alloc, Owners::Hidden, &[brief]);
    let expected = r#"{"unfinished":[{"journey":7,"pos":1,"state":"back","target":0}]}"#;
    reads(&rt, body, expected, 64);
}

#[test]
fn a_journey_alone_is_shown_as_in_a_list(rt: HostRuntime) {
    let alloc = rt.alloc();
    let brief = Brief {
        id: 7,
        agent: Agent::house(),
        cursor: AT_ONE,
    };
    let hidden = r#"{"journey":7,"pos":1,"state":"back","target":0}"#;
    reads(&rt, brief_body(alloc, Owners::Hidden, &brief), hidden, 47);
    let shown = r#"{"agent":"desk","journey":7,"pos":1,"state":"back","target":0}"#;
    reads(&rt, brief_body(alloc, Owners::Shown, &brief), shown, 62);
}

#[test]
fn the_house_is_shown_whose_the_journeys_are(rt: HostRuntime) {
    let alloc = rt.alloc();
    let body = unfinished_body(alloc, Owners::Shown, &[]);
    reads(&rt, body, r#"{"unfinished":[]}"#, 17);
    let ann = Agent::parse("ann").expect(&rt, "an agent");
    let first = Brief {
        id: 7,
        agent: ann,
        cursor: AT_ONE,
    };
    let second = Brief {
        id: 8,
        agent: Agent::house(),
        cursor: AT_THE_END,
    };
    let body = unfinished_body(alloc, Owners::Shown, &[first, second]);
    let expected =
        r#"{"unfinished":[{"agent":"ann","journey":7,"pos":1,"state":"back","target":0},{"agent":"desk","journey":8,"pos":1,"state":"ended"}]}"#;
    reads(&rt, body, expected, 131);
}

#[test]
fn the_desk_says_that_it_stops(rt: HostRuntime) {
    let body = stopping_body(rt.alloc());
    reads(&rt, body, r#"{"state":"stopping"}"#, 20);
}

const NOT_ALLOWED: Denied = Denied {
    refusal: Refusal::WrongMethod,
    allow: Some(Verb::Get),
};

const TOO_LARGE: Denied = Denied {
    refusal: Refusal::TooLarge,
    allow: None,
};

// whether the page closes and answers HEAD, what is wrong, the page
#[rattlefmt::skip]
const DENIED: [(bool, bool, Denied, &str); 4] = [
    (false, false, NOT_ALLOWED, "HTTP/1.1 405 Method Not Allowed\r\nContent-Length: 34\r\nContent-Type: application/json\r\nAllow: GET\r\n\r\n{\"name\":\"WrongMethod\",\"refused\":8}"),
    (false, true,  NOT_ALLOWED, "HTTP/1.1 405 Method Not Allowed\r\nContent-Length: 34\r\nContent-Type: application/json\r\nAllow: GET\r\n\r\n"),
    (true,  true,  NOT_ALLOWED, "HTTP/1.1 405 Method Not Allowed\r\nContent-Length: 34\r\nContent-Type: application/json\r\nAllow: GET\r\nConnection: close\r\n\r\n"),
    (true,  false, TOO_LARGE,   "HTTP/1.1 413 Content Too Large\r\nContent-Length: 32\r\nContent-Type: application/json\r\nConnection: close\r\n\r\n{\"name\":\"TooLarge\",\"refused\":15}"),
];

/// Stops the test where a page has other bytes.
fn goes_out(
    rt: &impl Abort,
    alloc: Global,
    page: Result<Page, AllocError>,
    closes: bool,
    is_head: bool,
    expected: &str,
) {
    let page = page.expect(rt, "memory");
    let bytes = page_bytes(alloc, &page, closes, is_head).expect(rt, "memory");
    holds(rt, expected, bytes.as_slice() == expected.as_bytes());
}

#[test]
fn a_page_tells_its_status_its_fields_and_its_body(rt: HostRuntime) {
    for &(closes, is_head, denied, expected) in &DENIED {
        let page = denied_page(rt.alloc(), &denied);
        goes_out(&rt, rt.alloc(), page, closes, is_head, expected);
    }
}

#[test]
fn what_is_shown_goes_out_whole(rt: HostRuntime) {
    let alloc = rt.alloc();
    let nothing = unfinished_body(alloc, Owners::Hidden, &[]).expect(&rt, "memory");
    let page = Ok(shown_page(Body::Json(nothing)));
    let expected =
        "HTTP/1.1 200 OK\r\nContent-Length: 17\r\nContent-Type: application/json\r\n\r\n{\"unfinished\":[]}";
    goes_out(&rt, rt.alloc(), page, false, false, expected);
    let report = Vec::from_slice(alloc, b"cells 0\n".as_slice()).expect(&rt, "memory");
    let page = Ok(shown_page(Body::Text(report)));
    let expected =
        "HTTP/1.1 200 OK\r\nContent-Length: 8\r\nContent-Type: text/plain\r\n\r\ncells 0\n";
    goes_out(&rt, rt.alloc(), page, false, false, expected);
}

#[test]
fn a_reply_has_a_page(rt: HostRuntime) {
    let alloc = rt.alloc();
    let page = reply_page(alloc, &Reply::Begun { id: 1 });
    let expected =
        "HTTP/1.1 200 OK\r\nContent-Length: 13\r\nContent-Type: application/json\r\nConnection: close\r\n\r\n{\"journey\":1}";
    goes_out(&rt, rt.alloc(), page, true, false, expected);
    let page = reply_page(alloc, &Reply::Refused(Refusal::NoJourney));
    let expected =
        "HTTP/1.1 404 Not Found\r\nContent-Length: 32\r\nContent-Type: application/json\r\n\r\n{\"name\":\"NoJourney\",\"refused\":9}";
    goes_out(&rt, rt.alloc(), page, false, false, expected);
}
