//! Plans in bodies, however they are spelled: which plan the desk then shows, and what is wrong.
use crate::tests::orders::{BAD_BODY, JOURNEY_1};
use crate::tests::talks::{Page, Talk, is_answered};
use std::alloc::Global;
use std::process::Abort;

// how the plan shows
const PLAN: Page = (
    "200 OK",
    "",
    139,
    r#"{"steps":[{"options":[{"count":2,"first":"2030-06-01","kind":"room","nights":3,"product":"DBL","supplier":"INN"}],"save":false}],"tries":1}"#,
);

// bodies that are the same plan
#[rattlefmt::skip]
static SPELLINGS: [(&str, &str); 4] = [
    ("as the desk shows it", r#"{"steps":[{"options":[{"count":2,"first":"2030-06-01","kind":"room","nights":3,"product":"DBL","supplier":"INN"}],"save":false}],"tries":1}"#),
    ("each member at another place", r#"{"tries":1,"steps":[{"save":false,"options":[{"supplier":"INN","product":"DBL","nights":3,"kind":"room","first":"2030-06-01","count":2}]}]}"#),
    ("with blanks and escapes", r#" {"steps" : [ {"options":[{"\u0063ount":2,"first":"2030-06-01","kind":"r\u006fom","nights":3,"product":"DBL","supplier":"\u0049NN"} ], "save":false }], "tries":1 } "#),
    ("with names that come twice", r#"{"steps":[],"tries":9,"steps":[{"save":true,"options":[{"count":9,"first":"2030-06-01","kind":"room","nights":3,"product":"DBL","supplier":"INN","count":2}],"save":false}],"tries":1}"#),
];

// bodies that are no plan, and their pages
#[rattlefmt::skip]
static NO_PLANS: [(&str, &str, Page); 9] = [
    ("a seventh member", r#"{"steps":[{"options":[{"count":2,"first":"2030-06-01","kind":"room","nights":3,"product":"DBL","supplier":"INN","places":2}],"save":false}],"tries":1}"#, ("400 Bad Request", "", 55, r#"{"cause":"shape","name":"BadPlan","refused":5,"step":1}"#)),
    ("a name that comes twice in place of another", r#"{"steps":[{"options":[{"nights":2,"first":"2030-06-01","kind":"room","nights":3,"product":"DBL","supplier":"INN"}],"save":false}],"tries":1}"#, ("400 Bad Request", "", 55, r#"{"cause":"shape","name":"BadPlan","refused":5,"step":1}"#)),
    ("a number with a fraction", r#"{"steps":[{"options":[{"count":2,"first":"2030-06-01","kind":"room","nights":3,"product":"DBL","supplier":"INN"}],"save":false}],"tries":1.0}"#, ("400 Bad Request", "", 55, r#"{"cause":"tries","name":"BadPlan","refused":5,"step":0}"#)),
    ("ten tries", r#"{"steps":[{"options":[{"count":2,"first":"2030-06-01","kind":"room","nights":3,"product":"DBL","supplier":"INN"}],"save":false}],"tries":10}"#, ("400 Bad Request", "", 55, r#"{"cause":"tries","name":"BadPlan","refused":5,"step":0}"#)),
    ("no places", r#"{"steps":[{"options":[{"count":0,"first":"2030-06-01","kind":"room","nights":3,"product":"DBL","supplier":"INN"}],"save":false}],"tries":1}"#, ("400 Bad Request", "", 55, r#"{"cause":"count","name":"BadPlan","refused":5,"step":1}"#)),
    ("a number past 255", r#"{"steps":[{"options":[{"count":256,"first":"2030-06-01","kind":"room","nights":3,"product":"DBL","supplier":"INN"}],"save":false}],"tries":1}"#, ("400 Bad Request", "", 55, r#"{"cause":"count","name":"BadPlan","refused":5,"step":1}"#)),
    ("a mark after the last step", r#"{"steps":[{"options":[{"count":2,"first":"2030-06-01","kind":"room","nights":3,"product":"DBL","supplier":"INN"}],"save":true}],"tries":1}"#, ("400 Bad Request", "", 54, r#"{"cause":"save","name":"BadPlan","refused":5,"step":1}"#)),
    ("a kind that is none", r#"{"steps":[{"options":[{"count":2,"first":"2030-06-01","kind":"ROOM","nights":3,"product":"DBL","supplier":"INN"}],"save":false}],"tries":1}"#, ("400 Bad Request", "", 54, r#"{"cause":"kind","name":"BadPlan","refused":5,"step":1}"#)),
    ("a text after the plan", r#"{"steps":[{"options":[{"count":2,"first":"2030-06-01","kind":"room","nights":3,"product":"DBL","supplier":"INN"}],"save":false}],"tries":1}x"#, BAD_BODY),
];

/// Begins a journey with a body, and expects this page.
fn begin(rt: &impl Abort, alloc: Global, talk: &mut Talk, body: &str, page: Page) {
    talk.ask(rt, alloc, "POST /journeys", "ann", "k1", body.as_bytes());
    talk.page(rt, alloc, page);
}

#[test]
fn a_plan_is_the_same_however_it_is_spelled(rt: HostRuntime) {
    for &(case, body) in &SPELLINGS {
        let mut talk = Talk::new(rt.alloc());
        begin(&rt, rt.alloc(), &mut talk, body, JOURNEY_1);
        talk.ask(&rt, rt.alloc(), "GET /journeys/1/plan", "ann", "", b"");
        talk.page(&rt, rt.alloc(), PLAN);
        is_answered(&rt, rt.alloc(), case, &talk);
    }
}

#[test]
fn a_body_that_is_no_plan_is_refused_with_its_cause(rt: HostRuntime) {
    for &(case, body, page) in &NO_PLANS {
        let mut talk = Talk::new(rt.alloc());
        begin(&rt, rt.alloc(), &mut talk, body, page);
        is_answered(&rt, rt.alloc(), case, &talk);
    }
}
