//! Why a journey goes on or does not: texts with values from outside, and what is written before a source or a writer
//! fails.
use super::fakes::Failing;
use super::{agent, cell, with_room};
use allotment::{Cell, Held};
use commands::{Cursor, Fault, Phase};
use failing_streams::Sink;
use plan::{Marks, Plan};
use previews::{FreeNight, NextStep, look_ahead, next_step, read_nights, why_body, why_text};
use reports::ReportFault;
use saga_core::{Format, Listed, Record};
use std::alloc::{AllocError, Global};
use std::process::Abort;

const PLAN: &str =
    "F/AL/A1/2030-06-01/1/1*;R/INN/DBL/2030-06-01/3/2|R/INN/SGL/2030-06-02/1/2;C/CO/P/2030-06-01/1/1!1";

/// The journey of ann with that plan, at a position and in a phase, of which so many steps were refused.
fn journey(rt: &impl Abort, alloc: Global, pos: usize, phase: Phase, used: usize) -> Record {
    let plan = match Plan::from_line(alloc, PLAN) {
        Ok(plan) => plan,
        Err(fault) => panic!(rt; "{PLAN}: {fault:?}"),
    };
    Record {
        agent: agent(rt, "ann"),
        plan,
        cursor: Cursor { pos, phase, used },
        marks: Marks::none(),
    }
}

/// The flight, with nine free places, and the three nights of the room, of which the second has so many.
fn four_cells(rt: &impl Abort, second: u32) -> [(Cell, Held); 4] {
    assert!(rt; second <= 10);
    [
        (cell(rt, "F/AL/A1/2030-06-01"), Held { allot: 10, free: 9 }),
        (
            cell(rt, "R/INN/DBL/2030-06-01"),
            Held { allot: 10, free: 5 },
        ),
        (
            cell(rt, "R/INN/DBL/2030-06-02"),
            Held {
                allot: 10,
                free: second,
            },
        ),
        (cell(rt, "R/INN/DBL/2030-06-03"), Held { allot: 2, free: 2 }),
    ]
}

const FITS: [&str; 4] = [
    "journey 7 agent ann
state run 1
next T2.1 R/INN/DBL/2030-06-01/3/2
night 2030-06-01 free 5
night 2030-06-02 free 2
night 2030-06-03 free 2
step T2.1
",
    r#"{"agent":"ann","journey":7,"pos":1,"state":"run"}
{"journey":7,"next":"T2.1","want":"R/INN/DBL/2030-06-01/3/2"}
{"free":5,"journey":7,"night":"2030-06-01"}
{"free":2,"journey":7,"night":"2030-06-02"}
{"free":2,"journey":7,"night":"2030-06-03"}
{"journey":7,"step":"T2.1"}
"#,
    "journey,agent,state,pos,target,next,want,night,free,step\r
7,ann,run,1,,T2.1,R/INN/DBL/2030-06-01/3/2,2030-06-01,5,T2.1\r
7,ann,run,1,,T2.1,R/INN/DBL/2030-06-01/3/2,2030-06-02,2,T2.1\r
7,ann,run,1,,T2.1,R/INN/DBL/2030-06-01/3/2,2030-06-03,2,T2.1\r
",
    r#"{"agent":"ann","journey":7,"next":"T2.1","nights":[{"free":5,"night":"2030-06-01"},{"free":2,"night":"2030-06-02"},{"free":2,"night":"2030-06-03"}],"pos":1,"state":"run","step":"T2.1","want":"R/INN/DBL/2030-06-01/3/2"}"#,
];

const TOO_FEW: [&str; 4] = [
    "journey 7 agent ann
state run 1
next T2.1 R/INN/DBL/2030-06-01/3/2
night 2030-06-01 free 5
night 2030-06-02 free 1
night 2030-06-03 free 2
step B1r
",
    r#"{"agent":"ann","journey":7,"pos":1,"state":"run"}
{"journey":7,"next":"T2.1","want":"R/INN/DBL/2030-06-01/3/2"}
{"free":5,"journey":7,"night":"2030-06-01"}
{"free":1,"journey":7,"night":"2030-06-02"}
{"free":2,"journey":7,"night":"2030-06-03"}
{"journey":7,"step":"B1r"}
"#,
    "journey,agent,state,pos,target,next,want,night,free,step\r
7,ann,run,1,,T2.1,R/INN/DBL/2030-06-01/3/2,2030-06-01,5,B1r\r
7,ann,run,1,,T2.1,R/INN/DBL/2030-06-01/3/2,2030-06-02,1,B1r\r
7,ann,run,1,,T2.1,R/INN/DBL/2030-06-01/3/2,2030-06-03,2,B1r\r
",
    r#"{"agent":"ann","journey":7,"next":"T2.1","nights":[{"free":5,"night":"2030-06-01"},{"free":1,"night":"2030-06-02"},{"free":2,"night":"2030-06-03"}],"pos":1,"state":"run","step":"B1r","want":"R/INN/DBL/2030-06-01/3/2"}"#,
];

const UNALLOTTED: [&str; 4] = [
    "journey 7 agent ann
state run 1
next T2.2 R/INN/SGL/2030-06-02/1/2
night 2030-06-02 unallotted
step B0r
",
    r#"{"agent":"ann","journey":7,"pos":1,"state":"run"}
{"journey":7,"next":"T2.2","want":"R/INN/SGL/2030-06-02/1/2"}
{"journey":7,"night":"2030-06-02"}
{"journey":7,"step":"B0r"}
"#,
    "journey,agent,state,pos,target,next,want,night,free,step\r
7,ann,run,1,,T2.2,R/INN/SGL/2030-06-02/1/2,2030-06-02,,B0r\r
",
    r#"{"agent":"ann","journey":7,"next":"T2.2","nights":[{"night":"2030-06-02"}],"pos":1,"state":"run","step":"B0r","want":"R/INN/SGL/2030-06-02/1/2"}"#,
];

const GOES_BACK: [&str; 4] = [
    "journey 7 agent ann
state back 2 to 0
next C2.1 R/INN/DBL/2030-06-01/3/2
night 2030-06-01 free 5
night 2030-06-02 free 0
night 2030-06-03 free 2
step C2.1
",
    r#"{"agent":"ann","journey":7,"pos":2,"state":"back","target":0}
{"journey":7,"next":"C2.1","want":"R/INN/DBL/2030-06-01/3/2"}
{"free":5,"journey":7,"night":"2030-06-01"}
{"free":0,"journey":7,"night":"2030-06-02"}
{"free":2,"journey":7,"night":"2030-06-03"}
{"journey":7,"step":"C2.1"}
"#,
    "journey,agent,state,pos,target,next,want,night,free,step\r
7,ann,back,2,0,C2.1,R/INN/DBL/2030-06-01/3/2,2030-06-01,5,C2.1\r
7,ann,back,2,0,C2.1,R/INN/DBL/2030-06-01/3/2,2030-06-02,0,C2.1\r
7,ann,back,2,0,C2.1,R/INN/DBL/2030-06-01/3/2,2030-06-03,2,C2.1\r
",
    r#"{"agent":"ann","journey":7,"next":"C2.1","nights":[{"free":5,"night":"2030-06-01"},{"free":0,"night":"2030-06-02"},{"free":2,"night":"2030-06-03"}],"pos":2,"state":"back","step":"C2.1","target":0,"want":"R/INN/DBL/2030-06-01/3/2"}"#,
];

const ENDED: [&str; 4] = [
    "journey 7 agent ann
state ended 3
step none
",
    r#"{"agent":"ann","journey":7,"pos":3,"state":"ended"}
{"journey":7,"step":"none"}
"#,
    "journey,agent,state,pos,target,next,want,night,free,step\r
7,ann,ended,3,,,,,,none\r
",
    r#"{"agent":"ann","journey":7,"nights":[],"pos":3,"state":"ended","step":"none"}"#,
];

const UNDONE: [&str; 4] = [
    "journey 7 agent ann
state undone 0
step none
",
    r#"{"agent":"ann","journey":7,"pos":0,"state":"undone"}
{"journey":7,"step":"none"}
"#,
    "journey,agent,state,pos,target,next,want,night,free,step\r
7,ann,undone,0,,,,,,none\r
",
    r#"{"agent":"ann","journey":7,"nights":[],"pos":0,"state":"undone","step":"none"}"#,
];

// where the journey is, how many of its steps were refused, the option that its last step took, the free places of the
// second night, and the reports, and last the object
#[rattlefmt::skip]
const CASES: [(&str, usize, Phase, usize, Option<usize>, u32, [&str; 4]); 6] = [
    ("its want fits",            1, Phase::Run,     0, None,    2, FITS),
    ("one place is wanting",     1, Phase::Run,     0, None,    1, TOO_FEW),
    ("a night is not allotted",  1, Phase::Run,     1, None,    2, UNALLOTTED),
    ("it goes back",             2, Phase::Back(0), 1, Some(1), 0, GOES_BACK),
    ("it has ended",             3, Phase::Ended,   0, None,    2, ENDED),
    ("it is undone",             0, Phase::Undone,  1, None,    2, UNDONE),
];

/// What is free of the nights of the next want, by these cells.
fn nights_ahead(
    alloc: Global,
    next: &Option<NextStep>,
    cells: &[(Cell, Held)],
) -> Result<Vec<FreeNight>, ReportFault> {
    match next {
        Some(next) => read_nights(alloc, &next.want, &mut Listed::new(cells)),
        None => Ok(Vec::new(alloc)),
    }
}

#[test]
fn a_journey_says_why_it_does_not_go_on(rt: HostRuntime) {
    let alloc = rt.alloc();
    for &(case, pos, phase, used, taken, second, expected) in &CASES {
        let journey = journey(&rt, alloc, pos, phase, used);
        let cells = four_cells(&rt, second);
        let next = match next_step(&journey, taken) {
            Ok(next) => next,
            Err(fault) => panic!(rt; "{case}: {fault:?}"),
        };
        let nights = match nights_ahead(alloc, &next, &cells) {
            Ok(nights) => nights,
            Err(fault) => panic!(rt; "{case}: {fault:?}"),
        };
        let preview = look_ahead(7, &journey, next, &nights);
        let body = why_body(alloc, &preview, &nights).expect(&rt, "memory");
        let [text, objects, records, object] = expected;
        for (format, whole) in [
            (Format::Text, text),
            (Format::Json, objects),
            (Format::Csv, records),
        ] {
            let mut out = with_room(&rt, alloc);
            let answer = why_text(alloc, format, &preview, &nights, &mut out);
            assert!(rt;
                answer == Ok(()) && out.as_slice() == whole.as_bytes(),
                "{case}: {answer:?}"
            );
        }
        assert!(rt; body.as_str() == object, "{case}: {body}");
    }
}

// where a journey is that cannot be there, and the option that its last step took
#[rattlefmt::skip]
const IMPOSSIBLE: [(&str, usize, Phase, Option<usize>); 5] = [
    ("it runs at the end of its plan", 3, Phase::Run,     None),
    ("it goes back from its start",    0, Phase::Back(0), Some(1)),
    ("it goes back without a step",    2, Phase::Back(0), None),
    ("its step has no option 0",       2, Phase::Back(0), Some(0)),
    ("its step has no option 3",       2, Phase::Back(0), Some(3)),
];

#[test]
fn a_journey_that_cannot_be_there_is_a_fault_of_the_store(rt: HostRuntime) {
    let alloc = rt.alloc();
    for &(case, pos, phase, taken) in &IMPOSSIBLE {
        let journey = journey(&rt, alloc, pos, phase, 0);
        assert!(rt;
            matches!(next_step(&journey, taken), Err(Fault::Store)),
            "{case}"
        );
    }
}

#[test]
fn a_source_that_fails_is_reported(rt: HostRuntime) {
    let alloc = rt.alloc();
    let journey = journey(&rt, alloc, 1, Phase::Run, 0);
    let cells = four_cells(&rt, 2);
    let Ok(Some(next)) = next_step(&journey, None) else {
        panic!(rt; "the journey runs");
    };
    for (fault, expected) in [
        (Fault::Store, ReportFault::Store),
        (Fault::Memory, ReportFault::Memory),
    ] {
        let answer = read_nights(alloc, &next.want, &mut Failing::new(&cells, fault));
        match answer {
            Err(fault) => assert!(rt; fault == expected, "{expected:?}: {fault:?}"),
            Ok(_) => panic!(rt; "the source fails"),
        }
    }
}

#[test]
fn a_writer_that_fails_has_a_prefix(rt: HostRuntime) -> Result<(), AllocError> {
    let alloc = rt.alloc();
    let journey = journey(&rt, alloc, 0, Phase::Undone, 0);
    let Ok(next) = next_step(&journey, None) else {
        panic!(rt; "the journey is undone");
    };
    let none: [FreeNight; 0] = [];
    let preview = look_ahead(7, &journey, next, &none);
    let whole = UNDONE[0].as_bytes();
    for room in 0..whole.len() {
        let mut sink = Sink::new(alloc, 5, room)?;
        let answer = why_text(alloc, Format::Text, &preview, &none, &mut sink);
        assert!(rt;
            answer == Err(ReportFault::Write) && sink.taken() == &whole[..room],
            "{room}: {answer:?}"
        );
    }
    Ok(())
}
