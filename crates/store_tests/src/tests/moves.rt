//! Values from outside: worked rows of the desk, each on a new store: a request, the line of the answer, and the stored
//! rows after all.
use crate::tests::asking::{Asked, is_answered};
use crate::tests::helping::{book_over, counts};
use sqlite::Connection;
use std::alloc::Global;
use std::process::Abort;
use std::test::Fail;

const A1: &str = "F/AL/A1/2030-06-01";

const A2: &str = "F/AL/A2/2030-06-01";

const A3: &str = "F/AL/A3/2030-06-01";

const A4: &str = "F/AL/A4/2030-06-01";

const A5: &str = "F/AL/A5/2030-06-01";

const A6: &str = "F/AL/A6/2030-06-01";

const BUS: &str = "T/BUS/X/2030-06-01";

const ROOM: &str = "R/INN/DBL/2030-06-01";

/// Checks that a new store gives these answers, and has these rows after them.
fn leads_to(
    rt: &impl Abort,
    alloc: Global,
    rows: &[(Asked, &str)],
    left: &[(&str, i64)],
) -> Result<(), Fail> {
    let mut book = book_over(alloc, Connection::open_in_memory(alloc)?)?;
    is_answered(rt, alloc, &mut book, rows)?;
    counts(rt, &mut book.into_store(), left)
}

#[rattlefmt::skip]
static ONE_STEP: [(Asked, &str); 11] = [
    (Asked::Begin("F/AL/A1/2030-06-01/1/1!0"), "journey 1 begun"),
    (Asked::Step(1),                           "journey 1 B0r undone 0"),
    (Asked::Step(1),                           "refused 10 Finished"),
    (Asked::Load("a", &[(A1, 10)]),            "loaded a 1"),
    (Asked::Load("a", &[(A1, 10)]),            "loaded a 1"),
    (Asked::Load("a", &[(A1, 11)]),            "refused 13 BatchDiffers"),
    (Asked::Begin("F/AL/A1/2030-06-01/1/3!0"), "journey 2 begun"),
    (Asked::Step(2),                           "journey 2 T1.1 ended 1"),
    (Asked::Load("b", &[(A1, 2)]),             "refused 12 BelowHeld 1"),
    (Asked::Load("b", &[(A1, 3)]),             "loaded b 1"),
    (Asked::Step(9),                           "refused 9 NoJourney"),
];

#[rattlefmt::skip]
static ONE_STEP_LEFT: [(&str, i64); 11] = [
    ("SELECT count(*) FROM meta WHERE version = 2 AND events = 6 AND journeys = 2", 1),
    ("SELECT count(*) FROM stock WHERE kind = 0 AND supplier = 'AL' AND product = 'A1' AND night = 22066 AND allot = 3 AND free = 0", 1),
    ("SELECT count(*) FROM batch WHERE name = 'a' AND num = 3 AND content = x'462f414c2f41312f323033302d30362d30312f31300a'", 1),
    ("SELECT count(*) FROM batch WHERE name = 'b' AND num = 6", 1),
    ("SELECT count(*) FROM journey WHERE id = 1 AND pos = 0 AND phase = 3 AND target = 0 AND used = 1", 1),
    ("SELECT count(*) FROM journey WHERE id = 2 AND pos = 1 AND phase = 2 AND target = 0 AND used = 0", 1),
    ("SELECT count(*) FROM step WHERE taken = (journey = 2)", 2),
    ("SELECT count(*) FROM entry2 WHERE num = 2 AND journey = 1 AND item = 2 AND a = 0 AND b = 1", 1),
    ("SELECT count(*) FROM entry2 WHERE num = 5 AND journey = 2 AND item = 0 AND a = 1 AND b = 1", 1),
    ("SELECT count(*) FROM entry2", 2),
    ("SELECT count(*) FROM entry", 0),
];

#[test]
fn allotments_are_loaded_and_taken(rt: HostRuntime) -> Result<(), Fail> {
    leads_to(&rt, rt.alloc(), &ONE_STEP, &ONE_STEP_LEFT)
}

const TWO: &str = "F/AL/A1/2030-06-01/1/1;R/INN/DBL/2030-06-02/1/1!0";

#[rattlefmt::skip]
static LAST_ROOM: [(Asked, &str); 12] = [
    (Asked::Load("a", &[(A1, 10), ("R/INN/DBL/2030-06-02", 1)]), "loaded a 2"),
    (Asked::Begin(TWO), "journey 1 begun"),
    (Asked::Begin(TWO), "journey 2 begun"),
    (Asked::Step(1),    "journey 1 T1.1 run 1"),
    (Asked::Step(2),    "journey 2 T1.1 run 1"),
    (Asked::Step(1),    "journey 1 T2.1 ended 2"),
    (Asked::Step(2),    "journey 2 B0r back 1 to 0"),
    (Asked::Save(2),    "refused 28 NoSave"),
    (Asked::Stop(2),    "refused 11 NoSavePoint"),
    (Asked::Step(2),    "journey 2 C1.1 undone 0"),
    (Asked::Step(2),    "refused 10 Finished"),
    (Asked::Abort(1, 0), "refused 10 Finished"),
];

#[rattlefmt::skip]
static LAST_ROOM_LEFT: [(&str, i64); 7] = [
    ("SELECT count(*) FROM meta WHERE events = 8 AND journeys = 2", 1),
    ("SELECT count(*) FROM stock WHERE kind = 0 AND allot = 10 AND free = 9", 1),
    ("SELECT count(*) FROM stock WHERE kind = 1 AND night = 22067 AND allot = 1 AND free = 0", 1),
    ("SELECT count(*) FROM step WHERE taken = (journey = 1)", 4),
    ("SELECT count(*) FROM entry2 WHERE num = 7 AND journey = 2 AND item = 2 AND a = 0 AND b = 1", 1),
    ("SELECT count(*) FROM entry2 WHERE num = 8 AND journey = 2 AND item = 1 AND a = 1 AND b = 1", 1),
    ("SELECT count(*) FROM entry2", 5),
];

#[test]
fn the_second_journey_finds_no_room(rt: HostRuntime) -> Result<(), Fail> {
    leads_to(&rt, rt.alloc(), &LAST_ROOM, &LAST_ROOM_LEFT)
}

#[rattlefmt::skip]
static NIGHTS: [(Asked, &str); 3] = [
    (Asked::Load("a", &[
        ("R/INN/DBL/2030-06-01", 1), ("R/INN/DBL/2030-06-02", 1), ("R/INN/DBL/2030-06-03", 1), ("R/INN/DBL/2030-06-04", 1),
        ("R/INN/DBL/2030-06-05", 1), ("R/INN/DBL/2030-06-06", 1), ("R/INN/DBL/2030-06-07", 1), ("R/INN/DBL/2030-06-08", 1),
        ("R/INN/DBL/2030-06-09", 1), ("R/INN/DBL/2030-06-10", 1), ("R/INN/DBL/2030-06-11", 1), ("R/INN/DBL/2030-06-12", 1),
        ("R/INN/DBL/2030-06-13", 1), ("R/INN/DBL/2030-06-14", 1), ("R/INN/DBL/2030-06-15", 1), ("R/INN/DBL/2030-06-16", 1),
        ("R/INN/DBL/2030-06-17", 1), ("R/INN/DBL/2030-06-18", 1), ("R/INN/DBL/2030-06-19", 1), ("R/INN/DBL/2030-06-20", 1),
        ("R/INN/DBL/2030-06-21", 1), ("R/INN/DBL/2030-06-22", 1), ("R/INN/DBL/2030-06-23", 1), ("R/INN/DBL/2030-06-24", 1),
        ("R/INN/DBL/2030-06-25", 1), ("R/INN/DBL/2030-06-26", 1), ("R/INN/DBL/2030-06-27", 1), ("R/INN/DBL/2030-06-28", 1),
        ("R/INN/DBL/2030-06-29", 1), ("R/INN/DBL/2030-06-30", 0)]), "loaded a 30"),
    (Asked::Begin("R/INN/DBL/2030-06-01/30/1!0"), "journey 1 begun"),
    (Asked::Step(1),                              "journey 1 B0r undone 0"),
];

#[rattlefmt::skip]
static NIGHTS_LEFT: [(&str, i64); 3] = [
    ("SELECT count(*) FROM stock WHERE allot = 1 AND free = 1", 29),
    ("SELECT count(*) FROM stock WHERE night = 22095 AND allot = 0 AND free = 0", 1),
    ("SELECT count(*) FROM step WHERE taken = 1", 0),
];

#[test]
fn a_room_without_its_last_night_is_not_taken(rt: HostRuntime) -> Result<(), Fail> {
    leads_to(&rt, rt.alloc(), &NIGHTS, &NIGHTS_LEFT)
}

#[rattlefmt::skip]
static GIVEN_BACK: [(Asked, &str); 7] = [
    (Asked::Load("a", &[(A1, 10)]), "loaded a 1"),
    (Asked::Begin("F/AL/A1/2030-06-01/1/2;T/BUS/X/2030-06-01/1/1!0"), "journey 1 begun"),
    (Asked::Step(1),     "journey 1 T1.1 run 1"),
    (Asked::Begin("F/AL/A1/2030-06-01/1/3!0"), "journey 2 begun"),
    (Asked::Step(2),     "journey 2 T1.1 ended 1"),
    (Asked::Abort(1, 0), "journey 1 B0a back 1 to 0"),
    (Asked::Step(1),     "journey 1 C1.1 undone 0"),
];

#[rattlefmt::skip]
static GIVEN_BACK_LEFT: [(&str, i64); 3] = [
    ("SELECT count(*) FROM stock WHERE allot = 10 AND free = 7", 1),
    ("SELECT count(*) FROM entry2 WHERE num = 6 AND journey = 1 AND item = 2 AND a = 0 AND b = 2", 1),
    ("SELECT count(*) FROM journey WHERE id = 1 AND pos = 0 AND phase = 3 AND target = 0 AND used = 0", 1),
];

#[test]
fn a_compensation_gives_its_count_back(rt: HostRuntime) -> Result<(), Fail> {
    leads_to(&rt, rt.alloc(), &GIVEN_BACK, &GIVEN_BACK_LEFT)
}

const TWO_LEGS: &str = "F/AL/A1/2030-06-01/1/1;T/BUS/X/2030-06-01/1/1!0";

#[rattlefmt::skip]
static ABORTS: [(Asked, &str); 10] = [
    (Asked::Load("a", &[(A1, 10), (BUS, 10)]), "loaded a 2"),
    (Asked::Begin(TWO_LEGS), "journey 1 begun"),
    (Asked::Step(1),         "journey 1 T1.1 run 1"),
    (Asked::Abort(1, 1),     "refused 11 NoSavePoint"),
    (Asked::Abort(1, 0),     "journey 1 B0a back 1 to 0"),
    (Asked::Abort(1, 0),     "refused 11 NoSavePoint"),
    (Asked::Step(1),         "journey 1 C1.1 undone 0"),
    (Asked::Step(1),         "refused 10 Finished"),
    (Asked::Begin(TWO_LEGS), "journey 2 begun"),
    (Asked::Abort(2, 0),     "journey 2 B0a undone 0"),
];

#[rattlefmt::skip]
static ABORTS_LEFT: [(&str, i64); 2] = [
    ("SELECT count(*) FROM stock WHERE allot = 10 AND free = 10", 2),
    ("SELECT count(*) FROM journey WHERE pos = 0 AND phase = 3 AND target = 0 AND used = 0", 2),
];

#[test]
fn a_journey_is_turned_back_to_its_start(rt: HostRuntime) -> Result<(), Fail> {
    leads_to(&rt, rt.alloc(), &ABORTS, &ABORTS_LEFT)
}

const INNS: &[(&str, u32)] = &[
    (A1, 1),
    ("R/INN/A/2030-06-01", 0),
    ("R/INN/B/2030-06-01", 0),
    ("R/INN/C/2030-06-01", 1),
];

#[rattlefmt::skip]
static RETRIES: [(Asked, &str); 11] = [
    (Asked::Load("a", INNS), "loaded a 4"),
    (Asked::Begin("F/AL/A1/2030-06-01/1/1*;R/INN/A/2030-06-01/1/1|R/INN/B/2030-06-01/1/1|R/INN/C/2030-06-01/1/1!1"), "journey 1 begun"),
    (Asked::Step(1), "journey 1 T1.1 run 1"),
    (Asked::Step(1), "journey 1 B1r run 1"),
    (Asked::Step(1), "journey 1 B0r back 1 to 0"),
    (Asked::Step(1), "journey 1 C1.1 undone 0"),
    (Asked::Begin("F/AL/A1/2030-06-01/1/1*;R/INN/A/2030-06-01/1/1|R/INN/B/2030-06-01/1/1|R/INN/C/2030-06-01/1/1!2"), "journey 2 begun"),
    (Asked::Step(2), "journey 2 T1.1 run 1"),
    (Asked::Step(2), "journey 2 B1r run 1"),
    (Asked::Step(2), "journey 2 B1r run 1"),
    (Asked::Step(2), "journey 2 T2.3 ended 2"),
];

#[rattlefmt::skip]
static RETRIES_LEFT: [(&str, i64); 5] = [
    ("SELECT count(*) FROM stock WHERE free = 0", 4),
    ("SELECT count(*) FROM journey WHERE id = 1 AND pos = 0 AND phase = 3 AND used = 2", 1),
    ("SELECT count(*) FROM journey WHERE id = 2 AND pos = 2 AND phase = 2 AND used = 2", 1),
    ("SELECT count(*) FROM step WHERE taken = 1 AND journey = 2 AND (place = 1 OR opt = 3)", 2),
    ("SELECT count(*) FROM step WHERE taken = 1", 2),
];

#[test]
fn options_are_tried_as_often_as_the_plan_says(rt: HostRuntime) -> Result<(), Fail> {
    leads_to(&rt, rt.alloc(), &RETRIES, &RETRIES_LEFT)
}

const SIX: &[(&str, u32)] = &[(A1, 10), (A2, 10), (A3, 10), (A4, 10), (A5, 10), (A6, 10)];

const MARKED: &str =
    "F/AL/A1/2030-06-01/1/1;F/AL/A2/2030-06-01/1/1*;F/AL/A3/2030-06-01/1/1;F/AL/A4/2030-06-01/1/1*;F/AL/A5/2030-06-01/1/1;F/AL/A6/2030-06-01/1/1!0";

#[rattlefmt::skip]
static SAVE_POINTS: [(Asked, &str); 19] = [
    (Asked::Load("a", SIX), "loaded a 6"),
    (Asked::Begin(MARKED),  "journey 1 begun"),
    (Asked::Step(1),        "journey 1 T1.1 run 1"),
    (Asked::Step(1),        "journey 1 T2.1 run 2"),
    (Asked::Abort(1, 1),    "refused 11 NoSavePoint"),
    (Asked::Abort(1, 2),    "journey 1 B2a run 2"),
    (Asked::Step(1),        "journey 1 T3.1 run 3"),
    (Asked::Step(1),        "journey 1 T4.1 run 4"),
    (Asked::Step(1),        "journey 1 T5.1 run 5"),
    (Asked::Abort(1, 4),    "journey 1 B4a back 5 to 4"),
    (Asked::Abort(1, 2),    "journey 1 B2a back 5 to 2"),
    (Asked::Abort(1, 4),    "refused 11 NoSavePoint"),
    (Asked::Step(1),        "journey 1 C5.1 back 4 to 2"),
    (Asked::Step(1),        "journey 1 C4.1 back 3 to 2"),
    (Asked::Step(1),        "journey 1 C3.1 run 2"),
    (Asked::Step(1),        "journey 1 T3.1 run 3"),
    (Asked::Step(1),        "journey 1 T4.1 run 4"),
    (Asked::Step(1),        "journey 1 T5.1 run 5"),
    (Asked::Step(1),        "journey 1 T6.1 ended 6"),
];

#[rattlefmt::skip]
static SAVE_POINTS_LEFT: [(&str, i64); 4] = [
    ("SELECT count(*) FROM stock WHERE allot = 10 AND free = 9", 6),
    ("SELECT count(*) FROM step WHERE taken = 1", 6),
    ("SELECT count(*) FROM entry2", 15),
    ("SELECT count(*) FROM mark", 0),
];

#[test]
fn a_journey_goes_on_from_a_save_point(rt: HostRuntime) -> Result<(), Fail> {
    leads_to(&rt, rt.alloc(), &SAVE_POINTS, &SAVE_POINTS_LEFT)
}

// a stop turns the journey back to its last save-point, and does not change a journey that is going back
#[rattlefmt::skip]
static STOPS: [(Asked, &str); 9] = [
    (Asked::Load("a", SIX), "loaded a 6"),
    (Asked::Begin(MARKED),  "journey 1 begun"),
    (Asked::Step(1),        "journey 1 T1.1 run 1"),
    (Asked::Step(1),        "journey 1 T2.1 run 2"),
    (Asked::Step(1),        "journey 1 T3.1 run 3"),
    (Asked::Step(1),        "journey 1 T4.1 run 4"),
    (Asked::Step(1),        "journey 1 T5.1 run 5"),
    (Asked::Stop(1),        "journey 1 B4s back 5 to 4"),
    (Asked::Stop(1),        "refused 11 NoSavePoint"),
];

#[rattlefmt::skip]
static STOPS_LEFT: [(&str, i64); 2] = [
    ("SELECT count(*) FROM journey WHERE id = 1 AND pos = 5 AND phase = 1 AND target = 4 AND used = 0", 1),
    ("SELECT count(*) FROM entry2 WHERE num = 8 AND journey = 1 AND item = 2 AND a = 4 AND b = 0", 1),
];

#[test]
fn a_stop_turns_back_to_the_last_save_point(rt: HostRuntime) -> Result<(), Fail> {
    leads_to(&rt, rt.alloc(), &STOPS, &STOPS_LEFT)
}

#[rattlefmt::skip]
static BATCHES: [(Asked, &str); 7] = [
    (Asked::Load("b1", &[(A1, 10), (ROOM, 4)]), "loaded b1 2"),
    (Asked::Load("b1", &[(A1, 10), (ROOM, 4)]), "loaded b1 2"),
    (Asked::Load("b1", &[(A1, 11), (ROOM, 4)]), "refused 13 BatchDiffers"),
    (Asked::Begin("R/INN/DBL/2030-06-01/1/2!0"), "journey 1 begun"),
    (Asked::Step(1),                            "journey 1 T1.1 ended 1"),
    (Asked::Load("b2", &[(A1, 12), (ROOM, 1)]), "refused 12 BelowHeld 2"),
    (Asked::Load("b3", &[(A1, 12), (ROOM, 2)]), "loaded b3 2"),
];

#[rattlefmt::skip]
static BATCHES_LEFT: [(&str, i64); 4] = [
    ("SELECT count(*) FROM meta WHERE events = 4 AND journeys = 1", 1),
    ("SELECT count(*) FROM stock WHERE kind = 0 AND allot = 12 AND free = 12", 1),
    ("SELECT count(*) FROM stock WHERE kind = 1 AND allot = 2 AND free = 0", 1),
    ("SELECT count(*) FROM batch WHERE name = 'b2'", 0),
];

#[test]
fn a_batch_is_loaded_whole_or_not(rt: HostRuntime) -> Result<(), Fail> {
    leads_to(&rt, rt.alloc(), &BATCHES, &BATCHES_LEFT)
}

// a run of which some nights have a row; then one that ends at a held place, and one at other places
#[rattlefmt::skip]
static RUNS: [(Asked, &str); 5] = [
    (Asked::Load("a", &[("R/INN/DBL/2030-06-01", 5), ("R/INN/DBL/2030-06-03", 5)]), "loaded a 2"),
    (Asked::Load("b", &[
        ("R/INN/DBL/2030-06-01", 8), ("R/INN/DBL/2030-06-02", 8), ("R/INN/DBL/2030-06-03", 8), ("R/INN/DBL/2030-06-04", 8),
    ]), "loaded b 4"),
    (Asked::Begin("R/INN/DBL/2030-06-02/1/1!0"), "journey 1 begun"),
    (Asked::Step(1), "journey 1 T1.1 ended 1"),
    (Asked::Load("c", &[
        ("R/INN/DBL/2030-06-01", 9), ("R/INN/DBL/2030-06-02", 9), ("R/INN/DBL/2030-06-03", 9), ("R/INN/DBL/2030-06-04", 7),
        ("R/INN/DBL/2030-06-05", 9),
    ]), "loaded c 5"),
];

#[rattlefmt::skip]
static RUNS_LEFT: [(&str, i64); 4] = [
    ("SELECT count(*) FROM stock", 5),
    ("SELECT count(*) FROM stock WHERE night = 22067 AND allot = 9 AND free = 8", 1),
    ("SELECT count(*) FROM stock WHERE night = 22069 AND allot = 7 AND free = 7", 1),
    ("SELECT count(*) FROM stock WHERE allot = 9 AND free = 9", 3),
];

#[test]
fn a_batch_is_loaded_run_by_run(rt: HostRuntime) -> Result<(), Fail> {
    leads_to(&rt, rt.alloc(), &RUNS, &RUNS_LEFT)
}

// nights that are read together: one held among others, in another order, of two products in turn, and too late for one look-up
#[rattlefmt::skip]
static LOOK_UPS: [(Asked, &str); 10] = [
    (Asked::Load("a", &[("R/INN/DBL/2030-06-02", 5), ("R/INN/DBL/2030-08-10", 5), ("R/INN/SGL/2030-06-02", 5)]), "loaded a 3"),
    (Asked::Begin("R/INN/DBL/2030-06-02/1/2!0"), "journey 1 begun"),
    (Asked::Step(1), "journey 1 T1.1 ended 1"),
    (Asked::Begin("R/INN/DBL/2030-08-10/1/3!0"), "journey 2 begun"),
    (Asked::Step(2), "journey 2 T1.1 ended 1"),
    (Asked::Load("b", &[("R/INN/DBL/2030-06-01", 0), ("R/INN/DBL/2030-06-02", 1), ("R/INN/DBL/2030-06-03", 0)]), "refused 12 BelowHeld 2"),
    (Asked::Load("b", &[("R/INN/DBL/2030-06-03", 0), ("R/INN/DBL/2030-06-02", 1)]), "refused 12 BelowHeld 2"),
    (Asked::Load("b", &[("R/INN/DBL/2030-06-01", 0), ("R/INN/SGL/2030-06-01", 0), ("R/INN/DBL/2030-06-02", 1)]), "refused 12 BelowHeld 3"),
    (Asked::Load("b", &[("R/INN/DBL/2030-06-01", 0), ("R/INN/DBL/2030-08-10", 2)]), "refused 12 BelowHeld 2"),
    (Asked::Load("b", &[
        ("R/INN/DBL/2030-06-01", 7), ("R/INN/DBL/2030-06-02", 7), ("R/INN/DBL/2030-06-04", 7), ("R/INN/SGL/2030-06-02", 7),
        ("R/INN/DBL/2030-08-10", 7),
    ]), "loaded b 5"),
];

#[rattlefmt::skip]
static LOOK_UPS_LEFT: [(&str, i64); 4] = [
    ("SELECT count(*) FROM stock", 5),
    ("SELECT count(*) FROM stock WHERE product = 'DBL' AND night = 22067 AND allot = 7 AND free = 5", 1),
    ("SELECT count(*) FROM stock WHERE product = 'DBL' AND night = 22136 AND allot = 7 AND free = 4", 1),
    ("SELECT count(*) FROM stock WHERE allot = 7 AND free = 7", 3),
];

#[test]
fn held_places_are_read_for_consecutive_nights(rt: HostRuntime) -> Result<(), Fail> {
    leads_to(&rt, rt.alloc(), &LOOK_UPS, &LOOK_UPS_LEFT)
}

// journey 2 gives the room back before journey 1 takes it
#[rattlefmt::skip]
static ONE_ROOM: [(Asked, &str); 9] = [
    (Asked::Load("a", &[(A1, 5), (ROOM, 1), (BUS, 5)]), "loaded a 3"),
    (Asked::Begin("F/AL/A1/2030-06-01/1/1*;R/INN/DBL/2030-06-01/1/1!0"), "journey 1 begun"),
    (Asked::Begin("R/INN/DBL/2030-06-01/1/1;T/BUS/X/2030-06-01/1/1!0"),  "journey 2 begun"),
    (Asked::Step(1), "journey 1 T1.1 run 1"),
    (Asked::Step(2), "journey 2 T1.1 run 1"),
    (Asked::Stop(1), "journey 1 B1s run 1"),
    (Asked::Stop(2), "journey 2 B0s back 1 to 0"),
    (Asked::Step(2), "journey 2 C1.1 undone 0"),
    (Asked::Step(1), "journey 1 T2.1 ended 2"),
];

#[rattlefmt::skip]
static ONE_ROOM_LEFT: [(&str, i64); 2] = [
    ("SELECT count(*) FROM stock WHERE free = allot - 1", 2),
    ("SELECT count(*) FROM stock WHERE kind = 2 AND free = 5", 1),
];

#[test]
fn two_journeys_want_one_room(rt: HostRuntime) -> Result<(), Fail> {
    leads_to(&rt, rt.alloc(), &ONE_ROOM, &ONE_ROOM_LEFT)
}

const THREE: &str = "F/AL/A1/2030-06-01/1/1;T/BUS/X/2030-06-01/1/1;R/INN/DBL/2030-06-01/1/1!0";

#[rattlefmt::skip]
static SAVES: [(Asked, &str); 14] = [
    (Asked::Load("a", &[(A1, 10), (BUS, 10), (ROOM, 10)]), "loaded a 3"),
    (Asked::Begin(THREE), "journey 1 begun"),
    (Asked::Save(1),      "refused 28 NoSave"),
    (Asked::Step(1),      "journey 1 T1.1 run 1"),
    (Asked::Save(1),      "journey 1 S1 run 1"),
    (Asked::Save(1),      "refused 28 NoSave"),
    (Asked::Step(1),      "journey 1 T2.1 run 2"),
    (Asked::Save(1),      "journey 1 S2 run 2"),
    (Asked::Abort(1, 1),  "journey 1 B1a back 2 to 1"),
    (Asked::Save(1),      "refused 28 NoSave"),
    (Asked::Step(1),      "journey 1 C2.1 run 1"),
    (Asked::Step(1),      "journey 1 T2.1 run 2"),
    (Asked::Abort(1, 2),  "refused 11 NoSavePoint"),
    (Asked::Stop(1),      "journey 1 B1s back 2 to 1"),
];

#[rattlefmt::skip]
static SAVES_LEFT: [(&str, i64); 4] = [
    ("SELECT count(*) FROM mark WHERE journey = 1 AND pos = 1", 1),
    ("SELECT count(*) FROM mark", 1),
    ("SELECT count(*) FROM entry2 WHERE num = 4 AND journey = 1 AND item = 3 AND a = 1 AND b = 0", 1),
    ("SELECT count(*) FROM journey WHERE pos = 2 AND phase = 1 AND target = 1", 1),
];

#[test]
fn a_save_point_falls_with_its_step(rt: HostRuntime) -> Result<(), Fail> {
    leads_to(&rt, rt.alloc(), &SAVES, &SAVES_LEFT)
}
