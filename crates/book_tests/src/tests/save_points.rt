//! Worked rows of journeys with save-points, each on a new desk: a line, and the expected answer.
use crate::tests::lines::answers;
use std::test::Fail;

const SIX: &str = "load a @1 10, @2 10, @3 10, @4 10, @5 10, @6 10";

const MARKED: &str = "begin @1/1/1;@2/1/1*;@3/1/1;@4/1/1*;@5/1/1;@6/1/1!0";

#[rattlefmt::skip]
const SAVE_POINTS: [(&str, &str); 18] = [
    (SIX,          "loaded a 6"),
    (MARKED,       "journey 1 begun"),
    ("step 1",     "journey 1 T1.1 run 1"),
    ("step 1",     "journey 1 T2.1 run 2"),
    ("abort 1 1",  "refused 11 NoSavePoint"),
    ("step 1",     "journey 1 T3.1 run 3"),
    ("step 1",     "journey 1 T4.1 run 4"),
    ("step 1",     "journey 1 T5.1 run 5"),
    ("abort 1 2",  "journey 1 B2a back 5 to 2"),
    ("step 1",     "journey 1 C5.1 back 4 to 2"),
    ("stop 1",     "refused 11 NoSavePoint"),
    ("step 1",     "journey 1 C4.1 back 3 to 2"),
    ("step 1",     "journey 1 C3.1 run 2"),
    ("step 1",     "journey 1 T3.1 run 3"),
    ("step 1",     "journey 1 T4.1 run 4"),
    ("step 1",     "journey 1 T5.1 run 5"),
    ("step 1",     "journey 1 T6.1 ended 6"),
    ("items 1",    "T1.1 T2.1 T3.1 T4.1 T5.1 B2a C5.1 C4.1 C3.1 T3.1 T4.1 T5.1 T6.1"),
];

#[test]
fn a_journey_goes_on_from_a_save_point(rt: HostRuntime) -> Result<(), Fail> {
    answers(&rt, rt.alloc(), &SAVE_POINTS)
}

#[rattlefmt::skip]
const LOWER_TARGETS: [(&str, &str); 17] = [
    (SIX,          "loaded a 6"),
    (MARKED,       "journey 1 begun"),
    ("step 1",     "journey 1 T1.1 run 1"),
    ("step 1",     "journey 1 T2.1 run 2"),
    ("step 1",     "journey 1 T3.1 run 3"),
    ("step 1",     "journey 1 T4.1 run 4"),
    ("step 1",     "journey 1 T5.1 run 5"),
    ("abort 1 4",  "journey 1 B4a back 5 to 4"),
    ("abort 1 2",  "journey 1 B2a back 5 to 2"),
    ("abort 1 4",  "refused 11 NoSavePoint"),
    ("step 1",     "journey 1 C5.1 back 4 to 2"),
    ("abort 1 0",  "journey 1 B0a back 4 to 0"),
    (MARKED,       "journey 2 begun"),
    ("step 2",     "journey 2 T1.1 run 1"),
    ("step 2",     "journey 2 T2.1 run 2"),
    ("abort 2 2",  "journey 2 B2a run 2"),
    ("step 2",     "journey 2 T3.1 run 3"),
];

#[test]
fn a_journey_going_back_is_sent_further_down_alone(rt: HostRuntime) -> Result<(), Fail> {
    answers(&rt, rt.alloc(), &LOWER_TARGETS)
}

// two stops, as recovery turns the journey back and goes on
#[rattlefmt::skip]
const STOPS: [(&str, &str); 18] = [
    (SIX,                                                       "loaded a 6"),
    ("begin @1/1/1*;@2/1/1;@3/1/1*;@4/1/1;@5/1/1;@6/1/1!0",     "journey 1 begun"),
    ("step 1",                                                  "journey 1 T1.1 run 1"),
    ("step 1",                                                  "journey 1 T2.1 run 2"),
    ("stop 1",                                                  "journey 1 B1s back 2 to 1"),
    ("step 1",                                                  "journey 1 C2.1 run 1"),
    ("step 1",                                                  "journey 1 T2.1 run 2"),
    ("step 1",                                                  "journey 1 T3.1 run 3"),
    ("step 1",                                                  "journey 1 T4.1 run 4"),
    ("step 1",                                                  "journey 1 T5.1 run 5"),
    ("stop 1",                                                  "journey 1 B3s back 5 to 3"),
    ("step 1",                                                  "journey 1 C5.1 back 4 to 3"),
    ("step 1",                                                  "journey 1 C4.1 run 3"),
    ("step 1",                                                  "journey 1 T4.1 run 4"),
    ("step 1",                                                  "journey 1 T5.1 run 5"),
    ("step 1",                                                  "journey 1 T6.1 ended 6"),
    ("stop 1",                                                  "refused 10 Finished"),
    ("items 1", "T1.1 T2.1 B1s C2.1 T2.1 T3.1 T4.1 T5.1 B3s C5.1 C4.1 T4.1 T5.1 T6.1"),
];

#[test]
fn a_stop_turns_back_to_the_last_save_point(rt: HostRuntime) -> Result<(), Fail> {
    answers(&rt, rt.alloc(), &STOPS)
}

const THREE: &str = "begin @1/1/1;@X/1/1;@D/1/1!0";

#[rattlefmt::skip]
const SAVES: [(&str, &str); 13] = [
    ("load a @1 10, @X 10, @D 10",  "loaded a 3"),
    (THREE,                         "journey 1 begun"),
    ("save 1",                      "refused 28 NoSave"),
    ("step 1",                      "journey 1 T1.1 run 1"),
    ("save 1",                      "journey 1 S1 run 1"),
    ("save 1",                      "refused 28 NoSave"),
    ("step 1",                      "journey 1 T2.1 run 2"),
    ("stop 1",                      "journey 1 B1s back 2 to 1"),
    ("step 1",                      "journey 1 C2.1 run 1"),
    ("step 1",                      "journey 1 T2.1 run 2"),
    ("step 1",                      "journey 1 T3.1 ended 3"),
    ("items 1",                     "T1.1 S1 T2.1 B1s C2.1 T2.1 T3.1"),
    ("save 1",                      "refused 10 Finished"),
];

#[test]
fn a_save_point_is_taken_once(rt: HostRuntime) -> Result<(), Fail> {
    answers(&rt, rt.alloc(), &SAVES)
}

// the compensation of a step discards the save-point after it
#[rattlefmt::skip]
const SAVES_FALL: [(&str, &str); 13] = [
    ("load a @1 10, @X 10, @D 10",  "loaded a 3"),
    (THREE,                         "journey 1 begun"),
    ("step 1",                      "journey 1 T1.1 run 1"),
    ("save 1",                      "journey 1 S1 run 1"),
    ("step 1",                      "journey 1 T2.1 run 2"),
    ("save 1",                      "journey 1 S2 run 2"),
    ("abort 1 1",                   "journey 1 B1a back 2 to 1"),
    ("save 1",                      "refused 28 NoSave"),
    ("step 1",                      "journey 1 C2.1 run 1"),
    ("step 1",                      "journey 1 T2.1 run 2"),
    ("abort 1 2",                   "refused 11 NoSavePoint"),
    ("save 1",                      "journey 1 S2 run 2"),
    ("abort 1 2",                   "journey 1 B2a run 2"),
];

#[test]
fn a_save_point_falls_with_its_step(rt: HostRuntime) -> Result<(), Fail> {
    answers(&rt, rt.alloc(), &SAVES_FALL)
}
