//! Worked rows, each on a new desk: a line, and the expected answer.
use crate::tests::lines::answers;
use std::test::Fail;

#[rattlefmt::skip]
const LOAD_AND_STEP: [(&str, &str); 14] = [
    ("begin @1/1/1!0",  "journey 1 begun"),
    ("step 1",          "journey 1 B0r undone 0"),
    ("step 1",          "refused 10 Finished"),
    ("load a @1 10",    "loaded a 1"),
    ("load a @1 10",    "loaded a 1"),
    ("load a @1 11",    "refused 13 BatchDiffers"),
    ("begin @1/1/3!0",  "journey 2 begun"),
    ("step 2",          "journey 2 T1.1 ended 1"),
    ("stock",           "F/AL/A1/2030-06-01 10 7"),
    ("load b @1 2",     "refused 12 BelowHeld 1"),
    ("load a @1 2",     "refused 13 BatchDiffers"),
    ("load b @1 3",     "loaded b 1"),
    ("free @1",         "0"),
    ("step 9",          "refused 9 NoJourney"),
];

#[test]
fn allotments_are_loaded_and_taken(rt: HostRuntime) -> Result<(), Fail> {
    answers(&rt, rt.alloc(), &LOAD_AND_STEP)
}

#[rattlefmt::skip]
const NO_JOURNEYS: [(&str, &str); 7] = [
    ("step 7",       "refused 9 NoJourney"),
    ("step 0",       "refused 9 NoJourney"),
    ("abort 7 0",    "refused 9 NoJourney"),
    ("stop 7",       "refused 9 NoJourney"),
    ("save 7",       "refused 9 NoJourney"),
    ("items 7",      ""),
    ("unfinished 0", "none"),
];

#[test]
fn a_new_desk_has_no_journey(rt: HostRuntime) -> Result<(), Fail> {
    answers(&rt, rt.alloc(), &NO_JOURNEYS)
}

#[rattlefmt::skip]
const NOTHING_LOADED: [(&str, &str); 2] = [
    ("cells @1/1/1", ""),
    ("stock",        ""),
];

#[test]
fn nothing_is_allotted(rt: HostRuntime) -> Result<(), Fail> {
    answers(&rt, rt.alloc(), &NOTHING_LOADED)
}

#[rattlefmt::skip]
const UNFINISHED: [(&str, &str); 15] = [
    ("unfinished 0",   "none"),
    ("owned desk 0 9", ""),
    ("count all",      "0 0 0"),
    ("begin @1/1/1!0", "journey 1 begun"),
    ("begin @1/1/1!0", "journey 2 begun"),
    ("unfinished 0",   "1 desk run 0"),
    ("unfinished 1",   "2 desk run 0"),
    ("unfinished 2",   "none"),
    ("owned desk 0 0", ""),
    ("owned desk 0 1", "1 desk run 0"),
    ("owned desk 0 2", "1 desk run 0, 2 desk run 0"),
    ("owned desk 1 9", "2 desk run 0"),
    ("owned desk 2 9", ""),
    ("owned ann 0 9",  ""),
    ("count all",      "2 2 2"),
];

#[test]
fn unfinished_journeys_come_by_their_numbers(rt: HostRuntime) -> Result<(), Fail> {
    answers(&rt, rt.alloc(), &UNFINISHED)
}

#[rattlefmt::skip]
const ONE_STEP: [(&str, &str); 6] = [
    ("load a @1 10",   "loaded a 1"),
    ("begin @1/1/1!0", "journey 1 begun"),
    ("step 1",         "journey 1 T1.1 ended 1"),
    ("stock",          "F/AL/A1/2030-06-01 10 9"),
    ("abort 1 0",      "refused 10 Finished"),
    ("abort 1 1",      "refused 10 Finished"),
];

#[test]
fn a_journey_of_one_step_ends(rt: HostRuntime) -> Result<(), Fail> {
    answers(&rt, rt.alloc(), &ONE_STEP)
}

#[rattlefmt::skip]
const TWO_ROOMS: [(&str, &str); 18] = [
    ("load a @1 10, @E 1",        "loaded a 2"),
    ("begin @1/1/1;@E/1/1!0",     "journey 1 begun"),
    ("begin @1/1/1;@E/1/1!0",     "journey 2 begun"),
    ("step 1",                    "journey 1 T1.1 run 1"),
    ("step 2",                    "journey 2 T1.1 run 1"),
    ("unfinished 0",              "1 desk run 1"),
    ("step 1",                    "journey 1 T2.1 ended 2"),
    ("unfinished 0",              "2 desk run 1"),
    ("owned desk 0 1",            "1 desk ended 2"),
    ("count all",                 "6 2 1"),
    ("step 2",                    "journey 2 B0r back 1 to 0"),
    ("unfinished 1",              "2 desk back 1 to 0"),
    ("step 2",                    "journey 2 C1.1 undone 0"),
    ("owned desk 0 9",            "1 desk ended 2, 2 desk undone 0"),
    ("count all",                 "8 2 0"),
    ("items 1",                   "T1.1 T2.1"),
    ("items 2",                   "T1.1 B0r C1.1"),
    ("free @1",                   "9"),
];

#[test]
fn the_second_journey_finds_no_room(rt: HostRuntime) -> Result<(), Fail> {
    answers(&rt, rt.alloc(), &TWO_ROOMS)
}

// a compensation gives back what was taken, and not the places that were free before it
#[rattlefmt::skip]
const GIVEN_BACK: [(&str, &str); 10] = [
    ("load a @1 10",           "loaded a 1"),
    ("begin @1/1/2;@X/1/1!0",  "journey 1 begun"),
    ("step 1",                 "journey 1 T1.1 run 1"),
    ("free @1",                "8"),
    ("begin @1/1/3!0",         "journey 2 begun"),
    ("step 2",                 "journey 2 T1.1 ended 1"),
    ("free @1",                "5"),
    ("abort 1 0",              "journey 1 B0a back 1 to 0"),
    ("step 1",                 "journey 1 C1.1 undone 0"),
    ("free @1",                "7"),
];

#[test]
fn a_compensation_gives_its_count_back(rt: HostRuntime) -> Result<(), Fail> {
    answers(&rt, rt.alloc(), &GIVEN_BACK)
}

#[rattlefmt::skip]
const ABORTS: [(&str, &str); 11] = [
    ("load a @1 10, @X 10",    "loaded a 2"),
    ("begin @1/1/1;@X/1/1!0",  "journey 1 begun"),
    ("step 1",                 "journey 1 T1.1 run 1"),
    ("abort 1 1",              "refused 11 NoSavePoint"),
    ("abort 1 0",              "journey 1 B0a back 1 to 0"),
    ("abort 1 0",              "refused 11 NoSavePoint"),
    ("stop 1",                 "refused 11 NoSavePoint"),
    ("step 1",                 "journey 1 C1.1 undone 0"),
    ("step 1",                 "refused 10 Finished"),
    ("begin @1/1/1;@X/1/1!0",  "journey 2 begun"),
    ("abort 2 0",              "journey 2 B0a undone 0"),
];

#[test]
fn a_journey_is_turned_back_to_its_start(rt: HostRuntime) -> Result<(), Fail> {
    answers(&rt, rt.alloc(), &ABORTS)
}

#[rattlefmt::skip]
const RETRIES: [(&str, &str); 7] = [
    ("load a @1 1, @A 0, @B 0, @C 1",           "loaded a 4"),
    ("begin @1/1/1*;@A/1/1|@B/1/1|@C/1/1!2",    "journey 1 begun"),
    ("step 1",                                  "journey 1 T1.1 run 1"),
    ("step 1",                                  "journey 1 B1r run 1"),
    ("step 1",                                  "journey 1 B1r run 1"),
    ("step 1",                                  "journey 1 T2.3 ended 2"),
    ("free @C",                                 "0"),
];

#[test]
fn the_third_option_is_taken_after_two_refusals(rt: HostRuntime) -> Result<(), Fail> {
    answers(&rt, rt.alloc(), &RETRIES)
}

#[rattlefmt::skip]
const ONE_TRY: [(&str, &str); 7] = [
    ("load a @1 1, @A 0, @B 0, @C 1",           "loaded a 4"),
    ("begin @1/1/1*;@A/1/1|@B/1/1|@C/1/1!1",    "journey 1 begun"),
    ("step 1",                                  "journey 1 T1.1 run 1"),
    ("step 1",                                  "journey 1 B1r run 1"),
    ("step 1",                                  "journey 1 B0r back 1 to 0"),
    ("step 1",                                  "journey 1 C1.1 undone 0"),
    ("free @1",                                 "1"),
];

#[test]
fn a_journey_is_undone_once_its_tries_are_used_up(rt: HostRuntime) -> Result<(), Fail> {
    answers(&rt, rt.alloc(), &ONE_TRY)
}

// the compensation of the step gives back the option that was taken
#[rattlefmt::skip]
const SECOND_OPTION: [(&str, &str); 9] = [
    ("load a @1 1, @A 0, @B 1, @Z 0",            "loaded a 4"),
    ("begin @1/1/1*;@A/1/1|@B/1/1;@Z/1/1!1",     "journey 1 begun"),
    ("step 1",                                   "journey 1 T1.1 run 1"),
    ("step 1",                                   "journey 1 B1r run 1"),
    ("step 1",                                   "journey 1 T2.2 run 2"),
    ("step 1",                                   "journey 1 B0r back 2 to 0"),
    ("step 1",                                   "journey 1 C2.2 back 1 to 0"),
    ("step 1",                                   "journey 1 C1.1 undone 0"),
    ("stock", "F/AL/A1/2030-06-01 1 1, R/INN/A/2030-06-01 0 0, R/INN/B/2030-06-01 1 1, R/INN/X/2030-06-01 0 0"),
];

#[test]
fn the_option_that_was_taken_is_given_back(rt: HostRuntime) -> Result<(), Fail> {
    answers(&rt, rt.alloc(), &SECOND_OPTION)
}

#[rattlefmt::skip]
const UNMARKED_STOPS: [(&str, &str); 12] = [
    ("load a @1 10, @X 10, @D 10, @E 10",  "loaded a 4"),
    ("begin @1/1/2;@X/1/2;@D/2/1!0",       "journey 1 begun"),
    ("step 1",                             "journey 1 T1.1 run 1"),
    ("step 1",                             "journey 1 T2.1 run 2"),
    ("stop 1",                             "journey 1 B0s back 2 to 0"),
    ("step 1",                             "journey 1 C2.1 back 1 to 0"),
    ("step 1",                             "journey 1 C1.1 undone 0"),
    ("items 1",                            "T1.1 T2.1 B0s C2.1 C1.1"),
    ("stock", "F/AL/A1/2030-06-01 10 10, R/INN/DBL/2030-06-01 10 10, R/INN/DBL/2030-06-02 10 10, \
        T/BUS/X/2030-06-01 10 10"),
    ("begin @1/1/1!0",                     "journey 2 begun"),
    ("stop 2",                             "journey 2 B0s undone 0"),
    ("items 2",                            "B0s"),
];

#[test]
fn a_stop_undoes_a_journey_without_save_points(rt: HostRuntime) -> Result<(), Fail> {
    answers(&rt, rt.alloc(), &UNMARKED_STOPS)
}

#[rattlefmt::skip]
const TWO_ROW_BATCHES: [(&str, &str); 9] = [
    ("load b1 @1 10, @D 4",   "loaded b1 2"),
    ("load b1 @1 10, @D 4",   "loaded b1 2"),
    ("load b1 @1 11, @D 4",   "refused 13 BatchDiffers"),
    ("load b1 @D 4, @1 10",   "refused 13 BatchDiffers"),
    ("begin @D/1/2!0",        "journey 1 begun"),
    ("step 1",                "journey 1 T1.1 ended 1"),
    ("load b2 @1 12, @D 1",   "refused 12 BelowHeld 2"),
    ("stock", "F/AL/A1/2030-06-01 10 10, R/INN/DBL/2030-06-01 4 2"),
    ("load b2 @1 12, @D 2",   "loaded b2 2"),
];

#[test]
fn a_batch_is_loaded_whole_or_not(rt: HostRuntime) -> Result<(), Fail> {
    answers(&rt, rt.alloc(), &TWO_ROW_BATCHES)
}

// journey 2 gives the room back before journey 1 takes it
#[rattlefmt::skip]
const RECOVERED: [(&str, &str); 11] = [
    ("load a @1 5, @Y 5, @Z 1",   "loaded a 3"),
    ("begin @1/1/1*;@Z/1/1!0",    "journey 1 begun"),
    ("begin @Z/1/1;@Y/1/1!0",     "journey 2 begun"),
    ("step 1",                    "journey 1 T1.1 run 1"),
    ("step 2",                    "journey 2 T1.1 run 1"),
    ("stop 1",                    "journey 1 B1s run 1"),
    ("stop 2",                    "journey 2 B0s back 1 to 0"),
    ("step 2",                    "journey 2 C1.1 undone 0"),
    ("step 1",                    "journey 1 T2.1 ended 2"),
    ("items 1",                   "T1.1 B1s T2.1"),
    ("items 2",                   "T1.1 B0s C1.1"),
];

#[test]
fn two_journeys_want_one_room(rt: HostRuntime) -> Result<(), Fail> {
    answers(&rt, rt.alloc(), &RECOVERED)
}

// the nights of a want, without those that have no allotment
#[rattlefmt::skip]
const NIGHTS: [(&str, &str); 5] = [
    ("load a @D 4, R/INN/DBL/2030-06-03 2", "loaded a 2"),
    ("begin @D/1/3!0",                      "journey 1 begun"),
    ("step 1",                              "journey 1 T1.1 ended 1"),
    ("cells @D/3/1",                        "2030-06-01 4 1, 2030-06-03 2 2"),
    ("cells @X/1/1",                        ""),
];

#[test]
fn the_nights_of_a_want_are_shown(rt: HostRuntime) -> Result<(), Fail> {
    answers(&rt, rt.alloc(), &NIGHTS)
}

// kind, supplier, product in byte order, night
#[rattlefmt::skip]
const IN_ORDER: [(&str, &str); 2] = [
    ("load a C/CO/P/2030-06-01 1, R/INN/A10/2030-06-01 2, R/INN/A/2030-06-02 3, R/INN/A/2030-06-01 4, \
        R/B/Z/2030-06-01 5, F/Z/Z/2030-06-01 6, T/A/A/2030-06-01 7, R/INN/9/2030-06-01 8", "loaded a 8"),
    ("stock", "F/Z/Z/2030-06-01 6 6, R/B/Z/2030-06-01 5 5, R/INN/9/2030-06-01 8 8, R/INN/A/2030-06-01 4 4, \
        R/INN/A/2030-06-02 3 3, R/INN/A10/2030-06-01 2 2, T/A/A/2030-06-01 7 7, C/CO/P/2030-06-01 1 1"),
];

#[test]
fn cells_are_shown_in_their_order(rt: HostRuntime) -> Result<(), Fail> {
    answers(&rt, rt.alloc(), &IN_ORDER)
}

#[test]
fn a_room_without_its_last_night_is_not_taken(rt: HostRuntime) -> Result<(), Fail> {
    let alloc = rt.alloc();
    let mut load = String::from_str(alloc, "load a ")?;
    for night in 1..30u8 {
        write!(load, "R/INN/DBL/2030-06-{night:02} 1, ")?;
    }
    load.push_str("R/INN/DBL/2030-06-30 0")?;
    let rows = [
        (load.as_str(), "loaded a 30"),
        ("begin @D/30/1!0", "journey 1 begun"),
        ("step 1", "journey 1 B0r undone 0"),
        ("free R/INN/DBL/2030-06-01", "1"),
        ("free R/INN/DBL/2030-06-29", "1"),
        ("free R/INN/DBL/2030-06-30", "0"),
    ];
    answers(&rt, alloc, &rows)
}
