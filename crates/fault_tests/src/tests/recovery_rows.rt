//! Values from outside: worked recoveries, as the commands before them and the moves that recovery makes, with the reply
//! of each.
use crate::tests::rows::{FIRST_OF_TWO, ONE_ROOM_CELLS, SECOND_OF_TWO, SIX, SIX_CELLS};
use crate::tests::stories::Line;

/// A worked recovery: all lines, how many come before recovery, and what is left. Then, if worked, after how many of its
/// events a second recovery begins, how many events that makes, and what it leaves.
#[derive(Clone, Copy)]
pub struct RecoveryRow {
    pub lines: &'static [Line],
    pub begun: usize,
    pub left: &'static [&'static str],
    pub again: Option<(usize, u64, &'static str)>,
}

pub fn back_to_the_start() -> RecoveryRow {
    RecoveryRow {
        lines: &BACK_TO_THE_START_LINES,
        begun: 4,
        left: &BACK_TO_THE_START_LEFT,
        again: None,
    }
}

#[rattlefmt::skip]
static BACK_TO_THE_START_LINES: [Line; 7] = [
    ("load a F/AL/A1/2030-06-01 10, T/BUS/X/2030-06-01 10, R/INN/DBL/2030-06-01 10, R/INN/DBL/2030-06-02 10", "loaded a 4"),
    ("begin F/AL/A1/2030-06-01/1/2;T/BUS/X/2030-06-01/1/2;R/INN/DBL/2030-06-01/2/1!0", "journey 1 begun"),
    ("step 1", "journey 1 T1.1 run 1"),
    ("step 1", "journey 1 T2.1 run 2"),
    ("stop 1", "journey 1 B0s back 2 to 0"),
    ("step 1", "journey 1 C2.1 back 1 to 0"),
    ("step 1", "journey 1 C1.1 undone 0"),
];

static BACK_TO_THE_START_LEFT: [&str; 5] = [
    "F/AL/A1/2030-06-01 10 10;",
    "T/BUS/X/2030-06-01 10 10;",
    "R/INN/DBL/2030-06-01 10 10;",
    "R/INN/DBL/2030-06-02 10 10;",
    "1 desk undone 0 T1.1 T2.1 B0s C2.1 C1.1;",
];

pub fn six_steps() -> RecoveryRow {
    RecoveryRow {
        lines: &SIX_STEPS_LINES,
        begun: 4,
        left: &SIX_STEPS_LEFT,
        again: Some((6, 6, SIX_STEPS_AGAIN)),
    }
}

#[rattlefmt::skip]
static SIX_STEPS_LINES: [Line; 11] = [
    (SIX_CELLS, "loaded a 6"),
    (SIX,       "journey 1 begun"),
    ("step 1",  "journey 1 T1.1 run 1"),
    ("step 1",  "journey 1 T2.1 run 2"),
    ("stop 1",  "journey 1 B1s back 2 to 1"),
    ("step 1",  "journey 1 C2.1 run 1"),
    ("step 1",  "journey 1 T2.1 run 2"),
    ("step 1",  "journey 1 T3.1 run 3"),
    ("step 1",  "journey 1 T4.1 run 4"),
    ("step 1",  "journey 1 T5.1 run 5"),
    ("step 1",  "journey 1 T6.1 ended 6"),
];

static SIX_STEPS_LEFT: [&str; 1] = ["1 desk ended 6 T1.1 T2.1 B1s C2.1 T2.1 T3.1 T4.1 T5.1 T6.1;"];

const SIX_STEPS_AGAIN: &str =
    "1 desk ended 6 T1.1 T2.1 B1s C2.1 T2.1 T3.1 T4.1 T5.1 B3s C5.1 C4.1 T4.1 T5.1 T6.1;";

pub fn kept_target() -> RecoveryRow {
    RecoveryRow {
        lines: &KEPT_TARGET_LINES,
        begun: 9,
        left: &KEPT_TARGET_LEFT,
        again: None,
    }
}

const MARKED_2_4: &str =
    "begin F/AL/A1/2030-06-01/1/1;F/AL/A2/2030-06-01/1/1*;F/AL/A3/2030-06-01/1/1;\
     F/AL/A4/2030-06-01/1/1*;F/AL/A5/2030-06-01/1/1;F/AL/A6/2030-06-01/1/1!0";

#[rattlefmt::skip]
static KEPT_TARGET_LINES: [Line; 15] = [
    (SIX_CELLS,   "loaded a 6"),
    (MARKED_2_4,  "journey 1 begun"),
    ("step 1",    "journey 1 T1.1 run 1"),
    ("step 1",    "journey 1 T2.1 run 2"),
    ("step 1",    "journey 1 T3.1 run 3"),
    ("step 1",    "journey 1 T4.1 run 4"),
    ("step 1",    "journey 1 T5.1 run 5"),
    ("abort 1 2", "journey 1 B2a back 5 to 2"),
    ("step 1",    "journey 1 C5.1 back 4 to 2"),
    ("step 1",    "journey 1 C4.1 back 3 to 2"),
    ("step 1",    "journey 1 C3.1 run 2"),
    ("step 1",    "journey 1 T3.1 run 3"),
    ("step 1",    "journey 1 T4.1 run 4"),
    ("step 1",    "journey 1 T5.1 run 5"),
    ("step 1",    "journey 1 T6.1 ended 6"),
];

static KEPT_TARGET_LEFT: [&str; 1] = [
    "1 desk ended 6 T1.1 T2.1 T3.1 T4.1 T5.1 B2a C5.1 C4.1 C3.1 T3.1 T4.1 T5.1 T6.1;",
];

pub fn two_journeys() -> RecoveryRow {
    RecoveryRow {
        lines: &TWO_JOURNEYS_LINES,
        begun: 5,
        left: &TWO_JOURNEYS_LEFT,
        again: None,
    }
}

#[rattlefmt::skip]
static TWO_JOURNEYS_LINES: [Line; 9] = [
    (ONE_ROOM_CELLS, "loaded a 3"),
    (FIRST_OF_TWO,   "journey 1 begun"),
    (SECOND_OF_TWO,  "journey 2 begun"),
    ("step 1",       "journey 1 T1.1 run 1"),
    ("step 2",       "journey 2 T1.1 run 1"),
    ("stop 1",       "journey 1 B1s run 1"),
    ("stop 2",       "journey 2 B0s back 1 to 0"),
    ("step 2",       "journey 2 C1.1 undone 0"),
    ("step 1",       "journey 1 T2.1 ended 2"),
];

static TWO_JOURNEYS_LEFT: [&str; 2] = [
    "1 desk ended 2 T1.1 B1s T2.1;",
    "2 desk undone 0 T1.1 B0s C1.1;",
];

pub fn saved() -> RecoveryRow {
    RecoveryRow {
        lines: &SAVED_LINES,
        begun: 5,
        left: &SAVED_LEFT,
        again: None,
    }
}

#[rattlefmt::skip]
static SAVED_LINES: [Line; 9] = [
    ("load a F/AL/A1/2030-06-01 10, T/BUS/X/2030-06-01 10, R/INN/DBL/2030-06-01 10", "loaded a 3"),
    ("begin F/AL/A1/2030-06-01/1/1;T/BUS/X/2030-06-01/1/1;R/INN/DBL/2030-06-01/1/1!0", "journey 1 begun"),
    ("step 1", "journey 1 T1.1 run 1"),
    ("save 1", "journey 1 S1 run 1"),
    ("step 1", "journey 1 T2.1 run 2"),
    ("stop 1", "journey 1 B1s back 2 to 1"),
    ("step 1", "journey 1 C2.1 run 1"),
    ("step 1", "journey 1 T2.1 run 2"),
    ("step 1", "journey 1 T3.1 ended 3"),
];

static SAVED_LEFT: [&str; 1] = ["1 desk ended 3 T1.1 S1 T2.1 B1s C2.1 T2.1 T3.1;"];
