//! Values from outside: worked rows of the desk, each from a new desk on, as commands with their replies, and texts of
//! what the desk shows in the end.
use crate::tests::stories::Line;

/// A worked row: its lines, how many come before the files are closed and opened again, and what is left.
#[derive(Clone, Copy)]
pub struct Row {
    pub lines: &'static [Line],
    pub begun: usize,
    pub left: &'static [&'static str],
}

pub fn last_room() -> Row {
    Row {
        lines: &LAST_ROOM_LINES,
        begun: 4,
        left: &LAST_ROOM_LEFT,
    }
}

#[rattlefmt::skip]
static LAST_ROOM_LINES: [Line; 13] = [
    ("load a F/AL/A1/2030-06-01 10, R/INN/DBL/2030-06-02 1",    "loaded a 2"),
    ("begin F/AL/A1/2030-06-01/1/1;R/INN/DBL/2030-06-02/1/1!0", "journey 1 begun"),
    ("begin F/AL/A1/2030-06-01/1/1;R/INN/DBL/2030-06-02/1/1!0", "journey 2 begun"),
    ("step 1", "journey 1 T1.1 run 1"),
    ("save 1", "journey 1 S1 run 1"),
    ("save 1", "refused 28 NoSave"),
    ("step 2", "journey 2 T1.1 run 1"),
    ("step 1", "journey 1 T2.1 ended 2"),
    ("step 2", "journey 2 B0r back 1 to 0"),
    ("save 2", "refused 28 NoSave"),
    ("step 2", "journey 2 C1.1 undone 0"),
    ("save 1", "refused 10 Finished"),
    ("step 9", "refused 9 NoJourney"),
];

static LAST_ROOM_LEFT: [&str; 4] = [
    "F/AL/A1/2030-06-01 10 9;",
    "R/INN/DBL/2030-06-02 1 0;",
    "1 desk ended 2 T1.1 S1 T2.1;",
    "2 desk undone 0 T1.1 B0r C1.1;",
];

pub fn batches() -> Row {
    Row {
        lines: &BATCHES_LINES,
        begun: 3,
        left: &BATCHES_LEFT,
    }
}

#[rattlefmt::skip]
static BATCHES_LINES: [Line; 9] = [
    ("load b1 F/AL/A1/2030-06-01 10, R/INN/DBL/2030-06-01 4", "loaded b1 2"),
    ("load b1 F/AL/A1/2030-06-01 10, R/INN/DBL/2030-06-01 4", "loaded b1 2"),
    ("load b1 F/AL/A1/2030-06-01 11, R/INN/DBL/2030-06-01 4", "refused 13 BatchDiffers"),
    ("begin R/INN/DBL/2030-06-01/1/2!0",                      "journey 1 begun"),
    ("step 1",                                                "journey 1 T1.1 ended 1"),
    ("load b2 F/AL/A1/2030-06-01 12, R/INN/DBL/2030-06-01 1", "refused 12 BelowHeld 2"),
    ("save 1",                                                "refused 10 Finished"),
    ("load b3 F/AL/A1/2030-06-01 12, R/INN/DBL/2030-06-01 2", "loaded b3 2"),
    ("load b4 F/AL/A1/2030-06-01 9, T/BUS/X/2030-06-01 7",    "loaded b4 2"),
];

static BATCHES_LEFT: [&str; 4] = [
    "F/AL/A1/2030-06-01 9 9;",
    "R/INN/DBL/2030-06-01 2 0;",
    "T/BUS/X/2030-06-01 7 7;",
    "1 desk ended 1 T1.1;",
];

pub fn saves() -> Row {
    Row {
        lines: &SAVES_LINES,
        begun: 2,
        left: &SAVES_LEFT,
    }
}

#[rattlefmt::skip]
static SAVES_LINES: [Line; 14] = [
    ("load a F/AL/A1/2030-06-01 10, T/BUS/X/2030-06-01 10, R/INN/DBL/2030-06-01 10", "loaded a 3"),
    ("begin F/AL/A1/2030-06-01/1/1;T/BUS/X/2030-06-01/1/1;R/INN/DBL/2030-06-01/1/1!0", "journey 1 begun"),
    ("save 1",    "refused 28 NoSave"),
    ("step 1",    "journey 1 T1.1 run 1"),
    ("save 1",    "journey 1 S1 run 1"),
    ("save 1",    "refused 28 NoSave"),
    ("step 1",    "journey 1 T2.1 run 2"),
    ("save 1",    "journey 1 S2 run 2"),
    ("abort 1 1", "journey 1 B1a back 2 to 1"),
    ("save 1",    "refused 28 NoSave"),
    ("step 1",    "journey 1 C2.1 run 1"),
    ("step 1",    "journey 1 T2.1 run 2"),
    ("abort 1 2", "refused 11 NoSavePoint"),
    ("save 1",    "journey 1 S2 run 2"),
];

static SAVES_LEFT: [&str; 4] = [
    "F/AL/A1/2030-06-01 10 9;",
    "T/BUS/X/2030-06-01 10 9;",
    "R/INN/DBL/2030-06-01 10 10;",
    "1 desk run 2 T1.1 S1 T2.1 S2 B1a C2.1 T2.1 S2;",
];

/// A journey of six steps, with the moves that two recoveries make.
pub fn six_steps() -> Row {
    Row {
        lines: &SIX_STEPS_LINES,
        begun: 4,
        left: &SIX_STEPS_LEFT,
    }
}

#[rattlefmt::skip]
static SIX_STEPS_LINES: [Line; 18] = [
    (SIX_CELLS, "loaded a 6"),
    (SIX,       "journey 1 begun"),
    ("step 1",  "journey 1 T1.1 run 1"),
    ("step 1",  "journey 1 T2.1 run 2"),
    ("stop 1",  "journey 1 B1s back 2 to 1"),
    ("step 1",  "journey 1 C2.1 run 1"),
    ("save 1",  "refused 28 NoSave"),
    ("step 1",  "journey 1 T2.1 run 2"),
    ("step 1",  "journey 1 T3.1 run 3"),
    ("step 1",  "journey 1 T4.1 run 4"),
    ("step 1",  "journey 1 T5.1 run 5"),
    ("stop 1",  "journey 1 B3s back 5 to 3"),
    ("step 1",  "journey 1 C5.1 back 4 to 3"),
    ("step 1",  "journey 1 C4.1 run 3"),
    ("step 1",  "journey 1 T4.1 run 4"),
    ("step 1",  "journey 1 T5.1 run 5"),
    ("save 1",  "journey 1 S5 run 5"),
    ("step 1",  "journey 1 T6.1 ended 6"),
];

static SIX_STEPS_LEFT: [&str; 3] = [
    "F/AL/A1/2030-06-01 10 9;",
    "F/AL/A6/2030-06-01 10 9;",
    "1 desk ended 6 T1.1 T2.1 B1s C2.1 T2.1 T3.1 T4.1 T5.1 B3s C5.1 C4.1 T4.1 T5.1 S5 T6.1;",
];

/// Two journeys under way that want one room, with the moves of a recovery.
pub fn one_room() -> Row {
    Row {
        lines: &ONE_ROOM_LINES,
        begun: 3,
        left: &ONE_ROOM_LEFT,
    }
}

#[rattlefmt::skip]
static ONE_ROOM_LINES: [Line; 11] = [
    (ONE_ROOM_CELLS, "loaded a 3"),
    (FIRST_OF_TWO,   "journey 1 begun"),
    (SECOND_OF_TWO,  "journey 2 begun"),
    ("step 1",       "journey 1 T1.1 run 1"),
    ("step 2",       "journey 2 T1.1 run 1"),
    ("save 1",       "refused 28 NoSave"),
    ("stop 1",       "journey 1 B1s run 1"),
    ("stop 2",       "journey 2 B0s back 1 to 0"),
    ("stop 2",       "refused 11 NoSavePoint"),
    ("step 2",       "journey 2 C1.1 undone 0"),
    ("step 1",       "journey 1 T2.1 ended 2"),
];

static ONE_ROOM_LEFT: [&str; 5] = [
    "F/AL/A1/2030-06-01 5 4;",
    "R/INN/X/2030-06-01 1 0;",
    "T/BUS/Y/2030-06-01 5 5;",
    "1 desk ended 2 T1.1 B1s T2.1;",
    "2 desk undone 0 T1.1 B0s C1.1;",
];

pub const SIX_CELLS: &str =
    "load a F/AL/A1/2030-06-01 10, F/AL/A2/2030-06-01 10, F/AL/A3/2030-06-01 10, \
     F/AL/A4/2030-06-01 10, F/AL/A5/2030-06-01 10, F/AL/A6/2030-06-01 10";

/// Six steps, the first and the third with a mark.
pub const SIX: &str =
    "begin F/AL/A1/2030-06-01/1/1*;F/AL/A2/2030-06-01/1/1;F/AL/A3/2030-06-01/1/1*;\
     F/AL/A4/2030-06-01/1/1;F/AL/A5/2030-06-01/1/1;F/AL/A6/2030-06-01/1/1!0";

pub const ONE_ROOM_CELLS: &str =
    "load a F/AL/A1/2030-06-01 5, T/BUS/Y/2030-06-01 5, R/INN/X/2030-06-01 1";

pub const FIRST_OF_TWO: &str = "begin F/AL/A1/2030-06-01/1/1*;R/INN/X/2030-06-01/1/1!0";

pub const SECOND_OF_TWO: &str = "begin R/INN/X/2030-06-01/1/1;T/BUS/Y/2030-06-01/1/1!0";
