//! Well-formed and malformed lines, each on a new desk in memory.
//!
//! `@` and a letter or digit represents the cell, or the first four parts of a want, that `NAMES` has.
use crate::tests::desks::{holds, new_desk, reads};
use failing_streams::{Pieces, Sink};
use recovery::run_lines;
use std::alloc::Global;
use std::process::Abort;
use std::test::Fail;

/// More bytes than the longest answer here.
const ROOM: usize = 200;

// signs, and the cells that they represent
#[rattlefmt::skip]
const NAMES: [(char, &str); 13] = [
    ('1', "F/AL/A1/2030-06-01"),
    ('2', "F/AL/A2/2030-06-01"),
    ('3', "F/AL/A3/2030-06-01"),
    ('4', "F/AL/A4/2030-06-01"),
    ('5', "F/AL/A5/2030-06-01"),
    ('6', "F/AL/A6/2030-06-01"),
    ('X', "T/BUS/X/2030-06-01"),
    ('D', "R/INN/DBL/2030-06-01"),
    ('E', "R/INN/DBL/2030-06-02"),
    ('A', "R/INN/A/2030-06-01"),
    ('B', "R/INN/B/2030-06-01"),
    ('C', "R/INN/C/2030-06-01"),
    ('V', "C/CO/P/2030-06-01"),
];

/// The line with its names replaced by what they represent, and a line feed.
fn written_out(alloc: Global, line: &str) -> Result<String, Fail> {
    let mut written = String::new(alloc);
    for (i, part) in line.split('@').enumerate() {
        if i == 0 {
            written.push_str(part)?;
        }
        for &(letter, cell) in &NAMES {
            if i > 0 && part.starts_with(letter) {
                written.push_str(cell)?;
                written.push_str(&part[1..])?;
            }
        }
    }
    written.push('\n')?;
    Ok(written)
}

/// Checks a table of lines and answers, each on a new desk.
fn each_on_a_new_desk(
    rt: &impl Abort,
    alloc: Global,
    rows: &[(&str, &str, &str)],
) -> Result<(), Fail> {
    for &(case, line, expected) in rows {
        let mut book = new_desk(alloc)?;
        let mut sink = Sink::of_flushed_lines(alloc, ROOM, ROOM)?;
        let input = written_out(alloc, line)?;
        let mut reader = Pieces::of(input.as_bytes(), 7);
        let count = run_lines(alloc, &mut reader, &mut sink, &mut book)?;
        let answer = format!(in alloc; "{expected}\n")?;
        holds(rt, case, count == 1);
        reads(rt, case, sink.taken(), answer.as_str());
    }
    Ok(())
}

const BODY: &str = "refused 4 BadBody";

const ABSENT: &str = "refused 9 NoJourney";

// what the row shows, the line, and the answer of a new desk, which has no journey of that number
#[rattlefmt::skip]
const STEPS: [(&str, &str, &str); 23] = [
    ("the first number",             "step 1",                ABSENT),
    ("the last number",              "step 999999999999",     ABSENT),
    ("a number past the last",       "step 1000000000000",    BODY),
    ("a number past every integer",  "step 99999999999999999999999", BODY),
    ("number 0",                     "step 0",                BODY),
    ("a leading zero",               "step 01",               BODY),
    ("a sign",                       "step +1",               BODY),
    ("a minus",                      "step -1",               BODY),
    ("a part",                       "step 1.0",              BODY),
    ("no number",                    "step x",                BODY),
    ("no number at all",             "step",                  BODY),
    ("an empty number",              "step ",                 BODY),
    ("a word more",                  "step 1 1",              BODY),
    ("two blanks",                   "step  1",               BODY),
    ("a blank in front",             " step 1",               BODY),
    ("a blank behind",               "step 1 ",               BODY),
    ("a carriage return",            "step 1\r",              BODY),
    ("a tab",                        "step\t1",               BODY),
    ("a capital",                    "Step 1",                BODY),
    ("capitals",                     "STEP 1",                BODY),
    ("a word that begins so",        "steps 1",               BODY),
    ("a part of the word",           "ste 1",                 BODY),
    ("a digit of another script",    "step \u{661}",          BODY),
];

#[test]
fn a_step_has_one_form(rt: HostRuntime) -> Result<(), Fail> {
    each_on_a_new_desk(&rt, rt.alloc(), &STEPS)
}

#[rattlefmt::skip]
const SAVES_AND_ABORTS: [(&str, &str, &str); 22] = [
    ("save",                         "save 1",                ABSENT),
    ("save the last number",         "save 999999999999",     ABSENT),
    ("save number 0",                "save 0",                BODY),
    ("save with a leading zero",     "save 01",               BODY),
    ("save with a position",         "save 1 1",              BODY),
    ("save alone",                   "save",                  BODY),
    ("save in capitals",             "SAVE 1",                BODY),
    ("abort to 0",                   "abort 1 0",             ABSENT),
    ("abort to 99",                  "abort 1 99",            ABSENT),
    ("abort to 100",                 "abort 1 100",           BODY),
    ("abort to 00",                  "abort 1 00",            BODY),
    ("abort to a leading zero",      "abort 1 01",            BODY),
    ("abort of number 0",            "abort 0 0",             BODY),
    ("abort of a leading zero",      "abort 01 0",            BODY),
    ("abort of the last number",     "abort 999999999999 0",  ABSENT),
    ("abort of one past the last",   "abort 1000000000000 0", BODY),
    ("abort to nowhere",             "abort 1",               BODY),
    ("abort to an empty position",   "abort 1 ",              BODY),
    ("abort with a word more",       "abort 1 0 0",           BODY),
    ("abort with two blanks",        "abort 1  0",            BODY),
    ("abort in capitals",            "ABORT 1 0",             BODY),
    ("stop, which is no line",       "stop 1",                BODY),
];

#[test]
fn a_save_and_an_abort_have_one_form(rt: HostRuntime) -> Result<(), Fail> {
    each_on_a_new_desk(&rt, rt.alloc(), &SAVES_AND_ABORTS)
}

#[rattlefmt::skip]
const SETS_AND_PLANS: [(&str, &str, &str); 23] = [
    ("set",                          "set a @1 10",           "loaded a 1"),
    ("a cover",                      "set a @V 10",           "loaded a 1"),
    ("no place",                     "set a @1 0",            "loaded a 1"),
    ("the most places",              "set a @1 100000",       "loaded a 1"),
    ("a place too many",             "set a @1 100001",       BODY),
    ("places with a leading zero",   "set a @1 010",          BODY),
    ("places below 0",               "set a @1 -1",           BODY),
    ("places that are none",         "set a @1 x",            BODY),
    ("no places",                    "set a @1",              BODY),
    ("a place more",                 "set a @1 1 1",          BODY),
    ("a name of dashes and digits",  "set -9 @1 1",           "loaded -9 1"),
    ("a name of 24",    "set abcdefghijklmnopqrstuvwx @1 1", "loaded abcdefghijklmnopqrstuvwx 1"),
    ("a name of 25",                 "set abcdefghijklmnopqrstuvwxy @1 1", BODY),
    ("a name of 32",                 "set abcdefghijklmnopqrstuvwxyzabcdef @1 1", BODY),
    ("a name in capitals",           "set A @1 1",            BODY),
    ("an empty name",                "set  @1 1",             BODY),
    ("a cell of five parts",         "set a @1/1 1",          BODY),
    ("a cell of three parts",        "set a F/AL/A1 1",       BODY),
    ("a cell of no kind",            "set a X/AL/A1/2030-06-01 1", BODY),
    ("a night that is none",         "set a F/AL/A1/2030-02-29 1", BODY),
    ("another word for set",         "load a @1 1",           BODY),
    ("a plan with a blank behind",   "begin @1/1/1!0 ",       "refused 5 BadPlan 0 tries"),
    ("a plan behind two blanks",     "begin  @1/1/1!0",       "refused 5 BadPlan 1 kind"),
];

#[test]
fn a_set_and_a_plan_have_one_form(rt: HostRuntime) -> Result<(), Fail> {
    each_on_a_new_desk(&rt, rt.alloc(), &SETS_AND_PLANS)
}
