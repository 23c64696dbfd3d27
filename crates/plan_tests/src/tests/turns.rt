//! What the rules mean, by tables. Plans are given by their lines, without the tries.
ghost use Rattle.std.specs.Prelude.{◌≡◌, ◌<◌, IfSome, IsTrue};

use crate::tests::texts::holds;
use plan::{Marks, NoSavePoint, Plan, Turn, is_save_point, last_save, option_at, target};
use std::alloc::Global;
use std::process::Abort;

// six steps, of which the second and the fourth are marked
const SIX: &str = "F/AL/A1/2030-06-01/1/1;F/AL/A2/2030-06-01/1/1*;F/AL/A3/2030-06-01/1/1;\
    F/AL/A4/2030-06-01/1/1*;F/AL/A5/2030-06-01/1/1;F/AL/A6/2030-06-01/1/1";

// a marked step, and one with three options
const ROOMS: &str =
    "F/AL/A1/2030-06-01/1/1*;R/INN/A/2030-06-01/1/1|R/INN/B/2030-06-01/1/1|R/INN/C/2030-06-01/1/1";

// three steps, none of them marked
const THREE: &str = "F/AL/A1/2030-06-01/1/1;F/AL/X/2030-06-01/1/1;R/INN/R/2030-06-01/1/1";

// a step with eight options
const EIGHT: &str = "F/AL/A1/2030-06-01/1/1|F/AL/A2/2030-06-01/1/1|F/AL/A3/2030-06-01/1/1|\
    F/AL/A4/2030-06-01/1/1|F/AL/A5/2030-06-01/1/1|F/AL/A6/2030-06-01/1/1|\
    F/AL/A7/2030-06-01/1/1|F/AL/A8/2030-06-01/1/1";

// stops the test where another number was found
fn counts(rt: &impl Abort, case: &str, found: usize, expected: usize)
    ensures { found ≡ expected }
{
    assert_eq!(rt; found, expected, "{case}");
}

fn plan_of(rt: &impl Abort, alloc: Global, steps: &str, tries: u8) -> Plan {
    let line = format!(in alloc; "{steps}!{tries}").expect(rt, "a line");
    Plan::from_line(alloc, &line).expect(rt, "a plan")
}

fn marks_of(rt: &impl Abort, taken: &[usize]) -> Marks {
    let mut marks = Marks::none();
    for p in taken {
        assert!(rt; 1 <= *p && *p <= 23);
        marks.add(*p);
    }
    marks
}

// the save-points that are taken, the position above which they are dropped, and those that are left
#[rattlefmt::skip]
const CUTS: [(&str, &[usize], usize, &[usize]); 7] = [
    ("none is above the position",      &[1, 5, 9],   9,          &[1, 5, 9]),
    ("the one at the position stays",   &[1, 5, 9],   5,          &[1, 5]),
    ("the one above it is dropped",     &[1, 5, 9],   4,          &[1]),
    ("both ends are kept",              &[1, 12, 23], 23,         &[1, 12, 23]),
    ("the last one is dropped",         &[1, 12, 23], 22,         &[1, 12]),
    ("a position past all drops none",  &[1, 2, 23],  usize::MAX, &[1, 2, 23]),
    ("all are dropped at the start",    &[1, 12, 23], 0,          &[]),
];

#[test]
fn save_points_above_a_position_are_dropped(rt: HostRuntime) {
    for &(case, taken, pos, left) in &CUTS {
        let marks = marks_of(&rt, taken);
        let mut rest = marks;
        rest.cut(pos);
        for p in 0..30 {
            holds(&rt, case, marks.has(p) == taken.contains(&p));
            holds(&rt, case, rest.has(p) == left.contains(&p));
        }
        holds(&rt, case, rest == marks_of(&rt, left));
    }
}

#[test]
fn marks_with_the_same_positions_are_equal(rt: HostRuntime) {
    assert_eq!(rt; marks_of(&rt, &[1, 23]), marks_of(&rt, &[23, 1, 23]));
    assert!(rt; marks_of(&rt, &[1, 23]) != marks_of(&rt, &[1, 22]));
}

// the plan, the position, the save-points that are taken, and the last one
#[rattlefmt::skip]
const LAST: [(&str, &str, usize, &[usize], usize); 10] = [
    ("nothing was done",                 SIX,   0, &[],     0),
    ("no mark was reached",              SIX,   1, &[],     0),
    ("the first mark was just reached",  SIX,   2, &[],     2),
    ("the second one is ahead",          SIX,   3, &[],     2),
    ("both were reached",                SIX,   5, &[],     4),
    ("the journey has ended",            SIX,   6, &[],     4),
    ("one was taken above the marks",    SIX,   5, &[5],    5),
    ("one was taken below a mark",       SIX,   5, &[1],    4),
    ("there are no marks",               THREE, 2, &[],     0),
    ("two were taken without marks",     THREE, 2, &[1, 2], 2),
];

#[test]
fn the_last_save_point_is_the_greatest(rt: HostRuntime) {
    for &(case, steps, pos, taken, last) in &LAST {
        let plan = plan_of(&rt, rt.alloc(), steps, 0);
        let marks = marks_of(&rt, taken);
        holds(&rt, case, pos <= plan.steps());
        counts(&rt, case, last_save(&plan, &marks, pos), last);
        let stands = is_save_point(&plan, &marks, pos, last);
        holds(&rt, case, stands == (last > 0));
        holds(&rt, case, !is_save_point(&plan, &marks, pos, last + 1));
    }
}

#[test]
fn the_longest_plan_may_have_a_save_point_after_each_step_but_the_last(rt: HostRuntime) {
    let step = "F/AL/A1/2030-06-01/1/1";
    let steps = [step; 24].join(rt.alloc(), "*;").expect(&rt, "24 steps");
    let plan = plan_of(&rt, rt.alloc(), &steps, 9);
    counts(&rt, "24 steps", plan.steps(), 24);
    for pos in 0..25 {
        let last = last_save(&plan, &Marks::none(), pos);
        counts(&rt, "at each position", last, pos.min(23));
    }
}

// the step, how many steps were refused, and the option that is tried
#[rattlefmt::skip]
const OPTIONS: [(&str, &str, usize, usize, usize); 8] = [
    ("nothing was refused",              ROOMS, 2, 0,          1),
    ("one was refused",                  ROOMS, 2, 1,          2),
    ("two were refused",                 ROOMS, 2, 2,          3),
    ("the last option stays",            ROOMS, 2, 3,          3),
    ("however often it was refused",     ROOMS, 2, usize::MAX, 3),
    ("there is only one",                ROOMS, 1, 2,          1),
    ("the seventh of eight was refused", EIGHT, 1, 7,          8),
    ("all of eight were refused",        EIGHT, 1, 8,          8),
];

#[test]
fn options_are_tried_in_order(rt: HostRuntime) {
    for &(case, steps, step, used, option) in &OPTIONS {
        let plan = plan_of(&rt, rt.alloc(), steps, 0);
        holds(&rt, case, 1 <= step && step <= plan.steps());
        counts(&rt, case, option_at(&plan, step, used), option);
    }
}

// the tries of the plan with a marked step, how many steps were refused, and where the next refused turn leads
#[rattlefmt::skip]
const REFUSED: [(&str, u8, usize, usize); 8] = [
    ("the first of two tries",           2, 0,          1),
    ("the second of two tries",          2, 1,          1),
    ("no try is left of two",            2, 2,          0),
    ("the only try",                     1, 0,          1),
    ("no try is left of one",            1, 1,          0),
    ("there are no tries",               0, 0,          0),
    ("the last of nine tries",           9, 8,          1),
    ("refused more often than any plan", 9, usize::MAX, 0),
];

#[test]
fn a_refused_turn_leads_to_the_start_once_the_tries_are_used_up(rt: HostRuntime) {
    for &(case, tries, used, expected) in &REFUSED {
        let plan = plan_of(&rt, rt.alloc(), ROOMS, tries);
        holds(&rt, case, 1 < plan.steps());
        let found = target(&plan, &Marks::none(), 1, used, Turn::Refused, None);
        holds(&rt, case, found == Ok(expected));
    }
}

// the plan, the position, the save-points that are taken, the turn, where the journey is going, and where it turns
#[rattlefmt::skip]
const TURNS: [(&str, &str, usize, &[usize], Turn, Option<usize>, Option<usize>); 22] = [
    ("to the last mark",                    SIX,   5, &[],     Turn::Asked(4), None,    Some(4)),
    ("then further down",                   SIX,   5, &[],     Turn::Asked(2), Some(4), Some(2)),
    ("not up again",                        SIX,   5, &[],     Turn::Asked(4), Some(2), None),
    ("not once more to the same",           SIX,   4, &[],     Turn::Asked(2), Some(2), None),
    ("to the start, on the way back",       SIX,   4, &[],     Turn::Asked(0), Some(2), Some(0)),
    ("not from the start on",               SIX,   4, &[],     Turn::Asked(0), Some(0), None),
    ("to the position itself",              SIX,   2, &[],     Turn::Asked(2), None,    Some(2)),
    ("not where there is no mark",          SIX,   2, &[],     Turn::Asked(1), None,    None),
    ("not to a mark ahead",                 SIX,   3, &[],     Turn::Asked(4), None,    None),
    ("to the start from the start",         SIX,   0, &[],     Turn::Asked(0), None,    Some(0)),
    ("not past the last step",              SIX,   5, &[],     Turn::Asked(7), None,    None),
    ("not past all numbers",                SIX,   5, &[],     Turn::Asked(usize::MAX), None, None),
    ("a stop leads to the last mark",       SIX,   5, &[],     Turn::Stop,     None,    Some(4)),
    ("a stop at the last mark itself",      SIX,   4, &[],     Turn::Stop,     None,    Some(4)),
    ("a stop before any mark",              SIX,   1, &[],     Turn::Stop,     None,    Some(0)),
    ("no stop on the way back",             SIX,   5, &[],     Turn::Stop,     Some(2), None),
    ("no refusal on the way back",          SIX,   5, &[],     Turn::Refused,  Some(2), None),
    ("a stop leads to where one was taken", THREE, 2, &[1],    Turn::Stop,     None,    Some(1)),
    ("to the lower one of two taken",       THREE, 2, &[1, 2], Turn::Asked(1), None,    Some(1)),
    ("to one that is left",                 THREE, 1, &[1],    Turn::Asked(1), None,    Some(1)),
    ("not to one that was dropped",         THREE, 2, &[1],    Turn::Asked(2), None,    None),
    ("to the start, past one that was taken",THREE, 2, &[1],    Turn::Asked(0), Some(1), Some(0)),
];

// whether a journey at this position can be going back there
fn is_above(pos: usize, going: Option<usize>) -> bool
    ensures { IsTrue result → IfSome going (λ q. q < pos) }
{
    match going {
        Some(q) => q < pos,
        None => true,
    }
}

#[test]
fn turns_lead_down_to_save_points_alone(rt: HostRuntime) {
    for &(case, steps, pos, taken, turn, going, expected) in &TURNS {
        let plan = plan_of(&rt, rt.alloc(), steps, 0);
        let marks = marks_of(&rt, taken);
        holds(&rt, case, pos < plan.steps());
        holds(&rt, case, is_above(pos, going));
        let found = target(&plan, &marks, pos, 0, turn, going);
        holds(&rt, case, found == expected.ok_or(NoSavePoint));
    }
}
