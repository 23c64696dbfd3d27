// The next step of a journey, by a table. The tries of the plan are a column of their own.
use crate::tests::calls::holds;
use plan::{Marks, Plan};
use saga_core::{Cursor, Move, Phase, decide};
use std::process::Abort;
use std::test::Fail;

// a marked step, one with three options, and one with a single option
const STEPS: &str = "F/AL/A1/2030-06-01/1/1*;\
    R/INN/A/2030-06-01/1/1|R/INN/B/2030-06-01/1/1|R/INN/C/2030-06-01/1/1;F/AL/A9/2030-06-01/1/1";

const RUN: Phase = Phase::Run;

// the tries, the save-points that were taken, the position, the phase, how many steps were refused, whether the next
// want fits, and what a step does
#[rattlefmt::skip]
const MOVES: [(&str, u8, &[usize], usize, Phase, usize, bool, Move); 15] = [
    ("at first it takes the first step",       2, &[],     0, RUN,            0, true,  Move::Take(1, 1)),
    ("then the first option of the next",      2, &[],     1, RUN,            0, true,  Move::Take(2, 1)),
    ("after a refusal the second option",      2, &[],     1, RUN,            1, true,  Move::Take(2, 2)),
    ("after two the third",                    2, &[],     1, RUN,            2, true,  Move::Take(2, 3)),
    ("after three the last one stays",         9, &[],     1, RUN,            3, true,  Move::Take(2, 3)),
    ("a step with one option has no other",    2, &[],     2, RUN,            2, true,  Move::Take(3, 1)),
    ("refused, it turns to the marked step",   2, &[],     2, RUN,            1, false, Move::Turn(1)),
    ("also where it stands",                   2, &[],     1, RUN,            0, false, Move::Turn(1)),
    ("to a save-point that it took",           2, &[2],    2, RUN,            0, false, Move::Turn(2)),
    ("without tries left to the start",        2, &[2],    2, RUN,            2, false, Move::Turn(0)),
    ("before any save-point to the start",     2, &[],     0, RUN,            0, false, Move::Turn(0)),
    ("going back it undoes the last step",     2, &[],     2, Phase::Back(1), 1, true,  Move::Undo(2)),
    ("whether the next want fits or not",      2, &[],     1, Phase::Back(0), 1, false, Move::Undo(1)),
    ("at the end it does nothing",             2, &[1, 2], 3, Phase::Ended,   1, true,  Move::Nothing),
    ("nor once it is undone",                  2, &[],     0, Phase::Undone,  1, true,  Move::Nothing),
];

/// Save-points at these positions.
fn marks_at(rt: &impl Abort, positions: &[usize]) -> Marks {
    let mut marks = Marks::none();
    for &p in positions {
        assert!(rt; 1 <= p && p <= 23);
        marks.add(p);
    }
    marks
}

#[test]
fn a_journey_has_one_step(rt: HostRuntime) -> Result<(), Fail> {
    let alloc = rt.alloc();
    for &(case, tries, taken, pos, phase, used, fits, expected) in &MOVES {
        let line = format!(in alloc; "{STEPS}!{tries}")?;
        let plan = Plan::from_line(alloc, &line)?;
        let marks = marks_at(&rt, taken);
        holds(&rt, case, pos < plan.steps() || phase != Phase::Run);
        let cursor = Cursor { pos, phase, used };
        let found = decide(&plan, &marks, &cursor, fits);
        holds(&rt, case, found == expected);
    }
    Ok(())
}
