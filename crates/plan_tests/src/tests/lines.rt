// Values from outside: lines as the format has them, and the fault that each wrong line gets.
use allotment::{Kind, Want};
use plan::{BadPlan, Plan, PlanCause, PlanFault, PlanStep};
use std::alloc::{AllocError, Global};
use std::process::Abort;
use std::test::Fail;

/// Stops the test where another text is found.
pub fn reads(rt: &impl Abort, case: &str, found: &str, expected: &str) {
    assert!(rt; found == expected, "{case}: {found}");
}

/// Stops the test where another fault is reported: the step and the cause are expected, or no fault.
pub fn is_told(
    rt: &impl Abort,
    case: &str,
    told: Option<PlanFault>,
    expected: Option<(usize, PlanCause)>,
) {
    let expected = match expected {
        Some((step, cause)) => Some(PlanFault::Bad(BadPlan { step, cause })),
        None => None,
    };
    assert!(rt; told == expected, "{case}: {told:?}");
}

/// Stops the test where the plan is not printed as this line.
fn prints(rt: &impl Abort, alloc: Global, plan: &Plan, line: &str) -> Result<(), AllocError> {
    let printed = plan.line(alloc)?;
    reads(rt, "the line of a plan", &printed, line);
    Ok(())
}

// a line, and how many steps and tries it has
#[rattlefmt::skip]
const LINES: [(&str, &str, usize, u8); 13] = [
    ("one step",             "F/AL/A1/2030-06-01/1/1!0", 1, 0),
    ("the most of a flight", "F/AL/A1/2030-06-01/1/50!9", 1, 9),
    ("the most of a room",   "R/INN/DBL/2030-06-01/30/1!0", 1, 0),
    ("the most of cover",    "C/CO/P/2030-06-01/60/1!1", 1, 1),
    ("codes of one and eight", "F/A/1234WXYZ/2030-06-01/1/1!0", 1, 0),
    ("the first night",      "R/INN/DBL/2000-01-01/1/1!0", 1, 0),
    ("the last night",       "R/INN/DBL/2099-12-31/1/1!0", 1, 0),
    ("up to the last night", "R/INN/DBL/2099-12-30/2/1!0", 1, 0),
    ("a day in a leap year", "T/BUS/X/2028-02-29/1/9!0", 1, 0),
    ("three steps",          "F/AL/A1/2030-06-01/1/2;T/BUS/X/2030-06-01/1/2;R/INN/DBL/2030-06-01/2/1!0", 3, 0),
    ("a mark",               "F/AL/A1/2030-06-01/1/1*;T/BUS/X/2030-06-01/1/1!0", 2, 0),
    ("options",              "F/AL/A1/2030-06-01/1/1*;R/INN/A/2030-06-01/1/1|R/INN/B/2030-06-01/1/1|R/INN/C/2030-06-01/1/1!2", 2, 2),
    ("a mark behind options", "F/A/A/2030-06-01/1/1|F/A/B/2030-06-01/1/1*;T/BUS/X/2030-06-01/1/1!3", 2, 3),
];

#[test]
fn a_line_is_read_and_printed_again(rt: HostRuntime) -> Result<(), Fail> {
    let alloc = rt.alloc();
    for &(case, line, steps, tries) in &LINES {
        let plan = Plan::from_line(alloc, line)?;
        assert_eq!(rt; (plan.steps(), plan.tries()), (steps, tries), "{case}");
        prints(&rt, alloc, &plan, line)?;
        prints(&rt, alloc, &plan.clone(alloc)?, line)?;
    }
    Ok(())
}

// a wrong line, and its fault
#[rattlefmt::skip]
const WRONG: [(&str, &str, usize, PlanCause); 50] = [
    ("nothing",                     "", 0, PlanCause::Tries),
    ("no tries",                    "F/AL/A1/2030-06-01/1/1", 0, PlanCause::Tries),
    ("no number of tries",          "F/AL/A1/2030-06-01/1/1!", 0, PlanCause::Tries),
    ("ten tries",                   "F/AL/A1/2030-06-01/1/1!10", 0, PlanCause::Tries),
    ("a letter for the tries",      "F/AL/A1/2030-06-01/1/1!a", 0, PlanCause::Tries),
    ("a blank behind",              "F/AL/A1/2030-06-01/1/1!0 ", 0, PlanCause::Tries),
    ("a carriage return behind",    "F/AL/A1/2030-06-01/1/1!0\r", 0, PlanCause::Tries),
    ("a digit beyond ASCII",        "F/AL/A1/2030-06-01/1/1!\u{661}", 0, PlanCause::Tries),
    ("tries alone",                 "!5", 1, PlanCause::Shape),
    ("an empty step",               "F/AL/A1/2030-06-01/1/1;!0", 2, PlanCause::Shape),
    ("an empty first step",         ";F/AL/A1/2030-06-01/1/1!0", 1, PlanCause::Shape),
    ("an empty option",             "F/AL/A1/2030-06-01/1/1|!0", 1, PlanCause::Shape),
    ("five parts",                  "F/AL/A1/2030-06-01/1!0", 1, PlanCause::Shape),
    ("seven parts",                 "F/AL/A1/2030-06-01/1/1/1!0", 1, PlanCause::Shape),
    ("a mark on the last step",     "F/AL/A1/2030-06-01/1/1*!0", 1, PlanCause::Save),
    ("and on the last of two",      "F/AL/A1/2030-06-01/1/1*;F/AL/A1/2030-06-01/1/1*!0", 2, PlanCause::Save),
    ("two marks",                   "F/AL/A1/2030-06-01/1/1**;F/AL/A1/2030-06-01/1/1!0", 1, PlanCause::Count),
    ("two marks on the last step",  "F/AL/A1/2030-06-01/1/1**!0", 1, PlanCause::Save),
    ("a mark before the options",   "*F/AL/A1/2030-06-01/1/1!0", 1, PlanCause::Kind),
    ("a small letter",              "f/AL/A1/2030-06-01/1/1!0", 1, PlanCause::Kind),
    ("no kind",                     "/AL/A1/2030-06-01/1/1!0", 1, PlanCause::Kind),
    ("a kind's word",               "flight/AL/A1/2030-06-01/1/1!0", 1, PlanCause::Kind),
    ("a small code",                "F/AL/a/2030-06-01/1/1!0", 1, PlanCause::Code),
    ("no supplier",                 "F//A1/2030-06-01/1/1!0", 1, PlanCause::Code),
    ("nine bytes of a code",        "F/ABCDEFGHI/A1/2030-06-01/1/1!0", 1, PlanCause::Code),
    ("nine bytes of a product",     "F/AL/ABCDEFGHI/2030-06-01/1/1!0", 1, PlanCause::Code),
    ("no product",                  "F/AL//2030-06-01/1/1!0", 1, PlanCause::Code),
    ("no such day",                 "C/CO/P/2030-02-29/1/1!0", 1, PlanCause::Night),
    ("a day before 2000",           "C/CO/P/1999-12-31/1/1!0", 1, PlanCause::Night),
    ("a day past 2099",             "C/CO/P/2100-01-01/1/1!0", 1, PlanCause::Night),
    ("another spelling of a day",   "C/CO/P/20300601/1/1!0", 1, PlanCause::Night),
    ("two nights of a flight",      "F/AL/A1/2030-06-01/2/1!0", 1, PlanCause::Nights),
    ("two nights of a transfer",    "T/BUS/X/2030-06-01/2/1!0", 1, PlanCause::Nights),
    ("31 nights of a room",         "R/INN/DBL/2030-06-01/31/1!0", 1, PlanCause::Nights),
    ("61 nights of cover",          "C/CO/P/2030-06-01/61/1!0", 1, PlanCause::Nights),
    ("past the last night",         "R/INN/DBL/2099-12-31/2/1!0", 1, PlanCause::Nights),
    ("no nights",                   "R/INN/DBL/2030-06-01/0/1!0", 1, PlanCause::Nights),
    ("a leading zero",              "R/INN/DBL/2030-06-01/01/1!0", 1, PlanCause::Nights),
    ("a sign",                      "R/INN/DBL/2030-06-01/+1/1!0", 1, PlanCause::Nights),
    ("257 nights are not one",      "R/INN/DBL/2030-06-01/257/1!0", 1, PlanCause::Nights),
    ("a number past all types",     "R/INN/DBL/2030-06-01/18446744073709551617/1!0", 1, PlanCause::Nights),
    ("51 places",                   "F/AL/A1/2030-06-01/1/51!0", 1, PlanCause::Count),
    ("no place",                    "F/AL/A1/2030-06-01/1/0!0", 1, PlanCause::Count),
    ("a count that leads with 0",   "F/AL/A1/2030-06-01/1/05!0", 1, PlanCause::Count),
    ("no count",                    "F/AL/A1/2030-06-01/1/!0", 1, PlanCause::Count),
    ("a blank before the count",    "F/AL/A1/2030-06-01/1/ 1!0", 1, PlanCause::Count),
    ("256 places",                  "F/AL/A1/2030-06-01/1/256!0", 1, PlanCause::Count),
    ("a second option",             "F/AL/A1/2030-06-01/1/1|X/AL/A1/2030-06-01/1/1!0", 1, PlanCause::Kind),
    ("a second step",               "F/AL/A1/2030-06-01/1/1;F/AL/A1/2030-06-31/1/1!0", 2, PlanCause::Night),
    ("nine options of the second step, which are none",
     "F/AL/A1/2030-06-01/1/1;x|x|x|x|x|x|x|x|x!0", 2, PlanCause::Options),
];

#[test]
fn a_wrong_line_is_told_its_fault(rt: HostRuntime) {
    each_is_told(&rt, rt.alloc(), &WRONG);
}

/// Each line gets the step and the cause beside it.
fn each_is_told(rt: &impl Abort, alloc: Global, lines: &[(&str, &str, usize, PlanCause)]) {
    for &(case, line, step, cause) in lines {
        is_told(
            rt,
            case,
            Plan::from_line(alloc, line).err(),
            Some((step, cause)),
        );
    }
}

// a line with two faults, of which the first is reported
#[rattlefmt::skip]
const ORDER: [(&str, &str, usize, PlanCause); 10] = [
    ("tries, a mark",           "F/AL/A1/2030-06-01/1/1*", 0, PlanCause::Tries),
    ("a mark, a shape",         "x*!0", 1, PlanCause::Save),
    ("a shape, another kind",   "F/AL/A1|X/AL/A1/2030-06-01/1/1!0", 1, PlanCause::Shape),
    ("a kind, a code",          "X/al/A1/2030-06-01/1/1!0", 1, PlanCause::Kind),
    ("a code, a night",         "F/AL/a/2030-06-31/1/1!0", 1, PlanCause::Code),
    ("a night, nights",         "F/AL/A1/2030-06-31/2/1!0", 1, PlanCause::Night),
    ("nights, a count",         "F/AL/A1/2030-06-01/2/51!0", 1, PlanCause::Nights),
    ("a count, another shape",  "F/AL/A1/2030-06-01/1/51|x!0", 1, PlanCause::Count),
    ("a count, a later mark",   "F/AL/A1/2030-06-01/1/51;F/AL/A1/2030-06-01/1/1*!0", 1, PlanCause::Count),
    ("a shape, a later shape",  "x;y!0", 1, PlanCause::Shape),
];

#[test]
fn the_first_fault_is_told(rt: HostRuntime) {
    each_is_told(&rt, rt.alloc(), &ORDER);
}

/// So many times this text, with a separator between each two, and with this at the end.
pub fn repeated(
    alloc: Global,
    text: &str,
    count: u8,
    between: &str,
    end: &str,
) -> Result<String, AllocError> {
    let mut line = String::new(alloc);
    for i in 0..count {
        if i > 0 {
            line.push_str(between)?;
        }
        line.push_str(text)?;
    }
    line.push_str(end)?;
    Ok(line)
}

// how many options or steps, the separator, what stands at the end, and the fault
#[rattlefmt::skip]
const MANY: [(&str, u8, &str, &str, Option<(usize, PlanCause)>); 9] = [
    ("thirteen steps",                    13, ";", "!0", None),
    ("24 steps",                          24, ";", "!0", None),
    ("25 steps",                          25, ";", "!0", Some((0, PlanCause::Steps))),
    ("25 steps without tries",            25, ";", "", Some((0, PlanCause::Tries))),
    ("25 steps, the last one marked",     25, ";", "*!0", Some((0, PlanCause::Steps))),
    ("five options",                      5, "|", "!0", None),
    ("eight options",                     8, "|", "!0", None),
    ("nine options",                      9, "|", "!0", Some((1, PlanCause::Options))),
    ("nine options of the marked last step", 9, "|", "*!0", Some((1, PlanCause::Save))),
];

#[test]
fn there_are_so_many_steps_and_options(rt: HostRuntime) -> Result<(), Fail> {
    for &(case, count, between, end, expected) in &MANY {
        let line = repeated(rt.alloc(), "F/AL/A1/2030-06-01/1/1", count, between, end)?;
        is_told(
            &rt,
            case,
            Plan::from_line(rt.alloc(), &line).err(),
            expected,
        );
    }
    Ok(())
}

#[test]
fn the_longest_line_is_read_and_printed_again(rt: HostRuntime) -> Result<(), Fail> {
    let option = "C/ABCDEFGH/12345678/2030-06-01/60/50";
    let marked = repeated(rt.alloc(), option, 8, "|", "*;")?;
    let last = repeated(rt.alloc(), option, 8, "|", "!9")?;
    let line = repeated(rt.alloc(), &marked, 23, "", &last)?;
    assert_eq!(rt; line.len(), 7128);
    let plan = Plan::from_line(rt.alloc(), &line)?;
    prints(&rt, rt.alloc(), &plan, &line)?;
    Ok(())
}

/// A step with so many options.
fn step(alloc: Global, count: u8, save: bool) -> Result<PlanStep, AllocError> {
    let mut options = Vec::new(alloc);
    for _ in 0..count {
        if let Ok(want) = Want::new(Kind::Flight, "AL", "A1", "2030-06-01", 1, 1) {
            options.push(want)?;
        }
    }
    Ok(PlanStep { options, save })
}

// how many steps, how many options each has, the number of the marked one, the tries, and the fault
#[rattlefmt::skip]
const STEPS: [(&str, u8, u8, u8, u8, Option<(usize, PlanCause)>); 14] = [
    ("one step",                  1, 1, 0, 0, None),
    ("24 steps of 8 options",     24, 8, 23, 9, None),
    ("no step",                   0, 1, 0, 0, Some((0, PlanCause::Steps))),
    ("25 steps",                  25, 1, 0, 0, Some((0, PlanCause::Steps))),
    ("ten tries",                 1, 1, 0, 10, Some((0, PlanCause::Tries))),
    ("the most that a byte has",  1, 1, 0, 255, Some((0, PlanCause::Tries))),
    ("ten tries of no step",      0, 1, 0, 10, Some((0, PlanCause::Tries))),
    ("a mark on the only step",   1, 1, 1, 0, Some((1, PlanCause::Save))),
    ("a mark on the last step",   3, 1, 3, 0, Some((3, PlanCause::Save))),
    ("25 steps, the last marked", 25, 1, 25, 0, Some((0, PlanCause::Steps))),
    ("no option",                 2, 0, 0, 0, Some((1, PlanCause::Options))),
    ("nine options",              2, 9, 0, 0, Some((1, PlanCause::Options))),
    ("a mark, nine options",      1, 9, 1, 0, Some((1, PlanCause::Save))),
    ("nine options, a mark",      2, 9, 2, 0, Some((1, PlanCause::Options))),
];

#[test]
fn a_plan_is_made_of_steps(rt: HostRuntime) -> Result<(), Fail> {
    for &(case, count, options, marked, tries, expected) in &STEPS {
        let mut steps = Vec::new(rt.alloc());
        for number in 0..count {
            steps.push(step(
                rt.alloc(),
                options,
                u16::from(number) + 1 == u16::from(marked),
            )?)?;
        }
        is_told(&rt, case, Plan::from_steps(steps, tries).err(), expected);
    }
    let mut steps = Vec::new(rt.alloc());
    steps.push(step(rt.alloc(), 2, true)?)?;
    steps.push(step(rt.alloc(), 1, false)?)?;
    let plan = Plan::from_steps(steps, 4)?;
    let line = "F/AL/A1/2030-06-01/1/1|F/AL/A1/2030-06-01/1/1*;F/AL/A1/2030-06-01/1/1!4";
    prints(&rt, rt.alloc(), &plan, line)?;
    Ok(())
}

#[test]
fn a_plan_shows_its_steps(rt: HostRuntime) -> Result<(), Fail> {
    let line = "F/AL/A1/2030-06-01/1/1*;R/INN/A/2030-06-01/1/1|R/INN/B/2030-06-01/1/2!2";
    let plan = Plan::from_line(rt.alloc(), line)?;
    assert!(rt; plan.steps() == 2, "the plan has two steps");
    assert!(rt; plan.marked(1) && !plan.marked(2));
    assert!(rt; plan.options(1) == 1 && plan.options(2) == 2);
    let want = plan.want(2, 2);
    assert!(rt; want.product().as_str() == "B" && want.count() == 2);
    Ok(())
}

// each cause, and the word that a refusal shows
#[rattlefmt::skip]
const WORDS: [(PlanCause, &str); 10] = [
    (PlanCause::Tries,   "tries"),
    (PlanCause::Steps,   "steps"),
    (PlanCause::Save,    "save"),
    (PlanCause::Options, "options"),
    (PlanCause::Shape,   "shape"),
    (PlanCause::Kind,    "kind"),
    (PlanCause::Code,    "code"),
    (PlanCause::Night,   "night"),
    (PlanCause::Nights,  "nights"),
    (PlanCause::Count,   "count"),
];

#[test]
fn each_cause_has_its_word(rt: HostRuntime) {
    for &(cause, word) in &WORDS {
        reads(&rt, word, cause.word(), word);
    }
}
