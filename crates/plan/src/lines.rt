//! The steps of a plan line, read one after another up to the first fault.
//!
//! A text is cut in place, and each list is allocated once.
ghost use Rattle.std.specs.Prelude.{◌≡◌, Some, map, length};
ghost use Rattle.allotment.specs.Texts.{parts, bar, semicolon};
ghost use Rattle.plan.specs.PlanModel.{step_said};
ghost use Rattle.plan.specs.PlanLine.{step_draft};
ghost use Rattle.plan.specs.Faults.{Gives};
ghost use Rattle.plan.specs.Levels.{judged_options, judged_step, judged_steps, options_spelled, steps_spelled};

use crate::faults::PlanFault;
use crate::limits::check_limits;
use crate::options::option_in;
use crate::parts::split_mark;
use crate::steps::PlanStep;
use allotment::Want;
use std::alloc::Global;

/// Reads the `last` steps that a line spells before its tries, or reports the first thing that is wrong with one of
/// them. The other fault is out of memory.
pub fn steps_in(alloc: Global, last: usize, text: &str) -> Result<Vec<PlanStep>, PlanFault>
    ensures read { Gives (judged_steps last (steps_spelled text.now)) (λ steps. map step_said steps.items) result }
{
    let mut steps = Vec::with_capacity(alloc, last)?;
    for part in text.split(';') {
        let read = step_in(alloc, last, steps.len() + 1, part)?;
        steps.push(read)?;
    }
    Ok(steps)
}

/// The step of this number that a text spells, where `last` is the number of the last step.
#[tactic(auto, using(std::proofs::lemmas::Result::err_from_is_err_and, crate::proofs::LevelLemmas::fault_of_part, crate::proofs::LevelLemmas::cut_refused, crate::proofs::LevelLemmas::cut_by_options))]
fn step_in(alloc: Global, last: usize, step: usize, text: &str) -> Result<PlanStep, PlanFault>
    ensures read { Gives (judged_step last step (Some (step_draft text.now))) step_said result }
{
    let (rest, save) = split_mark(text);
    let count = count_options(rest);
    check_limits(last, step, save, count)?;
    let options = options_in(alloc, step, count, rest)?;
    Ok(PlanStep { options, save })
}

/// The wants of so many options of a step, which a text spells.
fn options_in(alloc: Global, step: usize, count: usize, text: &str) -> Result<Vec<Want>, PlanFault>
    ensures read { Gives (judged_options step (options_spelled text.now)) (λ options. options.items) result }
{
    let mut options = Vec::with_capacity(alloc, count)?;
    for part in text.split('|') {
        let want = option_in(step, part)?;
        options.push(want)?;
    }
    Ok(options)
}

/// How many options the text of a step has.
fn count_options(text: &str) -> usize
    ensures count { result ≡ length (parts bar text.now) }
{
    text.split('|').count()
}

/// How many steps a line has before its tries.
pub fn count_steps(text: &str) -> usize
    ensures count { result ≡ length (parts semicolon text.now) }
{
    text.split(';').count()
}
