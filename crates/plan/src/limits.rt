//! The limits that the steps of a plan keep.
ghost use Rattle.std.specs.Prelude.{◌≡◌, Some, Ok, Err, map, length, IsTrue, OnOk, MatchResult};
ghost use Rattle.std.specs.List.{list_all};
ghost use Rattle.allotment.specs.Limits.{is_want};
ghost use Rattle.plan.specs.PlanModel.{step_said, is_step};
ghost use Rattle.plan.specs.Drafts.{drafted_step};
ghost use Rattle.plan.specs.Levels.{step_limits, judged_step, judged_steps, steps_held};

use crate::causes::PlanCause;
use crate::faults::{BadPlan, bad};
use crate::steps::PlanStep;
use allotment::Want;

/// The most steps that a plan may have.
pub const MOST_STEPS: usize = 24;

/// The most options that a step may have.
pub const MOST_OPTIONS: usize = 8;

/// The most tries that a plan may have.
pub const MOST_TRIES: u8 = 9;

/// Checks the steps, and reports the first limit that one of them breaks.
pub fn check_steps(steps: &[PlanStep]) -> Result<(), BadPlan>
    ensures checked { MatchResult result
        (λ _. judged_steps (length steps.now) (steps_held steps.now) ≡ Ok (map step_said steps.now))
        (λ bad. judged_steps (length steps.now) (steps_held steps.now) ≡ Err bad) }
    ensures limits { OnOk result (IsTrue (list_all is_step (map step_said steps.now))) }
{
    for (i, step) in steps.iter().enumerate() {
        check_step(steps.len(), i + 1, step)?;
    }
    Ok(())
}

/// Checks the step of this number, where `last` is the number of the last step.
fn check_step(last: usize, number: usize, step: &PlanStep) -> Result<(), BadPlan>
    ensures checked { MatchResult result
        (λ _. judged_step last number (Some (drafted_step (step_said step.now))) ≡ Ok (step_said step.now))
        (λ bad. judged_step last number (Some (drafted_step (step_said step.now))) ≡ Err bad) }
    ensures limits { OnOk result (IsTrue (is_step (step_said step.now))) }
{
    know_limits(step.options.as_slice());
    check_limits(last, number, step.save, step.options.len())?;
    Ok(())
}

/// Checks whether the step of this number may have this mark and so many options, where `last` is the number of the
/// last step.
pub fn check_limits(last: usize, step: usize, save: bool, options: usize) -> Result<(), BadPlan>
    ensures limits { result ≡ step_limits last step save options }
{
    if save && step == last {
        return Err(bad(step, PlanCause::Save));
    }
    if options == 0 || options > MOST_OPTIONS {
        return Err(bad(step, PlanCause::Options));
    }
    Ok(())
}

/// Each want keeps its limits: its type has no other value.
fn know_limits(wants: &[Want])
    ensures limits { IsTrue (list_all is_want wants.now) }
{
    for want in wants {
        let _kind = want.kind();
    }
}
