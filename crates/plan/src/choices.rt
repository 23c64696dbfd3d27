//! Which option a step takes.
ghost use Rattle.std.specs.Prelude.{◌≡◌, ◌-◌, ◌≤◌};
ghost use Rattle.plan.specs.PlanModel.{step_count, option_count};
ghost use Rattle.plan.specs.Rules as rules;

use crate::plans::Plan;

/// The option, counted from 1, that a step takes once `used` steps of its journey were refused: one further on after
/// each refusal, up to its last one. Steps are counted from 1.
pub fn option_at(plan: &Plan, step: usize, used: usize) -> usize
    requires from_one { 1 ≤ step }
    requires in_plan { step ≤ step_count plan.now }

    ensures option { result ≡ rules.next_option plan.now (step - 1) used }

    ensures first { 1 ≤ result }
    ensures last { result ≤ option_count plan.now step }
{
    // a step of a plan has an option, so there is a first one
    prove!(step <= plan.steps());
    used.saturating_add(1).min(plan.options(step))
}
