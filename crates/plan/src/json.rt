//! The steps of a plan in JSON, read one after another up to the first fault.
//!
//! Each list is allocated once, and nothing is copied but the parts of wants.
ghost use Rattle.std.specs.Prelude.{◌≡◌, ◌≤◌, option_map, map, length, IfSome};
ghost use Rattle.serde_json.specs.View.{view};
ghost use Rattle.plan.specs.Limits.{most_tries};
ghost use Rattle.plan.specs.PlanModel.{step_said};
ghost use Rattle.plan.specs.Faults.{Gives};
ghost use Rattle.plan.specs.PlanJson.{json_option, json_step, json_steps, json_tries, step_with};
ghost use Rattle.plan.specs.Levels.{judged_option, judged_options, judged_step, judged_steps, options_shown, steps_shown, views};

use crate::causes::PlanCause;
use crate::faults::{BadPlan, PlanFault, bad};
use crate::limits::{MOST_TRIES, check_limits};
use crate::members::{answer_in, has_just, list_in, number_in, text_in};
use crate::options::want_of;
use crate::steps::PlanStep;
use allotment::{Kind, Want};
use serde_json::Value;
use std::alloc::Global;

/// The values that represent the steps of a plan. Returns `None` if the value has not the shape of a plan.
pub fn plan_steps(value: &Value) -> Option<&[Value]>
    ensures steps { option_map (λ steps. views steps.now) result ≡ json_steps (view value.now) }
{
    if !has_just(value, &["steps", "tries"]) {
        return None;
    }
    list_in(value, "steps")
}

/// The tries of a plan, 0 to 9. Returns `None` if they are anything else.
pub fn plan_tries(value: &Value) -> Option<u8>
    ensures tries { result ≡ json_tries (view value.now) }
{
    let tries = number_in(value, "tries")?;
    if tries > u64::from(MOST_TRIES) {
        return None;
    }
    Some(tries as u8)
}

/// Reads the steps that these values spell, or reports the first thing that is wrong with one of them. The other fault
/// is out of memory.
pub fn steps_of(alloc: Global, values: &[Value]) -> Result<Vec<PlanStep>, PlanFault>
    ensures read { Gives (judged_steps (length values.now) (steps_shown values.now)) (λ steps. map step_said steps.items) result }
{
    let mut steps = Vec::with_capacity(alloc, values.len())?;
    for (i, value) in values.iter().enumerate() {
        let read = step_of(alloc, values.len(), i + 1, value)?;
        steps.push(read)?;
    }
    Ok(steps)
}

/// The step of this number that a value spells, where `last` is the number of the last step.
#[tactic(auto, using(std::proofs::lemmas::Result::err_from_is_err_and, crate::proofs::LevelLemmas::fault_of_part, crate::proofs::LevelLemmas::step_unshaped, crate::proofs::LevelLemmas::shown_refused, crate::proofs::LevelLemmas::shown_by_options))]
fn step_of(alloc: Global, last: usize, step: usize, value: &Value) -> Result<PlanStep, PlanFault>
    ensures read { Gives (judged_step last step (json_step (view value.now))) step_said result }
{
    let Some((options, save)) = step_parts(value) else {
        return Err(PlanFault::Bad(bad(step, PlanCause::Shape)));
    };
    check_limits(last, step, save, options.len())?;
    let options = options_of(alloc, step, options)?;
    Ok(PlanStep { options, save })
}

/// The options of a step and whether it is marked, if the value has the shape of a step.
fn step_parts(value: &Value) -> Option<(&[Value], bool)>
    ensures parts { option_map (λ p. step_with (views p.0.now) p.1) result
        ≡ json_step (view value.now) }
{
    if !has_just(value, &["options", "save"]) {
        return None;
    }
    let options = list_in(value, "options")?;
    let save = answer_in(value, "save")?;
    Some((options, save))
}

/// The wants of the options of a step, which these values spell.
fn options_of(alloc: Global, step: usize, values: &[Value]) -> Result<Vec<Want>, PlanFault>
    ensures read { Gives (judged_options step (options_shown values.now)) (λ options. options.items) result }
{
    let mut options = Vec::with_capacity(alloc, values.len())?;
    for value in values {
        let want = option_of(step, value)?;
        options.push(want)?;
    }
    Ok(options)
}

/// The want that an option of this step spells, or the first thing that is wrong with it.
#[tactic(auto, using(crate::proofs::OptionLemmas::option_shape, crate::proofs::OptionLemmas::members_told))]
fn option_of(step: usize, value: &Value) -> Result<Want, BadPlan>
    ensures want { result ≡ judged_option step (json_option (view value.now)) }
{
    if !has_just(
        value,
        &["count", "first", "kind", "nights", "product", "supplier"],
    ) {
        return Err(bad(step, PlanCause::Shape));
    }
    want_of(
        step,
        Kind::from_word(text_in(value, "kind")),
        text_in(value, "supplier"),
        text_in(value, "product"),
        text_in(value, "first"),
        number_in(value, "nights").unwrap_or(0),
        number_in(value, "count").unwrap_or(0),
    )
}
