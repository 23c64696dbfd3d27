//! Plans as JSON values.
ghost use Rattle.std.specs.Prelude.{◌≡◌, ◌≤◌, IfOk, Some, map};
ghost use Rattle.http_pages.specs.Bodies.{list};
ghost use Rattle.serde_json.specs.View.{view};
ghost use Rattle.plan.specs.PlanData.{plan_data, step_data, want_data};
ghost use Rattle.plan.specs.PlanModel.{StepPlan, numbered, step_count};

use allotment::Want;
use commands::{put_text, put_whole};
use plan::Plan;
use serde_json::{Map, Value, put};
use std::alloc::{AllocError, Global};

/// The value of a plan: its steps and its tries. The only fault is out of memory, as in each call here.
pub fn plan_value(alloc: Global, plan: &Plan) -> Result<Value, AllocError>
    ensures value { IfOk result (λ value. view value ≡ plan_data plan.now) }
{
    let mut members = Map::new(alloc);
    put(&mut members, alloc, "steps", steps_value(alloc, plan)?)?;
    put(&mut members, alloc, "tries", Value::from(plan.tries()))?;
    Ok(Value::Object(members))
}

/// The list of the steps of a plan.
fn steps_value(alloc: Global, plan: &Plan) -> Result<Value, AllocError>
    ensures value { IfOk result (λ value. view value ≡ list (map step_data plan.now.steps)) }
{
    let mut values = Vec::with_capacity(alloc, plan.steps())?;
    for step in 0..plan.steps() {
        values.push(step_value(alloc, plan, step + 1)?)?;
    }
    Ok(Value::Array(values))
}

/// The value of a step, counted from 1: its options, and whether it is marked.
fn step_value(alloc: Global, plan: &Plan, step: usize) -> Result<Value, AllocError>
    requires from_one { 1 ≤ step }
    requires in_plan { step ≤ step_count plan.now }

    ensures value { IfOk result (λ value. (s : StepPlan) → numbered plan.now.steps step ≡ Some s →
        view value ≡ step_data s) }
{
    let mut members = Map::new(alloc);
    put(
        &mut members,
        alloc,
        "options",
        wants_value(alloc, plan, step)?,
    )?;
    put(&mut members, alloc, "save", Value::Bool(plan.marked(step)))?;
    Ok(Value::Object(members))
}

/// The list of the options of a step, counted from 1.
fn wants_value(alloc: Global, plan: &Plan, step: usize) -> Result<Value, AllocError>
    requires from_one { 1 ≤ step }
    requires in_plan { step ≤ step_count plan.now }

    ensures value { IfOk result (λ value. (s : StepPlan) → numbered plan.now.steps step ≡ Some s →
        view value ≡ list (map want_data s.options)) }
{
    let mut values = Vec::with_capacity(alloc, plan.options(step))?;
    for option in 0..plan.options(step) {
        values.push(want_value(alloc, &plan.want(step, option + 1))?)?;
    }
    Ok(Value::Array(values))
}

/// The value of an option: its six parts, the kind by its word and the first night by its text.
fn want_value(alloc: Global, want: &Want) -> Result<Value, AllocError>
    ensures value { IfOk result (λ value. view value ≡ want_data want.now) }
{
    let first = want.first().text(alloc)?;
    let mut members = Map::new(alloc);
    put_whole(alloc, &mut members, "count", u64::from(want.count()))?;
    put_text(alloc, &mut members, "first", first.as_str())?;
    put_text(alloc, &mut members, "kind", want.kind().word())?;
    put_whole(alloc, &mut members, "nights", u64::from(want.nights()))?;
    put_text(alloc, &mut members, "product", want.product().as_str())?;
    put_text(alloc, &mut members, "supplier", want.supplier().as_str())?;
    Ok(Value::Object(members))
}
