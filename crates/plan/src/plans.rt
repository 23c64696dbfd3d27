//! Plans that keep the limits, and what they say of their steps.
ghost use Rattle.std.specs.Prelude.{◌≡◌, ◌≤◌, Some, Ok, Err, IfOk, IfErr, IsTrue, string_bytes};
ghost use Rattle.plan.specs.Limits.{most_steps};
ghost use Rattle.plan.specs.PlanModel.{plan_said, is_plan, step_count, is_marked_at, option_count, want_at};
ghost use Rattle.plan.specs.Faults.{IfBad, IsBadAnd};
ghost use Rattle.plan.specs.Levels.{MakesPlan};
ghost use Rattle.plan.specs.PlanLine.{ReadsAs, IsPlanLine, plan_line};
ghost use Rattle.plan.specs.PlanJson.{JsonReadsAs};
ghost use Rattle.serde_json.specs.View.{view};

use crate::causes::PlanCause;
use crate::faults::{PlanFault, bad};
use crate::json::{plan_steps, plan_tries, steps_of};
use crate::limits::{MOST_STEPS, MOST_TRIES, check_steps};
use crate::lines::{count_steps, steps_in};
use crate::parts::split_tries;
use crate::printing::push_steps;
use crate::steps::{PlanStep, copied};
use allotment::Want;
use serde_json::Value;
use std::alloc::{AllocError, Global};
use std::marker::Model;

/// A plan that keeps the limits. To a contract it is the record of its steps and tries.
#[derive(Drop)]
pub struct Plan {
    steps: Vec<PlanStep>,
    tries: u8,
}

impl Model for Plan {
    ghost use Rattle.std.specs.Prelude.{IsTrue};
    ghost use Rattle.plan.specs.PlanModel.{Planned, plan_said, is_plan};

    ghost Value = { Planned };

    ghost view = { λ a. plan_said a.steps.items a.tries };

    ghost invariant = { λ a. IsTrue (is_plan (plan_said a.steps.items a.tries)) };
}

impl Plan {
    /// Reads the plan of a line, or reports the first thing that is wrong with it. The other fault is out of memory.
    ///
    /// A line is the steps with `;` between them, `!` and the tries, one digit. A step is its options with `|` between
    /// them, and `*` where it is marked. An option is `KIND/SUPPLIER/PRODUCT/FIRST/NIGHTS/COUNT`. Numbers have no
    /// leading zeros, so that a plan has one line.
    pub fn from_line(alloc: Global, text: &str) -> Result<Plan, PlanFault>
        ensures read { IfOk result (λ plan. ReadsAs text.now (Ok plan)) }
        ensures spelled { IfOk result (λ plan. IsPlanLine text.now plan) }

        ensures refused { IfErr result (IfBad (λ bad. ReadsAs text.now (Err bad))) }
        ensures step { IfErr result (IfBad (λ bad. bad.step ≤ most_steps)) }
    {
        let Some((front, tries)) = split_tries(text) else {
            return Err(PlanFault::Bad(bad(0, PlanCause::Tries)));
        };
        let count = count_steps(front);
        if count > MOST_STEPS {
            return Err(PlanFault::Bad(bad(0, PlanCause::Steps)));
        }
        let steps = steps_in(alloc, count, front)?;
        Ok(Plan { steps, tries })
    }

    /// Reads the plan of a JSON value, or reports the first thing that is wrong with it. The other fault is out of
    /// memory.
    ///
    /// A plan is an object with the members `steps`, a list, and `tries`; a step one with `options`, a list, and
    /// `save`, true or false; an option one with `kind`, a kind's word, `supplier`, `product` and `first`, which are
    /// texts, and `nights` and `count`. None has another member. A number must be an integer: `1.0` is refused.
    pub fn from_json(alloc: Global, value: &Value) -> Result<Plan, PlanFault>
        ensures read { IfOk result (λ plan. JsonReadsAs (view value.now) (Ok plan)) }

        ensures refused { IfErr result (IfBad (λ bad. JsonReadsAs (view value.now) (Err bad))) }
        ensures step { IfErr result (IfBad (λ bad. bad.step ≤ most_steps)) }
    {
        let Some(values) = plan_steps(value) else {
            return Err(PlanFault::Bad(bad(0, PlanCause::Shape)));
        };
        let Some(tries) = plan_tries(value) else {
            return Err(PlanFault::Bad(bad(0, PlanCause::Tries)));
        };
        let last = values.len();
        if last == 0 || last > MOST_STEPS {
            return Err(PlanFault::Bad(bad(0, PlanCause::Steps)));
        }
        let steps = steps_of(alloc, values)?;
        Ok(Plan { steps, tries })
    }

    /// Makes a plan of these steps and tries, or reports the first limit that it would break: its tries, the number of
    /// its steps, then of each step its mark and the number of its options.
    pub fn from_steps(steps: Vec<PlanStep>, tries: u8) -> Result<Plan, PlanFault>
        ensures made { IfOk result (λ plan. MakesPlan steps.items tries (Ok plan)) }
        ensures same { IfOk result (λ plan. plan ≡ plan_said steps.items tries) }

        ensures refused { IfErr result (IsBadAnd (λ bad. MakesPlan steps.items tries (Err bad))) }
    {
        if tries > MOST_TRIES {
            return Err(PlanFault::Bad(bad(0, PlanCause::Tries)));
        }
        let count = steps.len();
        if count == 0 || count > MOST_STEPS {
            return Err(PlanFault::Bad(bad(0, PlanCause::Steps)));
        }
        check_steps(steps.as_slice())?;
        Ok(Plan { steps, tries })
    }

    /// The line of the plan: its one spelling. The only fault is out of memory.
    pub fn line(&self, alloc: Global) -> Result<String, AllocError>
        ensures line { IfOk result (λ text. string_bytes text ≡ plan_line self.now) }
    {
        let mut line = String::new(alloc);
        push_steps(&mut line, self.steps.as_slice())?;
        let tries = self.tries;
        write!(line, "!{tries}")?;
        Ok(line)
    }

    /// How many steps there are, 1 to 24.
    pub fn steps(&self) -> usize
        ensures count { result ≡ step_count self.now }

        ensures limits { IsTrue (is_plan self.now) }
    {
        self.steps.len()
    }

    /// How often a refused step is retried, 0 to 9.
    pub fn tries(&self) -> u8
        ensures tries { result ≡ self.now.tries }
    {
        self.tries
    }

    /// Whether a save-point is taken after a step, counted from 1. The precondition says that the plan has the step.
    pub fn marked(&self, step: usize) -> bool
        requires from_one { 1 ≤ step }
        requires in_plan { step ≤ step_count self.now }

        ensures mark { result ≡ is_marked_at self.now step }
    {
        self.steps[step - 1].save
    }

    /// How many options a step, counted from 1, has: 1 to 8. The precondition says that the plan has the step.
    pub fn options(&self, step: usize) -> usize
        requires from_one { 1 ≤ step }
        requires in_plan { step ≤ step_count self.now }

        ensures count { result ≡ option_count self.now step }
    {
        self.steps[step - 1].options.len()
    }

    /// An option of a step, both counted from 1. The precondition says that the plan has both.
    pub fn want(&self, step: usize, option: usize) -> Want
        requires step_from_one { 1 ≤ step }
        requires step_in_plan { step ≤ step_count self.now }
        requires option_from_one { 1 ≤ option }
        requires option_in_step { option ≤ option_count self.now step }

        ensures want { want_at self.now step option ≡ Some result }
    {
        self.steps[step - 1].options[option - 1]
    }

    /// A copy of the plan. The only fault is out of memory.
    pub fn clone(&self, alloc: Global) -> Result<Plan, AllocError>
        ensures same { IfOk result (λ plan. plan ≡ self.now) }
    {
        let mut steps = Vec::with_capacity(alloc, self.steps.len())?;
        for step in &self.steps {
            steps.push(copied(alloc, step)?)?;
        }
        Ok(Plan {
            steps,
            tries: self.tries,
        })
    }
}
