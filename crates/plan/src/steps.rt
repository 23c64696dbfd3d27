//! The steps of a plan.
ghost use Rattle.std.specs.Prelude.{◌≡◌, IfOk};
ghost use Rattle.plan.specs.PlanModel.{step_said};

use allotment::Want;
use std::alloc::{AllocError, Global};

/// One step of a plan.
#[derive(Drop)]
pub struct PlanStep {
    /// The wants that would do, in order of preference: 1 to 8 in a plan.
    pub options: Vec<Want>,
    /// Whether a save-point is taken after the step.
    pub save: bool,
}

/// A copy of the step. The only fault is out of memory.
pub fn copied(alloc: Global, step: &PlanStep) -> Result<PlanStep, AllocError>
    ensures same { IfOk result (λ copy. step_said copy ≡ step_said step.now) }
{
    let options = Vec::from_slice(alloc, step.options.as_slice())?;
    Ok(PlanStep {
        options,
        save: step.save,
    })
}
