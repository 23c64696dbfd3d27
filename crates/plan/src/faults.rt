//! Why there is no plan.
ghost use Rattle.std.specs.Prelude.{◌≡◌};
ghost use Rattle.plan.specs.declared.faults.PlanFault.TheVariants.{Bad, Memory};
ghost use Rattle.plan.specs.Drafts.{at};

use crate::causes::PlanCause;
use std::alloc::{AllocError, AllocFailed};

/// The first thing that is wrong with a plan, and where.
#[derive(Clone, Copy, Debug, PartialEq, Eq)]
pub struct BadPlan {
    /// The step, counted from 1; 0 where the fault is of the plan as a whole.
    pub step: usize,
    pub cause: PlanCause,
}

/// The fault of this cause at this step.
pub fn bad(step: usize, cause: PlanCause) -> BadPlan
    ensures bad { result ≡ at step cause }
{
    BadPlan { step, cause }
}

/// Why there is no plan.
#[derive(Clone, Copy, Debug, PartialEq, Eq)]
pub enum PlanFault {
    /// A text, a value or steps that make no plan.
    Bad(BadPlan),
    /// Out of memory.
    Memory,
}

impl From<AllocError> for PlanFault {
    ghost from_gives = { λ _ fault. fault ≡ Memory };

    fn from(_error: AllocError) -> PlanFault {
        PlanFault::Memory
    }
}

impl<T: Drop> From<AllocFailed<T>> for PlanFault {
    ghost from_gives = { λ _ fault. fault ≡ Memory };

    fn from(_error: AllocFailed<T>) -> PlanFault {
        PlanFault::Memory
    }
}

impl From<BadPlan> for PlanFault {
    ghost from_gives = { λ bad fault. fault ≡ Bad bad };

    fn from(bad: BadPlan) -> PlanFault {
        PlanFault::Bad(bad)
    }
}
