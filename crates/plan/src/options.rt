//! The options of a plan line.
ghost use Rattle.std.specs.Prelude.{◌≡◌};
ghost use Rattle.plan.specs.PlanLine.{option_draft};
ghost use Rattle.plan.specs.Levels.{cause_of as plan_cause, judged_option, told_option};

use crate::causes::PlanCause;
use crate::faults::{BadPlan, bad};
use crate::parts::{number, option_parts};
use allotment::{Bad, Kind, Want};

/// Reads the want that an option of this step spells, or reports the first thing that is wrong with it.
#[tactic(auto, using(crate::proofs::OptionLemmas::option_shape, crate::proofs::OptionLemmas::option_told))]
pub fn option_in(step: usize, text: &str) -> Result<Want, BadPlan>
    ensures want { result ≡ judged_option step (option_draft text.now) }
{
    let Some(six) = option_parts(text) else {
        return Err(bad(step, PlanCause::Shape));
    };
    want_of(
        step,
        Kind::from_letter(six.kind),
        six.supplier,
        six.product,
        six.first,
        number(six.nights),
        number(six.count),
    )
}

/// The want of these parts of an option of this step, or the first thing that is wrong with them.
pub fn want_of(
    step: usize,
    kind: Option<Kind>,
    supplier: &str,
    product: &str,
    first: &str,
    nights: u64,
    count: u64,
) -> Result<Want, BadPlan>
    ensures want { result ≡ told_option step kind supplier.now product.now first.now nights count }
{
    let Some(kind) = kind else {
        return Err(bad(step, PlanCause::Kind));
    };
    match Want::new(kind, supplier, product, first, nights, count) {
        Ok(want) => Ok(want),
        Err(fault) => Err(bad(step, cause_of(fault))),
    }
}

/// The cause of a plan's fault for this fault of a want.
fn cause_of(fault: Bad) -> PlanCause
    ensures cause { result ≡ plan_cause fault }
{
    match fault {
        Bad::Code => PlanCause::Code,
        Bad::Night => PlanCause::Night,
        Bad::Nights => PlanCause::Nights,
        Bad::Count => PlanCause::Count,
    }
}
