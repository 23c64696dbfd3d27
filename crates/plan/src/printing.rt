//! The texts of wants, steps and plans, appended to a line.
ghost use Rattle.std.specs.Prelude.{map, OnOk};
ghost use Rattle.allotment.specs.Texts.{want_text};
ghost use Rattle.plan.specs.PlanModel.{step_said};
ghost use Rattle.plan.specs.PlanLine.{options_text, step_text, steps_text, Writes};

use crate::steps::PlanStep;
use allotment::Want;
use std::alloc::AllocError;

/// Appends the steps, with `;` between them. The only fault is out of memory.
pub fn push_steps(line: &mut String, steps: &[PlanStep]) -> Result<(), AllocError>
    ensures steps { OnOk result (Writes line.old line.new (steps_text (map step_said steps.now))) }
{
    let Some((first, later)) = steps.split_first() else {
        return Ok(());
    };
    push_step(line, first)?;
    for step in later {
        line.push_str(";")?;
        push_step(line, step)?;
    }
    Ok(())
}

/// Appends the options, with `|` between them, and the mark.
fn push_step(line: &mut String, step: &PlanStep) -> Result<(), AllocError>
    ensures step { OnOk result (Writes line.old line.new (step_text (step_said step.now))) }
{
    push_options(line, step.options.as_slice())?;
    if step.save {
        line.push_str("*")?;
    }
    Ok(())
}

/// Appends the options, with `|` between them.
fn push_options(line: &mut String, options: &[Want]) -> Result<(), AllocError>
    ensures options { OnOk result (Writes line.old line.new (options_text options.now)) }
{
    let Some((first, later)) = options.split_first() else {
        return Ok(());
    };
    push_want(line, first)?;
    for want in later {
        line.push_str("|")?;
        push_want(line, want)?;
    }
    Ok(())
}

/// Appends the want: `KIND/SUPPLIER/PRODUCT/FIRST/NIGHTS/COUNT`.
fn push_want(line: &mut String, want: &Want) -> Result<(), AllocError>
    ensures want { OnOk result (Writes line.old line.new (want_text want.now)) }
{
    write!(line, "{want}")
}
