//! The rows of a new journey: its own, and one for each option of each step of its plan.
ghost use Rattle.std.specs.Prelude.{◌<◌, ◌+◌, length, ⊤};
ghost use Rattle.plan.specs.PlanModel.{step_count};
ghost use Rattle.desk_sql.specs.Changes.{AreJourneysBelow};
ghost use Rattle.sql_writes.specs.Begins.{begin_rows};
ghost use Rattle.sql_writes.specs.Did.{Did, DidIfOpen};
ghost use Rattle.sql_model.specs.Beginning.{adds_steps, rows_of_step};
ghost use Rattle.sql_model.specs.ExpectedRows.{step_rows_of};
ghost use Rattle.sql_writes.specs.Permits.{MayAddOptions, MayAddSteps, MayBegin};

use crate::events::{JourneyBegun, Numbers};
use desk_sql::{StepOption, insert_journey, insert_step, update_meta};
use plan::Plan;
use sqlite::{Alter, Error, Transaction};

/// Inserts the rows of the options of one step of a plan, before which there are so many. Steps and options are numbered from 1.
fn write_options<S: Alter>(
    tx: &mut Transaction<'_, S>,
    numbers: Numbers,
    plan: &Plan,
    before: usize,
) -> Result<(), Error>
    requires { before < step_count plan.now }

    ensures did { DidIfOpen S.Store tx.old.conn tx.new.conn result
        (λ _. ⊤) (MayAddOptions numbers.journeys (before + 1))
        (length (rows_of_step numbers.journeys plan.now (before + 1)))
        (adds_steps (rows_of_step numbers.journeys plan.now (before + 1))) }
{
    let _steps = plan.steps();
    let step = before + 1;
    for option in 0..plan.options(step) {
        let want = plan.want(step, option + 1);
        insert_step(
            tx,
            StepOption {
                journey: numbers.journeys,
                place: step as u64,
                opt: (option + 1) as u64,
                save: u64::from(plan.marked(step)),
                kind: u64::from(want.kind().number()),
                supplier: want.supplier().as_str(),
                product: want.product().as_str(),
                night: u64::from(want.first().day()),
                nights: u64::from(want.nights()),
                places: u64::from(want.count()),
            },
        )?;
    }
    Ok(())
}

/// Inserts the rows of all steps of a plan.
fn write_steps<S: Alter>(
    tx: &mut Transaction<'_, S>,
    numbers: Numbers,
    plan: &Plan,
) -> Result<(), Error>
    ensures did { DidIfOpen S.Store tx.old.conn tx.new.conn result
        (λ _. ⊤) (MayAddSteps numbers.journeys)
        (length (step_rows_of numbers.journeys plan.now))
        (adds_steps (step_rows_of numbers.journeys plan.now)) }
{
    for step in 0..plan.steps() {
        write_options(tx, numbers, plan, step)?;
    }
    Ok(())
}

/// Writes the rows of a new journey: its own, those of its plan, and the numbers of `meta`.
pub fn write_begin<S: Alter>(
    tx: &mut Transaction<'_, S>,
    numbers: Numbers,
    begun: JourneyBegun<'_>,
) -> Result<(), Error>
    ensures did { Did S.Store tx.old.conn tx.new.conn result
        (AreJourneysBelow numbers.journeys) (MayBegin numbers begun.entry)
        (length (step_rows_of numbers.journeys begun.entry.plan.now))
        (begin_rows numbers begun.entry) }
{
    let JourneyBegun { agent, plan } = begun;
    insert_journey(
        tx,
        numbers.journeys,
        numbers.num,
        agent,
        plan.steps() as u64,
        u64::from(plan.tries()),
    )?;
    write_steps(tx, numbers, plan)?;
    update_meta(tx, 2, numbers.num, numbers.journeys)?;
    Ok(())
}
