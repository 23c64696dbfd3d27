//! The outcome of a step of a journey, by the rows of that step alone.
//!
//! A want that fits is taken, and a step is compensated, without the other rows of the plan. If the want does not fit,
//! the journey turns, and more of the plan is read only if a try is left.
ghost use Rattle.std.specs.Prelude.{◌≡◌, ◌≤◌, ◌<◌, false, IfOk};
ghost use Rattle.std.specs.Option.{option_copied as asked_by};
ghost use Rattle.plan.specs.Limits.{most_options};
ghost use Rattle.desk_sql.specs.declared.versions.Version.TheVariants.{Two};
ghost use Rattle.sql_reads.specs.Reads.{Read, ReadIn};
ghost use Rattle.sql_commands.specs.Executing.{Replies};
ghost use Rattle.sql_commands.specs.Failing.{IsNewTo};
ghost use Rattle.sql_commands.specs.Moving.{Comes, FitsIn, MayCome, down_made, up_made};
ghost use Rattle.sql_commands.specs.Placing.{StandsAt};
ghost use Rattle.commands.specs.Request.{Step};
ghost use Rattle.sql_writes.specs.Kinds.{IsSmall};

use crate::cursors::{Found, Made};
use crate::moves::{Motion, answer_motion, find_stand, make_event};
use allotment::{Want, fits};
use commands::{Ask, Fault, Item, Phase, Refusal, Reply};
use saga_core::{cursor_down, cursor_up};
use sql_reads::{Choice, last_choice, next_choice, read_cells};
use sql_writes::{Event, StepMade};
use sqlite::{Alter, Connection};
use std::alloc::Global;

/// The outcome of a step.
#[derive(Clone, Copy)]
pub(crate) enum Coming {
    /// The next step is done with this option.
    Up(Choice),
    /// The last standing step, which took this option, is compensated.
    Down(Choice),
    /// The next want does not fit.
    Refused,
    /// Nothing: the journey has finished.
    Nothing,
}

/// The next step of a journey, with this option.
fn step_up<'x>(found: &Found, choice: &Choice) -> Made<'x>
    requires below { found.now.stand.cursor.pos < found.now.stand.steps }
    requires few { choice.now.option ≤ most_options }

    ensures up { result ≡ up_made found.now.id found.now.stand choice.now }
    ensures small { IsSmall result.event }
{
    let step = found.stand.cursor.pos + 1;
    let option = choice.option;
    let cursor = cursor_up(found.stand.steps, found.stand.cursor);
    Made {
        item: Item::Transaction { step, option },
        event: Event::Transaction(StepMade {
            journey: found.id,
            step,
            option,
            want: choice.want,
            cursor,
        }),
        cursor,
    }
}

/// The compensation of the last standing step of a journey, with this option.
fn step_down<'x>(found: &Found, choice: &Choice) -> Made<'x>
    requires above { 1 ≤ found.now.stand.cursor.pos }
    requires few { choice.now.option ≤ most_options }

    ensures down { result ≡ down_made found.now.id found.now.stand choice.now }
    ensures small { IsSmall result.event }
{
    let step = found.stand.cursor.pos;
    let option = choice.option;
    let cursor = cursor_down(found.stand.cursor);
    Made {
        item: Item::Compensation { step, option },
        event: Event::Compensation(StepMade {
            journey: found.id,
            step,
            option,
            want: choice.want,
            cursor,
        }),
        cursor,
    }
}

/// Whether a want fits the free places of its nights.
fn fits_nights<S: Alter>(
    alloc: Global,
    conn: &mut Connection<S>,
    want: &Want,
) -> Result<bool, Fault>
    ensures { Read S.Store conn.old conn.new result (FitsIn want.now) }
{
    match read_cells(alloc, conn, want) {
        Ok(cells) => Ok(fits(cells.as_slice(), want)),
        Err(fault) => Err(fault),
    }
}

/// Finds the outcome of a step of a journey.
fn find_coming<S: Alter>(
    alloc: Global,
    conn: &mut Connection<S>,
    found: &Found,
) -> Result<Coming, Fault>
    ensures read { ReadIn S.Store conn.old conn.new Two result (StandsAt found.now.id found.now.stand)
        (Comes found.now.id found.now.stand) }
    ensures may { IfOk result (MayCome found.now.stand) }
{
    let Found { id, stand, .. } = *found;
    match stand.cursor.phase {
        Phase::Run => {
            let choice = next_choice(alloc, conn, id, stand.cursor.pos + 1, stand.cursor.used)?;
            let fitting = fits_nights(alloc, conn, &choice.want)?;
            if fitting {
                Ok(Coming::Up(choice))
            } else {
                Ok(Coming::Refused)
            }
        }
        Phase::Back(_) => {
            let choice = last_choice(alloc, conn, id, stand.cursor.pos)?;
            Ok(Coming::Down(choice))
        }
        Phase::Ended | Phase::Undone => Ok(Coming::Nothing),
    }
}

/// Executes a step of a journey for whose ask no reply is kept.
pub(crate) fn answer_step<S: Alter>(
    alloc: Global,
    conn: &mut Connection<S>,
    id: u64,
    ask: Option<&Ask>,
) -> Result<Reply, Fault>
    requires outside { conn.old.in_transaction ≡ false }

    ensures { Replies S.Store conn.old conn.new (asked_by ask.entry) (Step id)
        (IsNewTo (asked_by ask.entry)) result }
{
    match find_stand(conn, id, ask) {
        Ok(None) => Ok(Reply::Refused(Refusal::NoJourney)),
        Ok(Some(found)) => match find_coming(alloc, conn, &found)? {
            Coming::Up(choice) => {
                let made = step_up(&found, &choice);
                make_event(alloc, conn, &found, &made, ask)
            }
            Coming::Down(choice) => {
                let made = step_down(&found, &choice);
                make_event(alloc, conn, &found, &made, ask)
            }
            Coming::Refused => answer_motion(alloc, conn, &found, Motion::Refused, ask),
            Coming::Nothing => Ok(Reply::Refused(Refusal::Finished)),
        },
        Err(fault) => Err(fault),
    }
}
