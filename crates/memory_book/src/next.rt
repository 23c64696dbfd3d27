//! The result of a journey's motion, by what is kept of the journey: an item, or why there is none.
ghost use Rattle.std.specs.Prelude.{◌≡◌, IfOk};
ghost use Rattle.memory_book.specs.MemoryJourneys.{IsNext};
ghost use Rattle.saga_core.specs.Views.{is_owned_above as is_owned_above_rule, is_unfinished_above as is_unfinished_above_rule};
ghost use Rattle.memory_book.specs.MemoryNext.{motion_said, step_said};

use crate::journeys::Journey;
use commands::{Agent, Cause, Item, Refusal};
use plan::Turn;
use saga_core::{Brief, Move, decide, is_finished, saved, turned};

/// Whether the journey has a number above this one and is unfinished.
pub fn is_unfinished_above(brief: &Brief, after: u64) -> bool
    ensures unfinished { result ≡ is_unfinished_above_rule after brief.now }
{
    brief.id > after && !is_finished(brief.cursor.phase)
}

/// Whether the journey has a number above this one and is this agent's.
pub fn is_owned_above(brief: &Brief, agent: &Agent, after: u64) -> bool
    ensures owned { result ≡ is_owned_above_rule agent.now after brief.now }
{
    brief.id > after && brief.agent == *agent
}

/// What a request asks of a journey.
#[derive(Clone, Copy)]
pub enum Motion {
    /// The next step.
    Step,
    /// A turn back to this position.
    Abort(usize),
    /// A turn back to the last save-point.
    Stop,
    /// A save-point at the journey's position.
    Save,
}

/// The result of a motion; `fits` says whether the next want of a running journey fits.
pub fn moved_by(journey: &Journey, motion: Motion, fits: bool) -> Result<Item, Refusal>
    ensures said { result ≡ motion_said motion journey.now.plan journey.now.cursor
        journey.now.marks journey.now.taken.items fits }
    ensures next { IfOk result (IsNext journey.now.plan journey.now.cursor) }
{
    let cursor = journey.cursor;
    match motion {
        Motion::Step => stepped(journey, fits),
        Motion::Abort(position) => {
            let turn = Turn::Asked(position);
            turned(&journey.plan, &journey.marks, cursor, turn, Cause::Asked)
        }
        Motion::Stop => turned(
            &journey.plan,
            &journey.marks,
            cursor,
            Turn::Stop,
            Cause::Stop,
        ),
        Motion::Save => {
            let _steps = journey.plan.steps();
            saved(&journey.plan, &journey.marks, cursor)
        }
    }
}

/// The result of a step; `fits` says whether the next want of a running journey fits.
fn stepped(journey: &Journey, fits: bool) -> Result<Item, Refusal>
    ensures said { result ≡ step_said journey.now.plan journey.now.cursor journey.now.marks
        journey.now.taken.items fits }
    ensures next { IfOk result (IsNext journey.now.plan journey.now.cursor) }
{
    match decide(&journey.plan, &journey.marks, &journey.cursor, fits) {
        Move::Take(step, option) => Ok(Item::Transaction { step, option }),
        Move::Undo(step) => Ok(Item::Compensation {
            step,
            option: journey.last_option(),
        }),
        Move::Turn(target) => Ok(Item::Turn {
            target,
            cause: Cause::Refused,
        }),
        Move::Nothing => Err(Refusal::Finished),
    }
}
