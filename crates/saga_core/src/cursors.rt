//! Where a journey is after its next item.
ghost use Rattle.std.specs.Prelude.{◌≡◌, ◌≤◌, ◌<◌, ◌^◌};
ghost use Rattle.plan.specs.PlanModel.{step_count};
ghost use Rattle.ledger.specs.JourneyChanges.{used_after as used_after_rule, phase_down as phase_down_rule, phase_up as phase_up_rule, cursor_after as after_rule};
ghost use Rattle.saga_core.specs.Cursors.{stepped_up, stepped_down, turned_to, IsWithin};

use commands::{Cause, Cursor, Item, Phase};
use plan::Plan;

/// The phase of a journey of so many steps that has reached this position by a step.
fn phase_up(steps: usize, pos: usize) -> Phase
    ensures up { result ≡ phase_up_rule steps pos }
{
    if pos == steps {
        Phase::Ended
    } else {
        Phase::Run
    }
}

/// The phase of a journey that was turned back to a target, and is at this position.
fn phase_down(target: usize, pos: usize) -> Phase
    ensures down { result ≡ phase_down_rule target pos }
{
    if target < pos {
        Phase::Back(target)
    } else if target == 0 {
        Phase::Undone
    } else {
        Phase::Run
    }
}

/// How many steps of a journey were refused after a turn for this cause.
fn used_after(cause: Cause, used: usize) -> usize
    requires few { used < 2 ^ 63 }

    ensures after { result ≡ used_after_rule cause used }
{
    match cause {
        Cause::Refused => used + 1,
        _ => used,
    }
}

/// The cursor of a journey of so many steps after one more step.
pub fn cursor_up(steps: usize, cursor: Cursor) -> Cursor
    requires below { cursor.pos < steps }

    ensures up { result ≡ stepped_up steps cursor }
{
    let Cursor { pos, used, .. } = cursor;
    Cursor {
        pos: pos + 1,
        phase: phase_up(steps, pos + 1),
        used,
    }
}

/// The cursor of a journey after the compensation of its last standing step.
pub fn cursor_down(cursor: Cursor) -> Cursor
    requires above { 1 ≤ cursor.pos }

    ensures down { result ≡ stepped_down cursor }
{
    let Cursor { pos, phase, used } = cursor;
    Cursor {
        pos: pos - 1,
        phase: match phase {
            Phase::Back(target) => phase_down(target, pos - 1),
            other => other,
        },
        used,
    }
}

/// The cursor of a journey after a turn to this target for this cause.
pub fn cursor_turned(cursor: Cursor, target: usize, cause: Cause) -> Cursor
    requires few { cursor.used < 2 ^ 63 }

    ensures turned { result ≡ turned_to target cause cursor }
{
    let Cursor { pos, used, .. } = cursor;
    Cursor {
        pos,
        phase: phase_down(target, pos),
        used: used_after(cause, used),
    }
}

/// The cursor of a journey with this plan after one more item.
pub fn cursor_after(plan: &Plan, cursor: Cursor, item: Item) -> Cursor
    requires few { cursor.used < 2 ^ 63 }
    requires within { IsWithin (step_count plan.now) cursor item }

    ensures after { result ≡ after_rule plan.now cursor item }
{
    match item {
        Item::Transaction { .. } => cursor_up(plan.steps(), cursor),
        Item::Compensation { .. } => cursor_down(cursor),
        Item::Turn { target, cause } => cursor_turned(cursor, target, cause),
        Item::Save { .. } => cursor,
    }
}
