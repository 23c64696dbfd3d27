//! Turns and save-points: for each request about a journey but its next step, the item that it makes, or its refusal.
//!
//! The ruling depends on the cursor of the journey and the save-points that it took. Nothing here allocates.
ghost use Rattle.std.specs.Prelude.{◌≡◌, ℕ, ◌<◌, IsTrue};
ghost use Rattle.plan.specs.PlanModel.{step_count};
ghost use Rattle.ledger.specs.History as h;
ghost use Rattle.ledger.specs.JourneyChanges.{target_of};
ghost use Rattle.saga_core.specs.Rulings.{turn_said, save_said};

use commands::{Cause, Cursor, Item, Phase, Refusal};
use plan::{Marks, Plan, Turn, is_save_point, target};

/// Whether a journey in this phase goes forward.
pub fn is_running(phase: Phase) -> bool
    ensures running { result ≡ h.is_running phase }
{
    matches!(phase, Phase::Run)
}

/// Whether a journey in this phase is finished: no further item may come.
pub fn is_finished(phase: Phase) -> bool
    ensures finished { result ≡ h.is_finished phase }
{
    matches!(phase, Phase::Ended | Phase::Undone)
}

/// The position to which a journey in this phase is going back.
pub fn going(phase: Phase) -> Option<usize>
    ensures target { result ≡ target_of phase }
{
    match phase {
        Phase::Back(target) => Some(target),
        _ => None,
    }
}

/// Returns the turn of a journey with this plan, these save-points and this cursor, for this cause. Refusals, in order:
/// `Finished` if the journey is finished, `NoSavePoint` if the rules allow no such turn.
pub fn turned(
    plan: &Plan,
    marks: &Marks,
    cursor: Cursor,
    turn: Turn,
    cause: Cause,
) -> Result<Item, Refusal>
    requires short { IsTrue (h.is_open cursor.phase) → cursor.pos < step_count plan.now }
    requires above { (p : ℕ) → cursor.phase ≡ Phase.Back p → p < cursor.pos }

    ensures said { result ≡ turn_said plan.now cursor marks.now turn cause }
{
    let Cursor { pos, phase, used } = cursor;
    if is_finished(phase) {
        return Err(Refusal::Finished);
    }
    match target(plan, marks, pos, used, turn, going(phase)) {
        Ok(target) => Ok(Item::Turn { target, cause }),
        Err(_) => Err(Refusal::NoSavePoint),
    }
}

/// Returns a save-point at the position of a journey with this plan and these save-points. Refusals, in order:
/// `Finished` if the journey is finished; `NoSave` if it goes back, has done no step, or has a save-point there.
pub fn saved(plan: &Plan, marks: &Marks, cursor: Cursor) -> Result<Item, Refusal>
    requires short { IsTrue (h.is_open cursor.phase) → cursor.pos < step_count plan.now }

    ensures said { result ≡ save_said plan.now cursor marks.now }
{
    let position = cursor.pos;
    if is_finished(cursor.phase) {
        return Err(Refusal::Finished);
    }
    if !is_running(cursor.phase) || position == 0 {
        return Err(Refusal::NoSave);
    }
    if is_save_point(plan, marks, position, position) {
        return Err(Refusal::NoSave);
    }
    Ok(Item::Save { position })
}
