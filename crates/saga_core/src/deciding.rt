//! The next step of a journey: the one move that the rules let a journey make by itself.
//!
//! The move depends on the cursor of the journey, the save-points that it took, and whether its next want fits. Nothing
//! here allocates.
ghost use Rattle.std.specs.Prelude.{◌≡◌, ℕ, ◌+◌, ◌<◌, ◌↔◌, IsTrue, IsFalse};
ghost use Rattle.plan.specs.PlanModel.{step_count};
ghost use Rattle.ledger.specs.History.{is_finished};
ghost use Rattle.plan.specs.Marks.{is_taken_in};
ghost use Rattle.plan.specs.Rules as rules;
ghost use Rattle.saga_core.specs.Deciding.{IsOptionOf, NamesOnlyStep, NamesStep};

use commands::{Cursor, Phase};
use plan::{Marks, Plan, Turn, option_at, target};

/// What a step does. Steps and their options are numbered from 1.
#[derive(Clone, Copy, Debug, PartialEq, Eq)]
pub enum Move {
    /// Takes the want of this step, with this option of the step.
    Take(usize, usize),
    /// Compensates this step.
    Undo(usize),
    /// Turns the journey back to this position, since the next want does not fit.
    Turn(usize),
    /// Does nothing: the journey has ended or is undone.
    Nothing,
}

/// The position to which a running journey turns if its next want does not fit.
fn refused_target(plan: &Plan, marks: &Marks, pos: usize, used: usize) -> usize
    requires { pos < step_count plan.now }

    ensures { result ≡ rules.refused_target plan.now (is_taken_in marks.now) pos used }
{
    // a refused step always has a target, which may be position 0
    target(plan, marks, pos, used, Turn::Refused, None).unwrap_or(0)
}

/// Returns the next step of a journey with this plan, these save-points and this cursor. `fits` says whether its next
/// want fits.
pub fn decide(plan: &Plan, marks: &Marks, cursor: &Cursor, fits: bool) -> Move
    requires short { cursor.now.phase ≡ Phase.Run → cursor.now.pos < step_count plan.now }

    ensures only { NamesOnlyStep plan.now marks.now cursor.now fits result }
    ensures one { NamesStep plan.now marks.now cursor.now fits result }

    ensures takes { cursor.now.phase ≡ Phase.Run → IsTrue fits → result ≡ Move.Take
        (cursor.now.pos + 1) (rules.next_option plan.now cursor.now.pos cursor.now.used) }
    ensures turns { cursor.now.phase ≡ Phase.Run → IsFalse fits → result ≡ Move.Turn
        (rules.refused_target plan.now (is_taken_in marks.now) cursor.now.pos cursor.now.used) }
    ensures undoes { (p : ℕ) → cursor.now.phase ≡ Phase.Back p → result ≡ Move.Undo cursor.now.pos }
    ensures nothing { (result ≡ Move.Nothing) ↔ IsTrue (is_finished cursor.now.phase) }
    ensures in_plan { (i c : ℕ) → result ≡ Move.Take i c → IsOptionOf plan.now i c }
{
    match cursor.phase {
        Phase::Run => {
            if fits {
                prove!(cursor.pos < plan.steps());
                let step = cursor.pos + 1;
                Move::Take(step, option_at(plan, step, cursor.used))
            } else {
                Move::Turn(refused_target(plan, marks, cursor.pos, cursor.used))
            }
        }
        Phase::Back(_) => Move::Undo(cursor.pos),
        Phase::Ended | Phase::Undone => Move::Nothing,
    }
}
