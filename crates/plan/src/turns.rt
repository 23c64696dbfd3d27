//! Turns, and the positions to which they lead.
ghost use Rattle.std.specs.Prelude.{◌≡◌, ◌<◌, ◌≤◌, ◌↔◌, IfOk, IsErr, IfSome};
ghost use Rattle.plan.specs.PlanModel.{step_count};
ghost use Rattle.plan.specs.Marks.{is_taken_in};
ghost use Rattle.plan.specs.Rules as rules;
ghost use Rattle.plan.specs.Turns.{LeadsTo, IsLanding, IsNoTurn};

use crate::marks::Marks;
use crate::plans::Plan;
use crate::save_points::{is_save_point, last_save};

/// Why a journey turns back.
#[derive(Clone, Copy, Debug, PartialEq, Eq)]
pub enum Turn {
    /// The desk stopped while the journey ran.
    Stop,
    /// The want of its next step does not fit.
    Refused,
    /// A caller asks for it, to this position.
    Asked(usize),
}

/// There is no such turn: a stop or a refusal while the journey is going back, or a request for a position without a
/// save-point, or for one that is not below the target of a journey that is going back.
#[derive(Clone, Copy, Debug, PartialEq, Eq)]
pub struct NoSavePoint;

/// Whether a caller may turn a journey back to `p`.
fn may_turn(plan: &Plan, marks: &Marks, pos: usize, going: Option<usize>, p: usize) -> bool
    requires { pos ≤ step_count plan.now }

    ensures { result ≡ rules.may_turn plan.now (is_taken_in marks.now) pos going p }
{
    let is_below = match going {
        Some(q) => p < q,
        None => true,
    };
    is_below && (p == 0 || is_save_point(plan, marks, pos, p))
}

/// The position to which a turn of an unfinished journey at `pos` leads, 0 or a save-point. `used` is how many of its
/// steps were refused before this turn, and `going` the target of a journey that is going back. Returns `NoSavePoint`
/// if the turn may not be made.
pub fn target(
    plan: &Plan,
    marks: &Marks,
    pos: usize,
    used: usize,
    turn: Turn,
    going: Option<usize>,
) -> Result<usize, NoSavePoint>
    requires unfinished { pos < step_count plan.now }
    requires above { IfSome going (λ q. q < pos) }

    ensures target { IfOk result (LeadsTo plan.now marks.now pos used turn) }
    ensures lands { IfOk result (IsLanding plan.now marks.now pos) }

    ensures no_save_point { IsErr result ↔ IsNoTurn plan.now marks.now pos going turn }
{
    match (turn, going) {
        (Turn::Stop, None) => Ok(last_save(plan, marks, pos)),
        // a refused step leads to the last save-point while there are tries left, else to the start
        (Turn::Refused, None) if used < usize::from(plan.tries()) => Ok(last_save(
            plan, marks, pos,
        )),
        (Turn::Refused, None) => Ok(0),
        (Turn::Asked(p), _) if may_turn(plan, marks, pos, going, p) => Ok(p),
        _ => Err(NoSavePoint),
    }
}
