//! Positions of save-points.
ghost use Rattle.std.specs.Prelude.{◌≡◌, ◌≤◌};
ghost use Rattle.plan.specs.PlanModel.{step_count};
ghost use Rattle.plan.specs.Marks.{is_taken_in};
ghost use Rattle.plan.specs.Rules as rules;
ghost use Rattle.plan.specs.Turns.{IsLanding, IsNoneAbove};

use crate::marks::Marks;
use crate::plans::Plan;

/// Whether a save-point stands at position `p` of a journey at `pos`: a marked position that was reached, or one where
/// a save-point was taken.
pub fn is_save_point(plan: &Plan, marks: &Marks, pos: usize, p: usize) -> bool
    requires { pos ≤ step_count plan.now }

    ensures stands { result ≡ rules.is_save_point plan.now (is_taken_in marks.now) pos p }
{
    marks.has(p) || (1 <= p && p <= pos && plan.marked(p))
}

/// The last save-point of a journey at `pos`, or 0 where none stands.
pub fn last_save(plan: &Plan, marks: &Marks, pos: usize) -> usize
    requires { pos ≤ step_count plan.now }

    ensures last { result ≡ rules.last_save plan.now (is_taken_in marks.now) pos }

    ensures lands { IsLanding plan.now marks.now pos result }
    ensures none_above { IsNoneAbove plan.now marks.now pos result }
{
    let mut last = 0;
    for below in 0..plan.steps() {
        let p = below + 1;
        if is_save_point(plan, marks, pos, p) {
            last = p;
        }
    }
    last
}
