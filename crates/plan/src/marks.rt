//! Save-points that were taken while a journey ran, as one small value that is copied.
ghost use Rattle.std.specs.Prelude.{◌≡◌, ℕ, ◌≤◌, ◌==◌, ◌&&◌, ◌||◌, false, nat_le};
ghost use Rattle.plan.specs.Marks.{is_taken_in, last_mark, AreInRange};

use crate::limits::MOST_STEPS;
use std::marker::Model;

/// The last position at which a save-point may be taken: none is taken after the last step.
pub const LAST_MARK: usize = MOST_STEPS - 1;

/// The positions from 1 to `LAST_MARK` at which save-points were taken while a journey ran. To a contract it is their set.
#[derive(Clone, Copy, Debug, PartialEq, Eq)]
pub struct Marks {
    /// One flag for each position. The one of position 0 never stands.
    taken: [bool; MOST_STEPS],
}

impl Model for Marks {
    ghost use Rattle.std.specs.Ordering.{nat_cmp};
    ghost use Rattle.std.specs.FinSet as set;
    ghost use Rattle.std.specs.Coded.{coded_ℕ};
    ghost use Rattle.std.proofs.Common.{ap};
    ghost use Rattle.plan.specs.Flags.{flagged, flags_of, AreFlags, flags_of-flagged};

    ghost Value = { set.FinSet nat_cmp };

    ghost coded = { set.code coded_ℕ };

    ghost view = { λ a. flagged a.taken };

    ghost invariant = { λ a. AreFlags a.taken };

    ghost inverse = { λ marks. record { taken = flags_of marks } };

    ghost inverse_ok = { λ a h. ap (λ all. record { taken = all }) (flags_of-flagged a.taken h) };
}

impl Marks {
    /// The empty set: no save-point was taken.
    pub fn none() -> Marks
        ensures empty { (p : ℕ) → is_taken_in result p ≡ false }
    {
        Marks {
            taken: [false; MOST_STEPS],
        }
    }

    /// Whether a save-point was taken at this position.
    pub fn has(&self, p: usize) -> bool
        ensures taken { result ≡ is_taken_in self.now p }
        ensures in_range { AreInRange self.now }
    {
        self.taken.get(p).copied().unwrap_or(false)
    }

    /// Takes a save-point at this position, 1 to `LAST_MARK`. Idempotent.
    pub fn add(&mut self, p: usize)
        requires from_one { 1 ≤ p }
        requires in_range { p ≤ last_mark }

        ensures added { (q : ℕ) → is_taken_in self.new q ≡ ((q == p) || is_taken_in self.old q) }
    {
        self.taken[p] = true;
    }

    /// Drops the save-points above this position, and keeps the others.
    pub fn cut(&mut self, pos: usize)
        ensures kept { (q : ℕ) → is_taken_in self.new q ≡ (nat_le q pos && is_taken_in self.old q) }
    {
        let above = pos.saturating_add(1).min(MOST_STEPS);
        self.taken[above..].fill(false);
    }
}
