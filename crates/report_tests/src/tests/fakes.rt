//! A source for the tests: rows up to a fault.
ghost use Rattle.std.specs.Prelude.{⊤};

use commands::Fault;
use saga_core::RowSource;

/// Returns its rows, and then fails. It promises nothing of what it returns.
#[derive(Drop)]
pub(super) struct Failing<'a, T> {
    rows: &'a [T],
    next: usize,
    fault: Fault,
}

impl<'a, T: Copy> Failing<'a, T> {
    /// These rows, and then this fault.
    pub(super) fn new(rows: &'a [T], fault: Fault) -> Failing<'a, T> {
        Failing {
            rows,
            next: 0,
            fault,
        }
    }
}

impl<T: Copy> RowSource<T> for Failing<'_, T> {
    ghost is_sound = { λ _. ⊥ };

    ghost rests = { λ _ _. ⊤ };

    ghost given = { λ s. s.next };

    ghost becomes = { λ _ _. ⊤ };

    ghost stays = { λ _. tt };

    ghost joins = { λ _ _ _ _ _. tt };

    fn next_row(&mut self) -> Result<Option<T>, Fault> {
        match self.rows.get(self.next) {
            Some(row) => {
                self.next += 1;
                Ok(Some(*row))
            }
            None => Err(self.fault),
        }
    }
}
