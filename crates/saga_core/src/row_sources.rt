//! Lists of rows that are read one row at a time.
//!
//! A source returns the rows of one list, in their order, each once. A source is *sound* while its store has returned
//! what was written; soundness may end at any call, and never returns.
ghost use Rattle.std.specs.Prelude.{◌≡◌, ◌≤◌, ◌^◌, ◌<◌, ◌+◌, ⊤, ℕ, List, drop, length, IfOk, IsOk};
ghost use Rattle.saga_core.specs.RowSources.{count_of, Hands, StaysReady};

use commands::Fault;

/// A list of rows, read one row at a time.
pub trait RowSource<T> {
    /// The store has returned what was written, so far.
    ghost is_sound: { Self → Type 0 };

    /// The rows that are still to be returned are these, in order.
    ghost rests: { Self → List T → Type 0 };

    /// How many rows were returned.
    ghost given: { Self → ℕ };

    /// What the source reads may have become this one by returning rows.
    ghost becomes: { Self → Self → Type 0 };

    /// Since the one, there was a reason for `Store`, or each row that the other is still to return can be read.
    ghost is_ready: { Self → Self → Type 0 } = { λ _ _. ⊥ };

    /// Between the one and the other there was a reason for `Store`.
    ghost has_reason: { Self → Self → Type 0 } = { λ _ _. ⊥ };

    /// Returns the next row; `None` after the last one.
    fn next_row(&mut self) -> Result<Option<T>, Fault>
        ensures next { is_sound self.new → IfOk result (Hands (rests self.old) (rests self.new)) }
        ensures counted { IfOk result (λ found. given self.new ≡ count_of found + given self.old) }
        ensures few { given self.new < 2 ^ 64 }

        ensures kept { becomes self.old self.new }
        ensures sound { is_sound self.new → is_sound self.old }
        ensures reason { (first : Self) → is_sound self.new → is_ready first self.old →
            StaysReady (is_ready first self.new) (has_reason first self.new) result };

    /// `becomes` is reflexive: a source that returns no row is as it was.
    ghost stays: { (s : Self) → becomes s s };

    /// `becomes` is transitive.
    ghost joins: { (a b c : Self) → becomes a b → becomes b c → becomes a c };
}

/// The rows of a list in memory.
#[derive(Drop)]
pub struct Listed<'a, T> {
    rows: &'a [T],
    next: usize,
    ghost within: { next ≤ length rows.now },
}

impl<'a, T: Copy> Listed<'a, T> {
    /// A source of all rows of the slice, in order.
    pub fn new(rows: &'a [T]) -> Listed<'a, T>
        ensures rows { ⟦<Listed<'a, T> as RowSource<T>>⟧.rests result rows.now }
        ensures none { ⟦<Listed<'a, T> as RowSource<T>>⟧.given result ≡ 0 }
    {
        Listed { rows, next: 0 }
    }
}

impl<T: Copy> RowSource<T> for Listed<'_, T> {
    ghost is_sound = { λ _. ⊤ };

    ghost rests = { λ s rows. rows ≡ drop s.next s.rows.now };

    ghost given = { λ s. s.next };

    ghost becomes = { λ _ _. ⊤ };

    ghost is_ready = { λ _ _. ⊤ };

    ghost has_reason = { λ _ _. ⊥ };

    ghost stays = { λ _. tt };

    ghost joins = { λ _ _ _ _ _. tt };

    /// Returns the next row; never fails.
    fn next_row(&mut self) -> Result<Option<T>, Fault>
        ensures next { IfOk result (Hands (λ rows. rows ≡ drop self.old.next self.old.rows.now)
            (λ rows. rows ≡ drop self.new.next self.new.rows.now)) }
        ensures counted { IfOk result (λ found. self.new.next ≡ count_of found + self.old.next) }
        ensures few { self.new.next < 2 ^ 64 }

        ensures reason { StaysReady ⊤ ⊥ result }
        ensures always { IsOk result }
    {
        match self.rows.get(self.next) {
            Some(row) => {
                self.next += 1;
                Ok(Some(*row))
            }
            None => Ok(None),
        }
    }
}
