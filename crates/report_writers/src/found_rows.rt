//! The rows that a connection finds, read one at a time as the desk's own.

ghost use Rattle.std.specs.Prelude.{◌≡◌, ◌<◌, ◌+◌, ◌^◌, false, IfOk, IsErrOf, OnOk};
ghost use Rattle.sqlite.specs.Held.{Held, state};
ghost use Rattle.sqlite.specs.State.{HasCleanDisk};
ghost use Rattle.desk_sql.specs.Causes.{HasFaulted, IsUp};
ghost use Rattle.saga_core.specs.RowSources.{count_of, Hands, StaysReady};
ghost use Rattle.sql_reads.specs.RemainingRows.{RowsStay, StaysUnder};
ghost use Rattle.report_writers.specs.Ready.{IsReady};
ghost use Rattle.report_writers.specs.declared.found_rows.FoundRows.{FoundRows};
ghost use Rattle.report_writers.specs.Stopping.{StopsAtFault};

use crate::progress::Progress;
use commands::Fault;
use saga_core::RowSource;
use sqlite::{Alter, Rows};

/// What a row of a list of the desk is read as.
pub trait FoundRow<S: Alter>: Sized + Drop {
    ghost use Rattle.std.specs.Prelude.{List};

    /// The rows of the connection that are still to be returned are these, in order.
    ghost rests: { Held S → List Self → Type 0 };

    /// There are such rows, and each keeps the limits of its cell or agent.
    ghost are_good: { Held S → Type 0 };

    /// Returns the next row; `None` after the last one. A row with a value out of range is a fault of the store.
    fn next_found(rows: &mut Rows<'_, S>) -> Result<Option<Self>, Fault>
        ensures next { HasCleanDisk (state S.Store rows.new.conn.now) → IfOk result
            (Hands (rests rows.old.conn.now) (rests rows.new.conn.now)) }
        ensures store { HasCleanDisk (state S.Store rows.new.conn.now)
            → are_good rows.old.conn.now
            → IsUp (state S.Store rows.old.conn.now) → IsErrOf result Fault.Store
            → HasFaulted (state S.Store rows.old.conn.now) (state S.Store rows.new.conn.now) }
        ensures good { HasCleanDisk (state S.Store rows.new.conn.now)
            → are_good rows.old.conn.now → OnOk result (are_good rows.new.conn.now) }
        ensures under { StaysUnder S.Store rows.old.conn rows.new.conn };
}

/// The rows that remain of those that a `start_` call returned. After a fault every call returns `Store`.
#[derive(Drop)]
pub struct FoundRows<'r, 'c, S: Alter> {
    pub rows: &'r mut Rows<'c, S>,
    pub progress: Progress,
}

impl<S: Alter, R: FoundRow<S>> RowSource<R> for FoundRows<'_, '_, S> {
    ghost use Rattle.sql_reads.specs.RemainingRows.{rows_stay_alone, rows_stay_twice};

    ghost is_sound = { λ s. HasCleanDisk (state S.Store s.rows.now.conn.now) };

    ghost rests = { λ s rows. (s.progress.failed ≡ false) × R.rests s.rows.now.conn.now rows };

    ghost given = { λ s. s.progress.given };

    ghost becomes = { λ a b. RowsStay S.Store a.rows b.rows };

    ghost is_ready = { λ first s. IsReady S.Store first.rows.now.conn.now s.rows.now.conn.now
        ((s.progress.failed ≡ false) × R.are_good s.rows.now.conn.now) };

    ghost has_reason = { λ first s.
        HasFaulted (state S.Store first.rows.now.conn.now) (state S.Store s.rows.now.conn.now) };

    ghost stays = { λ s. rows_stay_alone s.rows };

    ghost joins = { λ a b c. rows_stay_twice a.rows b.rows c.rows };

    fn next_row(&mut self) -> Result<Option<R>, Fault>
        ensures next { HasCleanDisk (state S.Store self.new.rows.now.conn.now) → IfOk result (Hands
            (λ rows. (self.old.progress.failed ≡ false)
            × R.rests self.old.rows.now.conn.now rows)
            (λ rows. (self.new.progress.failed ≡ false)
            × R.rests self.new.rows.now.conn.now rows)) }
        ensures counted { IfOk result (λ found.
            self.new.progress.given ≡ count_of found + self.old.progress.given) }
        ensures few { self.new.progress.given < 2 ^ 64 }

        ensures kept { RowsStay S.Store self.old.rows self.new.rows }
        ensures sound { HasCleanDisk (state S.Store self.new.rows.now.conn.now)
            → HasCleanDisk (state S.Store self.old.rows.now.conn.now) }

        ensures reason { (first : FoundRows S S.Store) → HasCleanDisk (state S.Store self.new.rows.now.conn.now)
            → IsReady S.Store first.rows.now.conn.now self.old.rows.now.conn.now
            ((self.old.progress.failed ≡ false) × R.are_good self.old.rows.now.conn.now)
            → StaysReady (IsReady S.Store first.rows.now.conn.now self.new.rows.now.conn.now
            ((self.new.progress.failed ≡ false) × R.are_good self.new.rows.now.conn.now))
            (HasFaulted (state S.Store first.rows.now.conn.now) (state S.Store self.new.rows.now.conn.now)) result }
        ensures stops { StopsAtFault self.old.progress self.new.progress result }
    {
        let given = self.progress.given;
        if self.progress.failed {
            return Err(Fault::Store);
        }
        self.progress.failed = true;
        match R::next_found(self.rows) {
            Ok(Some(row)) => {
                // more rows than can be counted
                if given == u64::MAX {
                    return Err(Fault::Memory);
                }
                self.progress.given = given + 1;
                self.progress.failed = false;
                Ok(Some(row))
            }
            Ok(None) => {
                self.progress.failed = false;
                Ok(None)
            }
            Err(fault) => Err(fault),
        }
    }
}
