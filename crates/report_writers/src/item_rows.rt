//! The items of a journey, oldest first, read one at a time, each by a query of its own.

ghost use Rattle.std.specs.Prelude.{◌≡◌, ◌<◌, ◌+◌, ◌^◌, IfOk};
ghost use Rattle.std.specs.Borrow.{sem};
ghost use Rattle.sqlite.specs.Held.{state};
ghost use Rattle.sqlite.specs.State.{HasCleanDisk};
ghost use Rattle.desk_sql.specs.Causes.{HasFaulted};
ghost use Rattle.ledger.specs.Ledger.{history};
ghost use Rattle.saga_core.specs.RowSources.{count_of, Hands, StaysReady};
ghost use Rattle.sql_reads.specs.RemainingRows.{BeginsKept, ItemsRest, StaysUnder};
ghost use Rattle.report_writers.specs.ItemsLeft.{AreSought, GoesOnFrom, IsAtStart, LeavesIfErr};
ghost use Rattle.report_writers.specs.Ready.{IsReady};
ghost use Rattle.report_writers.specs.declared.item_rows.ItemRows.{ItemRows};

use commands::{Fault, Item};
use desk_sql::Version;
use saga_core::RowSource;
use sql_reads::{ItemCursor, item_cursor};
use sqlite::{Alter, Connection};

/// The items of a journey that remain. After a fault every call returns `Store`.
#[derive(Drop)]
pub struct ItemRows<'c, S: Alter> {
    conn: &'c mut Connection<S>,
    cursor: ItemCursor,
}

/// Starts to read the items of the journey of that number, oldest first, in tables of this version; none if there is no
/// such journey. The store reads from the begin of the journey to its last item, or to the end if it is not finished.
pub fn start_items<'c, S: Alter>(
    conn: &'c mut Connection<S>,
    version: Version,
    id: u64,
) -> Result<ItemRows<'c, S>, Fault>
    ensures* fault { sem 𝓛 (LeavesIfErr S.row S.Store version (λ it. it.conn.ghost_name)
        conn.entry result) }
    ensures rows { IfOk result (λ it. BeginsKept S.Store conn.old it.conn.now version
        (λ s items. items ≡ history s.ledger id)
        (⟦<ItemRows<'c, S> as RowSource<Item>>⟧.rests it)) }
    ensures start { IfOk result (λ it. IsAtStart version it.cursor) }
    ensures under { IfOk result (λ it. StaysUnder S.Store conn.entry it.conn) }
{
    match item_cursor(conn, version, id) {
        Ok(cursor) => Ok(ItemRows { conn, cursor }),
        Err(fault) => Err(fault),
    }
}

impl<S: Alter> RowSource<Item> for ItemRows<'_, S> {
    ghost use Rattle.sql_reads.specs.RemainingRows.{stays_alone, stays_twice};

    ghost is_sound = { λ s. HasCleanDisk (state S.Store s.conn.now) };

    ghost rests = { λ s items. ItemsRest S.Store s.conn.now s.cursor items };

    ghost given = { λ s. s.cursor.given };

    ghost becomes = { λ a b. StaysUnder S.Store a.conn b.conn };

    ghost is_ready = { λ first s. IsReady S.Store first.conn.now s.conn.now
        (AreSought S.Store s.conn.now s.cursor) };

    ghost has_reason = { λ first s.
        HasFaulted (state S.Store first.conn.now) (state S.Store s.conn.now) };

    ghost stays = { λ s. stays_alone s.conn };

    ghost joins = { λ a b c. stays_twice a.conn b.conn c.conn };

    fn next_row(&mut self) -> Result<Option<Item>, Fault>
        ensures next { HasCleanDisk (state S.Store self.new.conn.now) → IfOk result (Hands
            (ItemsRest S.Store self.old.conn.now self.old.cursor)
            (ItemsRest S.Store self.new.conn.now self.new.cursor)) }
        ensures counted { IfOk result
            (λ found. self.new.cursor.given ≡ count_of found + self.old.cursor.given) }
        ensures few { self.new.cursor.given < 2 ^ 64 }

        ensures kept { StaysUnder S.Store self.old.conn self.new.conn }
        ensures sound { HasCleanDisk (state S.Store self.new.conn.now)
            → HasCleanDisk (state S.Store self.old.conn.now) }

        ensures reason { (first : ItemRows S) → HasCleanDisk (state S.Store self.new.conn.now)
            → IsReady S.Store first.conn.now self.old.conn.now
            (AreSought S.Store self.old.conn.now self.old.cursor)
            → StaysReady (IsReady S.Store first.conn.now self.new.conn.now
            (AreSought S.Store self.new.conn.now self.new.cursor))
            (HasFaulted (state S.Store first.conn.now) (state S.Store self.new.conn.now)) result }
        ensures goes { GoesOnFrom self.old.cursor self.new.cursor result }
    {
        self.cursor.next_item(self.conn)
    }
}
