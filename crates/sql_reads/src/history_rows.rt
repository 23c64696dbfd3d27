//! The items of a journey, oldest first, read one at a time.
//!
//! Each item has a query of its own: the first row after the event of the item before, or after the begin of the
//! journey. So the store reads no further than the next item. After the item that finishes the journey there is no
//! further query.

ghost use Rattle.std.specs.Prelude.{◌≡◌, ◌+◌, ◌<◌, ◌^◌, true, false, Err, IfOk, OnErr, OnOk};
ghost use Rattle.sqlite.specs.Held.{state};
ghost use Rattle.sqlite.specs.State.{HasCleanDisk};
ghost use Rattle.desk_sql.specs.Calls.{Quiet};
ghost use Rattle.ledger.specs.Ledger.{history};
ghost use Rattle.saga_core.specs.RowSources.{count_of, Hands};
ghost use Rattle.sql_reads.specs.ItemSearch.{IsLow};
ghost use Rattle.sql_reads.specs.Causes.{FailsForReasonEach, FailsForReasonIn};
ghost use Rattle.sql_reads.specs.RemainingRows.{ItemsRest, BeginsKept};

use crate::following::{is_finished_with, position_after};
use crate::item_search::Sought;
use crate::reads::{LARGEST, find_next, find_sought};
use crate::telling::item_told;
use commands::{Fault, Item};
use desk_sql::Version;
use sqlite::{Alter, Connection};

/// A position in the items of a journey. After a fault every call returns `Store`.
#[derive(Drop)]
pub struct ItemCursor {
    // The version of the tables.
    version: Version,
    // The search for the next item starts after this event.
    sought: Sought,
    // The position of the journey after the items that were returned, and whether the last of them finished the
    // journey.
    pos: u64,
    finished: bool,
    given: u64,
    // A row could not be read, or has a value out of range, and no item may be returned after it.
    failed: bool,
}

/// Returns a cursor before the first item of the journey of that number; if there is no such journey, it has no item.
pub fn item_cursor<S: Alter>(
    conn: &mut Connection<S>,
    version: Version,
    id: u64,
) -> Result<ItemCursor, Fault>
    ensures rows { IfOk result (λ it. BeginsKept S.Store conn.old conn.new version
        (λ s items. items ≡ history s.ledger id) (ItemsRest S.Store conn.new it)) }
    ensures none { IfOk result (λ it. it.given ≡ 0) }
    ensures going { IfOk result (λ it. it.failed ≡ false) }
    ensures low { IfOk result (λ it. IsLow it.sought) }
    ensures version { IfOk result (λ it. it.version ≡ version) }

    ensures store { FailsForReasonEach S.Store conn.old conn.new result }
    ensures quiet { Quiet S.Store conn.old conn.new }
{
    match find_sought(conn, id) {
        Ok(sought) => Ok(ItemCursor {
            version,
            sought,
            pos: 0,
            finished: false,
            given: 0,
            failed: false,
        }),
        Err(fault) => Err(fault),
    }
}

impl ItemCursor {
    /// Reads the next item from a connection; `None` after the last one.
    pub fn next_item<S: Alter>(&mut self, conn: &mut Connection<S>) -> Result<Option<Item>, Fault>
        ensures next { HasCleanDisk (state S.Store conn.new) → IfOk result
            (Hands (ItemsRest S.Store conn.old self.old) (ItemsRest S.Store conn.new self.new)) }
        ensures counted { IfOk result (λ found. self.new.given ≡ count_of found + self.old.given) }
        ensures uncounted { OnErr result (self.new.given ≡ self.old.given) }
        ensures few { self.new.given < 2 ^ 64 }
        ensures no_query { self.old.finished ≡ true → conn.new ≡ conn.old }

        ensures low { IsLow self.old.sought → IsLow self.new.sought }
        ensures version { self.new.version ≡ self.old.version }
        ensures store { IsLow self.old.sought → self.old.failed ≡ false
            → FailsForReasonIn S.Store conn.old conn.new self.old.version result }
        ensures going { OnOk result (self.new.failed ≡ false) }
        ensures failed { OnErr result (self.new.failed ≡ true) }
        ensures stays_failed { self.old.failed ≡ true → result ≡ Err Fault.Store }
        ensures quiet { Quiet S.Store conn.old conn.new }
    {
        let given = self.given;
        if self.failed {
            return Err(Fault::Store);
        }
        if self.finished {
            return Ok(None);
        }
        self.failed = true;
        match find_next(conn, self.version, &self.sought) {
            Ok(Some(found)) => {
                // more items than can be counted
                if given == u64::MAX {
                    return Err(Fault::Memory);
                }
                if found.num > LARGEST {
                    return Err(Fault::Store);
                }
                match item_told(&found) {
                    Some(item) => {
                        self.sought.after = found.num;
                        self.finished = is_finished_with(&item, self.sought.steps, self.pos);
                        self.pos = position_after(&item, self.pos);
                        self.given = given + 1;
                        self.failed = false;
                        Ok(Some(item))
                    }
                    None => Err(Fault::Store),
                }
            }
            Ok(None) => {
                self.failed = false;
                Ok(None)
            }
            Err(fault) => Err(fault),
        }
    }
}
