//! The statements that only migration runs: they make the new tables beside the old ones, and copy the items.

ghost use Rattle.std.specs.Prelude.{◌+◌, ◌≤◌, ◌<◌, ◌^◌};
ghost use Rattle.desk_sql.specs.Calls.{GoesOn};
ghost use Rattle.tables.specs.Copying.{AddsTables, CopiesItems};
ghost use Rattle.tables.specs.MigrateReasons.{FailsOnOld, FailsToCopy};

use sqlite::types::ValueRef;
use sqlite::{Alter, Error, Transaction};

/// The most events whose items one statement copies, so that its memory does not grow with the file.
const RANGE: u64 = 4096;

/// Makes `entry2` and `mark`, without rows, beside the tables of version 1.
pub(crate) fn add_tables<S: Alter>(tx: &mut Transaction<'_, S>) -> Result<(), Error>
    ensures goes { GoesOn S.Store tx.old.conn tx.new.conn result }
    ensures made { AddsTables S.Store tx.old.conn.now tx.new.conn.now result }
    ensures reason { FailsOnOld S.Store tx.old.conn.now tx.new.conn.now result }
{
    tx.execute(
        "CREATE TABLE entry2(num INTEGER PRIMARY KEY, journey INTEGER NOT NULL REFERENCES journey(id), item INTEGER NOT NULL CHECK(item BETWEEN 0 AND 3), a INTEGER NOT NULL, b INTEGER NOT NULL) STRICT",
        &[],
    )?;
    tx.execute(
        "CREATE TABLE mark(journey INTEGER NOT NULL REFERENCES journey(id), pos INTEGER NOT NULL, PRIMARY KEY(journey, pos)) STRICT",
        &[],
    )?;
    Ok(())
}

/// Copies the items of a range of events, the first and the last included. Those of earlier events are copied already.
fn copy_items<S: Alter>(tx: &mut Transaction<'_, S>, first: u64, last: u64) -> Result<(), Error>
    requires order { first ≤ last }
    requires last { last < 2 ^ 63 }

    ensures goes { GoesOn S.Store tx.old.conn tx.new.conn result }
    ensures made { CopiesItems S.Store tx.old.conn.now tx.new.conn.now result first (last + 1) }
    ensures reason { FailsToCopy S.Store tx.old.conn.now tx.new.conn.now result first }
{
    tx.execute(
        "INSERT INTO entry2 SELECT num, journey, item, a, b FROM entry WHERE num BETWEEN ?1 AND ?2 ORDER BY num",
        &[ValueRef::Int(first as i64), ValueRef::Int(last as i64)],
    )?;
    Ok(())
}

/// Copies the items of all events up to the last one, one range after another.
pub(crate) fn copy_all<S: Alter>(tx: &mut Transaction<'_, S>, events: u64) -> Result<(), Error>
    requires events { events < 2 ^ 62 }

    ensures goes { GoesOn S.Store tx.old.conn tx.new.conn result }
    ensures made { CopiesItems S.Store tx.old.conn.now tx.new.conn.now result 0 (events + 1) }
    ensures reason { FailsToCopy S.Store tx.old.conn.now tx.new.conn.now result 0 }
{
    let mut first = 0;
    while first <= events {
        let last = events.min(first + (RANGE - 1));
        copy_items(tx, first, last)?;
        first = last + 1;
    }
    Ok(())
}
