//! Journeys, each with its cursor.

ghost use Rattle.std.specs.Prelude.{◌≡◌, ◌<◌, ◌^◌, IfOk, IfErr, ⊤, map};
ghost use Rattle.desk_sql.specs.Changes.{AreJourneysBelow, adds_journey, begun, IsSmallCursor, moves_journey, IsSmallItem, AreItemsBelow, adds_item};
ghost use Rattle.desk_sql.specs.FoundRows.{FindsJourney, FindsUnfinished, IfRow, ReadsOne, shows_cursor, cursor_of, shows_journey, nine_of, FindsItems, shows_item, four_of};
ghost use Rattle.desk_sql.specs.Causes.{IsMemory};
ghost use Rattle.desk_sql.specs.Writable.{MayAddJourney, MayMove, MayAddItem};
ghost use Rattle.desk_sql.specs.Readable.{IsAgentText, HasAgentText, HaveAgentTexts, Any, ShowsOne, item_shown};
ghost use Rattle.desk_sql.specs.RemainingRows.{journey_shown};
ghost use Rattle.desk_sql.specs.Rows.{JourneyRow, EntryRow};
ghost use Rattle.desk_sql.specs.Statements.{Queries, QueriesEach, WritesKeyed};
ghost use Rattle.std.specs.List.{AllByRecursion};

use crate::queries::{all_rows, first_row};
use sqlite::types::ValueRef;
use sqlite::{Alter, Connection, Error, Row, Transaction};
use std::alloc::Global;

/// The cursor of a journey.
#[derive(Clone, Copy, Debug, PartialEq, Eq)]
pub struct Cursor {
    /// How many of its steps stand.
    pub pos: u64,
    /// 0 running, 1 going back, 2 ended, 3 undone.
    pub phase: u64,
    /// The target of a journey that goes back, else 0.
    pub target: u64,
    /// How many tries or options were used.
    pub used: u64,
}

/// A journey.
#[derive(Debug, Drop)]
pub struct JourneyFound {
    /// The journey's number.
    pub id: u64,
    /// The number of the event that began it.
    pub num: u64,
    pub agent: String,
    /// The number of steps in its plan.
    pub steps: u64,
    /// The number of tries in its plan.
    pub tries: u64,
    pub cursor: Cursor,
}

fn read_cursor(row: &Row) -> Result<Cursor, Error>
    ensures shown { IfOk result (λ c. shows_cursor c ≡ cursor_of row.now) }

    ensures reason { (x : JourneyRow) → row.now ≡ journey_shown x → IfErr result IsMemory }
{
    let pos = row.get(5)?;
    let phase = row.get(6)?;
    let target = row.get(7)?;
    let used = row.get(8)?;
    Ok(Cursor {
        pos,
        phase,
        target,
        used,
    })
}

/// The journey of a row with its columns in the order of the table.
pub fn read_journey(row: &Row) -> Result<JourneyFound, Error>
    ensures shown { IfOk result (λ j. shows_journey j ≡ nine_of row.now) }

    ensures reason { (x : JourneyRow) → row.now ≡ journey_shown x → IsAgentText x
        → IfErr result IsMemory }
{
    let id = row.get(0)?;
    let num = row.get(1)?;
    let agent = row.get(2)?;
    let steps = row.get(3)?;
    let tries = row.get(4)?;
    let cursor = read_cursor(row)?;
    Ok(JourneyFound {
        id,
        num,
        agent,
        steps,
        tries,
        cursor,
    })
}

// The journey of a row, if there is a row.
fn first_journey(row: Option<Row>) -> Result<Option<JourneyFound>, Error>
    ensures shown { IfOk result (ReadsOne shows_journey nine_of row) }

    ensures reason { IfRow (ShowsOne journey_shown IsAgentText) row → IfErr result IsMemory }
{
    let Some(row) = row else {
        return Ok(None);
    };
    let journey = read_journey(&row)?;
    Ok(Some(journey))
}

/// Returns the journey with a number, if there is one.
pub fn find_journey<S: Alter>(
    conn: &mut Connection<S>,
    id: u64,
) -> Result<Option<JourneyFound>, Error>
    requires { id < 2 ^ 63 }

    ensures queries { QueriesEach S.Store conn.old conn.new result (FindsJourney id) (HasAgentText id) }
{
    let row = first_row(
        conn,
        "SELECT id, num, agent, steps, tries, pos, phase, target, used FROM journey WHERE id = ?1",
        &[ValueRef::Int(id as i64)],
    )?;
    first_journey(row)
}

/// Returns the unfinished journey with the least number above `after`, if there is one.
pub fn first_unfinished<S: Alter>(
    conn: &mut Connection<S>,
    after: u64,
) -> Result<Option<JourneyFound>, Error>
    requires { after < 2 ^ 63 }

    ensures queries { Queries S.Store conn.old conn.new result
        (FindsUnfinished after) (HaveAgentTexts after) }
{
    let row = first_row(
        conn,
        "SELECT id, num, agent, steps, tries, pos, phase, target, used FROM journey WHERE id > ?1 AND phase <= 1 ORDER BY id",
        &[ValueRef::Int(after as i64)],
    )?;
    first_journey(row)
}

/// Inserts a journey, with its cursor at the start of its plan. Its number is above all others.
pub fn insert_journey<S: Alter>(
    tx: &mut Transaction<'_, S>,
    id: u64,
    num: u64,
    agent: &str,
    steps: u64,
    tries: u64,
) -> Result<usize, Error>
    requires id { id < 2 ^ 63 }
    requires num { num < 2 ^ 63 }
    requires steps { steps < 2 ^ 63 }
    requires tries { tries < 2 ^ 63 }

    ensures writes { WritesKeyed S.Store tx.old.conn tx.new.conn result
        (AreJourneysBelow id) (MayAddJourney (begun id num agent.now steps tries))
        (adds_journey (begun id num agent.now steps tries)) }
{
    tx.execute(
        "INSERT INTO journey VALUES (?1, ?2, ?3, ?4, ?5, ?6, ?7, ?8, ?9)",
        &[
            ValueRef::Int(id as i64),
            ValueRef::Int(num as i64),
            ValueRef::Text(agent.as_bytes()),
            ValueRef::Int(steps as i64),
            ValueRef::Int(tries as i64),
            ValueRef::Int(0),
            ValueRef::Int(0),
            ValueRef::Int(0),
            ValueRef::Int(0),
        ],
    )
}

/// Updates the cursor of a journey.
pub fn move_journey<S: Alter>(
    tx: &mut Transaction<'_, S>,
    id: u64,
    cursor: Cursor,
) -> Result<usize, Error>
    requires id { id < 2 ^ 63 }
    requires cursor { IsSmallCursor cursor }

    ensures writes { WritesKeyed S.Store tx.old.conn tx.new.conn result
        Any (MayMove id cursor) (moves_journey id cursor) }
{
    tx.execute(
        "UPDATE journey SET pos = ?2, phase = ?3, target = ?4, used = ?5 WHERE id = ?1",
        &[
            ValueRef::Int(id as i64),
            ValueRef::Int(cursor.pos as i64),
            ValueRef::Int(cursor.phase as i64),
            ValueRef::Int(cursor.target as i64),
            ValueRef::Int(cursor.used as i64),
        ],
    )
}

/// One item of a journey.
#[derive(Clone, Copy, Debug, PartialEq, Eq)]
pub struct ItemFound {
    /// The number of its event.
    pub num: u64,
    /// 0 a transaction, 1 a compensation, 2 a turn, 3 a save-point.
    pub item: u64,
    /// The step, or the position of a turn or a save-point.
    pub a: u64,
    /// The option, or the cause of a turn.
    pub b: u64,
}

/// The item of a row with its event, its kind, and its two numbers, in this order.
pub fn read_item(row: &Row) -> Result<ItemFound, Error>
    ensures shown { IfOk result (λ i. shows_item i ≡ four_of row.now) }

    ensures reason { (x : EntryRow) → row.now ≡ item_shown x → IfErr result IsMemory }
{
    let num = row.get(0)?;
    let item = row.get(1)?;
    let a = row.get(2)?;
    let b = row.get(3)?;
    Ok(ItemFound { num, item, a, b })
}

fn read_items(alloc: Global, rows: &[Row]) -> Result<Vec<ItemFound>, Error>
    ensures shown { IfOk result (λ items. map shows_item items.items ≡ map four_of rows.now) }

    ensures reason { AllByRecursion (ShowsOne item_shown (λ _. ⊤)) rows.now
        → IfErr result IsMemory }
{
    let mut items = Vec::new(alloc);
    for row in rows {
        let item = read_item(row)?;
        items.push(item)?;
    }
    Ok(items)
}

/// Returns the items of a journey whose events have numbers above `after`, oldest first.
pub fn find_items<S: Alter>(
    alloc: Global,
    conn: &mut Connection<S>,
    journey: u64,
    after: u64,
) -> Result<Vec<ItemFound>, Error>
    requires journey { journey < 2 ^ 63 }
    requires after { after < 2 ^ 63 }

    ensures queries { Queries S.Store conn.old conn.new result
        (λ t found. FindsItems journey after t found.items) Any }
{
    let rows = all_rows(
        conn,
        "SELECT num, item, a, b FROM entry2 WHERE journey = ?1 AND num > ?2 ORDER BY num",
        &[ValueRef::Int(journey as i64), ValueRef::Int(after as i64)],
    )?;
    read_items(alloc, rows.as_slice())
}

/// Inserts an item of a journey. Its number is above all others.
pub fn insert_item<S: Alter>(
    tx: &mut Transaction<'_, S>,
    journey: u64,
    item: ItemFound,
) -> Result<usize, Error>
    requires journey { journey < 2 ^ 63 }
    requires item { IsSmallItem item }

    ensures writes { WritesKeyed S.Store tx.old.conn tx.new.conn result
        (AreItemsBelow item.num) (MayAddItem journey item) (adds_item journey item) }
{
    tx.execute(
        "INSERT INTO entry2 VALUES (?1, ?2, ?3, ?4, ?5)",
        &[
            ValueRef::Int(item.num as i64),
            ValueRef::Int(journey as i64),
            ValueRef::Int(item.item as i64),
            ValueRef::Int(item.a as i64),
            ValueRef::Int(item.b as i64),
        ],
    )
}
