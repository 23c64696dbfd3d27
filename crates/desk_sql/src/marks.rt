//! Save-points that were taken at run time and still stand.

ghost use Rattle.std.specs.Prelude.{◌≡◌, ◌<◌, ◌^◌, map, IfOk, IfErr, ⊤};
ghost use Rattle.sqlite.specs.Order.{column};
ghost use Rattle.desk_sql.specs.Changes.{adds_mark, drops_mark};
ghost use Rattle.desk_sql.specs.FoundRows.{FindsMarks};
ghost use Rattle.desk_sql.specs.Rows.{whole};
ghost use Rattle.std.specs.List.{AllByRecursion};
ghost use Rattle.desk_sql.specs.Causes.{IsMemory};
ghost use Rattle.desk_sql.specs.Writable.{MayAddMark};
ghost use Rattle.desk_sql.specs.Readable.{Any, ShowsOne, mark_shown};
ghost use Rattle.desk_sql.specs.Statements.{Queries, WritesKeyed, WritesNumbered};

use crate::queries::all_rows;
use sqlite::types::ValueRef;
use sqlite::{Alter, Connection, Error, Row, Transaction};
use std::alloc::Global;

fn read_marks(alloc: Global, rows: &[Row]) -> Result<Vec<u64>, Error>
    ensures shown { IfOk result (λ marks. map whole marks.items ≡ map (λ r. column r 0) rows.now) }

    ensures reason { AllByRecursion (ShowsOne mark_shown (λ _. ⊤)) rows.now
        → IfErr result IsMemory }
{
    let mut marks = Vec::new(alloc);
    for row in rows {
        let mark = row.get(0)?;
        marks.push(mark)?;
    }
    Ok(marks)
}

/// Returns the positions of the save-points of a journey, the lowest first.
pub fn find_marks<S: Alter>(
    alloc: Global,
    conn: &mut Connection<S>,
    journey: u64,
) -> Result<Vec<u64>, Error>
    requires { journey < 2 ^ 63 }

    ensures queries { Queries S.Store conn.old conn.new result
        (λ t found. FindsMarks journey t found.items) Any }
{
    let rows = all_rows(
        conn,
        "SELECT pos FROM mark WHERE journey = ?1 ORDER BY pos",
        &[ValueRef::Int(journey as i64)],
    )?;
    read_marks(alloc, rows.as_slice())
}

/// Inserts a save-point of a journey.
pub fn insert_mark<S: Alter>(
    tx: &mut Transaction<'_, S>,
    journey: u64,
    pos: u64,
) -> Result<usize, Error>
    requires journey { journey < 2 ^ 63 }
    requires pos { pos < 2 ^ 63 }

    ensures writes { WritesNumbered S.Store tx.old.conn tx.new.conn result
        Any (MayAddMark journey pos) Any 1 (adds_mark journey pos) }
{
    tx.execute(
        "INSERT INTO mark VALUES (?1, ?2)",
        &[ValueRef::Int(journey as i64), ValueRef::Int(pos as i64)],
    )
}

/// Deletes a save-point of a journey, if it exists.
pub fn delete_mark<S: Alter>(
    tx: &mut Transaction<'_, S>,
    journey: u64,
    pos: u64,
) -> Result<usize, Error>
    requires journey { journey < 2 ^ 63 }
    requires pos { pos < 2 ^ 63 }

    ensures writes { WritesKeyed S.Store tx.old.conn tx.new.conn result Any Any (drops_mark journey pos) }
{
    tx.execute(
        "DELETE FROM mark WHERE journey = ?1 AND pos = ?2",
        &[ValueRef::Int(journey as i64), ValueRef::Int(pos as i64)],
    )
}
