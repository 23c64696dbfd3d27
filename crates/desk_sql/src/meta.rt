//! The one row of `meta`: the version of the schema, the number of events, and the number of the last journey.

ghost use Rattle.std.specs.Prelude.{◌≡◌, ◌<◌, ◌^◌, IfOk, IfErr, ⊤};
ghost use Rattle.desk_sql.specs.Calls.{WritesWhere, GoesOn};
ghost use Rattle.desk_sql.specs.Changes.{LacksMeta, adds_meta, at_first, counts};
ghost use Rattle.desk_sql.specs.FoundRows.{HasRow, IsMeta, shows_meta, three_of};
ghost use Rattle.desk_sql.specs.Causes.{IsMemory, FailsToWrite};
ghost use Rattle.desk_sql.specs.Readable.{meta_shown, HasMeta, ShowsOne, Any};
ghost use Rattle.desk_sql.specs.Statements.{QueriesEach, WritesKeyed};

use crate::queries::first_row;
use sqlite::types::ValueRef;
use sqlite::{Alter, Connection, Error, Row, Transaction};

/// The numbers of `meta`.
#[derive(Clone, Copy, Debug, PartialEq, Eq)]
pub struct Meta {
    /// The version of the schema.
    pub version: u64,
    /// The number of events.
    pub events: u64,
    /// The number of the last journey, 0 if there is none.
    pub journeys: u64,
}

// The numbers of a row. That there is none is an error.
fn meta_of(row: Option<Row>) -> Result<Meta, Error>
    ensures shown { IfOk result (λ m. HasRow (λ r. shows_meta m ≡ three_of r) row) }

    ensures reason { HasRow (ShowsOne meta_shown (λ _. ⊤)) row → IfErr result IsMemory }
{
    let Some(row) = row else {
        return Err(Error::QueryReturnedNoRows);
    };
    let version = row.get(0)?;
    let events = row.get(1)?;
    let journeys = row.get(2)?;
    Ok(Meta {
        version,
        events,
        journeys,
    })
}

/// Returns the numbers of the one row. A `meta` without a row is an error.
pub fn read_meta<S: Alter>(conn: &mut Connection<S>) -> Result<Meta, Error>
    ensures queries { QueriesEach S.Store conn.old conn.new result IsMeta HasMeta }
{
    let row = first_row(
        conn,
        "SELECT version, events, journeys FROM meta WHERE one = 1",
        &[],
    )?;
    meta_of(row)
}

/// Inserts the row of a desk that has no event yet.
pub(crate) fn insert_meta<S: Alter>(
    tx: &mut Transaction<'_, S>,
    version: u64,
) -> Result<usize, Error>
    requires { version < 2 ^ 63 }

    ensures goes { GoesOn S.Store tx.old.conn tx.new.conn result }
    ensures made { WritesWhere S.Store tx.old.conn.now tx.new.conn.now LacksMeta result
        (adds_meta (at_first version)) }
    ensures reason { FailsToWrite S.Store tx.old.conn.now tx.new.conn.now result LacksMeta }
{
    tx.execute(
        "INSERT INTO meta VALUES (1, ?1, 0, 0)",
        &[ValueRef::Int(version as i64)],
    )
}

/// Updates all three numbers.
pub fn update_meta<S: Alter>(
    tx: &mut Transaction<'_, S>,
    version: u64,
    events: u64,
    journeys: u64,
) -> Result<usize, Error>
    requires version { version < 2 ^ 63 }
    requires events { events < 2 ^ 63 }
    requires journeys { journeys < 2 ^ 63 }

    ensures writes { WritesKeyed S.Store tx.old.conn tx.new.conn result
        Any Any (counts (record { version = version; events = events; journeys = journeys })) }
{
    tx.execute(
        "UPDATE meta SET version = ?1, events = ?2, journeys = ?3 WHERE one = 1",
        &[
            ValueRef::Int(version as i64),
            ValueRef::Int(events as i64),
            ValueRef::Int(journeys as i64),
        ],
    )
}
