//! The items of a journey, each read after the event of the item before, in tables of either version.
//!
//! The store reads no further than the item that is found.

ghost use Rattle.std.specs.Prelude.{◌≡◌, ◌<◌, ◌^◌};
ghost use Rattle.desk_sql.specs.FoundRows.{FindsNextItem};
ghost use Rattle.desk_sql.specs.Readable.{Any};
ghost use Rattle.desk_sql.specs.Statements.{QueriesIn};
ghost use Rattle.sql_reads.specs.ItemTexts.{next_item_text};

use desk_sql::{ItemFound, Version, first_row, read_item};
use sqlite::types::ValueRef;
use sqlite::{Alter, Connection, Error};

/// The query for the next item, in tables of this version.
fn text_in(version: Version) -> &'static str
    ensures { result.now ≡ next_item_text version }
{
    match version {
        Version::One =>
            "SELECT num, item, a, b FROM entry WHERE journey = ?1 AND num > ?2 ORDER BY num",
        Version::Two =>
            "SELECT num, item, a, b FROM entry2 WHERE journey = ?1 AND num > ?2 ORDER BY num",
    }
}

/// Returns the first item of a journey whose event has a number above `after`, if there is one.
pub fn next_item<S: Alter>(
    conn: &mut Connection<S>,
    version: Version,
    journey: u64,
    after: u64,
) -> Result<Option<ItemFound>, Error>
    requires journey { journey < 2 ^ 63 }
    requires after { after < 2 ^ 63 }

    ensures queries { QueriesIn S.Store conn.old conn.new version result
        (FindsNextItem journey after) Any }
{
    match first_row(
        conn,
        text_in(version),
        &[ValueRef::Int(journey as i64), ValueRef::Int(after as i64)],
    )? {
        Some(row) => {
            let item = read_item(&row)?;
            Ok(Some(item))
        }
        None => Ok(None),
    }
}
