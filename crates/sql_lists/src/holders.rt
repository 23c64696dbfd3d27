//! The options that hold places of a cell, one at a time.

ghost use Rattle.std.specs.Prelude.{◌≡◌, ◌<◌, ◌^◌, List, IfErr, IfOk};
ghost use Rattle.std.specs.Borrow.{sem};
ghost use Rattle.sqlite.specs.Held.{state};
ghost use Rattle.sqlite.specs.State.{HasCleanDisk};
ghost use Rattle.desk_sql.specs.Calls.{Quiet};
ghost use Rattle.desk_sql.specs.Causes.{HasReason, IsMemory, IsUp};
ghost use Rattle.desk_sql.specs.FoundRows.{four_of};
ghost use Rattle.desk_sql.specs.Lending.{LeavesIfErr};
ghost use Rattle.desk_sql.specs.RemainingRows.{Hands};
ghost use Rattle.sql_lists.specs.Listing.{StartsOver};
ghost use Rattle.sql_lists.specs.HolderLists.{HoldersRest, ListsHolders, holder_shown};
ghost use Rattle.sql_lists.specs.declared.holders.HolderFound.{HolderFound};

use allotment::Cell;
use sqlite::types::ValueRef;
use sqlite::{Alter, Connection, Error, Row, Rows};

/// An option that was taken, and that holds places of a cell.
#[derive(Clone, Copy, Debug)]
pub struct HolderFound {
    /// The journey's number.
    pub journey: u64,
    /// The number of the step, from 1.
    pub place: u64,
    /// The number of the option, from 1.
    pub opt: u64,
    /// The number of places.
    pub places: u64,
}

/// The day of the cell's night.
fn day_of(cell: &Cell) -> u64
    ensures day { result ≡ cell.now.night }
    ensures small { result < 2 ^ 63 }
{
    u64::from(cell.night.day())
}

/// Starts to read the options that hold places of a cell, in order of journey, step and option. If that fails, nothing
/// has changed.
pub fn hand_holders<'a, S: Alter>(
    conn: &'a mut Connection<S>,
    cell: &Cell,
) -> Result<Rows<'a, S>, Error>
    ensures* fault { sem 𝓛 (LeavesIfErr S.row S.Store conn.entry result) }
    ensures started { IfOk result (λ it.
        StartsOver S.Store conn.entry it (ListsHolders cell.now) (HoldersRest S.Store)) }
{
    let kind = ValueRef::Int(u64::from(cell.kind.number()) as i64);
    let night = ValueRef::Int(day_of(cell) as i64);
    conn.query(
        "SELECT journey, place, opt, places FROM step WHERE taken = 1 AND kind = ?1 AND supplier = ?2 AND product = ?3 AND night <= ?4 AND nights > ?4 - night ORDER BY journey, place, opt",
        &[
            kind,
            ValueRef::Text(cell.supplier.as_str().as_bytes()),
            ValueRef::Text(cell.product.as_str().as_bytes()),
            night,
        ],
    )
}

/// The option of a row.
fn read_holder(row: &Row) -> Result<HolderFound, Error>
    ensures shown { IfOk result (λ h. holder_shown h ≡ four_of row.now) }

    ensures reason { (x : HolderFound) → row.now ≡ holder_shown x → IfErr result IsMemory }
{
    let journey = row.get(0)?;
    let place = row.get(1)?;
    let opt = row.get(2)?;
    let places = row.get(3)?;
    Ok(HolderFound {
        journey,
        place,
        opt,
        places,
    })
}

/// Returns the next option of the rows that `hand_holders` started; `None` after the last one.
pub fn next_holder<S: Alter>(rows: &mut Rows<'_, S>) -> Result<Option<HolderFound>, Error>
    ensures same_reference { rows.new.conn.ghost_name ≡ rows.old.conn.ghost_name }
    ensures next { HasCleanDisk (state S.Store rows.new.conn.now) → IfOk result (λ found.
        Hands (HoldersRest S.Store rows.old.conn.now)
        (HoldersRest S.Store rows.new.conn.now) found) }
    ensures reason { HasCleanDisk (state S.Store rows.new.conn.now) → (later : List HolderFound)
        → HoldersRest S.Store rows.old.conn.now later
        → IsUp (state S.Store rows.old.conn.now)
        → IfErr result
        (HasReason (state S.Store rows.old.conn.now) (state S.Store rows.new.conn.now)) }
    ensures quiet { Quiet S.Store rows.old.conn.now rows.new.conn.now }
{
    rows.advance()?;
    match rows.get() {
        Some(row) => {
            let holder = read_holder(row)?;
            Ok(Some(holder))
        }
        None => Ok(None),
    }
}
