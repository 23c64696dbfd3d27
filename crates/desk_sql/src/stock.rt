//! The places of each cell.

ghost use Rattle.std.specs.Prelude.{◌≡◌, ◌<◌, ◌^◌, map, pos, neg_ℤ, IfOk, IfErr, ⊤};
ghost use Rattle.desk_sql.specs.Stock.{IsSmallRange, FindsNights, shows_night, shows_cell, HaveFree, HaveRoom, takes_nights, gives_nights, IsSmallCell, AreApart, placed, puts_cell};
ghost use Rattle.desk_sql.specs.FoundRows.{three_of, six_of};
ghost use Rattle.std.specs.List.{AllByRecursion};
ghost use Rattle.desk_sql.specs.Causes.{IsMemory};
ghost use Rattle.desk_sql.specs.Writable.{MayPut, MayTakeNights, MayGiveNights};
ghost use Rattle.desk_sql.specs.Readable.{Any, AreCellTexts, ShowsOne, night_shown};
ghost use Rattle.desk_sql.specs.RemainingRows.{stock_shown};
ghost use Rattle.desk_sql.specs.Rows.{StockRow};
ghost use Rattle.desk_sql.specs.Statements.{Queries, WritesNumbered};

use crate::queries::all_rows;
use sqlite::types::ValueRef;
use sqlite::{Alter, Connection, Error, Row, Transaction};
use std::alloc::Global;

/// The nights of a supplier's product from the first to the last, both included.
#[derive(Clone, Copy)]
pub struct NightRange<'x> {
    pub kind: u64,
    pub supplier: &'x str,
    pub product: &'x str,
    pub first: u64,
    pub last: u64,
}

/// One night of a range, with its places.
#[derive(Clone, Copy, Debug, PartialEq, Eq)]
pub struct NightFound {
    pub night: u64,
    /// How many places the supplier allotted.
    pub allot: u64,
    /// How many of them are free.
    pub free: u64,
}

fn read_night(row: &Row) -> Result<NightFound, Error>
    ensures shown { IfOk result (λ n. shows_night n ≡ three_of row.now) }

    ensures reason { (x : StockRow) → row.now ≡ night_shown x → IfErr result IsMemory }
{
    let night = row.get(0)?;
    let allot = row.get(1)?;
    let free = row.get(2)?;
    Ok(NightFound { night, allot, free })
}

fn read_nights(alloc: Global, rows: &[Row]) -> Result<Vec<NightFound>, Error>
    ensures shown { IfOk result (λ nights. map shows_night nights.items ≡ map three_of rows.now) }

    ensures reason { AllByRecursion (ShowsOne night_shown (λ _. ⊤)) rows.now
        → IfErr result IsMemory }
{
    let mut nights = Vec::new(alloc);
    for row in rows {
        let night = read_night(row)?;
        nights.push(night)?;
    }
    Ok(nights)
}

/// Returns the nights of a range that have a row, in order.
pub fn find_nights<S: Alter>(
    alloc: Global,
    conn: &mut Connection<S>,
    range: NightRange<'_>,
) -> Result<Vec<NightFound>, Error>
    requires { IsSmallRange range }

    ensures queries { Queries S.Store conn.old conn.new result
        (λ t found. FindsNights range.entry t found.items) Any }
{
    let rows = all_rows(
        conn,
        "SELECT night, allot, free FROM stock WHERE kind = ?1 AND supplier = ?2 AND product = ?3 AND night BETWEEN ?4 AND ?5 ORDER BY night",
        &[
            ValueRef::Int(range.kind as i64),
            ValueRef::Text(range.supplier.as_bytes()),
            ValueRef::Text(range.product.as_bytes()),
            ValueRef::Int(range.first as i64),
            ValueRef::Int(range.last as i64),
        ],
    )?;
    read_nights(alloc, rows.as_slice())
}

/// One cell, with its places.
#[derive(Debug, Drop)]
pub struct CellFound {
    pub kind: u64,
    pub supplier: String,
    pub product: String,
    pub night: u64,
    /// How many places the supplier allotted.
    pub allot: u64,
    /// How many of them are free.
    pub free: u64,
}

/// The cell of a row with its kind, supplier, product, night, and allotted and free places, in this order.
pub fn read_cell(row: &Row) -> Result<CellFound, Error>
    ensures shown { IfOk result (λ c. shows_cell c ≡ six_of row.now) }

    ensures reason { (x : StockRow) → row.now ≡ stock_shown x → AreCellTexts x
        → IfErr result IsMemory }
{
    let kind = row.get(0)?;
    let supplier = row.get(1)?;
    let product = row.get(2)?;
    let night = row.get(3)?;
    let allot = row.get(4)?;
    let free = row.get(5)?;
    Ok(CellFound {
        kind,
        supplier,
        product,
        night,
        allot,
        free,
    })
}

/// Takes so many places of each night of a range that has a row.
pub fn take_nights<S: Alter>(
    tx: &mut Transaction<'_, S>,
    range: NightRange<'_>,
    count: u64,
) -> Result<usize, Error>
    requires range { IsSmallRange range }
    requires count { count < 2 ^ 63 }

    ensures writes { WritesNumbered S.Store tx.old.conn tx.new.conn result
        (HaveFree range.entry count) (MayTakeNights range.entry count) (HaveFree range.entry count)
        0 (takes_nights range.entry count) }
{
    tx.execute(
        "UPDATE stock SET free = free - ?4 WHERE kind = ?1 AND supplier = ?2 AND product = ?3 AND night BETWEEN ?5 AND ?6",
        &[
            ValueRef::Int(range.kind as i64),
            ValueRef::Text(range.supplier.as_bytes()),
            ValueRef::Text(range.product.as_bytes()),
            ValueRef::Int(count as i64),
            ValueRef::Int(range.first as i64),
            ValueRef::Int(range.last as i64),
        ],
    )
}

// The negated count, whose subtraction gives the places back.
fn below_zero(count: u64) -> i64
    requires { count < 2 ^ 63 }

    ensures { result ≡ neg_ℤ (pos count) }
{
    -(count as i64)
}

/// Gives back so many places of each night of a range that has a row.
pub fn give_nights<S: Alter>(
    tx: &mut Transaction<'_, S>,
    range: NightRange<'_>,
    count: u64,
) -> Result<usize, Error>
    requires range { IsSmallRange range }
    requires count { count < 2 ^ 63 }

    ensures writes { WritesNumbered S.Store tx.old.conn tx.new.conn result
        (HaveRoom range.entry count) (MayGiveNights range.entry count) (HaveRoom range.entry count)
        0 (gives_nights range.entry count) }
{
    tx.execute(
        "UPDATE stock SET free = free - ?4 WHERE kind = ?1 AND supplier = ?2 AND product = ?3 AND night BETWEEN ?5 AND ?6",
        &[
            ValueRef::Int(range.kind as i64),
            ValueRef::Text(range.supplier.as_bytes()),
            ValueRef::Text(range.product.as_bytes()),
            ValueRef::Int(below_zero(count)),
            ValueRef::Int(range.first as i64),
            ValueRef::Int(range.last as i64),
        ],
    )
}

/// One cell, with the places that are set.
#[derive(Clone, Copy)]
pub struct CellPlaces<'x> {
    pub kind: u64,
    pub supplier: &'x str,
    pub product: &'x str,
    pub night: u64,
    /// How many places the supplier allotted.
    pub allot: u64,
    /// How many of them are free.
    pub free: u64,
}

/// Sets the places of a cell, whether it has a row or not.
pub fn put_cell<S: Alter>(tx: &mut Transaction<'_, S>, cell: CellPlaces<'_>) -> Result<usize, Error>
    requires { IsSmallCell cell }

    ensures writes { WritesNumbered S.Store tx.old.conn tx.new.conn result
        AreApart (MayPut (placed cell.entry)) Any 1 (puts_cell (placed cell.entry)) }
{
    tx.execute(
        "INSERT INTO stock VALUES (?1, ?2, ?3, ?4, ?5, ?6) ON CONFLICT(kind, supplier, product, night) DO UPDATE SET allot = excluded.allot, free = excluded.free",
        &[
            ValueRef::Int(cell.kind as i64),
            ValueRef::Text(cell.supplier.as_bytes()),
            ValueRef::Text(cell.product.as_bytes()),
            ValueRef::Int(cell.night as i64),
            ValueRef::Int(cell.allot as i64),
            ValueRef::Int(cell.free as i64),
        ],
    )
}
