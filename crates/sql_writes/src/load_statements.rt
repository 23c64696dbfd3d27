//! An UPDATE of the nights of a range, and INSERTs of a cell and of a week.
ghost use Rattle.std.specs.Prelude.{◌<◌, ◌^◌, ◌+◌};
ghost use Rattle.desk_sql.specs.Stock.{IsSmallRange, IsSmallCell, placed};
ghost use Rattle.desk_sql.specs.Statements.{WritesNumbered};
ghost use Rattle.desk_sql.specs.Readable.{Any};
ghost use Rattle.sql_writes.specs.CellLoads.{CountsRows, MayAddCell, MaySetNights, adds_cell, sets_nights, nights_in};
ghost use Rattle.sql_writes.specs.Weeks.{MayAddWeek, adds_cells, week_from};

use desk_sql::{CellPlaces, NightRange};
use sqlite::types::ValueRef;
use sqlite::{Alter, Error, Transaction};

/// Sets the places of each night of a range that has a row, and returns how many have one.
pub fn set_nights<S: Alter>(
    tx: &mut Transaction<'_, S>,
    range: NightRange<'_>,
    allot: u64,
    free: u64,
) -> Result<usize, Error>
    requires range { IsSmallRange range }
    requires allot { allot < 2 ^ 63 }
    requires free { free < 2 ^ 63 }

    ensures writes { WritesNumbered S.Store tx.old.conn tx.new.conn result
        Any (MaySetNights range.entry allot free) Any 0 (sets_nights range.entry allot free) }
    ensures count { CountsRows S.Store tx.old.conn.now tx.new.conn.now result
        (nights_in range.entry) }
{
    tx.execute(
        "UPDATE stock SET allot = ?4, free = ?5 WHERE kind = ?1 AND supplier = ?2 AND product = ?3 AND night BETWEEN ?6 AND ?7",
        &[
            ValueRef::Int(range.kind as i64),
            ValueRef::Text(range.supplier.as_bytes()),
            ValueRef::Text(range.product.as_bytes()),
            ValueRef::Int(allot as i64),
            ValueRef::Int(free as i64),
            ValueRef::Int(range.first as i64),
            ValueRef::Int(range.last as i64),
        ],
    )
}

/// Adds the row of a cell that has none.
pub fn insert_cell<S: Alter>(
    tx: &mut Transaction<'_, S>,
    cell: CellPlaces<'_>,
) -> Result<usize, Error>
    requires { IsSmallCell cell }

    ensures writes { WritesNumbered S.Store tx.old.conn tx.new.conn result
        Any (MayAddCell (placed cell.entry)) Any 1 (adds_cell (placed cell.entry)) }
{
    tx.execute(
        "INSERT INTO stock VALUES (?1, ?2, ?3, ?4, ?5, ?6)",
        &[
            ValueRef::Int(cell.kind as i64),
            ValueRef::Text(cell.supplier.as_bytes()),
            ValueRef::Text(cell.product.as_bytes()),
            ValueRef::Int(cell.night as i64),
            ValueRef::Int(cell.allot as i64),
            ValueRef::Int(cell.free as i64),
        ],
    )
}

/// How many rows `insert_week` adds.
pub const WEEK: usize = 7;

/// Adds the rows of a week that has none: of the night of a cell and of the six after it, of the same product and with the
/// same places.
pub fn insert_week<S: Alter>(
    tx: &mut Transaction<'_, S>,
    first: CellPlaces<'_>,
) -> Result<usize, Error>
    requires first { IsSmallCell first }
    requires nights { first.night + 6 < 2 ^ 63 }

    ensures writes { WritesNumbered S.Store tx.old.conn tx.new.conn result
        Any (MayAddWeek (placed first.entry)) Any 7 (adds_cells (week_from (placed first.entry))) }
{
    tx.execute(
        "INSERT INTO stock VALUES (?1, ?2, ?3, ?6, ?4, ?5), (?1, ?2, ?3, ?7, ?4, ?5), (?1, ?2, ?3, ?8, ?4, ?5), (?1, ?2, ?3, ?9, ?4, ?5), (?1, ?2, ?3, ?10, ?4, ?5), (?1, ?2, ?3, ?11, ?4, ?5), (?1, ?2, ?3, ?12, ?4, ?5)",
        &[
            ValueRef::Int(first.kind as i64),
            ValueRef::Text(first.supplier.as_bytes()),
            ValueRef::Text(first.product.as_bytes()),
            ValueRef::Int(first.allot as i64),
            ValueRef::Int(first.free as i64),
            ValueRef::Int(first.night as i64),
            ValueRef::Int((first.night + 1) as i64),
            ValueRef::Int((first.night + 2) as i64),
            ValueRef::Int((first.night + 3) as i64),
            ValueRef::Int((first.night + 4) as i64),
            ValueRef::Int((first.night + 5) as i64),
            ValueRef::Int((first.night + 6) as i64),
        ],
    )
}
