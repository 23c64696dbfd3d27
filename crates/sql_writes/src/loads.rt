//! The rows of a loaded batch.
ghost use Rattle.std.specs.Prelude.{◌≡◌, ◌<◌, ◌^◌, ◌+◌, length, suc};
ghost use Rattle.desk_sql.specs.Stock.{AreApart, IsSmallCell, placed, puts_cell};
ghost use Rattle.desk_sql.specs.Writable.{IsShort};
ghost use Rattle.sql_model.specs.Reading.{stock_row_of};
ghost use Rattle.sql_writes.specs.Did.{Did, DidIfOpen};
ghost use Rattle.sql_writes.specs.Loads.{MayLoad, load_rows, puts_each};
ghost use Rattle.sql_writes.specs.Permits.{HaveShortCells, MayLoadBatch, MayPutAll};

use crate::events::{BatchLoaded, Numbers};
use crate::runs::put_runs;
use allotment::{Cell, Code, Held};
use desk_sql::{CellPlaces, insert_batch, put_cell, update_meta};
use sqlite::{Alter, Error, Transaction};

/// The places of a cell, of its supplier and its product.
pub(crate) fn places_of<'x>(
    cell: Cell,
    held: Held,
    supplier: &'x Code,
    product: &'x Code,
) -> CellPlaces<'x>
    requires supplier { supplier.now ≡ cell.supplier }
    requires product { product.now ≡ cell.product }

    ensures row { placed result ≡ stock_row_of (cell, held) }
    ensures small { IsSmallCell result }
    ensures night { result.night < 2 ^ 32 }
    ensures short { IsShort (length cell.supplier + length cell.product) }
{
    CellPlaces {
        kind: u64::from(cell.kind().number()),
        supplier: supplier.as_str(),
        product: product.as_str(),
        night: u64::from(cell.night().day()),
        allot: u64::from(held.allot),
        free: u64::from(held.free),
    }
}

/// Writes the places of one cell, and returns how many rows that takes.
fn put_places<S: Alter>(tx: &mut Transaction<'_, S>, cell: Cell, held: Held) -> Result<usize, Error>
    ensures did { Did S.Store tx.old.conn tx.new.conn result AreApart HaveShortCells 1
        (puts_cell (stock_row_of (cell, held))) }
    ensures short { IsShort (length cell.supplier + length cell.product) }
{
    let supplier = cell.supplier();
    let product = cell.product();
    let places = places_of(cell, held, &supplier, &product);
    put_cell(tx, places)
}

/// Writes the places of cells, one after another.
pub(crate) fn put_all<S: Alter>(
    tx: &mut Transaction<'_, S>,
    cells: &[(Cell, Held)],
) -> Result<(), Error>
    ensures did { DidIfOpen S.Store tx.old.conn tx.new.conn result MayLoad MayPutAll
        (length cells.now) (puts_each cells.now) }
{
    for (cell, held) in cells {
        put_places(tx, *cell, *held)?;
    }
    Ok(())
}

/// Writes the rows of a loaded batch: its own, those of its cells, and the numbers of `meta`.
pub fn write_load<S: Alter>(
    tx: &mut Transaction<'_, S>,
    numbers: Numbers,
    batch: BatchLoaded<'_>,
) -> Result<(), Error>
    ensures did { Did S.Store tx.old.conn tx.new.conn result
        MayLoad (MayLoadBatch numbers batch.entry)
        (suc (length batch.entry.cells.now)) (load_rows numbers batch.entry) }
{
    insert_batch(tx, batch.name, numbers.num, batch.content.as_bytes())?;
    put_runs(tx, batch.cells)?;
    update_meta(tx, 2, numbers.num, numbers.journeys)?;
    Ok(())
}
