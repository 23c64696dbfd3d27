//! The places of the cells of a batch, written run by run.
//!
//! One UPDATE gives a run its places, and says how many of its cells have a row: most often all, or none. Cells that
//! have none are inserted a week at a time, without a look for their rows. That takes two fifths of what it takes to put
//! each cell by itself.
//!
//! Words: a *run* is consecutive nights of one product that get the same places.
ghost use Rattle.std.specs.Prelude.{◌≡◌, ◌<◌, ◌≤◌, length, map, take, true, ⊤};
ghost use Rattle.std.specs.List.{AllByRecursion};
ghost use Rattle.sql_writes.specs.CellLoads.{CountsRows, LacksCell, adds_cell};
ghost use Rattle.sql_writes.specs.Weeks.{adds_cells, week_from};
ghost use Rattle.sql_model.specs.Reading.{stock_row_of};
ghost use Rattle.sql_writes.specs.Did.{Did, DidIfOpen};
ghost use Rattle.sql_writes.specs.Loads.{MayLoad, puts_each};
ghost use Rattle.sql_writes.specs.Permits.{HaveShortCells, MayPutAll};
ghost use Rattle.sql_writes.specs.Runs.{HasShortTexts, IsLater, IsRun, sets_until, known_until, AreNew, LacksWeek, adds_each};

use crate::loads::{places_of, put_all};
use crate::{WEEK, insert_cell, insert_week, set_nights};
use allotment::{Cell, Held, Night};
use desk_sql::NightRange;
use sqlite::{Alter, Error, Transaction};

/// Whether a cell is so many nights after the first one, of the same product, and gets the same places.
fn is_later(first: &(Cell, Held), nights: usize, next: &(Cell, Held)) -> bool
    ensures later { result ≡ true → IsLater first.now nights next.now }
{
    let (cell, held) = *first;
    let (other, places) = *next;
    let from = cell.night().day();
    let day = other.night().day();
    other.kind().number() == cell.kind().number()
        && other.supplier().as_str() == cell.supplier().as_str()
        && other.product().as_str() == cell.product().as_str()
        && from <= day
        && (day - from) as usize == nights
        && places.allot == held.allot
        && places.free == held.free
}

/// How many of the first cells are a run: at least one, if there is a cell.
fn run_length(cells: &[(Cell, Held)]) -> usize
    ensures within { result ≤ length cells.now }
    ensures some { 0 < length cells.now → 0 < result }
    ensures run { IsRun (take result cells.now) }
{
    let Some(first) = cells.first() else {
        return 0;
    };
    for nights in 1..cells.len() {
        if !is_later(first, nights, &cells[nights]) {
            return nights;
        }
    }
    cells.len()
}

/// Gives the nights of a product their places, from this cell to the last night, where they have a row. Returns how
/// many have one.
fn set_places<S: Alter>(
    tx: &mut Transaction<'_, S>,
    first: &(Cell, Held),
    last: Night,
) -> Result<usize, Error>
    ensures did { Did S.Store tx.old.conn tx.new.conn result (λ _. ⊤) HaveShortCells 0
        (sets_until (stock_row_of first.now) last) }
    ensures known { CountsRows S.Store tx.old.conn.now tx.new.conn.now result
        (known_until (stock_row_of first.now) last) }
    ensures short { HasShortTexts first.now }
{
    let (cell, held) = *first;
    let supplier = cell.supplier();
    let product = cell.product();
    let range = NightRange {
        kind: u64::from(cell.kind().number()),
        supplier: supplier.as_str(),
        product: product.as_str(),
        first: u64::from(cell.night().day()),
        last: u64::from(last.day()),
    };
    set_nights(tx, range, u64::from(held.allot), u64::from(held.free))
}

/// Adds the row of a cell that has none, and returns how many rows that takes.
fn add_places<S: Alter>(tx: &mut Transaction<'_, S>, cell: Cell, held: Held) -> Result<usize, Error>
    ensures did { Did S.Store tx.old.conn tx.new.conn result
        (λ _. ⊤) (LacksCell (stock_row_of (cell, held))) 1 (adds_cell (stock_row_of (cell, held))) }
{
    let supplier = cell.supplier();
    let product = cell.product();
    let places = places_of(cell, held, &supplier, &product);
    insert_cell(tx, places)
}

/// Adds the rows of cells that have none, in order.
fn add_all<S: Alter>(tx: &mut Transaction<'_, S>, cells: &[(Cell, Held)]) -> Result<(), Error>
    ensures did { DidIfOpen S.Store tx.old.conn tx.new.conn result
        (λ _. ⊤) (λ t. AreNew (map stock_row_of cells.now) t.stock)
        (length cells.now) (adds_each cells.now) }
{
    for (cell, held) in cells {
        add_places(tx, *cell, *held)?;
    }
    Ok(())
}

/// Adds the rows of a week that has none, whose first night is that of this cell.
fn add_week<S: Alter>(tx: &mut Transaction<'_, S>, cell: Cell, held: Held) -> Result<(), Error>
    ensures did { Did S.Store tx.old.conn tx.new.conn result
        (λ _. ⊤) (LacksWeek (stock_row_of (cell, held))) 7
        (adds_cells (week_from (stock_row_of (cell, held)))) }
{
    let supplier = cell.supplier();
    let product = cell.product();
    let places = places_of(cell, held, &supplier, &product);
    insert_week(tx, places)?;
    Ok(())
}

/// Adds the rows of cells of a run that have none: a week at once, else one after another.
fn add_some<S: Alter>(tx: &mut Transaction<'_, S>, cells: &[(Cell, Held)]) -> Result<(), Error>
    requires run { IsRun cells.now }

    ensures did { DidIfOpen S.Store tx.old.conn tx.new.conn result
        (λ _. ⊤) (λ t. AreNew (map stock_row_of cells.now) t.stock)
        (length cells.now) (adds_each cells.now) }
{
    let is_week = cells.len() == WEEK;
    if is_week {
        let (cell, held) = cells[0];
        add_week(tx, cell, held)
    } else {
        add_all(tx, cells)
    }
}

/// Adds the rows of the cells of a run that has none, week by week.
fn add_run<S: Alter>(tx: &mut Transaction<'_, S>, run: &[(Cell, Held)]) -> Result<(), Error>
    requires run { IsRun run.now }

    ensures did { DidIfOpen S.Store tx.old.conn tx.new.conn result
        (λ _. ⊤) (λ t. AreNew (map stock_row_of run.now) t.stock)
        (length run.now) (adds_each run.now) }
{
    let mut rest = run;
    while !rest.is_empty() {
        let (some, later) = rest.split_at(rest.len().min(WEEK));
        add_some(tx, some)?;
        rest = later;
    }
    Ok(())
}

/// Writes the places of the cells of a run.
#[tactic(auto, using(crate::proofs::RunLemmas::short_run))]
fn put_run<S: Alter>(tx: &mut Transaction<'_, S>, run: &[(Cell, Held)]) -> Result<(), Error>
    requires run { IsRun run.now }

    ensures did { DidIfOpen S.Store tx.old.conn tx.new.conn result MayLoad MayPutAll
        (length run.now) (puts_each run.now) }
    ensures short { AllByRecursion HasShortTexts run.now }
{
    let Some(first) = run.first() else {
        return Ok(());
    };
    let Some(last) = run.last() else {
        return Ok(());
    };
    let known = set_places(tx, first, last.0.night())?;
    let are_known = known == run.len();
    let are_new = known == 0;
    if are_known {
        Ok(())
    } else if are_new {
        add_run(tx, run)
    } else {
        put_all(tx, run)
    }
}

/// Writes the places of the cells of a batch, run by run.
pub(crate) fn put_runs<S: Alter>(
    tx: &mut Transaction<'_, S>,
    cells: &[(Cell, Held)],
) -> Result<(), Error>
    ensures did { DidIfOpen S.Store tx.old.conn tx.new.conn result MayLoad MayPutAll
        (length cells.now) (puts_each cells.now) }
{
    let mut rest = cells;
    while !rest.is_empty() {
        let (run, later) = rest.split_at(run_length(rest));
        put_run(tx, run)?;
        rest = later;
    }
    Ok(())
}
