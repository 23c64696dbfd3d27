//! Cells with their places, in order of kind, supplier, product and night, read one at a time.

ghost use Rattle.std.specs.Prelude.{IfOk};
ghost use Rattle.std.specs.Borrow.{sem};
ghost use Rattle.saga_core.specs.Views.{IsStock};
ghost use Rattle.sql_reads.specs.Lending.{LeavesIfErr};
ghost use Rattle.sql_lists.specs.ListedRows.{AreGoodCellsRest, StockRests};
ghost use Rattle.report_writers.specs.RowsLeft.{AreCellsOf};
ghost use Rattle.report_writers.specs.Ready.{StartsList};

use crate::found_rows::FoundRow;
use allotment::{Cell, Held, Kind};
use commands::Fault;
use saga_core::CellFilter;
use sql_lists::{hand_cells, hand_stock, next_cell};
use sql_model::fault_of;
use sql_reads::cell_told;
use sqlite::{Alter, Connection, Error, Rows};

/// Starts to read every cell that has an allotment, in order of kind, supplier, product and night. If that fails,
/// nothing has changed.
pub fn start_stock<S: Alter>(conn: &mut Connection<S>) -> Result<Rows<'_, S>, Error>
    ensures* fault { sem 𝓛 (LeavesIfErr S.row S.Store conn.entry result) }
    ensures starts { IfOk result (λ it. StartsList S.Store conn.entry it
        (λ s rows. IsStock s.ledger rows) (StockRests S.Store)
        (AreGoodCellsRest S.Store)) }
{
    hand_stock(conn)
}

/// Starts to read the cells of a kind that have an allotment and that a filter lets through, in order of supplier,
/// product and night. If that fails, nothing has changed.
pub fn start_cells<'a, S: Alter>(
    conn: &'a mut Connection<S>,
    kind: Kind,
    filter: &CellFilter,
) -> Result<Rows<'a, S>, Error>
    ensures* fault { sem 𝓛 (LeavesIfErr S.row S.Store conn.entry result) }
    ensures starts { IfOk result (λ it. StartsList S.Store conn.entry it
        (λ s rows. AreCellsOf kind filter.now s.ledger rows) (StockRests S.Store)
        (AreGoodCellsRest S.Store)) }
{
    hand_cells(conn, kind, filter)
}

impl<S: Alter> FoundRow<S> for (Cell, Held) {
    ghost rests = { StockRests S.Store };

    ghost are_good = { AreGoodCellsRest S.Store };

    fn next_found(rows: &mut Rows<'_, S>) -> Result<Option<(Cell, Held)>, Fault> {
        match next_cell(rows) {
            Ok(Some(found)) => match cell_told(&found) {
                Some(cell) => Ok(Some(cell)),
                None => Err(Fault::Store),
            },
            Ok(None) => Ok(None),
            Err(error) => Err(fault_of(&error)),
        }
    }
}
