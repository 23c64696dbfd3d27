//! The places of every cell that has an allotment, read by one statement.
ghost use Rattle.saga_core.specs.Views.{IsStock};
ghost use Rattle.sql_reads.specs.Reads.{Read};

use allotment::{Cell, Held};
use commands::Fault;
use report_writers::{FoundRows, Progress};
use reports::take_rows;
use sql_lists::hand_stock;
use sql_model::fault_of;
use sqlite::{Alter, Connection};
use std::alloc::Global;

/// Returns the places of every cell that has an allotment, in order of kind, supplier, product and night.
pub(crate) fn read_stock<S: Alter>(
    alloc: Global,
    conn: &mut Connection<S>,
) -> Result<Vec<(Cell, Held)>, Fault>
    ensures { Read S.Store conn.old conn.new result (λ s rows. IsStock s.ledger rows.items) }
{
    let mut rows = match hand_stock(conn) {
        Ok(rows) => rows,
        Err(error) => return Err(fault_of(&error)),
    };
    let mut cells = FoundRows {
        rows: &mut rows,
        progress: Progress::new(),
    };
    take_rows(alloc, &mut cells, usize::MAX)
}
