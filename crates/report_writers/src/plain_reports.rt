//! The reports of all cells and of all unfinished journeys, each by a statement without a filter.
ghost use Rattle.std.specs.Prelude.{List, IsErrOf};
ghost use Rattle.reports.specs.Formats.{stock_in, unfinished_in};
ghost use Rattle.saga_core.specs.Views.{IsStock, unfinished_of};
ghost use Rattle.report_writers.specs.Writing.{ShowsDesk, WritesText};

use crate::brief_rows::start_unfinished;
use crate::cell_rows::start_stock;
use crate::found_rows::FoundRows;
use crate::progress::Progress;
use allotment::{Cell, Held};
use reports::{ReportFault, stock_text, unfinished_text};
use saga_core::Format;
use sql_model::fault_of;
use sqlite::{Alter, Connection};
use std::alloc::Global;
use std::io::Write;

/// Writes the stock report of the desk of a connection, and returns how many cells there are.
pub(crate) fn write_whole_stock<S: Alter, O: Write>(
    alloc: Global,
    format: Format,
    conn: &mut Connection<S>,
    out: &mut O,
) -> Result<u64, ReportFault>
    ensures shows { ShowsDesk S.Store conn.old conn.new
        (IsErrOf result ReportFault.Store) (λ s.
        (rows : List (Cell × Held)) → IsStock s.ledger rows →
        WritesText (O.contents out.old) (O.contents out.new) (stock_in format rows) result) }
{
    let mut rows = match start_stock(conn) {
        Ok(rows) => rows,
        Err(error) => return Err(fault_of(&error).into()),
    };
    let mut cells = FoundRows {
        rows: &mut rows,
        progress: Progress::new(),
    };
    stock_text(alloc, format, &mut cells, out)
}

/// Writes the report of the unfinished journeys of the desk of a connection, and returns how many there are.
pub(crate) fn write_unfinished<S: Alter, O: Write>(
    alloc: Global,
    format: Format,
    conn: &mut Connection<S>,
    out: &mut O,
) -> Result<u64, ReportFault>
    ensures shows { ShowsDesk S.Store conn.old conn.new
        (IsErrOf result ReportFault.Store) (λ s.
        WritesText (O.contents out.old) (O.contents out.new)
        (unfinished_in format (unfinished_of s.ledger)) result) }
{
    let mut rows = match start_unfinished(conn) {
        Ok(rows) => rows,
        Err(error) => return Err(fault_of(&error).into()),
    };
    let mut briefs = FoundRows {
        rows: &mut rows,
        progress: Progress::new(),
    };
    unfinished_text(alloc, format, &mut briefs, out)
}
