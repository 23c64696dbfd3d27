//! The reports of the holders of a cell, and of those of the cells that a filter lets through, of a desk that is not
//! recovered.
ghost use Rattle.std.specs.Prelude.{List, IsErrOf};
ghost use Rattle.reports.specs.Holders.{holders_of};
ghost use Rattle.reports.specs.HoldingLayouts.{holdings_shown};
ghost use Rattle.reports.specs.Holdings.{cells_asked, holdings_in};
ghost use Rattle.reports.specs.HolderLayouts.{holders_in};
ghost use Rattle.saga_core.specs.Views.{IsStock};
ghost use Rattle.report_writers.specs.Writing.{ShowsDesk, WritesText};

use crate::found_rows::FoundRows;
use crate::holder_rows::start_holders;
use crate::holding_rows::start_holdings;
use crate::progress::Progress;
use allotment::{Cell, Held};
use reports::{ReportFault, holders_text, holdings_text};
use saga_core::{CellFilter, Format};
use sql_model::fault_of;
use sqlite::{Alter, Connection};
use std::alloc::Global;
use std::io::Write;

/// Writes the report of the holders of a cell, of the desk of a connection, and returns how many there are.
pub(crate) fn write_holders<S: Alter, O: Write>(
    alloc: Global,
    cell: &Cell,
    format: Format,
    conn: &mut Connection<S>,
    out: &mut O,
) -> Result<u64, ReportFault>
    ensures shows { ShowsDesk S.Store conn.old conn.new
        (IsErrOf result ReportFault.Store) (λ s.
        WritesText (O.contents out.old) (O.contents out.new)
        (holders_in format (holders_of s.ledger cell.now)) result) }
{
    let mut rows = match start_holders(conn, cell) {
        Ok(rows) => rows,
        Err(error) => return Err(fault_of(&error).into()),
    };
    let mut holders = FoundRows {
        rows: &mut rows,
        progress: Progress::new(),
    };
    holders_text(alloc, format, &mut holders, out)
}

/// Writes the report of the holders of the cells that a filter lets through, night by night, of the desk of a connection,
/// and returns how many there are.
pub(crate) fn write_holdings<S: Alter, O: Write>(
    alloc: Global,
    filter: &CellFilter,
    format: Format,
    conn: &mut Connection<S>,
    out: &mut O,
) -> Result<u64, ReportFault>
    ensures shows { ShowsDesk S.Store conn.old conn.new
        (IsErrOf result ReportFault.Store) (λ s.
        (rows : List (Cell × Held)) → IsStock s.ledger rows →
        WritesText (O.contents out.old) (O.contents out.new)
        (holdings_shown format (holdings_in s.ledger (cells_asked filter.now rows))) result) }
{
    let mut rows = match start_holdings(conn, filter) {
        Ok(rows) => rows,
        Err(error) => return Err(fault_of(&error).into()),
    };
    let mut holdings = FoundRows {
        rows: &mut rows,
        progress: Progress::new(),
    };
    holdings_text(alloc, format, &mut holdings, out)
}
