//! Reports by month of a desk that is not recovered. The cells are those of the whole stock, of which a filter lets some
//! through.
ghost use Rattle.std.specs.Prelude.{List, IsErrOf};
ghost use Rattle.month_reports.specs.MonthReports.{asked_months, months_in};
ghost use Rattle.saga_core.specs.Views.{IsStock};
ghost use Rattle.report_writers.specs.Writing.{ShowsDesk, WritesText};

use crate::cell_rows::start_stock;
use crate::found_rows::FoundRows;
use crate::progress::Progress;
use allotment::{Cell, Held};
use month_reports::months_text;
use reports::ReportFault;
use saga_core::{CellFilter, MonthReport};
use sql_model::fault_of;
use sqlite::{Alter, Connection};
use std::alloc::Global;
use std::io::Write;

/// Writes the report by month of the desk of a connection, and returns how many months there are.
pub(crate) fn write_months<S: Alter, O: Write>(
    alloc: Global,
    report: MonthReport,
    filter: &CellFilter,
    conn: &mut Connection<S>,
    out: &mut O,
) -> Result<u64, ReportFault>
    ensures shows { ShowsDesk S.Store conn.old conn.new
        (IsErrOf result ReportFault.Store) (λ s.
        (rows : List (Cell × Held)) → IsStock s.ledger rows →
        WritesText (O.contents out.old) (O.contents out.new)
        (months_in report (asked_months filter.now rows)) result) }
{
    let mut rows = match start_stock(conn) {
        Ok(rows) => rows,
        Err(error) => return Err(fault_of(&error).into()),
    };
    let mut cells = FoundRows {
        rows: &mut rows,
        progress: Progress::new(),
    };
    months_text(alloc, report, filter, &mut cells, out)
}
