//! The report that is asked for, whichever it is.
ghost use Rattle.std.specs.Prelude.{◌≡◌, ◌≢◌, ℕ, false, true, List, Option, IsErrOf, IsTrue, Ok, Some};
ghost use Rattle.ledger.specs.Ledger.{Event, history};
ghost use Rattle.saga_core.specs.CellFilters.{is_cell_asked};
ghost use Rattle.saga_core.specs.JourneyFilters.{asked_of};
ghost use Rattle.report_kinds.specs.Texts.{asked_cells, IsOfJourney, OfReport};
ghost use Rattle.saga_core.specs.declared.report.Report.TheVariants as kind;
ghost use Rattle.reports.specs.Formats.{history_in, stock_in};
ghost use Rattle.saga_core.specs.declared.report.JourneyReport.TheVariants.{Unfinished};
ghost use Rattle.saga_core.specs.Views.{IsStock, unfinished_of};
ghost use Rattle.report_writers.specs.Writing.{ShowsDesk, ShowsIn, WritesIfThere, WritesJourneys, WritesText};
ghost use Rattle.sql_reads.specs.Reads.{AnyDesk};

use crate::asked_reports::{write_asked, write_kinds};
use crate::holding::{write_holders, write_holdings};
use crate::item_rows::start_items;
use crate::month_reporting::write_months;
use crate::plain_reports::{write_unfinished, write_whole_stock};
use crate::whys::write_why;
use allotment::{Cell, Held};
use desk_sql::Version;
use reports::{ReportFault, history_text};
use saga_core::{CellFilter, Format, JourneyFilter, JourneyReport, Phases, Record, Report};
use sql_reads::read_journey;
use sqlite::{Alter, Connection};
use std::alloc::Global;
use std::io::Write;

/// Writes a report of the desk of a connection, in tables of this version, and returns whether there is one: of a journey that
/// does not exist there is none. The connection is only read.
pub fn write_report<S: Alter, O: Write>(
    alloc: Global,
    report: &Report,
    version: Version,
    conn: &mut Connection<S>,
    out: &mut O,
) -> Result<bool, ReportFault>
    ensures shows { ShowsIn S.Store version conn.old conn.new
        (IsErrOf result ReportFault.Store) AnyDesk (λ s. OfReport report.now s.ledger
        (λ text. WritesIfThere (O.contents out.old) (O.contents out.new) text result)) }
    ensures absent { result ≡ Ok false → IsOfJourney report.now }
{
    match report {
        Report::Stock { filter, format } => {
            written(write_stock(alloc, filter, *format, conn, out))
        }
        Report::Journeys {
            name,
            filter,
            format,
        } => written(write_journeys(alloc, *name, filter, *format, conn, out)),
        Report::Holders { cell, format } => {
            written(write_holders(alloc, cell, *format, conn, out))
        }
        Report::Holdings { filter, format } => {
            written(write_holdings(alloc, filter, *format, conn, out))
        }
        Report::Months { months, filter } => {
            written(write_months(alloc, *months, filter, conn, out))
        }
        Report::History { id, format } => write_history(alloc, *format, *id, version, conn, out),
        Report::Why { id, format } => write_why(alloc, *format, *id, version, conn, out),
    }
}

/// That a report was written, if no fault came.
pub(crate) fn written<T: Copy>(done: Result<T, ReportFault>) -> Result<bool, ReportFault>
    ensures told { (held holds : Option (List ℕ)) → (text : List ℕ) →
        WritesText held holds text done → WritesIfThere held holds (Some text) result }
    ensures there { result ≢ Ok false }
    ensures fails { IsErrOf result ReportFault.Store → IsErrOf done ReportFault.Store }
{
    match done {
        Ok(_) => Ok(true),
        Err(fault) => Err(fault),
    }
}

/// Whether the filter names no value, so that it lets each cell through.
fn names_nothing(filter: &CellFilter) -> bool
    ensures each { IsTrue result → (cell : Cell) → is_cell_asked filter.now cell ≡ true }
{
    matches!(
        filter,
        CellFilter {
            kind: None,
            supplier: None,
            product: None,
            from: None,
            to: None,
        }
    )
}

/// Writes the stock report of the cells of the desk of a connection that are asked for. The whole table is
/// read where each cell is asked for, so that a row with a value out of range is found.
fn write_stock<S: Alter, O: Write>(
    alloc: Global,
    filter: &CellFilter,
    format: Format,
    conn: &mut Connection<S>,
    out: &mut O,
) -> Result<u64, ReportFault>
    ensures shows { ShowsDesk S.Store conn.old conn.new
        (IsErrOf result ReportFault.Store) (λ s.
        (rows : List (Cell × Held)) → IsStock s.ledger rows →
        WritesText (O.contents out.old) (O.contents out.new)
        (stock_in format (asked_cells filter.now rows)) result) }
{
    if names_nothing(filter) {
        return write_whole_stock(alloc, format, conn, out);
    }
    write_kinds(alloc, filter, format, conn, out)
}

/// Whether the report is that of all unfinished journeys.
fn is_plain(name: JourneyReport, filter: &JourneyFilter) -> bool
    ensures name { IsTrue result → name ≡ Unfinished }
    ensures all { IsTrue result → (l : List Event) → asked_of filter.now l ≡ unfinished_of l }
{
    matches!(
        (name, filter),
        (
            JourneyReport::Unfinished,
            JourneyFilter {
                agent: None,
                phases: Phases::Unfinished,
            }
        )
    )
}

/// Writes the report of the journeys of the desk of a connection that are asked for. The statement without a filter
/// serves where all unfinished ones are asked for.
fn write_journeys<S: Alter, O: Write>(
    alloc: Global,
    name: JourneyReport,
    filter: &JourneyFilter,
    format: Format,
    conn: &mut Connection<S>,
    out: &mut O,
) -> Result<u64, ReportFault>
    ensures shows { ShowsDesk S.Store conn.old conn.new
        (IsErrOf result ReportFault.Store) (λ s.
        WritesJourneys (O.contents out.old) (O.contents out.new) name format filter.now result s) }
{
    if is_plain(name, filter) {
        return write_unfinished(alloc, format, conn, out);
    }
    write_asked(alloc, name, filter, format, conn, out)
}

/// Writes the history of the journey of this number, and returns whether there is one.
fn write_history<S: Alter, O: Write>(
    alloc: Global,
    format: Format,
    id: u64,
    version: Version,
    conn: &mut Connection<S>,
    out: &mut O,
) -> Result<bool, ReportFault>
    ensures shows { ShowsIn S.Store version conn.old conn.new
        (IsErrOf result ReportFault.Store) AnyDesk (λ s.
        OfReport (kind.History id format) s.ledger
        (λ text. WritesIfThere (O.contents out.old) (O.contents out.new) text result)) }
{
    match read_journey(alloc, conn, version, id) {
        Ok(Some(journey)) => written(write_items(alloc, format, id, &journey, version, conn, out)),
        Ok(None) => Ok(false),
        Err(fault) => Err(fault.into()),
    }
}

/// Writes the history of a journey, and returns how many items it has.
fn write_items<S: Alter, O: Write>(
    alloc: Global,
    format: Format,
    id: u64,
    journey: &Record,
    version: Version,
    conn: &mut Connection<S>,
    out: &mut O,
) -> Result<u64, ReportFault>
    ensures shows { ShowsIn S.Store version conn.old conn.new
        (IsErrOf result ReportFault.Store) AnyDesk (λ s.
        WritesText (O.contents out.old) (O.contents out.new)
        (history_in format id journey.now (history s.ledger id)) result) }
{
    let mut rows = match start_items(conn, version, id) {
        Ok(rows) => rows,
        Err(fault) => return Err(fault.into()),
    };
    history_text(alloc, format, id, journey, &mut rows, out)
}
