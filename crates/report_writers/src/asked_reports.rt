//! The reports of cells and of journeys that a filter lets through, each by a statement in which the filter stands.
ghost use Rattle.std.specs.Prelude.{List, length, IsErrOf};
ghost use Rattle.std.specs.List.{flat_map};
ghost use Rattle.reports.specs.Formats.{stock_in, stock_row};
ghost use Rattle.reports.specs.Writing.{Wrote};
ghost use Rattle.saga_core.specs.Views.{IsStock};
ghost use Rattle.report_writers.specs.RowsLeft.{AreCellsOf};
ghost use Rattle.report_kinds.specs.Texts.{asked_cells};
ghost use Rattle.report_writers.specs.Writing.{cells_of_kind, ShowsCells, ShowsDesk, WritesJourneys, WritesText};

use crate::brief_rows::start_journeys;
use crate::cell_rows::start_cells;
use crate::found_rows::FoundRows;
use crate::progress::Progress;
use allotment::{Cell, Held, Kind};
use reports::{ReportFault, begin_stock, end_stock, journeys_text, stock_lines};
use saga_core::{CellFilter, Format, JourneyFilter, JourneyReport};
use sql_model::fault_of;
use sqlite::{Alter, Connection};
use std::alloc::Global;
use std::io::Write;

/// Writes the stock report of the cells of the desk of a connection that are asked for, and returns how many there are.
pub(crate) fn write_kinds<S: Alter, O: Write>(
    alloc: Global,
    filter: &CellFilter,
    format: Format,
    conn: &mut Connection<S>,
    out: &mut O,
) -> Result<u64, ReportFault>
    ensures shows { ShowsDesk S.Store conn.old conn.new
        (IsErrOf result ReportFault.Store) (λ s.
        (rows : List (Cell × Held)) → IsStock s.ledger rows →
        WritesText (O.contents out.old) (O.contents out.new)
        (stock_in format (asked_cells filter.now rows)) result) }
{
    begin_stock(format, out)?;
    let count = write_lines(alloc, filter, format, conn, out)?;
    end_stock(alloc, format, count, out)?;
    Ok(count)
}

/// Writes the lines of the cells that are asked for, kind after kind, and returns how many there are: the key of the cells
/// leads to those of a kind.
fn write_lines<S: Alter, O: Write>(
    alloc: Global,
    filter: &CellFilter,
    format: Format,
    conn: &mut Connection<S>,
    out: &mut O,
) -> Result<u64, ReportFault>
    ensures cells { ShowsCells S.Store conn.old conn.new (O.contents out.old) (O.contents out.new)
        format (asked_cells filter.now) 0 result }
{
    let flights = write_kind(alloc, filter, Kind::Flight, format, 0, conn, out)?;
    let rooms = write_kind(alloc, filter, Kind::Room, format, flights, conn, out)?;
    let transfers = write_kind(alloc, filter, Kind::Transfer, format, rooms, conn, out)?;
    write_kind(alloc, filter, Kind::Cover, format, transfers, conn, out)
}

/// Writes the lines of the cells of a kind that are asked for, and counts them after those that were written before.
fn write_kind<S: Alter, O: Write>(
    alloc: Global,
    filter: &CellFilter,
    kind: Kind,
    format: Format,
    before: u64,
    conn: &mut Connection<S>,
    out: &mut O,
) -> Result<u64, ReportFault>
    ensures cells { ShowsCells S.Store conn.old conn.new (O.contents out.old) (O.contents out.new)
        format (cells_of_kind kind filter.now) before result }
{
    if !filter.lets_kind(kind) {
        return Ok(before);
    }
    let count = write_found(alloc, filter, kind, format, conn, out)?;
    match before.checked_add(count) {
        Some(all) => Ok(all),
        // more cells than can be counted
        None => Err(ReportFault::Memory),
    }
}

/// Writes the lines of the cells of a kind that the statement finds, and returns how many there are.
fn write_found<S: Alter, O: Write>(
    alloc: Global,
    filter: &CellFilter,
    kind: Kind,
    format: Format,
    conn: &mut Connection<S>,
    out: &mut O,
) -> Result<u64, ReportFault>
    ensures shows { ShowsDesk S.Store conn.old conn.new
        (IsErrOf result ReportFault.Store) (λ s.
        (rows : List (Cell × Held)) → AreCellsOf kind filter.now s.ledger rows →
        Wrote (O.contents out.old) (O.contents out.new)
        (flat_map (stock_row format) rows) (length rows) result) }
{
    let mut rows = match start_cells(conn, kind, filter) {
        Ok(rows) => rows,
        Err(error) => return Err(fault_of(&error).into()),
    };
    let mut cells = FoundRows {
        rows: &mut rows,
        progress: Progress::new(),
    };
    stock_lines(alloc, format, &mut cells, out)
}

/// Writes the report of the journeys of the desk of a connection that are asked for, and returns how many there are.
pub(crate) fn write_asked<S: Alter, O: Write>(
    alloc: Global,
    name: JourneyReport,
    filter: &JourneyFilter,
    format: Format,
    conn: &mut Connection<S>,
    out: &mut O,
) -> Result<u64, ReportFault>
    ensures shows { ShowsDesk S.Store conn.old conn.new
        (IsErrOf result ReportFault.Store) (λ s.
        WritesJourneys (O.contents out.old) (O.contents out.new) name format filter.now result s) }
{
    let mut rows = match start_journeys(conn, filter) {
        Ok(rows) => rows,
        Err(error) => return Err(fault_of(&error).into()),
    };
    let mut briefs = FoundRows {
        rows: &mut rows,
        progress: Progress::new(),
    };
    journeys_text(alloc, name, format, &mut briefs, out)
}
