//! The reports by month.
ghost use Rattle.std.specs.Prelude.{◌≡◌, ℕ};
ghost use Rattle.std.specs.List.{flat_map};
ghost use Rattle.month_reports.specs.MonthReports.{month_shown, months_end, months_head, months_in, WritesMonths};
ghost use Rattle.reports.specs.Parts.{ending_text};
ghost use Rattle.reports.specs.Writing.{Sends};

use crate::calendars::{calendar_head, calendar_row};
use crate::months::{MonthRead, next_asked, read_month};
use crate::summaries::{summary_head, summary_row};
use allotment::{Cell, Held};
use reports::{Ending, ReportFault, send};
use saga_core::{CellFilter, Format, MonthReport, RowSource};
use std::alloc::Global;
use std::io::Write;

/// What comes before the months.
fn head_of(report: MonthReport) -> &'static str
    ensures head { result.now ≡ months_head report }
{
    match report {
        MonthReport::Summary(format) => summary_head(format),
        MonthReport::Calendar => calendar_head(),
    }
}

/// Writes the text of a month. After a fault a prefix of it was written.
fn send_month<W: Write>(
    alloc: Global,
    report: MonthReport,
    month: &MonthRead,
    out: &mut W,
) -> Result<(), ReportFault>
    ensures sends { Sends (W.contents out.old) (W.contents out.new)
        (month_shown report month.now.cells.items) result }
{
    match report {
        MonthReport::Summary(format) => send(out, &summary_row(alloc, format, month)?),
        MonthReport::Calendar => send(out, &calendar_row(alloc, &month.cells)?),
    }
}

/// What comes after the months.
fn ending_of<'a>(report: MonthReport) -> Ending<'a>
    ensures ending { (count : ℕ) → ending_text result count ≡ months_end report count }
{
    match report {
        MonthReport::Summary(format) => Ending::of_list(format, "months"),
        MonthReport::Calendar => Ending::of_list(Format::Text, "months"),
    }
}

/// Writes the report of the months of the cells that a source returns and a filter lets through. Returns how many months
/// there are.
///
/// A month has a text as the report says: in a summary a line with its kind, supplier, product, month, number of nights,
/// and allotted, held and free places; in a calendar a line with its kind, supplier, product, month and days. A text and a
/// CSV file begin with a heading, and the last line of a text is `months` and their number.
pub fn months_text<R: RowSource<(Cell, Held)>, W: Write>(
    alloc: Global,
    report: MonthReport,
    filter: &CellFilter,
    rows: &mut R,
    out: &mut W,
) -> Result<u64, ReportFault>
    ensures writes { WritesMonths R.RowSource rows.old rows.new filter.now (months_in report)
        (W.contents out.old) (W.contents out.new) result }
{
    send(out, head_of(report).as_bytes())?;
    let count = send_months(alloc, report, filter, rows, out)?;
    ending_of(report).send(alloc, count, out)?;
    Ok(count)
}

/// Writes the text of each month, and returns how many there were.
fn send_months<R: RowSource<(Cell, Held)>, W: Write>(
    alloc: Global,
    report: MonthReport,
    filter: &CellFilter,
    rows: &mut R,
    out: &mut W,
) -> Result<u64, ReportFault>
    ensures writes { WritesMonths R.RowSource rows.old rows.new filter.now (flat_map (month_shown report))
        (W.contents out.old) (W.contents out.new) result }
{
    let mut count = 0u64;
    let mut next = next_asked(filter, rows)?;
    while let Some(first) = next {
        let month = read_month(alloc, filter, &first, rows)?;
        send_month(alloc, report, &month, out)?;
        count += 1;
        next = month.after;
    }
    Ok(count)
}
