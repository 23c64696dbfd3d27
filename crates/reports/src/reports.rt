//! The reports.
ghost use Rattle.std.specs.Prelude.{◌≡◌, ◌++◌};
ghost use Rattle.std.specs.List.{flat_map};
ghost use Rattle.reports.specs.Formats.{stock_in, unfinished_in, name_word, journeys_in, history_in};
ghost use Rattle.reports.specs.Layouts.{history_report};
ghost use Rattle.reports.specs.Parts.{whole_report};
ghost use Rattle.reports.specs.Records.{csv_line, item_names, item_fields};
ghost use Rattle.reports.specs.Writing.{Writes};
ghost use Rattle.saga_core.specs.declared.report.Format.TheVariants.{Json};

use crate::endings::Ending;
use crate::faults::ReportFault;
use crate::lines::{history_head, history_tail, stock_head, unfinished_head};
use crate::objects::{begin_object, state_object};
use crate::outputs::send;
use crate::records::item_heading;
use crate::rows::{ItemObjects, ItemRecords, ItemWords, Layout, send_rows};
use allotment::{Cell, Held};
use commands::Item;
use saga_core::{Brief, Format, JourneyReport, Record, RowSource};
use std::alloc::Global;
use std::io::Write;

/// Writes the stock report, and returns how many cells it shows.
///
/// Each cell has a line with its kind, supplier, product and night, and its allotted, held and free places. A text and a
/// CSV file begin with a heading, and the last line of a text is `cells` and their number. The lines are in the order of
/// the rows.
pub fn stock_text<R: RowSource<(Cell, Held)>, W: Write>(
    alloc: Global,
    format: Format,
    rows: &mut R,
    out: &mut W,
) -> Result<u64, ReportFault>
    ensures writes { Writes R.RowSource rows.old rows.new (stock_in format)
        (W.contents out.old) (W.contents out.new) result }
{
    let ending = Ending::of_list(format, "cells");
    send_report(alloc, stock_head(format), &format, rows, &ending, out)
}

/// Writes the report of unfinished journeys, and returns how many there are.
///
/// Each journey has a line with its number, its agent, and its position and phase. A CSV file begins with a heading, and
/// the last line of a text is `unfinished` and their number. The lines are in the order of the rows.
pub fn unfinished_text<R: RowSource<Brief>, W: Write>(
    alloc: Global,
    format: Format,
    rows: &mut R,
    out: &mut W,
) -> Result<u64, ReportFault>
    ensures writes { Writes R.RowSource rows.old rows.new (unfinished_in format)
        (W.contents out.old) (W.contents out.new) result }
{
    let ending = Ending::of_list(format, "unfinished");
    send_report(alloc, unfinished_head(format), &format, rows, &ending, out)
}

/// Writes the report of journeys of this name, and returns how many there are.
///
/// Each journey has a line as in the report of unfinished journeys. The last line of a text is the name and their number.
pub fn journeys_text<R: RowSource<Brief>, W: Write>(
    alloc: Global,
    name: JourneyReport,
    format: Format,
    rows: &mut R,
    out: &mut W,
) -> Result<u64, ReportFault>
    ensures writes { Writes R.RowSource rows.old rows.new (journeys_in name format)
        (W.contents out.old) (W.contents out.new) result }
{
    let ending = Ending::of_list(format, word_of(name));
    send_report(alloc, unfinished_head(format), &format, rows, &ending, out)
}

/// The word of the last line of a report of journeys.
fn word_of<'a>(name: JourneyReport) -> &'a str
    ensures word { result.now ≡ name_word name }
{
    match name {
        JourneyReport::Unfinished => "unfinished",
        JourneyReport::Journeys => "journeys",
    }
}

/// Writes the history of the journey of this number, and returns how many items it has.
///
/// The lines of a text are `journey` with the number and the agent, `plan` with the plan's line, `items` with each item,
/// and `state` with the journey's position and phase. JSON has a line with the agent and the plan, a line for each item,
/// and a line with the position and phase; CSV a heading, and a record for each item. The items are in the order of the
/// rows.
pub fn history_text<R: RowSource<Item>, W: Write>(
    alloc: Global,
    format: Format,
    id: u64,
    journey: &Record,
    rows: &mut R,
    out: &mut W,
) -> Result<u64, ReportFault>
    ensures writes { Writes R.RowSource rows.old rows.new (history_in format id journey.now)
        (W.contents out.old) (W.contents out.new) result }
{
    match format {
        Format::Text => history_lines(alloc, id, journey, rows, out),
        Format::Json => history_objects(alloc, id, journey, rows, out),
        Format::Csv => history_records(alloc, id, rows, out),
    }
}

/// Writes the history as a text.
fn history_lines<R: RowSource<Item>, W: Write>(
    alloc: Global,
    id: u64,
    journey: &Record,
    rows: &mut R,
    out: &mut W,
) -> Result<u64, ReportFault>
    ensures writes { Writes R.RowSource rows.old rows.new (history_report id journey.now)
        (W.contents out.old) (W.contents out.new) result }
{
    let head = history_head(alloc, id, journey)?;
    let state = history_tail(alloc, &journey.cursor)?;
    let ending = Ending::Text(state.as_str());
    send_report(alloc, head.as_str(), &ItemWords, rows, &ending, out)
}

/// Writes the history as JSON lines.
fn history_objects<R: RowSource<Item>, W: Write>(
    alloc: Global,
    id: u64,
    journey: &Record,
    rows: &mut R,
    out: &mut W,
) -> Result<u64, ReportFault>
    ensures writes { Writes R.RowSource rows.old rows.new (history_in Json id journey.now)
        (W.contents out.old) (W.contents out.new) result }
{
    let head = begin_object(alloc, id, journey)?;
    let state = state_object(alloc, id, &journey.cursor)?;
    let ending = Ending::Text(state.as_str());
    send_report(
        alloc,
        head.as_str(),
        &ItemObjects { id },
        rows,
        &ending,
        out,
    )
}

/// Writes the items of the history as CSV.
fn history_records<R: RowSource<Item>, W: Write>(
    alloc: Global,
    id: u64,
    rows: &mut R,
    out: &mut W,
) -> Result<u64, ReportFault>
    ensures writes { Writes R.RowSource rows.old rows.new
        (λ all. csv_line item_names ++ flat_map (λ item. csv_line (item_fields id item)) all)
        (W.contents out.old) (W.contents out.new) result }
{
    let layout = ItemRecords { id };
    send_report(alloc, item_heading(), &layout, rows, &Ending::Text(""), out)
}

/// Writes a report: its head, the text of each row, and its ending. Returns how many rows there are.
pub fn send_report<T: Drop, L: Layout<T>, R: RowSource<T>, W: Write>(
    alloc: Global,
    head: &str,
    layout: &L,
    rows: &mut R,
    ending: &Ending<'_>,
    out: &mut W,
) -> Result<u64, ReportFault>
    ensures writes { Writes R.RowSource rows.old rows.new
        (whole_report (L.shown layout.now) head.now ending.now) (W.contents out.old) (W.contents out.new) result }
{
    send(out, head.as_bytes())?;
    let count = send_rows(alloc, layout, rows, out)?;
    ending.send(alloc, count, out)?;
    Ok(count)
}
