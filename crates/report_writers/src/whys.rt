//! The report of why a journey goes on or does not.
ghost use Rattle.std.specs.Prelude.{◌≡◌, List, IfOk, IsErrOf, Some};
ghost use Rattle.ledger.specs.Ledger.{history};
ghost use Rattle.saga_core.specs.Views.{IsStock};
ghost use Rattle.allotment.specs.declared.cells.Cell.{Cell};
ghost use Rattle.allotment.specs.declared.places.Held.{Held};
ghost use Rattle.previews.specs.Layouts.{why_of};
ghost use Rattle.previews.specs.Nights.{nights_of};
ghost use Rattle.previews.specs.Previews.{begun_as, latest_option as latest_option_of, nights_ahead, IsTaken};
ghost use Rattle.report_kinds.specs.Texts.{OfReport};
ghost use Rattle.saga_core.specs.declared.report.Report.TheVariants as kind;
ghost use Rattle.report_writers.specs.Writing.{ShowsDesk, ShowsIn, WritesIfThere, WritesText};
ghost use Rattle.report_writers.specs.Whys.{IsSeenOf, LetsCellsOf};
ghost use Rattle.sql_reads.specs.Reading.{IsRecordAt};
ghost use Rattle.sql_reads.specs.Reads.{AnyDesk};

use crate::cell_rows::start_cells;
use crate::found_rows::FoundRows;
use crate::item_rows::start_items;
use crate::progress::Progress;
use crate::writing::written;
use allotment::{Night, Want};
use commands::{Fault, Phase};
use desk_sql::Version;
use previews::{
    FreeNight, NextStep, Preview, latest_option, look_ahead, next_step, read_nights, why_text,
};
use reports::ReportFault;
use saga_core::{CellFilter, Format, Record};
use sql_model::fault_of;
use sql_reads::read_journey;
use sqlite::{Alter, Connection};
use std::alloc::Global;
use std::io::Write;

/// What was read of a journey: its preview, and what is free of the nights of its next want.
#[derive(Drop)]
struct Seen {
    preview: Preview,
    nights: Vec<FreeNight>,
}

/// Writes the report of the journey of this number, and returns whether there is one.
pub(crate) fn write_why<S: Alter, O: Write>(
    alloc: Global,
    format: Format,
    id: u64,
    version: Version,
    conn: &mut Connection<S>,
    out: &mut O,
) -> Result<bool, ReportFault>
    ensures shows { ShowsIn S.Store version conn.old conn.new
        (IsErrOf result ReportFault.Store) AnyDesk (λ s.
        OfReport (kind.Why id format) s.ledger
        (λ text. WritesIfThere (O.contents out.old) (O.contents out.new) text result)) }
{
    match read_journey(alloc, conn, version, id) {
        Ok(Some(journey)) => {
            written(write_preview(alloc, format, id, &journey, version, conn, out))
        }
        Ok(None) => Ok(false),
        Err(fault) => Err(fault.into()),
    }
}

/// Writes the report of a journey.
fn write_preview<S: Alter, O: Write>(
    alloc: Global,
    format: Format,
    id: u64,
    journey: &Record,
    version: Version,
    conn: &mut Connection<S>,
    out: &mut O,
) -> Result<(), ReportFault>
    ensures shows { ShowsIn S.Store version conn.old conn.new
        (IsErrOf result ReportFault.Store) (λ s. IsRecordAt id s (Some journey.now)) (λ s.
        (rows : List (Cell × Held)) → IsStock s.ledger rows →
        WritesText (O.contents out.old) (O.contents out.new)
        (why_of format s.ledger id (begun_as journey.now)) result) }
{
    let seen = read_preview(alloc, id, journey, version, conn)?;
    why_text(alloc, format, &seen.preview, seen.nights.as_slice(), out)
}

/// Reads the preview of a journey over a connection.
fn read_preview<S: Alter>(
    alloc: Global,
    id: u64,
    journey: &Record,
    version: Version,
    conn: &mut Connection<S>,
) -> Result<Seen, ReportFault>
    ensures shows { ShowsIn S.Store version conn.old conn.new
        (IsErrOf result ReportFault.Store) (λ s. IsRecordAt id s (Some journey.now)) (λ s.
        (rows : List (Cell × Held)) → IsStock s.ledger rows
        → IfOk result (IsSeenOf s.ledger id journey.now)) }
{
    let taken = read_taken(id, journey, version, conn)?;
    let next = next_step(journey, taken)?;
    let nights = nights_ahead(alloc, &next, conn)?;
    let preview = look_ahead(id, journey, next, nights.as_slice());
    Ok(Seen { preview, nights })
}

/// Reads the option with which the step at the position of a journey was done last, if the journey goes back.
fn read_taken<S: Alter>(
    id: u64,
    journey: &Record,
    version: Version,
    conn: &mut Connection<S>,
) -> Result<Option<usize>, Fault>
    ensures shows { ShowsIn S.Store version conn.old conn.new
        (IsErrOf result Fault.Store) AnyDesk (λ s.
        IfOk result (IsTaken s.ledger id journey.now)) }
{
    match journey.cursor.phase {
        Phase::Back(_) => read_latest(id, journey.cursor.pos, version, conn),
        _ => Ok(None),
    }
}

/// Reads the option with which a step of the journey of this number was done last.
fn read_latest<S: Alter>(
    id: u64,
    step: usize,
    version: Version,
    conn: &mut Connection<S>,
) -> Result<Option<usize>, Fault>
    ensures shows { ShowsIn S.Store version conn.old conn.new
        (IsErrOf result Fault.Store) AnyDesk (λ s.
        IfOk result (λ option. option ≡ latest_option_of step (history s.ledger id))) }
{
    let mut rows = match start_items(conn, version, id) {
        Ok(rows) => rows,
        Err(fault) => return Err(fault),
    };
    latest_option(&mut rows, step)
}

/// Reads what is free of each night of the want of a next step, in the desk of a connection.
fn nights_ahead<S: Alter>(
    alloc: Global,
    next: &Option<NextStep>,
    conn: &mut Connection<S>,
) -> Result<Vec<FreeNight>, ReportFault>
    ensures shows { ShowsDesk S.Store conn.old conn.new
        (IsErrOf result ReportFault.Store) (λ s.
        (rows : List (Cell × Held)) → IsStock s.ledger rows →
        IfOk result (λ nights. nights.items ≡ nights_ahead s.ledger next.now)) }
{
    match next {
        Some(next) => nights_of(alloc, &next.want, conn),
        None => Ok(Vec::new(alloc)),
    }
}

/// The filter of the cells of a want, whose kind is named apart.
fn filter_of(want: &Want) -> CellFilter
    ensures lets { LetsCellsOf want.now result }
{
    let first = want.first();
    CellFilter {
        kind: None,
        supplier: Some(want.supplier()),
        product: Some(want.product()),
        from: Some(first),
        to: Night::from_day(first.day() + u32::from(want.nights()) - 1),
    }
}

/// Reads what is free of each night of a want, in the desk of a connection.
fn nights_of<S: Alter>(
    alloc: Global,
    want: &Want,
    conn: &mut Connection<S>,
) -> Result<Vec<FreeNight>, ReportFault>
    ensures shows { ShowsDesk S.Store conn.old conn.new
        (IsErrOf result ReportFault.Store) (λ s.
        (rows : List (Cell × Held)) → IsStock s.ledger rows →
        IfOk result (λ nights. nights.items ≡ nights_of s.ledger want.now)) }
{
    let filter = filter_of(want);
    let mut rows = match start_cells(conn, want.kind(), &filter) {
        Ok(rows) => rows,
        Err(error) => return Err(fault_of(&error).into()),
    };
    let mut cells = FoundRows {
        rows: &mut rows,
        progress: Progress::new(),
    };
    read_nights(alloc, want, &mut cells)
}
