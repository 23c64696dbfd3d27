//! The line of a month in a calendar: a mark for each of the days from 1 to 31.
ghost use Rattle.std.specs.Prelude.{◌≡◌, ◌≤◌, ◌<◌, IfOk};
ghost use Rattle.month_reports.specs.Calendars.{calendar_head, calendar_line, calendar_row, mark_of, marks_of, tenths_of};

use crate::summaries::{month_text, product_columns};
use crate::sums::MOST_NIGHTS;
use allotment::{Cell, Held};
use std::alloc::{AllocError, Global};

/// What comes before the months: what the marks say, and the names of the columns.
pub(crate) fn calendar_head() -> &'static str
    ensures head { result.now ≡ calendar_head }
{
    ". none held  1 to 9 tenths held  # all held  - none allotted  blank no night
                                             1         2         3
kind     supplier product  month    1234567890123456789012345678901
"
}

/// The line of a month.
pub(crate) fn calendar_row(alloc: Global, month: &[(Cell, Held)]) -> Result<Vec<u8>, AllocError>
    ensures row { IfOk result (λ bytes. bytes.items ≡ calendar_row month.now) }
{
    let Some(row) = month.first() else {
        return Ok(Vec::new(alloc));
    };
    let marks = marks_of(month);
    calendar_line(alloc, &row.0, &marks)
}

/// The line of a month with these marks, of which a cell is this one.
#[tactic(auto, using(crate::proofs::CalendarLemmas::line_parts))]
fn calendar_line(alloc: Global, cell: &Cell, marks: &[u8]) -> Result<Vec<u8>, AllocError>
    ensures line { IfOk result (λ bytes. bytes.items ≡ calendar_line cell.now marks.now) }
{
    let month = month_text(alloc, cell.night)?;
    let product = product_columns(alloc, cell)?;
    let mut line = format!(in alloc; "{product} {month} |")?.into_bytes();
    line.extend_from_slice(marks)?;
    line.extend_from_slice(b"|\n")?;
    Ok(line)
}

/// The marks of the days from 1 to 31, of which a day without a night is blank. If several nights are of one day, the
/// first one's mark is shown, so they are gone through from the last one on.
fn marks_of(month: &[(Cell, Held)]) -> [u8; MOST_NIGHTS]
    ensures marks { result ≡ marks_of month.now }
{
    let mut marks = [b' '; MOST_NIGHTS];
    for row in month.iter().rev() {
        let day = row.0.night.date().day;
        marks[usize::from(day) - 1] = mark_of(&row.1);
    }
    marks
}

/// The mark of a night with these places.
fn mark_of(places: &Held) -> u8
    ensures mark { result ≡ mark_of places.now }
{
    if places.allot == 0 {
        b'-'
    } else if places.held() == 0 {
        b'.'
    } else if places.free == 0 {
        b'#'
    } else {
        b'0' + tenths_of(places)
    }
}

/// How many tenths of the places are held, rounded down, but at least one. Some places are free.
fn tenths_of(places: &Held) -> u8
    requires some_free { 0 < places.now.free }

    ensures tenths { result ≡ tenths_of places.now }
    ensures below_ten { result ≤ 9 }
{
    let tenths = 10 * places.held() / places.allot;
    tenths.max(1) as u8
}
