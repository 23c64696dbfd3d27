//! Calendars: the marks of nights and the rows of months, by hand.
use super::fakes::Failing;
use super::months::{asking, code, row, six_cells};
use super::{is_told, with_room};
use allotment::{Cell, Held, Kind, Night};
use commands::Fault;
use month_reports::months_text;
use reports::ReportFault;
use saga_core::{CellFilter, Listed, MonthReport};
use std::alloc::{AllocError, Global};
use std::process::Abort;

const HEADING: &str = ". none held  1 to 9 tenths held  # all held  - none allotted  blank no night
                                             1         2         3
kind     supplier product  month    1234567890123456789012345678901
";

/// Stops the test if the calendar of the cells that are asked for has another number of months, or other lines, than these.
fn is_drawn(
    rt: &impl Abort,
    alloc: Global,
    filter: &CellFilter,
    cells: &[(Cell, Held)],
    count: u64,
    lines: &str,
) -> Result<(), AllocError> {
    let mut out = with_room(rt, alloc);
    let report = MonthReport::Calendar;
    let answer = months_text(alloc, report, filter, &mut Listed::new(cells), &mut out);
    let text = format!(in alloc; "{HEADING}{lines}months {count}\n")?;
    is_told(rt, lines, answer, Ok(count), &out, text.as_bytes());
    Ok(())
}

/// A room at the night of this day, with so many places.
fn night(rt: &impl Abort, day: u32, allot: u32, free: u32) -> (Cell, Held) {
    assert!(rt; free <= allot && allot <= 100_000);
    match Night::from_day(day) {
        Some(night) => {
            let cell = Cell::new(Kind::Room, code(rt, "INN"), code(rt, "DBL"), night);
            (cell, Held { allot, free })
        }
        None => panic!(rt; "{day}"),
    }
}

// 2028-02-01 is day 21215. Of four places none, one, two, three and all are held, and again so
#[test]
fn a_february_of_a_leap_year_has_29_days(rt: HostRuntime) -> Result<(), AllocError> {
    let alloc = rt.alloc();
    let mut cells = Vec::with_capacity(alloc, 30)?;
    for index in 0..30u32 {
        cells.push(night(&rt, 21215 + index, 4, 4 - index % 5))?;
    }
    let lines = "room     INN      DBL      2028-02 |.257#.257#.257#.257#.257#.257  |
room     INN      DBL      2028-03 |#                              |
";
    is_drawn(&rt, alloc, &CellFilter::all(), &cells, 2, lines)
}

// 2030-12-01 is day 22249. Of 30 places one more is held from each day to the next: from 3 on, each three are a tenth
#[test]
fn a_month_of_31_days_has_no_blank(rt: HostRuntime) -> Result<(), AllocError> {
    let alloc = rt.alloc();
    let mut cells = Vec::with_capacity(alloc, 31)?;
    for index in 0..31u32 {
        cells.push(night(&rt, 22249 + index, 30, 30 - index))?;
    }
    let lines = "room     INN      DBL      2030-12 |.11111222333444555666777888999#|\n";
    is_drawn(&rt, alloc, &CellFilter::all(), &cells, 1, lines)
}

#[test]
fn days_without_a_night_are_blank(rt: HostRuntime) -> Result<(), AllocError> {
    let alloc = rt.alloc();
    let cells = [
        row(&rt, "R/INN/DBL/2030-07-03", 5, 5),
        row(&rt, "R/INN/DBL/2030-07-10", 0, 0),
        row(&rt, "R/INN/DBL/2030-07-11", 0, 0),
        row(&rt, "R/INN/DBL/2030-07-31", 5, 0),
        row(&rt, "R/INN/SGL/2030-07-01", 8, 3),
        row(&rt, "R/INN/SGL/2030-07-30", 8, 7),
    ];
    let lines = "room     INN      DBL      2030-07 |  .      --                   #|
room     INN      SGL      2030-07 |6                            1 |
";
    is_drawn(&rt, alloc, &CellFilter::all(), &cells, 2, lines)
}

#[test]
fn nights_that_are_not_asked_for_are_blank(rt: HostRuntime) -> Result<(), AllocError> {
    let alloc = rt.alloc();
    let filter = asking(Some(Kind::Room), "2030-06-30");
    let lines = "room     INN      X        2030-06 |                             # |
room     INN      X        2030-07 |#                              |
room     INN      Y        2030-07 |2                              |
";
    is_drawn(&rt, alloc, &filter, &six_cells(&rt), 3, lines)
}

// how many places are allotted on 2030-12-01, how many of them are free, and the line of that month
#[rattlefmt::skip]
const MARKS: [(u32, u32, &str); 15] = [
    (0,       0,       "room     INN      DBL      2030-12 |-                              |\n"),
    (1,       1,       "room     INN      DBL      2030-12 |.                              |\n"),
    (1,       0,       "room     INN      DBL      2030-12 |#                              |\n"),
    (3,       2,       "room     INN      DBL      2030-12 |3                              |\n"),
    (3,       1,       "room     INN      DBL      2030-12 |6                              |\n"),
    (10,      1,       "room     INN      DBL      2030-12 |9                              |\n"),
    (100_000, 100_000, "room     INN      DBL      2030-12 |.                              |\n"),
    (100_000, 99_999,  "room     INN      DBL      2030-12 |1                              |\n"),
    (100_000, 90_000,  "room     INN      DBL      2030-12 |1                              |\n"),
    (100_000, 80_001,  "room     INN      DBL      2030-12 |1                              |\n"),
    (100_000, 80_000,  "room     INN      DBL      2030-12 |2                              |\n"),
    (100_000, 10_001,  "room     INN      DBL      2030-12 |8                              |\n"),
    (100_000, 10_000,  "room     INN      DBL      2030-12 |9                              |\n"),
    (100_000, 1,       "room     INN      DBL      2030-12 |9                              |\n"),
    (100_000, 0,       "room     INN      DBL      2030-12 |#                              |\n"),
];

#[test]
fn marks_say_how_many_tenths_are_held(rt: HostRuntime) -> Result<(), AllocError> {
    let alloc = rt.alloc();
    for &(allot, free, line) in &MARKS {
        let cells = [night(&rt, 22249, allot, free)];
        is_drawn(&rt, alloc, &CellFilter::all(), &cells, 1, line)?;
    }
    Ok(())
}

// how many cells come before the fault, and what is written after the heading
#[rattlefmt::skip]
const CUT: [(usize, &str); 4] = [
    (0, ""),
    (1, ""),
    (2, ""),
    (3, "room     INN      X        2030-06 |                            1# |\n"),
];

#[test]
fn a_source_that_fails_ends_a_calendar_between_months(rt: HostRuntime) -> Result<(), AllocError> {
    let alloc = rt.alloc();
    let cells = six_cells(&rt);
    for &(count, line) in &CUT {
        let mut out = with_room(&rt, alloc);
        let mut source = Failing::new(&cells[..count], Fault::Store);
        let report = MonthReport::Calendar;
        let answer = months_text(alloc, report, &CellFilter::all(), &mut source, &mut out);
        let text = format!(in alloc; "{HEADING}{line}")?;
        is_told(
            &rt,
            line,
            answer,
            Err(ReportFault::Store),
            &out,
            text.as_bytes(),
        );
    }
    Ok(())
}
