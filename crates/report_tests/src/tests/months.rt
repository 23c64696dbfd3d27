//! Reports by month: texts with values from outside, and what is written before a source or a writer fails.
use super::fakes::Failing;
use super::{ROOM, cell, is_told, with_room};
use allotment::{Cell, Code, Held, Kind, Night};
use commands::Fault;
use failing_streams::Sink;
use month_reports::months_text;
use reports::ReportFault;
use saga_core::{CellFilter, Format, Listed, MonthReport};
use std::alloc::AllocError;
use std::process::Abort;

/// The cell of this text, with so many places.
pub(super) fn row(rt: &impl Abort, text: &str, allot: u32, free: u32) -> (Cell, Held) {
    assert!(rt; free <= allot && allot <= 100_000);
    (cell(rt, text), Held { allot, free })
}

/// Six cells: the last two nights of a June, the first of the July after it, another room on that night, and cover of a New
/// Year's Eve and of the New Year.
pub(super) fn six_cells(rt: &impl Abort) -> [(Cell, Held); 6] {
    [
        row(rt, "R/INN/X/2030-06-29", 10, 9),
        row(rt, "R/INN/X/2030-06-30", 4, 0),
        row(rt, "R/INN/X/2030-07-01", 4, 0),
        row(rt, "R/INN/Y/2030-07-01", 7, 5),
        row(rt, "C/ABCDEFGH/12345678/2030-12-31", 100_000, 100_000),
        row(rt, "C/ABCDEFGH/12345678/2031-01-01", 0, 0),
    ]
}

const HEADING: &str = "kind     supplier product  month   nights    allot     held     free\n";

const SUMMARY: &str = "kind     supplier product  month   nights    allot     held     free
room     INN      X        2030-06      2       14        5        9
room     INN      X        2030-07      1        4        4        0
room     INN      Y        2030-07      1        7        2        5
cover    ABCDEFGH 12345678 2030-12      1   100000        0   100000
cover    ABCDEFGH 12345678 2031-01      1        0        0        0
months 5
";

const SUMMARY_OBJECTS: &str =
    r#"{"allot":14,"free":9,"held":5,"kind":"room","month":"2030-06","nights":2,"product":"X","supplier":"INN"}
{"allot":4,"free":0,"held":4,"kind":"room","month":"2030-07","nights":1,"product":"X","supplier":"INN"}
{"allot":7,"free":5,"held":2,"kind":"room","month":"2030-07","nights":1,"product":"Y","supplier":"INN"}
{"allot":100000,"free":100000,"held":0,"kind":"cover","month":"2030-12","nights":1,"product":"12345678","supplier":"ABCDEFGH"}
{"allot":0,"free":0,"held":0,"kind":"cover","month":"2031-01","nights":1,"product":"12345678","supplier":"ABCDEFGH"}
"#;

const SUMMARY_RECORDS: &str = "kind,supplier,product,month,nights,allot,held,free\r
room,INN,X,2030-06,2,14,5,9\r
room,INN,X,2030-07,1,4,4,0\r
room,INN,Y,2030-07,1,7,2,5\r
cover,ABCDEFGH,12345678,2030-12,1,100000,0,100000\r
cover,ABCDEFGH,12345678,2031-01,1,0,0,0\r
";

const CALENDAR: &str = ". none held  1 to 9 tenths held  # all held  - none allotted  blank no night
                                             1         2         3
kind     supplier product  month    1234567890123456789012345678901
room     INN      X        2030-06 |                            1# |
room     INN      X        2030-07 |#                              |
room     INN      Y        2030-07 |2                              |
cover    ABCDEFGH 12345678 2030-12 |                              .|
cover    ABCDEFGH 12345678 2031-01 |-                              |
months 5
";

// the report, what it writes of six cells, and of none
#[rattlefmt::skip]
const REPORTS: [(MonthReport, &str, &str); 4] = [
    (MonthReport::Summary(Format::Text), SUMMARY,
        "kind     supplier product  month   nights    allot     held     free\nmonths 0\n"),
    (MonthReport::Summary(Format::Json), SUMMARY_OBJECTS, ""),
    (MonthReport::Summary(Format::Csv), SUMMARY_RECORDS,
        "kind,supplier,product,month,nights,allot,held,free\r\n"),
    (MonthReport::Calendar, CALENDAR,
        ". none held  1 to 9 tenths held  # all held  - none allotted  blank no night
                                             1         2         3
kind     supplier product  month    1234567890123456789012345678901
months 0\n"),
];

#[test]
fn months_are_shown_in_each_format(rt: HostRuntime) {
    let alloc = rt.alloc();
    let cells = six_cells(&rt);
    for &(report, whole, empty) in &REPORTS {
        let mut out = with_room(&rt, alloc);
        let answer = months_text(
            alloc,
            report,
            &CellFilter::all(),
            &mut Listed::new(&cells),
            &mut out,
        );
        is_told(&rt, "six cells", answer, Ok(5), &out, whole.as_bytes());
        let mut out = with_room(&rt, alloc);
        let none = &cells[..0];
        let answer = months_text(
            alloc,
            report,
            &CellFilter::all(),
            &mut Listed::new(none),
            &mut out,
        );
        is_told(&rt, "no cell", answer, Ok(0), &out, empty.as_bytes());
    }
}

/// The filter for the cells of a kind from a night on.
pub(super) fn asking(kind: Option<Kind>, from: &str) -> CellFilter {
    CellFilter {
        kind,
        supplier: None,
        product: None,
        from: Night::parse(from).ok(),
        to: None,
    }
}

// the kind and the first night that are asked for, how many months these have, and the summary
#[rattlefmt::skip]
const ASKED: [(Option<Kind>, &str, u64, &str); 4] = [
    (Some(Kind::Cover), "2000-01-01", 2, "kind,supplier,product,month,nights,allot,held,free\r
cover,ABCDEFGH,12345678,2030-12,1,100000,0,100000\r
cover,ABCDEFGH,12345678,2031-01,1,0,0,0\r\n"),
    (Some(Kind::Room), "2030-06-30", 3, "kind,supplier,product,month,nights,allot,held,free\r
room,INN,X,2030-06,1,4,4,0\r
room,INN,X,2030-07,1,4,4,0\r
room,INN,Y,2030-07,1,7,2,5\r\n"),
    (None, "2031-01-01", 1, "kind,supplier,product,month,nights,allot,held,free\r
cover,ABCDEFGH,12345678,2031-01,1,0,0,0\r\n"),
    (Some(Kind::Flight), "2000-01-01", 0, "kind,supplier,product,month,nights,allot,held,free\r\n"),
];

#[test]
fn only_cells_that_are_asked_for_are_counted(rt: HostRuntime) {
    let alloc = rt.alloc();
    let cells = six_cells(&rt);
    for &(kind, from, count, expected) in &ASKED {
        let mut out = with_room(&rt, alloc);
        let report = MonthReport::Summary(Format::Csv);
        let filter = asking(kind, from);
        let answer = months_text(alloc, report, &filter, &mut Listed::new(&cells), &mut out);
        is_told(&rt, from, answer, Ok(count), &out, expected.as_bytes());
    }
}

// the nights of two cells of a room, and whether they are in one month
#[rattlefmt::skip]
const NIGHTS: [(&str, &str, bool); 10] = [
    ("2030-06-01", "2030-06-02", true),
    ("2030-06-01", "2030-06-30", true),
    ("2030-06-30", "2030-07-01", false),
    ("2030-06-01", "2031-06-02", false),
    ("2000-02-28", "2000-02-29", true),
    ("2000-02-29", "2000-03-01", false),
    ("2027-02-28", "2027-03-01", false),
    ("2028-02-28", "2028-02-29", true),
    ("2099-12-30", "2099-12-31", true),
    ("2030-06-02", "2030-06-01", false),
];

#[test]
fn a_month_ends_as_in_the_calendar(rt: HostRuntime) -> Result<(), AllocError> {
    let alloc = rt.alloc();
    for &(first, second, is_one) in &NIGHTS {
        let first = format!(in alloc; "R/INN/X/{first}")?;
        let second = format!(in alloc; "R/INN/X/{second}")?;
        let cells = [
            row(&rt, first.as_str(), 1, 1),
            row(&rt, second.as_str(), 1, 0),
        ];
        let mut out = with_room(&rt, alloc);
        let report = MonthReport::Summary(Format::Json);
        let answer = months_text(
            alloc,
            report,
            &CellFilter::all(),
            &mut Listed::new(&cells),
            &mut out,
        );
        let months = if is_one { 1 } else { 2 };
        assert!(rt; answer == Ok(months), "{first} and {second}: {answer:?}");
    }
    Ok(())
}

/// The code of this text.
pub(super) fn code(rt: &impl Abort, text: &str) -> Code {
    match Code::parse(text) {
        Some(code) => code,
        None => panic!(rt; "{text}"),
    }
}

// 2030-12-01 is day 22249: 2030-06-01 is 22066, and 183 days lie between them
#[test]
fn a_month_has_up_to_31_nights(rt: HostRuntime) -> Result<(), AllocError> {
    let alloc = rt.alloc();
    let mut cells = Vec::with_capacity(alloc, 32)?;
    for day in 22249..22281 {
        if let Some(night) = Night::from_day(day) {
            let cell = Cell::new(Kind::Cover, code(&rt, "CO"), code(&rt, "P"), night);
            let places = Held {
                allot: 100_000,
                free: 0,
            };
            cells.push((cell, places))?;
        }
    }
    let mut out = with_room(&rt, alloc);
    let report = MonthReport::Summary(Format::Csv);
    let answer = months_text(
        alloc,
        report,
        &CellFilter::all(),
        &mut Listed::new(&cells),
        &mut out,
    );
    let expected = "kind,supplier,product,month,nights,allot,held,free\r
cover,CO,P,2030-12,31,3100000,3100000,0\r
cover,CO,P,2031-01,1,100000,100000,0\r
";
    is_told(&rt, "32 nights", answer, Ok(2), &out, expected.as_bytes());
    Ok(())
}

// how many cells come before the fault, and what is written: a month is written once a cell after it is known
#[rattlefmt::skip]
const CUT: [(usize, &str); 4] = [
    (0, HEADING),
    (1, HEADING),
    (2, HEADING),
    (3, "kind     supplier product  month   nights    allot     held     free
room     INN      X        2030-06      2       14        5        9\n"),
];

#[test]
fn a_source_that_fails_ends_the_report_between_months(rt: HostRuntime) {
    let alloc = rt.alloc();
    let cells = six_cells(&rt);
    for &(count, expected) in &CUT {
        for (fault, told) in [
            (Fault::Store, ReportFault::Store),
            (Fault::Memory, ReportFault::Memory),
        ] {
            let mut out = with_room(&rt, alloc);
            let mut source = Failing::new(&cells[..count], fault);
            let report = MonthReport::Summary(Format::Text);
            let answer = months_text(alloc, report, &CellFilter::all(), &mut source, &mut out);
            is_told(&rt, expected, answer, Err(told), &out, expected.as_bytes());
        }
    }
}

#[test]
fn a_writer_that_fails_has_a_prefix_of_the_months(rt: HostRuntime) -> Result<(), AllocError> {
    let alloc = rt.alloc();
    let cells = six_cells(&rt);
    for &(report, whole, _) in &REPORTS {
        for room in 0..whole.len() {
            let mut sink = Sink::new(alloc, 3, room)?;
            let answer = months_text(
                alloc,
                report,
                &CellFilter::all(),
                &mut Listed::new(&cells),
                &mut sink,
            );
            assert!(rt; answer == Err(ReportFault::Write), "{room}: {answer:?}");
            assert!(rt; sink.taken() == &whole.as_bytes()[..room], "{room}");
        }
        let mut sink = Sink::new(alloc, 7, ROOM)?;
        let answer = months_text(
            alloc,
            report,
            &CellFilter::all(),
            &mut Listed::new(&cells),
            &mut sink,
        );
        assert!(rt;
            answer == Ok(5) && sink.taken() == whole.as_bytes(),
            "{answer:?}"
        );
    }
    Ok(())
}
