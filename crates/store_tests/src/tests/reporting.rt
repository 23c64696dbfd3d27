//! The reports of a book over tables: the text of each kind, that a journey which is absent has none, and that a malformed row
//! is a fault after which the book has failed.
use crate::tests::asking::is_answered;
use crate::tests::helping::{book_over, run};
use crate::tests::sources::DONE;
use allotment::Cell;
use commands::Fault;
use memory_files::{ClosedFile, Session};
use report_kinds::Reporting;
use saga_core::{Book, CellFilter, Format, JourneyFilter, JourneyReport, MonthReport, Report};
use sqlite::{Alter, Connection};
use std::alloc::Global;
use std::process::Abort;
use std::test::Fail;
use tables::TableBook;

const STOCK: &str = "kind     supplier product  night       allot   held   free
flight   AL       A1       2030-06-01     10      2      8
room     INN      DBL      2030-06-02      1      1      0
cells 2
";

const SUMMARY: &str = "kind,supplier,product,month,nights,allot,held,free\r
flight,AL,A1,2030-06,1,10,2,8\r
room,INN,DBL,2030-06,1,1,1,0\r
";

const UNFINISHED: &str = "           2 desk             back 1 to 0
unfinished 1
";

const HOLDERS: &str = "journey,step,option,places\r
1,2,1,1\r
";

const HOLDINGS: &str = "night,kind,supplier,product,journey,agent,state,places\r
2030-06-01,flight,AL,A1,1,desk,ended,1\r
2030-06-01,flight,AL,A1,2,desk,back,1\r
2030-06-02,room,INN,DBL,1,desk,ended,1\r
";

const HISTORY: &str = "journey 2 agent desk
plan F/AL/A1/2030-06-01/1/1;R/INN/DBL/2030-06-02/1/1!0
items T1.1 B0r
state back 1 to 0
";

const WHY: &str = r#"{"agent":"desk","journey":2,"pos":1,"state":"back","target":0}
{"journey":2,"next":"C1.1","want":"F/AL/A1/2030-06-01/1/1"}
{"free":8,"journey":2,"night":"2030-06-01"}
{"journey":2,"step":"C1.1"}
"#;

/// The report of the unfinished journeys, as a text.
fn unfinished() -> Report {
    Report::Journeys {
        name: JourneyReport::Unfinished,
        filter: JourneyFilter::unfinished(),
        format: Format::Text,
    }
}

/// Checks that a book returns this report.
fn is_returned<S: Alter>(
    rt: &impl Abort,
    book: &mut TableBook<S>,
    report: &Report,
    expected: Option<&str>,
) -> Result<(), Fail> {
    let found = book.report(report)?;
    let bytes = found.as_ref().map(|text| text.as_slice());
    assert!(rt;
        bytes == expected.map(|text| text.as_bytes()),
        "{expected:?}"
    );
    Ok(())
}

/// Checks a report of each kind, of a desk with the two journeys; of a journey that does not exist there is none.
#[rattlefmt::skip]
fn are_returned<S: Alter>(
    rt: &impl Abort,
    book: &mut TableBook<S>,
) -> Result<(), Fail> {
    let cell = Cell::parse("R/INN/DBL/2030-06-02").ok_or("no cell")?;
    let (text, json, csv) = (Format::Text, Format::Json, Format::Csv);
    let months = MonthReport::Summary(csv);
    is_returned(rt, book, &Report::Stock { filter: CellFilter::all(), format: text }, Some(STOCK))?;
    is_returned(rt, book, &Report::Months { months, filter: CellFilter::all() }, Some(SUMMARY))?;
    is_returned(rt, book, &unfinished(), Some(UNFINISHED))?;
    is_returned(rt, book, &Report::Holders { cell, format: csv }, Some(HOLDERS))?;
    is_returned(rt, book, &Report::Holdings { filter: CellFilter::all(), format: csv }, Some(HOLDINGS))?;
    is_returned(rt, book, &Report::History { id: 2, format: text }, Some(HISTORY))?;
    is_returned(rt, book, &Report::Why { id: 2, format: json }, Some(WHY))?;
    is_returned(rt, book, &Report::History { id: 3, format: text }, None)?;
    is_returned(rt, book, &Report::Why { id: 3, format: json }, None)
}

/// Makes the two journeys, and checks each report of them twice.
#[derive(Drop)]
struct Reported;

impl<R: Abort> Session<R> for Reported {
    fn run<S: Alter + Drop>(
        &mut self,
        rt: &R,
        alloc: Global,
        conn: Connection<S>,
    ) -> Result<Connection<S>, Fail> {
        let mut book = book_over(alloc, conn)?;
        is_answered(rt, alloc, &mut book, &DONE)?;
        are_returned(rt, &mut book)?;
        are_returned(rt, &mut book)?;
        Ok(book.into_store())
    }
}

/// Checks that a book with a malformed cell fails at the report of its stock, and not at one that does not read it.
#[derive(Drop)]
struct Malformed;

impl<R: Abort> Session<R> for Malformed {
    fn run<S: Alter + Drop>(
        &mut self,
        rt: &R,
        alloc: Global,
        mut conn: Connection<S>,
    ) -> Result<Connection<S>, Fail> {
        run(
            &mut conn,
            "UPDATE stock SET supplier = 'inn' WHERE kind = 1",
        )?;
        let mut book = book_over(alloc, conn)?;
        is_returned(rt, &mut book, &unfinished(), Some(UNFINISHED))?;
        let (filter, format) = (CellFilter::all(), Format::Text);
        let stock = book.report(&Report::Stock { filter, format });
        assert!(rt; stock == Err(Fault::Store), "a malformed row");
        assert!(rt;
            book.report(&unfinished()) == Err(Fault::Store),
            "no report after a fault"
        );
        assert!(rt; book.counts().is_err(), "no answer after a fault");
        Ok(book.into_store())
    }
}

#[test]
fn a_book_returns_each_report(rt: HostRuntime) -> Result<(), Fail> {
    let alloc = rt.alloc();
    let closed = ClosedFile::new(alloc).open_for(&rt, alloc, &mut Reported)?;
    closed.open_for(&rt, alloc, &mut Malformed)?;
    Ok(())
}
