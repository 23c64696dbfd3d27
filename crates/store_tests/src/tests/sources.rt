//! Rows of an opened store, returned one at a time: what each source returns, that it returns no more after a malformed
//! row, and that the next source starts anew.
use crate::tests::asking::{Asked, is_answered};
use crate::tests::helping::{book_over, run};
use allotment::{Cell, Held};
use commands::{Fault, Item};
use memory_files::{ClosedFile, Session};
use report_writers::{FoundRows, Progress, start_items, start_stock, start_unfinished};
use saga_core::{Brief, RowSource};
use sqlite::{Alter, Connection};
use std::alloc::{AllocError, Global};
use std::process::Abort;
use std::test::Fail;
use tables::{Opened, open_from};

const TWO: &str = "F/AL/A1/2030-06-01/1/1;R/INN/DBL/2030-06-02/1/1!0";

// the first journey ends with the last room, and the second one turns back
#[rattlefmt::skip]
pub static DONE: [(Asked, &str); 7] = [
    (Asked::Load("a", &[("R/INN/DBL/2030-06-02", 1), ("F/AL/A1/2030-06-01", 10)]), "loaded a 2"),
    (Asked::Begin(TWO), "journey 1 begun"),
    (Asked::Begin(TWO), "journey 2 begun"),
    (Asked::Step(1),    "journey 1 T1.1 run 1"),
    (Asked::Step(2),    "journey 2 T1.1 run 1"),
    (Asked::Step(1),    "journey 1 T2.1 ended 2"),
    (Asked::Step(2),    "journey 2 B0r back 1 to 0"),
];

/// Makes the two journeys.
#[derive(Drop)]
struct TwoJourneys;

impl<R: Abort> Session<R> for TwoJourneys {
    fn run<S: Alter + Drop>(
        &mut self,
        rt: &R,
        alloc: Global,
        conn: Connection<S>,
    ) -> Result<Connection<S>, Fail> {
        let mut book = book_over(alloc, conn)?;
        is_answered(rt, alloc, &mut book, &DONE)?;
        Ok(book.into_store())
    }
}

/// A row of a source.
trait Shown {
    /// The text of the row in these tests.
    fn shown(&self, alloc: Global) -> Result<String, AllocError>;
}

impl Shown for (Cell, Held) {
    fn shown(&self, alloc: Global) -> Result<String, AllocError> {
        let (cell, places) = self;
        format!(in alloc; "{cell} {} {}", places.allot, places.free)
    }
}

impl Shown for Brief {
    fn shown(&self, alloc: Global) -> Result<String, AllocError> {
        let state = self.cursor.state(alloc)?;
        format!(in alloc; "{} {} {state}", self.id, self.agent.as_str())
    }
}

impl Shown for Item {
    fn shown(&self, alloc: Global) -> Result<String, AllocError> {
        self.text(alloc)
    }
}

/// The results of so many calls of a source, each with a semicolon.
fn handed<T: Shown + Drop, R: RowSource<T>>(
    alloc: Global,
    source: &mut R,
    calls: u8,
) -> Result<String, Fail> {
    let mut text = String::new(alloc);
    for _ in 0..calls {
        match source.next_row() {
            Ok(Some(row)) => text.push_str(row.shown(alloc)?.as_str())?,
            Ok(None) => text.push_str("end")?,
            Err(Fault::Store) => text.push_str("Store")?,
            Err(Fault::Memory) => text.push_str("Memory")?,
        }
        text.push(';')?;
    }
    Ok(text)
}

/// What the source of stock returns in so many calls.
fn stock_told<S: Alter>(
    alloc: Global,
    conn: &mut Connection<S>,
    calls: u8,
) -> Result<String, Fail> {
    let mut rows = start_stock(conn)?;
    let mut source = FoundRows {
        rows: &mut rows,
        progress: Progress::new(),
    };
    handed::<(Cell, Held), _>(alloc, &mut source, calls)
}

/// What the source of unfinished journeys returns in so many calls.
fn unfinished_told<S: Alter>(
    alloc: Global,
    conn: &mut Connection<S>,
    calls: u8,
) -> Result<String, Fail> {
    let mut rows = start_unfinished(conn)?;
    let mut source = FoundRows {
        rows: &mut rows,
        progress: Progress::new(),
    };
    handed::<Brief, _>(alloc, &mut source, calls)
}

/// What the sources of stock, of unfinished journeys and of the second journey's items return in so many calls.
fn told<S: Alter>(alloc: Global, opened: &mut Opened<S>, calls: u8) -> Result<[String; 3], Fail> {
    let stock = stock_told(alloc, opened.connection(), calls)?;
    let unfinished = unfinished_told(alloc, opened.connection(), calls)?;
    let version = opened.version();
    let mut rows = start_items(opened.connection(), version, 2)?;
    let items = handed(alloc, &mut rows, calls)?;
    Ok([stock, unfinished, items])
}

const STOCK: &str = "F/AL/A1/2030-06-01 10 8;R/INN/DBL/2030-06-02 1 0;end;end;";

const UNFINISHED: &str = "2 desk back 1 to 0;end;end;end;";

const ITEMS: &str = "T1.1;B0r;end;end;";

// a change of the tables, and what is returned then of stock, of unfinished journeys and of the second journey's items
#[rattlefmt::skip]
static TOLD: [(&str, [&str; 3]); 4] = [
    ("", [STOCK, UNFINISHED, ITEMS]),
    ("UPDATE stock SET supplier = 'inn' WHERE kind = 1",
        ["F/AL/A1/2030-06-01 10 8;Store;Store;Store;", UNFINISHED, ITEMS]),
    ("UPDATE journey SET agent = 'ANN' WHERE id = 2", [STOCK, "Store;Store;Store;Store;", ITEMS]),
    ("UPDATE entry2 SET b = 9 WHERE journey = 2 AND item = 2", [STOCK, UNFINISHED, "T1.1;Store;Store;Store;"]),
];

/// Stops the test if a source returns another text.
fn is_told(rt: &impl Abort, case: &str, found: &str, expected: &str) {
    assert!(rt; found == expected, "{case}: {found}");
}

/// Checks what the sources of a store return, and that they return it again when they are opened anew.
fn are_told<S: Alter>(
    rt: &impl Abort,
    alloc: Global,
    opened: &mut Opened<S>,
    change: &str,
    expected: [&str; 3],
) -> Result<(), Fail> {
    // dropped after their first rows
    told(alloc, opened, 1)?;
    for _ in 0..2u8 {
        let [stock, unfinished, items] = told(alloc, opened, 4)?;
        is_told(rt, change, stock.as_str(), expected[0]);
        is_told(rt, change, unfinished.as_str(), expected[1]);
        is_told(rt, change, items.as_str(), expected[2]);
    }
    Ok(())
}

/// A change of the tables, and what the sources return after it.
#[derive(Drop)]
struct Changed<'a> {
    change: &'a str,
    expected: [&'a str; 3],
}

impl<R: Abort> Session<R> for Changed<'_> {
    fn run<S: Alter + Drop>(
        &mut self,
        rt: &R,
        alloc: Global,
        mut conn: Connection<S>,
    ) -> Result<Connection<S>, Fail> {
        run(&mut conn, self.change)?;
        let Ok(mut opened) = open_from(conn) else {
            return Err(Fail::from("the desk is not opened"));
        };
        are_told(rt, alloc, &mut opened, self.change, self.expected)?;
        Ok(opened.into_store())
    }
}

#[test]
fn each_source_yields_its_rows_anew(rt: HostRuntime) -> Result<(), Fail> {
    let alloc = rt.alloc();
    for &(change, expected) in &TOLD {
        let closed = ClosedFile::new(alloc).open_for(&rt, alloc, &mut TwoJourneys)?;
        closed.open_for(&rt, alloc, &mut Changed { change, expected })?;
    }
    Ok(())
}
