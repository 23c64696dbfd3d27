//! What opening finds and makes, and that a store which it refuses is unchanged.

ghost use Rattle.desk_sql.specs.Calls.{Idle};

use crate::tests::helping::{counts, holds, opened, run};
use memory_files::{ClosedFile, Session};
use sqlite::{Alter, Connection};
use std::alloc::Global;
use std::process::Abort;
use std::test::Fail;
use tables::{OpenFault, open_from};

// a new desk: one row of meta, and tables without rows
#[rattlefmt::skip]
static NEW: [(&str, i64); 10] = [
    ("SELECT count(*) FROM meta WHERE one = 1 AND version = 2 AND events = 0 AND journeys = 0", 1),
    ("SELECT count(*) FROM meta", 1),
    ("SELECT count(*) FROM stock", 0),
    ("SELECT count(*) FROM batch", 0),
    ("SELECT count(*) FROM journey", 0),
    ("SELECT count(*) FROM step", 0),
    ("SELECT count(*) FROM entry", 0),
    ("SELECT count(*) FROM answer", 0),
    ("SELECT count(*) FROM entry2", 0),
    ("SELECT count(*) FROM mark", 0),
];

// a reply that is kept for an agent, and the query that finds it
const KEPT: &str = "INSERT INTO answer VALUES ('ann', 'k1', x'626567696e', 'begun 1')";

#[rattlefmt::skip]
static KEPT_ROWS: [(&str, i64); 2] = [
    ("SELECT count(*) FROM answer WHERE agent = 'ann' AND mark = 'k1' AND ask = x'626567696e' AND reply = 'begun 1'", 1),
    ("SELECT count(*) FROM meta WHERE version = 2 AND events = 0 AND journeys = 0", 1),
];

#[test]
fn a_new_store_gets_all_tables(rt: HostRuntime) -> Result<(), Fail> {
    let alloc = rt.alloc();
    let mut conn = opened(alloc, Connection::open_in_memory(alloc)?)?;
    counts(&rt, &mut conn, &NEW)
}

/// Keeps a reply in the tables.
#[derive(Drop)]
struct Keeping;

impl<R: Abort> Session<R> for Keeping {
    fn run<S: Alter + Drop>(
        &mut self,
        _rt: &R,
        alloc: Global,
        conn: Connection<S>,
    ) -> Result<Connection<S>, Fail> {
        let mut conn = opened(alloc, conn)?;
        run(&mut conn, KEPT)?;
        Ok(conn)
    }
}

/// Checks that the tables have these rows.
#[derive(Drop)]
struct Having(&'static [(&'static str, i64)]);

impl<R: Abort> Session<R> for Having {
    fn run<S: Alter + Drop>(
        &mut self,
        rt: &R,
        alloc: Global,
        conn: Connection<S>,
    ) -> Result<Connection<S>, Fail> {
        let mut conn = opened(alloc, conn)?;
        counts(rt, &mut conn, self.0)?;
        Ok(conn)
    }
}

#[test]
fn a_desk_that_is_opened_again_has_its_replies(rt: HostRuntime) -> Result<(), Fail> {
    let alloc = rt.alloc();
    let closed = ClosedFile::new(alloc).open_for(&rt, alloc, &mut Keeping)?;
    closed.open_for(&rt, alloc, &mut Having(&KEPT_ROWS))?;
    Ok(())
}

/// The fault of an opening that is refused, and the connection that it returns.
fn refused<S: Alter + Drop>(conn: Connection<S>) -> Option<(Connection<S>, OpenFault)>
    requires idle { Idle conn }
{
    open_from(conn).err()
}

// an unknown version, the statement that writes it, and the query of what is stored then
#[rattlefmt::skip]
static VERSIONS: [(u64, &str, &str); 2] = [
    (3, "UPDATE meta SET version = 3", "SELECT count(*) FROM meta WHERE version = 3 AND events = 0 AND journeys = 0"),
    (0, "UPDATE meta SET version = 0", "SELECT count(*) FROM meta WHERE version = 0 AND events = 0 AND journeys = 0"),
];

#[test]
fn an_unknown_version_is_refused_and_left(rt: HostRuntime) -> Result<(), Fail> {
    let alloc = rt.alloc();
    for &(version, text, left) in &VERSIONS {
        let mut conn = opened(alloc, Connection::open_in_memory(alloc)?)?;
        run(&mut conn, KEPT)?;
        run(&mut conn, text)?;
        let (mut conn, fault) = refused(conn).ok_or(text)?;
        holds(&rt, text, fault == OpenFault::UnknownSchema(version));
        let kept = "SELECT count(*) FROM answer WHERE reply = 'begun 1'";
        counts(&rt, &mut conn, &[(left, 1), (kept, 1)])?;
    }
    Ok(())
}

// how many tables and views there are
const TABLES: &str = "SELECT count(*) FROM sqlite_schema";

// the statements that make a store of no desk, and a query with its result, before the refusal and after
#[rattlefmt::skip]
static FOREIGN: [(&str, &str, i64); 6] = [
    ("CREATE TABLE note(a INTEGER)", "SELECT count(*) FROM note", 0),
    ("CREATE TABLE note(a INTEGER); INSERT INTO note VALUES (7)", "SELECT a FROM note", 7),
    ("CREATE VIEW two AS SELECT 2", "SELECT * FROM two", 2),
    ("CREATE TABLE meta(one INTEGER PRIMARY KEY)", "SELECT count(*) FROM meta", 0),
    ("CREATE TABLE meta(one INTEGER PRIMARY KEY, version INTEGER, events INTEGER, journeys INTEGER)", "SELECT count(*) FROM meta", 0),
    ("CREATE TABLE meta(one INTEGER PRIMARY KEY, version, events, journeys); INSERT INTO meta VALUES (1, 'two', 0, 5)", "SELECT journeys FROM meta", 5),
];

#[test]
fn a_store_that_is_no_desks_is_a_fault_and_left(rt: HostRuntime) -> Result<(), Fail> {
    for &(texts, shown, expected) in &FOREIGN {
        let mut conn = Connection::open_in_memory(rt.alloc())?;
        run(&mut conn, texts)?;
        let (mut conn, fault) = refused(conn).ok_or(texts)?;
        holds(&rt, texts, fault == OpenFault::Store);
        counts(&rt, &mut conn, &[(shown, expected), (TABLES, 1)])?;
    }
    Ok(())
}
