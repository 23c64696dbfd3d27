//! Stores that are not migrated: what each reports, and that nothing of it changes.
use crate::tests::helping::{bring_over, holds, open_for, run};
use crate::tests::old_files::old_file;
use memory_files::{ClosedFile, Session};
use sqlite::{Alter, Connection};
use std::alloc::Global;
use std::process::Abort;
use std::test::Fail;
use tables::MigrateFault;

/// Checks that a store is refused with this fault, at the first migration and at the second.
#[derive(Drop)]
struct Refused<'a> {
    case: &'a str,
    expected: MigrateFault,
}

impl<R: Abort> Session<R> for Refused<'_> {
    fn run<S: Alter + Drop>(
        &mut self,
        rt: &R,
        _alloc: Global,
        mut conn: Connection<S>,
    ) -> Result<Connection<S>, Fail> {
        let Refused { case, expected } = self;
        for _ in 0..2u8 {
            let answer = bring_over(rt, &mut conn);
            assert!(rt; answer == Err(*expected), "{case}: {answer:?}");
        }
        Ok(conn)
    }
}

/// Checks that the store of these bytes is refused with this fault, and that not a byte of it changes.
fn is_refused(
    rt: &impl Abort,
    alloc: Global,
    case: &str,
    bytes: &[u8],
    expected: MigrateFault,
) -> Result<(), Fail> {
    let db = open_for(rt, alloc, &[], bytes, &mut Refused { case, expected })?;
    holds(rt, case, db.bytes() == bytes);
    Ok(())
}

/// Runs these statements.
#[derive(Drop)]
struct Change<'a> {
    statements: &'a [&'a str],
}

impl<R: Abort> Session<R> for Change<'_> {
    fn run<S: Alter + Drop>(
        &mut self,
        rt: &R,
        _alloc: Global,
        mut conn: Connection<S>,
    ) -> Result<Connection<S>, Fail> {
        run(rt, &mut conn, self.statements)?;
        Ok(conn)
    }
}

/// The file after these statements, which are run after others.
fn changed(
    rt: &impl Abort,
    alloc: Global,
    bytes: &[u8],
    statements: &[&str],
) -> Result<ClosedFile, Fail> {
    open_for(rt, alloc, &[], bytes, &mut Change { statements })
}

// what the row shows, the changes of an old file, and the fault that is reported
#[rattlefmt::skip]
static CHANGES: [(&str, &[&str], MigrateFault); 8] = [
    ("version 2",         &["UPDATE meta SET version = 2"], MigrateFault::AlreadyNew),
    ("version 3",         &["UPDATE meta SET version = 3"], MigrateFault::UnknownSchema(3)),
    ("version 0",         &["UPDATE meta SET version = 0"], MigrateFault::UnknownSchema(0)),
    ("the last version",  &["UPDATE meta SET version = 9223372036854775807"], MigrateFault::UnknownSchema(9_223_372_036_854_775_807)),
    ("a version below 0", &["UPDATE meta SET version = -1"], MigrateFault::Store),
    ("no version",        &["DELETE FROM meta"], MigrateFault::Store),
    ("no meta",           &["DROP TABLE meta"], MigrateFault::Store),
    ("no entry",          &["DROP TABLE entry"], MigrateFault::Store),
];

#[test]
fn another_version_or_none_is_refused(rt: HostRuntime) -> Result<(), Fail> {
    let alloc = rt.alloc();
    let file = old_file(&rt, alloc, 2)?;
    for (case, statements, expected) in CHANGES {
        let db = changed(&rt, alloc, file.bytes(), statements)?;
        is_refused(&rt, alloc, case, db.bytes(), expected)?;
    }
    Ok(())
}

// what the row shows, the statements that make a store of no desk, and the fault that is reported
#[rattlefmt::skip]
static FOREIGN: [(&str, &[&str], MigrateFault); 5] = [
    ("no tables",            &[], MigrateFault::UnknownSchema(0)),
    ("another table",        &["CREATE TABLE note(a INTEGER)", "INSERT INTO note VALUES (7)"], MigrateFault::Store),
    ("a view",               &["CREATE VIEW two AS SELECT 2"], MigrateFault::Store),
    ("a meta without numbers", &["CREATE TABLE meta(one INTEGER PRIMARY KEY)", "INSERT INTO meta VALUES (1)"], MigrateFault::Store),
    ("a version in words",   &["CREATE TABLE meta(one INTEGER PRIMARY KEY, version, events, journeys)", "INSERT INTO meta VALUES (1, 'one', 0, 0)"], MigrateFault::Store),
];

#[test]
fn a_store_that_is_no_desks_is_refused(rt: HostRuntime) -> Result<(), Fail> {
    for (case, statements, expected) in FOREIGN {
        let db = changed(&rt, rt.alloc(), &[], statements)?;
        is_refused(&rt, rt.alloc(), case, db.bytes(), expected)?;
    }
    Ok(())
}
