//! What the tests share: files that are opened for a session, and short ways to ask and to judge.
ghost use Rattle.std.specs.Prelude.{IsTrue};

use memory_files::{ClosedFile, Session};
use sqlite::{Alter, Connection};
use std::alloc::Global;
use std::process::Abort;
use std::test::Fail;
use tables::{MigrateFault, Migrated, Opened, TableBook, migrate, open_from};

/// Stops the test where this is false.
pub fn holds(rt: &impl Abort, case: &str, is_so: bool)
    ensures { IsTrue is_so }
{
    assert!(rt; is_so, "{case}");
}

/// Opens files with these bytes for a session, and closes them. Returns the files.
pub fn open_for<R: Abort, T: Session<R>>(
    rt: &R,
    alloc: Global,
    log: &[u8],
    db: &[u8],
    session: &mut T,
) -> Result<ClosedFile, Fail> {
    ClosedFile::of(alloc, log, db)?.open_for(rt, alloc, session)
}

/// Runs the texts in one transaction.
pub fn run<S: Alter>(
    rt: &impl Abort,
    conn: &mut Connection<S>,
    texts: &[&str],
) -> Result<(), Fail> {
    holds(rt, "no transaction", conn.is_autocommit());
    let mut tx = conn.transaction();
    for text in texts {
        tx.execute_batch(text)?;
    }
    tx.commit()?;
    Ok(())
}

/// Migrates the store of a connection that is in no transaction.
pub fn bring_over<S: Alter>(
    rt: &impl Abort,
    conn: &mut Connection<S>,
) -> Result<Migrated, MigrateFault> {
    conn.set_step_limit(None);
    holds(rt, "no transaction", conn.is_autocommit());
    migrate(conn)
}

/// The contents of a connection's store, which must be a desk's.
pub fn open<S: Alter + Drop>(rt: &impl Abort, mut conn: Connection<S>) -> Result<Opened<S>, Fail> {
    conn.set_step_limit(None);
    holds(rt, "no transaction", conn.is_autocommit());
    match open_from(conn) {
        Ok(opened) => Ok(opened),
        Err((_, fault)) => Err(fault.into()),
    }
}

/// The desk over a connection's store, which must be of the newest schema.
pub fn book_over<S: Alter + Drop>(
    rt: &impl Abort,
    alloc: Global,
    conn: Connection<S>,
) -> Result<TableBook<S>, Fail> {
    match open(rt, conn)?.into_book(alloc) {
        Ok(book) => Ok(book),
        Err((_, fault)) => Err(fault.into()),
    }
}
