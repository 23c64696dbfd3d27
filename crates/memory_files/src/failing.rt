//! Files that fail after some calls.
use crate::sessions::Session;
use sqlite::{Connection, Files, Options};
use sqlite_disk::{Disk, Fuse, Memory};
use std::alloc::Global;
use std::test::Fail;

/// Opens files that may fail for a session, if they open. Returns the files as they were left; nothing closes them.
pub fn leave_failing<R, T: Session<R>>(
    rt: &R,
    alloc: Global,
    files: Files<Fuse<Memory>>,
    session: &mut T,
) -> Result<Files<Fuse<Memory>>, Fail> {
    if !files.log.may_be_used() || !files.db.may_be_used() {
        return Ok(files);
    }
    match Connection::open_files(alloc, files, Options::new(1)) {
        Ok(conn) => Ok(session.run(rt, alloc, conn)?.into_store().close()),
        Err((_, left)) => Ok(left.into_files()),
    }
}

/// Opens files that may fail for a session, if they open, and closes them. Returns the files as they were left.
pub fn close_failing<R, T: Session<R>>(
    rt: &R,
    alloc: Global,
    files: Files<Fuse<Memory>>,
    session: &mut T,
) -> Result<Files<Fuse<Memory>>, Fail> {
    if !files.log.may_be_used() || !files.db.may_be_used() {
        return Ok(files);
    }
    let conn = match Connection::open_files(alloc, files, Options::new(1)) {
        Ok(conn) => conn,
        Err((_, left)) => return Ok(left.into_files()),
    };
    Ok(match session.run(rt, alloc, conn)?.close_files() {
        Ok(files) => files,
        Err((_, store)) => store.close(),
    })
}
