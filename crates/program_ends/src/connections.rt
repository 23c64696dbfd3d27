//! Connections to the database in a file.
//!
//! `S: Start` stands for what the file and its log held as they were opened. The program opens them as `Unknown`.
ghost use Rattle.std.specs.Prelude.{◌≡◌, ◌≢◌, ◌↔◌, ℕ, false, None, IfErr, IfOk, IfSome, IsTrue};
ghost use Rattle.sqlite.specs.Files.{file_state};
ghost use Rattle.sqlite.specs.Held.{state};
ghost use Rattle.sqlite.specs.State.{HasCleanDisk};
ghost use Rattle.sqlite_trees.specs.Tree.{Trees};
ghost use Rattle.sqlite_wal.specs.Files.{image_at};
ghost use Rattle.desk_sql.specs.Calls.{Idle};
ghost use Rattle.program_ends.specs.Ends.{EndsBadly};
ghost use Rattle.program_ends.specs.FileCauses.{cause_of_store, is_of_path};
ghost use Rattle.program_ends.specs.Images.{LeavesAsFound, LeavesLastCommit, OpensOver};

use crate::causes::Cause;
use crate::closing::Left;
use crate::ended::Ended;
use crate::ends::End;
use crate::faults::ProgramFault;
use crate::files::{NewLog, cause_of_kind, cause_of_path, is_no_database};
use sqlite::{Alter, Connection, Error, ErrorCode, FileFrom, FileStore, Start, Unknown};
use std::fs;

/// A connection to the database in a file, whatever that held.
pub type FileConnection = ConnectionFrom<Unknown>;

/// A connection to the database in a file that held what `S` says.
pub type ConnectionFrom<S> = Connection<FileStore<FileFrom<S>>>;

/// The end where no connection was made, and what is left of the files.
type NotConnected<S> = (Ended, Left<FileFrom<S>>);

/// A connection to the database in a file, of any contents, and the log that this made beside it. An absent file is a
/// fault, and is not made.
pub fn connect_there(rt: &HostRuntime, file: &str) -> Result<(FileConnection, NewLog), Ended>
    ensures idle { IfOk result (λ opened. Idle opened.0) }
    ensures end { IfErr result (λ ended. EndsBadly ended.end) }
{
    match connect_there_from(rt, file, Unknown) {
        Ok(opened) => Ok(opened),
        Err((ended, _left)) => Err(ended),
    }
}

/// The same of a file and a log that held what `S` says. Returns also what is left of the files at a fault.
pub fn connect_there_from<S: Start>(
    rt: &HostRuntime,
    file: &str,
    start: S,
) -> Result<(ConnectionFrom<S>, NewLog), NotConnected<S>>
    ensures idle { IfOk result (λ opened. Idle opened.0) }
    ensures opened { IfOk result (λ opened. HasCleanDisk (file_state opened.0)
        → OpensOver (image_at S.Start) opened.0) }
    ensures end { IfErr result (λ failed. EndsBadly failed.0.end) }
    ensures left { IfErr result (λ failed. LeavesAsFound (image_at S.Start) failed.1) }
{
    match check_there(rt, file) {
        Ok(()) => connect_from(rt, file, start),
        Err(ended) => Err((ended, Left::Unopened(None))),
    }
}

/// Reports a fault if the file is absent.
fn check_there(rt: &HostRuntime, file: &str) -> Result<(), Ended>
    ensures end { IfErr result (λ ended. EndsBadly ended.end) }
{
    let cause = match fs::exists(rt, file) {
        Ok(true) => return Ok(()),
        Ok(false) => Some(Cause::Absent),
        Err(error) => cause_of_kind(error.kind()),
    };
    Err(Ended {
        end: End::Fault(ProgramFault::File),
        cause,
    })
}

/// A connection to the database in a file, of any contents, and the log that this made beside it. An absent file is made.
/// A file that is no database is left as it was, without a log.
pub fn connect(rt: &HostRuntime, file: &str) -> Result<(FileConnection, NewLog), Ended>
    ensures idle { IfOk result (λ opened. Idle opened.0) }
    ensures end { IfErr result (λ ended. EndsBadly ended.end) }
{
    match connect_from(rt, file, Unknown) {
        Ok(opened) => Ok(opened),
        Err((ended, _left)) => Err(ended),
    }
}

/// The same of a file and a log that held what `S` says. Returns also what is left of the files at a fault.
///
/// The connection shows the database that they held, and an empty one if the file was absent or had no byte; a crash
/// leaves just that. Where no database was begun in them, a fault leaves them as they were.
pub fn connect_from<S: Start>(
    rt: &HostRuntime,
    file: &str,
    start: S,
) -> Result<(ConnectionFrom<S>, NewLog), NotConnected<S>>
    ensures idle { IfOk result (λ opened. Idle opened.0) }
    ensures opened { IfOk result (λ opened. HasCleanDisk (file_state opened.0)
        → OpensOver (image_at S.Start) opened.0) }
    ensures end { IfErr result (λ failed. EndsBadly failed.0.end) }
    ensures left { IfErr result (λ failed. LeavesAsFound (image_at S.Start) failed.1) }
{
    let log = NewLog::beside(rt, file);
    if log.is_new() && is_no_database(rt, file) {
        let ended = not_opened(ProgramFault::OpeningStore, Some(Cause::NoDatabase));
        return Err((ended, Left::Unopened(None)));
    }
    match Connection::open_from(rt, file, false, start) {
        Ok(conn) => {
            leaves_last_commit(&conn);
            Ok((conn, log))
        }
        Err((error, left)) => Err((end_of_error(rt, file, log, &error), Left::Unopened(left))),
    }
}

/// The end after an error of an opening. A new log beside a file that cannot be read is removed, while the files are still
/// locked.
fn end_of_error(rt: &HostRuntime, file: &str, log: NewLog, error: &Error) -> Ended
    ensures end { EndsBadly result.end }
{
    if is_unreadable(error) {
        log.remove(rt);
    }
    not_opened(opening_fault(error), cause_of_error(rt, file, error))
}

/// A crash of an open connection leaves its last commit, by the law of its store.
fn leaves_last_commit<S: Alter>(conn: &Connection<S>)
    ensures only { LeavesLastCommit S.Store conn.now }
{}

/// The end where a file was not opened.
fn not_opened(fault: ProgramFault, cause: Option<Cause>) -> Ended
    ensures end { EndsBadly result.end }
{
    Ended {
        end: End::Fault(fault),
        cause,
    }
}

/// Whether a file has no database that can be read.
fn is_unreadable(error: &Error) -> bool
    ensures damaged { IsTrue result ↔ (cause_of_store error.now ≡ Some Cause.Damaged) }
{
    matches!(
        error,
        Error::SqliteFailure(ErrorCode::NotADatabase | ErrorCode::DatabaseCorrupt)
    )
}

/// The cause of an error of an opening.
fn cause_of_error(rt: &HostRuntime, file: &str, error: &Error) -> Option<Cause>
    ensures path { error.now ≡ Error.SqliteFailure ErrorCode.CannotOpen
        → IfSome result (λ cause. IsTrue (is_of_path cause)) }
    ensures store { error.now ≢ Error.SqliteFailure ErrorCode.CannotOpen
        → result ≡ cause_of_store error.now }
{
    match error {
        Error::SqliteFailure(ErrorCode::CannotOpen) => cause_of_path(rt, file),
        error => cause_of_store(error),
    }
}

/// The cause of an error of the store.
fn cause_of_store(error: &Error) -> Option<Cause>
    ensures cause { result ≡ cause_of_store error.now }
{
    match error {
        Error::SqliteFailure(ErrorCode::DatabaseBusy) => Some(Cause::InUse),
        Error::SqliteFailure(ErrorCode::NotADatabase | ErrorCode::DatabaseCorrupt) => {
            Some(Cause::Damaged)
        }
        Error::SqliteFailure(ErrorCode::DiskFull) => Some(Cause::FullDisk),
        Error::SqliteFailure(ErrorCode::SystemIoFailure) => Some(Cause::FailedDisk),
        _ => None,
    }
}

/// The fault of a file that cannot be opened or made.
fn opening_fault(error: &Error) -> ProgramFault
    ensures memory { (result ≡ ProgramFault.OpeningMemory) ↔
        (error.now ≡ Error.SqliteFailure ErrorCode.OutOfMemory) }
    ensures store { result ≢ ProgramFault.OpeningMemory → result ≡ ProgramFault.OpeningStore }
{
    match error {
        Error::SqliteFailure(ErrorCode::OutOfMemory) => ProgramFault::OpeningMemory,
        _ => ProgramFault::OpeningStore,
    }
}
