//! How a connection to a file is closed, and what is left of the files.
ghost use Rattle.std.specs.Prelude.{◌≡◌, ◌↔◌, IfErr, IfOk, IsTrue};
ghost use Rattle.std.specs.List.{list_any};
ghost use Rattle.sqlite.specs.Files.{file_state};
ghost use Rattle.program_ends.specs.Ends.{EndsJob};
ghost use Rattle.program_ends.specs.FileCauses.{cause_of_closing, cause_of_refusals, end_of_left, has_failed, is_meta, is_unopened, HasOtherTables, IsUnlogged};
ghost use Rattle.program_ends.specs.Images.{Closes};

use crate::causes::Cause;
use crate::connections::FileConnection;
use crate::ended::Ended;
use crate::ends::End;
use crate::faults::ProgramFault;
use crate::files::NewLog;
use desk_sql::has_no_tables;
use sqlite::{Connection, FileStore, Files, Leftover};
use sqlite_disk::Disk;
use sqlite_schema::names::same_name;
use sqlite_schema::schema::{Schema, Table};
use sqlite_trees::error::StoreError;
use sqlite_trees::store::Store;

/// What is left of the files of a desk, which stay locked until it is dropped.
pub enum Left<D: Disk> {
    /// They were not opened, or not as a database.
    Unopened(Option<Leftover<D>>),
    /// They were closed, and the database file has the whole database.
    Closed(Files<D>),
    /// The log was not copied into the database file. The next opening reads it.
    Uncopied(FileStore<D>),
    /// The log was being copied when the disk failed.
    CutOff(FileStore<D>),
    /// They were closed, and a log that was made beside them was removed.
    Unlogged(Files<D>),
}

// It is written out, so that a caller does not prove again how each part is dropped.
impl<D: Disk + Drop> Drop for Left<D> {
    fn drop(self) {
        match self {
            Left::Unopened(_rest) => {}
            Left::Closed(_files) => {}
            Left::Uncopied(_store) => {}
            Left::CutOff(_store) => {}
            Left::Unlogged(_files) => {}
        }
    }
}

/// Closes a connection after a job that ended so, so that the file has the whole database. The end is that of the closing.
/// A database with other tables than the desk's is left as it was, without a log.
pub fn close_after(rt: &HostRuntime, conn: FileConnection, log: NewLog, job: &End) -> Ended
    ensures job { EndsJob result.end }
{
    let (ended, _left) = close_from(rt, conn, log, job);
    ended
}

/// Closes a connection over any disk in the same way. Returns also what is left of its files.
pub fn close_from<D: Disk + Drop>(
    rt: &HostRuntime,
    conn: Connection<FileStore<D>>,
    log: NewLog,
    job: &End,
) -> (Ended, Left<D>)
    ensures job { EndsJob result.0.end }
    ensures end { result.0.end ≡ end_of_left result.1 }
    ensures other { IsTrue (is_unopened job.now)
        → HasOtherTables (file_state conn).now.schema → IsUnlogged result.1 }
    ensures closes { Closes conn result.1 }
{
    if is_unopened(job) && has_other_tables(conn.schema()) {
        let ended = Ended {
            end: End::Done,
            cause: Some(Cause::OtherTables),
        };
        return (ended, set_aside(rt, conn, log));
    }
    close(conn, job)
}

/// Closes a connection without copying its log, and removes the log if it is new.
fn set_aside<D: Disk + Drop>(
    rt: &HostRuntime,
    conn: Connection<FileStore<D>>,
    log: NewLog,
) -> Left<D>
    ensures closes { Closes conn result }
    ensures unlogged { IsUnlogged result }
{
    let store = conn.into_store();
    let files = store.close();
    log.remove(rt);
    Left::Unlogged(files)
}

/// Closes a connection in the same way, whatever its tables are.
fn close<D: Disk + Drop>(conn: Connection<FileStore<D>>, job: &End) -> (Ended, Left<D>)
    ensures job { EndsJob result.0.end }
    ensures end { result.0.end ≡ end_of_left result.1 }
    ensures closes { Closes conn result.1 }
{
    match copy_log(conn) {
        Ok(files) => {
            let ended = Ended {
                end: End::Done,
                cause: cause_of_refusals(job, files.tally().refused),
            };
            (ended, Left::Closed(files))
        }
        Err((error, left)) => {
            let ended = Ended {
                end: End::Fault(ProgramFault::Store),
                cause: cause_of_closing(error),
            };
            (ended, left)
        }
    }
}

/// Copies the log of a connection into the database file, and gives the files back. A store that a fault has shut is left
/// as it is: it has nothing to copy.
fn copy_log<D: Disk + Drop>(
    conn: Connection<FileStore<D>>,
) -> Result<Files<D>, (StoreError, Left<D>)>
    ensures copied { IfOk result (λ files. Closes conn (Left.Closed files)) }
    ensures failed { IfErr result (λ e. Closes conn e.1) }
    ensures end { IfErr result (λ e. end_of_left e.1 ≡ End.Fault ProgramFault.Store) }
{
    let mut store = conn.into_store();
    if store.is_broken() {
        return Err((StoreError::Broken, Left::Uncopied(store)));
    }
    // Nothing is left to undo. The contract of this call says what the copying asks of the log.
    store.rollback();
    match store.checkpoint() {
        Ok(()) => Ok(store.close()),
        Err(error) if store.is_broken() => Err((error, Left::CutOff(store))),
        Err(error) => Err((error, Left::Uncopied(store))),
    }
}

/// Whether a job ended since its store could not be opened.
fn is_unopened(job: &End) -> bool
    ensures unopened { result ≡ is_unopened job.now }
{
    matches!(job, End::Fault(ProgramFault::OpeningStore))
}

/// Whether a job ended since its store failed.
fn has_failed(job: &End) -> bool
    ensures failed { result ≡ has_failed job.now }
{
    is_unopened(job) || matches!(job, End::Fault(ProgramFault::Store))
}

/// Whether a database has tables, and not those of a desk.
fn has_other_tables(schema: &Schema) -> bool
    ensures other { IsTrue result ↔ HasOtherTables schema.now }
{
    !has_no_tables(schema) && !has_meta(schema)
}

/// Whether a database has the table in which a desk keeps its version.
fn has_meta(schema: &Schema) -> bool
    ensures meta { result ≡ list_any is_meta schema.now.tables }
{
    schema.tables.as_slice().iter().any(is_meta)
}

/// Whether a table is the one in which a desk keeps its version.
fn is_meta(table: &Table) -> bool
    ensures meta { result ≡ is_meta table.now }
{
    same_name(table.name.as_slice(), b"meta")
}

/// The cause of a job's end where the disk refused so many writes for want of room.
fn cause_of_refusals(job: &End, refused: u64) -> Option<Cause>
    ensures cause { result ≡ cause_of_refusals job.now refused }
{
    if has_failed(job) && refused > 0 {
        Some(Cause::FullDisk)
    } else {
        None
    }
}

/// The cause of an error of the store that kept the log from being copied.
fn cause_of_closing(error: StoreError) -> Option<Cause>
    ensures cause { result ≡ cause_of_closing error }
{
    match error {
        StoreError::Corrupt => Some(Cause::Damaged),
        StoreError::Full => Some(Cause::FullDisk),
        StoreError::Io => Some(Cause::FailedDisk),
        _ => None,
    }
}
