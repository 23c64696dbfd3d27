//! A task over the desk in a file, from its opening to its closing.
ghost use Rattle.std.specs.Prelude.{IfErr, IfOk};
ghost use Rattle.sqlite.specs.Files.{file_state};
ghost use Rattle.sqlite.specs.State.{HasCleanDisk};
ghost use Rattle.sqlite_wal.specs.Files.{image_at};
ghost use Rattle.program_ends.specs.Images.{LeavesAsFound, OpensOver};
ghost use Rattle.desk_sql.specs.Calls.{Idle};
ghost use Rattle.program_ends.specs.Ends.{EndsBadly};
ghost use Rattle.program_jobs.specs.Serving.{CameFrom};
ghost use Rattle.program_jobs.specs.Streams.{streams};
ghost use Rattle.program_jobs.specs.Doing.{Did};
ghost use Rattle.program_jobs.specs.InvokedTasks.{RanOver};

use crate::{Environment, Task, do_job};
use desk_jobs::reopenings;
use http_live::Turns;
use program_ends::{
    ConnectionFrom, End, Ended, Left, NewLog, close_from, connect_from, connect_there_from,
};
use sql_model::openings;
use sqlite::{FileFrom, FileStore, Start};
use sqlite_trees::store::Store;
use std::alloc::Global;
use std::io::{Read, Write};

/// Does a task over the database in a file that held what `S` says, and prints what it counted once the file is closed. A file
/// that is absent is made for a task that recovers the desk, and is a fault for any other one. Returns the end, and what is left
/// of the files.
pub fn do_over_file<S: Start, E: Environment, R: Read, O: Write, N: Write>(
    rt: &HostRuntime,
    alloc: Global,
    file: &str,
    start: S,
    task: &Task,
    environment: &mut E,
    reader: &mut R,
    out: &mut O,
    notes: &mut N,
) -> (Ended, Left<FileFrom<S>>)
    ensures did { Did ⟦<FileStore<FileFrom<S>> as Store>⟧ (E.bytes_of environment.old)
        (CameFrom ⟦<<E::Guests as Turns>::Reader as Read>⟧
        ⟦<<E::Guests as Turns>::Writer as Write>⟧ ⟦<E::Guests as Turns>⟧ E.has_failed
        (E.listens_for environment.old)) task.now
        (streams (R.remaining reader.old) (R.remaining reader.new) (O.contents out.old)
        (O.contents out.new) (N.contents notes.old) (N.contents notes.new)) result.0 }
    ensures ran { RanOver (image_at S.Start) result.1 (E.bytes_of environment.old)
        (CameFrom ⟦<<E::Guests as Turns>::Reader as Read>⟧
        ⟦<<E::Guests as Turns>::Writer as Write>⟧ ⟦<E::Guests as Turns>⟧ E.has_failed
        (E.listens_for environment.old))
        (streams (R.remaining reader.old) (R.remaining reader.new) (O.contents out.old)
        (O.contents out.new) (N.contents notes.old) (N.contents notes.new)) task.now }
{
    reopenings();
    let (conn, log) = match open_for(rt, file, start, task) {
        Ok(opened) => opened,
        Err(failed) => return failed,
    };
    openings(&conn);
    let (conn, outcome) = do_job(alloc, conn, task, environment, reader, out, notes);
    let done = End::Done;
    let (closed, left) = close_from(rt, conn, log, outcome.end_or(&done));
    (outcome.report(closed, alloc, out), left)
}

/// A connection to a file for a task, and the log that this made beside it; or the end, and what is left of the files.
fn open_for<S: Start>(
    rt: &HostRuntime,
    file: &str,
    start: S,
    task: &Task,
) -> Result<(ConnectionFrom<S>, NewLog), (Ended, Left<FileFrom<S>>)>
    ensures idle { IfOk result (λ opened. Idle opened.0) }
    ensures opened { IfOk result (λ opened. HasCleanDisk (file_state opened.0)
        → OpensOver (image_at S.Start) opened.0) }
    ensures end { IfErr result (λ failed. EndsBadly failed.0.end) }
    ensures left { IfErr result (λ failed. LeavesAsFound (image_at S.Start) failed.1) }
{
    match task {
        Task::Run | Task::Serve { .. } | Task::Recover | Task::Load { .. } => {
            connect_from(rt, file, start)
        }
        Task::Report(_) | Task::Migrate | Task::Index => connect_there_from(rt, file, start),
    }
}
