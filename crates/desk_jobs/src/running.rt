//! The answers to the lines of a reader, over a recovered desk.
ghost use Rattle.std.specs.Io.KnownBytes.{IsAtEnd};
ghost use Rattle.std.specs.Prelude.{◌≡◌, option_map};
ghost use Rattle.program_ends.specs.Ends.{IfDone};
ghost use Rattle.desk_sql.specs.Calls.{Idle};
ghost use Rattle.desk_jobs.specs.Ends.{end_of_run};
ghost use Rattle.desk_jobs.specs.Following.{Follows};
ghost use Rattle.desk_jobs.specs.Openings.{Lines};
ghost use Rattle.desk_jobs.specs.Jobs.{EndsRun, Leaves, NotesRun, RunsOver};

use crate::notes::note_recovered;
use crate::opening::{let_go, ready_over};
use crate::reopenings;
use program_ends::End;
use recovery::{one_recovery, run_lines};
use saga_core::ServeFault;
use sqlite::{Alter, Connection};
use std::alloc::Global;
use std::io::{Read, Write};

/// Recovers the desk of a connection, and answers the lines of a reader. Returns the connection, and the end. If recovery
/// made events, a note says so first. It is refused only for tables of a version other than the newest.
pub fn run_over<S: Alter + Drop, R: Read, O: Write, N: Write>(
    alloc: Global,
    conn: Connection<S>,
    reader: &mut R,
    out: &mut O,
    notes: &mut N,
) -> (Connection<S>, End)
    requires idle { Idle conn }

    ensures answers { RunsOver S.Store conn result.0 (R.remaining reader.old)
        (O.contents out.old) (O.contents out.new) result.1 }
    ensures read { IfDone result.1 (IsAtEnd (R.remaining reader.new)) }
    ensures notes { NotesRun S.Store conn result.0 (N.contents notes.old) (N.contents notes.new) }
    ensures follows { Follows S.Store conn result.0 (option_map Lines (R.remaining reader.old))
        (O.contents out.old) (O.contents out.new) result.1 }

    ensures ends { EndsRun S.Store conn result.0 result.1 }
    ensures leaves { Leaves S.Store conn result.0 }
{
    one_recovery();
    reopenings();
    match ready_over(alloc, conn) {
        Ok((desk, made)) => {
            note_recovered(alloc, made, notes);
            let mut desk = desk;
            let answered = run_lines(alloc, reader, out, &mut desk);
            let conn = let_go(desk);
            (conn, end_of_run(answered))
        }
        Err((conn, end)) => (conn, end),
    }
}

/// The end of a run over a recovered desk.
fn end_of_run(answered: Result<u64, ServeFault>) -> End
    ensures end { result ≡ end_of_run answered }
{
    match answered {
        Ok(_) => End::Done,
        Err(fault) => End::Fault(fault.into()),
    }
}
