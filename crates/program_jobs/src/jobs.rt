//! The one job over a connection, whatever its task.
ghost use Rattle.desk_sql.specs.Calls.{Idle};
ghost use Rattle.desk_jobs.specs.Jobs.{Leaves};
ghost use Rattle.program_jobs.specs.Serving.{CameFrom};
ghost use Rattle.program_jobs.specs.Streams.{streams};
ghost use Rattle.program_jobs.specs.Tasks.{Does};

use crate::environment::Environment;
use crate::loading::load_from;
use crate::outcomes::Outcome;
use crate::serving::serve_over;
use crate::showing::show_over;
use crate::tasks::Task;
use desk_jobs::{index_over, migrate_over, recover_over, run_over};
use http_live::Turns;
use program_ends::Ended;
use sqlite::{Alter, Connection};
use std::alloc::Global;
use std::io::{Read, Write};

/// Does a task over a connection, from the opening of its desk to the end of the job. Returns the connection, which is then
/// closed, and what the job came to.
pub fn do_job<S: Alter + Drop, E: Environment, R: Read, O: Write, N: Write>(
    alloc: Global,
    conn: Connection<S>,
    task: &Task,
    environment: &mut E,
    reader: &mut R,
    out: &mut O,
    notes: &mut N,
) -> (Connection<S>, Outcome)
    requires idle { Idle conn }

    ensures does { Does S.Store conn result.0
        (streams (R.remaining reader.old) (R.remaining reader.new) (O.contents out.old)
        (O.contents out.new) (N.contents notes.old) (N.contents notes.new))
        (E.bytes_of environment.old) (CameFrom ⟦<<E::Guests as Turns>::Reader as Read>⟧
        ⟦<<E::Guests as Turns>::Writer as Write>⟧ ⟦<E::Guests as Turns>⟧ E.has_failed
        (E.listens_for environment.old))
        task.now result.1 }
    ensures leaves { Leaves S.Store conn result.0 }
{
    match task {
        Task::Run => {
            let (conn, end) = run_over(alloc, conn, reader, out, notes);
            (conn, Outcome::Ended(Ended::from(end)))
        }
        Task::Serve { port } => {
            let (conn, ended) = serve_over(alloc, conn, *port, environment, out, notes);
            (conn, Outcome::Ended(ended))
        }
        Task::Recover => {
            let (conn, recovered) = recover_over(alloc, conn);
            (conn, Outcome::of_recovery(recovered))
        }
        Task::Load { source, batch } => {
            let batch = batch.as_str();
            let (conn, end) = load_from(
                alloc,
                conn,
                source,
                batch,
                environment,
                reader,
                out,
                notes,
            );
            (conn, Outcome::Ended(Ended::of_load(end)))
        }
        Task::Report(report) => {
            let (conn, end) = show_over(alloc, conn, report, out);
            (conn, Outcome::of_report(end))
        }
        Task::Migrate => {
            let (conn, migrated) = migrate_over(conn);
            (conn, Outcome::of_migration(migrated))
        }
        Task::Index => {
            let (conn, indexed) = index_over(conn);
            (conn, Outcome::of_index(indexed))
        }
    }
}
