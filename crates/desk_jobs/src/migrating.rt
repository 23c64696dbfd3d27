//! The migration of the tables of a connection as a job, and the line that reports it.
ghost use Rattle.std.specs.Prelude.{◌≡◌, IfErr, IfOk};
ghost use Rattle.std.specs.String.{string_bytes};
ghost use Rattle.sqlite.specs.Held.{state};
ghost use Rattle.sqlite.specs.State.{HasCleanDisk};
ghost use Rattle.program_ends.specs.Ends.{EndsBadly};
ghost use Rattle.desk_sql.specs.Calls.{Idle};
ghost use Rattle.tables.specs.Outcomes.{Migrates};
ghost use Rattle.desk_jobs.specs.Executions.{StandsStill};
ghost use Rattle.desk_jobs.specs.Ends.{TellsLine};
ghost use Rattle.desk_jobs.specs.Jobs.{Leaves};
ghost use Rattle.desk_jobs.specs.Migrating.{end_of_migration, FailsMigration, migrated_line};

use crate::telling::tell_line;
use commands::Refusal;
use program_ends::{End, ProgramFault};
use sqlite::{Alter, Connection};
use std::alloc::{AllocError, Global};
use std::io::Write;
use tables::{MigrateFault, Migrated, migrate};

/// Migrates the tables of a connection from version 1 to version 2, in one commit. Nothing is recovered. Returns the
/// connection, and how many events were migrated or why none were.
pub fn migrate_over<S: Alter>(conn: Connection<S>) -> (Connection<S>, Result<Migrated, End>)
    requires idle { Idle conn }

    ensures migrated { IfOk result.1 (λ m. Migrates S.Store conn result.0 m.events) }
    ensures failed { IfErr result.1 (FailsMigration S.Store conn result.0) }
    ensures follows { HasCleanDisk (state S.Store result.0) → StandsStill S.Store conn result.0 }
    ensures leaves { Leaves S.Store conn result.0 }
{
    let mut conn = conn;
    match migrate(&mut conn) {
        Ok(migrated) => (conn, Ok(migrated)),
        Err(fault) => (conn, Err(end_of_fault(fault))),
    }
}

/// The end if tables could not be migrated, or got no index.
pub(crate) fn end_of_fault(fault: MigrateFault) -> End
    ensures end { result ≡ end_of_migration fault }
    ensures bad { EndsBadly result }
{
    match fault {
        MigrateFault::AlreadyNew => End::Refused(Refusal::AlreadyNew),
        MigrateFault::UnknownSchema(version) => End::Refused(Refusal::UnknownSchema { version }),
        MigrateFault::Store => End::Fault(ProgramFault::OpeningStore),
        MigrateFault::Memory => End::Fault(ProgramFault::OpeningMemory),
    }
}

/// Writes the line with the number of migrated events, and flushes it. At a fault a prefix of the line was written.
pub fn tell_migrated<O: Write>(alloc: Global, migrated: Migrated, out: &mut O) -> End
    ensures tells { TellsLine (O.contents out.old) (O.contents out.new)
        (migrated_line migrated.events) result }
{
    tell_line(line_of(alloc, migrated.events), out)
}

/// The line itself.
fn line_of(alloc: Global, events: u64) -> Result<String, AllocError>
    ensures line { IfOk result (λ line. string_bytes line ≡ migrated_line events) }
{
    format!(in alloc; "migrated 1 to 2 events {events}\n")
}
