//! The index on the agents of journeys as a job, and the line that reports it.
ghost use Rattle.std.specs.Prelude.{◌≡◌, codes, if◌then◌else◌, IfErr, IfOk};
ghost use Rattle.std.specs.String.{string_bytes};
ghost use Rattle.sqlite.specs.Held.{state};
ghost use Rattle.sqlite.specs.State.{HasCleanDisk};
ghost use Rattle.desk_sql.specs.Calls.{Idle};
ghost use Rattle.tables.specs.Indexing.{HasIndex};
ghost use Rattle.desk_jobs.specs.Executions.{StandsStill};
ghost use Rattle.desk_jobs.specs.Ends.{TellsLine};
ghost use Rattle.desk_jobs.specs.Jobs.{Leaves};
ghost use Rattle.desk_jobs.specs.Migrating.{FailsIndex, indexed_line};

use crate::migrating::end_of_fault;
use crate::telling::tell_line;
use program_ends::End;
use sqlite::{Alter, Connection};
use std::alloc::{AllocError, Global};
use std::io::Write;
use tables::{Indexed, index};

/// Adds the index on the agents of journeys to the tables of a connection, in one commit, unless they have one. Nothing is
/// recovered. Returns the connection, and how many journeys are indexed or why none are.
pub fn index_over<S: Alter>(conn: Connection<S>) -> (Connection<S>, Result<Indexed, End>)
    requires idle { Idle conn }

    ensures indexed { IfOk result.1 (HasIndex S.Store conn result.0) }
    ensures failed { IfErr result.1 (FailsIndex S.Store conn result.0) }
    ensures follows { HasCleanDisk (state S.Store result.0) → StandsStill S.Store conn result.0 }
    ensures leaves { Leaves S.Store conn result.0 }
{
    let mut conn = conn;
    match index(&mut conn) {
        Ok(indexed) => (conn, Ok(indexed)),
        Err(fault) => (conn, Err(end_of_fault(fault))),
    }
}

/// Writes the line with the number of indexed journeys, and flushes it. At a fault a prefix of the line was written.
pub fn tell_indexed<O: Write>(alloc: Global, indexed: Indexed, out: &mut O) -> End
    ensures tells { TellsLine (O.contents out.old) (O.contents out.new) (indexed_line indexed) result }
{
    tell_line(line_of(alloc, indexed), out)
}

/// The line itself.
fn line_of(alloc: Global, indexed: Indexed) -> Result<String, AllocError>
    ensures line { IfOk result (λ line. string_bytes line ≡ indexed_line indexed) }
{
    let (words, journeys) = (words_of(indexed.is_new), indexed.journeys);
    format!(in alloc; "{words} {journeys}\n")
}

/// The words before the number, where the index was made now, or was there.
fn words_of(is_new: bool) -> &'static str
    ensures words { result.now ≡ (if is_new then codes "indexed journeys"
        else codes "already indexed journeys") }
{
    if is_new {
        "indexed journeys"
    } else {
        "already indexed journeys"
    }
}
