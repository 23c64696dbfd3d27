//! Recovery as a job, and the line that reports it.
ghost use Rattle.std.specs.Prelude.{◌≡◌, ℕ, List, Option, Some, IfErr, IfOk};
ghost use Rattle.std.specs.String.{string_bytes};
ghost use Rattle.sqlite.specs.Held.{state};
ghost use Rattle.sqlite.specs.State.{HasCleanDisk};
ghost use Rattle.recovery.specs.Recovers.{Recovers};
ghost use Rattle.desk_jobs.specs.Connections.{Represents};
ghost use Rattle.desk_sql.specs.Calls.{Idle};
ghost use Rattle.desk_jobs.specs.Ends.{TellsLine, recovered_line};
ghost use Rattle.desk_jobs.specs.Following.{Follows, end_of_recovery};
ghost use Rattle.desk_jobs.specs.Jobs.{Leaves, NotReady};
ghost use Rattle.desk_jobs.specs.Openings.{Nothing};

use crate::opening::{let_go, ready_over};
use crate::reopenings;
use crate::telling::tell_line;
use program_ends::End;
use sqlite::{Alter, Connection};
use std::alloc::{AllocError, Global};
use std::io::Write;
use std::marker::Model;

/// How many events a recovery made. Only `recover_over` makes one. In a contract it is that number.
#[derive(Clone, Copy, Debug)]
pub struct Recovered {
    made: u64,
}

impl Model for Recovered {
    ghost use Rattle.std.specs.Prelude.{ℕ};

    ghost Value = { ℕ };

    ghost view = { λ r. r.made };

    ghost inverse = { λ made. record { made = made } };
}

impl Recovered {
    /// Writes the line with the number of events, and flushes it. At a fault a prefix of the line was written.
    pub fn tell<O: Write>(self, alloc: Global, out: &mut O) -> End
        ensures tells { TellsLine (O.contents out.old) (O.contents out.new) (recovered_line self) result }
    {
        tell_line(line_of(alloc, self.made), out)
    }
}

/// Recovers the desk of a connection. Returns the connection, and how many events recovery made or why it failed.
pub fn recover_over<S: Alter + Drop>(
    alloc: Global,
    conn: Connection<S>,
) -> (Connection<S>, Result<Recovered, End>)
    requires idle { Idle conn }

    ensures recovered { HasCleanDisk (state S.Store result.0) → IfOk result.1 (λ made.
        Recovers (Represents S.Store conn) (Represents S.Store result.0) made) }
    ensures failed { IfErr result.1 (NotReady S.Store conn result.0) }
    ensures follows { (held : Option (List ℕ)) →
        Follows S.Store conn result.0 (Some Nothing) held held (end_of_recovery result.1) }
    ensures leaves { Leaves S.Store conn result.0 }
{
    reopenings();
    match ready_over(alloc, conn) {
        Ok((desk, made)) => (let_go(desk), Ok(Recovered { made })),
        Err((conn, end)) => (conn, Err(end)),
    }
}

/// The line with the number of recovery's events.
fn line_of(alloc: Global, made: u64) -> Result<String, AllocError>
    ensures line { IfOk result (λ line. string_bytes line ≡ recovered_line made) }
{
    format!(in alloc; "recovered {made}\n")
}
