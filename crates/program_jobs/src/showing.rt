//! A report of the desk of a connection, written in blocks.
ghost use Rattle.sqlite.specs.Held.{state};
ghost use Rattle.sqlite.specs.State.{HasCleanDisk};
ghost use Rattle.desk_sql.specs.Calls.{Idle};
ghost use Rattle.desk_sql.specs.declared.versions.Version.{Version};
ghost use Rattle.ledger.specs.Answer.{State};
ghost use Rattle.desk_jobs.specs.Connections.{RepresentsIn};
ghost use Rattle.program_jobs.specs.Jobs.{EndsReport, FailsReport, KeepsDesk, RefusesToShow};
ghost use Rattle.program_jobs.specs.Reporting.{Reports};

use crate::blocks::{BLOCK, Blocks};
use crate::reporting::report_over;
use program_ends::{End, ProgramFault};
use saga_core::Report;
use sqlite::{Alter, Connection};
use std::alloc::Global;
use std::io::Write;

/// Writes a report of the desk of a connection, in blocks, since a report is many short lines. Returns the connection, and
/// the end.
pub(crate) fn show_over<S: Alter + Drop, O: Write>(
    alloc: Global,
    conn: Connection<S>,
    report: &Report,
    out: &mut O,
) -> (Connection<S>, End)
    requires idle { Idle conn }

    ensures told { HasCleanDisk (state S.Store result.0) → (v : Version) (s : State) →
        RepresentsIn S.Store conn v s →
        Reports (O.contents out.old) (O.contents out.new) report.now result.1 s }
    ensures ends { EndsReport (RefusesToShow S.Store conn result.0 report.now) result.1 }

    ensures fails { FailsReport S.Store conn result.0 result.1 }
    ensures keeps { KeepsDesk S.Store conn result.0 }
{
    let Ok(mut room) = Vec::with_capacity(alloc, 2 * BLOCK) else {
        return (conn, End::Fault(ProgramFault::Memory));
    };
    let mut blocks = Blocks {
        writer: out,
        bytes: &mut room,
        at: 0,
        passed: 0,
    };
    let (conn, end) = report_over(alloc, conn, report, &mut blocks);
    match blocks.pass_on() {
        Ok(()) => (conn, end),
        Err(_) => (conn, end.then(End::Fault(ProgramFault::Write))),
    }
}
