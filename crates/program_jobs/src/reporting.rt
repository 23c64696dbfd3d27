//! The job of a report, of a desk that is not recovered.
ghost use Rattle.std.specs.Prelude.{◌≡◌, ◌≢◌, ℕ, false, List, Option, Ok, Err};
ghost use Rattle.sqlite.specs.Held.{state};
ghost use Rattle.sqlite.specs.State.{HasCleanDisk};
ghost use Rattle.desk_sql.specs.Calls.{Idle};
ghost use Rattle.desk_sql.specs.declared.versions.Version.{Version};
ghost use Rattle.ledger.specs.Answer.{State};
ghost use Rattle.desk_jobs.specs.Connections.{RepresentsIn};
ghost use Rattle.saga_core.specs.declared.report.Report.{Report};
ghost use Rattle.report_writers.specs.Writing.{WritesIfThere};
ghost use Rattle.program_jobs.specs.Jobs.{EndsReport, FailsReport, KeepsDesk, RefusesAbsent, RefusesToShow};
ghost use Rattle.program_jobs.specs.Reporting.{end_of_report, Reports, ShowsOpened};

use commands::Refusal;
use desk_jobs::end_of_opening;
use program_ends::{End, ProgramFault};
use report_writers::write_report;
use reports::ReportFault;
use saga_core::Report;
use sqlite::{Alter, Connection};
use std::alloc::Global;
use std::io::Write;
use tables::{Opened, open_from};

/// Writes a report of the desk of a connection, and flushes it. A journey that is absent is refused. Returns the
/// connection, and the end.
pub fn report_over<S: Alter + Drop, O: Write>(
    alloc: Global,
    conn: Connection<S>,
    report: &Report,
    out: &mut O,
) -> (Connection<S>, End)
    requires idle { Idle conn }

    ensures told { HasCleanDisk (state S.Store result.0) → (v : Version) (s : State) →
        RepresentsIn S.Store conn v s →
        Reports (O.contents out.old) (O.contents out.new) report.now result.1 s }
    ensures ends { EndsReport (RefusesToShow S.Store conn result.0 report.now) result.1 }

    ensures fails { FailsReport S.Store conn result.0 result.1 }
    ensures keeps { KeepsDesk S.Store conn result.0 }
{
    let mut opened = match open_from(conn) {
        Ok(opened) => opened,
        Err((conn, fault)) => return (conn, end_of_opening(fault)),
    };
    let end = tell_report(alloc, report, &mut opened, out);
    (opened.into_store(), end)
}

/// Writes a report of what was opened, and flushes it. A journey that is absent is refused. What was opened was only
/// read, and may be read again.
pub fn tell_report<S: Alter, O: Write>(
    alloc: Global,
    report: &Report,
    opened: &mut Opened<S>,
    out: &mut O,
) -> End
    ensures shows { ShowsOpened S.Store opened.old opened.new
        (result ≡ End.Fault ProgramFault.Store) (λ s.
        Reports (O.contents out.old) (O.contents out.new) report.now result s) }
    ensures ends { EndsReport (RefusesAbsent report.now) result }
    ensures opened { result ≢ End.Fault ProgramFault.OpeningStore }
{
    let version = opened.version();
    let done = write_report(alloc, report, version, opened.connection(), out);
    end_of_report(flush_written(done, out))
}

/// Flushes the writer after a report that was written.
#[tactic(auto, using(crate::proofs::ReportLemmas::flushed, crate::proofs::ReportLemmas::unflushed))]
fn flush_written<O: Write>(
    done: Result<bool, ReportFault>,
    out: &mut O,
) -> Result<bool, ReportFault>
    ensures written { (held : Option (List ℕ)) → (text : Option (List ℕ)) →
        WritesIfThere held (O.contents out.old) text done →
        WritesIfThere held (O.contents out.new) text result }
    ensures absent { result ≡ Ok false → done ≡ Ok false }
    ensures store { result ≡ Err ReportFault.Store → done ≡ Err ReportFault.Store }
{
    match done {
        Ok(true) => match out.flush() {
            Ok(()) => Ok(true),
            Err(_) => Err(ReportFault::Write),
        },
        done => done,
    }
}

/// The end of a report that was written so, if there was one.
fn end_of_report(done: Result<bool, ReportFault>) -> End
    ensures end { result ≡ end_of_report done }
{
    match done {
        Ok(true) => End::Done,
        Ok(false) => End::Refused(Refusal::NoJourney),
        Err(fault) => End::Fault(fault.into()),
    }
}
