//! Reports of the desk that serves at a Unix socket, which is asked for them.
ghost use Rattle.std.specs.Prelude.{◌≡◌, ◌≢◌, true};
ghost use Rattle.std.specs.Io.KnownBytes.{Keeps};
ghost use Rattle.http_pages.specs.Requests.{is_target};
ghost use Rattle.program_ends.specs.Ends.{EndsJob, IfDone, IfRefused};
ghost use Rattle.cli.specs.Asking.{cause_of_asking, end_of_asking, RefusesAsked, TellsAsked};

use command_line::Socket;
use commands::Refusal;
use http_pages::{Answer, Unanswered, ask, is_target};
use program_ends::{Cause, End, Ended, ProgramFault, end_of_connecting};
use report_words::target_of;
use saga_core::send;
use std::alloc::Global;
use std::io::{Read, Write};
use std::os::unix::net::UnixStream;

/// Prints a report of the desk that serves at a Unix socket. Words that cannot be sent are refused before the desk is asked.
pub(crate) fn asked_report<O: Write>(
    rt: &HostRuntime,
    alloc: Global,
    socket: &Socket,
    out: &mut O,
) -> Ended
    ensures job { EndsJob result.end }

    ensures untold { result.end ≢ End.Done → result.end ≢ End.Fault ProgramFault.Write →
        Keeps (O.contents out.old) (O.contents out.new) }
{
    let target = match target_of(alloc, socket.words.as_slice()) {
        Ok(Some(target)) => target,
        Ok(None) => return Ended::from(End::Refused(Refusal::BadBody)),
        Err(_) => return Ended::from(End::Fault(ProgramFault::Memory)),
    };
    if !is_target(target.as_str()) {
        return Ended::from(End::Refused(Refusal::BadBody));
    }
    match UnixStream::connect(rt, socket.path.as_str()) {
        Ok(stream) => tell_asked(alloc, target.as_str(), &mut &stream, &mut &stream, out),
        Err(error) => end_of_connecting(error.kind()),
    }
}

/// Asks a desk over a reader and a writer, and prints the report that it answers. Nothing is printed of an answer that is not
/// whole.
#[tactic(auto, using(crate::proofs::AskingLemmas::told_asked, crate::proofs::AskingLemmas::refused_asked))]
fn tell_asked<R: Read, W: Write, O: Write>(
    alloc: Global,
    target: &str,
    reader: &mut R,
    writer: &mut W,
    out: &mut O,
) -> Ended
    requires target { is_target target.now ≡ true }

    ensures told { IfDone result.end (TellsAsked (R.remaining reader.old)
        (R.remaining reader.new) (O.contents out.old) (O.contents out.new)) }
    ensures refused { IfRefused result.end
        (RefusesAsked (R.remaining reader.old) (R.remaining reader.new)) }
    ensures job { EndsJob result.end }

    ensures untold { result.end ≢ End.Done → result.end ≢ End.Fault ProgramFault.Write →
        Keeps (O.contents out.old) (O.contents out.new) }
{
    match ask(alloc, target, reader, writer) {
        Ok(Answer::Report(text)) => match send(out, text.as_slice()) {
            Ok(()) => Ended::from(End::Done),
            Err(_) => Ended::from(End::Fault(ProgramFault::Write)),
        },
        Ok(Answer::NoJourney) => Ended::from(End::Refused(Refusal::NoJourney)),
        Err(fault) => end_of_asking(fault),
    }
}

/// The end where a desk gave no answer.
fn end_of_asking(fault: Unanswered) -> Ended
    ensures end { result.end ≡ end_of_asking fault }
    ensures cause { result.cause ≡ cause_of_asking fault }
{
    match fault {
        Unanswered::Memory => Ended::from(End::Fault(ProgramFault::Memory)),
        Unanswered::Lost | Unanswered::Unread => Ended {
            end: End::Fault(ProgramFault::Net),
            cause: Some(Cause::NoAnswer),
        },
    }
}
