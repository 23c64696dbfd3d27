//! Loads of allotment files into a recovered desk.
ghost use Rattle.std.specs.Prelude.{◌≡◌, ◌≢◌, None, Some, IfErr, IsErrOf};
ghost use Rattle.commands.specs.Texts.{reply_line};
ghost use Rattle.allotment_csv.specs.Files.{batch_of};
ghost use Rattle.desk_jobs.specs.Openings.{File};
ghost use Rattle.ledger.specs.Answer.{State};
ghost use Rattle.saga_core.specs.StreamScenes.{ended};
ghost use Rattle.program_ends.specs.Ends.{IfDone};
ghost use Rattle.desk_jobs.specs.Ends.{IsFaultOfLoad, IsOfBook, SendsLine, TellsAccepted};
ghost use Rattle.desk_jobs.specs.Following.{FollowsDesk};
ghost use Rattle.desk_jobs.specs.Jobs.{EndsOpened, LeavesDesk, LoadsDesk};
ghost use Rattle.desk_jobs.specs.Loading.{EndsLoad, LoadsFile, TellsLoaded};
ghost use Rattle.desk_jobs.specs.Reasons.{FailsToLoad};

use crate::opening::let_go;
use allotment_csv::{CsvFault, read_batch};
use commands::{Command, Refusal, Reply};
use program_ends::{End, ProgramFault};
use recovery::Ready;
use saga_core::{Book, ServeFault, send};
use sqlite::{Alter, Connection};
use std::alloc::Global;
use std::io::Write;
use tables::TableBook;

/// Loads the bytes of an allotment file under a name into a recovered desk, and writes the line of the reply. Returns the
/// connection, and the end. A refusal is the end, and nothing was written then.
pub fn load_over<S: Alter + Drop, O: Write>(
    alloc: Global,
    desk: Ready<TableBook<S>>,
    name: &str,
    bytes: &[u8],
    out: &mut O,
) -> (Connection<S>, End)
    ensures loads { LoadsDesk S.Store desk result.0 (batch_of name.now bytes.now)
        (O.contents out.old) (O.contents out.new) result.1 }
    ensures told { IfDone result.1 (TellsAccepted (O.contents out.old) (O.contents out.new)) }
    ensures follows { FollowsDesk S.Store desk result.0 (Some (File name.now bytes.now))
        (O.contents out.old) (O.contents out.new) result.1 }

    ensures ends { EndsOpened IsFaultOfLoad result.1 }
    ensures leaves { LeavesDesk S.Store desk result.0 }
{
    let mut desk = desk;
    let end = load_into(alloc, name, bytes, &mut desk, out);
    (let_go(desk), end)
}

/// Does the same into any book.
fn load_into<B: Book, O: Write>(
    alloc: Global,
    name: &str,
    bytes: &[u8],
    book: &mut B,
    out: &mut O,
) -> End
    ensures loaded { B.is_sound book.new → (s : State) → B.stands book.old s →
        EndsLoad (O.contents out.old) (O.contents out.new) (B.stands book.new)
        (B.leaves book.new) s (batch_of name.now bytes.now) result }
    ensures told { IfDone result (TellsAccepted (O.contents out.old) (O.contents out.new)) }

    ensures reason { B.is_sound book.new → (first : B) → result ≡ End.Fault ProgramFault.Store →
        FailsToLoad (B.may_act first book.old) (B.has_reason first book.new)
        (batch_of name.now bytes.now) }
    ensures ends { EndsOpened IsFaultOfLoad result }

    ensures sound { B.is_sound book.new → B.is_sound book.old }
{
    match load(alloc, name, bytes, book) {
        Ok(reply) => tell_loaded(alloc, reply, out),
        Err(fault) => End::Fault(fault.into()),
    }
}

/// Loads the bytes of an allotment file under a name. Returns the reply of the book, or the refusal of the name or the
/// bytes.
fn load<B: Book>(alloc: Global, name: &str, bytes: &[u8], book: &mut B) -> Result<Reply, ServeFault>
    ensures loads { B.is_sound book.new → (s : State) → B.stands book.old s →
        LoadsFile (B.stands book.new) (B.leaves book.new) s (batch_of name.now bytes.now) result }
    ensures reason { B.is_sound book.new → (first : B) → IsErrOf result ServeFault.Store →
        FailsToLoad (B.may_act first book.old) (B.has_reason first book.new)
        (batch_of name.now bytes.now) }
    ensures fault { IfErr result IsOfBook }
    ensures sound { B.is_sound book.new → B.is_sound book.old }
{
    let batch = match read_batch(alloc, name, bytes) {
        Ok(batch) => batch,
        Err(CsvFault::Memory) => return Err(ServeFault::Memory),
        Err(CsvFault::BadBody) => return Ok(Reply::Refused(Refusal::BadBody)),
        Err(CsvFault::BadCsv { row, cause }) => {
            return Ok(Reply::Refused(Refusal::BadCsv { row, cause }));
        }
    };
    match book.act(&Command::Load(batch), None) {
        Ok(reply) => Ok(reply),
        Err(fault) => Err(fault.into()),
    }
}

/// The end after a reply: its refusal, or its line was written.
fn tell_loaded<O: Write>(alloc: Global, reply: Reply, out: &mut O) -> End
    ensures told { TellsLoaded (O.contents out.old) (O.contents out.new) reply result }
    ensures ends { EndsOpened IsFaultOfLoad result }
    ensures no_store { result ≢ End.Fault ProgramFault.Store }
{
    match reply {
        Reply::Refused(refusal) => End::Refused(refusal),
        reply => match send_reply(alloc, &reply, out) {
            Ok(()) => End::Done,
            Err(fault) => End::Fault(fault.into()),
        },
    }
}

/// Writes the line of a reply, and flushes it.
fn send_reply<O: Write>(alloc: Global, reply: &Reply, out: &mut O) -> Result<(), ServeFault>
    ensures sends { SendsLine (O.contents out.old) (O.contents out.new)
        (ended (reply_line reply.now)) result }
{
    let mut line = reply.line(alloc)?;
    line.push('\n')?;
    Ok(send(out, line.as_bytes())?)
}
