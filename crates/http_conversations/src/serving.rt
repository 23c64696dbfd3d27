//! A conversation at the port with one reader and one writer, in strict mode, until it is over.
ghost use Rattle.std.specs.Prelude.{◌≡◌, ◌↔◌, [], true, IfOk, IfErr, IfSome, OnOk};
ghost use Rattle.saga_core.specs.Calls.{Serves};
ghost use Rattle.saga_core.specs.StreamFaults.{IsOfReading};
ghost use Rattle.saga_core.specs.StreamScenes.{scene};
ghost use Rattle.desk_http.specs.Worlds.{GoesOnWithMessages, GoesOnAmongMessages};
ghost use Rattle.http_conversations.specs.Calls.{Receives};
ghost use Rattle.http_conversations.specs.Conversations.{history};
ghost use Rattle.http_conversations.specs.Serving.{AwaitsNext, FindsNext, HandsOut, to_come};
ghost use Rattle.http_conversations.specs.ServeReasons.{ServesOn, ServesReader, has_store_failed};

use crate::buffers::ReadBuffer;
use crate::conversation::{Conversation, MOST_READ, Stage};
use crate::modes::Mode;
use desk_http::Door;
use http_log::Metrics;
use http_pages::Paths;
use recovery::Ready;
use report_kinds::Reporting;
use saga_core::ServeFault;
use std::alloc::Global;
use std::io::{ErrorKind, Read, Write};

/// The result of serving a connection.
#[derive(Clone, Copy, Debug, PartialEq, Eq)]
pub struct Served {
    /// How many pages were written.
    pub pages: u64,
}

/// Answers the messages of a connection at the port, each by its page, up to and including the first closing one. They are
/// read in strict mode.
///
/// Each page is written and flushed before the next message is read, and nothing is read while a whole message is
/// buffered. A message that the end of the input cuts off gets no page. Store implies an I/O error, as the book tells it.
pub fn serve<R: Read, W: Write, B: Reporting>(
    alloc: Global,
    reader: &mut R,
    writer: &mut W,
    book: &mut Ready<B>,
) -> Result<Served, ServeFault>
    ensures served { ServesReader B.is_sound B.stands B.leaves B.may_act B.has_reason
        (W.contents writer.old) (W.contents writer.new)
        (R.remaining reader.old) (R.remaining reader.new) book.old book.new result }
    ensures world { B.is_sound book.new → IfSome (R.remaining reader.old) (λ input.
        IfOk result (λ served. GoesOnWithMessages (B.stands book.old)
        (scene (W.contents writer.old) (W.contents writer.new)
        (B.stands book.new) (B.leaves book.new)) input served.pages)) }
    ensures world_at_fault { B.is_sound book.new → IfSome (R.remaining reader.old) (λ input.
        IfErr result (GoesOnAmongMessages (B.stands book.old)
        (scene (W.contents writer.old) (W.contents writer.new)
        (B.stands book.new) (B.leaves book.new)) input)) }
    ensures serves { Serves B.is_sound B.leaves B.has_failed book.old book.new
        ServeFault.Store result }
{
    serve_messages(alloc, reader, writer, book)
}

/// Does the same over any book.
fn serve_messages<R: Read, W: Write, B: Reporting>(
    alloc: Global,
    reader: &mut R,
    writer: &mut W,
    book: &mut B,
) -> Result<Served, ServeFault>
    ensures served { ServesReader B.is_sound B.stands B.leaves B.may_act B.has_reason
        (W.contents writer.old) (W.contents writer.new)
        (R.remaining reader.old) (R.remaining reader.new) book.old book.new result }
    ensures serves { Serves B.is_sound B.leaves B.has_failed book.old book.new
        ServeFault.Store result }
{
    let paths = Paths::new(alloc)?;
    let mut buffer = ReadBuffer::new(alloc)?;
    let mut conversation = Conversation::new(alloc, Door::Port, Mode::Strict);
    for pages in 0..u64::MAX {
        let found = answer_next(&paths, &mut conversation, &mut buffer, reader, book)?;
        if !found {
            return Ok(Served { pages });
        }
        send_page(&mut conversation, writer)?;
        if !is_open(&conversation) {
            return Ok(Served { pages: pages + 1 });
        }
    }
    Err(ServeFault::Read)
}

/// Whether more messages are answered.
fn is_open(conversation: &Conversation) -> bool
    ensures is_open { (result ≡ true) ↔ ((history conversation.now).stage ≡ Stage.Open) }
{
    matches!(conversation.stage(), Stage::Open)
}

/// Answers the next message, for which it reads as often as is needed. Returns `false` if the input has ended.
fn answer_next<R: Read, B: Reporting>(
    paths: &Paths,
    conversation: &mut Conversation,
    buffer: &mut ReadBuffer,
    reader: &mut R,
    book: &mut B,
) -> Result<bool, ServeFault>
    requires awaits { AwaitsNext (history conversation.old) }

    ensures next { IfSome (to_come (history conversation.old) (R.remaining reader.old)) (λ stream.
        FindsNext (B.is_sound book.new) (B.stands book.old) (B.stands book.new) (B.leaves book.new)
        stream (R.remaining reader.new) (history conversation.new) result) }
    ensures serves { Serves B.is_sound B.leaves B.has_failed book.old book.new
        ServeFault.Store result }
    ensures reason { ServesOn B.is_sound B.may_act B.has_reason
        (R.remaining reader.old) (R.remaining reader.new) book.old book.new
        (has_store_failed result) (history conversation.old) (history conversation.new) }
{
    let (metrics, mut seen) = (Metrics::new(), None);
    for _ in 0..u64::MAX {
        match conversation.answer(paths, None, &metrics, &mut seen, book) {
            Ok(true) => return Ok(true),
            Ok(false) => {
                let count = read_more(conversation, buffer, reader)?;
                if count == 0 {
                    return Ok(false);
                }
            }
            Err(fault) => return Err(ServeFault::from(fault)),
        }
    }
    Err(ServeFault::Read)
}

/// Reads more, and retries an interrupted read. Returns 0 if the input has ended.
fn read_more<R: Read>(
    conversation: &mut Conversation,
    buffer: &mut ReadBuffer,
    reader: &mut R,
) -> Result<usize, ServeFault>
    ensures receives { Receives (R.remaining reader.old) (R.remaining reader.new)
        MOST_READ result (history conversation.old) (history conversation.new) }
    ensures fault { IfErr result IsOfReading }
{
    if !conversation.wants_read() {
        return Err(ServeFault::Read);
    }
    for _ in 0..u64::MAX {
        match conversation.receive(buffer.bytes.as_mut_slice(), reader) {
            Ok(count) => return Ok(count),
            Err(error) => match error.kind() {
                ErrorKind::Interrupted => {}
                ErrorKind::OutOfMemory => return Err(ServeFault::Memory),
                _ => return Err(ServeFault::Read),
            },
        }
    }
    Err(ServeFault::Read)
}

/// Writes the page that waits, and flushes the writer.
fn send_page<W: Write>(conversation: &mut Conversation, writer: &mut W) -> Result<(), ServeFault>
    ensures all { OnOk result ((history conversation.new).pending ≡ []) }
    ensures some { HandsOut (W.contents writer.old) (W.contents writer.new)
        (history conversation.old) (history conversation.new) }
    ensures fault { IfErr result (λ fault. fault ≡ ServeFault.Write) }
{
    for _ in 0..u64::MAX {
        if !conversation.wants_write() {
            return match writer.flush() {
                Ok(()) => Ok(()),
                Err(_) => Err(ServeFault::Write),
            };
        }
        send_some(conversation, writer)?;
    }
    Err(ServeFault::Write)
}

/// Writes by one call a part of the page that waits, and retries an interrupted write.
fn send_some<W: Write>(conversation: &mut Conversation, writer: &mut W) -> Result<(), ServeFault>
    ensures some { HandsOut (W.contents writer.old) (W.contents writer.new)
        (history conversation.old) (history conversation.new) }
    ensures fault { IfErr result (λ fault. fault ≡ ServeFault.Write) }
{
    for _ in 0..u64::MAX {
        match conversation.send(writer) {
            Ok(0) => return Err(ServeFault::Write),
            Ok(_) => return Ok(()),
            Err(error) if error.kind() == ErrorKind::Interrupted => {}
            Err(_) => return Err(ServeFault::Write),
        }
    }
    Err(ServeFault::Write)
}
