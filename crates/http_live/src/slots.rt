//! Places for one connection after another, and what each waits for.
ghost use Rattle.http_conversations.specs.Conversations.{history};
ghost use Rattle.http_conversations.specs.declared.conversation.Stage.{Stage};
ghost use Rattle.http_live.specs.Calls.{GoesOnAt, IsCleared, IsEmpty, IsLeft, IsTakenBy};
ghost use Rattle.http_live.specs.Resting.{HasUnanswered};
ghost use Rattle.http_live.specs.Slots.{pending_at};
ghost use Rattle.saga_core.specs.Calls.{Serves};
ghost use Rattle.std.specs.Prelude.{◌≡◌, ◌↔◌, All, length, IfOk, IsSomeAnd, IsTrue};

use crate::connection::Connection;
use commands::Fault;
use desk_http::Door;
use http_conversations::{Arrived, Conversation, Mode, ReadBuffer, Stage};
use http_log::Metrics;
use http_pages::Paths;
use http_server::Log;
use report_kinds::Reporting;
use std::alloc::{AllocError, Global};
use std::io::{Read, Write};

/// How many connections there are at once, at most.
pub const SLOTS: usize = 256;

/// A place for one connection after another.
#[derive(Drop)]
pub struct Slot<R: Read + Drop, W: Write + Drop> {
    pub(crate) connection: Option<Connection<R, W>>,
    /// The connections that ended.
    pub(crate) left: Log<Connection<R, W>, ()>,
}

impl<R: Read + Drop, W: Write + Drop> Slot<R, W> {
    /// No connection was here.
    pub fn new() -> Slot<R, W>
        ensures empty { IsEmpty result }
    {
        Slot {
            connection: None,
            left: Log::new(),
        }
    }

    /// A connection takes the slot, by this door and in this mode. Which was there before ends.
    pub(crate) fn take(&mut self, alloc: Global, door: Door, mode: Mode, reader: R, writer: W)
        ensures taken { IsTakenBy reader writer door mode self.old self.new }
    {
        self.clear();
        self.connection = Some(Connection::new(alloc, door, mode, reader, writer));
    }

    /// The connection ends, if there is one.
    pub(crate) fn clear(&mut self)
        ensures cleared { IsCleared self.old self.new }
    {
        if let Some(connection) = self.connection.take() {
            self.left = self.left.and(&connection, &());
        }
    }

    /// Whether the connection may answer something in the next turn: a message, or part of one, waits, and no page does.
    pub(crate) fn has_unanswered(&self) -> bool
        ensures unanswered { IsTrue result
            ↔ IsSomeAnd self.now.connection (λ it. HasUnanswered (history it.conversation)) }
    {
        match &self.connection {
            Some(connection) => may_answer(&connection.conversation),
            None => false,
        }
    }

    /// What is left of the connection's page.
    pub(crate) fn unsent(&self) -> &[u8]
        ensures unsent { result.now ≡ pending_at self.now }
    {
        match &self.connection {
            Some(connection) => connection.conversation.pending(),
            None => b"",
        }
    }

    /// Whether the connection ends after the page that it was given last.
    pub(crate) fn closes(&self) -> bool
        ensures closes { IsTrue result ↔ IsSomeAnd self.now.connection
            (λ it. (history it.conversation).stage ≡ Stage.Closing) }
    {
        match &self.connection {
            Some(connection) => connection.conversation.stage() == Stage::Closing,
            None => false,
        }
    }

    /// Writes what waits for the connection, if there is one. One that is over ends.
    pub(crate) fn flush(&mut self) -> Standing
        ensures left { IsLeft self.old self.new }
    {
        let Some(connection) = &mut self.connection else {
            return Standing::Over;
        };
        let standing = connection.flush();
        if standing == Standing::Over {
            self.clear();
        }
        standing
    }

    /// A turn of the connection, if there is one, where the clock shows this second. The message that was answered is shown.
    /// One that is over ends.
    pub(crate) fn serve<B: Reporting>(
        &mut self,
        paths: &Paths,
        second: Option<u64>,
        metrics: &Metrics,
        buffer: &mut ReadBuffer,
        seen: &mut Option<Arrived>,
        book: &mut B,
    ) -> Result<Standing, Fault>
        ensures goes_on { GoesOnAt B.is_sound B.stands B.leaves B.may_act B.has_reason
            book.old book.new result self.old self.new }
        ensures serves { Serves B.is_sound B.leaves B.has_failed book.old book.new
            Fault.Store result }
    {
        let Some(connection) = &mut self.connection else {
            return Ok(Standing::Over);
        };
        let standing = connection.serve(paths, second, metrics, buffer, seen, book)?;
        if standing == Standing::Over {
            self.clear();
        }
        Ok(standing)
    }
}

/// Whether a message, or part of one, waits to be answered, and no page waits.
#[tactic(auto, using(crate::proofs::RestLemmas::unanswered))]
fn may_answer(conversation: &Conversation) -> bool
    ensures unanswered { IsTrue result ↔ HasUnanswered (history conversation.now) }
{
    if conversation.wants_write() {
        return false;
    }
    conversation.has_part()
}

/// As many slots as there may be connections, without any.
pub fn empty_slots<R: Read + Drop, W: Write + Drop>(
    alloc: Global,
) -> Result<Vec<Slot<R, W>>, AllocError>
    ensures slots { IfOk result (λ slots. length slots.items ≡ SLOTS) }
    ensures empty { IfOk result (λ slots. All IsEmpty slots.items) }
{
    let mut slots = Vec::with_capacity(alloc, SLOTS)?;
    for _ in 0..SLOTS {
        slots.push(Slot::new())?;
    }
    Ok(slots)
}

/// What a connection waits for after its turn.
#[derive(Clone, Copy, Debug, PartialEq, Eq)]
pub enum Standing {
    /// For a message: its peer owes nothing, and nothing is owed to it.
    Between,
    /// For the rest of a message.
    Amid,
    /// For its peer to take a page.
    Unsent,
    /// For its peer to end: the closing page was written. The end that is written to may be shut down.
    Lingering,
    /// For nothing: a message was answered, and its page is to be written at once.
    Answered,
    /// For its peer to take the page that says that the desk stops, for which the house asked.
    Stopped,
    /// For nothing: there may be more to do at once.
    Busy,
    /// It is over.
    Over,
}
