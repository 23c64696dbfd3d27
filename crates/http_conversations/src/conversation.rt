//! A conversation, with no socket of its own.
ghost use Rattle.http_conversations.specs.Answering.{AnswersAndShows, LeavesTaken};
ghost use Rattle.http_conversations.specs.Calls.{GivesIfDue, Receives, Sends};
ghost use Rattle.http_conversations.specs.History.{IsQuiet, IsServed, WantsRead, new_history, stops_by};
ghost use Rattle.http_conversations.specs.Leading.{GoesOnByOne, has_broken};
ghost use Rattle.http_conversations.specs.Talks.{history_of};
ghost use Rattle.http_conversations.specs.declared.conversation.TheConstants.{MOST_READ, MOST_WAITING};
ghost use Rattle.saga_core.specs.Calls.{Serves};
ghost use Rattle.std.specs.Prelude.{◌≡◌, ◌≢◌, ◌+◌, ◌<◌, ◌≤◌, ◌↔◌, [], length, IsTrue};

use crate::modes::{Arrived, Mode};
use crate::talk::Talk;
use commands::{Fault, MOST_BYTES};
use desk_http::Door;
use http_log::Metrics;
use http_messages::LONGEST_HEAD;
use http_pages::Paths;
use report_kinds::Reporting;
use saga_core::ServeFault;
use std::alloc::{AllocError, Global};
use std::io::{self, Read, Write};

/// How many bytes of pages may wait while more is read: 256 KiB.
pub const MOST_PENDING: usize = 262_144;

/// How many bytes one read may give.
pub const MOST_READ: usize = 8_192;

/// As many bytes as a message may have. Where so many wait, nothing is read.
pub const MOST_WAITING: usize = LONGEST_HEAD + MOST_BYTES;

/// Whether a conversation answers.
#[derive(Clone, Copy, Debug, PartialEq, Eq)]
pub enum Stage {
    /// Messages are answered.
    Open,
    /// A closing page was given. Nothing behind it is answered, and what comes is forgotten.
    Closing,
    /// Out of memory, or the store failed. Nothing more is answered, and the last page may be lost.
    Failed,
}

/// Messages come in, and each is answered once the page before it went out whole.
///
/// It holds at most a message, one more read, and a page. The memory of what was used and of what went out is freed.
#[derive(Drop)]
pub struct Conversation {
    pub(crate) talk: Talk,
    ghost served: { ∥ IsServed (history_of talk) ∥₁ },
    ghost bounded: { length talk.waiting.items < MOST_WAITING + MOST_READ },
}

impl Conversation {
    ghost use Rattle.http_conversations.specs.Conversations.{history};

    /// Nothing was received at this door, where messages are read in this mode. It allocates nothing.
    pub fn new(alloc: Global, door: Door, mode: Mode) -> Conversation
        ensures none { history result ≡ new_history door mode }
    {
        Conversation {
            talk: Talk::new(alloc, door, mode),
        }
    }

    /// Reads once, by way of a buffer that many conversations may share, and returns how many bytes came. What comes behind a
    /// closing page is counted and forgotten.
    pub fn receive<R: Read>(&mut self, buffer: &mut [u8], reader: &mut R) -> io::Result<usize>
        requires wants { WantsRead (history self.old) }
        requires small { length buffer.old ≤ MOST_READ }

        ensures receives { Receives (R.remaining reader.old) (R.remaining reader.new)
            (length buffer.old) result (history self.old) (history self.new) }
    {
        self.talk.receive(buffer, reader)
    }

    /// Answers the first message that waits, unless a page waits or the conversation is over, and reports whether it did. In
    /// lenient mode the page has the date of this second since 1970, if the clock was read. What was counted is shown where the
    /// message asks for that. The message is shown, as it was read, also where its page is lost.
    ///
    /// Out of memory, the message was carried out or not, and its page is lost. Then, and where the store failed, the
    /// conversation has failed.
    pub fn answer<B: Reporting>(
        &mut self,
        paths: &Paths,
        second: Option<u64>,
        metrics: &Metrics,
        seen: &mut Option<Arrived>,
        book: &mut B,
    ) -> Result<bool, Fault>
        ensures answers { AnswersAndShows B.is_sound B.stands B.leaves book.old book.new
            second result seen.new (history self.old) (history self.new) }
        ensures turn { GoesOnByOne B.is_sound B.stands B.leaves B.may_act B.has_reason
            book.old book.new (has_broken result) (stops_by result (history self.new))
            (history self.old).exchanges (history self.new).exchanges }
        ensures leaves { LeavesTaken result (history self.old) (history self.new) }
        ensures serves { Serves B.is_sound B.leaves B.has_failed book.old book.new
            Fault.Store result }
    {
        self.talk.answer(paths, second, metrics, seen, book)
    }

    /// Gives `100 Continue` where it is due, and reports whether it was: no page waits, the head of the next message asks for
    /// it, nothing of its body came, and it was not given for this message before. In strict mode it never is. The only fault
    /// is out of memory.
    pub fn go_on(&mut self) -> Result<bool, AllocError>
        ensures gives { GivesIfDue result (history self.old) (history self.new) }
        ensures quiet { IsQuiet (history self.old) (history self.new) }
    {
        self.talk.go_on()
    }

    /// Writes once what is pending, and returns how many of its bytes were written.
    pub fn send<W: Write>(&mut self, writer: &mut W) -> io::Result<usize>
        ensures sends { Sends (W.contents writer.old) (W.contents writer.new) result
            (history self.old) (history self.new) }
    {
        self.talk.send(writer)
    }

    /// Whether a page is not yet whole with the peer.
    pub fn wants_write(&self) -> bool
        ensures pending { IsTrue result ↔ ((history self.now).pending ≢ []) }
    {
        !self.talk.pending.is_empty()
    }

    /// Whether it may read: not while more than 256 KiB of pages wait, or as many bytes as a message may have.
    pub fn wants_read(&self) -> bool
        ensures wants { IsTrue result ↔ WantsRead (history self.now) }
    {
        !matches!(self.talk.stage, Stage::Failed)
            && self.talk.pending.len() <= MOST_PENDING
            && self.talk.waiting.len() < MOST_WAITING
    }

    /// Whether part of a message waits.
    pub fn has_part(&self) -> bool
        ensures waiting { IsTrue result ↔ ((history self.now).waiting ≢ []) }
    {
        !self.talk.waiting.is_empty()
    }

    /// What is left of the page that goes out.
    pub fn pending(&self) -> &[u8]
        ensures pending { result.now ≡ (history self.now).pending }
    {
        self.talk.pending.as_slice()
    }

    /// Whether it answers, and why not.
    pub fn stage(&self) -> Stage
        ensures stage { result ≡ (history self.now).stage }
    {
        self.talk.stage
    }

    /// Whether the message that was answered last is one of the house that the desk stop.
    pub fn stops(&self) -> bool
        ensures stops { result ≡ (history self.now).stops }
    {
        self.talk.stops
    }

    /// True of every conversation, after any calls: what was received begins with the messages of its exchanges, and what
    /// was written, and then what is pending, is their pages, up to and with the first that closes, each after its
    /// `100 Continue`, where one was given. All came in at its door and were read in its mode; where it says that the desk is
    /// to stop, the last one is a request of the house for that.
    pub fn always_served(&self)
        ensures served { ∥ IsServed (history self.now) ∥₁ }
    {}

    /// True of every conversation: no more bytes wait than those of a message and one read.
    pub fn always_bounded(&self)
        ensures bounded { length (history self.now).waiting < MOST_WAITING + MOST_READ }
    {}
}
