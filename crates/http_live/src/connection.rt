//! A conversation over a reader and a writer of its own.
ghost use Rattle.std.specs.Prelude.{◌≡◌, ◌≤◌, [], length, OnErr, Ok, false, true};
ghost use Rattle.saga_core.specs.Calls.{Serves};
ghost use Rattle.http_conversations.specs.Conversations.{history};
ghost use Rattle.http_conversations.specs.History.{HasNoTurn, IsServed, TakesFirst, WantsRead, stops_by};
ghost use Rattle.http_conversations.specs.Leading.{GoesOnByOne, has_broken};
ghost use Rattle.http_live.specs.Endings.{is_stop};
ghost use Rattle.http_live.specs.Gains.{is_answer};
ghost use Rattle.http_live.specs.Faithful.{Faithful};

use crate::slots::Standing;
use commands::Fault;
use desk_http::Door;
use http_conversations::{Arrived, Conversation, MOST_READ, Mode, ReadBuffer, Stage};
use http_log::Metrics;
use http_pages::Paths;
use http_server::Log;
use report_kinds::Reporting;
use std::alloc::Global;
use std::io::{self, ErrorKind, Read, Write};

/// A conversation with its two ends.
#[derive(Drop)]
pub struct Connection<R: Read + Drop, W: Write + Drop> {
    pub(crate) reader: R,
    pub(crate) writer: W,
    pub(crate) conversation: Conversation,
    /// Its two ends as they were when it came.
    pub(crate) came: Log<R, W>,
    ghost faithful: { ∥ Faithful R.remaining W.contents came.items reader writer
        (history conversation).received (history conversation).sent ∥₁ },
}

impl<R: Read + Drop, W: Write + Drop> Connection<R, W> {
    ghost use Rattle.http_live.specs.Arrivals.{arrival, arrival_of};
    ghost use Rattle.http_live.specs.Calls.{EndsTurn, GoesOn, IsUnread, ReadsOnce, StepsOn};
    ghost use Rattle.http_live.specs.Slots.{exchanges_with};
    ghost use Rattle.http_live.specs.Resting.{IsUnsent, IsUsedUp, Rests};

    /// Nothing was read or written. Its messages come in at this door, and are read in this mode.
    pub(crate) fn new(
        alloc: Global,
        door: Door,
        mode: Mode,
        reader: R,
        writer: W,
    ) -> Connection<R, W>
        ensures none { exchanges_with result ≡ [] }
        ensures arrival { arrival_of result ≡ arrival reader writer door mode }
    {
        let came = Log::new().and(&reader, &writer);
        Connection {
            reader,
            writer,
            conversation: Conversation::new(alloc, door, mode),
            came,
        }
    }

    /// True of every connection, while it is here and when it left: where its ends report their bytes, what was received
    /// was read from the one, and what the conversation yielded was written to the other.
    pub fn always_faithful(&self)
        ensures faithful { ∥ Faithful R.remaining W.contents self.now.came.items self.now.reader
            self.now.writer
            (history self.now.conversation).received (history self.now.conversation).sent ∥₁ }
    {}

    /// True of every connection: what was written, and then what waits, is the pages of the first messages of what was
    /// received, in order, up to and with the first that closes.
    pub fn always_served(&self)
        ensures served { ∥ IsServed (history self.now.conversation) ∥₁ }
    {
        self.conversation.always_served();
    }

    /// A turn: what waits is written, or else one message is answered and shown, or else more is read. The clock shows this
    /// second, if it was read.
    pub(crate) fn serve<B: Reporting>(
        &mut self,
        paths: &Paths,
        second: Option<u64>,
        metrics: &Metrics,
        buffer: &mut ReadBuffer,
        seen: &mut Option<Arrived>,
        book: &mut B,
    ) -> Result<Standing, Fault>
        ensures goes_on { GoesOn B.is_sound B.stands B.leaves B.may_act B.has_reason
            book.old book.new result (EndsTurn result self.old self.new)
            (history self.new.conversation).pending
            (exchanges_with self.old) (exchanges_with self.new) }
        ensures serves { Serves B.is_sound B.leaves B.has_failed book.old book.new
            Fault.Store result }
    {
        if self.conversation.wants_write() {
            return Ok(self.push(buffer));
        }
        match self.answer(paths, second, metrics, seen, book) {
            Ok(true) => Ok(self.answered()),
            Ok(false) => Ok(self.go_on(buffer)),
            Err(Fault::Memory) => Ok(Standing::Over),
            Err(Fault::Store) => Err(Fault::Store),
        }
    }

    /// Gives `100 Continue` where it is due, or else reads, where no page waits and no message is whole.
    fn go_on(&mut self, buffer: &mut ReadBuffer) -> Standing
        ensures steps { StepsOn IsUsedUp result self.old self.new }
    {
        if self.gives_go_on() {
            Standing::Busy
        } else {
            self.pull(buffer)
        }
    }

    /// Gives `100 Continue` where it is due, and reports whether it was.
    fn gives_go_on(&mut self) -> bool
        ensures left { IsUnread self.old self.new }
        ensures none { result ≡ false →
            history self.new.conversation ≡ history self.old.conversation }
    {
        match self.conversation.go_on() {
            Ok(given) => given,
            Err(_) => false,
        }
    }

    /// What it waits for once a message was answered.
    fn answered(&self) -> Standing
        ensures rests { Rests result (history self.now.conversation) }
        ensures stopping { is_stop result ≡ (history self.now.conversation).stops }
        ensures answered { is_answer result ≡ true }
    {
        if self.conversation.stops() {
            Standing::Stopped
        } else {
            Standing::Answered
        }
    }

    /// Answers the first message that waits, if it is its turn.
    fn answer<B: Reporting>(
        &mut self,
        paths: &Paths,
        second: Option<u64>,
        metrics: &Metrics,
        seen: &mut Option<Arrived>,
        book: &mut B,
    ) -> Result<bool, Fault>
        ensures turn { GoesOnByOne B.is_sound B.stands B.leaves B.may_act B.has_reason
            book.old book.new (has_broken result) (stops_by result (history self.new.conversation))
            (exchanges_with self.old) (exchanges_with self.new) }
        ensures none { result ≡ Ok false → HasNoTurn (history self.old.conversation)
            × (history self.new.conversation ≡ history self.old.conversation) }
        ensures takes { TakesFirst result (history self.old.conversation)
            (history self.new.conversation) }
        ensures arrival { arrival_of self.new ≡ arrival_of self.old }
        ensures serves { Serves B.is_sound B.leaves B.has_failed book.old book.new
            Fault.Store result }
    {
        self.conversation.answer(paths, second, metrics, seen, book)
    }

    /// Reads once.
    fn read(&mut self, buffer: &mut [u8]) -> io::Result<usize>
        requires wants { WantsRead (history self.old.conversation) }
        requires small { length buffer.old ≤ MOST_READ }

        ensures reads { ReadsOnce result self.old self.new }
    {
        self.conversation.receive(buffer, &mut self.reader)
    }

    /// Writes once.
    fn write(&mut self) -> io::Result<usize>
        ensures left { IsUnread self.old self.new }
        ensures err { OnErr result (history self.new.conversation ≡ history self.old.conversation) }
    {
        self.conversation.send(&mut self.writer)
    }

    /// Writes what waits. Where the peer does not take it, more is read, as long as no more pages wait than may.
    fn push(&mut self, buffer: &mut ReadBuffer) -> Standing
        ensures steps { StepsOn IsUnsent result self.old self.new }
    {
        match self.write() {
            Ok(0) => Standing::Over,
            Ok(_) => Standing::Busy,
            Err(error) => match error.kind() {
                ErrorKind::WouldBlock => self.read_on(buffer),
                ErrorKind::Interrupted => Standing::Busy,
                _ => Standing::Over,
            },
        }
    }

    /// Writes what waits, and does nothing else. It is over where nothing waits.
    pub(crate) fn flush(&mut self) -> Standing
        ensures left { IsUnread self.old self.new }
    {
        if !self.conversation.wants_write() {
            return Standing::Over;
        }
        match self.write() {
            Ok(0) => Standing::Over,
            Ok(_) => Standing::Busy,
            Err(error) => match error.kind() {
                ErrorKind::WouldBlock => Standing::Unsent,
                ErrorKind::Interrupted => Standing::Busy,
                _ => Standing::Over,
            },
        }
    }

    /// Reads while a page waits, as long as no more of them wait than may.
    fn read_on(&mut self, buffer: &mut ReadBuffer) -> Standing
        ensures steps { StepsOn IsUnsent result self.old self.new }
    {
        if !self.conversation.wants_read() {
            return Standing::Unsent;
        }
        match self.read(buffer.bytes.as_mut_slice()) {
            Ok(0) => Standing::Unsent,
            Ok(_) => Standing::Busy,
            Err(error) => match error.kind() {
                ErrorKind::WouldBlock => Standing::Unsent,
                ErrorKind::Interrupted => Standing::Busy,
                _ => Standing::Over,
            },
        }
    }

    /// Reads, where no page waits and no message is whole.
    fn pull(&mut self, buffer: &mut ReadBuffer) -> Standing
        ensures steps { StepsOn IsUsedUp result self.old self.new }
    {
        if !self.conversation.wants_read() {
            return Standing::Over;
        }
        match self.read(buffer.bytes.as_mut_slice()) {
            Ok(0) => Standing::Over,
            Ok(_) => Standing::Busy,
            Err(error) => match error.kind() {
                ErrorKind::WouldBlock => self.rest(),
                ErrorKind::Interrupted => Standing::Busy,
                _ => Standing::Over,
            },
        }
    }

    /// What it waits for, where no page waits and no message is whole.
    fn rest(&self) -> Standing
        ensures rests { IsUsedUp (history self.now.conversation) →
            Rests result (history self.now.conversation) }
        ensures unanswered { is_answer result ≡ false }
    {
        match self.conversation.stage() {
            Stage::Open if self.conversation.has_part() => Standing::Amid,
            Stage::Open => Standing::Between,
            Stage::Closing => Standing::Lingering,
            Stage::Failed => Standing::Over,
        }
    }
}
