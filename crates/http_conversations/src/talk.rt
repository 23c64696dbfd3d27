//! What a conversation holds, and each step of it.
ghost use Rattle.std.specs.Prelude.{◌≡◌, ◌≤◌, [], length, drop, vec_capacity, Some};
ghost use Rattle.saga_core.specs.Calls.{Serves};
ghost use Rattle.http_conversations.specs.Reading.{IsFirstOfBy};
ghost use Rattle.http_conversations.specs.Answering.{AnswersAndShows};
ghost use Rattle.http_conversations.specs.Calls.{GivesIfDue, Receives, Sends};
ghost use Rattle.http_conversations.specs.Exchanges.{since};
ghost use Rattle.http_conversations.specs.Leading.{fault_by, has_broken};
ghost use Rattle.http_conversations.specs.History.{IsReady, after_answer, after_failure, after_loss, kept, new_history};
ghost use Rattle.http_conversations.specs.Reasons.{HasReasons};
ghost use Rattle.http_conversations.specs.Talks.{history_of};

use crate::conversation::Stage;
use crate::modes::{Arrived, Mode, answer_by, first_by, go_on_by, go_on_text};
use commands::Fault;
use desk_http::{Answer, Door};
use http_log::Metrics;
use http_pages::Paths;
use http_server::Log;
use report_kinds::Reporting;
use saga_core::ServeFault;
use std::alloc::{AllocError, Global};
use std::io::{self, Read, Write};

/// A message that was taken.
#[derive(Drop)]
pub struct Taken {
    /// How many bytes of the buffer it had.
    pub(crate) count: usize,
    /// Whether it has a page; else that was lost.
    pub(crate) has_page: bool,
    pub(crate) page: Vec<u8>,
    /// Whether `100 Continue` went before it.
    pub(crate) went_on: bool,
}

/// What was received and is not yet used, and what is left of the page that goes out.
#[derive(Drop)]
pub struct Talk {
    pub(crate) alloc: Global,
    pub(crate) door: Door,
    pub(crate) mode: Mode,
    pub(crate) stage: Stage,
    /// The message that was answered last asked the desk to stop.
    pub(crate) stops: bool,
    /// `100 Continue` was given for the message that comes next.
    pub(crate) went_on: bool,
    pub(crate) waiting: Vec<u8>,
    pub(crate) pending: Vec<u8>,
    /// What waited after each read, and where the new bytes began.
    pub(crate) reads: Log<Vec<u8>, usize>,
    /// What was pending before each write, and how much of it went.
    pub(crate) writes: Log<Vec<u8>, usize>,
    /// What waited before each message was taken, and what was taken.
    pub(crate) exchanges: Log<Vec<u8>, Taken>,
}

impl Talk {
    /// Nothing was received at this door, where messages are read in this mode. It allocates nothing.
    pub(crate) fn new(alloc: Global, door: Door, mode: Mode) -> Talk
        ensures none { history_of result ≡ new_history door mode }
    {
        Talk {
            alloc,
            door,
            mode,
            stage: Stage::Open,
            stops: false,
            went_on: false,
            waiting: Vec::new(alloc),
            pending: Vec::new(alloc),
            reads: Log::new(),
            writes: Log::new(),
            exchanges: Log::new(),
        }
    }

    /// Reads once, by way of a buffer that many conversations may share.
    pub(crate) fn receive<R: Read>(
        &mut self,
        buffer: &mut [u8],
        reader: &mut R,
    ) -> io::Result<usize>
        ensures receives { Receives (R.remaining reader.old) (R.remaining reader.new)
            (length buffer.old) result (history_of self.old) (history_of self.new) }
    {
        self.waiting.reserve(buffer.len())?;
        let count = reader.read(buffer)?;
        let len = self.waiting.len();
        let _ = self.waiting.extend_from_slice(&buffer[..count]);
        self.reads = self.reads.and(&self.waiting, &len);
        self.settle();
        Ok(count)
    }

    /// Keeps what waits while messages are answered, and else gives its memory back.
    fn settle(&mut self)
        ensures settled { history_of self.new ≡ record (history_of self.old)
            { waiting = kept self.old.stage self.old.waiting.items } }
    {
        if !matches!(self.stage, Stage::Open) {
            self.waiting = Vec::new(self.alloc);
        }
    }

    /// Answers the first message that waits, if it is its turn, where the clock shows this second, and shows it.
    pub(crate) fn answer<B: Reporting>(
        &mut self,
        paths: &Paths,
        second: Option<u64>,
        metrics: &Metrics,
        seen: &mut Option<Arrived>,
        book: &mut B,
    ) -> Result<bool, Fault>
        ensures answers { AnswersAndShows B.is_sound B.stands B.leaves book.old book.new
            second result seen.new (history_of self.old) (history_of self.new) }
        ensures reasons { HasReasons B.is_sound B.may_act B.has_reason book.old book.new
            (has_broken result)
            (since (history_of self.old).exchanges (history_of self.new).exchanges) }
        ensures serves { Serves B.is_sound B.leaves B.has_failed book.old book.new
            Fault.Store result }
    {
        *seen = None;
        if !matches!(self.stage, Stage::Open) || !self.pending.is_empty() {
            return Ok(false);
        }
        match first_by(self.alloc, self.mode, &self.waiting) {
            Ok(Some((arrived, count))) => {
                let answered = self.answer_first(paths, second, metrics, &arrived, count, book);
                *seen = Some(arrived);
                answered
            }
            Ok(None) => Ok(false),
            Err(_) => {
                self.fail();
                Err(Fault::Memory)
            }
        }
    }

    /// Answers the message that has so many bytes.
    fn answer_first<B: Reporting>(
        &mut self,
        paths: &Paths,
        second: Option<u64>,
        metrics: &Metrics,
        arrived: &Arrived,
        count: usize,
        book: &mut B,
    ) -> Result<bool, Fault>
        requires first { IsFirstOfBy self.old.mode self.old.waiting.items arrived.now count }
        requires ready { IsReady (history_of self.old) }

        ensures answers { AnswersAndShows B.is_sound B.stands B.leaves book.old book.new
            second result (Some arrived.now) (history_of self.old) (history_of self.new) }
        ensures reasons { HasReasons B.is_sound B.may_act B.has_reason book.old book.new
            (has_broken result)
            (since (history_of self.old).exchanges (history_of self.new).exchanges) }
        ensures serves { Serves B.is_sound B.leaves B.has_failed book.old book.new
            Fault.Store result }
    {
        match answer_by(self.alloc, paths, self.door, second, arrived, metrics, book) {
            Ok(answer) => {
                self.keep(count, answer);
                Ok(true)
            }
            Err(fault) => {
                self.lose(count);
                Err(fault_of(fault))
            }
        }
    }

    /// The first bytes were a message, and this is its page. They were used; after a closing page, all are.
    pub(crate) fn keep(&mut self, count: usize, answer: Answer)
        requires within { count ≤ length self.old.waiting.items }
        requires is_open { self.old.stage ≡ Stage.Open }
        ensures answered { history_of self.new
            ≡ after_answer
            (history_of self.old) count answer.bytes.items answer.closes answer.stops }
    {
        let closes = answer.closes;
        self.stops = answer.stops;
        let taken = Taken {
            count,
            has_page: true,
            page: answer.bytes,
            went_on: self.went_on,
        };
        self.went_on = false;
        self.exchanges = self.exchanges.and(&self.waiting, &taken);
        self.pending = taken.page;
        if closes {
            self.stage = Stage::Closing;
            self.waiting = Vec::new(self.alloc);
        } else {
            forget(self.alloc, &mut self.waiting, count);
        }
    }

    /// The first bytes were a message, whose page was lost.
    pub(crate) fn lose(&mut self, count: usize)
        ensures lost { history_of self.new ≡ after_loss (history_of self.old) count }
    {
        let taken = Taken {
            count,
            has_page: false,
            page: Vec::new(self.alloc),
            went_on: self.went_on,
        };
        self.went_on = false;
        self.exchanges = self.exchanges.and(&self.waiting, &taken);
        self.fail();
    }

    /// Memory ran out before a message was taken.
    pub(crate) fn fail(&mut self)
        ensures failed { history_of self.new ≡ after_failure (history_of self.old) }
    {
        self.stage = Stage::Failed;
        self.stops = false;
        self.waiting = Vec::new(self.alloc);
    }

    /// Gives `100 Continue` where it is due: no page waits, the head of the next message asks for it, and nothing of its
    /// body came. The only fault is out of memory.
    pub(crate) fn go_on(&mut self) -> Result<bool, AllocError>
        ensures gives { GivesIfDue result (history_of self.old) (history_of self.new) }
    {
        if !matches!(self.stage, Stage::Open) || !self.pending.is_empty() {
            return Ok(false);
        }
        if !go_on_by(self.mode, &self.waiting, self.went_on) {
            return Ok(false);
        }
        self.pending = go_on_text(self.alloc)?;
        self.went_on = true;
        Ok(true)
    }

    /// Writes once what is pending.
    pub(crate) fn send<W: Write>(&mut self, writer: &mut W) -> io::Result<usize>
        ensures sends { Sends (W.contents writer.old) (W.contents writer.new) result
            (history_of self.old) (history_of self.new) }
    {
        let count = writer.write(&self.pending)?;
        self.writes = self.writes.and(&self.pending, &count);
        forget(self.alloc, &mut self.pending, count);
        Ok(count)
    }
}

/// Forgets the first bytes, which were used. Where none is left, their memory is freed.
fn forget(alloc: Global, bytes: &mut Vec<u8>, count: usize)
    requires { count ≤ length bytes.old.items }
    ensures rest { bytes.new.items ≡ drop count bytes.old.items }
    ensures given_back { bytes.new.items ≡ [] → vec_capacity bytes.new ≡ 0 }
{
    if count == bytes.len() {
        *bytes = Vec::new(alloc);
    } else {
        bytes.drain(..count);
    }
}

/// The fault of an answer as one of the book. An answer meets no other.
fn fault_of(fault: ServeFault) -> Fault
    ensures fault { result ≡ fault_by fault }
{
    match fault {
        ServeFault::Store => Fault::Store,
        ServeFault::Memory | ServeFault::Read | ServeFault::Write => Fault::Memory,
    }
}
