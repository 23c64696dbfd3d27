//! What is counted of connections and requests, and which lines of the log are written, and when.
ghost use Rattle.std.specs.Prelude.{◌≡◌, ◌≢◌, ◌<◌, ◌&&◌, ℕ, All, IfOk, IsTrue, None, Option, Some, false, if◌then◌else◌, is_some, length, nat_lt, option_map, slice_get, vec_len};
ghost use Rattle.std.specs.Option.{option_copied};
ghost use Rattle.std.specs.declared.time.Instant.{Instant};
ghost use Rattle.std.specs.String.{string_bytes};
ghost use Rattle.http_log.specs.Counted.{with_connection};
ghost use Rattle.http_log.specs.Lines.{request_text};
ghost use Rattle.http_live.specs.Ends.{counted_end, counted_ends, is_taken, IsNobody};
ghost use Rattle.http_live.specs.Logging.{IsRecordOf, log_of};
ghost use Rattle.http_live.specs.Requests.{is_again};
ghost use Rattle.http_live.specs.Seen.{ChangesSlot, counted_answer, counted_over, counted_turn, is_busy, micros_between, with_answer, with_page, with_part, with_rest, with_slot};

use crate::clocks::{micros_between, millis_of};
use crate::known::{Known, Line};
use crate::slots::Standing;
use crate::texts::{ask_of, asked_by, is_post, refusal_in, status_in};
use http_conversations::Arrived;
use http_log::{Asked, LogForm, Metrics, Peer, Recent, Why, opened_line, request_line, timed_line};
use http_messages::Message;
use log::info;
use std::alloc::{AllocError, Global};
use std::io;
use std::time::{Instant, SystemTime};

/// Writes how many events an opening recovered, on standard error. Which line that is, is proved; that it is written, no clause
/// sees.
pub fn log_opening(rt: &HostRuntime, alloc: Global, form: LogForm, recovered: u64) {
    if let Ok(text) = opened_line(alloc, recovered) {
        write_line(rt, alloc, Some(form), Some(Line { text }));
    }
}

/// Writes a line, if there is one, and a log is written. What it is, is proved; no clause sees what standard error gets.
fn write_line(rt: &HostRuntime, alloc: Global, form: Option<LogForm>, line: Option<Line>) {
    let (Some(form), Some(line)) = (form, line) else {
        return;
    };
    match record_of(alloc, form, SystemTime::now(rt), line.text) {
        Record::Plain(line) => info!(rt; target: "desk", "{line}"),
        Record::Timed(line) => {
            let _ = eprintln!(rt; "{line}");
        }
    }
}

/// A line of the log.
#[derive(Drop)]
enum Record {
    /// As it is; whoever writes it puts its level before it.
    Plain(String),
    /// With its time and its level before it.
    Timed(String),
}

/// The line in this form. It is without its time where the clock was not read, or memory runs out.
fn record_of(alloc: Global, form: LogForm, now: io::Result<SystemTime>, line: String) -> Record
    ensures is { IsRecordOf form now (string_bytes line) result }
{
    match (form, millis_of(now)) {
        (LogForm::Timed, Some(millis)) => match timed_line(alloc, millis, line.as_str()) {
            Ok(Some(text)) => Record::Timed(text),
            Ok(None) | Err(_) => Record::Plain(line),
        },
        _ => Record::Plain(line),
    }
}

/// The counts, and the log, if one is written. What the log cannot write is left out.
#[derive(Drop)]
pub struct Journal<'a> {
    rt: &'a HostRuntime,
    alloc: Global,
    /// How the lines of the log begin, if it is written.
    form: Option<LogForm>,
    /// What was counted.
    pub metrics: Metrics,
    /// How many connections came.
    came: u64,
    recent: Recent,
    pub(crate) slots: Vec<Known>,
    /// When this turn began, if the clock was read.
    began: Option<Instant>,
}

impl<'a> Journal<'a> {
    /// So many slots, at which nobody is. No log is written.
    pub fn new(rt: &'a HostRuntime, alloc: Global, count: usize) -> Result<Journal<'a>, AllocError>
        ensures slots { IfOk result (λ journal. vec_len journal.slots ≡ count) }
        ensures nobody { IfOk result (λ journal. All IsNobody journal.slots.items) }
        ensures unlogged { IfOk result (λ journal. log_of journal ≡ None) }
        ensures counted { IfOk result (λ journal. journal.metrics.connections ≡ 0) }
    {
        let mut slots = Vec::with_capacity(alloc, count)?;
        let nobody = Peer {
            number: 0,
            is_house: false,
        };
        for _ in 0..count {
            slots.push(Known::new(false, nobody))?;
        }
        Ok(Journal {
            rt,
            alloc,
            form: None,
            metrics: Metrics::new(),
            came: 0,
            recent: Recent::new(alloc),
            slots,
            began: None,
        })
    }

    /// The log is written from now on, and its lines begin so.
    pub fn log(&mut self, form: LogForm)
        ensures logged { self.new ≡ record self.old { form = Some form } }
    {
        self.form = Some(form);
    }

    /// A connection takes a slot by a door. Which was there before is displaced. Out of memory, the line of that is left out.
    pub fn comes(&mut self, at: usize, is_house: bool) -> Result<(), AllocError>
        ensures counted { at < vec_len self.old.slots → self.new.metrics
            ≡ with_connection (counted_end self.old.slots.items at Why.Displaced self.old.metrics) }
    {
        let displaced = self.ends(at, Why::Displaced);
        self.came = self.came.saturating_add(1);
        let peer = Peer {
            number: self.came,
            is_house,
        };
        let Some(known) = self.slots.get_mut(at) else {
            return displaced;
        };
        *known = Known::new(true, peer);
        self.metrics.comes();
        displaced
    }

    /// A turn of a slot begins, at which a message, or part of one, waits to be answered, or does not. Nothing is written.
    pub fn sees_received(&mut self, at: usize, has_part: bool)
        ensures slot { ChangesSlot (with_part has_part) at self.old self.new }
    {
        self.began = Instant::now(self.rt).ok();
        if let Some(known) = self.slots.get_mut(at) {
            known.has_part = has_part;
        }
    }

    /// A turn of a slot ended so, in which this message was taken, if one was, with this left of its page, after which the
    /// connection ends, or does not; a connection that is over has none. Out of memory, lines are left out.
    pub fn sees_page(
        &mut self,
        at: usize,
        standing: Standing,
        seen: Option<&Arrived>,
        page: &[u8],
        closes: bool,
    ) -> Result<(), AllocError>
        ensures counted { (now : Option Instant) × (self.new.metrics ≡ counted_turn standing
            (slice_get self.old.slots.items at) (option_copied seen.entry) page.now
            (micros_between self.old.began now) self.old.metrics) }
    {
        let now = Instant::now(self.rt).ok();
        match standing {
            Standing::Over => self.sees_end(at, seen, now),
            Standing::Answered | Standing::Stopped => {
                let line = self.answers(at, seen, status_in(page), page, now);
                self.keep_page(at, page, closes);
                write_line(self.rt, self.alloc, self.form, line?);
                Ok(())
            }
            _ => {
                self.keep_rest(at, standing, page, now);
                Ok(())
            }
        }
    }

    /// The connection of a slot ended in its turn: its peer ended it, or memory ran out for a page.
    #[tactic(auto, using(crate::proofs::SlotLemmas::counted_over_at_end, crate::proofs::SlotLemmas::copied_is_some))]
    fn sees_end(
        &mut self,
        at: usize,
        seen: Option<&Arrived>,
        now: Option<Instant>,
    ) -> Result<(), AllocError>
        ensures counted { self.new.metrics
            ≡ counted_over (slice_get self.old.slots.items at) (option_copied seen.entry)
            (micros_between self.old.began now) self.old.metrics }
    {
        let why = match self.slots.get(at) {
            None => return Ok(()),
            Some(known) => known.why(seen.is_some()),
        };
        if let Ok(line) = self.answers(at, seen, b"lost", b"", now) {
            write_line(self.rt, self.alloc, self.form, line);
        }
        self.ends(at, why)
    }

    /// This is left of the page of a slot after a turn in which no message was answered.
    fn keep_rest(&mut self, at: usize, standing: Standing, page: &[u8], now: Option<Instant>)
        ensures slot { ChangesSlot (with_rest (is_busy standing) (length page.now) now) at
            self.old self.new }
    {
        if let Some(known) = self.slots.get_mut(at) {
            known.goes_on(matches!(standing, Standing::Busy), page.len(), now);
        }
    }

    /// This is the page of a slot, after which the connection ends, or does not.
    fn keep_page(&mut self, at: usize, page: &[u8], closes: bool)
        ensures slot { ChangesSlot (with_page (length page.now) closes) at self.old self.new }
    {
        if let Some(known) = self.slots.get_mut(at) {
            known.unsent = page.len();
            known.closes = closes;
        }
    }

    /// A message was answered with this status and this page at this time, or lost its page. Returns its line, if there was one,
    /// and a log is written.
    fn answers(
        &mut self,
        at: usize,
        seen: Option<&Arrived>,
        status: &[u8],
        page: &[u8],
        now: Option<Instant>,
    ) -> Result<Option<Line>, AllocError>
        ensures counted { self.new.metrics
            ≡ counted_answer (slice_get self.old.slots.items at) (option_copied seen.entry) status.now
            (micros_between self.old.began now) self.old.metrics }
        ensures slot { self.new.slots.items
            ≡ (if is_some (option_copied seen.entry) then with_slot with_answer at self.old.slots.items
            else self.old.slots.items) }
        ensures written { IfOk result (λ line. is_some line
            ≡ (is_some self.old.form && is_some seen.entry && nat_lt at (vec_len self.old.slots))) }
    {
        let Some(known) = self.slots.get_mut(at) else {
            return Ok(None);
        };
        let Some(arrived) = seen else {
            return Ok(None);
        };
        known.requests = known.requests.saturating_add(1);
        let (peer, millis) = (known.peer, known.millis_since_read(now));
        let is_accepted = status == b"200".as_slice();
        self.metrics.answers(status);
        if is_accepted && is_post(&arrived.message) {
            self.metrics.carries(micros_between(self.began, now));
        }
        let again = is_accepted && is_again(self.form, &mut self.recent, &arrived.message);
        let refused = if is_accepted {
            b"".as_slice()
        } else {
            refusal_in(page)
        };
        self.line_of(peer, &asked_by(arrived, status, refused, again, millis))
    }

    /// The connection of a slot ended, if one was here. Out of memory, its line is left out.
    pub fn ends(&mut self, at: usize, why: Why) -> Result<(), AllocError>
        ensures counted { self.new.metrics
            ≡ counted_end self.old.slots.items at why self.old.metrics }
        ensures slots { vec_len self.new.slots ≡ vec_len self.old.slots }
        ensures gone { is_taken self.new.slots.items at ≡ false }
        ensures others { (other : ℕ) → other ≢ at
            → slice_get self.new.slots.items other ≡ slice_get self.old.slots.items other }
    {
        let Some(known) = self.slots.get_mut(at) else {
            return Ok(());
        };
        if !known.is_here {
            return Ok(());
        }
        self.metrics.ends(why);
        let line = known.end(self.alloc, why)?;
        write_line(self.rt, self.alloc, self.form, line);
        Ok(())
    }

    /// All connections end.
    pub fn ends_all(&mut self)
        ensures counted { self.new.metrics
            ≡ counted_ends (vec_len self.old.slots) self.old.slots.items self.old.metrics }
        ensures gone { All IsNobody self.new.slots.items }
    {
        for at in 0..self.slots.len() {
            let _ = self.ends(at, Why::Stopped);
        }
    }

    /// The line of a message of a peer, if a log is written. The only fault is out of memory.
    fn line_of(&self, peer: Peer, asked: &Asked<'_>) -> Result<Option<Line>, AllocError>
        ensures line { IfOk result (λ line. option_map (λ line. string_bytes line.text) line
            ≡ option_map (λ form. request_text peer asked.now) self.now.form) }
    {
        if self.form.is_none() {
            return Ok(None);
        }
        let text = request_line(self.alloc, peer, asked)?;
        Ok(Some(Line { text }))
    }
}

/// Whether the page of a message that was accepted was a kept one: that of a request under a key, which was accepted before.
/// Where no log is written, nothing is remembered.
fn is_again(form: Option<LogForm>, recent: &mut Recent, message: &Message) -> bool
    ensures again { IsTrue result → IsTrue (is_again form recent.old message.now) }
    ensures unlogged { form ≡ None → recent.new ≡ recent.old }
{
    match ask_of(message) {
        Some((agent, key)) if form.is_some() => recent.put(agent, key).unwrap_or(false),
        _ => false,
    }
}
