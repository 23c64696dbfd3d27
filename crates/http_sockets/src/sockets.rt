//! Turns from the system: what epoll reports, and who comes and goes.
ghost use Rattle.std.specs.Prelude.{◌≡◌, ◌≢◌, ◌/◌, ◌≤◌, ◌+◌, ◌↔◌, None, Some, IfOk, IsSomeAnd, IsTrue, MatchOption, MatchResult, OnErr, OnOk, OnSome};
ghost use Rattle.std.specs.Time.{system_time_nanos};
ghost use Rattle.http_sockets.specs.Counts.{IsFewer, one_fewer};
ghost use Rattle.http_sockets.specs.Doors.{IsAt, IsPair, IsReadBy};
ghost use Rattle.http_sockets.specs.Ends.{IsOver};

use crate::limits::Limits;
use crate::listeners::{Accepted, FIRST, Listeners};
use crate::places::{Places, ReadEnd, Socket, WriteEnd};
use desk_http::{Door, Site};
use http_conversations::{Arrived, Mode};
use http_live::{Journal, SLOTS, Standing, Turn, Turns};
use http_log::{LogForm, Metrics, Why};
use http_pages::HtmlPage;
use mio::{Events, Poll, Token};
use std::alloc::{AllocError, Global};
use std::collections::VecDeque;
use std::io::{self, ErrorKind};
use std::rc::Rc;
use std::time::{Duration, Instant, SystemTime, UNIX_EPOCH};

/// How long a tick is, in milliseconds. A wait lasts no longer.
const TICK: u64 = 100;

/// By how many ticks the time goes on after a wait, at most: a desk that was stopped meanwhile does not blame its peers.
const MOST_TICKS: u64 = 10;

/// How many events one wait gives, at most.
const EVENTS: usize = 256;

/// For how many ticks pages that wait may still be taken once the desk stops: five seconds.
const STOPPING: u64 = 50;

/// How many peers take a slot in one round, at most.
const WELCOMES: usize = 32;

/// The sockets, and the slots that may go on.
#[derive(Drop)]
pub struct Sockets<'a> {
    rt: &'a HostRuntime,
    alloc: Global,
    patience: u64,
    /// How many peers may still come, if that is limited.
    to_come: Option<u16>,
    /// How many came in this round.
    welcomed: usize,
    /// When the last wait was over, and how many ticks there were until then.
    clock: Instant,
    tick: u64,
    /// The tick from which no turn comes, if the desk stops.
    last: Option<u64>,
    poll: Poll,
    events: Events,
    listeners: Listeners<'a>,
    /// The page that is served at the port, if one is.
    page: Option<Site>,
    /// In which mode requests are read.
    mode: Mode,
    places: Places,
    /// The slots that are ended.
    leaving: VecDeque<usize>,
    /// Whether the system has failed to report what happens.
    has_failed: bool,
    /// What is counted, and the log, if one is written.
    journal: Journal<'a>,
}

impl<'a> Sockets<'a> {
    ghost use Rattle.http_sockets.specs.Ends.{HasWaited, HaveLeft, IsAtEnd, is_failed};
    ghost use Rattle.http_sockets.specs.Doors.{ComesOver};
    ghost use Rattle.http_sockets.specs.Options.{AddsPage, options_of, options_within, page_at_port, still_to_come, mode_to_come};
    ghost use Rattle.http_sockets.specs.Slots.{AddWaiting};
    ghost use Rattle.http_sockets.specs.Turns.{EndsLate, IsAdmitted, IsTurnedAway, IsWelcome, TurnTaken, slots_in};
    ghost use Rattle.http_sockets.specs.Waiting.{all_heard, waiting_at};

    /// Listens on a port of 127.0.0.1, and on a path if there is one, which its owner alone may open. Who comes is served
    /// within these limits.
    pub fn bind(
        rt: &'a HostRuntime,
        alloc: Global,
        port: u16,
        path: Option<&'a str>,
        limits: Limits,
    ) -> io::Result<Sockets<'a>>
        ensures options { IfOk result (λ sockets. options_of sockets ≡ options_within limits) }
    {
        let poll = Poll::new(rt)?;
        let events = Events::with_capacity(alloc, EVENTS)?;
        let places = Places::new(alloc, SLOTS)?;
        let leaving = VecDeque::with_capacity(alloc, SLOTS)?;
        let journal = Journal::new(rt, alloc, SLOTS)?;
        let clock = Instant::now(rt)?;
        let listeners = Listeners::bind(rt, alloc, poll.registry(), port, path)?;
        Ok(Sockets {
            rt,
            alloc,
            patience: limits.patience,
            to_come: limits.connections,
            welcomed: 0,
            clock,
            tick: 0,
            last: None,
            poll,
            events,
            listeners,
            page: None,
            mode: Mode::Strict,
            places,
            leaving,
            has_failed: false,
            journal,
        })
    }

    /// Writes a line on standard error for each request and for each connection that ended, from now on, in this form. Nothing
    /// else changes.
    pub fn log(&mut self, form: LogForm)
        ensures options { options_of self.new ≡ record (options_of self.old) { log = Some form } }
    {
        self.journal.log(form);
    }

    /// The port that is listened on: where 0 was asked for, the system chose it, and it alone knows it.
    pub fn port(&self) -> io::Result<u16> {
        self.listeners.port()
    }

    /// Who comes to the port from now on is served this page too.
    pub fn show(&mut self, page: HtmlPage) -> io::Result<()>
        ensures options { OnOk result (AddsPage page (options_of self.old) (options_of self.new)) }

        ensures err { OnErr result (options_of self.new ≡ options_of self.old) }
    {
        let port = self.port()?;
        self.page = Some(Site { port, page });
        Ok(())
    }

    /// Who comes from now on may speak HTTP as libraries, proxies and pools do.
    pub fn widen(&mut self)
        ensures options { options_of self.new ≡ record (options_of self.old) { mode = Mode.Lenient } }
    {
        self.mode = Mode::Lenient;
    }

    /// Whether no turn came since the system failed to report what happens.
    pub fn has_failed(&self) -> bool
        ensures failed { result ≡ is_failed self.now }
    {
        self.has_failed
    }

    /// Ends all connections, listens no more, and removes the file of the Unix socket. Nothing of the sockets is left of which a
    /// clause could speak.
    pub fn end(self) {
        let mut sockets = self;
        sockets.journal.ends_all();
        let rt = sockets.rt;
        sockets.listeners.end(rt);
    }

    /// Whether one more peer may take a slot in this round.
    fn welcomes(&self) -> bool
        ensures welcome { IsTrue result → IsWelcome self.now }
    {
        self.welcomed < WELCOMES && self.to_come != Some(0) && self.listeners.may_wait()
    }

    /// The next peer takes a slot, if one waits.
    #[tactic(auto, using(crate::proofs::TurnLemmas::turned_away_same, crate::proofs::TurnLemmas::turned_away_both, crate::proofs::TurnLemmas::admitted_after, crate::proofs::TurnLemmas::fewer_of))]
    fn welcome(&mut self) -> Option<Turn<ReadEnd, WriteEnd>>
        ensures admitted { MatchOption result (IsTurnedAway self.old self.new)
            (IsAdmitted self.old self.new) }
        ensures limit { OnSome result (IsFewer (still_to_come self.old) (still_to_come self.new)) }
    {
        for _ in 0..WELCOMES {
            if !self.welcomes() {
                return None;
            }
            if let Some(turn) = self.greet() {
                return Some(turn);
            }
        }
        None
    }

    /// Who waits takes a slot. A peer that finds no memory is let go.
    #[tactic(auto, using(crate::proofs::TurnLemmas::one_no_more, crate::proofs::TurnLemmas::no_more_same))]
    fn greet(&mut self) -> Option<Turn<ReadEnd, WriteEnd>>
        ensures admitted { MatchOption result (IsTurnedAway self.old self.new)
            (IsAdmitted self.old self.new) }
        ensures limit { OnSome result
            (still_to_come self.new ≡ one_fewer (still_to_come self.old)) }
    {
        self.welcomed = self.welcomed.saturating_add(1);
        match self.listeners.accept() {
            Accepted::Came(socket) => match self.admitted(socket) {
                Ok(turn) => Some(turn),
                Err(_) => None,
            },
            Accepted::Lost => {
                self.to_come = one_fewer(self.to_come);
                None
            }
            Accepted::Nobody => None,
        }
    }

    /// A peer takes the slot that is chosen, by the door of its socket, at the port by that with the page that is served now, if
    /// one is. It is read in the mode that is set now. One peer fewer may come after it.
    #[tactic(auto, using(crate::proofs::TurnLemmas::one_no_more))]
    fn admitted(&mut self, socket: Socket) -> io::Result<Turn<ReadEnd, WriteEnd>>
        ensures same { IfOk result
            (ComesOver socket (page_at_port self.old) (mode_to_come self.old)) }
        ensures admitted { IfOk result (IsAdmitted self.old self.new) }
        ensures limit { still_to_come self.new ≡ one_fewer (still_to_come self.old) }
        ensures err { OnErr result (IsTurnedAway self.old self.new) }
    {
        self.to_come = one_fewer(self.to_come);
        let at = self.places.choose();
        let mut socket = socket;
        socket.register(self.poll.registry(), Token(at.saturating_add(FIRST)))?;
        let socket = Rc::new(self.alloc, socket)?;
        let door = socket.door(self.page);
        let reader = ReadEnd(socket.clone()?, self.mode);
        let writer = WriteEnd(socket.clone()?);
        self.places.take(at, socket, self.tick);
        let _ = self.journal.comes(at, matches!(door, Door::House));
        Ok(Turn::Comes(at, door, self.mode, reader, writer))
    }

    /// Waits until a slot may go on or somebody comes, or a tick is over, and takes in what the system reports.
    #[tactic(auto, using(crate::proofs::SlotLemmas::waiting_same, crate::proofs::SlotLemmas::waiting_both))]
    fn hear_system(&mut self) -> io::Result<()>
        ensures slots { AddWaiting (slots_in self.old) (slots_in self.new) }
    {
        let is_idle = self.places.is_idle() && !self.welcomes();
        let most = Duration::from_millis(if is_idle { TICK } else { 0 });
        match self.poll.poll(&mut self.events, Some(most)) {
            Err(error) if error.kind() == ErrorKind::Interrupted => Ok(()),
            Err(error) => Err(error),
            Ok(()) => self.listeners.take_in(&self.events, &mut self.places),
        }
    }

    /// Begins the next round, once the system has reported.
    #[tactic(auto, using(crate::proofs::SlotLemmas::waiting_same, crate::proofs::SlotLemmas::waiting_both))]
    fn begin_round(&mut self) -> io::Result<()>
        ensures slots { AddWaiting (slots_in self.old) (slots_in self.new) }
    {
        self.welcomed = 0;
        self.hear_system()?;
        self.places.begin_round();
        self.count_ticks()
    }

    /// At each tick the listeners are asked again, and the slots whose peers owe something for too long are ended.
    fn count_ticks(&mut self) -> io::Result<()>
        ensures slots { slots_in self.new ≡ slots_in self.old }
        ensures late { OnOk result (EndsLate self.old self.new) }
        ensures asked { self.new.tick ≢ self.old.tick → waiting_at self.new.listeners
            ≡ all_heard (waiting_at self.old.listeners) }
    {
        let now = Instant::now(self.rt)?;
        let passed = now.duration_since(self.clock).as_millis() / u128::from(TICK);
        if passed == 0 {
            return Ok(());
        }
        let counted = passed.min(u128::from(MOST_TICKS)) as u64;
        let whole = Duration::from_millis(counted.saturating_mul(TICK));
        self.clock = match self.clock.checked_add(whole) {
            Some(clock) if passed == u128::from(counted) => clock,
            _ => now,
        };
        self.tick = self.tick.saturating_add(counted);
        self.listeners.hear_all();
        self.places
            .add_overdue(self.tick, self.patience, &mut self.leaving)?;
        Ok(())
    }

    /// Whether the desk stops, and the time for the pages that wait is over.
    fn has_waited(&self) -> bool
        ensures waited { IsTrue result ↔ HasWaited self.now }
    {
        match self.last {
            Some(last) => self.tick >= last,
            None => false,
        }
    }

    /// Whether all peers that may come came, and have left.
    fn have_left(&self) -> bool
        ensures left { IsTrue result ↔ HaveLeft self.now }
    {
        match self.to_come {
            Some(0) => self.places.are_free(),
            _ => false,
        }
    }

    /// Whether no turn comes any more.
    fn is_at_end(&self) -> bool
        ensures end { IsTrue result ↔ IsAtEnd self.now }
    {
        self.has_waited() || self.have_left()
    }

    /// The next turn of this round, if there is one: that of a slot that is ended, of who comes, or of a slot that waits for it.
    #[tactic(auto, using(crate::proofs::TurnLemmas::first_of_coming))]
    fn turn_of_round(&mut self) -> Option<Turn<ReadEnd, WriteEnd>>
        ensures taken { TurnTaken self.old self.new result }
    {
        if let Some(at) = self.leaving.pop_front() {
            let why = self.places.why_overdue(at);
            let _ = self.journal.ends(at, why);
            self.places.clear(at);
            return Some(Turn::Leaves(at));
        }
        if let Some(turn) = self.welcome() {
            return Some(turn);
        }
        let at = self.places.serve()?;
        Some(Turn::Ready(at))
    }
}

impl Turns for Sockets<'_> {
    ghost use Rattle.http_sockets.specs.Options.{still_to_come};
    ghost use Rattle.http_sockets.specs.Slots.{AddWaiting};
    ghost use Rattle.http_sockets.specs.Turns.{GaveTurn, HearsSo, slots_in};

    type Reader = ReadEnd;

    type Writer = WriteEnd;

    ghost is_at = { IsAt };

    ghost is_by = { IsReadBy };

    ghost is_pair = { IsPair };

    ghost is_over = { IsOver };

    ghost took = { GaveTurn };

    ghost heard = { λ old at standing new. HearsSo standing old.tick at (slots_in old) (slots_in new) };

    ghost seen = { λ old new. slots_in new ≡ slots_in old };

    ghost counted = { λ sockets metrics. metrics ≡ sockets.journal.metrics };

    /// The next turn, of this round or of the first one in which somebody has a turn. There is one unless no turn comes any more.
    #[tactic(auto, using(crate::proofs::SlotLemmas::waiting_same, crate::proofs::SlotLemmas::waiting_both, crate::proofs::TurnLemmas::gave_turn, crate::proofs::TurnLemmas::gave_none))]
    fn next_turn(&mut self) -> Turn<ReadEnd, WriteEnd> {
        for _ in 0..u64::MAX {
            if let Some(turn) = self.turn_of_round() {
                return turn;
            }
            if self.is_at_end() {
                return Turn::End;
            }
            if self.begin_round().is_err() {
                break;
            }
        }
        self.has_failed = true;
        Turn::End
    }

    /// Each connection has a turn, in which its page may go out. After five seconds no turn comes.
    #[tactic(auto, using(crate::proofs::SlotLemmas::waiting_same, crate::proofs::SlotLemmas::waiting_both))]
    fn stop(&mut self)
        ensures nobody { still_to_come self.new ≡ Some 0 }
        ensures last { IsSomeAnd self.new.last (λ last. last ≤ self.old.tick + STOPPING) }
        ensures slots { AddWaiting (slots_in self.old) (slots_in self.new) }
    {
        self.to_come = Some(0);
        self.last = Some(self.tick.saturating_add(STOPPING));
        for at in 0..SLOTS {
            let _ = self.places.queue(at);
        }
    }

    fn second(&mut self) -> Option<u64> {
        match self.mode {
            Mode::Strict => None,
            Mode::Lenient => second_of(SystemTime::now(self.rt)),
        }
    }

    fn metrics(&self) -> Metrics {
        self.journal.metrics
    }

    fn see_received(&mut self, at: usize, has_part: bool) {
        self.journal.sees_received(at, has_part);
    }

    fn see_page(
        &mut self,
        at: usize,
        standing: Standing,
        seen: Option<&Arrived>,
        page: &[u8],
        closes: bool,
    ) {
        let _ = self.journal.sees_page(at, standing, seen, page, closes);
    }

    fn hear(&mut self, at: usize, standing: Standing) {
        self.places.hear(at, standing, self.tick);
        match standing {
            Standing::Over => {
                // Where its end was seen, it is noted already.
                let _ = self.journal.ends(at, Why::Stopped);
                self.places.clear(at);
            }
            Standing::Busy | Standing::Answered => {
                let _ = self.places.queue(at);
            }
            _ => {}
        }
    }
}

/// One peer fewer may come.
fn one_fewer(to_come: Option<u16>) -> Option<u16>
    ensures fewer { result ≡ one_fewer to_come }
{
    to_come.map(|count| count.saturating_sub(1))
}

/// The second since 1970 in which the clock of the system was read, if it was.
fn second_of(now: io::Result<SystemTime>) -> Option<u64>
    ensures second { MatchResult now
        (λ time. result ≡ Some (system_time_nanos time / 1_000_000_000)) (λ _. result ≡ None) }
{
    let since = now.ok()?.duration_since(UNIX_EPOCH).ok()?;
    Some(since.as_secs())
}
