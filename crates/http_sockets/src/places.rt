//! The two ends of a connection over a socket, and what is known of each slot: its socket, what its peer owes, and since when.

ghost use Rattle.std.specs.Prelude.{◌≡◌, ◌++◌, All, IfOk, OnErr, OnOk, ◌↔◌, IsTrue, if◌then◌else◌, [], length, take, true, ◌<◌};
ghost use Rattle.std.specs.Io.{ReadsAtMost, WritesAtMost};
ghost use Rattle.std.specs.Io.KnownBytes.{Appends, Consumes, IsAtEnd, Keeps};
ghost use Rattle.http_sockets.specs.Owed.{is_owed_anew, owed_after, shows_life};
ghost use Rattle.http_sockets.specs.Slots.{HaveTurns};

use desk_http::{Door, Site};
use http_conversations::Mode;
use http_live::Standing;
use http_log::Why;
use mio::net::{TcpStream, UnixStream};
use mio::{Interest, Registry, Token};
use std::alloc::{AllocError, Global};
use std::collections::VecDeque;
use std::io::{self, Read, Write};
use std::mem;
use std::net::Shutdown;
use std::rc::Rc;

/// For how many ticks a peer may be silent after its closing page.
const LINGERING: u64 = 10;

/// What a peer owes.
#[derive(Clone, Copy, Debug, PartialEq, Eq)]
enum Owed {
    /// Nothing: it may be silent.
    Nothing,
    /// The rest of a message.
    Message,
    /// To take a page.
    Page,
    /// To end, after its closing page.
    End,
}

/// What is known of a slot.
#[derive(Drop)]
struct Place {
    socket: Option<Rc<Socket>>,
    owed: Owed,
    /// Since when that is owed, in ticks.
    since: u64,
    /// When its peer last sent or took something, in ticks.
    heard: u64,
    /// Whether it waits for its turn.
    is_queued: bool,
}

/// All slots, and whose turn comes.
#[derive(Drop)]
pub(crate) struct Places {
    places: Vec<Place>,
    /// The slots that have a turn in this round, and those that have one in the next round.
    round: VecDeque<usize>,
    next: VecDeque<usize>,
    ghost turns: { HaveTurns places.items round.items next.items },
}

impl Places {
    ghost use Rattle.http_sockets.specs.Ends.{are_free};
    ghost use Rattle.http_sockets.specs.Places.{Serves, next_of, round_of, slots_of};
    ghost use Rattle.http_sockets.specs.Slots.{AddWaiting, Changes, IsChosen, cleared, heard_so, is_free, overdue_from, queued, taken, why_overdue};

    /// So many slots, all free.
    #[tactic(auto, using(crate::proofs::SlotLemmas::turns_none))]
    pub(crate) fn new(alloc: Global, count: usize) -> Result<Places, AllocError>
        ensures count { IfOk result (λ places. length (slots_of places) ≡ count) }
        ensures free { IfOk result (λ places. All (λ slot. is_free slot ≡ true) (slots_of places)) }
    {
        let round = VecDeque::with_capacity(alloc, count)?;
        let next = VecDeque::with_capacity(alloc, count)?;
        let mut places = Vec::with_capacity(alloc, count)?;
        for _ in 0..count {
            places.push(Place {
                socket: None,
                owed: Owed::Nothing,
                since: 0,
                heard: 0,
                is_queued: false,
            })?;
        }
        Ok(Places {
            places,
            round,
            next,
        })
    }

    /// A free slot, or the one whose peer is silent for longest.
    #[tactic(auto, using(crate::proofs::SlotLemmas::chosen_free, crate::proofs::SlotLemmas::chosen_of_all, crate::proofs::SlotLemmas::quiet_takes, crate::proofs::SlotLemmas::quiet_keeps))]
    pub(crate) fn choose(&self) -> usize
        ensures chosen { IsChosen (slots_of self.now) result }
    {
        let (mut best, mut oldest) = (0, u64::MAX);
        for (at, place) in self.places.iter().enumerate() {
            if place.socket.is_none() {
                return at;
            }
            if place.heard < oldest {
                (best, oldest) = (at, place.heard);
            }
        }
        best
    }

    /// Whether no slot has a peer.
    pub(crate) fn are_free(&self) -> bool
        ensures free { result ≡ are_free self.now }
    {
        self.places.iter().all(|place| place.socket.is_none())
    }

    /// A peer takes the slot at this tick.
    #[tactic(auto, using(crate::proofs::SlotLemmas::changed, crate::proofs::SlotLemmas::turns_kept))]
    pub(crate) fn take(&mut self, at: usize, socket: Rc<Socket>, tick: u64)
        ensures taken { Changes (taken socket tick) at (slots_of self.old) (slots_of self.new) }
        ensures round { round_of self.new ≡ round_of self.old }
    {
        if let Some(place) = self.places.get_mut(at) {
            place.socket = Some(socket);
            place.owed = Owed::Nothing;
            place.since = tick;
            place.heard = tick;
        }
    }

    /// The slot is free.
    #[tactic(auto, using(crate::proofs::SlotLemmas::changed, crate::proofs::SlotLemmas::turns_kept))]
    pub(crate) fn clear(&mut self, at: usize)
        ensures cleared { Changes cleared at (slots_of self.old) (slots_of self.new) }
    {
        if let Some(place) = self.places.get_mut(at) {
            place.socket = None;
            place.owed = Owed::Nothing;
        }
    }

    /// What the connection of a slot waits for at this tick.
    #[tactic(auto, using(crate::proofs::SlotLemmas::changed, crate::proofs::SlotLemmas::turns_kept))]
    pub(crate) fn hear(&mut self, at: usize, standing: Standing, tick: u64)
        ensures heard { Changes (heard_so standing tick) at (slots_of self.old) (slots_of self.new) }
    {
        if let Some(place) = self.places.get_mut(at) {
            place.hear(standing, tick);
        }
    }

    /// Why a slot is ended whose peer has owed something for too long.
    pub(crate) fn why_overdue(&self, at: usize) -> Why
        ensures why { result ≡ why_overdue (slots_of self.now) at }
    {
        match self.places.get(at).map(|place| place.owed) {
            Some(Owed::Message) => Why::LateRequest,
            Some(Owed::Page) => Why::LatePage,
            _ => Why::Closed,
        }
    }

    /// The slot has a turn in the next round, unless it has one already, or nobody has the slot.
    #[tactic(auto, using(crate::proofs::SlotLemmas::waiting_same))]
    pub(crate) fn queue(&mut self, at: usize) -> Result<(), AllocError>
        ensures queued { OnOk result (Changes queued at (slots_of self.old) (slots_of self.new)) }
        ensures err { OnErr result (slots_of self.new ≡ slots_of self.old) }
        ensures waiting { AddWaiting (slots_of self.old) (slots_of self.new) }
    {
        let Some(place) = self.places.get_mut(at) else {
            return Ok(());
        };
        if place.is_queued || place.socket.is_none() {
            return Ok(());
        }
        self.next.push_back(at)?;
        place.is_queued = true;
        Ok(())
    }

    /// The next slot of this round has its turn.
    pub(crate) fn serve(&mut self) -> Option<usize>
        ensures served { Serves result self.old self.new }
    {
        let at = self.round.pop_front()?;
        if let Some(place) = self.places.get_mut(at) {
            place.is_queued = false;
        }
        Some(at)
    }

    /// The next round begins.
    #[tactic(auto, using(crate::proofs::SlotLemmas::turns_swapped))]
    pub(crate) fn begin_round(&mut self)
        ensures slots { slots_of self.new ≡ slots_of self.old }
        ensures round { round_of self.new ≡ next_of self.old }
        ensures next { next_of self.new ≡ round_of self.old }
    {
        mem::swap(&mut self.round, &mut self.next);
    }

    /// Whether no slot has a turn in the next round.
    pub(crate) fn is_idle(&self) -> bool
        ensures idle { IsTrue result ↔ (next_of self.now ≡ []) }
    {
        self.next.is_empty()
    }

    /// Adds the slots whose peers have owed something for more than so many ticks.
    pub(crate) fn add_overdue(
        &self,
        tick: u64,
        patience: u64,
        overdue: &mut VecDeque<usize>,
    ) -> Result<(), AllocError>
        ensures added { OnOk result
            (overdue.new.items ≡ overdue.old.items ++ overdue_from tick patience 0 (slots_of self.now)) }
    {
        for (at, place) in self.places.iter().enumerate() {
            if place.is_overdue(tick, patience) {
                overdue.push_back(at)?;
            }
        }
        Ok(())
    }
}

impl Place {
    ghost use Rattle.http_sockets.specs.Slots.{heard_so, is_overdue};

    /// What its connection waits for at this tick. After its closing page, nothing more is written.
    fn hear(&mut self, standing: Standing, tick: u64)
        ensures heard { self.new ≡ heard_so standing tick self.old }
    {
        if standing == Standing::Lingering && self.owed != Owed::End {
            if let Some(socket) = &self.socket {
                socket.end_writing();
            }
        }
        self.since = later(is_owed_anew(self.owed, standing), self.since, tick);
        self.heard = later(shows_life(standing), self.heard, tick);
        self.owed = owed_after(self.owed, standing);
    }

    /// Whether there is a peer, which owes something for too long at this tick.
    fn is_overdue(&self, tick: u64, patience: u64) -> bool
        ensures overdue { result ≡ is_overdue tick patience self.now }
    {
        if self.socket.is_none() {
            return false;
        }
        let owes_long = tick.saturating_sub(self.since) > patience;
        let is_silent = tick.saturating_sub(self.heard) > LINGERING;
        match self.owed {
            Owed::Nothing => false,
            Owed::Message | Owed::Page => owes_long,
            Owed::End => owes_long || is_silent,
        }
    }
}

/// This tick, or the one before.
fn later(is_now: bool, before: u64, tick: u64) -> u64
    ensures later { result ≡ (if is_now then tick else before) }
{
    if is_now { tick } else { before }
}

/// What a peer owes after a turn, by what it owed before. Its first byte begins a message.
fn owed_after(before: Owed, standing: Standing) -> Owed
    ensures owed { result ≡ owed_after before standing }
{
    match standing {
        Standing::Between | Standing::Over => Owed::Nothing,
        Standing::Amid => Owed::Message,
        Standing::Unsent | Standing::Answered | Standing::Stopped => Owed::Page,
        Standing::Lingering => Owed::End,
        Standing::Busy if before == Owed::Nothing => Owed::Message,
        Standing::Busy => before,
    }
}

/// Whether a peer owes from this turn on what it owes after it.
fn is_owed_anew(before: Owed, standing: Standing) -> bool
    ensures anew { result ≡ is_owed_anew before standing }
{
    standing == Standing::Answered || owed_after(before, standing) != before
}

/// Whether a turn that ended so shows that the peer sent or took something.
fn shows_life(standing: Standing) -> bool
    ensures life { result ≡ shows_life standing }
{
    standing == Standing::Busy || standing == Standing::Answered
}

/// A socket of a peer.
#[derive(Drop)]
pub(crate) enum Socket {
    Port(TcpStream),
    Path(UnixStream),
}

/// The end that is read, and the mode in which that is read.
#[derive(Drop)]
pub struct ReadEnd(pub(crate) Rc<Socket>, pub(crate) Mode);

/// The end that is written to.
#[derive(Drop)]
pub struct WriteEnd(pub(crate) Rc<Socket>);

impl Socket {
    ghost use Rattle.http_sockets.specs.Doors.{IsDoorOf, door_of};

    /// What the system reports of it is reported under this token from now on.
    pub(crate) fn register(&mut self, registry: &Registry, token: Token) -> io::Result<()>
        ensures same { self.new ≡ self.old }
    {
        let both = Interest::READABLE | Interest::WRITABLE;
        match self {
            Socket::Port(stream) => registry.register(stream, token, both),
            Socket::Path(stream) => registry.register(stream, token, both),
        }
    }

    /// By which door its requests come in: at the port by the one with a page, if it is served there.
    pub(crate) fn door(&self, page: Option<Site>) -> Door
        ensures door { IsDoorOf self.now result }
        ensures page { result ≡ door_of self.now page }
    {
        match (self, page) {
            (Socket::Port(_), Some(site)) => Door::Page(site),
            (Socket::Port(_), None) => Door::Port,
            (Socket::Path(_), _) => Door::House,
        }
    }

    /// Nothing more is written to it. The system alone sees it.
    pub(crate) fn end_writing(&self) {
        let _ = match self {
            Socket::Port(stream) => stream.shutdown(Shutdown::Write),
            Socket::Path(stream) => stream.shutdown(Shutdown::Write),
        };
    }
}

impl Read for ReadEnd {
    fn read(&mut self, buffer: &mut [u8]) -> io::Result<usize> {
        match &*self.0 {
            Socket::Port(stream) => {
                let mut stream = stream;
                read_from(&mut stream, buffer)
            }
            Socket::Path(stream) => {
                let mut stream = stream;
                read_from(&mut stream, buffer)
            }
        }
    }
}

impl Write for WriteEnd {
    fn write(&mut self, bytes: &[u8]) -> io::Result<usize> {
        match &*self.0 {
            Socket::Port(stream) => {
                let mut stream = stream;
                write_to(&mut stream, bytes)
            }
            Socket::Path(stream) => {
                let mut stream = stream;
                write_to(&mut stream, bytes)
            }
        }
    }

    fn flush(&mut self) -> io::Result<()> {
        Ok(())
    }
}

/// Reads once. Of what the reader gives, nothing is lost.
fn read_from<R: Read>(reader: &mut R, buffer: &mut [u8]) -> io::Result<usize>
    ensures bound { ReadsAtMost result buffer.new }
    ensures consumed { IfOk result (λ count.
        Consumes (R.remaining reader.old) (R.remaining reader.new) (take count buffer.new)) }
    ensures end { IfOk result (λ count.
        count ≡ 0 → 0 < length buffer.new → IsAtEnd (R.remaining reader.new)) }
    ensures err { OnErr result (Keeps (R.remaining reader.old) (R.remaining reader.new)) }
{
    reader.read(buffer)
}

/// Writes once. So many bytes as are told were taken.
fn write_to<W: Write>(writer: &mut W, bytes: &[u8]) -> io::Result<usize>
    ensures bound { WritesAtMost result bytes.now }
    ensures appended { IfOk result (λ count.
        Appends (W.contents writer.old) (W.contents writer.new) (take count bytes.now)) }
    ensures err { OnErr result (Keeps (W.contents writer.old) (W.contents writer.new)) }
{
    writer.write(bytes)
}
