//! Where turns come from; serving the connections of all slots, and ending those that are left.

ghost use Rattle.http_conversations.specs.Leading.{has_broken};
ghost use Rattle.http_live.specs.Calls.{AreLeft, ChangesAt, IsTakenBy};
ghost use Rattle.http_live.specs.Endings.{ends_stopped, has_stopped, ending_after};
ghost use Rattle.http_live.specs.InTime.{GivesAll, GivesTurns, InTime, Sees, TakesSome, TakesTurn, instant};
ghost use Rattle.saga_core.specs.Calls.{Serves};
ghost use Rattle.std.specs.Prelude.{◌≡◌, ◌≢◌, ⊤, ℕ, false, true, Ok, Err, Some, IfErr};
ghost use Rattle.desk_http.specs.declared.doors.Door.{Door};
ghost use Rattle.http_live.specs.Doors.{ComesByItsDoor, ComesInItsMode, ComesWithBoth, EndsOnlyIf};
ghost use Rattle.http_live.specs.declared.slots.Standing.{Standing};
ghost use Rattle.http_live.specs.declared.serving.Turn.{Turn};
ghost use Rattle.http_log.specs.declared.counting.Metrics.{Metrics};
ghost use Rattle.http_conversations.specs.declared.modes.Mode.{Mode};

use crate::slots::{Slot, Standing};
use commands::Fault;
use desk_http::Door;
use http_conversations::{Arrived, Mode, ReadBuffer};
use http_log::Metrics;
use http_pages::Paths;
use recovery::Ready;
use report_kinds::Reporting;
use std::alloc::Global;
use std::io::{Read, Write};

/// Serves the connections of all slots, turn by turn, until no turn comes, the house asks the desk to stop, the store fails, or
/// as many turns were taken as a number of 64 bits counts. Where the house asks, no further message is answered; its page waits.
///
/// Out of memory, no turn was taken.
pub fn serve_many<T: Turns, B: Reporting>(
    alloc: Global,
    slots: &mut [Slot<T::Reader, T::Writer>],
    turns: &mut T,
    book: &mut Ready<B>,
) -> Result<Ending, Fault>
    ensures in_time { InTime T.took T.heard T.seen T.is_at T.is_by T.is_pair B.is_sound B.stands
        B.leaves B.may_act B.has_reason (has_broken result) (has_stopped result)
        (instant turns.old slots.old book.old) (instant turns.new slots.new book.new) }
    ensures over { result ≡ Ok Ending.NoTurn → T.is_over turns.new }
    ensures spent { result ≡ Ok Ending.Spent → GivesAll T.took T.heard T.seen turns.old turns.new }

    ensures memory { result ≡ Err Fault.Memory →
        (slots.new ≡ slots.old) × (turns.new ≡ turns.old) × (book.new ≡ book.old) }
    ensures serves { Serves B.is_sound B.leaves B.has_failed book.old book.new Fault.Store result }
{
    let Ok(paths) = Paths::new(alloc) else {
        return Err(Fault::Memory);
    };
    let Ok(mut buffer) = ReadBuffer::new(alloc) else {
        return Err(Fault::Memory);
    };
    serve_turns(alloc, &paths, slots, &mut buffer, turns, book)
}

/// The same over any book, by way of a buffer.
fn serve_turns<T: Turns, B: Reporting>(
    alloc: Global,
    paths: &Paths,
    slots: &mut [Slot<T::Reader, T::Writer>],
    buffer: &mut ReadBuffer,
    turns: &mut T,
    book: &mut B,
) -> Result<Ending, Fault>
    ensures turns { TakesSome T.took T.heard T.seen T.is_at T.is_by T.is_pair B.is_sound B.stands
        B.leaves B.may_act B.has_reason (has_broken result) (has_stopped result)
        (instant turns.old slots.old book.old) (instant turns.new slots.new book.new) }
    ensures over { result ≡ Ok Ending.NoTurn → T.is_over turns.new }
    ensures spent { result ≡ Ok Ending.Spent → GivesAll T.took T.heard T.seen turns.old turns.new }

    ensures broken { IfErr result (λ fault. fault ≡ Fault.Store) }
    ensures serves { Serves B.is_sound B.leaves B.has_failed book.old book.new Fault.Store result }
{
    for _ in 0..u64::MAX {
        let ending = take_turn(alloc, paths, slots, buffer, turns, book)?;
        match ending {
            Some(ending) => return Ok(ending),
            None => {}
        }
    }
    Ok(Ending::Spent)
}

/// Takes the next turn, and reports whether serving ends with it.
fn take_turn<T: Turns, B: Reporting>(
    alloc: Global,
    paths: &Paths,
    slots: &mut [Slot<T::Reader, T::Writer>],
    buffer: &mut ReadBuffer,
    turns: &mut T,
    book: &mut B,
) -> Result<Option<Ending>, Fault>
    ensures turn { TakesTurn T.took T.heard T.seen T.is_at T.is_by T.is_pair B.is_sound B.stands
        B.leaves B.may_act B.has_reason (has_broken result) (ends_stopped result)
        (instant turns.old slots.old book.old) (instant turns.new slots.new book.new) }
    ensures over { result ≡ Ok (Some Ending.NoTurn) → T.is_over turns.new }
    ensures unspent { result ≢ Ok (Some Ending.Spent) }

    ensures broken { IfErr result (λ fault. fault ≡ Fault.Store) }
    ensures serves { Serves B.is_sound B.leaves B.has_failed book.old book.new Fault.Store result }
{
    match turns.next_turn() {
        Turn::Comes(at, door, mode, reader, writer) => {
            welcome::<T>(alloc, slots, at, door, mode, reader, writer);
            Ok(None)
        }
        Turn::Ready(at) => {
            if at < slots.len() {
                show_received(slots, turns, at);
                let mut seen = None;
                let second = turns.second();
                let metrics = turns.metrics();
                let standing = slots[at].serve(paths, second, &metrics, buffer, &mut seen, book)?;
                show_page(slots, turns, at, standing, seen.as_ref());
                turns.hear(at, standing);
                return Ok(ending_after(standing));
            }
            Ok(None)
        }
        Turn::Leaves(at) => {
            if at < slots.len() {
                slots[at].clear();
            }
            Ok(None)
        }
        Turn::End => Ok(Some(Ending::NoTurn)),
    }
}

/// Shows whether something was received at a slot and may be answered, before its turn.
fn show_received<T: Turns>(slots: &[Slot<T::Reader, T::Writer>], turns: &mut T, at: usize)
    ensures sees { Sees T.seen turns.old turns.new }
{
    if let Some(slot) = slots.get(at) {
        turns.see_received(at, slot.has_unanswered());
    }
}

/// Shows the message that was answered at a slot, if one was, and its page, after its turn.
fn show_page<T: Turns>(
    slots: &[Slot<T::Reader, T::Writer>],
    turns: &mut T,
    at: usize,
    standing: Standing,
    seen: Option<&Arrived>,
)
    ensures sees { Sees T.seen turns.old turns.new }
{
    if let Some(slot) = slots.get(at) {
        turns.see_page(at, standing, seen, slot.unsent(), slot.closes());
    }
}

/// A peer takes a slot, by its door and in its mode. Where there is no such slot, it is let go.
fn welcome<T: Turns>(
    alloc: Global,
    slots: &mut [Slot<T::Reader, T::Writer>],
    at: usize,
    door: Door,
    mode: Mode,
    reader: T::Reader,
    writer: T::Writer,
)
    ensures taken { ChangesAt (IsTakenBy reader writer door mode) at slots.old slots.new }
{
    if at >= slots.len() {
        return;
    }
    slots[at].take(alloc, door, mode, reader, writer);
}

/// Writes the pages that wait, turn by turn, until no turn comes, and reports whether none does; if not, as many turns were
/// taken as a number of 64 bits counts. Nothing is read, and no message is answered; a connection for which nothing waits is
/// over, and a peer that comes is let go.
#[tactic(auto, using(crate::specs::InTime::both, crate::specs::InTime::was_shown))]
pub fn finish_many<T: Turns>(slots: &mut [Slot<T::Reader, T::Writer>], turns: &mut T) -> bool
    ensures left { AreLeft slots.old slots.new }
    ensures over { result ≡ true → T.is_over turns.new }
    ensures spent { result ≡ false → GivesAll T.took T.heard T.seen turns.old turns.new }
{
    for _ in 0..u64::MAX {
        if !finish_turn(slots, turns) {
            return true;
        }
    }
    false
}

/// Takes the next turn, and reports whether there was one.
fn finish_turn<T: Turns>(slots: &mut [Slot<T::Reader, T::Writer>], turns: &mut T) -> bool
    ensures left { AreLeft slots.old slots.new }
    ensures over { result ≡ false → T.is_over turns.new }
    ensures gives { GivesTurns T.took T.heard T.seen 1 turns.old turns.new }
{
    match turns.next_turn() {
        Turn::Comes(_, _, _, _, _) => true,
        Turn::Ready(at) => {
            if at < slots.len() {
                let standing = slots[at].flush();
                turns.hear(at, standing);
            }
            true
        }
        Turn::Leaves(at) => {
            if at < slots.len() {
                slots[at].clear();
            }
            true
        }
        Turn::End => false,
    }
}

/// What happens next.
#[derive(Drop)]
pub enum Turn<R, W> {
    /// A peer takes this slot, by this door and in this mode. Who had it before leaves.
    Comes(usize, Door, Mode, R, W),
    /// The connection of this slot may go on.
    Ready(usize),
    /// The connection of this slot is ended.
    Leaves(usize),
    /// No turn comes.
    End,
}

/// What the system reports, and who comes and goes.
pub trait Turns {
    type Reader: Read + Drop;

    type Writer: Write + Drop;

    /// What this reader gives comes in at this door.
    ghost is_at: { Self.Reader → Door → Type 0 };

    /// What this reader gives is read in this mode.
    ghost is_by: { Self.Reader → Mode → Type 0 };

    /// What is written to this writer goes to the peer whose bytes this reader gives.
    ghost is_pair: { Self.Reader → Self.Writer → Type 0 };

    /// There is a reason that no turn comes any more.
    ghost is_over: { Self → Type 0 };

    /// The source gave this turn, and went on from the one to the other.
    ghost took: { Self → Turn Self.Reader Self.Writer → Self → Type 0 } = { λ _ _ _. ⊤ };

    /// It heard for what the connection of this slot waits, and went on from the one to the other.
    ghost heard: { Self → ℕ → Standing → Self → Type 0 } = { λ _ _ _ _. ⊤ };

    /// It was shown something, or asked for the time, and went on from the one to the other.
    ghost seen: { Self → Self → Type 0 } = { λ _ _. ⊤ };

    /// This is what it counted.
    ghost counted: { Self → Metrics → Type 0 } = { λ _ _. ⊤ };

    /// Waits for the next turn. A peer comes by the door of its reader, and is read in the mode of its reader. Its pages go to
    /// the writer of the same peer.
    fn next_turn(&mut self) -> Turn<Self::Reader, Self::Writer>
        ensures door { ComesByItsDoor is_at result }
        ensures mode { ComesInItsMode is_by result }
        ensures pair { ComesWithBoth is_pair result }
        ensures over { EndsOnlyIf (is_over self.new) result }
        ensures takes { took self.old result self.new };

    /// The administrator stops the desk: nobody comes any more, and no turn comes once the pages that wait had time to go out.
    fn stop(&mut self) {}

    /// What the clock shows, in seconds since 1970, if it can be read. Pages in lenient mode have its date.
    fn second(&mut self) -> Option<u64>
        ensures sees { Sees seen self.old self.new }
    {
        None
    }

    /// What was counted, for who asks for it.
    fn metrics(&self) -> Metrics
        ensures counted { counted self.now result };

    /// Sees whether a message, or part of one, waits at a slot to be answered in its turn, which comes next. Nothing depends on
    /// it: a log may be kept so.
    fn see_received(&mut self, _slot: usize, _has_part: bool)
        ensures sees { Sees seen self.old self.new }
    {}

    /// Sees how a turn of a slot ended, the message that was taken in it, if one was, what is left of the page, and whether the
    /// connection ends after it. Nothing depends on it.
    fn see_page(
        &mut self,
        _slot: usize,
        _standing: Standing,
        _seen: Option<&Arrived>,
        _page: &[u8],
        _closes: bool,
    )
        ensures sees { Sees seen self.old self.new }
    {}

    /// Hears what the connection of a slot waits for after its turn.
    fn hear(&mut self, slot: usize, standing: Standing)
        ensures hears { heard self.old slot standing self.new };
}

/// Why no more turns are taken.
#[derive(Clone, Copy, Debug, PartialEq, Eq)]
pub enum Ending {
    /// No turn comes.
    NoTurn,
    /// The house asked the desk to stop.
    Stopped,
    /// As many turns were taken as a number of 64 bits counts.
    Spent,
}

/// The ending after a turn of a connection, if serving ends with it.
pub(crate) fn ending_after(standing: Standing) -> Option<Ending>
    ensures ending { result ≡ ending_after standing }
{
    match standing {
        Standing::Stopped => Some(Ending::Stopped),
        _ => None,
    }
}
