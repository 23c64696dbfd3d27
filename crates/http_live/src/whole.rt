//! Serving as one call: from the first peer to the last page.

ghost use Rattle.http_live.specs.Calls.{Admits, AreLeft};
ghost use Rattle.http_live.specs.Slots.{exchanges_at};
ghost use Rattle.http_live.specs.Whole.{EndsOver, GoOnByTurns, WorldsEnd};
ghost use Rattle.saga_core.specs.Calls.{Serves};
ghost use Rattle.std.specs.Prelude.{◌≡◌, map, true, Err};

use crate::serving::{Ending, Turns, finish_many, serve_many};
use crate::slots::{Slot, empty_slots};
use commands::Fault;
use recovery::Ready;
use report_kinds::Reporting;
use std::alloc::Global;
use std::io::{Read, Write};

/// Serves who comes, over slots of its own, until no turn comes, the administrator stops the desk, or the store fails. Where he
/// stops it, nobody comes any more, and the pages that wait go out, until no turn comes.
///
/// Out of memory, no turn was taken.
pub fn serve_to_end<T: Turns, B: Reporting>(
    alloc: Global,
    turns: &mut T,
    book: &mut Ready<B>,
) -> Result<Ending, Fault>
    ensures goes_on { GoOnByTurns ⟦<T::Reader as Read>⟧ ⟦<T::Writer as Write>⟧ T.is_at T.is_by
        T.is_pair B.is_sound B.stands B.leaves B.may_act B.has_reason book.old book.new
        (EndsOver T.took T.heard T.seen T.is_over turns.old turns.new) result }

    ensures memory { result ≡ Err Fault.Memory →
        (turns.new ≡ turns.old) × (book.new ≡ book.old) }
    ensures serves { Serves B.is_sound B.leaves B.has_failed book.old book.new Fault.Store result }
{
    let Ok(mut slots) = empty_slots(alloc) else {
        return Err(Fault::Memory);
    };
    serve_slots(alloc, slots.as_mut_slice(), turns, book)
}

/// Does the same over these slots.
fn serve_slots<T: Turns, B: Reporting>(
    alloc: Global,
    slots: &mut [Slot<T::Reader, T::Writer>],
    turns: &mut T,
    book: &mut Ready<B>,
) -> Result<Ending, Fault>
    ensures admits { Admits T.is_at T.is_by T.is_pair slots.old slots.new }
    ensures worlds { WorldsEnd B.is_sound B.stands B.leaves B.may_act B.has_reason book.old
        book.new (EndsOver T.took T.heard T.seen T.is_over turns.old turns.new) result
        (map exchanges_at slots.old) (map exchanges_at slots.new) }

    ensures memory { result ≡ Err Fault.Memory →
        (turns.new ≡ turns.old) × (book.new ≡ book.old) }
    ensures serves { Serves B.is_sound B.leaves B.has_failed book.old book.new Fault.Store result }
{
    match serve_many(alloc, slots, turns, book)? {
        Ending::Stopped => Ok(finish(slots, turns)),
        Ending::NoTurn => Ok(Ending::NoTurn),
        Ending::Spent => Ok(Ending::Spent),
    }
}

/// The administrator has stopped the desk: nobody comes any more, and the pages that wait go out.
fn finish<T: Turns>(slots: &mut [Slot<T::Reader, T::Writer>], turns: &mut T) -> Ending
    ensures left { AreLeft slots.old slots.new }
    ensures over { (first : T) →
        EndsOver T.took T.heard T.seen T.is_over first turns.new result true }
{
    turns.stop();
    if finish_many(slots, turns) {
        Ending::Stopped
    } else {
        Ending::Spent
    }
}
