//! Sums on the places of one cell, and whether a want fits.
ghost use Rattle.std.specs.Prelude.{◌≡◌, ◌↔◌, ◌+◌, ◌<◌, ◌≤◌, IfOk, IsErr};
ghost use Rattle.allotment.specs.Limits.{most_places};
ghost use Rattle.allotment.specs.Places.{fits_in, has_free as has_free_places, held_of};

use crate::nights::Night;
use crate::places::Held;
use crate::wants::Want;

/// A supplier asked for fewer places than journeys hold.
#[derive(Clone, Copy, Debug, PartialEq, Eq)]
pub struct BelowHeld;

/// Whether the list has each night of the want with at least its count of free places.
pub fn fits(rows: &[(Night, Held)], want: &Want) -> bool
    ensures { result ≡ fits_in rows.now want.now }
{
    let first = want.first().day();
    let count = u32::from(want.count());
    (first..first + u32::from(want.nights())).all(|day| has_free(rows, count, day))
}

/// Takes so many places: `free` falls by `count`. The precondition says that there are as many.
pub fn take(held: Held, count: u32) -> Held
    requires { count ≤ held.free }
    ensures free { result.free + count ≡ held.free }
    ensures allot { result.allot ≡ held.allot }
{
    Held {
        allot: held.allot,
        free: held.free - count,
    }
}

/// Gives so many places back: `free` rises by `count`. The precondition says that journeys hold as many.
pub fn give(held: Held, count: u32) -> Held
    requires { held.free + count ≤ held.allot }
    ensures free { result.free ≡ held.free + count }
    ensures allot { result.allot ≡ held.allot }
{
    Held {
        allot: held.allot,
        free: held.free + count,
    }
}

/// Sets how many places the supplier allots. Places that journeys hold stay held. Returns `BelowHeld` if journeys hold
/// more.
pub fn set(held: Held, places: u32) -> Result<Held, BelowHeld>
    requires { places ≤ most_places }

    ensures allot { IfOk result (λ new. new.allot ≡ places) }
    ensures kept { IfOk result (λ new. held_of new ≡ held_of held) }

    ensures below_held { IsErr result ↔ (places < held_of held) }
{
    match places.checked_sub(held.held()) {
        Some(free) => Ok(Held {
            allot: places,
            free,
        }),
        None => Err(BelowHeld),
    }
}

/// Whether the list has the night of this day with at least so many free places.
fn has_free(rows: &[(Night, Held)], count: u32, day: u32) -> bool
    ensures { result ≡ has_free_places rows.now count day }
{
    rows.iter()
        .any(|(night, held)| night.day() == day && count <= held.free)
}
