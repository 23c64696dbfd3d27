//! Where a journey is before it moves, and the item that it makes.
ghost use Rattle.std.specs.Prelude.{◌≡◌, ◌≤◌, ◌<◌, ◌^◌, true};
ghost use Rattle.plan.specs.Limits.{most_steps};
ghost use Rattle.sql_commands.specs.Placing.{IsPlacedIn};

use commands::{Cursor, Item, Phase};
use sql_reads::Stand;
use sql_writes::{Event, Numbers};

/// More refused steps than a ledger may have events.
const MOST_USED: usize = 1 << 62;

/// What was read of a journey that is to move.
#[derive(Clone, Copy)]
pub(crate) struct Found {
    /// The numbers that `meta` has after its next event.
    pub numbers: Numbers,
    /// The number of the journey.
    pub id: u64,
    /// Its agent, steps, tries and cursor.
    pub stand: Stand,
    ghost low: { id < 2 ^ 63 },
    ghost few: { stand.steps ≤ most_steps },
    ghost placed: { IsPlacedIn stand.steps stand.cursor },
}

/// An item of a journey, with its event, and the cursor of the journey after it.
#[derive(Clone, Copy)]
pub(crate) struct Made<'x> {
    pub item: Item,
    pub event: Event<'x>,
    pub cursor: Cursor,
}

/// Whether a journey of so many steps may have this cursor.
pub(crate) fn is_placed(steps: usize, cursor: Cursor) -> bool
    ensures placed { result ≡ true → IsPlacedIn steps cursor }
    ensures exact { IsPlacedIn steps cursor → result ≡ true }
{
    let Cursor { pos, phase, used } = cursor;
    let is_there = match phase {
        Phase::Run => pos < steps,
        Phase::Back(target) => pos < steps && target < pos,
        Phase::Ended | Phase::Undone => pos <= steps,
    };
    is_there && used < MOST_USED
}
