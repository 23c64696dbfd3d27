//! The position of a journey after an item, and whether the item finishes the journey.
ghost use Rattle.std.specs.Prelude.{◌≡◌};
ghost use Rattle.sql_reads.specs.Following.{next_position, finishes};

use commands::Item;

/// The position of a journey after an item, from its position before the item.
pub(crate) fn position_after(item: &Item, pos: u64) -> u64
    ensures { result ≡ next_position pos item.now }
{
    match item {
        Item::Transaction { step, .. } => *step as u64,
        Item::Compensation { step, .. } => step.saturating_sub(1) as u64,
        Item::Turn { .. } => pos,
        Item::Save { .. } => pos,
    }
}

/// Whether an item finishes a journey of so many steps, which stands at this position before the item.
pub(crate) fn is_finished_with(item: &Item, steps: u64, pos: u64) -> bool
    ensures { result ≡ finishes steps pos item.now }
{
    match item {
        Item::Transaction { step, .. } => *step as u64 == steps,
        Item::Compensation { step, .. } => *step == 1,
        Item::Turn { target, .. } => *target == 0 && pos == 0,
        Item::Save { .. } => false,
    }
}
