//! The next step of a journey, and what a step makes of it now.
ghost use Rattle.std.specs.Prelude.{◌≡◌, ◌<◌, ℕ, List, [], IfErr, IfOk, IsOk, OnOk};
ghost use Rattle.commands.specs.declared.items.Phase.TheVariants.{Run};
ghost use Rattle.ledger.specs.Ledger.{Event, history, IsLegal};
ghost use Rattle.ledger.specs.JourneyChanges.{newer};
ghost use Rattle.plan.specs.PlanModel.{step_count};
ghost use Rattle.previews.specs.Previews.{begun_as, FitsNext, IsJourneyOf, IsTaken, item_made, latest_option as latest_option_of, next_of, nights_ahead, option_done, preview_of, StepsDown, StepsUp};
ghost use Rattle.reports.specs.Faults.{reported};
ghost use Rattle.reports.specs.Writing.{Takes};

use crate::nights::{FreeNight, fits_nights};
use allotment::Want;
use commands::{Cause, Cursor, Fault, Item, Phase};
use plan::{Plan, option_at};
use saga_core::{Brief, Move, Record, RowSource, decide};

/// The item that a step makes if the next want fits, and the want of that item.
#[derive(Clone, Copy, Debug, PartialEq, Eq)]
pub struct NextStep {
    /// A transaction, or a compensation.
    pub item: Item,
    pub want: Want,
}

/// Where a journey is, and what a step of the house would do with it now.
#[derive(Clone, Copy)]
pub struct Preview {
    pub brief: Brief,
    /// `None` if the journey is finished.
    pub next: Option<NextStep>,
    /// The item that a step makes now; `None` if the journey is finished.
    pub step: Option<Item>,
}

/// The option of a transaction of this step.
fn option_done(item: &Item, sought: usize) -> Option<usize>
    ensures done { result ≡ option_done sought item.now }
{
    match *item {
        Item::Transaction { step, option } if step == sought => Some(option),
        _ => None,
    }
}

/// The newer option if there is one, else the older.
fn newer(new: Option<usize>, old: Option<usize>) -> Option<usize>
    ensures newer { result ≡ newer new old }
{
    match new {
        Some(option) => Some(option),
        None => old,
    }
}

/// Reads the items of a journey to the last one, and returns the option with which a step was done last; `None` if it
/// never was.
pub fn latest_option<R: RowSource<Item>>(rows: &mut R, step: usize) -> Result<Option<usize>, Fault>
    ensures latest { R.is_sound rows.new → (all : List Item) → R.rests rows.old all →
        IfOk result (λ option. option ≡ latest_option_of step all) }
    ensures rest { R.is_sound rows.new → (all : List Item) → R.rests rows.old all →
        OnOk result (R.rests rows.new []) }

    ensures takes { Takes R.RowSource rows.old rows.new (reported result) }
{
    let mut latest = None;
    while let Some(item) = rows.next_row()? {
        latest = newer(option_done(&item, step), latest);
    }
    Ok(latest)
}

/// The next step of a journey with its want. `taken` is the option with which the step at its position was done last, if
/// it goes back. A position or an option that the plan does not have is a fault of the store, and there is no other.
pub fn next_step(journey: &Record, taken: Option<usize>) -> Result<Option<NextStep>, Fault>
    ensures next { (l : List Event) (j : ℕ) → IsJourneyOf l j journey.now →
        IsTaken l j journey.now taken →
        IfOk result (λ next. next ≡ next_of journey.now.plan (history l j)) }
    ensures there { (l : List Event) (j : ℕ) → IsJourneyOf l j journey.now →
        IsTaken l j journey.now taken →
        IsOk result }
    ensures short { OnOk result (journey.now.cursor.phase ≡ Run →
        journey.now.cursor.pos < step_count journey.now.plan) }

    ensures fault { IfErr result (λ fault. fault ≡ Fault.Store) }
{
    let Cursor { pos, phase, used } = journey.cursor;
    match phase {
        Phase::Run => Ok(Some(step_up(&journey.plan, pos, used)?)),
        Phase::Back(_) => Ok(Some(step_down(&journey.plan, pos, taken)?)),
        Phase::Ended | Phase::Undone => Ok(None),
    }
}

/// The next transaction of a plan's journey at this position, of which so many steps were refused.
fn step_up(plan: &Plan, pos: usize, used: usize) -> Result<NextStep, Fault>
    ensures steps { StepsUp plan.now pos used result }
{
    if pos >= plan.steps() {
        return Err(Fault::Store);
    }
    let step = pos + 1;
    let option = option_at(plan, step, used);
    Ok(NextStep {
        item: Item::Transaction { step, option },
        want: plan.want(step, option),
    })
}

/// The compensation of this step of a plan, which took this option.
fn step_down(plan: &Plan, step: usize, taken: Option<usize>) -> Result<NextStep, Fault>
    ensures steps { StepsDown plan.now step taken result }
{
    let Some(option) = taken else {
        return Err(Fault::Store);
    };
    if step == 0 || step > plan.steps() || option == 0 || option > plan.options(step) {
        return Err(Fault::Store);
    }
    Ok(NextStep {
        item: Item::Compensation { step, option },
        want: plan.want(step, option),
    })
}

/// The item that a move makes of the next step of its journey.
fn item_made(next: &Option<NextStep>, chosen: Move) -> Option<Item>
    ensures item { result ≡ item_made next.now chosen }
{
    match chosen {
        Move::Turn(target) => Some(Item::Turn {
            target,
            cause: Cause::Refused,
        }),
        Move::Take(_, _) | Move::Undo(_) => match next {
            Some(next) => Some(next.item),
            None => None,
        },
        Move::Nothing => None,
    }
}

/// Whether the want of a next step fits, by what is free of its nights; `false` if there is none.
fn fits_next(next: &Option<NextStep>, nights: &[FreeNight]) -> bool
    ensures fits { (l : List Event) → IsLegal l → nights.now ≡ nights_ahead l next.now →
        FitsNext l next.now result }
{
    match next {
        Some(next) => fits_nights(&next.want, nights),
        None => false,
    }
}

/// The preview of the journey of this number, which has this next step, with the nights of its want.
pub fn look_ahead(
    id: u64,
    journey: &Record,
    next: Option<NextStep>,
    nights: &[FreeNight],
) -> Preview
    requires short { journey.now.cursor.phase ≡ Run →
        journey.now.cursor.pos < step_count journey.now.plan }

    ensures preview { (l : List Event) → IsJourneyOf l id journey.now →
        next ≡ next_of journey.now.plan (history l id) → nights.now ≡ nights_ahead l next →
        result ≡ preview_of l id (begun_as journey.now) }
{
    let fitting = fits_next(&next, nights);
    let chosen = decide(&journey.plan, &journey.marks, &journey.cursor, fitting);
    let step = item_made(&next, chosen);
    Preview {
        brief: Brief {
            id,
            agent: journey.agent,
            cursor: journey.cursor,
        },
        next,
        step,
    }
}
