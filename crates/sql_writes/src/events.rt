//! What an event writes.
ghost use Rattle.std.specs.Prelude.{◌<◌, ◌^◌};

use allotment::{Cell, Held, Want};
use commands::{Ask, Cause, Cursor};
use plan::Plan;

/// The numbers that `meta` has after an event.
#[derive(Clone, Copy, Debug, PartialEq, Eq)]
pub struct Numbers {
    /// The number of the event, from 1.
    pub num: u64,
    /// The number of journeys.
    pub journeys: u64,
    ghost small_num: { num < 2 ^ 63 },
    ghost small_journeys: { journeys < 2 ^ 63 },
}

/// A new journey. Its number is that of the last journey.
#[derive(Clone, Copy)]
pub struct JourneyBegun<'a> {
    /// The agent who begins it.
    pub agent: &'a str,
    /// Its plan.
    pub plan: &'a Plan,
}

/// A step that a journey does or compensates, with one of its options.
#[derive(Clone, Copy, Debug, PartialEq, Eq)]
pub struct StepMade {
    /// The journey's number.
    pub journey: u64,
    /// The step, from 1.
    pub step: usize,
    /// The option, from 1.
    pub option: usize,
    /// The want of the option.
    pub want: Want,
    /// The cursor of the journey after the step.
    pub cursor: Cursor,
}

/// A turn of a journey.
#[derive(Clone, Copy, Debug, PartialEq, Eq)]
pub struct TurnMade {
    /// The journey's number.
    pub journey: u64,
    /// The position to which it goes back.
    pub target: usize,
    /// The cause of the turn.
    pub cause: Cause,
    /// The cursor of the journey after the turn.
    pub cursor: Cursor,
}

/// A save-point that a journey takes.
#[derive(Clone, Copy, Debug, PartialEq, Eq)]
pub struct SaveMade {
    /// The journey's number.
    pub journey: u64,
    /// The position of the save-point.
    pub position: usize,
}

/// A batch that is loaded.
#[derive(Clone, Copy)]
pub struct BatchLoaded<'a> {
    /// The batch's name.
    pub name: &'a str,
    /// The texts of its rows, each ended by a line feed.
    pub content: &'a str,
    /// Its cells, in the order of its rows, each with its places after the load.
    pub cells: &'a [(Cell, Held)],
}

/// An event, with what it writes.
#[derive(Clone, Copy)]
pub enum Event<'a> {
    /// A journey begins.
    Begin(JourneyBegun<'a>),
    /// A step is done.
    Transaction(StepMade),
    /// A step is compensated.
    Compensation(StepMade),
    /// The journey turns back.
    Turn(TurnMade),
    /// The journey takes a save-point.
    Save(SaveMade),
    /// A batch is loaded.
    Load(BatchLoaded<'a>),
}

/// A reply that is kept with an event.
#[derive(Clone, Copy)]
pub struct Keeping<'a> {
    /// The ask for which it is kept.
    pub ask: &'a Ask,
    /// The line of the reply.
    pub line: &'a str,
}
