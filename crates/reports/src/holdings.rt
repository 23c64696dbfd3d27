//! A holder of a cell, with its cell, and the agent and state of its journey.

use allotment::Cell;
use commands::Agent;
use saga_core::JourneyState;

/// A step of a journey that holds places of a cell, with what is shown of the cell and of the journey.
#[derive(Clone, Copy, Debug, PartialEq, Eq)]
pub struct Holding {
    pub cell: Cell,
    /// The number of the journey.
    pub journey: u64,
    /// The agent who began it.
    pub agent: Agent,
    pub state: JourneyState,
    /// How many places of the cell the step holds.
    pub places: u64,
}
