//! What a book reports of journeys.
use commands::{Agent, Cursor, Item};
use plan::{Marks, Plan};

/// A journey: the agent who began it, its plan, its cursor, and the save-points that it took while it ran.
#[derive(Drop)]
pub struct Record {
    pub agent: Agent,
    pub plan: Plan,
    pub cursor: Cursor,
    pub marks: Marks,
}

/// A journey by its number, without its plan.
#[derive(Clone, Copy)]
pub struct Brief {
    /// Numbered from 1.
    pub id: u64,
    pub agent: Agent,
    pub cursor: Cursor,
}

/// A journey by its number with its items, without its plan.
#[derive(Drop)]
pub struct Trace {
    pub brief: Brief,
    /// The items that it has made, the oldest first.
    pub items: Vec<Item>,
}

/// How many events, journeys and unfinished journeys a ledger has.
#[derive(Clone, Copy, Debug, PartialEq, Eq)]
pub struct Counts {
    pub events: u64,
    /// The journeys that have begun, finished ones among them.
    pub journeys: u64,
    /// Those of the journeys that run or go back.
    pub unfinished: u64,
}
