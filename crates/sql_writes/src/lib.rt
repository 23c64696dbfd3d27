//! The rows of one event, written in one transaction, whose commit is the last call of the store.
//!
//! An event is the begin, a step, a compensation, a turn or a save-point of a journey, or the load of a batch. Each
//! contract names the rows that a function writes. If a statement fails, the function reports it, and the caller rolls
//! back.
//!
//! A load of cells whose rows are known writes them with less work than `desk_sql::put_cell`: one UPDATE for the nights of a
//! product, and INSERTs that look for no row, of a cell or of a week (`load_statements.rt`).
//!
//! Words: an event's *numbers* are those that `meta` has after the event; a journey *moves* if its cursor changes.
#![tactic(auto)]

mod begins;
mod committing;
mod events;
mod journeys;
mod load_statements;
mod loads;
mod runs;

pub use begins::write_begin;
pub use committing::{commit_event, write_event};
pub use events::{
    BatchLoaded, Event, JourneyBegun, Keeping, Numbers, SaveMade, StepMade, TurnMade,
};
pub use journeys::{write_compensation, write_save, write_transaction, write_turn};
pub use load_statements::{WEEK, insert_cell, insert_week, set_nights};
pub use loads::write_load;
