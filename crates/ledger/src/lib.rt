//! The definitions in which all promises of the desk are made, and four laws of them, each used on an example.
//!
//! A *ledger* is the list of all events. `specs/` defines what it means for journeys and places, which ledgers are
//! legal, how a request is answered, how a journey's history reads, and what a stop and recovery may leave. The laws
//! hold of every legal ledger and of every world, whatever was asked.
//!
//! Each part of a ledger is a sum or a filter of all its events. A desk that stores a journey's position, phase and
//! save-points, or how many places of a cell are free, changes these by one event at a time: `specs/` says what it stores
//! and how an event changes it (`Cursors`, `JourneyChanges`, `AnswerChanges`), and the lemmas that the whole ledger gives the
//! same. Each desk cites these.
//!
//! Words: an *event* is a load, a begin or an *item* of a journey; the *history* of a journey is its items; a *world*
//! is an execution: all that came to a new desk, with stops and reopenings; a *cursor* is where a journey is: its position,
//! its phase and how many of its steps were refused.
#![tactic(auto)]

mod laws;

pub use laws::{
    recoveries, recovery_of_a_journey_that_goes_back, steps, steps_of_a_stopped_journey, words,
    words_of_journeys_that_turn_back, world_of_a_step_cut_off, worlds,
};
