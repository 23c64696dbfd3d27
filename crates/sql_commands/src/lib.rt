//! Each command over the tables: first the reads, then one transaction with the rows of the event and of the kept
//! reply, whose commit is the last call of the store.
//!
//! `answer` executes a command of an agent or of the house, over a connection that keeps the state of a desk. After a
//! success the connection keeps the next state; in every case a crash leaves the old state or the next one. A retry
//! under its key gets the kept reply, or a refusal if its text differs, and changes nothing.
//!
//! Words: a connection *keeps* a state if its tables represent the state and a crash leaves just that state.
#![tactic(auto)]

mod answering;
mod begins;
mod cursors;
mod kept_replies;
mod loading;
mod moves;
mod step_outcome;

pub use answering::{Answered, answer, know_limits, read_counts};
pub use kept_replies::read_kept;
