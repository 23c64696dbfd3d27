//! Many connections over one desk, on one thread, in any order of readiness.
//!
//! `serve_many` takes turns from any source and lets the connection of each go on by one step: what waits is written,
//! or else one message is answered, or else more is read. The messages of all connections are carried out one after
//! another, each once. A fault of a reader, a writer or of memory ends one connection; a fault of the store ends the desk.
//! `serve_to_end` does so over slots of its own, and writes what waits where the administrator stops the desk.
//!
//! Words: a *slot* has one connection after another; a *turn* is a step of the connection of one slot; the *standing* of a
//! connection says what it waits for.
//!
//! What is counted of what is served, and its log: which lines are written, and when. `http_log` has their form, and
//! that of the counts.
//!
//! A `Journal` sees what each slot received and its page. It counts each request and each connection that ended, and writes a
//! line for it, if a log is asked for. Nothing depends on it: what cannot be made or written is left out.
#![tactic(auto)]

mod clocks;
mod connection;
mod journal;
mod known;
mod laws;
mod serving;
mod slots;
mod texts;
mod whole;

pub use connection::Connection;
pub use http_log::Metrics;
pub use journal::{Journal, log_opening};
pub use laws::{second_turn_sees_the_first, turns_are_in_order};
pub use serving::{Ending, Turn, Turns, finish_many, serve_many};
pub use slots::{SLOTS, Slot, Standing, empty_slots};
pub use whole::serve_to_end;
