//! The desk over HTTP: the answer to a message.
//!
//! `answer_to` executes the demand of a message over a book, and returns the page that reports its outcome.
//!
//! A request comes in at a *door*: the port, with a page for browsers or without, or the house's own, where one that names
//! no agent is the house's.
//!
//! Words: a *demand* is what a request asks for if nothing is wrong with it, a *page* is the answer to a message, and
//! after a *closing* page the connection ends.
#![tactic(auto)]

mod answering;
mod begun;
mod demands;
mod doors;
mod law_examples;
mod laws;
mod mine;
mod plan_texts;
mod showing;
mod whys;

pub use answering::{Answer, answer_to};
pub use doors::{Door, Site};
pub use law_examples::{
    nobody_reads_metrics_at_the_port, step_has_a_short_ask, step_is_for_whom_it_is_meant,
    step_is_retried,
};
pub use laws::{again, asks_are_short, commands_are_for_whom_is_meant, reports_are_for_the_house};
pub use saga_core::ServeFault;
