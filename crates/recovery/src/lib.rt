//! Recovery: after a crash, no journey is left half done.
//!
//! `recover` takes each unfinished journey back to its last save-point, or to its start, and from there to its end. It
//! keeps no list of journeys: it asks the book for the first unfinished journey after the last one that it treated.
//! `recover` returns the book as a `Ready`, and nothing else makes a `Ready`.
//!
//! Words: a *pass* goes over the unfinished journeys once, by rising number; the *room* of a ledger is how many more
//! events it may have.
//!
//! The desk by lines: the request that a line makes, and the line that answers it.
//!
//! `run_lines` answers the lines of a reader over a book: it writes the answers of all lines, in order, and nothing
//! else.
//!
//! Words: an *order* is what a line is read as: a command, or a refusal.
#![tactic(auto)]

mod asking;
mod laws;
mod line_laws;
mod orders;
mod passes;
mod ready;
mod recovering;
mod runs;
mod unread;

pub use laws::{one_recovery, recovery_of_one_room};
pub use line_laws::{commands_have_one_line, line_of_an_abort};
pub use orders::journey_in;
pub use ready::Ready;
pub use recovering::recover;
pub use runs::run_lines;
pub use saga_core::ServeFault;
