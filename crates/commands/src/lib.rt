//! Commands, asks, items, replies and refusals: what is asked of the desk, and what it answers.
//!
//! A *command* may come with an *ask*: who asks, under which key, with which text. Without one the house asks. The
//! answer is a *reply*. Out of memory and a failed store are *faults*, and no replies. Each reply has one line, and an
//! accepted reply is read back from it. `put_text`, `put_whole` and `put_standing` insert the members of JSON objects that pages
//! and reports share.
#![tactic(auto)]

mod asks;
mod batches;
mod items;
mod laws;
mod limits;
mod members;
mod names;
mod readings;
mod replies;
mod texts;

pub use asks::{Ask, Command};
pub use batches::{BadBatch, Batch, CellKey, first_repeat};
pub use items::{Cause, Cursor, Item, Phase};
pub use laws::{line_of_a_first_step, replies_have_one_line};
pub use limits::{MOST_BYTES, MOST_EVENTS, MOST_NAMED_POSITION, MOST_ROWS};
pub use members::{put_standing, put_text, put_whole};
pub use names::{Agent, Key, Name};
pub use readings::{number_between, number_in};
pub use replies::{CsvCause, Fault, Refusal, Reply};
