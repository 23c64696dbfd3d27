//! The jobs that act on the desk of any store of the SQL library: what each writes, and what the connection represents
//! after it.
//!
//! A job takes a connection that is in no transaction and has no limit of steps, and returns it so, to be closed, with
//! its end. `ready_over` opens and recovers the desk for a job that goes on with it, and `let_go` returns its connection.
//! `end_of_opening` is the end of a job whose desk could not be opened. `send_line` writes a line that says what was done.
//!
//! At an *opening* the desk is reopened and recovers, and then answers an *input*: lines, the exchanges with many connections,
//! an allotment file, or nothing. `specs` says which executions go on from which (`Opening`), and which states are recoverable
//! after it (`LeavesOpened`). The jobs promise it of their connection, over whatever a crash left (`reopenings`).
//!
//! Words: a connection *represents* a state where an opening finds that state in it; a store without tables represents
//! a new desk.
#![tactic(auto)]

mod ends;
mod field_notes;
mod indexing;
mod laws;
mod loading;
mod migrating;
mod notes;
mod opening;
mod recovering;
mod running;
mod telling;

pub use ends::end_of_opening;
pub use field_notes::note_wrong_field;
pub use indexing::{index_over, tell_indexed};
pub use laws::{reopenings, session_that_crashes_may_reopen};
pub use loading::load_over;
pub use migrating::{migrate_over, tell_migrated};
pub use notes::note_recovered;
pub use opening::{let_go, ready_over};
pub use recovering::{Recovered, recover_over};
pub use running::run_over;
pub use telling::send_line;
