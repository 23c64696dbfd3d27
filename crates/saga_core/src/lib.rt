//! The contract of a book, what a crash leaves of a book, and runs of commands over any book.
//!
//! `Book` is the one contract on which every layer above depends. A book represents a ledger with its kept replies,
//! answers each command as the definitions say, and leaves the old state or the new one whatever happens.
//!
//! A `Report` names what a desk is asked to show, with its filter and format. A filter lets a cell or a journey through if it
//! has each of the values that the filter names; such a cell or journey is *asked for*.
//!
//! Readers and writers whose calls may transfer fewer bytes than asked, or be interrupted.
//!
//! An interrupted read or write is retried, and bytes that a write left are written by further calls. Any other error
//! is reported as one fault of reading, or as one of writing.
//!
//! A `ServeFault` says why a run over both ended early. Lines (`desk_lines`) and HTTP (`desk_http`) share it, and neither is built on
//! the other.
#![tactic(auto)]

mod books;
mod cell_filters;
mod cursors;
mod deciding;
mod journey_filters;
mod laws;
mod reading;
mod records;
mod report;
mod row_sources;
mod rulings;
mod runs;
mod serve_faults;
mod stream_faults;
mod writing;

pub use books::Book;
pub use cell_filters::CellFilter;
pub use commands::{
    Agent, Ask, BadBatch, Batch, Cause, Command, CsvCause, Cursor, Fault, Item, Key, Name, Phase,
    Refusal, Reply,
};
pub use cursors::{cursor_after, cursor_down, cursor_turned, cursor_up};
pub use deciding::{Move, decide};
pub use journey_filters::{JourneyFilter, JourneyState, Phases};
pub use laws::{chains, session_that_crashes};
pub use ledger;
pub use reading::read_some;
pub use records::{Brief, Counts, Record, Trace};
pub use report::{Format, JourneyReport, MonthReport, Report};
pub use row_sources::{Listed, RowSource};
pub use rulings::{going, is_finished, is_running, saved, turned};
pub use runs::run;
pub use serve_faults::ServeFault;
pub use stream_faults::{ReadFailed, WriteFailed};
pub use writing::{send, send_all};
