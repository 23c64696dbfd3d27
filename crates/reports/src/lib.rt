//! The reports: places by cell, journeys, and the history of a journey.
//!
//! A report is the layout of the rows that a source returns, one at a time, in a format: as a text, as JSON lines or as
//! CSV. Each line is made in memory and written at once, so a report needs no more memory for more rows. After a fault,
//! what was written is a prefix of the report. Flushing the writer is left to the caller.
//!
//! Words: a *column* is a text that is padded with blanks up to its width; the *head* of a report comes before its
//! rows, and its *ending* after them.
//!
//! The reports of holders: which steps of which journeys hold places of a cell, and who holds places of which cells, night
//! by night.
//!
//! A report has a line for each row that a source returns, in their order, and each is written at once. After a fault,
//! what was written is a prefix of the report. Flushing the writer is left to the caller.
//!
//! Words: a *holder* of a cell is a step of a journey whose transaction stands and whose want has the cell; a *holding* is a
//! holder with its cell, and with the agent and state of its journey.
#![tactic(auto)]

mod columns;
mod endings;
mod faults;
mod fields;
mod holder_layouts;
mod holder_texts;
mod holders;
mod holding_layouts;
mod holdings;
mod laws;
mod lines;
mod objects;
mod outputs;
mod parts;
mod pieces;
mod records;
mod reports;
mod rows;
mod taking;

pub use endings::Ending;
pub use faults::ReportFault;
pub use fields::Fields;
pub use holder_texts::{holders_text, holdings_text};
pub use holders::Holder;
pub use holdings::Holding;
pub use laws::{places_of_cells, places_of_holders, places_of_two_nights, places_of_two_stays};
pub use lines::night_text;
pub use objects::{journey_object, json_line};
pub use outputs::send;
pub use parts::{begin_stock, end_stock, stock_lines};
pub use records::put_journey;
pub use reports::{history_text, journeys_text, send_report, stock_text, unfinished_text};
pub use rows::Layout;
pub use taking::take_rows;
