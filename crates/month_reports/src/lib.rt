//! The reports of cells by month: the summary of each product's months, and their calendar.
//!
//! A report has a text for each month of the cells that a source returns, in their order. The cells of one month at most
//! are in memory at a time, and each text is written at once. After a fault, what was written is a prefix of the report.
//! Flushing the writer is left to the caller.
//!
//! Words: a *month* is a list of adjacent cells of one product, each of a later night of the same month of the calendar
//! than the one before it. Where cells come in the order of the stock, these are all cells of the product in that month.
#![tactic(auto)]

mod by_month;
mod calendars;
mod days;
mod laws;
mod months;
mod summaries;
mod sums;

pub use by_month::months_text;
pub use laws::{each_month_is_one_run, months_from_a_room};
