//! The reports of the desk of a connection: each is written as its rows are read, and the connection is only read.
//!
//! `write_report` writes any of them, in tables of either version. What each is of a ledger stands in `report_kinds`.
#![tactic(auto, using(desk_sql::proofs::Quieting::quiet_alone, desk_sql::proofs::Quieting::quiet_twice))]

mod asked_reports;
mod brief_rows;
mod cell_rows;
mod found_rows;
mod holder_rows;
mod holding;
mod holding_rows;
mod item_rows;
mod month_reporting;
mod plain_reports;
mod progress;
mod whys;
mod writing;

pub use brief_rows::{start_journeys, start_unfinished};
pub use cell_rows::{start_cells, start_stock};
pub use found_rows::{FoundRow, FoundRows};
pub use holder_rows::start_holders;
pub use holding_rows::start_holdings;
pub use item_rows::{ItemRows, start_items};
pub use progress::Progress;
pub use writing::write_report;
