//! The SQL statements of reports: cells, journeys, and the options that hold places of a cell, or of the cells that a filter
//! lets through, read one at a time.
//!
//! A filter stands in its statement, so that rows outside of the range that it names in a key are not read. The
//! remaining rows are a fixed list of the tables, in order, and nothing changes while they are read. After an error
//! nothing is promised of the remaining rows. Once the rows are dropped, the connection may be used again, whatever
//! happened.
//!
//! Words: as those of `desk_sql`; rows *rest* while they remain to be returned.
#![tactic(auto)]

mod cells;
mod holders;
mod holdings;
mod journeys;

pub use cells::{hand_cells, hand_stock, next_cell};
pub use holders::{HolderFound, hand_holders, next_holder};
pub use holdings::{HoldingFound, hand_holdings, next_holding};
pub use journeys::{hand_journeys, hand_owned, hand_unfinished, next_journey};
