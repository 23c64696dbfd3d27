//! Reads of the desk that a connection keeps. A read changes nothing, whether it succeeds or not.
//!
//! Each read queries the store, and returns what was found in the desk's types: journeys, their items and save-points,
//! the places of cells. A row with a value out of range is reported as a fault of the store.
//!
//! A history is read by one query for each item (`items.rt`), so that other statements may run between two.
//!
//! Words: a connection *keeps* a state if its tables represent the state and a crash leaves just that state.
#![tactic(auto)]

mod following;
mod history_rows;
mod item_search;
mod items;
mod nights_read;
mod plan_rows;
mod reads;
mod telling;
mod traces;

pub use history_rows::{ItemCursor, item_cursor};
pub use items::next_item;
pub use nights_read::{NightsRead, nights_with};
pub use plan_rows::{Choice, last_choice, next_choice};
pub use reads::{
    LARGEST, Stand, read_cells, read_first_unfinished, read_history, read_journey, read_record,
    read_stand,
};
pub use telling::{brief_of, cell_told};
pub use traces::{find_brief, read_items};
