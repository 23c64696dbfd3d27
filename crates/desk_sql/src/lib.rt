//! The SQL statements of the desk: one function for each, whose contract names the rows that it reads or changes.
//!
//! Each statement runs over any store. A write runs in a transaction, and its contract says what the rows are
//! afterwards. A read runs outside of one, changes nothing and returns typed rows. The tables are created here too.
//!
//! Words: a *row* is a row of a table, as a typed value; a connection *sees* rows if its tables show them.
#![tactic(auto)]

mod answers;
mod batches;
mod founding;
mod indexing;
mod journeys;
mod marks;
mod meta;
mod queries;
mod steps;
mod stock;
mod versions;

pub use answers::{KeptAnswer, find_answer, insert_answer};
pub use batches::{BatchFound, find_batch, insert_batch};
pub use founding::{has_no_tables, make_tables};
pub use indexing::{add_index, has_extra_index};
pub use journeys::{
    Cursor, ItemFound, JourneyFound, find_items, find_journey, first_unfinished, insert_item,
    insert_journey, move_journey, read_item, read_journey,
};
pub use marks::{delete_mark, find_marks, insert_mark};
pub use meta::{Meta, read_meta, update_meta};
pub use queries::first_row;
pub use steps::{StepFound, StepOption, find_options, find_steps, insert_step, mark_step};
pub use stock::{
    CellFound, CellPlaces, NightFound, NightRange, find_nights, give_nights, put_cell, read_cell,
    take_nights,
};
pub use versions::Version;
