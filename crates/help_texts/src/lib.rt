//! The texts of the help of the program: what each subcommand reads and prints, its exit statuses, and an example.
//!
//! The first line of a text says what the subcommand does. A line has at most 78 characters. In an example a line that
//! begins with `  $ ` is a command, and the lines that follow are what it prints.
#![tactic(auto)]

mod cells;
mod journeys;
mod program;
mod writers;

pub use cells::{HOLDERS, HOLDERS_NOTES, STOCK, STOCK_NOTES, SUMMARY, SUMMARY_NOTES};
pub use journeys::{
    HISTORY, HISTORY_NOTES, JOURNEYS, JOURNEYS_NOTES, UNFINISHED, UNFINISHED_NOTES, WHY, WHY_NOTES,
};
pub use program::PROGRAM;
pub use writers::{
    INDEX, INDEX_NOTES, LOAD, LOAD_NOTES, MIGRATE, MIGRATE_NOTES, RECOVER, RECOVER_NOTES, RUN,
    RUN_NOTES, SERVE, SERVE_NOTES,
};
