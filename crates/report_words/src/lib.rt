//! The report that words ask for: those of the command line, or those of the target of a request.
//!
//! `report_of` returns the report of a job. `report_asked` returns that of a target `/reports/SUBCOMMAND?WORD&WORD`, whose words
//! are read as those of the command line, by the same parser. `target_of` returns the target that asks for the report of words.
#![tactic(auto)]

mod jobs;
mod targets;

pub use jobs::report_of;
pub use targets::{asks_for_report, report_asked, target_of};
