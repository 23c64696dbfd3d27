//! The jobs of the words of the command line, by the rules of `clap`.
//!
//! `call_of` returns what the program was called with, or why the words are refused: the job over a file, the socket of the desk
//! that is asked for a report in its place, and whether a fault is to be explained. `report_job` returns the job of the words of
//! a report without a file. `program_version` and `version_line` return the version of the program.
#![tactic(auto)]

mod asked;
mod asking;
mod calls;
mod errors;
mod help;
mod job_values;
mod jobs;
mod subcommand_words;
mod subcommands;
mod timing;
mod values;
mod version;
mod words;

pub use asking::{Socket, report_job};
pub use calls::{Call, call_of};
pub use jobs::{Job, JobFault, LogForm};
pub use version::{program_version, version_line};
