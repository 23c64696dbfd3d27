//! The jobs of the program `desk` over files and sockets, each from the opening of its file to an orderly end.
//!
//! `perform` does a job of the command line, prints how it ended, and returns the exit status. `perform_explained` also
//! says on standard error what an opening recovered and why a fault came.
//!
//! What a call asks for is an `Action`, which `do_action` does: a task over a file is one call of `program_jobs::do_over_file`.
//! `perform` does it over a file of any contents, on this host.
#![tactic(auto)]

mod actions;
mod asking;
mod doing;
mod hosts;
mod listening;
mod programs;

pub use actions::Action;
pub use doing::do_action;
pub use programs::{perform, perform_explained};
