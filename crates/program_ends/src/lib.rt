//! How the program `desk` ends: its faults, its exit statuses, and what it prints at its end.
//!
//! `End::tell` prints an end and returns its exit status. A refusal goes to standard output; a `ProgramFault`, and the
//! usage, go to standard error. `end_of_arguments` is the end where the words of the command line cannot be read,
//! `end_of_listening` where the sockets cannot be listened on, and `end_of_connecting` where a desk cannot be asked.
//!
//! A `Cause` says why, as far as that is known, and what to do. `Ended::explain` prints its line after that of the end.
//!
//! A `Watched` reader gives what its reader gives, byte for byte. Where it has a terminal it also counts the lines, and writes there
//! how many there were so far: once a second, from the second second on. When the input ends it takes that away.
//!
//! The file of a desk: how it is opened and closed, and what can be said of it without opening it as a database.
//!
//! `connect` opens a file, and makes one that is absent; for `connect_there` an absent file is a fault. `close_after` closes it
//! after a job, so that the file has the whole database. A file that is no database, and one with the tables of another
//! program, is left as it was. Each fault comes with its cause, as far as that is known.
//!
//! No contract can speak of the bytes of a file: which file is opened, made or left alone is tested by scripts.
#![tactic(auto)]

mod arguments;
mod asking;
mod causes;
mod closing;
mod connections;
mod ended;
mod ends;
mod faults;
mod files;
mod listening;
mod meters;
mod watched;

pub use arguments::end_of_arguments;
pub use asking::end_of_connecting;
pub use causes::Cause;
pub use closing::{Left, close_after, close_from};
pub use connections::{
    ConnectionFrom, FileConnection, connect, connect_from, connect_there, connect_there_from,
};
pub use ended::Ended;
pub use ends::End;
pub use faults::ProgramFault;
pub use files::NewLog;
pub use listening::end_of_listening;
pub use meters::Meter;
pub use watched::Watched;
