//! The desk over sockets, on one thread: a port of 127.0.0.1, and a Unix socket that its owner alone may open.
//!
//! What no contract can say is kept here: what the system reports, and who comes and goes. All that is answered is
//! answered by `http_live`.
//!
//! Words: a *tick* is a tenth of a second; a *round* is one turn of each slot that may go on; *patience* is how long a peer
//! may owe the rest of a message, or to take a page.
#![tactic(auto)]

mod files;
mod limits;
mod listeners;
mod places;
mod sockets;

pub use files::is_socket_at;
pub use http_live::log_opening;
pub use http_log::LogForm;
pub use limits::{Limits, PATIENCE};
pub use sockets::Sockets;
